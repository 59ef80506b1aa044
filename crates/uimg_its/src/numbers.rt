//! Numbers of cells.

ghost use Rattle.std.specs.Prelude.{◌≡◌, ◌≤◌, ◌<◌, ◌+◌, ◌*◌, IfSome};
ghost use Rattle.uimg_its.specs.Digits.{number_in_base, hex_digit, hex_pair};
ghost use Rattle.uimg_its.specs.Cells.{number_of_cell};

// Returns `None` if one is no digit or 32 bits overflow.
#[tactic(auto, unfolding(crate::specs::Digits::number_in_base))]
fn number(base: u32, digits: &[u8]) -> Option<u32>
    requires low { 2 ≤ base }
    requires high { base ≤ 16 }
    ensures { result ≡ number_in_base base digits.now }
{
    let mut value = 0u32;
    'digits: for byte in digits {
        let digit = char::from(*byte).to_digit(base)?;
        let next = u64::from(value) * u64::from(base) + u64::from(digit);
        if next > u32::MAX as u64 {
            return None;
        }
        value = next as u32;
    }
    Some(value)
}

/// Returns `None` if the word is not a number or has more than 32 bits.
#[tactic(auto, unfolding(crate::specs::Cells::number_of_cell))]
pub(crate) fn cell(word: &[u8]) -> Option<u32>
    ensures { result ≡ number_of_cell word.now }
{
    match word {
        [] => None,
        [b'0', b'x' | b'X', _, ..] => number(16, &word[2..]),
        [b'0', _, ..] => number(8, &word[1..]),
        _ => number(10, word),
    }
}

fn hex_digit(byte: u8) -> Option<u8>
    ensures digit { result ≡ hex_digit byte }
    ensures below { IfSome result (λ d. d < 16) }
{
    let digit = char::from(byte).to_digit(16)?;
    Some(digit as u8)
}

/// Returns `None` if one is no hexadecimal digit.
pub(crate) fn hex_pair(a: u8, b: u8) -> Option<u8>
    ensures { result ≡ hex_pair a b }
{
    let high = hex_digit(a)?;
    let low = hex_digit(b)?;
    Some(high * 16 + low)
}
