//! Numbers.

ghost use Rattle.std.specs.Prelude.{◌≤◌};

use crate::bytes::{after, before, byte_at, digits_length, hex_length};

// Returns how many bytes of a number's suffix the text begins with: U, L, UL, LL or ULL.
fn suffix_length(text: &[u8]) -> usize {
    for suffix in [
        b"ULL".as_slice(),
        b"LL".as_slice(),
        b"UL".as_slice(),
        b"U".as_slice(),
        b"L".as_slice(),
    ] {
        if text.starts_with(suffix) {
            return suffix.len();
        }
    }
    0
}

// Returns `None` if one is no digit or 64 bits overflow.
fn number(base: u32, digits: &[u8]) -> Option<u64>
    requires low { 2 ≤ base }
    requires high { base ≤ 16 }
{
    let mut value = 0u64;
    for b in digits {
        let digit = char::from(*b).to_digit(base)?;
        value = value
            .checked_mul(u64::from(base))?
            .checked_add(u64::from(digit))?;
    }
    Some(value)
}

/// A number at the start of a text: its length, and its value unless it is no number.
#[derive(Clone, Copy)]
pub(crate) struct Literal {
    pub(crate) length: usize,
    pub(crate) value: Option<u64>,
}

/// Reads a number at the start of a text, which begins with a digit: 0x and hexadecimal digits, 0
/// and octal digits, or decimal digits, and a suffix.
pub(crate) fn read_literal(text: &[u8]) -> Literal {
    let hex = match before(text, 2) {
        b"0x" | b"0X" => hex_length(after(text, 2)),
        _ => 0,
    };
    let is_hex = hex > 0;
    let digits = if is_hex {
        hex.saturating_add(2)
    } else {
        digits_length(text)
    };
    let word = before(text, digits);
    let value = if is_hex {
        number(16, after(word, 2))
    } else if byte_at(word, 0) == b'0' {
        number(8, word)
    } else {
        number(10, word)
    };
    let length = digits.saturating_add(suffix_length(after(text, digits)));
    Literal { length, value }
}

fn hex_digit(byte: u8) -> Option<u8> {
    let digit = char::from(byte).to_digit(16)?;
    Some((digit & 15) as u8)
}

/// Returns `None` if one is no hexadecimal digit.
pub(crate) fn hex_pair(a: u8, b: u8) -> Option<u8> {
    let high = hex_digit(a)?;
    let low = hex_digit(b)?;
    Some((high & 15) << 4 | low)
}
