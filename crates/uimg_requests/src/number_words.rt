//! The numbers of a command line.

ghost use Rattle.std.specs.Prelude.{◌≡◌, ◌≢◌, ◌≤◌, ◌∷◌, ℕ, List};
ghost use Rattle.uimg_requests.specs.Numbers.{IsNumberOf};

/// Returns the number of one or more decimal digits. Returns `None` for any other text, and for a
/// number of more than 32 bits.
pub fn decimal(text: &str) -> Option<u32>
    ensures { IsNumberOf 10 text.now result }
{
    number(text, 10)
}

/// Returns the number of one or more hexadecimal digits, with or without `0x` before them. Returns
/// `None` for any other text, and for a number of more than 32 bits.
pub fn hexadecimal(text: &str) -> Option<u32>
    ensures marked { (digits : List ℕ) → text.now ≡ 48 ∷ 120 ∷ digits →
        IsNumberOf 16 digits result }
    ensures plain { ((digits : List ℕ) → text.now ≢ 48 ∷ 120 ∷ digits) →
        IsNumberOf 16 text.now result }
{
    match text.strip_prefix("0x") {
        Some(digits) => number(digits, 16),
        None => number(text, 16),
    }
}

// The standard library would accept a plus before the digits.
fn number(text: &str, base: u32) -> Option<u32>
    requires least { 2 ≤ base }
    requires most { base ≤ 36 }
    ensures { IsNumberOf base text.now result }
{
    if text.starts_with('+') {
        return None;
    }
    u32::from_str_radix(text, base).ok()
}
