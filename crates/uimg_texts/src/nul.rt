//! NUL-terminated texts.

ghost use Rattle.std.specs.Prelude.{◌≡◌, ◌<◌, length, take, Some, None, IfSome, MatchOption};
ghost use Rattle.uimg_texts.specs.Nul.{before_nul, text};

/// Finds the first NUL, which ends a text. Returns its index, or `None` if there is none.
pub fn first_nul(bytes: &[u8]) -> Option<usize>
    ensures within { IfSome result (λ n. n < length bytes.now) }
    ensures text { MatchOption result (before_nul bytes.now ≡ None)
        (λ n. before_nul bytes.now ≡ Some (take n bytes.now)) }
{
    for (i, byte) in bytes.iter().enumerate() {
        if *byte == 0 {
            return Some(i);
        }
    }
    None
}

/// Returns the bytes before the first NUL, or all bytes if there is none.
#[tactic(auto, unfolding(crate::specs::Nul::text))]
pub fn before_nul(bytes: &[u8]) -> &[u8]
    ensures { result.now ≡ text bytes.now }
{
    match first_nul(bytes) {
        Some(end) => &bytes[..end],
        None => bytes,
    }
}
