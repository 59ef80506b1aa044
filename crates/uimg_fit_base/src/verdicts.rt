//! What a report says of a hash node.

ghost use Rattle.std.specs.Prelude.{◌≡◌};
ghost use Rattle.uimg_fit_base.specs.Report.{word_text, is_right};

/// The word that a report prints for a hash node.
#[derive(Clone, Copy, Debug, PartialEq, Eq)]
pub enum Verdict {
    /// The name of the algorithm or the value is missing, or the value is not as long as a digest.
    Malformed,
    /// The algorithm is unknown.
    Unsupported,
    /// The value is the digest of the payload.
    Right,
    /// The value differs from it.
    Wrong,
}

/// Returns the text of a word.
pub fn word_text(word: Verdict) -> &'static str
    ensures { result.now ≡ word_text word }
{
    match word {
        Verdict::Malformed => "malformed",
        Verdict::Unsupported => "unsupported",
        Verdict::Right => "ok",
        Verdict::Wrong => "bad",
    }
}

/// Returns whether a word says that a hash is right.
pub fn is_right(word: Verdict) -> bool
    ensures { result ≡ is_right word }
{
    match word {
        Verdict::Right => true,
        _ => false,
    }
}
