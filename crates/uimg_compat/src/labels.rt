//! Whether a source has labels.

ghost use Rattle.std.specs.Prelude.{◌≡◌};
ghost use Rattle.uimg_compat.specs.Labels.{has_labels, place_after};

/// Where a byte of a source is.
#[derive(Clone, Copy, PartialEq, Eq)]
enum Place {
    /// Among the words.
    Words,

    /// After a `/`, which may begin a comment.
    Slash,

    /// In a comment that ends with its line.
    Line,

    /// In a comment that ends with `*/`.
    Comment,

    /// After a `*` in such a comment.
    Star,

    /// In a string.
    Text,

    /// After a `\` in a string.
    Escape,
}

/// Returns whether a text has a `:` outside of strings and comments, as each label of a source has
/// one.
pub fn has_labels(text: &[u8]) -> bool
    ensures { result ≡ has_labels text.now }
{
    let mut place = Place::Words;
    for byte in text {
        if *byte == b':' && (place == Place::Words || place == Place::Slash) {
            return true;
        }
        place = place_after(place, *byte);
    }
    false
}

fn place_after(place: Place, byte: u8) -> Place
    ensures { result ≡ place_after place byte }
{
    match (place, byte) {
        (Place::Slash, b'/') => Place::Line,
        (Place::Slash, b'*') => Place::Comment,
        (Place::Words, b'/') => Place::Slash,
        (Place::Words | Place::Slash, b'"') => Place::Text,
        (Place::Words | Place::Slash, _) => Place::Words,
        (Place::Line, b'\n') => Place::Words,
        (Place::Line, _) => Place::Line,
        (Place::Star, b'/') => Place::Words,
        (Place::Comment | Place::Star, b'*') => Place::Star,
        (Place::Comment | Place::Star, _) => Place::Comment,
        (Place::Text, b'"') => Place::Words,
        (Place::Text, b'\\') => Place::Escape,
        (Place::Text | Place::Escape, _) => Place::Text,
    }
}
