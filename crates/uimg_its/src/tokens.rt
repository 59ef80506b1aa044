//! The words of a text, and where each begins.

/// A byte that is a word by itself, a lone slash, or a lone comma.
#[derive(Clone, Copy, Debug, PartialEq, Eq)]
pub(crate) enum Mark {
    Slash,
    Comma,
    BraceOpen,
    BraceClose,
    Semicolon,
    Equals,
    Less,
    Greater,
    ParenOpen,
    ParenClose,
    BracketOpen,
    BracketClose,
    Colon,
    Ampersand,
    Apostrophe,
}

/// A word of a source text: a name word, a directive (the text between its slashes), a string (the
/// text after its opening quote), or a mark.
#[derive(Clone, Copy, Debug)]
pub(crate) enum Word<'a> {
    Name(&'a [u8]),
    Directive(&'a [u8]),
    Text(&'a [u8]),
    Mark(Mark),
}

/// A word, and how many bytes of the text remain where it begins.
#[derive(Clone, Copy, Debug)]
pub(crate) struct Token<'a> {
    pub(crate) word: Word<'a>,
    pub(crate) left: usize,
}
