//! The words of a source.

/// A part of the bytes of all words, or of all values.
#[derive(Clone, Copy)]
pub(crate) struct Piece {
    pub(crate) start: usize,
    pub(crate) end: usize,
}

/// A part without bytes.
pub(crate) const NOTHING: Piece = Piece { start: 0, end: 0 };

/// An operator of two bytes.
#[derive(Clone, Copy)]
pub(crate) enum Double {
    ShiftLeft,
    ShiftRight,
    AtMost,
    AtLeast,
    Equal,
    Unequal,
    And,
    Or,
}

/// A word of a source.
#[derive(Clone, Copy)]
pub(crate) enum Word {
    Version,
    Plugin,
    Reserve,
    Bits,
    DeleteProperty,
    DeleteNode,
    OmitIfNoReference,
    /// `/incbin/`, with the folder of the file that has it.
    Incbin(Piece),
    /// A name before a colon.
    Label(Piece),
    /// A label after `&`, or a path, which begins with a slash, in `&{ }`.
    Reference(Piece),
    /// The name of a node or of a property.
    Name(Piece),
    /// A string's bytes.
    Text(Piece),
    Number(u64),
    Character(u64),
    Byte(u8),
    Double(Double),
    Single(u8),
}

/// A word, and how many bytes of the text remain where it begins. In an included file it is where
/// the word `/include/` begins.
#[derive(Clone, Copy)]
pub(crate) struct Token {
    pub(crate) word: Word,
    pub(crate) left: usize,
}
