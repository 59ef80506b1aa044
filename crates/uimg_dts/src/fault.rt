//! Why a source is not compiled.

use thiserror::Error;

/// What a source has that is not compiled, or that there is no memory for it.
#[derive(Clone, Copy, Debug, PartialEq, Eq, Error)]
pub enum Refusal {
    /// A byte begins no word, a comment or a string is not closed, or an escape has no digits.
    #[error("bad token")]
    BadToken,
    /// The grammar has another word here, or the source ends too early.
    #[error("bad syntax")]
    BadSyntax,
    /// A number has more than 64 bits or a digit too great for its base. A division is by zero. An
    /// element has no such size or does not fit. An offset in a file is 2^63 or more.
    #[error("bad number")]
    BadNumber,
    /// The source is a plugin, whose references are resolved when it is applied.
    #[error("plugin")]
    Plugin,
    /// A node is below the 64th level, or an expression has more than 64 levels.
    #[error("depth")]
    Depth,
    /// The sources include more than 199 files, or files that include one another are more than 64.
    #[error("too many includes")]
    Includes,
    /// A reference names no node.
    #[error("no such node")]
    NoNode,
    /// Two nodes or two properties of a node have one name, or a label names two things.
    #[error("duplicate name")]
    Duplicate,
    /// A name has a character that it may not have, or a property `name` is not the node's name.
    #[error("bad name")]
    BadName,
    /// A property `phandle` or `linux,phandle` is no number of a node, or of two.
    #[error("bad phandle")]
    BadPhandle,
    /// The root is deleted.
    #[error("no root")]
    NoRoot,
    /// Memory was refused.
    #[error("out of memory")]
    OutOfMemory,
}

/// Why a source is not compiled.
#[derive(Clone, Copy, Debug, PartialEq, Eq, Error)]
pub enum DtsKind {
    /// The source is refused, or memory for it.
    #[error("{0}")]
    Source(Refusal),
    /// A file could not be opened.
    #[error("no file")]
    NoFile,
    /// A read of a file failed.
    #[error("read failed")]
    ReadFailed,
}

/// Why a source is not compiled, and where.
#[derive(Clone, Copy, Debug, PartialEq, Eq, Error)]
#[error("{kind} at line {line}")]
pub struct DtsFault {
    /// The reason.
    pub kind: DtsKind,
    /// The line of the text, from 1, of the word where it stopped; that of the word `/include/` if
    /// the word is in an included file: of a name that is given twice the second, of a reference the
    /// reference. If the root is deleted, the last line.
    pub line: u64,
}
