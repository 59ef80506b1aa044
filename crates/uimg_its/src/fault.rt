//! Why a text is not compiled.

ghost use Rattle.std.specs.Prelude.{◌≡◌, Some};
ghost use Rattle.uimg_its.specs.FaultTexts.{construct_text, fault_text, fault_code, text_of};

use std::error::Error;
use std::fmt;
use std::fmt::{Display, Formatter, Write};

/// A construct of devicetree source that this profile omits.
#[derive(Clone, Copy, Debug, PartialEq, Eq)]
pub enum Construct {
    /// `&`, which begins a reference to a label or a path.
    Reference,
    /// `'`, which begins a character literal.
    CharacterLiteral,
    /// `(` among cells, which begins an expression.
    Expression,
    /// A directive other than `/dts-v1/` or `/incbin/` where these are allowed.
    Directive,
    /// `/` and `{` after the root.
    SecondRoot,
    /// The comma after the name of a file, which begins a range of the file.
    IncbinRange,
    /// An escape other than `\\ \" \n \t \r`, `\0` not followed by an octal digit, and `\x` with
    /// two hexadecimal digits.
    Escape,
    /// A word outside the root that begins with `#`, such as a C preprocessor line.
    Preprocessor,
    /// A node below the 64th level; the root is at the first.
    Depth,
}

impl Construct {
    /// Returns the name of the construct in the line of a fault.
    pub fn text(self) -> &'static str
        ensures { result.now ≡ construct_text self }
    {
        match self {
            Construct::Reference => "reference",
            Construct::CharacterLiteral => "character literal",
            Construct::Expression => "expression",
            Construct::Directive => "directive",
            Construct::SecondRoot => "second root",
            Construct::IncbinRange => "incbin range",
            Construct::Escape => "escape",
            Construct::Preprocessor => "preprocessor",
            Construct::Depth => "depth",
        }
    }
}

impl Display for Construct {
    ghost output = { λ construct. Some (construct_text construct) };

    fn fmt<W: Write>(&self, f: &mut Formatter<W>) -> fmt::Result {
        f.write_str(self.text())
    }
}

impl Error for Construct {}

/// Why a source text is not compiled.
#[derive(Clone, Copy, Debug, PartialEq, Eq)]
pub enum FaultKind {
    /// A byte begins no word, or a comment or a string is not closed.
    BadToken,
    /// The grammar has another word here, a name has more than 255 bytes, or the text ends too
    /// early.
    BadSyntax,
    /// The text has a construct that this profile omits.
    OutOfProfile(Construct),
    /// A cell is not a number below 2^32, or the digits of a byte list are not hexadecimal pairs.
    BadNumber,
    /// A file could not be opened.
    NoFile,
    /// A read of a file failed.
    ReadFailed,
    /// Memory was refused.
    OutOfMemory,
}

impl FaultKind {
    /// Returns the letter and number of the fault, the first word of its line.
    pub fn code(self) -> &'static str
        ensures { result.now ≡ fault_code self }
    {
        match self {
            FaultKind::BadToken => "I1",
            FaultKind::BadSyntax => "I2",
            FaultKind::OutOfProfile(_) => "I3",
            FaultKind::BadNumber => "I4",
            FaultKind::NoFile => "I5",
            FaultKind::ReadFailed => "I6",
            FaultKind::OutOfMemory => "I7",
        }
    }
}

impl Display for FaultKind {
    ghost output = { λ kind. Some (fault_text kind) };

    fn fmt<W: Write>(&self, f: &mut Formatter<W>) -> fmt::Result {
        match *self {
            FaultKind::BadToken => f.write_str("I1 bad token"),
            FaultKind::BadSyntax => f.write_str("I2 bad syntax"),
            FaultKind::OutOfProfile(construct) => write!(f, "I3 out of profile: {construct}"),
            FaultKind::BadNumber => f.write_str("I4 bad number"),
            FaultKind::NoFile => f.write_str("I5 no file"),
            FaultKind::ReadFailed => f.write_str("I6 read failed"),
            FaultKind::OutOfMemory => f.write_str("I7 out of memory"),
        }
    }
}

impl Error for FaultKind {}

/// Why a source text is not compiled, and where. The text is the line that the program prints.
#[derive(Clone, Copy, Debug, PartialEq, Eq)]
pub struct ItsFault {
    /// The reason.
    pub kind: FaultKind,
    /// The line of the first byte of the word at which the text cannot continue, from 1. If the
    /// text ends too early, its last line; a newline at the end belongs to that line.
    pub line: u64,
}

impl Display for ItsFault {
    ghost output = { λ fault. Some (text_of fault) };

    fn fmt<W: Write>(&self, f: &mut Formatter<W>) -> fmt::Result {
        write!(f, "{} at line {}", self.kind, self.line)
    }
}

impl Error for ItsFault {}
