//! The faults of this crate.

ghost use Rattle.std.specs.Prelude.{◌≡◌, Some};
ghost use Rattle.uimg_blob_reading.specs.FaultTexts.{fault_text, fault_code, text_of};

use std::error::Error;
use std::fmt;
use std::fmt::{Display, Formatter, Write};
use uimg_base::SourceFault;

/// What is wrong with a blob, or with a tree to be written as one. The text is the start of the
/// line that the program prints, `B` and the variant's number first; the offset follows.
#[derive(Clone, Copy, Debug, PartialEq, Eq)]
pub enum BlobFault {
    /// The file has fewer than 40 bytes.
    TooShort = 1,
    /// The file does not begin with `0xd00dfeed`.
    BadMagic = 2,
    /// The version is below 17, or the last compatible version above 17.
    BadVersion = 3,
    /// The structure or strings block ends outside the blob, or the structure block is not aligned,
    /// or the blob is outside the file or shorter than its header.
    BlockOutside = 4,
    /// A word of the structure block is not a token.
    BadToken = 5,
    /// The structure block ends inside a token, or before `FDT_END`.
    Truncated = 6,
    /// A node's name has more than 255 bytes, or a NUL.
    BadNodeName = 7,
    /// A token is not allowed at its offset.
    BadNesting = 8,
    /// A property's name has more than 255 bytes, or a NUL, or is not in the strings block.
    BadPropertyName = 9,
    /// The blob has more than 4294967295 bytes.
    TooLarge = 10,
    /// Memory was refused.
    OutOfMemory = 11,
}

impl BlobFault {
    /// Returns the line of the fault, without its offset.
    pub fn text(self) -> &'static str
        ensures { result.now ≡ fault_text self }
    {
        match self {
            BlobFault::TooShort => "B1 too short",
            BlobFault::BadMagic => "B2 bad magic",
            BlobFault::BadVersion => "B3 bad version",
            BlobFault::BlockOutside => "B4 block outside",
            BlobFault::BadToken => "B5 bad token",
            BlobFault::Truncated => "B6 truncated",
            BlobFault::BadNodeName => "B7 bad node name",
            BlobFault::BadNesting => "B8 bad nesting",
            BlobFault::BadPropertyName => "B9 bad property name",
            BlobFault::TooLarge => "B10 too large",
            BlobFault::OutOfMemory => "B11 out of memory",
        }
    }

    /// Returns the letter and number of the fault, the first word of its line.
    pub fn code(self) -> &'static str
        ensures { result.now ≡ fault_code self }
    {
        match self {
            BlobFault::TooShort => "B1",
            BlobFault::BadMagic => "B2",
            BlobFault::BadVersion => "B3",
            BlobFault::BlockOutside => "B4",
            BlobFault::BadToken => "B5",
            BlobFault::Truncated => "B6",
            BlobFault::BadNodeName => "B7",
            BlobFault::BadNesting => "B8",
            BlobFault::BadPropertyName => "B9",
            BlobFault::TooLarge => "B10",
            BlobFault::OutOfMemory => "B11",
        }
    }
}

impl Display for BlobFault {
    ghost output = { λ fault. Some (fault_text fault) };

    fn fmt<W: Write>(&self, f: &mut Formatter<W>) -> fmt::Result {
        f.write_str(self.text())
    }
}

impl Error for BlobFault {}

/// Why a blob is not indexed.
#[derive(Clone, Copy, Debug, PartialEq, Eq)]
pub enum IndexFault {
    /// The blob is refused; the offset is from the start of the file.
    Blob(BlobFault, u64),
    /// A read failed.
    Read,
}

impl Display for IndexFault {
    ghost output = { λ fault. Some (text_of fault) };

    fn fmt<W: Write>(&self, f: &mut Formatter<W>) -> fmt::Result {
        match *self {
            IndexFault::Blob(fault, offset) => write!(f, "{fault} at {offset}"),
            IndexFault::Read => f.write_str("read failed"),
        }
    }
}

impl Error for IndexFault {}

impl From<SourceFault> for IndexFault {
    ghost use Rattle.std.specs.Prelude.{◌≡◌};
    ghost use Rattle.uimg_blob_reading.specs.declared.fault.IndexFault.TheVariants.{Read};

    ghost from_gives = { λ _ e. e ≡ Read };

    fn from(_fault: SourceFault) -> IndexFault {
        IndexFault::Read
    }
}
