//! What is wrong with a FIT image, and why a command on one stopped.

ghost use Rattle.std.specs.Prelude.{◌≡◌, Some};
ghost use Rattle.uimg_fit_base.specs.FaultTexts.{fault_text, fault_code, text_of};

use std::error::Error;
use std::fmt;
use std::fmt::{Display, Formatter, Write};
use uimg_base::{MoveFault, PutFault, SourceFault};
use uimg_blob_reading::{BlobFault, IndexFault};

/// What is wrong with a FIT image's images, or with a tree to build one from. Its text is the line
/// that the program prints, a letter and the variant's number first.
#[derive(Clone, Copy, Debug, PartialEq, Eq)]
pub enum FitFault {
    /// The root has no child `images`.
    NoImages = 1,
    /// An image has no payload.
    NoData = 2,
    /// A payload ends after the file.
    DataOutside = 3,
    /// There is no image at the position.
    NoSuchImage = 4,
    /// A hash node names no known algorithm.
    UnknownAlgo = 5,
    /// The payloads would begin before the blob's end.
    PositionTooLow = 6,
    /// The file would have more than 4294967295 bytes.
    TooLarge = 7,
    /// Memory was refused.
    OutOfMemory = 8,
    /// A payload's file could not be opened.
    NoFile = 9,
    /// A read of a payload's file failed, or its size differs from the one that the tree keeps.
    ReadFailed = 10,
}

impl FitFault {
    /// Returns the line of the fault.
    pub fn text(self) -> &'static str
        ensures { result.now ≡ fault_text self }
    {
        match self {
            FitFault::NoImages => "F1 no images",
            FitFault::NoData => "F2 no data",
            FitFault::DataOutside => "F3 data outside",
            FitFault::NoSuchImage => "F4 no such image",
            FitFault::UnknownAlgo => "F5 unknown algorithm",
            FitFault::PositionTooLow => "F6 position too low",
            FitFault::TooLarge => "F7 too large",
            FitFault::OutOfMemory => "F8 out of memory",
            FitFault::NoFile => "F9 no file",
            FitFault::ReadFailed => "F10 read failed",
        }
    }

    /// Returns the letter and number of the fault, the first word of its line.
    pub fn code(self) -> &'static str
        ensures { result.now ≡ fault_code self }
    {
        match self {
            FitFault::NoImages => "F1",
            FitFault::NoData => "F2",
            FitFault::DataOutside => "F3",
            FitFault::NoSuchImage => "F4",
            FitFault::UnknownAlgo => "F5",
            FitFault::PositionTooLow => "F6",
            FitFault::TooLarge => "F7",
            FitFault::OutOfMemory => "F8",
            FitFault::NoFile => "F9",
            FitFault::ReadFailed => "F10",
        }
    }
}

impl Display for FitFault {
    ghost output = { λ fault. Some (fault_text fault) };

    fn fmt<W: Write>(&self, f: &mut Formatter<W>) -> fmt::Result {
        f.write_str(self.text())
    }
}

impl Error for FitFault {}

/// Why a command stopped.
#[derive(Clone, Copy, Debug, PartialEq, Eq)]
pub enum Fault {
    /// The blob is refused, or memory for its table of nodes; the offset counts from the file's
    /// start. A bad name of a tree to be built is at offset 0.
    Blob(BlobFault, u64),
    /// The images are refused.
    Fit(FitFault),
    /// A read failed, or the size of a payload's file differs from the one that the tree keeps.
    Read,
    /// A write failed.
    Put,
}

impl Display for Fault {
    ghost output = { λ fault. Some (text_of fault) };

    fn fmt<W: Write>(&self, f: &mut Formatter<W>) -> fmt::Result {
        match *self {
            Fault::Blob(fault, offset) => write!(f, "{fault} at {offset}"),
            Fault::Fit(fault) => f.write_str(fault.text()),
            Fault::Read => f.write_str("read failed"),
            Fault::Put => f.write_str("write failed"),
        }
    }
}

impl Error for Fault {}

impl From<IndexFault> for Fault {
    ghost use Rattle.std.specs.Prelude.{◌≡◌};
    ghost use Rattle.uimg_fit_base.specs.Faults.{of_index};

    ghost from_gives = { λ f e. e ≡ of_index f };

    fn from(fault: IndexFault) -> Fault {
        match fault {
            IndexFault::Blob(blob, at) => Fault::Blob(blob, at),
            IndexFault::Read => Fault::Read,
        }
    }
}

impl From<FitFault> for Fault {
    ghost use Rattle.std.specs.Prelude.{◌≡◌};
    ghost use Rattle.uimg_fit_base.specs.declared.fault.Fault.TheVariants.{Fit};

    ghost from_gives = { λ f e. e ≡ Fit f };

    fn from(fault: FitFault) -> Fault {
        Fault::Fit(fault)
    }
}

impl From<SourceFault> for Fault {
    ghost use Rattle.std.specs.Prelude.{◌≡◌};
    ghost use Rattle.uimg_fit_base.specs.declared.fault.Fault.TheVariants.{Read};

    ghost from_gives = { λ _ e. e ≡ Read };

    fn from(_fault: SourceFault) -> Fault {
        Fault::Read
    }
}

impl From<PutFault> for Fault {
    ghost use Rattle.std.specs.Prelude.{◌≡◌};
    ghost use Rattle.uimg_fit_base.specs.declared.fault.Fault.TheVariants.{Put};

    ghost from_gives = { λ _ e. e ≡ Put };

    fn from(_fault: PutFault) -> Fault {
        Fault::Put
    }
}

impl From<MoveFault> for Fault {
    ghost use Rattle.std.specs.Prelude.{◌≡◌};
    ghost use Rattle.uimg_fit_base.specs.Faults.{of_move};

    ghost from_gives = { λ f e. e ≡ of_move f };

    fn from(fault: MoveFault) -> Fault {
        match fault {
            MoveFault::Read => Fault::Read,
            MoveFault::Put => Fault::Put,
        }
    }
}
