//! Why a command on an image, or the build of one, stopped.

ghost use Rattle.std.specs.Prelude.{◌≡◌, Some};
ghost use Rattle.std.specs.Option.{option_map};
ghost use Rattle.uimg_engine.specs.FaultTexts.{code_of, text_of};

use std::alloc::AllocError;
use std::error::Error;
use std::fmt;
use std::fmt::{Display, Formatter, Write};
use uimg_base::SourceFault;
use uimg_blob_reading::BlobFault;
use uimg_fit_base::FitFault;
use uimg_its::ItsFault;
use uimg_legacy::LegacyFault;

/// Why a command on an image, or the build of one, stopped. Its text is the line that the program
/// prints after `uimg: `, except for `NoFile` and `Keep`, where the program prints the path.
#[derive(Clone, Copy, Debug, PartialEq, Eq)]
pub enum Fault {
    /// The legacy image, or the parts to make one from, are refused.
    Legacy(LegacyFault),

    /// The blob of the FIT image is refused, or memory for its table of nodes; the offset counts
    /// from the file's start. A bad name of a tree to be built is at offset 0.
    Blob(BlobFault, u64),

    /// The FIT image, or the tree to make one from, is refused.
    Fit(FitFault),

    /// The image source is not compiled. A fault of a build.
    Its(ItsFault),

    /// A read failed, or the size of a file of an image that is made changed since it was found.
    Read,

    /// A write failed.
    Put,

    /// The file of this number, counted from 0, could not be opened; an image source is number 0. A
    /// fault of a build.
    NoFile(u64),

    /// What was written could not be reopened. A fault of a build.
    Keep,

    /// Memory for the opened files, or for the text of the image source, was refused. A fault of a
    /// build.
    OutOfMemory,
}

impl Fault {
    /// Returns the letter and number of the fault, the first word of its line, or none if its line
    /// has none.
    pub fn code(self) -> Option<&'static str>
        ensures { option_map (λ code. code.now) result ≡ code_of self }
    {
        match self {
            Fault::Legacy(fault) => Some(fault.code()),
            Fault::Blob(fault, _) => Some(fault.code()),
            Fault::Fit(fault) => Some(fault.code()),
            Fault::Its(fault) => Some(fault.kind.code()),
            _ => None,
        }
    }
}

impl Display for Fault {
    ghost output = { λ fault. Some (text_of fault) };

    fn fmt<W: Write>(&self, f: &mut Formatter<W>) -> fmt::Result {
        match *self {
            Fault::Legacy(fault) => f.write_str(fault.text()),
            Fault::Blob(fault, offset) => write!(f, "{fault} at {offset}"),
            Fault::Fit(fault) => f.write_str(fault.text()),
            Fault::Its(fault) => write!(f, "{fault}"),
            Fault::Read => f.write_str("read failed"),
            Fault::Put => f.write_str("write failed"),
            Fault::NoFile(number) => write!(f, "cannot read file {number}"),
            Fault::Keep => f.write_str("cannot read what was written"),
            Fault::OutOfMemory => f.write_str("out of memory"),
        }
    }
}

impl Error for Fault {}

impl From<uimg_legacy::Fault> for Fault {
    ghost use Rattle.std.specs.Prelude.{◌≡◌};
    ghost use Rattle.uimg_engine.specs.Faults.{of_legacy};

    ghost from_gives = { λ f e. e ≡ of_legacy f };

    fn from(fault: uimg_legacy::Fault) -> Fault {
        match fault {
            uimg_legacy::Fault::Legacy(own) => Fault::Legacy(own),
            uimg_legacy::Fault::Read => Fault::Read,
            uimg_legacy::Fault::Put => Fault::Put,
        }
    }
}

impl From<uimg_fit_base::Fault> for Fault {
    ghost use Rattle.std.specs.Prelude.{◌≡◌};
    ghost use Rattle.uimg_engine.specs.Faults.{of_fit};

    ghost from_gives = { λ f e. e ≡ of_fit f };

    fn from(fault: uimg_fit_base::Fault) -> Fault {
        match fault {
            uimg_fit_base::Fault::Blob(blob, at) => Fault::Blob(blob, at),
            uimg_fit_base::Fault::Fit(own) => Fault::Fit(own),
            uimg_fit_base::Fault::Read => Fault::Read,
            uimg_fit_base::Fault::Put => Fault::Put,
        }
    }
}

impl From<ItsFault> for Fault {
    ghost use Rattle.std.specs.Prelude.{◌≡◌};
    ghost use Rattle.uimg_engine.specs.declared.fault.Fault.TheVariants.{Its};

    ghost from_gives = { λ f e. e ≡ Its f };

    fn from(fault: ItsFault) -> Fault {
        Fault::Its(fault)
    }
}

impl From<FitFault> for Fault {
    ghost use Rattle.std.specs.Prelude.{◌≡◌};
    ghost use Rattle.uimg_engine.specs.declared.fault.Fault.TheVariants.{Fit};

    ghost from_gives = { λ f e. e ≡ Fit f };

    fn from(fault: FitFault) -> Fault {
        Fault::Fit(fault)
    }
}

impl From<SourceFault> for Fault {
    ghost use Rattle.std.specs.Prelude.{◌≡◌};
    ghost use Rattle.uimg_engine.specs.declared.fault.Fault.TheVariants.{Read};

    ghost from_gives = { λ _ e. e ≡ Read };

    fn from(_fault: SourceFault) -> Fault {
        Fault::Read
    }
}

impl From<AllocError> for Fault {
    ghost use Rattle.std.specs.Prelude.{◌≡◌};
    ghost use Rattle.uimg_engine.specs.declared.fault.Fault.TheVariants.{OutOfMemory};

    ghost from_gives = { λ _ e. e ≡ OutOfMemory };

    fn from(_error: AllocError) -> Fault {
        Fault::OutOfMemory
    }
}
