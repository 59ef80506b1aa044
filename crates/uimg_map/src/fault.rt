//! Why an image has no map, or what is wrong with an image that has one.

ghost use Rattle.std.specs.Prelude.{Some};
ghost use Rattle.uimg_map.specs.FaultTexts.{text_of};

use std::alloc::{AllocError, AllocFailed};
use std::error::Error;
use std::fmt;
use std::fmt::{Display, Formatter, Write};
use uimg_base::SourceFault;

/// Why an image has no map, or what is wrong with an image that has one. Its text is the line that
/// the program prints.
#[derive(Clone, Copy, Debug, PartialEq, Eq)]
pub enum MapFault {
    /// The legacy image is refused.
    Legacy(uimg_legacy::Fault),

    /// The FIT image is refused, or memory for the table of its nodes was refused.
    Fit(uimg_fit_base::Fault),

    /// A read failed.
    Read,

    /// Memory for the map was refused.
    OutOfMemory,
}

impl Display for MapFault {
    ghost output = { λ fault. Some (text_of fault) };

    fn fmt<W: Write>(&self, f: &mut Formatter<W>) -> fmt::Result {
        match *self {
            MapFault::Legacy(fault) => write!(f, "{fault}"),
            MapFault::Fit(fault) => write!(f, "{fault}"),
            MapFault::Read => f.write_str("read failed"),
            MapFault::OutOfMemory => f.write_str("out of memory"),
        }
    }
}

impl Error for MapFault {}

impl From<SourceFault> for MapFault {
    ghost use Rattle.std.specs.Prelude.{◌≡◌};
    ghost use Rattle.uimg_map.specs.declared.fault.MapFault.TheVariants.{Read};

    ghost from_gives = { λ _ e. e ≡ Read };

    fn from(_fault: SourceFault) -> MapFault {
        MapFault::Read
    }
}

impl From<AllocError> for MapFault {
    ghost use Rattle.std.specs.Prelude.{◌≡◌};
    ghost use Rattle.uimg_map.specs.declared.fault.MapFault.TheVariants.{OutOfMemory};

    ghost from_gives = { λ _ e. e ≡ OutOfMemory };

    fn from(_error: AllocError) -> MapFault {
        MapFault::OutOfMemory
    }
}

impl<X: Drop> From<AllocFailed<X>> for MapFault {
    ghost use Rattle.std.specs.Prelude.{◌≡◌};
    ghost use Rattle.uimg_map.specs.declared.fault.MapFault.TheVariants.{OutOfMemory};

    ghost from_gives = { λ _ e. e ≡ OutOfMemory };

    fn from(failed: AllocFailed<X>) -> MapFault {
        drop(failed);
        MapFault::OutOfMemory
    }
}
