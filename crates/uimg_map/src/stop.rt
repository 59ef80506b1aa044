//! Why a map is not written.

use crate::fault::MapFault;
use std::alloc::AllocError;
use std::io;
use std::io::ErrorKind;

/// Why a map was not written, or not all of it.
#[derive(Clone, Copy, Debug, PartialEq, Eq)]
pub enum MapStop {
    /// A name could not be read, or memory for a row's text was refused.
    Stopped(MapFault),

    /// The reader has closed the output.
    Closed,

    /// A write failed.
    Put,
}

impl From<MapFault> for MapStop {
    ghost use Rattle.std.specs.Prelude.{◌≡◌};
    ghost use Rattle.uimg_map.specs.declared.stop.MapStop.TheVariants.{Stopped};

    ghost from_gives = { λ fault stop. stop ≡ Stopped fault };

    fn from(fault: MapFault) -> MapStop {
        MapStop::Stopped(fault)
    }
}

impl From<AllocError> for MapStop {
    ghost use Rattle.std.specs.Prelude.{◌≡◌};
    ghost use Rattle.uimg_map.specs.declared.fault.MapFault.TheVariants.{OutOfMemory};
    ghost use Rattle.uimg_map.specs.declared.stop.MapStop.TheVariants.{Stopped};

    ghost from_gives = { λ _ stop. stop ≡ Stopped OutOfMemory };

    fn from(_error: AllocError) -> MapStop {
        MapStop::Stopped(MapFault::OutOfMemory)
    }
}

impl From<io::Error> for MapStop {
    ghost use Rattle.std.specs.{Prelude.{◌≡◌}, IoError.error_kind};
    ghost use Rattle.uimg_map.specs.Stops.{stop_of};

    ghost from_gives = { λ error stop. stop ≡ stop_of (error_kind error) };

    fn from(error: io::Error) -> MapStop {
        match error.kind() {
            ErrorKind::OutOfMemory => MapStop::Stopped(MapFault::OutOfMemory),
            ErrorKind::BrokenPipe => MapStop::Closed,
            _ => MapStop::Put,
        }
    }
}
