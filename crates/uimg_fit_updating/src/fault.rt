//! Why an image is not updated.

use std::alloc::AllocError;
use thiserror::Error;
use uimg_base::{MoveFault, SourceFault};
use uimg_blob_reading::PropertiesFault;
use uimg_fit_base::{Fault, FitFault};

/// Why an image is not updated.
#[derive(Clone, Copy, Debug, PartialEq, Eq, Error)]
pub enum UpdateFault {
    /// The image is refused, or a read failed.
    #[error("{0}")]
    Fit(Fault),
    /// The reservation block begins within the header, or no entry of size 0 ends it before the
    /// structure block or the blob's end, and within 65536 bytes.
    #[error("the reservation block has no end")]
    Endless,
    /// The tree has more levels than are read.
    #[error("the tree has more than 64 levels")]
    TooDeep,
    /// The image was changed while it was read.
    #[error("changed while it was read")]
    Changed,
    /// Memory was refused.
    #[error("out of memory")]
    OutOfMemory,
}

impl From<Fault> for UpdateFault {
    ghost use Rattle.std.specs.Prelude.{◌≡◌};
    ghost use Rattle.uimg_fit_updating.specs.declared.fault.UpdateFault.TheVariants.{Fit};

    ghost from_gives = { λ f e. e ≡ Fit f };

    fn from(fault: Fault) -> UpdateFault {
        UpdateFault::Fit(fault)
    }
}

impl From<FitFault> for UpdateFault {
    ghost use Rattle.std.specs.Prelude.{◌≡◌};
    ghost use Rattle.uimg_fit_base.specs.declared.fault.Fault.TheVariants as of;
    ghost use Rattle.uimg_fit_updating.specs.declared.fault.UpdateFault.TheVariants.{Fit};

    ghost from_gives = { λ f e. e ≡ Fit (of.Fit f) };

    fn from(fault: FitFault) -> UpdateFault {
        UpdateFault::Fit(Fault::Fit(fault))
    }
}

impl From<SourceFault> for UpdateFault {
    fn from(_fault: SourceFault) -> UpdateFault {
        UpdateFault::Fit(Fault::Read)
    }
}

impl From<MoveFault> for UpdateFault {
    fn from(fault: MoveFault) -> UpdateFault {
        match fault {
            MoveFault::Read => UpdateFault::Fit(Fault::Read),
            MoveFault::Put => UpdateFault::OutOfMemory,
        }
    }
}

impl From<PropertiesFault> for UpdateFault {
    fn from(fault: PropertiesFault) -> UpdateFault {
        match fault {
            PropertiesFault::Read => UpdateFault::Fit(Fault::Read),
            PropertiesFault::OutOfMemory => UpdateFault::OutOfMemory,
            PropertiesFault::Changed => UpdateFault::Changed,
        }
    }
}

impl From<AllocError> for UpdateFault {
    fn from(_error: AllocError) -> UpdateFault {
        UpdateFault::OutOfMemory
    }
}
