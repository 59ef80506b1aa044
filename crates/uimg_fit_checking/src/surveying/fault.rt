//! Why a FIT image has no survey.

use std::alloc::AllocError;
use thiserror::Error;
use uimg_base::SourceFault;
use uimg_fit_base::{Fault, FitFault};

/// Why an image has no survey. Its text is the line that the program prints.
#[derive(Clone, Copy, Debug, PartialEq, Eq, Error)]
pub enum SurveyFault {
    /// The image is refused, a read failed, or memory for the table of its nodes was refused.
    #[error("{0}")]
    Stopped(Fault),
    /// Memory for the facts was refused.
    #[error("out of memory")]
    OutOfMemory,
    /// The blob is not the one that was indexed. `survey` never returns it.
    #[error("changed while it was read")]
    Changed,
}

impl From<Fault> for SurveyFault {
    ghost use Rattle.std.specs.Prelude.{◌≡◌};
    ghost use Rattle.uimg_fit_checking.specs.declared.surveying.fault.SurveyFault.TheVariants.{Stopped};

    ghost from_gives = { λ f e. e ≡ Stopped f };

    fn from(fault: Fault) -> SurveyFault {
        SurveyFault::Stopped(fault)
    }
}

impl From<FitFault> for SurveyFault {
    ghost use Rattle.std.specs.Prelude.{◌≡◌};
    ghost use Rattle.uimg_fit_base.specs.declared.fault.Fault.TheVariants.{Fit};
    ghost use Rattle.uimg_fit_checking.specs.declared.surveying.fault.SurveyFault.TheVariants.{Stopped};

    ghost from_gives = { λ f e. e ≡ Stopped (Fit f) };

    fn from(fault: FitFault) -> SurveyFault {
        SurveyFault::Stopped(Fault::Fit(fault))
    }
}

impl From<SourceFault> for SurveyFault {
    ghost use Rattle.std.specs.Prelude.{◌≡◌};
    ghost use Rattle.uimg_fit_base.specs.declared.fault.Fault.TheVariants.{Read};
    ghost use Rattle.uimg_fit_checking.specs.declared.surveying.fault.SurveyFault.TheVariants.{Stopped};

    ghost from_gives = { λ _ e. e ≡ Stopped Read };

    fn from(_fault: SourceFault) -> SurveyFault {
        SurveyFault::Stopped(Fault::Read)
    }
}

impl From<AllocError> for SurveyFault {
    ghost use Rattle.std.specs.Prelude.{◌≡◌};
    ghost use Rattle.uimg_fit_checking.specs.declared.surveying.fault.SurveyFault.TheVariants.{OutOfMemory};

    ghost from_gives = { λ _ e. e ≡ OutOfMemory };

    fn from(_fault: AllocError) -> SurveyFault {
        SurveyFault::OutOfMemory
    }
}
