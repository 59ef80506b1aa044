//! The exit status of a fault.

ghost use Rattle.std.specs.Prelude.{◌≡◌};
ghost use Rattle.uimg_checks.specs.FaultStatuses.{fault_status, fit_status, source_status};

use uimg_blob_reading::BlobFault;
use uimg_engine::Fault;
use uimg_fit_base::FitFault;
use uimg_its::FaultKind;

/// The image is refused.
pub(crate) const REFUSED: u8 = 1;

/// A file could not be opened, or a read, a write or memory failed.
const FAILED: u8 = 3;

/// Returns the exit status of a command that stopped by a fault: 1 if it refuses the image or the
/// source, or else 3.
pub fn status_of_fault(fault: Fault) -> u8
    ensures { result ≡ fault_status fault }
{
    match fault {
        Fault::Legacy(_) => REFUSED,
        Fault::Blob(BlobFault::OutOfMemory, _) => FAILED,
        Fault::Blob(_, _) => REFUSED,
        Fault::Fit(fault) => status_of_fit(fault),
        Fault::Its(fault) => status_of_source(fault.kind),
        _ => FAILED,
    }
}

fn status_of_fit(fault: FitFault) -> u8
    ensures { result ≡ fit_status fault }
{
    match fault {
        FitFault::OutOfMemory => FAILED,
        FitFault::NoFile => FAILED,
        FitFault::ReadFailed => FAILED,
        _ => REFUSED,
    }
}

fn status_of_source(kind: FaultKind) -> u8
    ensures { result ≡ source_status kind }
{
    match kind {
        FaultKind::NoFile => FAILED,
        FaultKind::ReadFailed => FAILED,
        FaultKind::OutOfMemory => FAILED,
        _ => REFUSED,
    }
}
