//! The numbers that show how a command ended.

ghost use Rattle.std.specs.Prelude.{◌≡◌, ◌+◌, ◌*◌, ◌<◌, ◌≤◌, IfSome};
ghost use Rattle.uimg_c.specs.Codes.{legacy_number, blob_number, fit_number, code_of_fault, code_of_answer};

use uimg_base::Status;
use uimg_blob_reading::BlobFault;
use uimg_engine::Fault;
use uimg_fit_base::FitFault;
use uimg_legacy::LegacyFault;

/// All is done.
pub(crate) const DONE: u32 = 0;

/// A checksum is not right, or the image is refused.
pub(crate) const NOT_RIGHT: u32 = 1;

/// The keys are refused.
pub(crate) const BAD_KEYS: u32 = 2;

/// Memory was refused.
pub(crate) const NO_MEMORY: u32 = 3;

/// The numbers that show how a command ended: a status, the fault, and its offset.
#[derive(Clone, Copy, Debug, PartialEq, Eq)]
pub struct Code {
    pub status: u32,
    pub fault: u32,
    pub place: u64,
}

fn number_of_legacy(legacy: LegacyFault) -> u32
    ensures { result ≡ legacy_number legacy }
{
    legacy as u32
}

fn number_of_blob(blob: BlobFault) -> u32
    ensures { result ≡ blob_number blob }
{
    blob as u32
}

fn number_of_fit(fit: FitFault) -> u32
    ensures { result ≡ fit_number fit }
{
    fit as u32
}

fn refusal(letter: u32, number: u32, place: u64) -> Code
    requires letter { letter < 128 }
    requires number { number < 256 }
    ensures { result ≡ record { status = 1; fault = 256 * letter + number; place = place } }
{
    Code {
        status: NOT_RIGHT,
        fault: 256 * letter + number,
        place,
    }
}

// Returns `None` if memory for the table of nodes was refused, a device failed, or the files of a
// build are at fault.
pub(crate) fn fault_code(fault: Fault) -> Option<Code>
    ensures code { result ≡ code_of_fault fault }
    ensures known { IfSome result (λ code. code.status ≤ 1) }
{
    match fault {
        Fault::Legacy(own) => Some(refusal(b'L' as u32, number_of_legacy(own), 0)),
        Fault::Blob(BlobFault::OutOfMemory, _) => None,
        Fault::Blob(own, place) => Some(refusal(b'B' as u32, number_of_blob(own), place)),
        Fault::Fit(own) => Some(refusal(b'F' as u32, number_of_fit(own), 0)),
        _ => None,
    }
}

/// Returns `None` if memory was refused.
pub(crate) fn answer_code(end: Result<Status, Fault>) -> Option<Code>
    ensures code { result ≡ code_of_answer end }
    ensures known { IfSome result (λ code. code.status ≤ 1) }
{
    match end {
        Ok(Status::Done) => Some(Code {
            status: DONE,
            fault: 0,
            place: 0,
        }),
        Ok(Status::NotRight) => Some(Code {
            status: NOT_RIGHT,
            fault: 0,
            place: 0,
        }),
        Err(fault) => fault_code(fault),
    }
}
