//! Strict checks of images in memory: their checksums are right, and U-Boot reads them as they were
//! checked.

ghost use Rattle.std.specs.Prelude.{◌≡◌, ◌≢◌, ◌≤◌, max, Some, IfSome, true, false};
ghost use Rattle.uimg_base.specs.{Device.SameDevice, Held.held_bytes, Honest.IfHonest};
ghost use Rattle.uimg_requests.specs.declared.command.Form.TheVariants as form;
ghost use Rattle.uimg_engine.specs.Headline.{is_fit, nodes_in};
ghost use Rattle.uimg_strict.specs.Readings.{ReadAsChecked};
ghost use Rattle.uimg_c.specs.Answers.{no_report, table_most};
ghost use Rattle.uimg_c.specs.Codes.{refusal};
ghost use Rattle.uimg_c.specs.Strict.{ReportsStrict, code_of_loose, loose_number, strictly, why_in_fit, why_in_legacy};
ghost use Rattle.uimg_checks.specs.Finding.{check_of};
ghost use Rattle.uimg_fit_checking.specs.Indexes.{IndexedIn};
ghost use Rattle.uimg_strict.specs.{Headers.loose_legacy, Looseness.looseness_of};

use crate::checks::report_of;
use crate::codes::{Code, NOT_RIGHT, answer_code, fault_code};
use crate::peaks::peak_of;
use crate::reports::UimgReport;
use crate::signed_checks::checked_code;
use std::alloc::{Allocator, Global};
use uimg_base::{Algo, MemSource, Room, Source, Status};
use uimg_blob_reading::Blob;
use uimg_checks::Checked;
use uimg_engine::Fault;
use uimg_fit_checking::{Finding, SurveyFault, check_in};
use uimg_strict::{Looseness, find_loose, find_loose_header};

/// The letter is S, the number 1 to 24.
pub(crate) fn loose_code(why: Looseness) -> Code
    ensures { result ≡ refusal 83 (loose_number why) 0 }
{
    Code {
        status: NOT_RIGHT,
        fault: 256 * (b'S' as u32) + (why as u32 + 1),
        place: 0,
    }
}

// Returns `None` if memory was refused or a read failed.
fn loose_in<S: Source, A: Allocator>(
    alloc: Global,
    source: &mut S,
    blob: &Blob,
    room: &mut Room<A>,
) -> Option<Code>
    requires { IndexedIn (S.device source.old) blob.now room.old }
    ensures same { SameDevice (S.device source.old) (S.device source.new) }
    ensures room { room.new ≡ room.old }
    ensures known { IfSome result (λ code. code.status ≤ 1) }
    ensures told { IfHonest S.device source (λ file. IfSome result
        (λ code. code_of_loose (why_in_fit (looseness_of file)) ≡ Some code)) }
{
    match find_loose(alloc, source, blob, room) {
        Ok(None) => answer_code(Ok(Status::Done)),
        Ok(Some(loose)) => Some(loose_code(loose.why)),
        Err(SurveyFault::Stopped(fault)) => fault_code(Fault::from(fault)),
        Err(_) => None,
    }
}

/// Checks an indexed FIT image. Returns `None` if memory was refused or a read failed.
pub(crate) fn strict_in<S: Source, A: Allocator>(
    alloc: Global,
    need: Algo,
    source: &mut S,
    blob: &Blob,
    room: &mut Room<A>,
) -> Option<Code>
    requires { IndexedIn (S.device source.old) blob.now room.old }
    ensures same { SameDevice (S.device source.old) (S.device source.new) }
    ensures room { room.new ≡ room.old }
    ensures known { IfSome result (λ code. code.status ≤ 1) }
    ensures told { IfHonest S.device source (λ file. IfSome result
        (λ code. strictly file (check_of true (Some need) file) ≡ Some code)) }
{
    match check_in(Some(need), source, blob, room) {
        Ok(Finding::Right { .. }) => loose_in(alloc, source, blob, room),
        Ok(_) => answer_code(Ok(Status::NotRight)),
        Err(fault) => fault_code(Fault::from(fault)),
    }
}

fn loose_legacy(image: &[u8]) -> Option<Code>
    ensures known { IfSome result (λ code. code.status ≤ 1) }
    ensures told { IfSome result (λ code. code_of_loose (why_in_legacy (loose_legacy image.now)) ≡ Some code) }
{
    match find_loose_header(&mut MemSource::new(image)) {
        Ok(None) => answer_code(Ok(Status::Done)),
        Ok(Some(why)) => Some(loose_code(why)),
        Err(fault) => fault_code(Fault::from(fault)),
    }
}

/// Checks what is no FIT image. Returns `None` if a read failed.
pub(crate) fn strict_legacy<A: Allocator>(
    need: Algo,
    image: &[u8],
    room: &mut Room<A>,
) -> Option<Code>
    requires { is_fit form.Guess image.now ≡ false }
    ensures peak { room.new.peak ≤ max room.old.peak (held_bytes (nodes_in false image.now)) }
    ensures known { IfSome result (λ code. code.status ≤ 1) }
    ensures told { IfSome result
        (λ code. strictly image.now (check_of false (Some need) image.now) ≡ Some code) }
{
    match uimg_checks::check(Some(need), &mut MemSource::new(image), room) {
        Ok(Checked::Right) => loose_legacy(image),
        Ok(_) => answer_code(Ok(Status::NotRight)),
        Err(fault) => fault_code(fault),
    }
}

/// `need` is the number of the needed strength.
pub(crate) fn check_strictly(alloc: Global, image: &[u8], need: u32, report: &mut UimgReport) -> u32
    ensures told { result ≢ 3 → ReportsStrict need image.now report.new }
    ensures read { result ≡ 0 → is_fit form.Guess image.now ≡ true → ReadAsChecked image.now }
    ensures status { result ≡ report.new.status }
    ensures nothing { result ≡ 3 → report.new ≡ no_report }
    ensures peak { report.new.peak ≤ table_most form.Guess image.now }
{
    let mut room = Room::new(alloc);
    let code = checked_code(alloc, need, None, image, &mut room);
    *report = report_of(code, peak_of(&room));
    report.status
}
