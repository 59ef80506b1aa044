//! Checks of signed images in memory: a strict check finds all right, and each configuration is
//! signed by the given keys, or that of a name.

ghost use Rattle.std.specs.Prelude.{◌≡◌, ◌≢◌, ◌≤◌, max, IfOk, Some, IfSome, option_map, true, false};
ghost use Rattle.uimg_base.specs.{Device.SameDevice, Held.held_bytes, Honest.IfHonest};
ghost use Rattle.uimg_requests.specs.declared.command.Form.TheVariants as form;
ghost use Rattle.uimg_engine.specs.Headline.{is_fit, nodes_in};
ghost use Rattle.uimg_strict.specs.Readings.{ReadAsChecked};
ghost use Rattle.uimg_c.specs.Answers.{no_report, table_most};
ghost use Rattle.uimg_c.specs.Codes.{strength};
ghost use Rattle.uimg_c.specs.Strict.{code_of_loose, strictly, why_in_fit};
ghost use Rattle.uimg_c.specs.Signed.{IsSigned, ReportsSigned, Requires, config_named, no_keys, signed_after, signed_code};
ghost use Rattle.uimg_checks.specs.Finding.{check_of};
ghost use Rattle.uimg_fit_checking.specs.Indexes.{IndexedIn};
ghost use Rattle.uimg_verifying.specs.Configurations.{unsigned_of};

use crate::checks::{report_of, strength};
use crate::codes::{BAD_KEYS, Code, DONE, answer_code, fault_code};
use crate::peaks::peak_of;
use crate::reports::UimgReport;
use crate::strict_checks::{loose_code, strict_in, strict_legacy};
use std::alloc::{Allocator, Global};
use uimg_base::{Algo, MemSource, Room, Source, Status};
use uimg_blob_reading::Blob;
use uimg_engine::{Fault, is_fit};
use uimg_fit_checking::SurveyFault;
use uimg_fit_reading::read_tree;
use uimg_keys::{KeyFault, read_keys};
use uimg_requests::Form;
use uimg_strict::Looseness;
use uimg_verifying::{Required, find_unsigned};

// Returns `None` if memory was refused or a read failed.
fn unsigned_in<S: Source, A: Allocator>(
    alloc: Global,
    required: &Required<'_>,
    source: &mut S,
    blob: &Blob,
    room: &mut Room<A>,
) -> Option<Code>
    requires { IndexedIn (S.device source.old) blob.now room.old }
    ensures same { SameDevice (S.device source.old) (S.device source.new) }
    ensures room { room.new ≡ room.old }
    ensures known { IfSome result (λ code. code.status ≤ 1) }
    ensures told { IfHonest S.device source (λ file. IfSome result
        (λ code. code_of_loose (why_in_fit (unsigned_of required.now file)) ≡ Some code)) }
{
    match find_unsigned(alloc, required, source, blob, room) {
        Ok(None) => answer_code(Ok(Status::Done)),
        Ok(Some(loose)) => Some(loose_code(loose.why)),
        Err(SurveyFault::Stopped(fault)) => fault_code(Fault::from(fault)),
        Err(_) => None,
    }
}

// All that is looked at is found by the same index.
fn code_in<S: Source, A: Allocator>(
    alloc: Global,
    need: Algo,
    required: Option<&Required<'_>>,
    source: &mut S,
    blob: &Blob,
    room: &mut Room<A>,
) -> Option<Code>
    requires { IndexedIn (S.device source.old) blob.now room.old }
    ensures room { room.new ≡ room.old }
    ensures known { IfSome result (λ code. code.status ≤ 1) }
    ensures told { IfHonest S.device source (λ file. IfSome result (λ code.
        signed_after true (option_map (λ keys. keys.now) required.entry) file
        (strictly file (check_of true (Some need) file)) ≡ Some code)) }
{
    let code = strict_in(alloc, need, source, blob, room)?;
    match required {
        Some(required) if code.status == DONE => unsigned_in(alloc, required, source, blob, room),
        _ => Some(code),
    }
}

fn code_of_fit<A: Allocator>(
    alloc: Global,
    need: Algo,
    required: Option<&Required<'_>>,
    image: &[u8],
    room: &mut Room<A>,
) -> Option<Code>
    ensures peak { room.new.peak ≤ max room.old.peak (held_bytes (nodes_in true image.now)) }
    ensures known { IfSome result (λ code. code.status ≤ 1) }
    ensures told { IfSome result (λ code.
        signed_after true (option_map (λ keys. keys.now) required.entry) image.now
        (strictly image.now (check_of true (Some need) image.now)) ≡ Some code) }
{
    let mut source = MemSource::new(image);
    match read_tree(&mut source, room) {
        Ok(blob) => code_in(alloc, need, required, &mut source, &blob, room),
        Err(fault) => fault_code(Fault::from(fault)),
    }
}

// A legacy image has no signature.
fn code_of_legacy<A: Allocator>(
    need: Algo,
    required: Option<&Required<'_>>,
    image: &[u8],
    room: &mut Room<A>,
) -> Option<Code>
    requires { is_fit form.Guess image.now ≡ false }
    ensures peak { room.new.peak ≤ max room.old.peak (held_bytes (nodes_in false image.now)) }
    ensures known { IfSome result (λ code. code.status ≤ 1) }
    ensures told { IfSome result (λ code.
        signed_after false (option_map (λ keys. keys.now) required.entry) image.now
        (strictly image.now (check_of false (Some need) image.now)) ≡ Some code) }
{
    let code = strict_legacy(need, image, room)?;
    match required {
        Some(_) if code.status == DONE => Some(loose_code(Looseness::Unsigned)),
        _ => Some(code),
    }
}

/// Checks strictly, and then, if keys are required, the signatures. `need` is the number of the needed
/// strength. Returns `None` if memory was refused.
pub(crate) fn checked_code<A: Allocator>(
    alloc: Global,
    need: u32,
    required: Option<&Required<'_>>,
    image: &[u8],
    room: &mut Room<A>,
) -> Option<Code>
    ensures peak { room.new.peak ≤ max room.old.peak
        (held_bytes (nodes_in (is_fit form.Guess image.now) image.now)) }
    ensures known { IfSome result (λ code. code.status ≤ 1) }
    ensures told { IfSome result (λ code. signed_code (strength need)
        (option_map (λ keys. keys.now) required.entry) image.now ≡ Some code) }
{
    let Some(need) = strength(need) else {
        return answer_code(Ok(Status::NotRight));
    };
    match is_fit(Form::Guess, &mut MemSource::new(image)) {
        Ok(true) => code_of_fit(alloc, need, required, image, room),
        Ok(false) => code_of_legacy(need, required, image, room),
        Err(_) => None,
    }
}

fn report_of_keys() -> UimgReport
    ensures { result ≡ no_keys }
{
    UimgReport {
        status: BAD_KEYS,
        fault: 0,
        place: 0,
        needed: 0,
        written: 0,
        peak: 0,
    }
}

fn only(config: &[u8]) -> Option<&[u8]>
    ensures { option_map (λ name. name.now) result ≡ config_named config.now }
{
    if config.is_empty() {
        None
    } else {
        Some(config)
    }
}

// `keys` is the contents of a file of keys.
fn required_by<'a>(alloc: Global, keys: &[u8], config: &'a [u8]) -> Result<Required<'a>, KeyFault>
    ensures { IfOk result (Requires keys.now config.entry.now) }
{
    let keys = read_keys(alloc, &mut MemSource::new(keys))?;
    Ok(Required {
        keys,
        takes_sha1: false,
        only: only(config),
    })
}

fn signed_report(alloc: Global, image: &[u8], keys: &[u8], config: &[u8], need: u32) -> UimgReport
    ensures told { result.status ≢ 3 → result.status ≢ 2 →
        ReportsSigned need keys.now config.now image.now result }
    ensures nothing { result.status ≡ 3 → result ≡ no_report }
    ensures no_keys { result.status ≡ 2 → result ≡ no_keys }
    ensures peak { result.peak ≤ table_most form.Guess image.now }
{
    let required = match required_by(alloc, keys, config) {
        Ok(required) => required,
        Err(KeyFault::OutOfMemory) => return report_of(None, 0),
        Err(_) => return report_of_keys(),
    };
    let mut room = Room::new(alloc);
    let code = checked_code(alloc, need, Some(&required), image, &mut room);
    report_of(code, peak_of(&room))
}

/// `keys` is the contents of a file of keys, `need` the number of the needed strength.
pub(crate) fn check_signatures(
    alloc: Global,
    image: &[u8],
    keys: &[u8],
    config: &[u8],
    need: u32,
    report: &mut UimgReport,
) -> u32
    ensures told { result ≢ 3 → result ≢ 2 →
        ReportsSigned need keys.now config.now image.now report.new }
    ensures signed { result ≡ 0 → IsSigned keys.now config.now image.now }
    ensures read { result ≡ 0 → ReadAsChecked image.now }
    ensures status { result ≡ report.new.status }
    ensures nothing { result ≡ 3 → report.new ≡ no_report }
    ensures no_keys { result ≡ 2 → report.new ≡ no_keys }
    ensures peak { report.new.peak ≤ table_most form.Guess image.now }
{
    *report = signed_report(alloc, image, keys, config, need);
    report.status
}
