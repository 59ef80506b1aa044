//! The functions for callers in C.
//!
//! Each returns the status that it reports. Unless that is 2 or 3, status, fault, place, text and
//! payload are those of the outcome. Output is truncated to the caller's memory. With status 2 or 3
//! nothing is written, and a report says nothing. A payload or a name ends inside the image, and
//! has no bytes if none was found. The reported memory is at most 8192 bytes and 128 for each node.
//! Tests show that it is not less than what was taken, other than by a strict check, which takes
//! memory for the names in one node, too, and by a check of signatures, which takes some for keys.

ghost use Rattle.std.specs.Prelude.{◌≡◌, ◌≢◌, ◌≤◌, true, false, Ok};
ghost use Rattle.uimg_requests.specs.declared.command.Action.TheVariants as action;
ghost use Rattle.uimg_requests.specs.declared.command.Form.TheVariants as form;
ghost use Rattle.uimg_checks.specs.Counting.{count_of};
ghost use Rattle.uimg_engine.specs.{Headline.is_fit, Locating.IsSpanOf};
ghost use Rattle.uimg_fit_checking.specs.Named.{name_at, payload_named, place_named};
ghost use Rattle.uimg_c.specs.Answers.{ReportsCheck, ReportsCount, HasBytes, FindsNamed, Located, ReportsOn, no_report, outcome_by, span_in, table_most};
ghost use Rattle.uimg_c.specs.{Lines.{PutsLine, line_of}, Numbers.IsNoFault};
ghost use Rattle.uimg_c.specs.Strict.{ReportsStrict};
ghost use Rattle.uimg_c.specs.Signed.{IsSigned, ReportsSigned, no_keys};
ghost use Rattle.uimg_strict.specs.Readings.{ReadAsChecked};

use crate::checks::check;
use crate::counts::payload_count;
use crate::fault_lines::put_fault_line;
use crate::fronts::copy_front;
use crate::payloads::{payload_at, payload_name, payload_named};
use crate::reports::{UimgCount, UimgPayload, UimgReport};
use crate::running::report_on;
use crate::signed_checks::check_signatures;
use crate::strict_checks::check_strictly;
use std::alloc::Global;
use uimg_requests::{Action, Command, Form, VERSION};

/// Lists an image: writes the listing of `uimg dumpimage -l` to `text`.
#[unsafe(no_mangle)]
pub extern "C" fn uimg_list(
    alloc: Global,
    image: &[u8],
    text: &mut [u8],
    report: &mut UimgReport,
) -> u32
    ensures { ReportsOn (outcome_by action.List image.now) form.Guess image.now result
        text.old text.new report.new }
{
    let command = Command {
        action: Action::List,
        form: Form::Guess,
    };
    report_on(alloc, &command, image, text, report)
}

/// Verifies an image: writes the report of `uimg verify` to `text`.
#[unsafe(no_mangle)]
pub extern "C" fn uimg_verify(
    alloc: Global,
    image: &[u8],
    text: &mut [u8],
    report: &mut UimgReport,
) -> u32
    ensures { ReportsOn (outcome_by action.Verify image.now) form.Guess image.now result
        text.old text.new report.new }
{
    let command = Command {
        action: Action::Verify,
        form: Form::Guess,
    };
    report_on(alloc, &command, image, text, report)
}

/// Checks that an image is whole and has images, each with a hash node of at least the strength
/// `need`, from 1, CRC-32, to 6, SHA-512. A legacy image has CRC-32. Writes no text.
#[unsafe(no_mangle)]
pub extern "C" fn uimg_check(alloc: Global, image: &[u8], need: u32, report: &mut UimgReport) -> u32
    ensures told { result ≢ 3 → ReportsCheck need image.now report.new }
    ensures status { result ≡ report.new.status }
    ensures peak { report.new.peak ≤ table_most form.Guess image.now }
    ensures nothing { result ≡ 3 → report.new ≡ no_report }
{
    check(alloc, image, need, report)
}

/// Checks an image as `uimg_check` does. If all is right, it also refuses what U-Boot reads in
/// another way than the check. If the status is 0, U-Boot finds in a FIT image exactly the images
/// that were checked, and compares no others. Each has the payload whose hash nodes are right.
#[unsafe(no_mangle)]
pub extern "C" fn uimg_check_strict(
    alloc: Global,
    image: &[u8],
    need: u32,
    report: &mut UimgReport,
) -> u32
    ensures told { result ≢ 3 → ReportsStrict need image.now report.new }
    ensures read { result ≡ 0 → is_fit form.Guess image.now ≡ true → ReadAsChecked image.now }
    ensures status { result ≡ report.new.status }
    ensures peak { report.new.peak ≤ table_most form.Guess image.now }
    ensures nothing { result ≡ 3 → report.new ≡ no_report }
{
    check_strictly(alloc, image, need, report)
}

/// Checks an image as `uimg_check_strict` does. If all is right, it also refuses a FIT image of which
/// a configuration is not signed by the keys of `keys`, the contents of a file of keys, and any
/// legacy image. If `config` is not empty, only the configuration of this name must be signed. The
/// status is 2 if `keys` has no keys, or keys that U-Boot does not take.
#[unsafe(no_mangle)]
pub extern "C" fn uimg_check_signed(
    alloc: Global,
    image: &[u8],
    keys: &[u8],
    config: &[u8],
    need: u32,
    report: &mut UimgReport,
) -> u32
    ensures told { result ≢ 3 → result ≢ 2 →
        ReportsSigned need keys.now config.now image.now report.new }
    ensures signed { result ≡ 0 → IsSigned keys.now config.now image.now }
    ensures read { result ≡ 0 → ReadAsChecked image.now }
    ensures status { result ≡ report.new.status }
    ensures peak { report.new.peak ≤ table_most form.Guess image.now }
    ensures nothing { result ≡ 3 → report.new ≡ no_report }
    ensures no_keys { result ≡ 2 → report.new ≡ no_keys }
{
    check_signatures(alloc, image, keys, config, need, report)
}

/// Finds the part of a legacy image, or the payload of a FIT image's image, at a position, counted
/// from 0: the bytes that `uimg dumpimage -p` writes.
#[unsafe(no_mangle)]
pub extern "C" fn uimg_payload_at(
    alloc: Global,
    image: &[u8],
    position: u32,
    payload: &mut UimgPayload,
) -> u32
    ensures located { Located (HasBytes (outcome_by (action.Extract position) image.now) image.now)
        form.Guess image.now result payload.new }
    ensures span { result ≡ 0 →
        IsSpanOf (is_fit form.Guess image.now) position image.now (span_in payload.new) }
    ensures legacy { is_fit form.Guess image.now ≡ false → result ≢ 3 }
{
    payload_at(alloc, image, position, payload)
}

/// Finds the payload of the first image of a name in a FIT image.
#[unsafe(no_mangle)]
pub extern "C" fn uimg_payload_named(
    alloc: Global,
    image: &[u8],
    name: &[u8],
    payload: &mut UimgPayload,
) -> u32
    ensures located { Located (FindsNamed (payload_named image.now name.now) image.now)
        form.Fit image.now result payload.new }
    ensures span { result ≡ 0 → place_named image.now name.now ≡ Ok (span_in payload.new) }
{
    payload_named(alloc, image, name, payload)
}

/// Finds the name of the image at a position, counted from 0, of a FIT image.
#[unsafe(no_mangle)]
pub extern "C" fn uimg_payload_name(
    alloc: Global,
    image: &[u8],
    position: u32,
    name: &mut UimgPayload,
) -> u32
    ensures { Located (FindsNamed (name_at image.now position) image.now)
        form.Fit image.now result name.new }
{
    payload_name(alloc, image, position, name)
}

/// Counts the parts of a legacy image, or the images of a FIT image.
#[unsafe(no_mangle)]
pub extern "C" fn uimg_payload_count(alloc: Global, image: &[u8], count: &mut UimgCount) -> u32
    ensures told { result ≢ 3 → ReportsCount (count_of (is_fit form.Guess image.now) image.now) count.new }
    ensures status { result ≡ count.new.status }
    ensures nothing { result ≢ 0 → count.new.count ≡ 0 }
    ensures no_fault { result ≡ 3 → (count.new.fault ≡ 0) × (count.new.place ≡ 0) }
    ensures legacy { is_fit form.Guess image.now ≡ false → result ≢ 3 }
    ensures peak { count.new.peak ≤ table_most form.Guess image.now }
{
    payload_count(alloc, image, count)
}

/// Writes the line of a fault, as `L8 no such part`, to `text`, and returns the length of the whole
/// line in bytes: 0 for a number without a fault.
#[unsafe(no_mangle)]
pub extern "C" fn uimg_fault_line(fault: u32, text: &mut [u8]) -> usize
    ensures length { result ≤ 64 }
    ensures none { IsNoFault fault → (result ≡ 0) × (text.new ≡ text.old) }
    ensures line { PutsLine (line_of fault) result text.old text.new }
{
    put_fault_line(fault, text)
}

/// Writes the version of the library to `text`, and returns its length in bytes.
#[unsafe(no_mangle)]
pub extern "C" fn uimg_version(text: &mut [u8]) -> usize {
    copy_front(VERSION.as_bytes(), text);
    VERSION.len()
}
