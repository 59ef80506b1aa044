//! Tells how the unpacking of an image ended.

ghost use Rattle.std.specs.Prelude.{◌≡◌, ◌⊎◌, ◌≤◌, IfErr, IfOk, None, Some, false, max, true};
ghost use Rattle.uimg_checks.specs.{Answers.answer_status};
ghost use Rattle.uimg_tool.specs.{EndingStatuses.{HasEndingStatus, TellsCommand, ending_status}, FaultTexts.{told_of_complaint, told_of_exit}, Leavings.is_refusal, Statuses.{closing_status, complaint_status, exit_status, is_of_command, request_status, trouble_status}, UnpackComplaints.told_of_unpacking};
ghost use Rattle.uimg_world.specs.Deeds.{changes};

use crate::complaint::{Complaint, told};
use crate::complaints::{unprinted, unread};
use crate::facts::put_object;
use crate::request_fault::{DONE, FAILED, REFUSED, RequestFault};
use crate::unpack_answers::{Ending, answer_of_ending};
use std::alloc::Global;
use std::io::Write;
use uimg_base::Status;
use uimg_checks::{Answer, Names, line_text, object_text};
use uimg_printing::Printed;
use uimg_unpacking::Trouble;
use uimg_world::World;

/// Writes what has a line or an object of its own on `out`.
pub(crate) fn end_of<'a, D: World, W: Write>(
    world: &mut D,
    path: &'a str,
    as_json: bool,
    ending: Ending<'_>,
    out: &mut W,
) -> Result<u8, Complaint<'a>>
    ensures most { IfOk result (λ status. status ≤ 3) }
    ensures status { as_json ≡ false → HasEndingStatus ending.entry (closing_status result) }
    ensures told { (closing_status result ≡ 3)
        ⊎ (told_of_complaint result ≡ told_of_unpacking path.now as_json ending.entry) }
    ensures command { TellsCommand ending.entry (closing_status result) out.old out.new }
    ensures done { closing_status result ≡ 0 → ending.entry ≡ Ending.Told Status.Done }
    ensures unasked { closing_status result ≡ 0 → D.trace world.new ≡ D.trace world.old }
    ensures silent { as_json ≡ false → is_refusal (ending_status ending.entry) ≡ true →
        D.trace world.new ≡ D.trace world.old }
    ensures kept { changes (D.trace world.new) ≡ changes (D.trace world.old) }
{
    match ending {
        Ending::Told(Status::Done) => Ok(DONE),
        Ending::Told(Status::NotRight) => Ok(REFUSED),
        Ending::Unsigned(answer) => unsigned_end(world.alloc(), path, as_json, &answer, out),
        Ending::Troubled(trouble) if !as_json || is_of_command(&trouble) => Err(troubled(trouble)),
        ending if as_json => told(put_ending(world, path, ending, out)),
        Ending::Unread => Err(Complaint::Request(unread(world, path))),
        Ending::Weak => told(put_weak(path, out)),
        Ending::NoImage => Err(Complaint::Request(RequestFault::NoHash)),
        Ending::Stopped(fault) => Err(Complaint::Request(RequestFault::Stopped(fault))),
        Ending::Troubled(trouble) => Err(troubled(trouble)),
    }
}

// The answer of a check is told, or for JSON written on `out`.
fn unsigned_end<'a, W: Write>(
    alloc: Global,
    path: &str,
    as_json: bool,
    answer: &Answer<'_>,
    out: &mut W,
) -> Result<u8, Complaint<'a>>
    ensures most { IfOk result (λ status. status ≤ 3) }
    ensures status { (closing_status result ≡ max 1 (answer_status answer.now)) ⊎ (closing_status result ≡ 3) }
    ensures told { (closing_status result ≡ 3) ⊎ (told_of_complaint result
        ≡ told_of_unpacking path.now as_json (Ending.Unsigned answer.now)) }
{
    if as_json {
        let status = u8::max(REFUSED, answer.status());
        return told(put_answer(alloc, path, answer, status, out));
    }
    match line_text(alloc, path.as_bytes(), answer) {
        Ok(line) => Err(Complaint::Unsigned(line, answer.status() == FAILED)),
        Err(_) => Err(Complaint::Request(RequestFault::OutOfMemory)),
    }
}

fn put_answer<'a, W: Write>(
    alloc: Global,
    path: &str,
    answer: &Answer<'_>,
    status: u8,
    out: &mut W,
) -> Result<u8, RequestFault<'a>>
    ensures status { IfOk result (λ given. given ≡ status) }
    ensures fails { IfErr result (λ fault. request_status fault ≡ 3) }
{
    match object_text(alloc, path.as_bytes(), answer) {
        Ok(text) => put_object(text.as_slice(), status, out),
        Err(_) => Err(RequestFault::OutOfMemory),
    }
}

// Such a trouble is of the command line, of memory or of the output. It is told even for JSON.
fn is_of_command(trouble: &Trouble) -> bool
    ensures { result ≡ is_of_command trouble.now }
{
    match trouble {
        Trouble::IsImage(_) | Trouble::OutOfMemory | Trouble::CannotPrint(_) | Trouble::Closed =>
            true,
        _ => false,
    }
}

fn put_ending<'a, D: World, W: Write>(
    world: &mut D,
    path: &str,
    ending: Ending<'_>,
    out: &mut W,
) -> Result<u8, RequestFault<'a>>
    ensures most { IfOk result (λ status. status ≤ 3) }
    ensures done { exit_status result ≡ 0 → ending.entry ≡ Ending.Told Status.Done }
    ensures unasked { exit_status result ≡ 0 → D.trace world.new ≡ D.trace world.old }
    ensures kept { changes (D.trace world.new) ≡ changes (D.trace world.old) }
    ensures told { (exit_status result ≡ 3) ⊎ (told_of_exit result ≡ None) }
{
    let mut names = Names::new(world.alloc());
    let answer = answer_of_ending(world, path, ending, &mut names);
    let status = answer.status();
    put_answer(world.alloc(), path, &answer, status, out)
}

// A legacy image has CRC-32 only.
fn put_weak<'a, W: Write>(path: &str, out: &mut W) -> Result<u8, RequestFault<'a>>
    ensures status { (exit_status result ≡ 1) ⊎ (exit_status result ≡ 3) }
    ensures told { (exit_status result ≡ 3) ⊎ (told_of_exit result ≡ None) }
{
    match writeln!(out, "{}: weak crc32", Printed(path.as_bytes())) {
        Ok(()) => Ok(REFUSED),
        Err(error) => Err(unprinted(error)),
    }
}

/// Returns how a command ends by such a trouble.
pub(crate) fn troubled<'a>(trouble: Trouble) -> Complaint<'a>
    ensures status { complaint_status result ≡ trouble_status trouble }
    ensures told { (complaint_status result ≡ 3) ⊎ (told_of_complaint (Err result) ≡ Some None) }
{
    match trouble {
        Trouble::Closed => Complaint::Request(RequestFault::Closed),
        trouble => Complaint::Troubled(trouble),
    }
}
