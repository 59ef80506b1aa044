//! What a command of `uimg` does: it opens what the request names, and runs an engine over it. What
//! that comes to is told in one place.

ghost use Rattle.std.specs.Prelude.{◌≡◌, ◌≤◌, ◌⊎◌, IfOk, IsTrue};
ghost use Rattle.std.specs.Io.{Buffered.writer_contents, KnownBytes.Keeps};
ghost use Rattle.uimg_tool.specs.{Answering.Comes, FaultTexts.{told_of_complaint, told_of_end, told_of_exit}, Statuses.{closing_status, end_status, exit_status, request_status}};
ghost use Rattle.uimg_tool.specs.Commands.{Changes, ChangesOne, Guards, IsShown, Means, MeansOne};
ghost use Rattle.uimg_tool.specs.Complaints.{ComplainsBetween, Ends};

use crate::checks::check_images;
use crate::complaint::{Complaint, told};
use crate::complaints::{Complaints, is_closed, unprinted};
use crate::diffs::diff_images;
use crate::facts::tell_facts;
use crate::images::run_image;
use crate::making::make_in;
use crate::maps::map_image;
use crate::request_fault::{DONE, REFUSED, RequestFault};
use crate::unpacks::unpack_image;
use std::alloc::Global;
use std::fmt::Display;
use std::io;
use std::io::{BufWriter, Write};
use uimg_base::{Out, Status};
use uimg_cli::{Asked, Request};
use uimg_world::MakingWorld;

/// Carries out a request. Returns its status or a complaint, and `out`.
pub(crate) fn run<'x, 'a, D: MakingWorld<'a>, W: Write + Drop>(
    world: &mut D,
    asked: &'x Asked<'a>,
    mut out: W,
) -> (Result<u8, Complaint<'x>>, W)
    ensures most { IfOk result.0 (λ status. status ≤ 3) }
    ensures changes { Changes asked.now (D.trace world.old) (D.trace world.new) }
    ensures guards { Guards asked.now (D.map world.old) (closing_status result.0)
        (D.trace world.old) (D.trace world.new) }
    ensures means { IsTrue (D.map world.old).honest → Comes (Means D.Shelf.Kept.device
        (D.identities world.old) asked.now (D.map world.old) (D.trace world.old)
        (D.trace world.new)) (closing_status result.0) (told_of_complaint result.0)
        (W.contents out) (W.contents result.1) }
{
    match asked {
        Asked::One(request) => {
            let (end, out) = run_one(world, request, out);
            (told(end), out)
        }
        Asked::Check(request) => {
            let end = check_images(world, request, &mut out);
            (told(end), out)
        }
        Asked::Unpack(request) => {
            let end = unpack_image(world, request, &mut out);
            (end, out)
        }
        Asked::Map(request) => {
            let end = map_image(world, request, &mut out);
            (told(end), out)
        }
        Asked::Info(request) => {
            let end = tell_facts(world, request, &mut out);
            (told(end), out)
        }
        Asked::Diff(request) => {
            let end = diff_images(world, request, &mut out);
            (told(end), out)
        }
    }
}

// The request is a command on one image, a build, or a text to print.
fn run_one<'x, 'a, D: MakingWorld<'a>, W: Write>(
    world: &mut D,
    request: &'x Request<'a>,
    mut out: W,
) -> (Result<u8, RequestFault<'x>>, W)
    ensures most { IfOk result.0 (λ status. status ≤ 3) }
    ensures changes { ChangesOne request.now (D.trace world.old) (D.trace world.new) }
    ensures means { IsTrue (D.map world.old).honest → Comes (MeansOne D.Shelf.Kept.device
        (D.identities world.old) request.now (D.map world.old) (D.trace world.old)
        (D.trace world.new)) (exit_status result.0) (told_of_exit result.0) (W.contents out)
        (W.contents result.1) }
{
    match request {
        Request::Run(request) => {
            let (end, out) = run_image(world, request, out);
            (exit_of(end), out)
        }
        Request::Make(request) => {
            let mut listing = Out::new(out);
            let end = make_in(world, request, &mut listing);
            (exit_of(end), listing.into_inner())
        }
        Request::Show(text) => {
            let end = show(text, &mut out);
            (end, out)
        }
    }
}

fn exit_of<'a>(end: Result<Status, RequestFault<'a>>) -> Result<u8, RequestFault<'a>>
    ensures most { IfOk result (λ status. status ≤ 3) }
    ensures status { exit_status result ≡ end_status end.entry }
    ensures told { told_of_exit result ≡ told_of_end end.entry }
{
    match end {
        Ok(Status::Done) => Ok(DONE),
        Ok(Status::NotRight) => Ok(REFUSED),
        Err(fault) => Err(fault),
    }
}

// Prints help or the version.
fn show<'a, D: Display, W: Write>(text: &D, out: &mut W) -> Result<u8, RequestFault<'a>>
    ensures most { IfOk result (λ status. status ≤ 3) }
    ensures means { Comes IsShown (exit_status result) (told_of_exit result) (W.contents out.old)
        (W.contents out.new) }
{
    match write!(out, "{text}") {
        Ok(()) => Ok(DONE),
        Err(error) => Err(RequestFault::NotPrinted(error)),
    }
}

/// Ends a request: writes what is buffered, tells a fault in a line, and returns the status and what
/// `out` buffers for.
pub(crate) fn close<W: Write + Drop, V: Write>(
    asked: &Asked<'_>,
    end: Result<u8, Complaint<'_>>,
    mut out: BufWriter<W, Global>,
    complaints: &mut Complaints<'_, V>,
) -> (u8, W)
    requires { IfOk end (λ status. status ≤ 3) }
    ensures ends { Ends result.0 complaints.old.count complaints.new.count }
    ensures closed { (result.0 ≡ 3) ⊎ ((result.0 ≡ closing_status end.entry)
        × ComplainsBetween V.contents (told_of_complaint end.entry) complaints.old complaints.new
        × Keeps (writer_contents W.contents out) (W.contents result.1)) }
{
    let end = match out.flush() {
        Ok(()) => end,
        Err(error) => Err(Complaint::Request(unflushed(asked, error))),
    };
    let status = complaints.tell_end(&end);
    // A failed write leaves text in the buffer, which its drop would try to write again.
    let (out, _) = out.into_parts();
    (status, out)
}

// If the reader has closed the output, only commands on one image tell that.
fn unflushed<'a>(asked: &Asked<'_>, error: io::Error) -> RequestFault<'a>
    ensures { request_status result ≡ 3 }
{
    match asked {
        Asked::One(Request::Show(_)) if is_closed(&error) => RequestFault::Closed,
        Asked::One(_) => RequestFault::NotPrinted(error),
        _ => unprinted(error),
    }
}
