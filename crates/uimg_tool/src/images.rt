//! Commands on one image: it is opened, an engine runs over it, and what it wrote is closed.

ghost use Rattle.std.specs.Prelude.{◌≡◌, ℕ, List, [], IsTrue, Option, Some};
ghost use Rattle.uimg_base.specs.{Honest.IfHonest, Named.SameFiles};
ghost use Rattle.uimg_tool.specs.{Answering.Comes, FaultTexts.told_of_end, Statuses.end_status};
ghost use Rattle.uimg_tool.specs.Images.{CallsToRun, ClosesAt, Compares, IsExtracted, IsOutcome, IsWritten, MeansRun, WritesApart, run_end};

use crate::reasons::{ReasonKeeper, reason_of_code};
use crate::request_fault::RequestFault;
use std::alloc::Global;
use std::cell::Cell;
use std::io::Write;
use uimg_base::{Out, Room, Source, Status};
use uimg_engine::{Fault, run_by};
use uimg_requests::RunRequest;
use uimg_world::World;

/// Runs a command on the image at its path, which prints, or extracts to the file at a path. Returns
/// `out`, too.
pub(crate) fn run_image<'a, D: World, W: Write>(
    world: &mut D,
    request: &RunRequest<'a>,
    out: W,
) -> (Result<Status, RequestFault<'a>>, W)
    ensures calls { CallsToRun request.now request.now.outfile (D.trace world.old)
        (D.trace world.new) }
    ensures means { IsTrue (D.map world.old).honest → Comes (MeansRun request.now request.now.outfile
        (D.map world.old) (D.trace world.old) (D.trace world.new)) (end_status result.0)
        (told_of_end result.0) (W.contents out) (W.contents result.1) }
{
    let Ok(mut source) = world.open(request.image) else {
        return (Err(RequestFault::CannotRead(request.image)), out);
    };
    match request.outfile {
        None => run_over(world.alloc(), request, &mut source, out),
        Some(path) => (extract(world, request, path, &mut source), out),
    }
}

fn run_over<'a, S: Source, W: Write>(
    alloc: Global,
    request: &RunRequest<'a>,
    source: &mut S,
    out: W,
) -> (Result<Status, RequestFault<'a>>, W)
    ensures means { IfHonest S.device source (λ file. Comes (IsOutcome request.now file)
        (end_status result.0) (told_of_end result.0) (W.contents out) (W.contents result.1)) }
{
    let mut room = Room::new(alloc);
    let mut out = Out::new(out);
    let end = run_by(
        request.naming,
        &request.command,
        source,
        &mut room,
        &mut out,
    );
    (end_of(end), out.into_inner())
}

fn end_of<'a>(end: Result<Status, Fault>) -> Result<Status, RequestFault<'a>>
    ensures { result ≡ run_end end }
{
    match end {
        Ok(status) => Ok(status),
        Err(fault) => Err(RequestFault::Stopped(fault)),
    }
}

/// Runs a command on an open image. Its text goes to the file at a path, unless that is the image's.
pub(crate) fn extract<'a, D: World, S: Source>(
    world: &mut D,
    request: &RunRequest<'a>,
    path: &'a str,
    source: &mut S,
) -> Result<Status, RequestFault<'a>>
    ensures calls { WritesApart request.now.image.now path.now (D.trace world.old)
        (D.trace world.new) }
    ensures means { (known : Option (List ℕ)) → IsTrue (D.map world.old).honest →
        IfHonest S.device source (λ file. Comes (IsWritten request.now path.entry (D.trace world.old)
        (D.trace world.new) file) (end_status result) (told_of_end result) known known) }
{
    if is_same_file(world, path, request.image) {
        return Err(RequestFault::WritesWhatIsRead(path));
    }
    match world.create(path) {
        Ok(file) => extract_to(world, request, (path, path), file, source),
        Err(reason) => Err(RequestFault::CannotWrite(path, reason)),
    }
}

/// Runs a command on an open image. Its text goes to an empty file at the second path, which is
/// closed. A failed write is reported with the first.
pub(crate) fn extract_to<'a, D: World, S: Source>(
    world: &mut D,
    request: &RunRequest<'a>,
    paths: (&'a str, &str),
    file: D::File,
    source: &mut S,
) -> Result<Status, RequestFault<'a>>
    ensures closes { ClosesAt paths.entry.1.now (D.trace world.old) (D.trace world.new) }
    ensures means { (known : Option (List ℕ)) → IsTrue D.knows → D.File.contents file ≡ Some [] →
        IfHonest S.device source (λ bytes. Comes (IsExtracted request.now paths.entry.1.now
        (D.trace world.new) bytes) (end_status result) (told_of_end result) known known) }
{
    let (path, at) = paths;
    let code = Cell::new(None);
    let (end, file) = run_over(
        world.alloc(),
        request,
        source,
        ReasonKeeper::new(file, &code),
    );
    let closed = world.close(at, file.into_inner(), false);
    match (end, closed) {
        (Err(RequestFault::Stopped(Fault::Put)), _) => {
            Err(RequestFault::NotPut(path, reason_of_code(code.get())))
        }
        (_, Err(reason)) => Err(RequestFault::NotPut(path, reason)),
        (end, Ok(())) => end,
    }
}

/// Returns whether two paths lead to the same file, also by links.
pub(crate) fn is_same_file<D: World>(world: &mut D, path: &str, other: &str) -> bool
    ensures compares { Compares path.now other.now result (D.trace world.old) (D.trace world.new) }
    ensures same { SameFiles (D.map world.old) (D.map world.new) }
{
    match (world.file_at(path), world.file_at(other)) {
        (Some(one), Some(two)) => one == two,
        _ => false,
    }
}
