//! Commands on one image by the names of mkimage and dumpimage. What is extracted is beside its name
//! until it is complete.

ghost use Rattle.std.specs.Prelude.{◌≡◌, ◌≢◌, ◌⊎◌, ℕ, List, [], IfOk, IfSome, IsTrue, None, OnErr, Option, Some};
ghost use Rattle.std.specs.Io.Buffered.{writer_buffer, writer_contents};
ghost use Rattle.uimg_base.specs.Honest.{IfHonest};
ghost use Rattle.uimg_tool.specs.{Answering.Comes, Complaints.Ends, FaultTexts.told_of_end, Images.IsExtracted, Statuses.end_status};
ghost use Rattle.uimg_tool.specs.OldImages.{AnswersOldExtraction, PrintsOutcome};
ghost use Rattle.uimg_world.specs.Deeds.{changes};

use crate::complaints::Complaints;
use crate::images::{extract, extract_to, is_same_file, run_image};
use crate::made::Made;
use crate::old_files::{tell_end, tell_written};
use crate::request_fault::RequestFault;
use crate::safe_path::Writing;
use crate::writing::writing_of;
use std::alloc::Global;
use std::io;
use std::io::{BufWriter, Write};
use uimg_base::{Source, SourceFault, Status};
use uimg_requests::RunRequest;
use uimg_world::World;

/// A quiet command prints nothing. An extracted part is written beside its name, which it gets when
/// it is complete. Returns `out`, too.
pub(crate) fn run_old<D: World, W: Write + Drop, V: Write>(
    world: &mut D,
    is_quiet: bool,
    request: &RunRequest<'_>,
    out: BufWriter<W, Global>,
    complaints: &mut Complaints<'_, V>,
) -> (u8, BufWriter<W, Global>)
    ensures ends { Ends result.0 complaints.old.count complaints.new.count }
    ensures told { IsTrue (D.map world.old).honest → request.now.outfile ≡ None →
        (result.0 ≡ 3) ⊎ PrintsOutcome is_quiet request.now (D.map world.old) result.0
        (writer_contents W.contents out) (writer_contents W.contents result.1) }
    ensures flushed { result.0 ≢ 3 → writer_buffer out ≡ [] → writer_buffer result.1 ≡ [] }
    ensures kept { request.now.outfile ≡ None →
        changes (D.trace world.new) ≡ changes (D.trace world.old) }
    ensures extracted { IsTrue (D.map world.old).honest → IfSome request.now.outfile (λ path.
        AnswersOldExtraction request.now path.now (D.map world.old) result.0
        (writer_contents W.contents out) (writer_contents W.contents result.1)
        (D.trace world.old)) }
{
    match request.outfile {
        Some(path) => (extract_old(world, request, path, complaints), out),
        None => run_printed(world, is_quiet, request, out, complaints),
    }
}

fn run_printed<D: World, W: Write + Drop, V: Write>(
    world: &mut D,
    is_quiet: bool,
    request: &RunRequest<'_>,
    out: BufWriter<W, Global>,
    complaints: &mut Complaints<'_, V>,
) -> (u8, BufWriter<W, Global>)
    requires { request.now.outfile ≡ None }
    ensures ends { Ends result.0 complaints.old.count complaints.new.count }
    ensures told { IsTrue (D.map world.old).honest → (result.0 ≡ 3)
        ⊎ PrintsOutcome is_quiet request.now (D.map world.old) result.0
        (writer_contents W.contents out) (writer_contents W.contents result.1) }
    ensures flushed { result.0 ≢ 3 → writer_buffer out ≡ [] → writer_buffer result.1 ≡ [] }
    ensures kept { changes (D.trace world.new) ≡ changes (D.trace world.old) }
{
    if is_quiet {
        let (end, _sink) = run_image(world, request, io::sink());
        return (tell_end(world, &end, request.image, complaints), out);
    }
    let (end, mut out) = run_image(world, request, out);
    let made = Made {
        end,
        printed: out.flush(),
    };
    (
        tell_end(world, &made.told(), request.image, complaints),
        out,
    )
}

// The image is opened before the new file is created, so that it cannot be another one.
fn extract_old<'a, D: World, V: Write>(
    world: &mut D,
    request: &RunRequest<'a>,
    path: &'a str,
    complaints: &mut Complaints<'_, V>,
) -> u8
    ensures ends { Ends result complaints.old.count complaints.new.count }
    ensures extracted { IsTrue (D.map world.old).honest → (known : Option (List ℕ)) →
        AnswersOldExtraction request.now path.now (D.map world.old) result known known
        (D.trace world.old) }
{
    let source = world.open(request.image);
    match writing_of(world, world.alloc(), path) {
        Ok(Writing::InPlace) => extract_in_place(world, request, path, source, complaints),
        Ok(Writing::Pipe) => extract_in_place(world, request, path, source, complaints),
        Ok(Writing::Beside(file, beside)) => {
            let paths = (path, beside.new.as_str());
            let end = extract_beside(world, request, paths, file, source);
            tell_written(world, &beside, &end, request.image, complaints)
        }
        Ok(Writing::Nowhere(reason)) => complaints.tell_unwritten(path, &reason),
        Err(_) => complaints.tell_no_memory(),
    }
}

fn extract_in_place<'a, D: World, S: Source, V: Write>(
    world: &mut D,
    request: &RunRequest<'a>,
    path: &'a str,
    source: Result<S, SourceFault>,
    complaints: &mut Complaints<'_, V>,
) -> u8
    ensures { Ends result complaints.old.count complaints.new.count }
{
    let end = match source {
        Ok(mut source) => extract(world, request, path, &mut source),
        Err(_) => Err(RequestFault::CannotRead(request.image)),
    };
    tell_end(world, &end, request.image, complaints)
}

fn extract_beside<'a, D: World, S: Source>(
    world: &mut D,
    request: &RunRequest<'a>,
    paths: (&'a str, &str),
    file: D::File,
    source: Result<S, SourceFault>,
) -> Result<Status, RequestFault<'a>>
    ensures extracted { (known : Option (List ℕ)) → IsTrue D.knows → D.File.contents file ≡ Some [] →
        IfOk source (λ opened. IsTrue (S.device opened).honest → (end_status result ≡ 2) ⊎ Comes
        (IsExtracted request.now paths.entry.1.now (D.trace world.new) (S.device opened).bytes)
        (end_status result) (told_of_end result) known known) }
    ensures unread { OnErr source (end_status result ≡ 3) }
{
    let Ok(mut source) = source else {
        return Err(RequestFault::CannotRead(request.image));
    };
    if is_same_file(world, paths.0, request.image) {
        return Err(RequestFault::WritesWhatIsRead(paths.0));
    }
    extract_to(world, request, paths, file, &mut source)
}
