//! `run_by`, `locate` and `make_by` over images and files in memory.
ghost use Rattle.std.specs.{Prelude.{◌≡◌, true, false, IfOk, IfErr}, Io.StartsWith};
ghost use Rattle.uimg_engine.specs.Faults.{LosesNothing, is_put, is_refused, is_keep};
ghost use Rattle.uimg_engine.specs.Locating.{FindsSpan, StandsIn};
ghost use Rattle.uimg_engine.specs.Headline.{outcome_of, is_fit, GivesOutcome, InMemory, TakesNone, WritesNone};
ghost use Rattle.uimg_requests.specs.Commands.{HasFitNames};
ghost use Rattle.uimg_engine.specs.Commands.{bytes_among, LacksFile, MakesCommand, ListsLast, LeavesRoom, HoldsCommand};

use crate::engine::run_by;
use crate::fault::Fault;
use crate::locating::locate;
use crate::making::make_by;
use std::alloc::Allocator;
use std::io::Write;
use uimg_base::{MemFiles, MemKept, MemShelf, MemSource, Out, Room, Source, Span, Status};
use uimg_requests::{Command, Form, MakeCommand, Manner};
use uimg_texts::Naming;

/// Carries out a command on the bytes of an image, a listing with the names of a set. Returns the
/// result of `run_by`, and all that was written.
///
/// Result and text are exactly the outcome of the command, unless memory was refused; then a prefix
/// of the text was written. A refused extraction writes nothing. The room takes at most 128 bytes
/// for each node of a FIT image that is met, and none for a legacy image. `Fault::Read` and the
/// faults of a build are never returned.
///
/// Where memory was refused, the result is:
/// - `Fault::Put`: for the text;
/// - `OutOfMemory` of the blob: for the table of a FIT image's nodes (a legacy image has none).
pub fn run_in_memory<A: Allocator, B: Allocator>(
    alloc: B,
    naming: Naming,
    command: &Command,
    image: &[u8],
    room: &mut Room<A>,
) -> (Result<Status, Fault>, Vec<u8, B>)
    ensures told { GivesOutcome (outcome_of naming command.now image.now) result.0 result.1.items }
    ensures prefix { StartsWith (outcome_of naming command.now image.now).text result.1.items }
    ensures untouched { WritesNone command.now.action (is_refused result.0) result.1.items }
    ensures memory { InMemory command.now.form image.now result.0 room }
    ensures legacy { is_fit command.now.form image.now ≡ false → TakesNone result.0 room }
{
    let mut source = MemSource::new(image);
    let mut out = Out::new(Vec::new(alloc));
    let end = run_by(naming, command, &mut source, room, &mut out);
    (end, out.into_inner())
}

/// Finds the part or the payload at a position in the bytes of an image, as `locate` does. Returns
/// its span, or the fault of an extraction from there.
///
/// If memory for the table of a FIT image's nodes was refused, returns `OutOfMemory` of the blob.
/// `Fault::Read`, `Fault::Put` and the faults of a build are never returned. The room takes at most
/// 128 bytes for each node of a FIT image that is met, and none for a legacy image.
pub fn locate_in_memory<A: Allocator>(
    form: Form,
    position: u32,
    image: &[u8],
    room: &mut Room<A>,
) -> Result<Span, Fault>
    ensures told { FindsSpan form position image.now result }
    ensures inside { IfOk result (StandsIn image.now) }
    ensures no_put { is_put result ≡ false }
    ensures memory { InMemory form image.now result room }
    ensures legacy { is_fit form image.now ≡ false → TakesNone result room }
{
    let mut source = MemSource::new(image);
    locate(form, position, &mut source, room)
}

/// Makes an image from files in memory, pairs of a name and its bytes, as `make_by` does. Returns
/// the image as a source.
///
/// It is the image of the files' bytes and reads back, and exactly its listing was written. Nothing
/// was listed at a fault of the build, or at `Fault::Put` if no write failed. The room takes memory
/// for the listing only: none for a legacy image, and at most 128 bytes for each node of the FIT
/// image. A fault of the build only clears it.
///
/// - `Fault::NoFile`: only for a name without a file.
/// - `Fault::OutOfMemory`: memory for the opened files or for the text was refused.
/// - `OutOfMemory` of `Its`, `Fit` and `Blob`: memory for the tree, or for the table of the image's
///   nodes, was refused.
/// - `Fault::Put`: a write of the listing failed, or memory for the image was refused.
///
/// `Fault::Read`, `Fault::Keep`, `ReadFailed` of `Its`, and `ReadFailed` and `NoFile` of `Fit` are
/// never returned.
pub fn make_in_memory<W: Write, A: Allocator + Copy, B: Allocator>(
    alloc: A,
    command: &MakeCommand,
    manner: Manner,
    files: &[(&[u8], &[u8])],
    room: &mut Room<B>,
    out: &mut Out<W>,
) -> Result<MemKept<A>, Fault>
    requires fit { HasFitNames command.now }
    ensures made { MakesCommand (⟦<MemKept<A> as Source>⟧.device) manner.naming command.now manner.time
        manner.align (bytes_among files.now) result out }
    ensures missing { IfErr result (LacksFile command.now (bytes_among files.now)) }
    ensures reads { LosesNothing result }
    ensures keep { is_keep result ≡ false }
    ensures listed { ListsLast result out }
    ensures room { LeavesRoom (⟦<MemKept<A> as Source>⟧.device) true command.now result room }
    ensures peak { HoldsCommand command.now manner.time manner.align (bytes_among files.now) room }
{
    make_by(
        alloc,
        command,
        manner,
        &mut MemFiles::new(files),
        MemShelf::new(alloc),
        room,
        out,
    )
}
