//! `make`: builds an image on a shelf, reopens it and lists it.

ghost use Rattle.std.specs.Prelude.{◌≡◌, false, Some, [], is_err, IsTrue, IsOk, IfOk, IfErr};
ghost use Rattle.std.specs.Io.KnownBytes.{Keeps};
ghost use Rattle.uimg_base.specs.Device.{IsFresh};
ghost use Rattle.uimg_engine.specs.Faults.{is_unread, is_lost_payload, is_put, is_keep, is_of_making};
ghost use Rattle.uimg_engine.specs.{Headline.NoWriteFails, Making.{KeepsBytes, WritesImage}};
ghost use Rattle.uimg_engine.specs.OpenedFiles.{OpensCommand};
ghost use Rattle.uimg_requests.specs.Commands.{HasFitNames};
ghost use Rattle.uimg_engine.specs.Commands.{HonestFiles, KeepsSizes, OpensToBuild, BuildsCommand, MakesCommand, ListsKept, LeavesRoom, HoldsCommand, Makes};

use crate::fault::Fault;
use crate::making_lists::list_kept;
use crate::making_parts::build_parts;
use crate::making_trees::build_tree;
use std::alloc::Allocator;
use std::io::Write;
use uimg_base::{Files, Out, Room, Shelf, Source};
use uimg_fit_base::WORD_ALIGNMENT;
use uimg_legacy::Options;
use uimg_requests::{MakeCommand, Manner};
use uimg_texts::Naming;

/// Builds the image of a command at a time, in seconds since 1970, and appends it to `image`. If
/// the payloads of a FIT image are after the blob, its end and each payload's are rounded up to
/// `align` (`uimg_blob_writing::aligned`).
///
/// For a legacy image the files of the command are opened in order. Over honest files the image of
/// their bytes is appended and reads back: its checksums are right, and each part is found in it.
/// For a FIT image the source is read, compiled, filled at the time and built. Over honest files
/// the image of the filled tree that the source spells is appended and reads back: its hashes are
/// right, and each payload is found in it.
///
/// Returns the first fault. Nothing was appended, but at the last three over honest files a prefix
/// of the image:
///
/// - `OutOfMemory`: memory for the opened files or for the text was refused.
/// - `NoFile`: a file or the source could not be opened.
/// - `Legacy`: as `uimg_legacy::build`.
/// - `Its`, `Fit`, `Blob`: as `uimg_its::compile`, `uimg_fit::fill` and `uimg_fit::build`.
/// - `Fit(NoFile)`: the file of a payload could not be opened.
/// - `Read`: a read failed. Never, if what the files open is steady (of a source: over honest
///   files); then `ReadFailed` of `Its` is not returned either, nor that of `Fit` over honest files.
/// - `Put`: a write failed.
pub fn build_image<F: Files, W: Write, A: Allocator + Copy>(
    alloc: A,
    command: &MakeCommand,
    time: u32,
    align: u32,
    files: &mut F,
    image: &mut Out<W>,
) -> Result<(), Fault>
    requires fit { HasFitNames command.now }
    ensures built { HonestFiles F.map files →
        BuildsCommand command.now time align (F.map files.old).bytes result image.old image.new }
    ensures files { OpensToBuild command.now result (F.map files.old) (F.map files.new) }
    ensures opened { OpensCommand command.now time align (is_err result)
        (F.map files.old) (F.map files.new) }
    ensures image { WritesImage result image }
    ensures reads { IsTrue F.Opened.steady → KeepsSizes command.now (F.map files.old) →
        is_unread result ≡ false }
    ensures payloads { IsTrue F.Opened.steady → HonestFiles F.map files →
        is_lost_payload result ≡ false }
{
    match command {
        MakeCommand::Parts {
            options,
            files: names,
        } => {
            let options = Options { time, ..*options };
            build_parts(alloc, &options, names, files, image)
        }
        MakeCommand::Tree { source, placement } => {
            let placement = (*placement).aligned_by(align);
            build_tree(alloc, source, placement, time, files, image)
        }
    }
}

pub(crate) fn write_out<H: Shelf>(image: Out<H>) -> Result<H, Fault>
    ensures written { IfOk result (λ shelf. Keeps image.contents (H.contents shelf)) }
    ensures fault { IfErr result (λ fault. fault ≡ Fault.Put) }
{
    let mut shelf = image.into_inner();
    match shelf.flush() {
        Ok(()) => Ok(shelf),
        Err(_) => Err(Fault::Put),
    }
}

pub(crate) fn keep<H: Shelf>(shelf: H) -> Result<H::Kept, Fault>
    ensures kept { IsTrue H.honest → IfOk result (KeepsBytes H.Kept.device (H.contents shelf)) }
    ensures fault { IfErr result (λ fault. fault ≡ Fault.Keep) }
    ensures steady { IsTrue H.steady → IsOk result }
    ensures fresh { IfOk result (λ kept. IsFresh (H.Kept.device kept)) }
{
    match shelf.keep() {
        Ok(kept) => Ok(kept),
        Err(_) => Err(Fault::Keep),
    }
}

/// Builds the image of the command on the shelf, at a time in seconds since 1970, reopens it, and
/// writes its listing to `out`, with the names of the profile. Returns what was kept. If the
/// payloads of a FIT image are after the blob, its end and each payload's are rounded up to a
/// multiple of 4. A legacy image must have at least one part, and just one unless its type is multi
/// or script.
///
/// Over honest files and an honest, empty shelf:
///
/// - `made`: the image of `build_image` was kept, which reads back, and exactly its listing was
///   written; or a fault was returned, with the meaning below.
/// - `peak`: the room took at most 128 bytes for each node of the FIT image.
///
/// Over any files and shelf:
///
/// - `files`: the files are unchanged. Except at F9, `NoFile` and I5 of a source are returned
///   exactly if the count of refused opens rose. Over complete files `NoFile` names only a file that
///   does not exist, and over complete and honest ones F9 is never returned.
/// - `opened`: exactly the files of the definition were opened, in order, or the first ones at a
///   fault: the parts of a legacy image; of a FIT image the source, the files that its text
///   includes, those that are summed, and those of the filled tree as it is written.
/// - `quiet`, `puts`, `put`: after a fault that only a build has, nothing of a listing was written.
///   A write of the listing failed only if `Put` is returned; if none failed, `Put` is the shelf's.
/// - `steady_reads`, `steady_payloads`, `steady_keeps`: where what is opened and kept never fails,
///   neither `Read` nor `ReadFailed` of `Its` (of a source: over honest files) is returned, nor that
///   of `Fit` over honest files; where the shelf always keeps, never `Keep`.
/// - `listed`, `kept_reads`: at `Ok` no read of what was kept failed, and if that is honest, exactly
///   its listing was written, with no fault.
/// - `room`: a fault of the build only clears the room, and a legacy image takes no memory of it.
///
/// Returns the first fault. If a shelf keeps other bytes than were written, `Legacy`, `Blob` and
/// `Fit` may also come from its listing, after some lines. Over honest files and an honest, empty
/// shelf a fault means this (`StopsMaking` of `specs/Making.antt`, `StopsSource` of
/// `specs/MakingTrees.antt`):
///
/// - `Legacy`: the parts have bytes, which are refused with it.
/// - `NoFile(i)` of parts: a name of number i exists, and the names before it have bytes.
/// - `Its`: the source has a text, whose tokens spell no tree unless it is I5, I6 or I7.
/// - `Fit`, `Blob`: the text spells a tree that filling or building refuses with it, or memory for
///   the table of nodes was refused.
/// - `Read`: a read failed; the parts have bytes, or the source has, or the filled tree can be
///   built. A prefix of the listing was written.
/// - `Put`: a write failed; the parts are accepted, or the filled tree can be built. A prefix of the
///   listing was written.
/// - `Keep`: what was written could not be reopened. Nothing is listed.
/// - `OutOfMemory`, and `NoFile` of a source, say nothing of the files.
pub fn make<F: Files, H: Shelf, W: Write, A: Allocator + Copy, B: Allocator>(
    alloc: A,
    command: &MakeCommand,
    time: u32,
    files: &mut F,
    shelf: H,
    room: &mut Room<B>,
    out: &mut Out<W>,
) -> Result<H::Kept, Fault>
    requires fit { HasFitNames command.now }
    ensures made { HonestFiles F.map files → IsTrue H.honest → H.contents shelf ≡ Some [] →
        MakesCommand H.Kept.device Naming.Profile command.now time 4 (F.map files.old).bytes
        result out }
    ensures files { OpensToBuild command.now result (F.map files.old) (F.map files.new) }
    ensures opened { OpensCommand command.now time 4 (is_err result)
        (F.map files.old) (F.map files.new) }
    ensures quiet { IsTrue (is_of_making result) → out.new ≡ out.old }
    ensures puts { is_put result ≡ false → out.new.faults ≡ out.old.faults }
    ensures put { IsTrue (is_put result) → NoWriteFails out → out.new ≡ out.old }
    ensures steady_reads { IsTrue F.Opened.steady → IsTrue H.Kept.steady →
        KeepsSizes command.now (F.map files.old) → is_unread result ≡ false }
    ensures steady_payloads { IsTrue F.Opened.steady → HonestFiles F.map files →
        is_lost_payload result ≡ false }
    ensures steady_keeps { IsTrue H.steady → is_keep result ≡ false }
    ensures listed { IfOk result (ListsKept H.Kept.device Naming.Profile command.now out) }
    ensures kept_reads { IfOk result (λ kept. (H.Kept.device kept).failures ≡ 0) }
    ensures room { LeavesRoom H.Kept.device (F.map files.old).honest command.now result room }
    ensures peak { HonestFiles F.map files → IsTrue H.honest → H.contents shelf ≡ Some [] →
        HoldsCommand command.now time 4 (F.map files.old).bytes room }
{
    let manner = Manner {
        time,
        naming: Naming::Profile,
        align: WORD_ALIGNMENT,
    };
    make_by(alloc, command, manner, files, shelf, room, out)
}

/// Builds and lists an image as `make` does, in a manner: at its time, listed with its names, and
/// with the end of a FIT image's blob and of each payload after it rounded up to its alignment.
pub fn make_by<F: Files, H: Shelf, W: Write, A: Allocator + Copy, B: Allocator>(
    alloc: A,
    command: &MakeCommand,
    manner: Manner,
    files: &mut F,
    shelf: H,
    room: &mut Room<B>,
    out: &mut Out<W>,
) -> Result<H::Kept, Fault>
    requires fit { HasFitNames command.now }
    ensures made { HonestFiles F.map files → IsTrue H.honest → H.contents shelf ≡ Some [] →
        MakesCommand H.Kept.device manner.naming command.now manner.time manner.align
        (F.map files.old).bytes result out }
    ensures makes { Makes H.Kept.device F.map manner.naming command.now F.Opened.steady H.steady
        H.Kept.steady result files room out }
    ensures opened { OpensCommand command.now manner.time manner.align (is_err result)
        (F.map files.old) (F.map files.new) }
    ensures peak { HonestFiles F.map files → IsTrue H.honest → H.contents shelf ≡ Some [] →
        HoldsCommand command.now manner.time manner.align (F.map files.old).bytes room }
{
    room.clear();
    let mut image = Out::new(shelf);
    build_image(alloc, command, manner.time, manner.align, files, &mut image)?;
    let shelf = write_out(image)?;
    let mut kept = keep(shelf)?;
    list_kept(manner.naming, command, &mut kept, room, out)?;
    Ok(kept)
}
