//! The calls of `uimg_tool` on images of both formats, which it re-exports from `uimg_engine`.

ghost use Rattle.std.specs.Prelude.{◌≡◌, ◌+◌, ◌*◌, length, true, false, [], Some, Err, is_err, IsTrue};
ghost use Rattle.uimg_base.specs.{Honest.HonestSource, Device.SameDevice, Held.held_bytes};
ghost use Rattle.uimg_texts.specs.declared.naming.Naming.TheVariants.{Profile};
ghost use Rattle.uimg_requests.specs.Commands.{HasFitNames};
ghost use Rattle.uimg_engine.specs.declared.fault.Fault.TheVariants.{Read, Put};
ghost use Rattle.uimg_engine.specs.Faults.{is_no_memory, is_refused, is_of_making};
ghost use Rattle.uimg_engine.specs.Headline.{outcome_of, work, nodes_of, NoReadFails, NoWriteFails, GrowthsSucceed, Meets, WritesPrefix, ExactlyIfRose, AsksAtMost, ExtractsAhead, KeepsOutput, PeaksAtMost, IsLegacy, OnlyClears};
ghost use Rattle.uimg_engine.specs.Commands.{HonestFiles, OpensToBuild, MakesCommand};
ghost use Rattle.uimg_engine.specs.OpenedFiles.{OpensCommand};

use std::alloc::Allocator;
use std::io::Write;
use std::rt;
use uimg_base::{Files, Out, Room, Shelf, Source, Status};
use uimg_engine::{Command, DiskFiles, Fault, MakeCommand};

/// Lists, verifies or extracts: carries out a command on an image and writes its text to `out`. If
/// the format is to be guessed, a file that begins with `0xd00dfeed` is a FIT image, any other a
/// legacy image.
///
/// Over an honest source:
///
/// - `headline`: if no read, write or growth of the room failed, the status or the fault is the end
///   of `outcome_of`, and exactly its text was written.
/// - `prefix`: at every exit a prefix of that text was written.
/// - `asked`: at most `work` bytes were requested: the metadata, and each payload at most once for a
///   verification, and once for its extraction.
/// - `ahead`: at every exit an extraction requested at most the metadata, the bytes that it wrote,
///   and 8192.
/// - `peak`: the room never held more than before, or 8192 bytes and 128 for each node.
///
/// Over any source:
///
/// - `most`: the room never held more than before, or 8320 bytes and 16 for each byte of the source.
/// - `untouched`: an extraction that is refused wrote nothing.
/// - `legacy`: a legacy image takes no memory.
///
/// Errors:
///
/// - `Read`, `Put`: if and only if a read, or a write, failed.
/// - `OutOfMemory` of `Blob`: if and only if the room refused to grow.
/// - `Legacy`, `Blob`, `Fit`: the first fault of the image. Faults of building are never returned.
pub fn run<S: Source, A: Allocator, W: Write>(
    command: &Command,
    source: &mut S,
    room: &mut Room<A>,
    out: &mut Out<W>,
) -> Result<Status, Fault>
    ensures headline { HonestSource S.device source → NoReadFails S.device source →
        NoWriteFails out → GrowthsSucceed command.now S.device source room →
        Meets (outcome_of Profile command.now) result S.device source out }
    ensures prefix { HonestSource S.device source →
        WritesPrefix (outcome_of Profile command.now) S.device source out }
    ensures asked { HonestSource S.device source → AsksAtMost (work Profile command.now) S.device source }
    ensures ahead { HonestSource S.device source →
        ExtractsAhead Profile command.now S.device source out }
    ensures peak { HonestSource S.device source →
        PeaksAtMost (held_bytes (nodes_of command.now (S.device source.old).bytes)) room }
    ensures most { PeaksAtMost (8320 + 16 * length (S.device source.old).bytes) room }
    ensures untouched { KeepsOutput command.now.action (is_refused result) out.old out.new }
    ensures legacy { IsLegacy command.now.form (S.device source.old) → OnlyClears room }
    ensures read { ExactlyIfRose (result ≡ Err Read)
        (S.device source.old).failures (S.device source.new).failures }
    ensures put { ExactlyIfRose (result ≡ Err Put) out.old.faults out.new.faults }
    ensures no_memory { ExactlyIfRose (is_no_memory result ≡ true)
        room.old.refused room.new.refused }
    ensures not_making { is_of_making result ≡ false }
    ensures same { SameDevice (S.device source.old) (S.device source.new) }
{
    uimg_engine::run(command, source, room, out)
}

/// Builds the image of a command on a shelf, at a time in seconds since 1970, reopens it, and
/// writes its listing to `out`. Returns what was kept. A legacy image must have at least one part,
/// and just one unless its type is multi or script.
///
/// Over honest files and an honest, empty shelf, at `Ok`:
///
/// - Parts: the bytes that are kept are `legacy_built` of the options at the time.
/// - Tree: they are `built` of the filled tree that the source spells.
/// - They read back, and exactly their listing was written.
///
/// Returns the first fault in the order of the steps. Over honest files and an honest, empty shelf,
/// only the last two may come after a prefix of the listing; at the others nothing was listed.
///
/// - `NoFile(i)`: file i, counted from 0, could not be opened; the source of a tree is file 0.
/// - `OutOfMemory`: memory for files or text was refused.
/// - `Its`, `Fit`, `Legacy`, names in `Blob`: as `compile`, `fill` and `build`.
/// - `Keep`: what was written could not be reopened.
/// - `OutOfMemory` of `Blob`: memory for the table of nodes was refused.
/// - `Read`, `Put`: a read, or a write, failed.
///
/// Over any files, exactly those of the command were opened, in order, or the first ones at a fault.
/// A refusal of theirs was counted if and only if `NoFile`, or I5 of a source, is returned.
pub fn make<F: Files, H: Shelf, W: Write, A: Allocator + Copy, B: Allocator>(
    alloc: A,
    command: &MakeCommand,
    time: u32,
    files: &mut F,
    shelf: H,
    room: &mut Room<B>,
    out: &mut Out<W>,
) -> Result<H::Kept, Fault>
    requires fit { HasFitNames command.now }
    ensures made { HonestFiles F.map files → IsTrue H.honest → H.contents shelf ≡ Some [] →
        MakesCommand H.Kept.device Profile command.now time 4 (F.map files.old).bytes result out }
    ensures files { OpensToBuild command.now result (F.map files.old) (F.map files.new) }
    ensures opened { OpensCommand command.now time 4 (is_err result)
        (F.map files.old) (F.map files.new) }
    ensures quiet { IsTrue (is_of_making result) → out.new ≡ out.old }
{
    uimg_engine::make(alloc, command, time, files, shelf, room, out)
}

/// Returns the files of a folder, none of them requested yet. A name that begins with `/` is a path
/// of its own; an empty folder is the current one. They are not claimed to be honest.
pub fn disk_files<'a, R: rt::Files + AllocGlobal>(rt: &'a R, folder: &'a str) -> DiskFiles<'a, R>
    ensures folder { result.folder.now ≡ folder.entry.now }
    ensures refusals { (⟦<DiskFiles<'a, R> as Files>⟧.map result).refusals ≡ 0 }
{
    DiskFiles::new(rt, folder)
}
