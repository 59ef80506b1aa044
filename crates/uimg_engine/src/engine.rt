//! Commands on an image, carried out by the engine of its format.

ghost use Rattle.std.specs.Prelude.{◌≡◌, ◌+◌, ◌*◌, true, false, length, Err};
ghost use Rattle.uimg_base.specs.{Honest.HonestSource, Device.SameDevice, Held.held_bytes};
ghost use Rattle.uimg_engine.specs.Faults.{is_no_memory, is_refused, is_of_making};
ghost use Rattle.uimg_engine.specs.Headline.{outcome_of, work, nodes_of, CarriesOut, Runs, NoReadFails, NoWriteFails, GrowthsSucceed, Meets, WritesPrefix, ExactlyIfRose, AsksAtMost, ExtractsAhead, KeepsOutput, PeaksAtMost, IsLegacy, OnlyClears};

use crate::fault::Fault;
use crate::formats::is_fit;
use std::alloc::Allocator;
use std::io::Write;
use uimg_base::{Out, Room, Source, Status};
use uimg_requests::{Action, Command};
use uimg_texts::Naming;

pub(crate) fn run_legacy<S: Source, A: Allocator, W: Write>(
    naming: Naming,
    action: Action,
    source: &mut S,
    room: &mut Room<A>,
    out: &mut Out<W>,
) -> Result<Status, Fault>
    ensures { CarriesOut naming false action result S.device source room out }
{
    let status = match action {
        Action::List => uimg_legacy::list_by(source, room, naming, out)?,
        Action::Verify => uimg_legacy::verify(source, room, out)?,
        Action::Extract(position) => uimg_legacy::extract(position, source, room, out)?,
    };
    Ok(status)
}

fn run_fit<S: Source, A: Allocator, W: Write>(
    naming: Naming,
    action: Action,
    source: &mut S,
    room: &mut Room<A>,
    out: &mut Out<W>,
) -> Result<Status, Fault>
    ensures { CarriesOut naming true action result S.device source room out }
{
    let status = match action {
        Action::List => uimg_fit_reading::list_by(source, room, naming, out)?,
        Action::Verify => uimg_fit_reading::verify(source, room, out)?,
        Action::Extract(position) => uimg_fit_reading::extract(position, source, room, out)?,
    };
    Ok(status)
}

/// Carries out a command on an image: writes its listing (with the names of the profile), its
/// verification report, one part of a legacy image or one payload of a FIT image to `out`. Returns
/// the status. Where the format is to be guessed, a file that begins with `0xd00dfeed` is a FIT
/// image, any other a legacy image.
///
/// Over an honest source:
///
/// - `headline`: if no read, write or growth of the room failed, the end is that of `outcome_of`:
///   done, a wrong hash, or the first fault; and exactly its text was appended.
/// - `prefix`: at every exit a prefix of that text was appended.
/// - `asked`: at most `work` bytes were requested. FIT image: 64, 1024 for each node and property,
///   and 4 for each NOP and each byte of a text. A verification requests each payload at most once,
///   and none whose hash values are not compared; an extraction requests its payload. Legacy image:
///   80, 16 for each size in its table, the data, and in an extraction the part.
/// - `ahead`: at every exit an extraction requested at most the work of a listing, the bytes that
///   were appended, and 8192.
/// - `peak`: the room never held more than before, or 8192 bytes and 128 for each node of a FIT
///   image that was met.
///
/// Over any source:
///
/// - `read`, `put`, `no_memory`: `Fault::Read` is returned exactly if a read failed, `Fault::Put`
///   exactly if a write failed, `OutOfMemory` of the blob exactly if the room refused to grow.
/// - `not_making`: a fault that only a build has is never returned: L9, L10, B10, F5 to F10, `Its`,
///   `NoFile`, `Keep`, `OutOfMemory`.
/// - `untouched`: an extraction that is refused, for want of memory too, appended nothing.
/// - `most`: the room never held more than before, or 8320 bytes and 16 for each byte of the source.
/// - `legacy`: for a legacy image the room is cleared and takes no memory.
/// - `same`: the bytes of the source and its honesty are unchanged.
pub fn run<S: Source, A: Allocator, W: Write>(
    command: &Command,
    source: &mut S,
    room: &mut Room<A>,
    out: &mut Out<W>,
) -> Result<Status, Fault>
    ensures headline { HonestSource S.device source → NoReadFails S.device source →
        NoWriteFails out → GrowthsSucceed command.now S.device source room →
        Meets (outcome_of Naming.Profile command.now) result S.device source out }
    ensures prefix { HonestSource S.device source →
        WritesPrefix (outcome_of Naming.Profile command.now) S.device source out }
    ensures read { ExactlyIfRose (result ≡ Err Fault.Read)
        (S.device source.old).failures (S.device source.new).failures }
    ensures put { ExactlyIfRose (result ≡ Err Fault.Put) out.old.faults out.new.faults }
    ensures no_memory { ExactlyIfRose (is_no_memory result ≡ true)
        room.old.refused room.new.refused }
    ensures not_making { is_of_making result ≡ false }
    ensures asked { HonestSource S.device source → AsksAtMost (work Naming.Profile command.now) S.device source }
    ensures ahead { HonestSource S.device source →
        ExtractsAhead Naming.Profile command.now S.device source out }
    ensures untouched { KeepsOutput command.now.action (is_refused result) out.old out.new }
    ensures peak { HonestSource S.device source →
        PeaksAtMost (held_bytes (nodes_of command.now (S.device source.old).bytes)) room }
    ensures most { PeaksAtMost (8320 + 16 * length (S.device source.old).bytes) room }
    ensures legacy { IsLegacy command.now.form (S.device source.old) → OnlyClears room }
    ensures same { SameDevice (S.device source.old) (S.device source.new) }
{
    run_by(Naming::Profile, command, source, room, out)
}

/// Carries out a command on an image as `run` does, a listing with the names of a set.
pub fn run_by<S: Source, A: Allocator, W: Write>(
    naming: Naming,
    command: &Command,
    source: &mut S,
    room: &mut Room<A>,
    out: &mut Out<W>,
) -> Result<Status, Fault>
    ensures { Runs naming command.now result S.device source room out }
{
    room.clear();
    if is_fit(command.form, source)? {
        run_fit(naming, command.action, source, room, out)
    } else {
        run_legacy(naming, command.action, source, room, out)
    }
}
