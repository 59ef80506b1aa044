//! Unpacks a FIT image into a folder.

ghost use Rattle.std.specs.Prelude.{◌≡◌, ◌+◌, ◌≤◌, ◌||◌, IsTrue, true};
ghost use Rattle.std.specs.Option.{option_map};
ghost use Rattle.uimg_base.specs.Device.{SameDevice};
ghost use Rattle.uimg_base.specs.Honest.{IfHonest};
ghost use Rattle.uimg_fit_checking.specs.Unpacking.{as_bytes, unpack_work, which};
ghost use Rattle.uimg_unpacking.specs.Ends.{asked_which, chooses, is_whole, end_of_taken, end_of_fault, TellsOverlap, EndsGiven, Ends, EndsByFile, FitsIf};
ghost use Rattle.uimg_unpacking.specs.{Filling.Fills, Leaving.LeavesAt, Places.{ChangesWithin, Obeys, terms_of}};

use crate::folder::Folder;
use crate::folder_taker::FolderTaker;
use crate::limits::Limits;
use crate::lines::Line;
use crate::new_file::ErrorCode;
use crate::objects::told;
use crate::task::Task;
use crate::trouble::Trouble;
use std::alloc::Global;
use std::collections::BTreeSet;
use std::io::Write;
use std::marker::Brand;
use uimg_base::{Algo, Room, Source};
use uimg_fit_base::{Fault, FitFault};
use uimg_fit_checking::{NodeName, Unpacked, Wanted};
use uimg_world::World;

/// What to unpack from an image.
#[derive(Clone, Copy, Debug)]
pub struct Unpacking<'a> {
    /// The folder for its payloads.
    pub folder: Folder<'a>,

    /// The name of the image, if only its payload is requested.
    pub only: Option<&'a str>,

    /// The names of the images, if only their payloads are requested. Then `only` does not count.
    pub among: Option<&'a BTreeSet<Vec<u8>>>,

    /// The weakest algorithm that is enough, if one is needed.
    pub need: Option<Algo>,

    /// How many files and bytes are enough.
    pub limits: Limits,

    /// Whether good payloads are kept if another one is refused.
    pub keeps_good: bool,

    /// The path of the image for JSON objects, if they are printed instead of lines.
    pub json: Option<&'a str>,
}

/// How the unpacking of an image ended.
#[derive(Debug, Drop)]
pub enum Ended {
    /// All requested payloads or parts are kept.
    Kept,

    /// A payload is refused, or payloads overlap. A line says so.
    Refused,

    /// There is no image, but a strength is needed.
    NoImage,

    /// A stronger checksum than CRC-32 is needed, which a legacy image does not have.
    Weak,

    /// The FIT image is refused, or a read of it failed.
    Stopped(Fault),

    /// The legacy image is refused, or a read of it failed.
    StoppedLegacy(uimg_legacy::Fault),

    /// A file or a line could not be written.
    Troubled(Trouble),
}

/// Writes the payloads of a FIT image to a folder, with a line for each on `out`. The files get
/// their names if each hash node of their images is right.
///
/// A file has the name of its image if that is a file name (`is_file_name`) and no earlier file has
/// the same name in lower case. Otherwise it is `image-` with its number among the taken payloads,
/// counted from 0, or with the next free number. A refused payload takes a name and a number too.
/// Nothing is written in these cases:
/// - something exists at one of these paths, or, if files are replaced, a folder;
/// - one of them leads to the image;
/// - there are more files or bytes than the limits allow.
///
/// Files get their names once all are written and right. If a payload is refused, only the lines of
/// refused ones are printed. Unless all files get their names, the folder is unchanged, except that
/// `keeps_good` keeps the good ones, and removes what refused ones were to replace.
///
/// Contracts say so of all files of which the answers of the calls are true (`IsTrueTo`): without
/// `keeps_good`, each file name of the folder has what it had, unless the end is `Kept`, or a trouble
/// that comes after files got their names: `NotPutBack`, `CannotPrint` or `Closed`.
///
/// Over an honest source it ends as the definition says of the image's bytes (`end_of_file`),
/// unless a read fails, memory runs out or it returns a trouble. Where files are kept, the file of
/// each kept payload has the name that `names_of_kept` gives, and holds exactly its bytes, if
/// contracts know what new files hold.
pub fn unpack<W: World, S: Source, O: Write + Drop>(
    world: &mut W,
    asked: &Unpacking<'_>,
    source: &mut S,
    out: O,
) -> Ended
    ensures within { ChangesWithin asked.now.folder.path.now true (W.trace world.old) (W.trace world.new) }
    ensures same { SameDevice (S.device source.old) (S.device source.new) }
    ensures asked { IfHonest S.device source (λ file. (S.device source.new).asked
        ≤ (S.device source.old).asked + unpack_work file) }
    ensures ended { IfHonest S.device source (λ file. EndsByFile asked.now file result) }
    ensures obeys { Obeys (terms_of asked.now.folder) true (W.trace world.old) (W.trace world.new) }
    ensures fits { IfHonest S.device source (λ file. FitsIf asked.now file result) }
    ensures filled { IfHonest S.device source (λ file. IsTrue W.knows →
        Fills asked.now file result (W.trace world.new)) }
    ensures back { LeavesAt asked.now result (W.trace world.old) (W.trace world.new) }
{
    let alloc = world.alloc();
    let mut end = Ended::NoImage;
    let _world = unpack_in::<_, _, _, Brand>(world, alloc, asked, source, out, &mut end);
    end
}

// Returns the world. Contracts lose the last value of a reference that is taken out of a tuple.
#[tactic(auto, using(crate::proofs::Placing::obeys_naming))]
fn unpack_in<'w, W: World, S: Source, O: Write + Drop, M: Task>(
    world: &'w mut W,
    alloc: Global,
    asked: &Unpacking<'_>,
    source: &mut S,
    out: O,
    end: &mut Ended,
) -> &'w mut W
    requires named { world.ghost_name ≡ M.name }
    requires before { W.trace world.now ≡ M.before }
    requires agreed { terms_of asked.now.folder ≡ M.terms }
    requires limits { asked.now.limits ≡ M.limits }
    ensures named { result.ghost_name ≡ M.name }
    ensures obeys { Obeys M.terms true M.before (W.trace result.now) }
    ensures same { SameDevice (S.device source.old) (S.device source.new) }
    ensures asked { IfHonest S.device source (λ file. (S.device source.new).asked
        ≤ (S.device source.old).asked + unpack_work file) }
    ensures ended { IfHonest S.device source (λ file. EndsByFile asked.now file end.new) }
    ensures fits { IfHonest S.device source (λ file. FitsIf asked.now file end.new) }
    ensures filled { IfHonest S.device source (λ file. IsTrue W.knows →
        Fills asked.now file end.new (W.trace result.now)) }
    ensures back { LeavesAt asked.now end.new M.before (W.trace result.now) }
{
    let Some(wanted) = wanted_of(asked) else {
        *end = Ended::Stopped(Fault::Fit(FitFault::NoSuchImage));
        return world;
    };
    let mut room = Room::new(alloc);
    let code = ErrorCode::new(None);
    let mut taker = FolderTaker::<'w, '_, '_, W, M, O>::new(world, alloc, asked, out, &code);
    let unpacked = uimg_fit_checking::unpack(wanted, asked.need, source, &mut room, &mut taker);
    let names = gives_names(asked, &unpacked);
    let (world, mut out, count, trouble) = taker.end(names, asked.keeps_good);
    *end = how_ended(alloc, asked, unpacked, (count, trouble), &mut out);
    world
}

fn how_ended<W: Write + Drop>(
    alloc: Global,
    asked: &Unpacking<'_>,
    unpacked: Result<Unpacked, Fault>,
    after: (usize, Option<Trouble>),
    out: &mut W,
) -> Ended
    ensures { Ends asked.now unpacked after.0 after.1 result
        (W.contents out.old) (W.contents out.new) }
{
    match unpacked {
        Ok(unpacked) => given(alloc, asked, unpacked, after, out),
        Err(fault) => stopped(fault, after.1),
    }
}

// Files get their names if all requested payloads were given and are kept, or if good ones are kept.
fn gives_names(asked: &Unpacking<'_>, unpacked: &Result<Unpacked, Fault>) -> bool
    ensures { result ≡ (asked.now.keeps_good || is_whole unpacked.now) }
{
    if asked.keeps_good {
        return true;
    }
    match unpacked {
        Ok(Unpacked::Taken(all)) => *all,
        Ok(Unpacked::Overlapping(_)) => false,
        Err(_) => false,
    }
}

fn given<W: Write + Drop>(
    alloc: Global,
    asked: &Unpacking<'_>,
    unpacked: Unpacked,
    after: (usize, Option<Trouble>),
    out: &mut W,
) -> Ended
    ensures { EndsGiven asked.now unpacked after.0 after.1 result
        (W.contents out.old) (W.contents out.new) }
{
    let (count, trouble) = after;
    match unpacked {
        Unpacked::Overlapping(name) => overlapping(alloc, asked.json, out, &name),
        Unpacked::Taken(all) => match trouble {
            Some(trouble) => Ended::Troubled(trouble),
            None => taken(asked, all, count),
        },
    }
}

fn stopped(fault: Fault, trouble: Option<Trouble>) -> Ended
    ensures { result ≡ end_of_fault fault trouble }
{
    match fault {
        Fault::Put => Ended::Troubled(trouble.unwrap_or(Trouble::Put)),
        _ => Ended::Stopped(fault),
    }
}

// Returns `None` if the name is too long for an image's name.
fn wanted_of<'a>(asked: &Unpacking<'a>) -> Option<Wanted<'a>>
    ensures { option_map which result ≡ asked_which asked.now }
{
    match (asked.among, asked.only) {
        (Some(names), _) => Some(Wanted::Among(names)),
        (None, Some(name)) => match NodeName::of(name.as_bytes()) {
            Some(name) => Some(Wanted::Named(name)),
            None => None,
        },
        (None, None) => Some(Wanted::All),
    }
}

// Not all images are requested.
fn chooses(asked: &Unpacking<'_>) -> bool
    ensures { result ≡ chooses asked.now }
{
    asked.among.is_some() || asked.only.is_some()
}

fn taken(asked: &Unpacking<'_>, all: bool, count: usize) -> Ended
    ensures { result ≡ end_of_taken asked.now all count }
{
    if count == 0 && chooses(asked) {
        return Ended::Stopped(Fault::Fit(FitFault::NoSuchImage));
    }
    if count == 0 && asked.need.is_some() {
        return Ended::NoImage;
    }
    if all { Ended::Kept } else { Ended::Refused }
}

fn overlapping<W: Write + Drop>(
    alloc: Global,
    json: Option<&str>,
    out: &mut W,
    name: &NodeName,
) -> Ended
    ensures { TellsOverlap json.entry (as_bytes name.now) result
        (W.contents out.old) (W.contents out.new) }
{
    let Ok(line) = told(alloc, json, &Line::Overlapping(name)) else {
        return Ended::Troubled(Trouble::OutOfMemory);
    };
    if let Err(error) = out.write_all(line.as_slice()) {
        return Ended::Troubled(Trouble::from(error));
    }
    match out.flush() {
        Ok(()) => Ended::Refused,
        Err(error) => Ended::Troubled(Trouble::from(error)),
    }
}
