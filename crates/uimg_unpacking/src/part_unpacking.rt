//! Unpacks a legacy image into a folder.

ghost use Rattle.std.specs.Prelude.{◌≡◌, ◌++◌, true, codes, is_err, IfOk, IsTrue};
ghost use Rattle.std.specs.Char.{is_ascii_digit};
ghost use Rattle.std.specs.List.{list_all};
ghost use Rattle.uimg_base.specs.Device.{SameDevice};
ghost use Rattle.uimg_base.specs.Honest.{HonestSource, IfHonest};
ghost use Rattle.uimg_base.specs.Using.{Asks};
ghost use Rattle.uimg_legacy.specs.Unpacking.{is_part_asked};
ghost use Rattle.uimg_unpacking.specs.Leaving.{Leaves, is_left};
ghost use Rattle.uimg_unpacking.specs.PartEnds.{KeepsRight, end_of_parts, has_leading_zero, is_number, is_right, stands_by_crc32, size_at, EndsUnlessRefused};
ghost use Rattle.uimg_unpacking.specs.PartFilling.{FillsKept, IsNumberOf, Requests};
ghost use Rattle.uimg_unpacking.specs.Places.{ChangesWithin, Obeys, terms_of};

use crate::folder_taker::FolderTaker;
use crate::new_file::ErrorCode;
use crate::part_folder::PartFolder;
use crate::task::Task;
use crate::trouble::Trouble;
use crate::unpacking::{Ended, Unpacking};
use std::alloc::Global;
use std::io::Write;
use std::marker::Brand;
use uimg_base::{Algo, MULTI, Room, SCRIPT, Source, SourceFault};
use uimg_legacy::{Fault, LegacyFault, read_header};
use uimg_world::World;

/// The offset of the table of sizes: the length of the header.
const TABLE: u64 = 64;

/// Writes the parts of a legacy image to a folder, with a line for each on `out`. The files get
/// their names if the checksum of the data is right. For the types multi and script these are its
/// parts, for another type its data as one part.
///
/// The files are `image-0`, `image-1` and so on, by the parts' numbers. One of them can be
/// requested. Nothing is written in these cases:
/// - something exists at one of these paths, unless files are replaced;
/// - one of them leads to the image;
/// - there are more files or bytes than the limits allow.
///
/// Files get their names once all are written; unless all get them, the folder is unchanged.
///
/// Contracts say so of all files of which the answers of the calls are true (`IsTrueTo`): each file
/// name of the folder has what it had, unless the end is `Kept`, or a trouble that comes after files
/// got their names: `NotPutBack`, `CannotPrint` or `Closed`.
///
/// Where parts are kept, the source is honest and contracts know what new files hold, the file of
/// each requested part holds exactly its bytes.
pub fn unpack_parts<W: World, S: Source, O: Write + Drop>(
    world: &mut W,
    asked: &Unpacking<'_>,
    source: &mut S,
    out: O,
) -> Ended
    ensures within { ChangesWithin asked.now.folder.path.now true (W.trace world.old) (W.trace world.new) }
    ensures same { SameDevice (S.device source.old) (S.device source.new) }
    ensures kept { IfHonest S.device source (λ file. KeepsRight asked.now file result) }
    ensures obeys { Obeys (terms_of asked.now.folder) true (W.trace world.old) (W.trace world.new) }
    ensures holds { IfHonest S.device source (λ file. IsTrue W.knows →
        FillsKept asked.now file result (W.trace world.new)) }
    ensures back { is_left result ≡ true →
        Leaves asked.now.folder.path.now (W.trace world.old) (W.trace world.new) }
{
    let alloc = world.alloc();
    let mut end = Ended::Weak;
    let _world = unpack_parts_in::<_, _, _, Brand>(world, alloc, asked, source, out, &mut end);
    end
}

// Returns the world.
#[tactic(auto, using(crate::proofs::Placing::obeys_naming, crate::proofs::Placing::no_more))]
fn unpack_parts_in<'w, W: World, S: Source, O: Write + Drop, M: Task>(
    world: &'w mut W,
    alloc: Global,
    asked: &Unpacking<'_>,
    source: &mut S,
    out: O,
    end: &mut Ended,
) -> &'w mut W
    requires named { world.ghost_name ≡ M.name }
    requires before { W.trace world.now ≡ M.before }
    requires agreed { terms_of asked.now.folder ≡ M.terms }
    requires limits { asked.now.limits ≡ M.limits }
    ensures named { result.ghost_name ≡ M.name }
    ensures obeys { Obeys M.terms true M.before (W.trace result.now) }
    ensures same { SameDevice (S.device source.old) (S.device source.new) }
    ensures kept { IfHonest S.device source (λ file. KeepsRight asked.now file end.new) }
    ensures holds { IfHonest S.device source (λ file. IsTrue W.knows →
        FillsKept asked.now file end.new (W.trace result.now)) }
    ensures back { is_left end.new ≡ true →
        Leaves asked.now.folder.path.now M.before (W.trace result.now) }
{
    let mut room = Room::new(alloc);
    if !stands_by_crc32(asked.need) {
        *end = unless_refused(source, &mut room, Ended::Weak);
        return world;
    }
    let only = requested(asked.only);
    match excess(asked.limits.bytes, only, source) {
        Ok(Some(trouble)) => {
            *end = unless_refused(source, &mut room, Ended::Troubled(trouble));
            return world;
        }
        Ok(None) => {}
        Err(fault) => {
            *end = Ended::StoppedLegacy(fault);
            return world;
        }
    }
    let code = ErrorCode::new(None);
    let mut folder = PartFolder {
        taker: FolderTaker::<'w, '_, '_, W, M, O>::new(world, alloc, asked, out, &code),
        parts: Vec::new(alloc),
        begun: None,
        is_kept: false,
    };
    let unpacked = uimg_legacy::unpack(only, source, &mut room, &mut folder);
    let names = is_right(&unpacked);
    let (world, trouble) = folder.end(names);
    *end = ended(unpacked, trouble);
    world
}

fn is_right(unpacked: &Result<bool, Fault>) -> bool
    ensures { result ≡ is_right unpacked.now }
{
    match unpacked {
        Ok(is_right) => *is_right,
        Err(_) => false,
    }
}

fn ended(unpacked: Result<bool, Fault>, trouble: Option<Trouble>) -> Ended
    ensures { result ≡ end_of_parts unpacked trouble }
{
    match unpacked {
        Ok(true) => match trouble {
            Some(trouble) => Ended::Troubled(trouble),
            None => Ended::Kept,
        },
        Ok(false) => Ended::StoppedLegacy(Fault::Legacy(LegacyFault::BadDataCrc)),
        Err(Fault::Put) => Ended::Troubled(trouble.unwrap_or(Trouble::Put)),
        Err(fault) => Ended::StoppedLegacy(fault),
    }
}

// Returns the trouble if the requested parts have more bytes than are enough.
fn excess<S: Source>(
    most: Option<u64>,
    only: Option<u32>,
    source: &mut S,
) -> Result<Option<Trouble>, Fault>
    ensures { SameDevice (S.device source.old) (S.device source.new) }
{
    let Some(most) = most else {
        return Ok(None);
    };
    let bytes = bytes_of(only, source)?;
    if bytes > most {
        return Ok(Some(Trouble::TooManyBytes(most)));
    }
    Ok(None)
}

// Returns the end, unless the image's header or its table of parts is refused.
fn unless_refused<S: Source>(source: &mut S, room: &mut Room<Global>, end: Ended) -> Ended
    ensures told { IfHonest S.device source (λ file. EndsUnlessRefused file end result) }
    ensures same { SameDevice (S.device source.old) (S.device source.new) }
{
    match uimg_legacy::check(source, room) {
        Ok(_) => end,
        Err(fault) => Ended::StoppedLegacy(fault),
    }
}

// Counts by the header or the table of sizes.
fn bytes_of<S: Source>(only: Option<u32>, source: &mut S) -> Result<u64, Fault>
    ensures { SameDevice (S.device source.old) (S.device source.new) }
{
    let header = read_header(source)?;
    if header.kind != MULTI && header.kind != SCRIPT {
        return Ok(if takes(only, 0) {
            header.size as u64
        } else {
            0
        });
    }
    let mut sum: u64 = 0;
    for number in 0..header.size / 4 {
        let size = size_at(source, number)?;
        if size == 0 {
            break;
        }
        if takes(only, number) {
            sum = sum.saturating_add(size as u64);
        }
    }
    Ok(sum)
}

fn takes(only: Option<u32>, number: u32) -> bool
    ensures { result ≡ is_part_asked only number }
{
    match only {
        Some(one) => one == number,
        None => true,
    }
}

// Returns 0 if the file is too short.
fn size_at<S: Source>(source: &mut S, number: u32) -> Result<u32, SourceFault>
    ensures uses { Asks 4 (is_err result) (S.device source.old) (S.device source.new) }
    ensures size { HonestSource S.device source →
        IfOk result (λ size. size ≡ size_at (S.device source.old).bytes number) }
{
    let at = TABLE + 4 * number as u64;
    let end = source.size()?;
    if end < at || end - at < 4 {
        return Ok(0);
    }
    let mut word = [0; 4];
    source.fill_at(at, &mut word)?;
    Ok(u32::from_be_bytes(word))
}

fn stands_by_crc32(need: Option<Algo>) -> bool
    ensures { result ≡ stands_by_crc32 need }
{
    match need {
        None | Some(Algo::Crc16 | Algo::Crc32) => true,
        Some(_) => false,
    }
}

// The part is requested by the name of its file.
fn requested(only: Option<&str>) -> Option<u32>
    ensures { Requests only.entry result }
{
    match only {
        Some(name) => Some(number_of(name)),
        None => None,
    }
}

// Returns a number that no image has if no part has the name.
fn number_of(name: &str) -> u32
    ensures { IsNumberOf name.now result }
{
    match name.strip_prefix("image-") {
        Some(digits) => number_in(digits),
        None => u32::MAX,
    }
}

// `digits` is what follows `image-` in the name.
fn number_in(digits: &str) -> u32
    ensures { IsNumberOf (codes "image-" ++ digits.now) result }
{
    if !is_number(digits.as_bytes()) {
        return u32::MAX;
    }
    match digits.parse() {
        Ok(number) => number,
        Err(_) => u32::MAX,
    }
}

// The number is as in a file name: digits, and no zero before others.
fn is_number(word: &[u8]) -> bool
    ensures { result ≡ is_number word.now }
{
    !has_leading_zero(word) && are_digits(word)
}

fn has_leading_zero(word: &[u8]) -> bool
    ensures { result ≡ has_leading_zero word.now }
{
    word.len() > 1 && word[0] == b'0'
}

fn are_digits(word: &[u8]) -> bool
    ensures { result ≡ list_all is_ascii_digit word.now }
{
    word.iter().all(|digit| digit.is_ascii_digit())
}
