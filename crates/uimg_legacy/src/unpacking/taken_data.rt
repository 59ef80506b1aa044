//! Takes the requested parts while the data are summed.

ghost use Rattle.std.specs.Prelude.{◌≡◌, ◌+◌, ◌≤◌, length, true, false, IsTrue};
ghost use Rattle.uimg_base.specs.Using.{UsesAtMost};
ghost use Rattle.uimg_legacy.specs.{Parts.has_parts, Unpacking.is_there};
ghost use Rattle.uimg_legacy.specs.Told.{Tells, TellsData, claims};
ghost use Rattle.uimg_legacy.specs.UnpackingSteps.{Takes, TakesData, listed_work, data_work};

use crate::fault::{Fault, LegacyFault};
use crate::header::Header;
use crate::parts::has_parts;
use crate::unpacking::part_taker::PartTaker;
use crate::unpacking::tables::sum_table;
use crate::unpacking::takes::{Parts, PlacedPart, Walk, take_part, take_parts};
use std::alloc::Allocator;
use uimg_base::{Crc, PutFault, Room, Source, Summer, feed_through};

// Returns whether the requested part exists, if one is requested.
fn is_there(only: Option<u32>, count: u32) -> bool
    ensures { result ≡ is_there only count }
{
    match only {
        Some(number) => number < count,
        None => true,
    }
}

fn claim_parts<T: PartTaker>(only: Option<u32>, count: u32, taker: &mut T) -> Result<(), PutFault>
    ensures held { IsTrue T.honest → T.held taker.new ≡ T.held taker.old }
    ensures kept { IsTrue T.honest → T.kept taker.new ≡ T.kept taker.old }
    ensures stays { T.place taker.new ≡ T.place taker.old }
    ensures told { Tells (claims only count) result T.notes T.told taker }
{
    if let Some(number) = only {
        return taker.claim(number);
    }
    for number in 0..count {
        taker.claim(number)?;
    }
    Ok(())
}

// Takes the data of a type without parts as one part.
fn take_whole<S: Source, A: Allocator, T: PartTaker>(
    source: &mut S,
    room: &mut Room<A>,
    header: &Header,
    only: Option<u32>,
    taker: &mut T,
) -> Result<bool, Fault>
    requires data { 64 + header.now.size ≤ length (S.device source.old).bytes }
    requires kind { has_parts header.now.kind ≡ false }
    ensures takes { Takes (UsesAtMost header.now.size) result
        S.device source room T.honest T.kept taker }
    ensures taken { TakesData only header.now result S.device source T.honest T.held taker }
    ensures stays { T.place taker.new ≡ T.place taker.old }
    ensures told { TellsData only result T.notes T.told taker }
{
    if !is_there(only, 1) {
        return Err(Fault::Legacy(LegacyFault::NoSuchPart));
    }
    taker.claim(0)?;
    let mut sum = Crc::start();
    let part = PlacedPart {
        number: 0,
        at: 64,
        len: header.size as u64,
    };
    take_part(source, room, &mut sum, part, taker)?;
    Ok(sum.value() == header.dcrc)
}

// Takes the parts of a type with parts. The sum goes on from the table as it was read first. It
// counts only if the sizes, read again, have the same sum.
fn take_listed<S: Source, A: Allocator, T: PartTaker>(
    source: &mut S,
    room: &mut Room<A>,
    header: &Header,
    only: Option<u32>,
    taker: &mut T,
) -> Result<bool, Fault>
    requires data { 64 + header.now.size ≤ length (S.device source.old).bytes }
    requires kind { has_parts header.now.kind ≡ true }
    ensures takes { Takes (UsesAtMost (listed_work header.now (S.device source.old).bytes)) result
        S.device source room T.honest T.kept taker }
    ensures taken { TakesData only header.now result S.device source T.honest T.held taker }
    ensures stays { T.place taker.new ≡ T.place taker.old }
    ensures told { TellsData only result T.notes T.told taker }
{
    let mut sum = Crc::start();
    let count = sum_table(source, room, header.size, &mut sum)?;
    if !is_there(only, count) {
        return Err(Fault::Legacy(LegacyFault::NoSuchPart));
    }
    claim_parts(only, count, taker)?;
    let table = sum.copied();
    let mut walk = Walk {
        at: 4 * (count as u64 + 1),
        sum,
        sizes: Crc::start(),
    };
    let parts = Parts {
        count,
        size: header.size,
        only,
    };
    take_parts(source, room, parts, &mut walk, taker)?;
    let left = header.size as u64 - walk.at;
    feed_through(&mut walk.sum, source, room.window(), 64 + walk.at, left)?;
    walk.sizes.feed(&[0; 4]);
    let (same, crc) = (table.is_same(&walk.sizes), walk.sum.value());
    Ok(same & (crc == header.dcrc))
}

// Returns whether the data's CRC is that in the header.
pub(super) fn take_data<S: Source, A: Allocator, T: PartTaker>(
    source: &mut S,
    room: &mut Room<A>,
    header: &Header,
    only: Option<u32>,
    taker: &mut T,
) -> Result<bool, Fault>
    requires { 64 + header.now.size ≤ length (S.device source.old).bytes }
    ensures takes { Takes (UsesAtMost (data_work header.now (S.device source.old).bytes)) result
        S.device source room T.honest T.kept taker }
    ensures taken { TakesData only header.now result S.device source T.honest T.held taker }
    ensures stays { T.place taker.new ≡ T.place taker.old }
    ensures told { TellsData only result T.notes T.told taker }
{
    if has_parts(header.kind) {
        take_listed(source, room, header, only, taker)
    } else {
        take_whole(source, room, header, only, taker)
    }
}
