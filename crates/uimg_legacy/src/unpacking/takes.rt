//! Takes parts one after another, by their sizes in the table.

ghost use Rattle.std.specs.Prelude.{◌≡◌, ◌+◌, ◌-◌, ◌*◌, ◌≤◌, length, false, true};
ghost use Rattle.uimg_base.specs.{Honest.IfHonest, Using.Asks};
ghost use Rattle.uimg_legacy.specs.{Faults.is_refused, Unpacking.is_part_asked};
ghost use Rattle.uimg_legacy.specs.Told.{Tells, RefusesPart, takes_if, takes_to};
ghost use Rattle.uimg_legacy.specs.UnpackingSteps.{Takes, TakesPart, TakesNext, PaysWalked, Walks, RefusesNumber, RefusesFrom};

use crate::fault::{Fault, LegacyFault};
use crate::unpacking::part_taker::PartTaker;
use std::alloc::Allocator;
use uimg_base::{Crc, Out, Room, Source, Summer, be32_at, feed_through, take_through, up4};

// The parts of the data, and which of them are requested.
#[derive(Clone, Copy)]
pub(super) struct Parts {
    // How many parts the data have.
    pub(super) count: u32,
    // The length of the data, in bytes.
    pub(super) size: u32,
    // The number of the requested part, or `None` for all.
    pub(super) only: Option<u32>,
}

impl Parts {
    fn is_asked(self, number: u32) -> bool
        ensures { result ≡ is_part_asked self.only number }
    {
        match self.only {
            Some(asked) => asked == number,
            None => true,
        }
    }
}

// A part and where it is.
#[derive(Clone, Copy)]
pub(super) struct PlacedPart {
    // Its number.
    pub(super) number: u32,
    // The offset of its first byte in the image.
    pub(super) at: u64,
    // Its length in bytes.
    pub(super) len: u64,
}

// How far parts were taken.
#[derive(Drop)]
pub(super) struct Walk {
    // The offset of the next one in the data.
    pub(super) at: u64,
    // The sum of the data before that.
    pub(super) sum: Crc,
    // The sum of the sizes so far.
    pub(super) sizes: Crc,
}

pub(super) fn take_part<S: Source, A: Allocator, T: PartTaker>(
    source: &mut S,
    room: &mut Room<A>,
    sum: &mut Crc,
    part: PlacedPart,
    taker: &mut T,
) -> Result<(), Fault>
    requires { part.at + part.len ≤ length (S.device source.old).bytes }
    ensures takes { Takes (Asks part.len) result S.device source room T.honest T.kept taker }
    ensures accepted { is_refused result ≡ false }
    ensures taken { TakesPart true part result S.device source sum T.honest T.held taker }
    ensures stays { T.place taker.new ≡ T.place taker.old }
    ensures told { Tells (takes_if true part.number) result T.notes T.told taker }
{
    let mut out = Out::new(taker.shelf(part.number)?);
    take_through(source, room.window(), part.at, part.len, sum, &mut out)?;
    taker.hold(part.number, out.into_inner())?;
    Ok(())
}

// Takes a part if it is requested, else only sums it.
fn take_if<S: Source, A: Allocator, T: PartTaker>(
    source: &mut S,
    room: &mut Room<A>,
    sum: &mut Crc,
    asked: bool,
    part: PlacedPart,
    taker: &mut T,
) -> Result<(), Fault>
    requires { part.at + part.len ≤ length (S.device source.old).bytes }
    ensures takes { Takes (Asks part.len) result S.device source room T.honest T.kept taker }
    ensures accepted { is_refused result ≡ false }
    ensures taken { TakesPart asked part result S.device source sum T.honest T.held taker }
    ensures stays { T.place taker.new ≡ T.place taker.old }
    ensures told { Tells (takes_if asked part.number) result T.notes T.told taker }
{
    if asked {
        return take_part(source, room, sum, part, taker);
    }
    feed_through(sum, source, room.window(), part.at, part.len)?;
    Ok(())
}

// Reads the size in the table again: `BadDataCrc` if that is 0. Sums the bytes after the part up to
// the next multiple of 4.
fn take_next<S: Source, A: Allocator, T: PartTaker>(
    source: &mut S,
    room: &mut Room<A>,
    number: u32,
    parts: Parts,
    walk: &mut Walk,
    taker: &mut T,
) -> Result<(), Fault>
    requires data { 64 + parts.size ≤ length (S.device source.old).bytes }
    requires word { 4 * (number + 1) ≤ parts.size }
    requires place { walk.old.at ≤ parts.size }
    ensures takes { Takes (Asks (4 + (parts.size - walk.old.at))) result
        S.device source room T.honest T.kept taker }
    ensures paid { PaysWalked 4 result S.device source walk }
    ensures taken { TakesNext parts number result S.device source walk T.honest T.held taker }
    ensures stays { T.place taker.new ≡ T.place taker.old }
    ensures told { Tells (takes_if (is_part_asked parts.only number) number) result
        T.notes T.told taker }
    ensures at_part { RefusesPart result }
    ensures refused { IfHonest S.device source (λ file.
        RefusesNumber number parts.size walk.old.at file result) }
{
    let mut word = [0; 4];
    source.fill_at(64 + 4 * number as u64, &mut word)?;
    let len = be32_at(&word, 0) as u64;
    if len == 0 {
        return Err(Fault::Legacy(LegacyFault::BadDataCrc));
    }
    let left = parts.size as u64 - walk.at;
    if len > left {
        return Err(Fault::Legacy(LegacyFault::PartOutside));
    }
    walk.sizes.feed(&word);
    let (at, all) = (64 + walk.at, u64::min(up4(len), left));
    let part = PlacedPart { number, at, len };
    let asked = parts.is_asked(number);
    take_if(source, room, &mut walk.sum, asked, part, taker)?;
    feed_through(&mut walk.sum, source, room.window(), at + len, all - len)?;
    walk.at += all;
    Ok(())
}

pub(super) fn take_parts<S: Source, A: Allocator, T: PartTaker>(
    source: &mut S,
    room: &mut Room<A>,
    parts: Parts,
    walk: &mut Walk,
    taker: &mut T,
) -> Result<(), Fault>
    requires data { 64 + parts.size ≤ length (S.device source.old).bytes }
    requires table { 4 * (parts.count + 1) ≤ parts.size }
    requires place { walk.old.at ≡ 4 * (parts.count + 1) }
    ensures takes { Takes (Asks (4 * parts.count + (parts.size - walk.old.at))) result
        S.device source room T.honest T.kept taker }
    ensures paid { PaysWalked (4 * parts.count) result S.device source walk }
    ensures taken { Walks parts result S.device source walk T.honest T.held taker }
    ensures stays { T.place taker.new ≡ T.place taker.old }
    ensures told { Tells (takes_to parts.only parts.count) result T.notes T.told taker }
    ensures at_part { RefusesPart result }
    ensures refused { IfHonest S.device source (λ file.
        RefusesFrom parts.count parts.size walk.old.at file result) }
{
    for number in 0..parts.count {
        take_next(source, room, number, parts, walk, taker)?;
    }
    Ok(())
}
