//! The walk over the tokens of the structure block, which feeds the covered ones to a sum.

ghost use Rattle.std.specs.Prelude.{◌≡◌, ◌+◌, ◌-◌, ◌*◌, ◌^◌, ◌<◌, ◌≤◌, true, length, is_err, IfOk, OnOk, if◌then◌else◌};
ghost use Rattle.uimg_base.specs.{Honest.HonestSource, Ranges.SumsRange, Using.{Asks, AsksAll}};
ghost use Rattle.uimg_blob_reading.specs.Extents.{IsInside};
ghost use Rattle.uimg_signing.specs.{Refusing.is_named, Walking.{FeedsTurn, Steps, Walks}};

use crate::faults::SigningFault;
use crate::turns::{Turn, Walk, turn_at};
use std::alloc::Allocator;
use uimg_base::{Room, Source, SourceFault, Sums, be32_at, feed_through};
use uimg_blob_reading::{Extent, read_token};

// Returns whether the name of a token is signed, if it is a property.
#[tactic(auto, unfolding(uimg_texts::specs::Numbers::be32))]
fn is_named<S: Source>(source: &mut S, walk: Walk, turn: Turn) -> Result<bool, SourceFault>
    requires inside { walk.at + turn.size ≤ length (S.device source.old).bytes }
    requires head { turn.is_property ≡ true → 12 ≤ turn.size }
    ensures uses { Asks (if turn.is_property then 4 else 0) (is_err result) (S.device source.old)
        (S.device source.new) }
    ensures told { HonestSource S.device source → IfOk result (λ it.
        it ≡ is_named turn.is_property (S.device source.old).bytes walk.at walk.names) }
{
    if !turn.is_property {
        return Ok(true);
    }
    let mut word = [0; 4];
    if source.fill_at(walk.at + 8, &mut word).is_err() {
        return Err(SourceFault);
    }
    Ok((be32_at(&word, 0) as u64) < walk.names)
}

// Feeds a token's bytes if they are signed.
fn feed_turn<S: Source, A: Allocator, M: Sums>(
    source: &mut S,
    room: &mut Room<A>,
    sums: &mut M,
    walk: Walk,
    turn: Turn,
) -> Result<(), SigningFault>
    requires inside { walk.at + turn.size ≤ length (S.device source.old).bytes }
    requires head { turn.is_property ≡ true → 12 ≤ turn.size }
    ensures { FeedsTurn M.fed walk turn result (S.device source.old) (S.device source.new)
        room.old room.new sums.old sums.new }
{
    if !turn.is_covered {
        return Ok(());
    }
    match is_named(source, walk, turn) {
        Ok(true) => {}
        Ok(false) => return Err(SigningFault::NameUnsigned),
        Err(_) => return Err(SigningFault::Read),
    }
    match feed_through(sums, source, room.window(), walk.at, turn.size) {
        Ok(()) => Ok(()),
        Err(_) => Err(SigningFault::Read),
    }
}

// Reads a token and feeds its bytes if they are signed. Returns `None` if it ends the tree.
fn step<S: Source, A: Allocator, M: Sums>(
    source: &mut S,
    room: &mut Room<A>,
    sums: &mut M,
    extent: Extent,
    marks: &[u64],
    walk: Walk,
) -> Result<Option<Walk>, SigningFault>
    requires inside { IsInside extent (length (S.device source.old).bytes) }
    requires place { walk.at < 2 ^ 40 }
    ensures { Steps M.fed marks.now extent walk result (S.device source.old)
        (S.device source.new) room.old room.new sums.old sums.new }
{
    let Ok(token) = read_token(source, room, extent, walk.at) else {
        return Err(SigningFault::Read);
    };
    let turn = match turn_at(marks, walk, token) {
        Ok(turn) => turn,
        Err(fault) => return Err(fault),
    };
    if extent.structure_end < walk.at + turn.size {
        return Err(SigningFault::Changed);
    }
    match feed_turn(source, room, sums, walk, turn) {
        Ok(()) => {}
        Err(fault) => return Err(fault),
    }
    if turn.is_last {
        if walk.at + turn.size < extent.structure_end {
            return Err(SigningFault::EarlyEnd);
        }
        return Ok(None);
    }
    Ok(Some(Walk {
        at: walk.at + turn.size,
        bits: turn.bits,
        names: walk.names,
    }))
}

// Feeds the signed tokens of the structure block. So many bytes of strings hold signed names.
pub(crate) fn feed_tokens<S: Source, A: Allocator, M: Sums>(
    source: &mut S,
    room: &mut Room<A>,
    sums: &mut M,
    extent: Extent,
    marks: &[u64],
    names: u64,
) -> Result<(), SigningFault>
    requires inside { IsInside extent (length (S.device source.old).bytes) }
    ensures { Walks M.fed marks.now names extent result (S.device source.old) (S.device source.new)
        room.old room.new sums.old sums.new }
{
    let mut walk = Walk {
        at: extent.structure,
        bits: 4,
        names,
    };
    while let Some(next) = step(source, room, sums, extent, marks, walk)? {
        walk = next;
    }
    Ok(())
}
