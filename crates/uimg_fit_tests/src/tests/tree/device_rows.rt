//! Blobs whose reads fail, whose entries are refused memory, or that are cut.
ghost use Rattle.std.specs.Prelude.{◌<◌};

use super::made::made;
use crate::samples::set_cell;
use linked_list_allocator::LocalHeap;
use std::alloc::{AllocError, Global};
use std::test::Fail;
use uimg_base::{FuseSource, MemSource, Room, Source};
use uimg_blob_reading::{BlobFault, IndexFault, index};

// Returns the result over a source that lets `calls` calls through: `.` if the blob is indexed, the
// number of entries left if a read failed and was counted, `?` for anything else.
fn answer(room: &mut Room<Global>, bytes: &[u8], calls: u64) -> u8 {
    let mut source = FuseSource::new(MemSource::new(bytes), calls);
    let found = index(&mut source, room);
    match found {
        Ok(_) if source.failures() == 0 => b'.',
        Err(IndexFault::Read) if source.failures() == 1 => {
            *b"0123456789".get(room.count()).unwrap_or(&b'?')
        }
        _ => b'?',
    }
}

// A blob, and what each failing call leaves: the nodes begun before the token it reads. Two calls
// are for the header, two begin a node, three are for a property, one for each other token.
const READ_ROWS: [(&str, &str); 4] = [
    ("mixed", "000011111111."),
    ("late 76=00000004 80=00000002 84=00000009", "0000112222."),
    (
        "demo",
        "000011111111111223333333333333333333333333344444444455555555566666666677777777777888889999999999.",
    ),
    (".,+,.,-,.", "000001111."),
];

// Returns how many of these results come, up to the first other one.
fn right_answers(alloc: Global, bytes: &[u8], answers: &str) -> usize {
    let mut room = Room::new(alloc);
    for (calls, expected) in answers.bytes().enumerate() {
        if answer(&mut room, bytes, calls as u64) != expected {
            return calls;
        }
    }
    answers.len()
}

// Each failing read is reported, and leaves the entries so far.
#[test]
fn reads_fail_in_turn(rt: HostRuntime) -> Result<(), Fail> {
    for (blob, answers) in &READ_ROWS {
        let bytes = made(rt.alloc(), blob)?;
        let right = right_answers(rt.alloc(), &bytes, answers);
        assert_eq!(rt; right, answers.len(), "{blob}");
    }
    Ok(())
}

// Returns a few bytes after a hole of this size.
fn wall_behind(heap: &LocalHeap, hole: usize) -> Result<Vec<u8, &LocalHeap>, AllocError> {
    let _hole: Vec<u8, &LocalHeap> = Vec::with_capacity(heap, hole)?;
    Vec::with_capacity(heap, 16)
}

// Indexes a blob over a heap with two holes, each with room for `entries` entries and no more: the
// entries move from one to the other as they grow, until neither has room.
fn indexed_in_holes(
    alloc: Global,
    bytes: &[u8],
    entries: usize,
) -> Result<(usize, Option<IndexFault>), Fail>
    requires { entries < 9 }
{
    let heap = LocalHeap::new(alloc, 256 * entries + 96)?;
    let _wall = wall_behind(&heap, 128 * entries)?;
    let mut room = Room::new(&heap);
    let found = index(&mut MemSource::new(bytes), &mut room);
    Ok((room.count(), found.err()))
}

// The nodes of four-hash-fit begin at these offsets; each growth is refused in turn.
#[test]
fn node_places(rt: HostRuntime) -> Result<(), Fail> {
    let bytes = made(rt.alloc(), "demo")?;
    let places = [56, 116, 128, 284, 336, 396, 464, 552, 592u64];
    for entries in 0..9usize {
        let (kept, fault) = indexed_in_holes(rt.alloc(), &bytes, entries)?;
        assert_eq!(rt; kept, entries);
        let wanted = IndexFault::Blob(BlobFault::OutOfMemory, places[entries]);
        assert_eq!(rt; fault, Some(wanted));
    }
    Ok(())
}

fn fault_of(alloc: Global, bytes: &[u8]) -> Option<(BlobFault, u64)> {
    let mut room = Room::new(alloc);
    match index(&mut MemSource::new(bytes), &mut room) {
        Err(IndexFault::Blob(fault, at)) => Some((fault, at)),
        _ => None,
    }
}

// four-hash-fit cut to each length, and why it is refused.
#[test]
fn every_cut(rt: HostRuntime) -> Result<(), Fail> {
    let bytes = made(rt.alloc(), "demo")?;
    for length in 0..760usize {
        let found = fault_of(rt.alloc(), bytes.get(..length).unwrap_or(&[]));
        let wanted = if length < 40 {
            (BlobFault::TooShort, 0)
        } else {
            (BlobFault::BlockOutside, 4)
        };
        assert!(rt; found == Some(wanted), "{length} bytes");
    }
    Ok(())
}

// The size of four-hash-fit's structure block, set to each size that is too small.
#[test]
fn every_struct_size(rt: HostRuntime) -> Result<(), Fail> {
    let mut bytes = made(rt.alloc(), "demo")?;
    for size in 0..600u32 {
        set_cell(bytes.as_mut_slice(), 36, size);
        let found = fault_of(rt.alloc(), &bytes);
        assert!(rt;
            matches!(found, Some((BlobFault::Truncated, _))),
            "{size} bytes"
        );
    }
    Ok(())
}
