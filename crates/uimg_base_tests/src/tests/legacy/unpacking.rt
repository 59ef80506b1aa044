//! Parts that are unpacked from images, also when memory is refused, or the device fails or returns
//! other bytes the second time.

ghost use Rattle.std.{specs.Prelude.false, proofs.Common.rules};

use super::images::{PLACE, make};
use crate::samples::legacy::THREE_PART_MULTI;
use linked_list_allocator::LocalHeap;
use std::alloc::{Allocator, Global};
use std::test::Fail;
use uimg_base::{FuseSource, MemSource, Room, Source, SourceFault, crc_of};
use uimg_legacy::{Fault, Header, LegacyFault, MemPart, MemParts, header_bytes, unpack};

const NO_DATA: &str = "abc-kernel to=64 4=94 5=0c 6=1c 7=8d 15=00 24=00 25=00 26=00 27=00";

// The parts that are kept; none if nothing is.
const ABC: [(u32, &str); 1] = [(0, "abc")];

const EMPTY: [(u32, &str); 1] = [(0, "")];

const THREE: [(u32, &str); 3] = [(0, "abc"), (1, "defg"), (2, "hijkl")];

const SECOND: [(u32, &str); 1] = [(1, "defg")];

const LAST: [(u32, &str); 1] = [(2, "hijkl")];

const NONE: [(u32, &str); 0] = [];

// The image, the requested part, if any, whether the parts are kept, or the fault, and the parts.
const ROWS: [(&str, Option<u32>, Result<bool, LegacyFault>, &[(u32, &str)]); 24] = [
    ("abc-kernel", None, Ok(true), &ABC),
    ("abc-kernel", Some(0), Ok(true), &ABC),
    ("abc-kernel", Some(1), Err(LegacyFault::NoSuchPart), &NONE),
    (NO_DATA, None, Ok(true), &EMPTY),
    ("three-part-multi", None, Ok(true), &THREE),
    ("three-part-multi", Some(0), Ok(true), &ABC),
    ("three-part-multi", Some(1), Ok(true), &SECOND),
    ("three-part-multi", Some(2), Ok(true), &LAST),
    (
        "three-part-multi",
        Some(3),
        Err(LegacyFault::NoSuchPart),
        &NONE,
    ),
    ("abc-kernel to=63", None, Err(LegacyFault::TooShort), &NONE),
    ("abc-kernel 0=d0", None, Err(LegacyFault::BadMagic), &NONE),
    (
        "abc-kernel 32=31",
        None,
        Err(LegacyFault::BadHeaderCrc),
        &NONE,
    ),
    ("abc-kernel to=66", None, Err(LegacyFault::Truncated), &NONE),
    ("abc-kernel 64=62", None, Ok(false), &NONE),
    (
        "abc-kernel 64=62",
        Some(1),
        Err(LegacyFault::NoSuchPart),
        &NONE,
    ),
    ("no-table-end", None, Err(LegacyFault::NoTableEnd), &NONE),
    ("no-table-end", Some(0), Err(LegacyFault::NoTableEnd), &NONE),
    ("part-outside", None, Err(LegacyFault::PartOutside), &NONE),
    (
        "part-outside",
        Some(0),
        Err(LegacyFault::PartOutside),
        &NONE,
    ),
    // A size, the padding of a part, and the last byte; and a table without parts.
    ("three-part-multi 67=04", None, Ok(false), &NONE),
    ("three-part-multi 83=01", None, Ok(false), &NONE),
    ("three-part-multi 92=6d", Some(0), Ok(false), &NONE),
    ("three-part-multi 67=00", None, Ok(false), &NONE),
    (
        "three-part-multi 67=00",
        Some(0),
        Err(LegacyFault::NoSuchPart),
        &NONE,
    ),
];

fn are<A: Allocator>(parts: &[MemPart<A>], wanted: &[(u32, &str)]) -> bool {
    parts.len() == wanted.len()
        && parts.iter().zip(wanted).all(|(part, (number, text))| {
            part.number == *number && part.bytes.as_slice() == text.as_bytes()
        })
}

#[test]
fn parts_by_rows(rt: HostRuntime) {
    let alloc = rt.alloc();
    for (description, only, end, parts) in &ROWS {
        let mut bytes = [0; PLACE];
        let length = make(description, &mut bytes);
        let image = bytes.get(..length).unwrap_or(b"");
        let mut source = MemSource::new(image);
        let mut room = Room::new(alloc);
        let mut taker = MemParts::new(alloc);
        let answer = unpack(*only, &mut source, &mut room, &mut taker);
        let same = match (answer, end) {
            (Ok(kept), Ok(wanted)) => kept == *wanted,
            (Err(Fault::Legacy(fault)), Err(wanted)) => fault == *wanted,
            _ => false,
        };
        assert!(rt; same && are(taker.kept(), parts), "{description}");
        assert!(rt;
            source.asked() <= 64 + 29 + 8 * 4 && room.held() == 8192,
            "{description}"
        );
    }
}

// Returns what happens to the parts of an image of three: 0 the sum is not right, 1 they are kept,
// 2 a read failed, 3 the image is refused, 4 the taker failed, 9 others are kept.
fn becomes<S: Source, A: Allocator + Copy>(rt: &HostRuntime, alloc: A, source: &mut S) -> u8 {
    let mut taker = MemParts::new(alloc);
    let mut room = Room::new(rt.alloc());
    let answer = unpack(None, source, &mut room, &mut taker);
    let parts = taker.kept();
    match answer {
        Ok(true) if are(parts, &THREE) => 1,
        Ok(false) if parts.is_empty() => 0,
        Err(Fault::Read) if parts.is_empty() => 2,
        Err(Fault::Legacy(_)) if parts.is_empty() => 3,
        Err(Fault::Put) if parts.is_empty() => 4,
        _ => 9,
    }
}

// A source with one byte that reads wrong some times, then right some times, then wrong.
#[derive(Drop)]
struct FickleSource<S: Source> {
    source: S,
    place: u64,
    before: u64,
    right: u64,
}

impl<S: Source> Source for FickleSource<S> {
    ghost device = { λ s. record {
      bytes = (S.device s.source).bytes;
      honest = false;
      asked = (S.device s.source).asked;
      failures = (S.device s.source).failures;
    } };

    ghost never_failed = { λ s always. Prim.search rules };

    ghost short = { λ s. S.short s.source };

    fn size(&mut self) -> Result<u64, SourceFault> {
        self.source.size()
    }

    fn fill_at(&mut self, at: u64, to: &mut [u8]) -> Result<(), SourceFault> {
        self.source.fill_at(at, to)?;
        if self.place < at || self.place - at >= to.len() as u64 {
            return Ok(());
        }
        if self.before > 0 {
            self.before -= 1;
        } else if self.right > 0 {
            self.right -= 1;
            return Ok(());
        }
        if let Some(byte) = to.get_mut((self.place - at) as usize) {
            *byte ^= 1;
        }
        Ok(())
    }

    fn asked(&self) -> u128 {
        self.source.asked()
    }

    fn failures(&self) -> u64 {
        self.source.failures()
    }
}

// A byte, how many reads of it are wrong first, how many are right then, and what happens to the
// parts. What follows the table is read with it, and once more to be summed. The sizes are read
// once for the sum and once to split the parts: a part of two bytes is not kept.
const CHANGES: [(u64, u64, u64, u8); 7] = [
    (80, 0, 9, 1),
    (80, 1, 9, 1),
    (80, 0, 1, 0),
    (67, 0, 9, 1),
    (67, 0, 1, 0),
    (67, 1, 9, 0),
    (79, 0, 0, 3),
];

#[test]
fn parts_of_changing_sources(rt: HostRuntime) {
    for (place, before, right, wanted) in &CHANGES {
        let mut source = FickleSource {
            source: MemSource::new(&THREE_PART_MULTI),
            place: *place,
            before: *before,
            right: *right,
        };
        let found = becomes(&rt, rt.alloc(), &mut source);
        assert!(rt; found == *wanted, "{place}, {before}, {right}");
    }
}

// Reads of any byte are wrong after some right ones: only the parts of the image are ever kept.
#[test]
fn parts_of_changing_places(rt: HostRuntime) {
    for place in 0..THREE_PART_MULTI.len() {
        for right in 0..3u64 {
            let mut source = FickleSource {
                source: MemSource::new(&THREE_PART_MULTI),
                place: place as u64,
                before: 0,
                right,
            };
            let found = becomes(&rt, rt.alloc(), &mut source);
            assert!(rt; found == 0 || found == 1 || found == 3, "{place}, {right}");
        }
    }
}

// A source that answers some calls: nothing is kept, or everything.
#[test]
fn parts_where_each_read_fails(rt: HostRuntime) {
    let mut whole = false;
    for calls in 0..40u64 {
        let mut source = FuseSource::new(MemSource::new(&THREE_PART_MULTI), calls);
        let found = becomes(&rt, rt.alloc(), &mut source);
        assert!(rt; found == 1 || found == 2 && !whole, "{calls} calls");
        whole |= found == 1;
    }
    assert!(rt; whole);
}

// A taker with little memory: its shelves and its list are refused some, or everything is kept.
#[test]
fn parts_where_memory_is_refused(rt: HostRuntime) -> Result<(), Fail> {
    let mut whole = false;
    for bytes in 1..64usize {
        let heap = LocalHeap::new(rt.alloc(), 16 * bytes)?;
        let found = becomes(&rt, &heap, &mut MemSource::new(&THREE_PART_MULTI));
        assert!(rt; found == 1 || found == 4, "{bytes}");
        whole |= found == 1;
    }
    assert!(rt; whole);
    Ok(())
}

// The parts of one image are kept, also if it has none: then no other part is taken.
#[test]
fn no_parts_are_kept(rt: HostRuntime) {
    let alloc = rt.alloc();
    let header = Header {
        time: 0,
        size: 4,
        load: 0,
        ep: 0,
        dcrc: crc_of(&[0; 4]),
        os: 5,
        arch: 7,
        kind: 4,
        comp: 0,
        name: [0; 32],
    };
    let mut image = [0; 68];
    image[..64].copy_from_slice(&header_bytes(&header));
    let mut room = Room::new(alloc);
    let mut taker = MemParts::new(alloc);
    let first = unpack(None, &mut MemSource::new(&image), &mut room, &mut taker);
    let mut source = MemSource::new(&THREE_PART_MULTI);
    let second = unpack(None, &mut source, &mut room, &mut taker);
    assert!(rt; first == Ok(true) && second == Err(Fault::Put) && taker.kept().is_empty());
}
