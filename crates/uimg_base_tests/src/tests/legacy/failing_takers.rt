//! Takers with a failing call, and shelves with a failing write.

ghost use Rattle.std.specs.Prelude.{[]};

use super::images::{PLACE, make};
use std::alloc::Global;
use uimg_base::{FuseWriter, MemSource, PutFault, Room};
use uimg_legacy::{Fault, PartTaker, unpack};

// A taker that answers some calls, and whose shelves accept some bytes each. It counts the parts
// that it is given, and the calls after the first one that failed.
#[derive(Drop)]
struct FailingTaker {
    alloc: Global,
    left: u64,
    bytes: u64,
    given: u64,
    has_failed: bool,
    late: u64,
}

impl FailingTaker {
    fn new(alloc: Global, left: u64, bytes: u64) -> FailingTaker {
        FailingTaker {
            alloc,
            left,
            bytes,
            given: 0,
            has_failed: false,
            late: 0,
        }
    }

    fn answer(&mut self) -> Result<(), PutFault> {
        self.late = self.late.saturating_add(self.has_failed as u64);
        if self.left == 0 {
            self.has_failed = true;
            return Err(PutFault);
        }
        self.left -= 1;
        Ok(())
    }
}

impl PartTaker for FailingTaker {
    type Shelf = FuseWriter<Vec<u8>>;

    ghost held = { λ _. [] };

    ghost kept = { λ _. [] };

    fn claim(&mut self, _number: u32) -> Result<(), PutFault> {
        self.answer()
    }

    fn shelf(&mut self, _number: u32) -> Result<FuseWriter<Vec<u8>>, PutFault> {
        self.answer()?;
        Ok(FuseWriter::new(Vec::new(self.alloc), self.bytes))
    }

    fn hold(&mut self, _number: u32, _shelf: FuseWriter<Vec<u8>>) -> Result<(), PutFault> {
        self.given = self.given.saturating_add(1);
        self.answer()
    }

    fn keep(&mut self, _dcrc: u32) -> Result<(), PutFault> {
        self.answer()
    }

    fn refuse(&mut self) -> Result<(), PutFault> {
        self.answer()
    }
}

// Unpacks an image for such a taker. Returns whether the parts are kept, or `None` if the taker
// failed; then how many parts it was given, and how many calls came after the first that failed.
fn unpacked(
    alloc: Global,
    description: &str,
    only: Option<u32>,
    left: u64,
    bytes: u64,
) -> (Result<bool, Fault>, u64, u64) {
    let mut image = [0; PLACE];
    let length = make(description, &mut image);
    let mut source = MemSource::new(&image[..length]);
    let mut taker = FailingTaker::new(alloc, left, bytes);
    let answer = unpack(only, &mut source, &mut Room::new(alloc), &mut taker);
    (answer, taker.given, taker.late)
}

// The image, the requested part, if any, the number of calls, and whether the parts are kept.
const CALLS: [(&str, Option<u32>, u64, bool); 5] = [
    ("abc-kernel", None, 4, true),
    ("abc-kernel 64=62", None, 4, false),
    ("three-part-multi", None, 10, true),
    ("three-part-multi", Some(1), 4, true),
    ("three-part-multi 92=6d", None, 10, false),
];

// The first call that fails, of a claim, a shelf, a part, or that the parts are kept or refused, is
// the last one.
#[test]
fn takers_that_fail(rt: HostRuntime) {
    for (description, only, calls, kept) in &CALLS {
        for left in 0..*calls {
            let (answer, _, late) = unpacked(rt.alloc(), description, *only, left, 9);
            assert!(rt;
                answer == Err(Fault::Put) && late == 0,
                "{description}, {left} calls"
            );
        }
        let (answer, _, late) = unpacked(rt.alloc(), description, *only, *calls, 9);
        assert!(rt; answer == Ok(*kept) && late == 0, "{description}");
    }
}

// The image, how many bytes each shelf accepts, and how many parts are given.
const SHELVES: [(&str, u64, u64); 7] = [
    ("abc-kernel", 0, 0),
    ("abc-kernel", 2, 0),
    ("abc-kernel", 3, 1),
    ("three-part-multi", 2, 0),
    ("three-part-multi", 3, 1),
    ("three-part-multi", 4, 2),
    ("three-part-multi", 5, 3),
];

// A part is given if all of it was written, and nothing after the first that was not.
#[test]
fn shelves_that_fail(rt: HostRuntime) {
    for (description, bytes, parts) in &SHELVES {
        let (answer, given, _) = unpacked(rt.alloc(), description, None, 99, *bytes);
        let is_whole = *parts == 3 || *description == "abc-kernel" && *parts == 1;
        let wanted = if is_whole { Ok(true) } else { Err(Fault::Put) };
        assert!(rt;
            answer == wanted && given == *parts,
            "{description}, {bytes} bytes"
        );
    }
}
