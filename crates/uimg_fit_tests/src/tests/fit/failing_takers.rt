//! Takers with a failing call, and shelves with a failing write.

ghost use Rattle.std.specs.Prelude.{[]};

use super::making::{built, filled};
use std::alloc::Global;
use std::test::Fail;
use uimg_base::{FuseWriter, MemFiles, MemSource, PutFault, Room};
use uimg_fit::Fault;
use uimg_fit_checking::{MemTake, MemTaker, NodeName, Refusal, Taker, Unpacked, Vouched, Wanted, unpack};

// A taker that answers some calls, and whose shelves accept some bytes each. It counts its shelves,
// the payloads that it is given or that are refused, and the calls after the first one that failed.
#[derive(Drop)]
struct FailingTaker {
    alloc: Global,
    left: u64,
    bytes: u64,
    shelves: u64,
    given: u64,
    has_failed: bool,
    late: u64,
}

impl FailingTaker {
    fn new(alloc: Global, left: u64, bytes: u64) -> FailingTaker {
        FailingTaker {
            alloc,
            left,
            bytes,
            shelves: 0,
            given: 0,
            has_failed: false,
            late: 0,
        }
    }

    fn answer(&mut self) -> Result<(), PutFault> {
        self.late = self.late.saturating_add(self.has_failed as u64);
        if self.left == 0 {
            self.has_failed = true;
            return Err(PutFault);
        }
        self.left -= 1;
        Ok(())
    }
}

impl Taker for FailingTaker {
    type Shelf = FuseWriter<Vec<u8>>;

    ghost takes = { λ _. [] };

    fn claim(&mut self, _name: &NodeName, _length: u64) -> Result<(), PutFault> {
        self.answer()
    }

    fn shelf(&mut self, _name: &NodeName) -> Result<FuseWriter<Vec<u8>>, PutFault> {
        self.shelves = self.shelves.saturating_add(1);
        self.answer()?;
        Ok(FuseWriter::new(Vec::new(self.alloc), self.bytes))
    }

    fn keep(
        &mut self,
        _name: &NodeName,
        _shelf: FuseWriter<Vec<u8>>,
        _vouched: Option<Vouched>,
    ) -> Result<(), PutFault> {
        self.given = self.given.saturating_add(1);
        self.answer()
    }

    fn refuse(
        &mut self,
        _name: &NodeName,
        _shelf: FuseWriter<Vec<u8>>,
        _refusal: Refusal,
    ) -> Result<(), PutFault> {
        self.given = self.given.saturating_add(1);
        self.answer()
    }
}

// An empty payload, one that is right, and one that is not.
const SOURCE: &str = "/dts-v1/; / { images { none { data; };
a { data = [616263]; hash { algo = \"crc32\"; }; };
b { data = [646566]; hash { algo = \"crc32\"; }; }; }; };";

// How many calls there are: to claim each payload, then a shelf and what became of it.
const CALLS: u64 = 9;

// Returns the image; its last payload is changed.
fn image(alloc: Global) -> Result<Vec<u8>, Fail> {
    let tree = filled(alloc, SOURCE, 0, &[], &mut MemFiles::new(&[]))?;
    let (_, mut image) = built(alloc, &tree, "after", &mut MemFiles::new(&[]));
    let payload = image.len().saturating_sub(4);
    if let Some(byte) = image.as_mut_slice().get_mut(payload) {
        *byte ^= 1;
    }
    Ok(image)
}

// Returns whether it ends as wanted, with as many shelves and payloads, and no late call.
fn ends(
    alloc: Global,
    image: &[u8],
    left: u64,
    bytes: u64,
    is_whole: bool,
    wanted: (u64, u64),
) -> bool {
    let mut taker = FailingTaker::new(alloc, left, bytes);
    let mut source = MemSource::new(image);
    let answer = unpack(Wanted::All, None, &mut source, &mut Room::new(alloc), &mut taker);
    let same = match answer {
        Ok(Unpacked::Taken(all)) => is_whole && !all,
        Err(Fault::Put) => !is_whole,
        _ => false,
    };
    same && taker.late == 0 && (taker.shelves, taker.given) == wanted
}

// The first call that fails is the last one: of the claims, or of the two for each payload.
#[test]
fn takers_that_fail(rt: HostRuntime) -> Result<(), Fail> {
    let alloc = rt.alloc();
    let image = image(alloc)?;
    for left in 0..=CALLS {
        let calls = u64::min(left, CALLS - 1).saturating_sub(2);
        let wanted = (calls.div_ceil(2), calls / 2);
        assert!(rt;
            ends(alloc, &image, left, 9, left == CALLS, wanted),
            "{left} calls"
        );
    }
    Ok(())
}

// A payload with a failed write is neither given nor refused, and no other follows.
#[test]
fn shelves_that_fail(rt: HostRuntime) -> Result<(), Fail> {
    let alloc = rt.alloc();
    let image = image(alloc)?;
    for bytes in 0..3u64 {
        assert!(rt;
            ends(alloc, &image, 99, bytes, false, (2, 1)),
            "{bytes} bytes"
        );
    }
    assert!(rt; ends(alloc, &image, 99, 3, true, (3, 3)));
    Ok(())
}

// In memory the taker has the empty payload, the right one, and the refusal of the last.
#[test]
fn payloads_in_memory(rt: HostRuntime) -> Result<(), Fail> {
    let alloc = rt.alloc();
    let image = image(alloc)?;
    let mut taker = MemTaker::new(alloc);
    let mut source = MemSource::new(&image);
    let answer = unpack(Wanted::All, None, &mut source, &mut Room::new(alloc), &mut taker);
    assert!(rt; matches!(answer, Ok(Unpacked::Taken(false))));
    let is_same = match taker.takes() {
        [
            MemTake::Kept {
                payload: none,
                vouched: None,
                ..
            },
            MemTake::Kept {
                payload,
                vouched: Some(_),
                ..
            },
            MemTake::Refused { .. },
        ] => none.is_empty() && payload.as_slice() == b"abc".as_slice(),
        _ => false,
    };
    assert!(rt; is_same);
    Ok(())
}
