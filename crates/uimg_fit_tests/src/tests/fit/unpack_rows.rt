//! Payloads taken out of images whose device returns other bytes the second time, or fails.

ghost use Rattle.std.{specs.Prelude.false, proofs.Common.rules};

use crate::samples::four_hash_fit;
use std::alloc::Global;
use std::test::Fail;
use uimg_base::{Algo, FuseSource, MemSource, Room, Source, SourceFault};
use uimg_fit::Fault;
use uimg_fit_checking::{MemTake, MemTaker, Unpacked, Wanted, unpack};
use uimg_fit_reading::locate;

// A source that returns one byte right in some reads, and wrong in the others.
#[derive(Drop)]
struct FickleSource<S: Source> {
    source: S,
    place: u64,
    before: u64,
    right: u64,
}

impl<S: Source> Source for FickleSource<S> {
    ghost device = { λ s. record {
      bytes = (S.device s.source).bytes;
      honest = false;
      asked = (S.device s.source).asked;
      failures = (S.device s.source).failures;
    } };

    ghost never_failed = { λ s always. Prim.search rules };

    ghost short = { λ s. S.short s.source };

    fn size(&mut self) -> Result<u64, SourceFault> {
        self.source.size()
    }

    fn fill_at(&mut self, at: u64, to: &mut [u8]) -> Result<(), SourceFault> {
        self.source.fill_at(at, to)?;
        if at != self.place {
            return Ok(());
        }
        if self.before > 0 {
            self.before -= 1;
        } else if self.right > 0 {
            self.right -= 1;
            return Ok(());
        }
        if let Some(byte) = to.first_mut() {
            *byte ^= 1;
        }
        Ok(())
    }

    fn asked(&self) -> u128 {
        self.source.asked()
    }

    fn failures(&self) -> u64 {
        self.source.failures()
    }
}

// The start of SHA-256 of `abc` (FIPS 180-2, appendix B.1).
const ABC: [u8; 4] = [0xba, 0x78, 0x16, 0xbf];

// Returns what happens to the only payload of an image: 0 refused, 1 kept as `abc` with its digest,
// 2 a read failed and nothing was given, 3 the image is refused, 9 anything else.
fn becomes<S: Source>(alloc: Global, source: &mut S) -> u8 {
    let mut taker = MemTaker::new(alloc);
    let mut room = Room::new(alloc);
    let answer = unpack(Wanted::All, Some(Algo::Sha256), source, &mut room, &mut taker);
    match (answer, taker.takes()) {
        (Ok(Unpacked::Taken(false)), [MemTake::Refused { .. }]) => 0,
        (
            Ok(Unpacked::Taken(true)),
            [
                MemTake::Kept {
                    payload,
                    vouched,
                    ..
                },
            ],
        ) => match vouched {
            Some(vouched)
                if vouched.digest.starts_with(&ABC) && payload.as_slice() == b"abc".as_slice() => 1,
            _ => 9,
        },
        (Err(Fault::Read), []) => 2,
        (Err(Fault::Blob(_, _) | Fault::Fit(_)), []) => 3,
        _ => 9,
    }
}

// How many reads of the payload are wrong first, how many are right then, and what happens to it:
// only the first read counts.
const ROWS: [(u64, u64, u8); 4] = [(0, 1, 1), (0, 9, 1), (0, 0, 0), (1, 9, 0)];

#[test]
fn changing_sources(rt: HostRuntime) -> Result<(), Fail> {
    let alloc = rt.alloc();
    let image = four_hash_fit(alloc)?;
    let mut room = Room::new(alloc);
    let Ok(span) = locate(0, &mut MemSource::new(&image), &mut room) else {
        panic!(rt; "no payload");
    };
    for (before, right, wanted) in &ROWS {
        let mut source = FickleSource {
            source: MemSource::new(&image),
            place: span.place,
            before: *before,
            right: *right,
        };
        assert!(rt; becomes(alloc, &mut source) == *wanted, "{before}, {right}");
    }
    Ok(())
}

// Reads of any byte are wrong after some right ones: only `abc` is ever kept.
#[test]
fn changing_places(rt: HostRuntime) -> Result<(), Fail> {
    let alloc = rt.alloc();
    let image = four_hash_fit(alloc)?;
    for place in 0..image.len() {
        for right in 0..3u64 {
            let mut source = FickleSource {
                source: MemSource::new(&image),
                place: place as u64,
                before: 0,
                right,
            };
            let found = becomes(alloc, &mut source);
            assert!(rt; found == 0 || found == 1 || found == 3, "{place}, {right}");
        }
    }
    Ok(())
}

// A source that answers some calls: nothing is given, or everything.
#[test]
fn each_read_failing(rt: HostRuntime) -> Result<(), Fail> {
    let alloc = rt.alloc();
    let image = four_hash_fit(alloc)?;
    let mut whole = false;
    for calls in 0..256u64 {
        let mut source = FuseSource::new(MemSource::new(&image), calls);
        let found = becomes(alloc, &mut source);
        assert!(rt; found == 1 || found == 2 && !whole, "{calls} calls");
        whole |= found == 1;
    }
    assert!(rt; whole);
    Ok(())
}
