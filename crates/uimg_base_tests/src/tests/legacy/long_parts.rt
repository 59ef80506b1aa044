//! Parts longer than a window.

use super::building::{options_of, try_build};
use super::commands::ran;
use std::alloc::Global;
use uimg_base::{MemSource, Out, Source, Status};

// Lengths around the window's 8192 bytes, and of several windows.
const LENGTHS: [usize; 6] = [1, 8191, 8192, 8193, 16384, 20000];

fn numbered() -> [u8; 20000] {
    let mut bytes = [0; 20000];
    for (number, byte) in bytes.iter_mut().enumerate() {
        *byte = (number % 251) as u8;
    }
    bytes
}

fn writes(alloc: Global, command: &str, image: &[u8], text: &[u8]) -> bool {
    let left = ran(alloc, command, image, u64::MAX, u64::MAX);
    left.end == Ok(Status::Done) && left.text.as_slice() == text
}

// Checks that a long and a short part are read twice, built and read back.
fn reads_back(alloc: Global, first: &[u8]) -> bool {
    let mut parts = [MemSource::new(first), MemSource::new(b"end")];
    let mut out = Out::new(Vec::new(alloc));
    let end = try_build(&options_of("multi"), &mut parts, &mut out);
    let image = out.into_inner();
    end == Some(Ok(()))
        && parts[0].asked() == 2 * first.len() as u128
        && parts[1].asked() == 6
        && writes(alloc, "verify", &image, b"header crc32 ok\ndata crc32 ok\n")
        && writes(alloc, "extract 0", &image, first)
        && writes(alloc, "extract 1", &image, b"end")
}

#[test]
fn long_parts(rt: HostRuntime) {
    let bytes = numbered();
    for length in &LENGTHS {
        let first = bytes.get(..*length).unwrap_or(b"");
        assert!(rt; reads_back(rt.alloc(), first), "{length}");
    }
}
