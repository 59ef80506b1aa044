//! A listing of 220 KB on streams that take it in pieces, or fail.
use super::runs::shown;
use super::streams::{ran, writer_of};
use std::env::Env;
use std::fs;
use std::process::Abort;
use std::rt::Files;
use std::test::Fail;

// The beginning of the long image's header; the rest is zeros. Its checksums are zlib's.
const HEAD: [u8; 32] = [
    0x27, 0x05, 0x19, 0x56, 0x62, 0x4e, 0xe2, 0xb4, 0x00, 0x00, 0x00, 0x00, 0x00, 0x00, 0x9c, 0x44,
    0x00, 0x00, 0x00, 0x00, 0x00, 0x00, 0x00, 0x00, 0xb8, 0x55, 0xb5, 0xb9, 0x05, 0x07, 0x04, 0x01,
];

// Returns a multi image of 5000 parts of one byte: sizes at 64 to 20064, parts from 20068 on.
fn long_image() -> [u8; 40068] {
    let mut image = [0; 40068];
    for (at, byte) in image.iter_mut().enumerate() {
        *byte = match at {
            0..=31 => HEAD[at],
            64..=20063 if at % 4 == 3 => 1,
            20068..=40067 if at % 4 == 0 => b'a',
            _ => 0,
        };
    }
    image
}

const ALL: usize = usize::MAX;

// The bytes that standard output takes in all, and in a call; whether it flushes; the exit status;
// and standard error. Standard output has the listing, or as much of it as it takes.
const ROWS: [(usize, usize, bool, u8, &str); 14] = [
    (ALL, ALL, true, 0, ""),
    (ALL, 1, true, 0, ""),
    (ALL, 4095, true, 0, ""),
    (ALL, 8192, true, 0, ""),
    (ALL, ALL, false, 3, "uimg: write failed\n"),
    (0, ALL, true, 3, "uimg: write failed\n"),
    (1, ALL, true, 3, "uimg: write failed\n"),
    (300, ALL, true, 3, "uimg: write failed\n"),
    (4096, ALL, true, 3, "uimg: write failed\n"),
    (8191, ALL, true, 3, "uimg: write failed\n"),
    (8192, ALL, true, 3, "uimg: write failed\n"),
    (8193, ALL, true, 3, "uimg: write failed\n"),
    (100_000, ALL, true, 3, "uimg: write failed\n"),
    (224_111, ALL, true, 3, "uimg: write failed\n"),
];

// The listing has seven lines of 222 bytes, and 5000 of 41 bytes and the digits of a number.
const LENGTH: usize = 224_112;

const LINE: &str = "uimg dumpimage -l long.img";

fn prints<R: Files + Env + AllocGlobal>(
    rt: &R,
    listing: &[u8],
    row: (usize, usize, bool, u8, &str),
) -> bool {
    let (room, most, flushes, status, fault) = row;
    let mut out = writer_of(rt, room, most, flushes);
    let mut err = writer_of(rt, ALL, ALL, true);
    let ended = ran(rt, LINE, &mut out, &mut err);
    ended == status
        && shown(&err.taken) == fault
        && out.taken.as_slice() == listing.get(..room).unwrap_or(listing)
}

// The lines are buffered: each write but the last has at least 4096 bytes. What a short write
// leaves is written by the next ones, and a failed write leaves a prefix.
#[test]
fn a_long_listing(rt: HostRuntime) -> Result<(), Fail> {
    fs::write(&rt, "long.img", long_image().as_slice())?;
    let mut whole = writer_of(&rt, ALL, ALL, true);
    let mut err = writer_of(&rt, ALL, ALL, true);
    assert_eq!(rt; ran(&rt, LINE, &mut whole, &mut err), 0);
    assert_eq!(rt; whole.taken.len(), LENGTH);
    assert!(rt; whole.calls <= LENGTH / 4096 + 2);
    for row in &ROWS {
        let (room, most, flushes, _, _) = *row;
        assert!(rt; prints(&rt, &whole.taken, *row), "{room} {most} {flushes}");
    }
    fs::remove_file(&rt, "long.img")?;
    Ok(())
}
