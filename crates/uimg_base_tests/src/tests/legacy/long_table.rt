//! A table of sizes longer than a window.

use super::commands::ran;
use std::alloc::Global;
use uimg_base::Status;
use uimg_legacy::{Header, header_bytes};

// The extraction of a part, and the part's one byte: its position modulo 251.
const PARTS: [(&str, u8); 7] = [
    ("extract 0", 0),
    ("extract 1", 1),
    ("extract 250", 250),
    ("extract 2047", 39),
    ("extract 2048", 40),
    ("extract 4095", 79),
    ("extract 4999", 230),
];

// Returns a byte of a multi image's data: 5000 sizes of one byte, the end of their table, then the
// parts, each in four bytes except the last.
fn byte_at(offset: usize) -> u8 {
    if offset < 20004 {
        return (offset < 20000 && offset % 4 == 3) as u8;
    }
    let place = offset - 20004;
    if place % 4 == 0 {
        ((place / 4) % 251) as u8
    } else {
        0xee
    }
}

fn long_table() -> [u8; 40065] {
    let mut image = [0; 40065];
    let (head, data) = image.split_at_mut(64);
    for (offset, byte) in data.iter_mut().enumerate() {
        *byte = byte_at(offset);
    }
    let header = header_bytes(&Header {
        time: 0,
        size: 40001,
        load: 0,
        ep: 0,
        dcrc: 0xc7af_87e0,
        os: 5,
        arch: 7,
        kind: 4,
        comp: 1,
        name: [0; 32],
    });
    head.copy_from_slice(&header);
    image
}

fn lists(alloc: Global, image: &[u8], lines: usize, end: &[u8]) -> bool {
    let left = ran(alloc, "list", image, u64::MAX, u64::MAX);
    left.end == Ok(Status::Done)
        && left.asked <= 64 + 16 * 5001 + 40001
        && left.text.iter().filter(|byte| **byte == b'\n').count() == lines
        && left.text.ends_with(end)
}

#[test]
fn the_long_table_is_listed(rt: HostRuntime) {
    let end =
        b"   Image 4998: 1 Bytes = 0.00 KiB = 0.00 MiB\n   Image 4999: 1 Bytes = 0.00 KiB = 0.00 MiB\n";
    assert!(rt; lists(rt.alloc(), &long_table(), 6 + 1 + 5000, end));
}

fn extracts(alloc: Global, command: &str, image: &[u8], byte: u8) -> bool {
    let left = ran(alloc, command, image, u64::MAX, u64::MAX);
    left.end == Ok(Status::Done)
        && left.asked <= 64 + 16 * 5001 + 40001 + 1
        && left.text.as_slice() == [byte].as_slice()
}

#[test]
fn parts_of_the_long_table_are_extracted(rt: HostRuntime) {
    let image = long_table();
    for (command, byte) in &PARTS {
        assert!(rt; extracts(rt.alloc(), command, &image, *byte), "{command}");
    }
}
