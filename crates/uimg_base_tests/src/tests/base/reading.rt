//! Reads of a file that is read ahead, in any order and size.

use super::files::DigitFile;
use super::steps::{number, reads_at};
use std::alloc::Global;
use std::cell::Cell;
use uimg_base::{Out, SeekSource, Source};
use uimg_sums::{Crc, Summer as _, crc_of};

// Reads of a file: the name, the file, the bytes per read, the offsets, how many of these reads
// succeed before one fails, and how often the file is read in all. A read of fewer than 4096 bytes
// reads ahead once if no window has them, and so does a longer one that follows another; if that is
// not enough, it reads just these bytes, with at most one read per byte.
const READS: [(&str, &str, usize, &str, u64, u64); 37] = [
    ("a far offset", "most 2", 3, "4294967299", 1, 3),
    (
        "a farther offset, by whole windows",
        "",
        3,
        "4294967299",
        1,
        1,
    ),
    ("short reads of one byte", "most 1", 5, "3", 1, 6),
    ("short reads of two bytes", "most 2", 5, "3", 1, 4),
    ("reads of just the bytes", "most 5", 5, "3", 1, 1),
    ("reads of more bytes", "most 100", 5, "3", 1, 1),
    ("a long read by one byte", "most 1", 4096, "3", 1, 4096),
    ("a long read by 1024 bytes", "most 1024", 4096, "3", 1, 4),
    ("a long read by 1500 bytes", "most 1500", 4096, "3", 1, 3),
    ("a long read at once", "", 4096, "3", 1, 1),
    (
        "one interrupt before the window",
        "interrupts 1",
        5,
        "3",
        1,
        2,
    ),
    ("one interrupt more", "interrupts 2", 5, "3", 1, 3),
    (
        "an interrupt for each byte but one",
        "interrupts 5",
        5,
        "3",
        1,
        6,
    ),
    ("an interrupt for each byte", "interrupts 6", 5, "3", 0, 6),
    ("an interrupted long read", "interrupts 1", 4096, "3", 1, 2),
    (
        "a long read with one turn left",
        "interrupts 4095",
        4096,
        "3",
        1,
        4096,
    ),
    (
        "a long read with no turn left",
        "interrupts 4096",
        4096,
        "3",
        0,
        4096,
    ),
    ("a read of nothing", "most 2|end 6", 5, "3", 0, 4),
    ("a read that fails", "most 2|end 6|error", 5, "3", 0, 4),
    (
        "no bytes take no turn beyond the window",
        "end 0|error",
        0,
        "3",
        1,
        1,
    ),
    (
        "no bytes at the beginning take no turn",
        "end 0|error",
        0,
        "0",
        1,
        0,
    ),
    (
        "one window",
        "bad 9000|length 9000",
        3,
        "0 3 900 4093",
        4,
        1,
    ),
    (
        "two windows",
        "bad 9000|length 9000",
        3,
        "0 4096 3 4099",
        4,
        2,
    ),
    (
        "the window used longest ago is read anew",
        "bad 9000|length 9000",
        3,
        "0 4096 8192 0",
        4,
        4,
    ),
    (
        "no window past the length",
        "bad 10|length 10",
        3,
        "7 0 7 0",
        4,
        2,
    ),
    (
        "byte by byte where it gives no more",
        "most 1|bad 9000|length 9000",
        3,
        "0 0 0 0",
        4,
        16,
    ),
    (
        "just the bytes where nothing lies beyond them",
        "bad 6|length 9000",
        3,
        "2 2 3 3 4",
        4,
        10,
    ),
    (
        "long reads that follow one another",
        "bad 20000|length 20000",
        5000,
        "0 5000 10000 15000",
        4,
        2,
    ),
    (
        "long reads that do not",
        "bad 20000|length 20000",
        5000,
        "0 10000 5000 15000 15000",
        5,
        5,
    ),
    (
        "a piece has all that lies in it",
        "bad 20000|length 20000",
        4096,
        "100 4196 9000 4196",
        4,
        2,
    ),
    (
        "a piece has 128 KiB",
        "bad 300000|length 300000",
        4096,
        "0 4096 131072 135168 262144",
        5,
        3,
    ),
    (
        "and no byte more",
        "bad 300000|length 300000",
        4096,
        "0 4096 131073",
        3,
        3,
    ),
    (
        "a piece ends at the length",
        "bad 10000|length 10000",
        4096,
        "0 4096 5904",
        3,
        2,
    ),
    (
        "a piece that was read to the end is dropped",
        "bad 10000|length 10000",
        4096,
        "0 4096 5904 5904",
        4,
        3,
    ),
    (
        "by itself where the piece is short",
        "most 1500|bad 20000|length 20000",
        4096,
        "0 4096",
        2,
        7,
    ),
    (
        "long reads after an interrupt",
        "interrupts 1|bad 20000|length 20000",
        4096,
        "0 4096 8192",
        3,
        3,
    ),
    (
        "a fault beyond the requested bytes is none",
        "bad 12000|length 20000",
        4096,
        "0 4096 8192",
        2,
        5,
    ),
];

fn is_inside<S: Source>(source: &mut S, at: u64, len: usize) -> bool {
    match source.size() {
        Ok(size) => at <= size && len as u64 <= size - at,
        Err(_) => false,
    }
}

fn put_digits(at: u64, to: &mut [u8]) {
    for (number, byte) in to.iter_mut().enumerate() {
        *byte = b'0' + (at.wrapping_add(number as u64) % 10) as u8;
    }
}

fn are_digits(at: u64, bytes: &[u8]) -> bool {
    let mut same = true;
    for (number, byte) in bytes.iter().enumerate() {
        same = same && *byte == b'0' + (at.wrapping_add(number as u64) % 10) as u8;
    }
    same
}

// Reads the digits from an offset on, if that is inside the source. Returns whether that succeeded,
// or `None` if other bytes were read.
fn filled<S: Source>(source: &mut S, at: u64, to: &mut [u8]) -> Option<bool> {
    if !reads_at(source, at, to) {
        return Some(false);
    }
    if are_digits(at, to) { Some(true) } else { None }
}

// The same for bytes that are fed to a sum, and not copied.
fn fed<S: Source>(source: &mut S, at: u64, window: &mut [u8]) -> Option<bool> {
    if !is_inside(source, at, window.len()) {
        return Some(false);
    }
    let mut sum = Crc::start();
    if source.feed_at(at, window, &mut sum).is_err() {
        return Some(false);
    }
    put_digits(at, window);
    if sum.value() == crc_of(window) {
        Some(true)
    } else {
        None
    }
}

// The same for bytes that are written, too.
fn taken<S: Source>(source: &mut S, at: u64, window: &mut [u8], alloc: Global) -> Option<bool> {
    if !is_inside(source, at, window.len()) {
        return Some(false);
    }
    let mut out = Out::new(Vec::new(alloc));
    let mut sum = Crc::start();
    if source.take_at(at, window, &mut sum, &mut out).is_err() {
        return Some(false);
    }
    let written = out.into_inner();
    let right = written.len() == window.len() && are_digits(at, written.as_slice());
    if right && sum.value() == crc_of(written.as_slice()) {
        Some(true)
    } else {
        None
    }
}

// How bytes are read: copied, summed, or summed and written.
#[derive(Clone, Copy)]
enum Way {
    Fill,
    Feed,
    Take,
}

// Returns how many reads succeed before one fails, if they returned the right digits.
fn succeeding<'a>(
    source: &mut SeekSource<DigitFile<'a>>,
    way: Way,
    size: usize,
    offsets: &str,
    alloc: Global,
) -> Option<u64> {
    let mut buffer = [b'x'; 5000];
    let to = buffer.get_mut(..size)?;
    let mut count = 0u64;
    for offset in offsets.split_whitespace() {
        let at = number(offset);
        let is_read = match way {
            Way::Fill => filled(source, at, to),
            Way::Feed => fed(source, at, to),
            Way::Take => taken(source, at, to, alloc),
        }?;
        if !is_read {
            return Some(count);
        }
        count = count.saturating_add(1);
    }
    Some(count)
}

// Returns how many reads succeed, and how often the file is read.
fn reads(
    alloc: Global,
    way: Way,
    description: &str,
    size: usize,
    offsets: &str,
) -> Option<(u64, u64)> {
    let counted = Cell::new(0);
    let Ok(mut source) = SeekSource::new(alloc, DigitFile::new(description, &counted)) else {
        return None;
    };
    let count = succeeding(&mut source, way, size, offsets, alloc)?;
    Some((count, counted.get()))
}

#[test]
fn reads_of_slow_files(rt: HostRuntime) {
    for (name, description, size, offsets, wanted, turns) in &READS {
        for way in [Way::Fill, Way::Feed, Way::Take] {
            assert!(rt;
                reads(rt.alloc(), way, description, *size, offsets) == Some((*wanted, *turns)),
                "{name}"
            );
        }
    }
}
