//! Sources: slices, fuses and files.

use super::steps::plays_source;
use std::io::Cursor;
use std::process::Abort;
use std::rt::Files;
use uimg_base::{FuseSource, MemSource, SeekSource, Source};

const ANY_PLACE: &str = "size 9|read 3 456|read 6 789|read 0 12|read 9 |asked 8|failures 0";

// Sources of the bytes `123456789`: the name, how many calls pass, and the steps. A step that reads
// requests the size first.
const SOURCES: [(&str, u64, &str); 6] = [
    ("any place", 99, ANY_PLACE),
    (
        "the first size fails",
        0,
        "size fails|size fails|failures 2|asked 0",
    ),
    (
        "the first read fails",
        1,
        "fails 1 2|size fails|failures 2|asked 2",
    ),
    (
        "the second size fails",
        2,
        "read 1 23|size fails|failures 1|asked 2",
    ),
    (
        "the second read fails",
        3,
        "read 1 23|fails 0 4|size fails|failures 2|asked 6",
    ),
    (
        "no read fails",
        5,
        "read 1 23|read 0 1234|size 9|failures 0|asked 6",
    ),
];

// How many calls pass, whether `size`, `fill_at` and `size` succeed, and how many fail.
const FUSES: [(u64, bool, bool, bool, u64); 5] = [
    (0, false, false, false, 3),
    (1, true, false, false, 2),
    (2, true, true, false, 1),
    (3, true, true, true, 0),
    (u64::MAX, true, true, true, 0),
];

fn plays<R: Files + AllocGlobal + Abort, S: Source>(
    rt: &R,
    name: &str,
    mut source: S,
    script: &str,
) {
    plays_source(rt, name, "", &mut source, script);
}

#[test]
fn slices_behind_a_fuse(rt: HostRuntime) {
    for (name, calls, script) in &SOURCES {
        let source = MemSource::new(b"123456789");
        plays(&rt, name, FuseSource::new(source, *calls), script);
    }
}

// A slice as a file is read like any source.
#[test]
fn a_cursor_is_read_at_any_place(rt: HostRuntime) {
    match SeekSource::new(rt.alloc(), Cursor::new(b"123456789".as_slice())) {
        Ok(source) => plays(&rt, "a cursor", source, ANY_PLACE),
        Err(_) => assert!(rt; false),
    }
}

// Checks which of `size`, `fill_at` and `size` succeed through a fuse, and the count of failures.
fn burns(calls: u64, first: bool, second: bool, third: bool, failures: u64) -> bool {
    let mut source = FuseSource::new(MemSource::new(b"abc"), calls);
    let mut two = [0; 2];
    source.size().is_ok() == first
        && source.fill_at(1, &mut two).is_ok() == second
        && (!second || two == *b"bc")
        && source.size().is_ok() == third
        && source.failures() == failures
        && source.asked() == 2
}

// A fuse of k calls lets k calls through; each later one is a failure.
#[test]
fn a_source_fails_from_its_fuse_on(rt: HostRuntime) {
    for (calls, first, second, third, failures) in &FUSES {
        assert!(rt;
            burns(*calls, *first, *second, *third, *failures),
            "{calls}"
        );
    }
}
