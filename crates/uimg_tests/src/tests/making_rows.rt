//! Builds while opens, reads or the shelf fail.
use super::listings::listing_named;
use super::makings::{Fuses, Outcome, making};
use super::runs::{shown, told};
use std::alloc::Global;
use std::process::Abort;
use std::rt::Files;
use uimg_base::Status;
use uimg_engine::Fault;

const ALL: u64 = u64::MAX;

// The image; from which open on they are refused; which open has a source that fails, and after how
// many calls; how many bytes the shelf takes, and whether it keeps them; the end; and the resulting
// file.
const ROWS: [(&str, u64, u64, u64, u64, bool, &str, &str); 24] = [
    (
        "three-part-multi",
        0,
        9,
        0,
        ALL,
        true,
        "cannot read file 0",
        "no file",
    ),
    (
        "three-part-multi",
        1,
        9,
        0,
        ALL,
        true,
        "cannot read file 1",
        "no file",
    ),
    (
        "three-part-multi",
        2,
        9,
        0,
        ALL,
        true,
        "cannot read file 2",
        "no file",
    ),
    ("three-part-multi", 3, 9, 0, ALL, true, "done", "all"),
    (
        "four-hash-fit",
        0,
        9,
        0,
        ALL,
        true,
        "cannot read file 0",
        "no file",
    ),
    (
        "four-hash-fit",
        1,
        9,
        0,
        ALL,
        true,
        "I5 no file at line 8",
        "no file",
    ),
    ("four-hash-fit", 2, 9, 0, ALL, true, "F9 no file", "no file"),
    ("four-hash-fit", 3, 9, 0, ALL, true, "F9 no file", "a part"),
    (
        "four-hash-fit",
        9,
        0,
        0,
        ALL,
        true,
        "read failed",
        "no file",
    ),
    (
        "four-hash-fit",
        9,
        1,
        0,
        ALL,
        true,
        "I6 read failed at line 8",
        "no file",
    ),
    (
        "four-hash-fit",
        9,
        2,
        0,
        ALL,
        true,
        "F10 read failed",
        "no file",
    ),
    ("four-hash-fit", 9, 3, 0, ALL, true, "read failed", "a part"),
    ("four-hash-fit", 9, 4, 0, ALL, true, "done", "all"),
    (
        "three-part-multi",
        9,
        9,
        0,
        0,
        true,
        "write failed",
        "no file",
    ),
    (
        "three-part-multi",
        9,
        9,
        0,
        1,
        true,
        "write failed",
        "a part",
    ),
    (
        "three-part-multi",
        9,
        9,
        0,
        64,
        true,
        "write failed",
        "a part",
    ),
    (
        "three-part-multi",
        9,
        9,
        0,
        92,
        true,
        "write failed",
        "a part",
    ),
    ("three-part-multi", 9, 9, 0, 93, true, "done", "all"),
    (
        "four-hash-fit",
        9,
        9,
        0,
        759,
        true,
        "write failed",
        "a part",
    ),
    ("four-hash-fit", 9, 9, 0, 760, true, "done", "all"),
    ("abc-kernel", 9, 9, 0, 67, true, "done", "all"),
    (
        "abc-kernel",
        9,
        9,
        0,
        67,
        false,
        "cannot read what was written",
        "all",
    ),
    (
        "four-hash-fit",
        9,
        9,
        0,
        ALL,
        false,
        "cannot read what was written",
        "all",
    ),
    (
        "a:b:c:d",
        9,
        9,
        0,
        ALL,
        true,
        "cannot read file 3",
        "no file",
    ),
];

// Returns whether a build has this end, this file, and its listing if it is done.
fn is_left(alloc: Global, made: &Outcome, name: &str, end: &str, file: &str) -> bool {
    let listing = if end == "done" {
        listing_named(name)
    } else {
        ""
    };
    shown(&told(alloc, &made.end)) == end
        && made.file == file
        && made.listed.as_slice() == listing.as_bytes()
}

fn leaves<R: Files + AllocGlobal>(
    rt: &R,
    row: (&str, u64, u64, u64, u64, bool, &str, &str),
) -> bool {
    let (name, from, turn, calls, bytes, keeps, end, file) = row;
    let fuses = Fuses {
        from,
        turn,
        calls,
        bytes,
        keeps,
    };
    let memory = (rt.alloc(), rt.alloc());
    match making(rt, memory, name, "making_rows.img", fuses) {
        Ok(made) => is_left(rt.alloc(), &made, name, end, file),
        Err(_) => false,
    }
}

#[test]
fn makings_that_fail(rt: HostRuntime) {
    for row in &ROWS {
        let (name, from, turn, _, bytes, _, _, _) = *row;
        assert!(rt; leaves(&rt, *row), "{name} {from} {turn} {bytes}");
    }
}

// Returns whether a failed build returns its fault, and leaves no listing and a prefix.
fn is_stopped(made: &Outcome, fault: Fault) -> bool {
    made.end == Err(fault) && made.listed.is_empty() && made.file != "other bytes"
}

fn is_whole(made: &Outcome) -> bool {
    let listing = listing_named("three-part-multi");
    made.end == Ok(Status::Done)
        && made.file == "all"
        && made.listed.as_slice() == listing.as_bytes()
}

// Returns how often the build fails as expected, while more calls of a file, or more bytes of the
// shelf, succeed; 0 if it does otherwise.
fn failures<R: Files + AllocGlobal>(rt: &R, turn: u64, fault: Fault) -> u64 {
    for most in 0..100u64 {
        let fuses = Fuses {
            from: 9,
            turn,
            calls: most,
            bytes: if turn == 9 { most } else { ALL },
            keeps: true,
        };
        let memory = (rt.alloc(), rt.alloc());
        match making(rt, memory, "three-part-multi", "failures.img", fuses) {
            Ok(made) if is_whole(&made) => return most,
            Ok(made) if is_stopped(&made, fault) => {}
            _ => return 0,
        }
    }
    0
}

// Each call of each part fails in turn, and the shelf is full at each byte.
#[test]
fn calls_and_bytes_fail_in_turn(rt: HostRuntime) {
    for turn in 0..3u64 {
        assert!(rt; failures(&rt, turn, Fault::Read) > 1, "{turn}");
    }
    assert_eq!(rt; failures(&rt, 9, Fault::Put), 93);
}
