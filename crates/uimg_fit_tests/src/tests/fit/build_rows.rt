//! Images that are filled and built, compared with bytes from elsewhere.
use super::super::answers::is_said;
use super::images::image;
use super::making::{built, filled, told};
use crate::sources::FOUR_HASH;
use std::alloc::{AllocError, Global};
use std::process::Abort;
use std::test::Fail;
use uimg_base::MemFiles;
use uimg_fit::Fault;
use uimg_its::compile;

const ABC: [(&[u8], &[u8]); 1] = [(b"abc.bin", b"abc")];

// Returns the source of four-hash-fit, with its payload in memory if a row says so.
fn source(alloc: Global, place: &str) -> Result<String, AllocError> {
    let file = "/incbin/(\"abc.bin\")";
    let (head, tail) = FOUR_HASH.split_once(file).unwrap_or((FOUR_HASH, ""));
    let payload = if place == "memory" { "[616263]" } else { file };
    format!(in alloc; "{head}{payload}{tail}")
}

// Fills and builds a source over the files of the tests. Returns the result and what is written.
fn made(alloc: Global, text: &str, time: u32, placement: &str) -> (Result<(), Fault>, Vec<u8>) {
    match filled(alloc, text, time, &ABC, &mut MemFiles::new(&ABC)) {
        Ok(tree) => built(alloc, &tree, placement, &mut MemFiles::new(&ABC)),
        Err(fault) => (Err(fault), Vec::new(alloc)),
    }
}

// Where the payload is, the time, the placement, how many bytes are written, the image that has
// these bytes, and an offset with another number.
const ROWS: [(&str, u32, &str, usize, &str, usize, u32); 12] = [
    ("file", 0, "inside", 760, "four-hash-fit", 0, 0),
    ("memory", 0, "inside", 760, "four-hash-fit", 0, 0),
    ("file", 1, "inside", 760, "four-hash-fit", 112, 1),
    ("memory", 1, "inside", 760, "four-hash-fit", 112, 1),
    (
        "file",
        0x5f5e1234,
        "inside",
        760,
        "four-hash-fit",
        112,
        0x5f5e1234,
    ),
    (
        "memory",
        0x5f5e1234,
        "inside",
        760,
        "four-hash-fit",
        112,
        0x5f5e1234,
    ),
    (
        "file",
        0xffffffff,
        "inside",
        760,
        "four-hash-fit",
        112,
        0xffffffff,
    ),
    (
        "memory",
        0xffffffff,
        "inside",
        760,
        "four-hash-fit",
        112,
        0xffffffff,
    ),
    ("file", 0, "after", 800, "external-fit", 0, 0),
    ("memory", 0, "after", 800, "external-fit", 0, 0),
    ("file", 0, "1024", 1028, "position-fit", 0, 0),
    ("memory", 0, "1024", 1028, "position-fit", 0, 0),
];

fn makes(alloc: Global, text: &str, time: u32, placement: &str, wanted: &[u8]) -> bool {
    let (answer, fit) = made(alloc, text, time, placement);
    answer == Ok(()) && fit.as_slice() == wanted
}

#[test]
fn demo_rows(rt: HostRuntime) -> Result<(), Fail> {
    let alloc = rt.alloc();
    for (place, time, placement, size, name, at, number) in &ROWS {
        let text = source(alloc, place)?;
        let wanted = image(alloc, name, *at, *number)?;
        let same = makes(alloc, text.as_str(), *time, placement, &wanted);
        assert!(rt;
            same && wanted.len() == *size,
            "{place}, {time}, {placement}"
        );
    }
    Ok(())
}

// The same payload at an offset in the file, and the lowest such offset: at the end of the blob
// there is no gap, and one before the end is refused.
const POSITION_ROWS: [(&str, &str); 5] = [
    ("1024", "done, 1028"),
    ("796", "done, 800"),
    ("795", "F6 position too low, 0"),
    ("768", "F6 position too low, 0"),
    ("0", "F6 position too low, 0"),
];

#[test]
fn position_rows(rt: HostRuntime) -> Result<(), Fail> {
    let alloc = rt.alloc();
    let text = source(alloc, "memory")?;
    for (placement, wanted) in &POSITION_ROWS {
        let (answer, fit) = made(alloc, text.as_str(), 0, placement);
        is_said(&rt, told(alloc, answer, fit.len()), wanted, placement, 0);
        if *placement == "796" {
            assert!(rt; fit.ends_with(b"abc\0"));
            assert_eq!(rt; fit.get(168..172), Some([0, 0, 3, 0x1c].as_slice()));
        }
    }
    Ok(())
}

// The placement with an alignment, the result, the blob's end by its header, and the offset of the
// payload: mkimage 2023.01 rounds up like this, also for 12 and 20480, which are not powers of two.
const ALIGN_ROWS: [(&str, &str, u32, usize); 14] = [
    ("after by 4", "done, 800", 796, 796),
    ("after by 0", "done, 800", 796, 796),
    ("after by 8", "done, 808", 800, 800),
    ("after by 12", "done, 808", 804, 804),
    ("after by 512", "done, 1536", 1024, 1024),
    ("after by 4096", "done, 8192", 4096, 4096),
    ("after by 20480", "done, 8192", 4096, 4096),
    ("after by 2147483648", "F7 too large, 0", 0, 0),
    ("after by 4294967292", "F7 too large, 0", 0, 0),
    ("1024 by 512", "done, 1536", 1024, 1024),
    ("1025 by 512", "done, 1537", 1024, 1025),
    ("1023 by 512", "F6 position too low, 0", 0, 0),
    ("2048 by 4096", "F6 position too low, 0", 0, 0),
    ("2147483647 by 2147483648", "F6 position too low, 0", 0, 0),
];

// Checks that a blob of 796 bytes has this end in its header, and zeros up to the payload.
fn stands(fit: &[u8], end: u32, at: usize) -> bool {
    let gap = fit.get(796..at).unwrap_or(&[]);
    let rest = fit.get(at..).unwrap_or(&[]);
    fit.get(4..8) == Some(end.to_be_bytes().as_slice())
        && gap.iter().all(|byte| *byte == 0)
        && rest.starts_with(b"abc")
        && rest.iter().skip(3).all(|byte| *byte == 0)
}

#[test]
fn align_rows(rt: HostRuntime) -> Result<(), Fail> {
    let alloc = rt.alloc();
    let text = source(alloc, "memory")?;
    for (placement, wanted, end, at) in &ALIGN_ROWS {
        let (answer, fit) = made(alloc, text.as_str(), 0, placement);
        let answer = told(alloc, answer, fit.len())?;
        assert_eq!(rt; answer.as_str(), *wanted, "{placement}");
        assert!(rt; fit.is_empty() || stands(&fit, *end, *at), "{placement}");
    }
    Ok(())
}

const TWO: &str = "/dts-v1/; / { images {
a { data = /incbin/(\"f\"); };
b { data = [], /incbin/(\"f\"); }; }; };";

// The size in bytes of each of two payloads, the first in a file, and the size with padding: below,
// at and above the window's size. The blob has 200 bytes, and the second `data-offset` is at 140.
const SIZE_ROWS: [(usize, u32); 6] = [
    (0, 0),
    (1, 4),
    (4, 4),
    (8191, 8192),
    (8192, 8192),
    (8193, 8196),
];

fn has_both(fit: &[u8], padded: u32, payload: &[u8]) -> bool {
    let rest = fit.get(200..).unwrap_or(&[]);
    let cell = fit.get(140..).unwrap_or(&[]);
    fit.len() as u64 == 200 + 2 * padded as u64
        && rest.starts_with(payload)
        && rest.ends_with(payload)
        && cell.starts_with(&padded.to_be_bytes())
}

// Builds two payloads of `size` bytes with their padding, the first in a file.
fn plays_size<R: AllocGlobal + Abort>(rt: &R, size: usize, padded: u32) -> Result<(), Fail> {
    let alloc = rt.alloc();
    let mut payload = Vec::from_elem(alloc, 0x5au8, size)?;
    let named: [(&[u8], &[u8]); 1] = [(b"f", &payload)];
    let Ok(tree) = compile(alloc, TWO.as_bytes(), &mut MemFiles::new(&named)) else {
        panic!(rt; "the source is refused");
    };
    let (answer, fit) = built(alloc, &tree, "after", &mut MemFiles::new(&named));
    assert_eq!(rt; answer, Ok(()), "{size}");
    payload.resize(padded as usize, 0)?;
    assert!(rt; has_both(&fit, padded, &payload), "{size}");
    Ok(())
}

#[test]
fn size_rows(rt: HostRuntime) -> Result<(), Fail> {
    for (size, padded) in &SIZE_ROWS {
        plays_size(&rt, *size, *padded)?;
    }
    Ok(())
}

const NONE_AND_TWO: &[u8] = b"/dts-v1/; / { images {
a { };
b { data = [6669727374]; data = [7365636f6e64]; }; }; };";

// An image without `data` is unchanged, and of two `data` only the first is moved.
#[test]
fn images_of_none_and_two(rt: HostRuntime) -> Result<(), Fail> {
    let alloc = rt.alloc();
    let Ok(tree) = compile(alloc, NONE_AND_TWO, &mut MemFiles::new(&ABC)) else {
        panic!(rt; "the source is refused");
    };
    let (answer, fit) = built(alloc, &tree, "after", &mut MemFiles::new(&ABC));
    assert_eq!(rt; answer, Ok(()));
    let end = b"\0\0\0\x01b\0\0\0\
        \0\0\0\x03\0\0\0\x04\0\0\0\0\0\0\0\0\
        \0\0\0\x03\0\0\0\x04\0\0\0\x0c\0\0\0\x05\
        \0\0\0\x03\0\0\0\x06\0\0\0\x16second\0\0\
        \0\0\0\x02\0\0\0\x02\0\0\0\x02\0\0\0\x09\
        data-offset\0data-size\0data\0\0first\0\0\0";
    assert!(rt; fit.ends_with(end));
    Ok(())
}

// A tree with properties in all places that filling replaces or removes, and the filled tree. The
// first property with a name is replaced in place, whatever its value. All but an image's payload
// and a hash node's value is unchanged. The name of an algorithm ends at its NUL.
const STALE: &str = "/dts-v1/; / {
timestamp = \"stale\"; data-size = \"root\"; timestamp = \"second\";
images { a {
data-position = <1>; value = \"kept\"; data-offset = <2>; data-size = <3>;
data = /incbin/(\"abc.bin\");
data-offset = \"twice\"; timestamp = \"image\"; data = \"second\"; data-siz; data-size;
hash { value = \"stale, and longer than a sum\"; algo = \"crc32\"; value = \"second\"; };
signature { algo = \"sha3\"; value = \"v\"; data-size = \"4\"; };
hash@2 { algo = \"md5\", \"more\"; value; x; };
has { x; y; z; }; }; };
images { hash { data-size = \"4\"; value = \"v\"; }; }; };";

const DONE: &str = "/dts-v1/; / {
timestamp = <0x12345678>; data-size = \"root\"; timestamp = \"second\";
images { a {
value = \"kept\";
data = /incbin/(\"abc.bin\");
timestamp = \"image\"; data = \"second\"; data-siz;
hash { value = <0x352441c2>; algo = \"crc32\"; value = \"second\"; };
signature { algo = \"sha3\"; value = \"v\"; data-size = \"4\"; };
hash@2 { algo = \"md5\", \"more\"; value = [900150983cd24fb0d6963f7d28e17f72]; x; };
has { x; y; z; }; }; };
images { hash { data-size = \"4\"; value = \"v\"; }; }; };";

#[test]
fn the_rest_stays(rt: HostRuntime) -> Result<(), Fail> {
    let alloc = rt.alloc();
    let (answer, fit) = made(alloc, STALE, 0x12345678, "inside");
    assert_eq!(rt; answer, Ok(()));
    let Ok(tree) = compile(alloc, DONE.as_bytes(), &mut MemFiles::new(&ABC)) else {
        panic!(rt; "the source is refused");
    };
    let (answer, wanted) = built(alloc, &tree, "inside", &mut MemFiles::new(&ABC));
    assert_eq!(rt; answer, Ok(()));
    assert!(rt; fit.as_slice() == wanted.as_slice());
    Ok(())
}
