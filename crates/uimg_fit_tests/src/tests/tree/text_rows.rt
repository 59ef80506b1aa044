//! Results of `put_text` and `short_text`.
ghost use Rattle.std.specs.Prelude.{◌+◌, ◌≤◌, length};

use super::bytes::unhex;
use super::made::made;
use std::alloc::{AllocError, Global};
use std::test::Fail;
use uimg_base::{
    FuseSource, FuseWriter, MemSource, MoveFault, Out, Room, Source, SourceFault, Span,
};
use uimg_blob_reading::{put_text, short_text};

fn written(alloc: Global, bytes: &[u8], at: Span) -> Option<Vec<u8>>
    requires { at.place + at.length ≤ length bytes.now }
{
    let mut source = MemSource::new(bytes);
    let mut room = Room::new(alloc);
    let mut out = Out::new(Vec::new(alloc));
    let put = put_text(&mut source, &mut room, at, &mut out);
    let asked = source.asked();
    if put.is_ok() && asked <= at.length as u128 {
        Some(out.into_inner())
    } else {
        None
    }
}

// Returns a short text's length, 32 for a longer text, and 99 if it is not the one written.
fn short(bytes: &[u8], at: Span, text: &[u8]) -> usize
    requires { at.place + at.length ≤ length bytes.now }
{
    let mut source = MemSource::new(bytes);
    let mut to = [7; 32];
    match short_text(&mut source, at, &mut to) {
        Ok(Some(length)) if to.starts_with(text) && source.asked() <= 32 => length,
        Ok(None) if source.asked() <= 32 => 32,
        _ => 99,
    }
}

// An offset and a length in the blob of the case mixed-values, and the text there: the value of `v`
// is `a`, a NUL and more; 24 bytes from the reservation block on begin with a NUL; the magic number
// has none.
const MIXED_ROWS: [(u64, u64, &str); 5] = [
    (76, 12, "61"),
    (76, 1, "61"),
    (76, 0, ""),
    (40, 24, ""),
    (0, 4, "d00dfeed"),
];

fn is_text(alloc: Global, bytes: &[u8], place: u64, length: u64, wanted: &[u8]) -> bool {
    if place > 100 || length > 100 || (bytes.len() as u64) < place + length {
        return false;
    }
    let at = Span { place, length };
    match written(alloc, bytes, at) {
        Some(text) => { text.as_slice() == wanted && short(bytes, at, wanted) == wanted.len() }
        None => false,
    }
}

#[test]
fn texts_of_mixed_values(rt: HostRuntime) -> Result<(), Fail> {
    let alloc = rt.alloc();
    let bytes = made(alloc, "mixed")?;
    for (place, length, text) in &MIXED_ROWS {
        let wanted = unhex(alloc, text)?;
        assert!(rt;
            is_text(alloc, &bytes, *place, *length, &wanted),
            "at {place}"
        );
    }
    Ok(())
}

// The number of letters, the index of a NUL among them, the length of the value that they begin,
// and the lengths of its text and of the short text, 32 for none: a text of 31 bytes is short, one
// of 32 is not, whatever follows it.
const LONG_ROWS: [(usize, usize, u64, usize, usize); 12] = [
    (20000, 8191, 20000, 8191, 32),
    (20000, 8192, 20000, 8192, 32),
    (20000, 8193, 20000, 8193, 32),
    (20000, 16384, 20000, 16384, 32),
    (20000, 19999, 20000, 19999, 32),
    (20000, 20000, 20000, 20000, 32),
    (40, 31, 31, 31, 31),
    (40, 31, 40, 31, 31),
    (40, 32, 32, 32, 32),
    (40, 32, 33, 32, 32),
    (40, 40, 40, 40, 32),
    (40, 5, 40, 5, 5),
];

// Returns `count` letters, with a NUL in place of one.
fn letters(alloc: Global, count: usize, end: usize) -> Result<Vec<u8>, AllocError> {
    let mut bytes = Vec::from_elem(alloc, b'x', count)?;
    if let Some(last) = bytes.as_mut_slice().get_mut(end) {
        *last = 0;
    }
    Ok(bytes)
}

fn lengths_of(alloc: Global, bytes: &[u8], at: Span) -> Option<(usize, usize)>
    requires { at.place + at.length ≤ length bytes.now }
{
    match written(alloc, bytes, at) {
        Some(text) => Some((text.len(), short(bytes, at, b""))),
        None => None,
    }
}

#[test]
fn texts_of_letters(rt: HostRuntime) -> Result<(), Fail> {
    let alloc = rt.alloc();
    for (count, end, length, text, wanted) in &LONG_ROWS {
        let bytes = letters(alloc, *count, *end)?;
        let at = Span {
            place: 0,
            length: *length,
        };
        assert!(rt; bytes.len() as u64 >= *length);
        let lengths = lengths_of(alloc, &bytes, at);
        assert!(rt; lengths == Some((*text, *wanted)), "{end} of {length}");
    }
    Ok(())
}

const ALL: Span = Span {
    place: 0,
    length: 112,
};

// Writes a text of 112 bytes. `takes` of them are accepted. Returns the result and the count.
fn put_to(alloc: Global, bytes: &[u8; 112], takes: u64) -> (Result<(), MoveFault>, usize) {
    let mut room = Room::new(alloc);
    let mut out = Out::new(FuseWriter::new(Vec::new(alloc), takes));
    let put = put_text(&mut MemSource::new(bytes), &mut room, ALL, &mut out);
    (put, out.into_inner().into_inner().len())
}

// A write that accepts some bytes and then fails leaves a prefix of the text.
#[test]
fn writes_of_a_text_fail(rt: HostRuntime) {
    let alloc = rt.alloc();
    let bytes = [b'x'; 112];
    for takes in 0..113u64 {
        let wanted = if takes < 112 {
            Err(MoveFault::Put)
        } else {
            Ok(())
        };
        let left = put_to(alloc, &bytes, takes);
        assert!(rt; left == (wanted, takes as usize), "{takes} are taken");
    }
}

// A failed read is reported.
#[test]
fn reads_of_a_text_fail(rt: HostRuntime) {
    let bytes = [b'x'; 112];
    let mut source = FuseSource::new(MemSource::new(&bytes), 0);
    let mut room = Room::new(rt.alloc());
    let mut out = Out::new(Vec::new(rt.alloc()));
    let put = put_text(&mut source, &mut room, ALL, &mut out);
    assert!(rt; put == Err(MoveFault::Read) && source.failures() == 1);
    let read = short_text(&mut source, ALL, &mut [0; 32]);
    assert!(rt; read == Err(SourceFault) && source.failures() == 2);
}
