//! Failing writers, and what was written before.

use super::super::counted::counted;
use std::alloc::Global;
use uimg_base::{FuseWriter, Out};

// A text in five pieces: the ends of the first four, and of the text. The first is written by one
// call, the others by another. Then how many bytes the writer accepts.
const PUTS: [(&str, usize, usize, usize, usize, usize); 15] = [
    ("short pieces, none is taken", 3, 5, 5, 6, 0),
    ("short pieces, 1 is taken", 3, 5, 5, 6, 1),
    ("short pieces, 2 are taken", 3, 5, 5, 6, 2),
    ("short pieces, 3 are taken", 3, 5, 5, 6, 3),
    ("short pieces, 4 are taken", 3, 5, 5, 6, 4),
    ("short pieces, 5 are taken", 3, 5, 5, 6, 5),
    ("short pieces, 6 are taken", 3, 5, 5, 6, 6),
    ("short pieces, 7 are taken", 3, 5, 5, 6, 7),
    ("long pieces, none is taken", 0, 200, 500, 557, 0),
    ("long pieces, 199 are taken", 0, 200, 500, 557, 199),
    ("long pieces, 200 are taken", 0, 200, 500, 557, 200),
    ("long pieces, 257 are taken", 0, 200, 500, 557, 257),
    ("long pieces, 556 are taken", 0, 200, 500, 557, 556),
    ("long pieces, 557 are taken", 0, 200, 500, 557, 557),
    ("long pieces, 558 are taken", 0, 200, 500, 557, 558),
];

// Checks that a writer accepts its bytes, also in the middle of a write, and then fails.
fn takes(alloc: Global, first: &[u8], rest: &[&[u8]], taken: usize, text: &[u8]) -> bool {
    let mut out = Out::new(FuseWriter::new(Vec::new(alloc), taken as u64));
    let is_first_put = out.put_all(first).is_ok();
    let is_rest_put = out.put_pieces(rest).is_ok();
    let written = out.into_inner().into_inner();
    is_first_put == (taken >= first.len())
        && is_rest_put == (taken >= text.len())
        && Some(written.as_slice()) == text.get(..usize::min(taken, text.len()))
}

fn piece(text: &[u8], from: usize, to: usize) -> &[u8] {
    text.get(from..to).unwrap_or(b"")
}

#[test]
fn pieces_are_one_text(rt: HostRuntime) {
    let bytes = counted();
    for (name, a, b, c, d, taken) in &PUTS {
        let text = piece(&bytes, 0, *d);
        let rest = [
            piece(text, *a, *b),
            b"",
            piece(text, *b, *c),
            piece(text, *c, *d),
        ];
        let same = takes(rt.alloc(), piece(text, 0, *a), &rest, *taken, text);
        assert!(rt; same, "{name}");
    }
}
