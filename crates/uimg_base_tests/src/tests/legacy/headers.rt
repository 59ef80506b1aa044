//! Headers, read and written.

use crate::samples::legacy::ABC_KERNEL;
use uimg_base::MemSource;
use uimg_legacy::{Header, header_bytes, name_field, read_header};

const HEADER: Header = Header {
    time: 1_700_000_000,
    size: 3,
    load: 0x80000,
    ep: 0x80000,
    dcrc: 0x352441c2,
    os: 5,
    arch: 22,
    kind: 2,
    comp: 0,
    name: *b"01234567890123456789012345678901",
};

// A name, and what of it is in a header's field of 32 bytes, which zeros pad.
const NAMES: [(&str, &str); 5] = [
    ("", ""),
    ("abc", "abc"),
    (
        "0123456789012345678901234567890",
        "0123456789012345678901234567890",
    ),
    (
        "01234567890123456789012345678901",
        "01234567890123456789012345678901",
    ),
    (
        "0123456789012345678901234567890123456789",
        "01234567890123456789012345678901",
    ),
];

#[test]
fn a_header_is_read_and_written(rt: HostRuntime) {
    let mut source = MemSource::new(&ABC_KERNEL);
    assert_eq!(rt; read_header(&mut source), Ok(HEADER));
    assert!(rt; header_bytes(&HEADER).as_slice() == &ABC_KERNEL[..64]);
}

fn is_field_of(name: &str, text: &str) -> bool {
    let field = name_field(name.as_bytes());
    let (front, rest) = field.split_at(usize::min(text.len(), 32));
    let mut same = *front == *text.as_bytes();
    for byte in rest {
        same = same && *byte == 0;
    }
    same
}

#[test]
fn names_are_cut_and_padded(rt: HostRuntime) {
    for (name, text) in &NAMES {
        assert!(rt; is_field_of(name, text), "{name}");
    }
}
