//! Named images with edits.
use crate::samples::legacy::{
    ABC_KERNEL, NO_TABLE_END, PART_OUTSIDE, SIZE_TOO_LARGE, THREE_PART_MULTI,
};

/// The most bytes of an image here.
pub(super) const PLACE: usize = 128;

fn sample(name: &str) -> &'static [u8] {
    match name {
        "abc-kernel" => &ABC_KERNEL,
        "size-too-large" => &SIZE_TOO_LARGE,
        "three-part-multi" => &THREE_PART_MULTI,
        "part-outside" => &PART_OUTSIDE,
        "no-table-end" => &NO_TABLE_END,
        _ => b"",
    }
}

/// Makes the image of a description and returns its length. A description is a sample's name and
/// edits: `32=31` sets the byte at offset 32 to 31 (hexadecimal), `to=63` cuts to 63 bytes.
pub(super) fn make(description: &str, to: &mut [u8; PLACE]) -> usize {
    let (name, edits) = description.split_once(' ').unwrap_or((description, ""));
    let bytes = sample(name);
    let mut length = usize::min(bytes.len(), PLACE);
    to[..length].copy_from_slice(&bytes[..length]);
    for edit in edits.split_whitespace() {
        length = edited(edit, length, to);
    }
    length
}

fn edited(edit: &str, length: usize, to: &mut [u8; PLACE]) -> usize {
    let (place, value) = edit.split_once('=').unwrap_or((edit, ""));
    if place == "to" {
        return usize::min(length, value.parse().unwrap_or(0));
    }
    if let Some(byte) = to.get_mut(place.parse().unwrap_or(PLACE)) {
        *byte = u8::from_str_radix(value, 16).unwrap_or(0);
    }
    length
}
