//! Images by name.
use super::samples::{SHARED_NAMES, SHARED_PAYLOAD, THOUSAND_DEEP, sample};
use std::alloc::Global;
use uimg_base_tests::samples::legacy::{ABC_KERNEL, PART_OUTSIDE, THREE_PART_MULTI};
use uimg_fit_tests::samples::{
    Payload, crc_fit, external_fit, five_hash_fit, four_hash_fit, position_fit, set_cell,
};

const ZEROS: [u8; 20000] = [0; 20000];

// The CRC-32 of 20000 zeros.
const ZEROS_CRC: [u8; 4] = [0x97, 0x2f, 0x53, 0x02];

// The CRC-32 of 8192 zeros.
const WINDOW_CRC: [u8; 4] = [0xd8, 0xf4, 0x99, 0x94];

// No bytes for an unknown name.
fn legacy_named(name: &str) -> &'static [u8] {
    match name {
        "abc-kernel" => &ABC_KERNEL,
        "three-part-multi" => &THREE_PART_MULTI,
        "part-outside" => &PART_OUTSIDE,
        _ => &[],
    }
}

// Returns a FIT image of `length` zeros, with `hashes` CRC-32 nodes of this value.
fn zeros(alloc: Global, length: usize, crc: [u8; 4], hashes: u32) -> Option<Vec<u8>> {
    let data = ZEROS.get(..length).unwrap_or(&[]);
    match crc_fit(alloc, Payload::Inside(data), crc, hashes) {
        Ok(image) => Some(image),
        Err(_) => None,
    }
}

fn fit_named(alloc: Global, name: &str) -> Option<Vec<u8>> {
    match name {
        "four-hash-fit" => four_hash_fit(alloc).ok(),
        "five-hash-fit" => five_hash_fit(alloc).ok(),
        "external-fit" => external_fit(alloc).ok(),
        "position-fit" => position_fit(alloc).ok(),
        "eight-crc-nodes" => zeros(alloc, 20000, ZEROS_CRC, 8),
        "nine-crc-nodes" => zeros(alloc, 20000, ZEROS_CRC, 9),
        "seventeen-crc-nodes" => zeros(alloc, 20000, ZEROS_CRC, 17),
        "last-window" => zeros(alloc, 8192, WINDOW_CRC, 1),
        "last-short-window" => zeros(alloc, 8193, WINDOW_CRC, 1),
        "20000-bytes" => zeros(alloc, 20000, ZEROS_CRC, 0),
        "no-images" => sample(alloc, "( )", ""),
        "thousand-deep" => sample(alloc, THOUSAND_DEEP, ""),
        "shared-payload" => sample(alloc, SHARED_PAYLOAD, "abc"),
        "shared-property-name" => sample(alloc, SHARED_NAMES, ""),
        _ => None,
    }
}

/// Returns the bytes of an image, none for an unknown name. After the name come cells to change in
/// it, as `168=ffffffff`.
pub(super) fn image_named(alloc: Global, text: &str) -> Vec<u8> {
    let mut words = text.split(' ');
    let name = words.next().unwrap_or("");
    let mut image = match fit_named(alloc, name) {
        Some(image) => image,
        None => Vec::from_slice(alloc, legacy_named(name)).unwrap_or(Vec::new(alloc)),
    };
    for word in words {
        if let Some((at, cell)) = word.split_once('=') {
            let number = u32::from_str_radix(cell, 16).unwrap_or(0);
            set_cell(&mut image, at.parse().unwrap_or(0), number);
        }
    }
    image
}
