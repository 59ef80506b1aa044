//! The images that rows name.
use crate::samples::{
    ABC_CRC, ALGO, DATA, DATA_OFFSET, DATA_POSITION, DATA_SIZE, DEFAULT, DESCRIPTION, Demo, FDT,
    FOUR_HASHES, LOADABLES, OS, Payload, RAMDISK, TYPE, begin_images, crc_fit, demo_fit,
    external_fit, finish, finish_images, five_hash_fit, four_hash_fit, position_fit, put_hash,
    put_payload, set_cell,
};
use std::alloc::{AllocError, Global};
use uimg_blob_reading::samples::Sample;

// Returns the demo with addresses of two cells; `short` gives the second three bytes.
fn two_cells(alloc: Global, short: bool) -> Result<Vec<u8>, AllocError> {
    let entry: &[u8] = if short {
        &[0, 8, 0]
    } else {
        &[0, 0, 0, 0, 0, 8, 0, 0]
    };
    let load: &[u8] = &[0, 0, 0, 1, 0x80, 0, 0, 0];
    demo_fit(
        alloc,
        Demo {
            load,
            entry,
            ..FOUR_HASHES
        },
    )
}

// Missing properties, an unknown type, and lists: one with an empty text and a text without a NUL,
// and one without a text.
fn lists(alloc: Global) -> Result<Vec<u8>, AllocError> {
    let mut sample = begin_images(alloc)?;
    sample.begin(b"a")?;
    sample.prop(TYPE, b"a name that has more than 31 bytes\0")?;
    sample.prop(OS, b"arm-trusted-firmware\0")?;
    sample.end_node()?;
    sample.end_node()?;
    sample.begin(b"configurations")?;
    sample.prop(DEFAULT, b"both\0hidden")?;
    sample.begin(b"b")?;
    sample.prop(LOADABLES, b"")?;
    sample.prop(RAMDISK, b"r")?;
    sample.prop(FDT, b"one\0\0two")?;
    sample.end_node()?;
    sample.end_node()?;
    sample.end_node()?;
    finish(sample, alloc)
}

// A root with only a description.
fn bare(alloc: Global) -> Result<Vec<u8>, AllocError> {
    let mut sample = Sample::new(alloc);
    sample.begin(b"")?;
    sample.prop(DESCRIPTION, b"none\0")?;
    sample.end_node()?;
    finish(sample, alloc)
}

fn put_words(sample: &mut Sample<Global>) -> Result<(), AllocError> {
    sample.begin(b"hash-1")?;
    sample.end_node()?;
    sample.begin(b"hash-2")?;
    sample.prop(ALGO, b"crc32\0")?;
    sample.end_node()?;
    put_hash(sample, b"hash-3", b"sha3\0", &ABC_CRC)?;
    let long = b"crc32 and more than 31 bytes of a name\0";
    put_hash(sample, b"hash-4", long, &ABC_CRC)?;
    put_hash(sample, b"hash-5", b"crc32\0", &ABC_CRC[..3])?;
    put_hash(sample, b"hash-6", b"crc32\0", &[0; 4])?;
    put_hash(sample, b"hash", b"crc32", &ABC_CRC)
}

// An image `a` with `abc` and these hash nodes, and an image `b` without any.
fn words(alloc: Global) -> Result<Vec<u8>, AllocError> {
    let mut sample = begin_images(alloc)?;
    sample.begin(b"a")?;
    put_payload(&mut sample, Payload::Inside(b"abc"))?;
    put_words(&mut sample)?;
    sample.end_node()?;
    sample.begin(b"b")?;
    put_payload(&mut sample, Payload::Inside(b""))?;
    sample.end_node()?;
    finish_images(sample, alloc)
}

// An image whose payload the letters of a word describe: `s` a `data-size` of 4, `p` a
// `data-position` of 0, `o` a `data-offset` of 4, `d` the bytes `xyz` in `data`. Eight letters
// follow the blob.
fn placed(alloc: Global, word: &str) -> Result<Vec<u8>, AllocError> {
    let mut sample = begin_images(alloc)?;
    sample.begin(b"a")?;
    for letter in word.bytes() {
        match letter {
            b's' => sample.prop(DATA_SIZE, &[0, 0, 0, 4])?,
            b'p' => sample.prop(DATA_POSITION, &[0; 4])?,
            b'o' => sample.prop(DATA_OFFSET, &[0, 0, 0, 4])?,
            _ => sample.prop(DATA, b"xyz")?,
        }
    }
    sample.end_node()?;
    let mut fit = finish_images(sample, alloc)?;
    fit.extend_from_slice(b"abcdefgh")?;
    Ok(fit)
}

// Returns the image with this name; any other word describes a payload.
fn named(alloc: Global, name: &str) -> Result<Vec<u8>, AllocError> {
    match name {
        "four-hash-fit" => four_hash_fit(alloc),
        "five-hash-fit" => five_hash_fit(alloc),
        "external-fit" => external_fit(alloc),
        "position-fit" => position_fit(alloc),
        "two-cells" => two_cells(alloc, false),
        "short-cells" => two_cells(alloc, true),
        "lists" => lists(alloc),
        "bare" => bare(alloc),
        "words" => words(alloc),
        "short" => Vec::from_slice(alloc, b"short"),
        _ => placed(alloc, name),
    }
}

/// Returns the image with this name, with a cell set at an offset other than 0.
pub(super) fn image(
    alloc: Global,
    name: &str,
    at: usize,
    number: u32,
) -> Result<Vec<u8>, AllocError> {
    let mut fit = named(alloc, name)?;
    if at > 0 {
        set_cell(fit.as_mut_slice(), at, number);
    }
    Ok(fit)
}

pub(super) fn hashed(alloc: Global, count: u32) -> Result<Vec<u8>, AllocError> {
    crc_fit(alloc, Payload::Inside(b"abc"), ABC_CRC, count)
}
