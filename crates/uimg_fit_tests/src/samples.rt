//! FIT images. The demos are byte for byte what dtc makes of the same trees.

ghost use Rattle.std.specs.Prelude.{◌<◌, ◌^◌};

use std::alloc::{AllocError, Allocator};
use uimg_blob_reading::samples::Sample;

// The offset of each property's name in the strings block that `finish` gives a sample.
pub const DESCRIPTION: u32 = 0;

pub const TIMESTAMP: u32 = 27;

pub const DATA: u32 = 37;

pub const TYPE: u32 = 42;

pub const ARCH: u32 = 47;

pub const OS: u32 = 52;

pub const COMPRESSION: u32 = 55;

pub const LOAD: u32 = 67;

pub const ENTRY: u32 = 72;

pub const ALGO: u32 = 78;

pub const VALUE: u32 = 83;

pub const DEFAULT: u32 = 89;

pub const KERNEL: u32 = 97;

pub const DATA_OFFSET: u32 = 104;

pub const DATA_SIZE: u32 = 116;

pub const DATA_POSITION: u32 = 126;

pub const RAMDISK: u32 = 140;

pub const FDT: u32 = 148;

pub const LOADABLES: u32 = 152;

/// CRC-32 of `abc`.
pub const ABC_CRC: [u8; 4] = [0x35, 0x24, 0x41, 0xc2];

/// MD5 of `abc`.
pub const ABC_MD5: [u8; 16] = [
    0x90, 0x01, 0x50, 0x98, 0x3c, 0xd2, 0x4f, 0xb0, 0xd6, 0x96, 0x3f, 0x7d, 0x28, 0xe1, 0x7f, 0x72,
];

/// SHA-1 of `abc`.
pub const ABC_SHA1: [u8; 20] = [
    0xa9, 0x99, 0x3e, 0x36, 0x47, 0x06, 0x81, 0x6a, 0xba, 0x3e, 0x25, 0x71, 0x78, 0x50, 0xc2, 0x6c,
    0x9c, 0xd0, 0xd8, 0x9d,
];

/// SHA-256 of `abc`.
pub const ABC_SHA256: [u8; 32] = [
    0xba, 0x78, 0x16, 0xbf, 0x8f, 0x01, 0xcf, 0xea, 0x41, 0x41, 0x40, 0xde, 0x5d, 0xae, 0x22, 0x23,
    0xb0, 0x03, 0x61, 0xa3, 0x96, 0x17, 0x7a, 0x9c, 0xb4, 0x10, 0xff, 0x61, 0xf2, 0x00, 0x15, 0xad,
];

/// SHA-512 of `abc`.
pub const ABC_SHA512: [u8; 64] = [
    0xdd, 0xaf, 0x35, 0xa1, 0x93, 0x61, 0x7a, 0xba, 0xcc, 0x41, 0x73, 0x49, 0xae, 0x20, 0x41, 0x31,
    0x12, 0xe6, 0xfa, 0x4e, 0x89, 0xa9, 0x7e, 0xa2, 0x0a, 0x9e, 0xee, 0xe6, 0x4b, 0x55, 0xd3, 0x9a,
    0x21, 0x92, 0x99, 0x2a, 0x27, 0x4f, 0xc1, 0xa8, 0x36, 0xba, 0x3c, 0x23, 0xa3, 0xfe, 0xeb, 0xbd,
    0x45, 0x4d, 0x44, 0x23, 0x64, 0x3c, 0xe8, 0x0e, 0x2a, 0x9a, 0xc9, 0x4f, 0xa5, 0x4c, 0xa4, 0x9f,
];

/// Where an image has its payload.
#[derive(Clone, Copy)]
pub enum Payload<'a> {
    /// In `data`.
    Inside(&'a [u8]),

    /// After the blob, at an offset and of a length: `data-offset` and `data-size`.
    Offset(u32, u32),

    /// In the file, at an offset and of a length: `data-position` and `data-size`.
    Position(u32, u32),
}

/// Finishes a sample with the strings block that has all these names.
pub fn finish<A: Allocator>(sample: Sample<A>, alloc: A) -> Result<Vec<u8, A>, AllocError> {
    sample.finish(
        alloc,
        b"description\0#address-cells\0timestamp\0data\0type\0arch\0os\0compression\0load\0entry\0\
algo\0value\0default\0kernel\0data-offset\0data-size\0data-position\0ramdisk\0fdt\0loadables\0",
    )
}

/// Begins a sample: the root and its child `images`.
pub fn begin_images<A: Allocator>(alloc: A) -> Result<Sample<A>, AllocError> {
    let mut sample = Sample::new(alloc);
    sample.begin(b"")?;
    sample.begin(b"images")?;
    Ok(sample)
}

fn numbers<A: Allocator>(
    sample: &mut Sample<A>,
    names: [u32; 2],
    first: u32,
    second: u32,
) -> Result<(), AllocError> {
    sample.prop(names[0], &first.to_be_bytes())?;
    sample.prop(names[1], &second.to_be_bytes())
}

/// Adds the payload of an image.
pub fn put_payload<A: Allocator>(
    sample: &mut Sample<A>,
    is: Payload<'_>,
) -> Result<(), AllocError> {
    match is {
        Payload::Inside(data) => sample.prop(DATA, data),
        Payload::Offset(at, size) => numbers(sample, [DATA_OFFSET, DATA_SIZE], at, size),
        Payload::Position(at, size) => numbers(sample, [DATA_POSITION, DATA_SIZE], at, size),
    }
}

/// Adds a hash node.
pub fn put_hash<A: Allocator>(
    sample: &mut Sample<A>,
    name: &[u8],
    algo: &[u8],
    value: &[u8],
) -> Result<(), AllocError> {
    sample.begin(name)?;
    sample.prop(ALGO, algo)?;
    sample.prop(VALUE, value)?;
    sample.end_node()
}

/// Ends `images`, the root and the sample.
pub fn finish_images<A: Allocator>(
    mut sample: Sample<A>,
    alloc: A,
) -> Result<Vec<u8, A>, AllocError> {
    sample.end_node()?;
    sample.end_node()?;
    finish(sample, alloc)
}

/// Returns a FIT image with one image `a` that has a payload, `hashes` right CRC-32 nodes, each
/// named `hash`, and no other property.
pub fn crc_fit<A: Allocator + Copy>(
    alloc: A,
    data: Payload<'_>,
    crc: [u8; 4],
    hashes: u32,
) -> Result<Vec<u8, A>, AllocError> {
    let mut sample = begin_images(alloc)?;
    sample.begin(b"a")?;
    put_payload(&mut sample, data)?;
    for _ in 0..hashes {
        put_hash(&mut sample, b"hash", b"crc32\0", &crc)?;
    }
    sample.end_node()?;
    finish_images(sample, alloc)
}

/// The differences between the images of a kernel.
#[derive(Clone, Copy)]
pub struct Demo<'a> {
    /// Where the payload is.
    pub payload: Payload<'a>,

    /// The value of `load`.
    pub load: &'a [u8],

    /// The value of `entry`.
    pub entry: &'a [u8],

    /// Whether there is a fifth hash node, with SHA-512.
    pub sha512: bool,
}

/// `abc` in `data`, addresses of one cell, four hash nodes.
pub const FOUR_HASHES: Demo<'static> = Demo {
    payload: Payload::Inside(b"abc"),
    load: &[0, 8, 0, 0],
    entry: &[0, 8, 0, 0],
    sha512: false,
};

// Returns the offset of a name that is `shift` bytes further on.
fn after(name: u32, shift: u8) -> u32
    requires { name < 2 ^ 16 }
{
    name + shift as u32
}

// Adds the properties of the kernel. Names after those of its payload are `shift` bytes later.
fn demo_properties<A: Allocator>(
    sample: &mut Sample<A>,
    demo: Demo<'_>,
    shift: u8,
) -> Result<(), AllocError> {
    sample.prop(DESCRIPTION, b"k\0")?;
    match demo.payload {
        Payload::Inside(data) => sample.prop(DATA, data)?,
        Payload::Offset(at, size) => numbers(sample, [DATA, DATA + 12], at, size)?,
        Payload::Position(at, size) => numbers(sample, [DATA, DATA + 14], at, size)?,
    }
    sample.prop(after(TYPE, shift), b"kernel\0")?;
    sample.prop(after(ARCH, shift), b"arm64\0")?;
    sample.prop(after(OS, shift), b"linux\0")?;
    sample.prop(after(COMPRESSION, shift), b"none\0")?;
    sample.prop(after(LOAD, shift), demo.load)?;
    sample.prop(after(ENTRY, shift), demo.entry)
}

fn demo_hashes<A: Allocator>(
    sample: &mut Sample<A>,
    sha512: bool,
    shift: u8,
) -> Result<(), AllocError> {
    let digests: [(&[u8], &[u8], &[u8]); 5] = [
        (b"hash-1", b"crc32\0", &ABC_CRC),
        (b"hash-2", b"md5\0", &ABC_MD5),
        (b"hash-3", b"sha1\0", &ABC_SHA1),
        (b"hash-4", b"sha256\0", &ABC_SHA256),
        (b"hash-5", b"sha512\0", &ABC_SHA512),
    ];
    let count = if sha512 { 5 } else { 4 };
    for (name, algo, value) in &digests[..count] {
        sample.begin(name)?;
        sample.prop(after(ALGO, shift), algo)?;
        sample.prop(after(VALUE, shift), value)?;
        sample.end_node()?;
    }
    Ok(())
}

fn demo_configurations<A: Allocator>(sample: &mut Sample<A>, shift: u8) -> Result<(), AllocError> {
    sample.begin(b"configurations")?;
    sample.prop(after(DEFAULT, shift), b"conf\0")?;
    sample.begin(b"conf")?;
    sample.prop(DESCRIPTION, b"c\0")?;
    sample.prop(after(KERNEL, shift), b"kernel\0")?;
    sample.end_node()?;
    sample.end_node()
}

// Returns the names of the payload's properties, and how far they shift the names after them.
fn payload_names(payload: Payload<'_>) -> (&'static [u8], u8) {
    match payload {
        Payload::Inside(_) => (b"data\0", 0),
        Payload::Offset(_, _) => (b"data-offset\0data-size\0", 17),
        Payload::Position(_, _) => (b"data-position\0data-size\0", 19),
    }
}

/// Returns the FIT image `demo` with an image `kernel` and a configuration, as dtc and mkimage do.
pub fn demo_fit<A: Allocator + Copy>(alloc: A, demo: Demo<'_>) -> Result<Vec<u8, A>, AllocError> {
    let (names, shift) = payload_names(demo.payload);
    let mut sample = Sample::new(alloc);
    sample.begin(b"")?;
    sample.prop(DESCRIPTION, b"demo\0")?;
    sample.prop(12, &[0, 0, 0, 1])?;
    sample.prop(TIMESTAMP, &[0; 4])?;
    sample.begin(b"images")?;
    sample.begin(b"kernel")?;
    demo_properties(&mut sample, demo, shift)?;
    demo_hashes(&mut sample, demo.sha512, shift)?;
    sample.end_node()?;
    sample.end_node()?;
    demo_configurations(&mut sample, shift)?;
    sample.end_node()?;
    let mut strings = Vec::from_slice(alloc, b"description\0#address-cells\0timestamp\0")?;
    strings.extend_from_slice(names)?;
    strings.extend_from_slice(
        b"type\0arch\0os\0compression\0load\0entry\0algo\0value\0default\0kernel\0",
    )?;
    sample.finish(alloc, &strings)
}

/// Returns the demo with `abc` in `data` and four hash nodes: 760 bytes, `abc` at 168.
pub fn four_hash_fit<A: Allocator + Copy>(alloc: A) -> Result<Vec<u8, A>, AllocError> {
    demo_fit(alloc, FOUR_HASHES)
}

/// Returns the same with a fifth hash node, with SHA-512: 872 bytes.
pub fn five_hash_fit<A: Allocator + Copy>(alloc: A) -> Result<Vec<u8, A>, AllocError> {
    demo_fit(
        alloc,
        Demo {
            sha512: true,
            ..FOUR_HASHES
        },
    )
}

/// Returns the first, `abc` after the blob: 800 bytes, `data-offset` at 168, `data-size` at 184.
pub fn external_fit<A: Allocator + Copy>(alloc: A) -> Result<Vec<u8, A>, AllocError> {
    let mut fit = demo_fit(
        alloc,
        Demo {
            payload: Payload::Offset(0, 3),
            ..FOUR_HASHES
        },
    )?;
    fit.extend_from_slice(b"abc\0")?;
    Ok(fit)
}

/// Returns the same with `abc` at offset 1024: 1028 bytes.
pub fn position_fit<A: Allocator + Copy>(alloc: A) -> Result<Vec<u8, A>, AllocError> {
    let mut fit = demo_fit(
        alloc,
        Demo {
            payload: Payload::Position(1024, 3),
            ..FOUR_HASHES
        },
    )?;
    fit.extend_from_slice(&[0; 228])?;
    fit.extend_from_slice(b"abc\0")?;
    Ok(fit)
}

/// Sets a number in an image, if the offset is inside it.
pub fn set_cell(image: &mut [u8], at: usize, number: u32) {
    if let Some(rest) = image.get_mut(at..)
        && rest.len() >= 4
    {
        rest[..4].copy_from_slice(&number.to_be_bytes());
    }
}
