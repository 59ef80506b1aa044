//! Blobs: those that rows name, those that rows spell, and edits of both.
use super::bytes::{plain, unhex};
use std::alloc::{AllocError, Global};
use uimg_blob_reading::samples::Sample;

// dtc's output for `/ { lab: v = "a", <1 0x2>, [00 ff]; e; };`.
const MIXED: &str = "
d00dfeed 00000070 00000038 0000006c 00000028 00000011 00000010 00000000
00000004 00000034 00000000 00000000 00000000 00000000 00000001 00000000
00000003 0000000c 00000000 61000000 00010000 000200ff 00000003 00000000
00000002 00000002 00000009 76006500";

// A root with a child `a`, followed by a property `data` of the root.
const LATE: &str = "
d00dfeed 00000065 00000038 00000060 00000028 00000011 00000010 00000000
00000005 00000028 00000000 00000000 00000000 00000000 00000001 00000000
00000001 61000000 00000002 00000003 00000000 00000000 00000002 00000009
64617461 00";

// dtc's output for an image with four hashes and a configuration: the case four-hash-fit.
const DEMO: &str = "
d00dfeed 000002f8 00000038 00000290 00000028 00000011 00000010 00000000
00000068 00000258 00000000 00000000 00000000 00000000 00000001 00000000
00000003 00000005 00000000 64656d6f 00000000 00000003 00000004 0000000c
00000001 00000003 00000004 0000001b 00000000 00000001 696d6167 65730000
00000001 6b65726e 656c0000 00000003 00000002 00000000 6b000000 00000003
00000003 00000025 61626300 00000003 00000007 0000002a 6b65726e 656c0000
00000003 00000006 0000002f 61726d36 34000000 00000003 00000006 00000034
6c696e75 78000000 00000003 00000005 00000037 6e6f6e65 00000000 00000003
00000004 00000043 00080000 00000003 00000004 00000048 00080000 00000001
68617368 2d310000 00000003 00000006 0000004e 63726333 32000000 00000003
00000004 00000053 352441c2 00000002 00000001 68617368 2d320000 00000003
00000004 0000004e 6d643500 00000003 00000010 00000053 90015098 3cd24fb0
d6963f7d 28e17f72 00000002 00000001 68617368 2d330000 00000003 00000005
0000004e 73686131 00000000 00000003 00000014 00000053 a9993e36 4706816a
ba3e2571 7850c26c 9cd0d89d 00000002 00000001 68617368 2d340000 00000003
00000007 0000004e 73686132 35360000 00000003 00000020 00000053 ba7816bf
8f01cfea 414140de 5dae2223 b00361a3 96177a9c b410ff61 f20015ad 00000002
00000002 00000002 00000001 636f6e66 69677572 6174696f 6e730000 00000003
00000005 00000059 636f6e66 00000000 00000001 636f6e66 00000000 00000003
00000002 00000000 63000000 00000003 00000007 00000061 6b65726e 656c0000
00000002 00000002 00000002 00000009 64657363 72697074 696f6e00 23616464
72657373 2d63656c 6c730074 696d6573 74616d70 00646174 61007479 70650061
72636800 6f730063 6f6d7072 65737369 6f6e006c 6f616400 656e7472 7900616c
676f0076 616c7565 00646566 61756c74 006b6572 6e656c00";

// dtc's output for the source of four-hash-fit, without what filling adds.
const PLAIN: &str = "
d00dfeed 00000260 00000038 00000208 00000028 00000011 00000010 00000000
00000058 000001d0 00000000 00000000 00000000 00000000 00000001 00000000
00000003 00000005 00000000 64656d6f 00000000 00000003 00000004 0000000c
00000001 00000001 696d6167 65730000 00000001 6b65726e 656c0000 00000003
00000002 00000000 6b000000 00000003 00000003 0000001b 61626300 00000003
00000007 00000020 6b65726e 656c0000 00000003 00000006 00000025 61726d36
34000000 00000003 00000006 0000002a 6c696e75 78000000 00000003 00000005
0000002d 6e6f6e65 00000000 00000003 00000004 00000039 00080000 00000003
00000004 0000003e 00080000 00000001 68617368 2d310000 00000003 00000006
00000044 63726333 32000000 00000002 00000001 68617368 2d320000 00000003
00000004 00000044 6d643500 00000002 00000001 68617368 2d330000 00000003
00000005 00000044 73686131 00000000 00000002 00000001 68617368 2d340000
00000003 00000007 00000044 73686132 35360000 00000002 00000002 00000002
00000001 636f6e66 69677572 6174696f 6e730000 00000003 00000005 00000049
636f6e66 00000000 00000001 636f6e66 00000000 00000003 00000002 00000000
63000000 00000003 00000007 00000051 6b65726e 656c0000 00000002 00000002
00000002 00000009 64657363 72697074 696f6e00 23616464 72657373 2d63656c
6c730064 61746100 74797065 00617263 68006f73 00636f6d 70726573 73696f6e
006c6f61 6400656e 74727900 616c676f 00646566 61756c74 006b6572 6e656c00";

const DIGITS: [&str; 10] = ["0", "1", "2", "3", "4", "5", "6", "7", "8", "9"];

// The properties to which FIT gives a meaning, but for those of signatures only, and their names:
// `ALL` and `KEYS` in a script.
const ALL: [u32; 24] = [
    0, 12, 22, 27, 32, 37, 40, 52, 57, 63, 73, 85, 99, 104, 110, 118, 125, 133, 137, 147, 156, 161,
    167, 178,
];

const KEYS: &str =
    "description;timestamp;data;type;arch;os;compression;load;entry;data-size;data-offset;data-position;algo;value;default;kernel;ramdisk;fdt;loadables;firmware;fpga;setup;standalone;script;";

/// Returns a number of one digit, `?` for a greater one, and `-` for none.
pub(super) fn shown(number: Option<usize>) -> &'static str {
    match number {
        Some(number) => DIGITS.get(number).unwrap_or(&"?"),
        None => "-",
    }
}

// Adds a property for each offset.
fn put_keys(sample: &mut Sample<Global>) -> Result<(), AllocError> {
    for offset in ALL {
        sample.prop(offset, b"x")?;
    }
    Ok(())
}

fn begin(alloc: Global, sample: &mut Sample<Global>, name: &str) -> Result<(), AllocError> {
    let name = plain(alloc, name)?;
    sample.begin(&name)
}

fn put_node(alloc: Global, sample: &mut Sample<Global>, name: &str) -> Result<(), AllocError> {
    begin(alloc, sample, name)?;
    sample.end_node()
}

fn put_prop(
    sample: &mut Sample<Global>,
    offset: &str,
    value: Result<Vec<u8>, AllocError>,
) -> Result<(), AllocError> {
    match value {
        Ok(value) => sample.prop(offset.parse().unwrap_or(0), &value),
        Err(fault) => Err(fault),
    }
}

// Executes a word of a script: `+NAME` begins a node and `-` ends one, `|NAME` is a node without
// children, `.` is a NOP, `OFFSET=VALUE` and `OFFSET:HEX` are properties, and `#HEX` is a word.
fn put_word(alloc: Global, sample: &mut Sample<Global>, word: &str) -> Result<(), AllocError> {
    if let Some(name) = word.strip_prefix('+') {
        begin(alloc, sample, name)
    } else if let Some(name) = word.strip_prefix('|') {
        put_node(alloc, sample, name)
    } else if let Some(digits) = word.strip_prefix('#') {
        sample.word(u32::from_str_radix(digits, 16).unwrap_or(0))
    } else if let Some((offset, value)) = word.split_once('=') {
        put_prop(sample, offset, plain(alloc, value))
    } else if let Some((offset, value)) = word.split_once(':') {
        put_prop(sample, offset, unhex(alloc, value))
    } else {
        match word {
            "." => sample.nop(),
            "ALL" => put_keys(sample),
            _ => sample.end_node(),
        }
    }
}

// Returns how often a word is repeated, and the word: `1000*+` is `+` a thousand times.
fn counted(word: &str) -> (u32, &str) {
    match word.split_once('*') {
        Some((count, word)) => (count.parse().unwrap_or(0), word),
        None => (1, word),
    }
}

// Commas separate the words.
fn put_words(alloc: Global, sample: &mut Sample<Global>, words: &str) -> Result<(), AllocError> {
    for word in words.split(',') {
        let (count, word) = counted(word);
        for _ in 0..count {
            put_word(alloc, sample, word)?;
        }
    }
    Ok(())
}

// Returns the blob of a script: words separated by commas, and after a `/` the strings block.
fn scripted(alloc: Global, script: &str) -> Result<Vec<u8>, AllocError> {
    let (words, strings) = script.split_once('/').unwrap_or((script, ""));
    let strings = plain(alloc, if strings == "KEYS" { KEYS } else { strings })?;
    let mut sample = Sample::new(alloc);
    match put_words(alloc, &mut sample, words) {
        Ok(()) => sample.finish(alloc, &strings),
        Err(fault) => Err(fault),
    }
}

fn put_bytes(blob: &mut [u8], at: usize, bytes: &[u8]) {
    if let Some(rest) = blob.get_mut(at..)
        && rest.len() >= bytes.len()
    {
        rest[..bytes.len()].copy_from_slice(bytes);
    }
}

// Applies an edit: `AT=HEX` sets bytes at an offset, `<LENGTH` cuts, and `>TEXT` appends text.
fn edit(alloc: Global, blob: &mut Vec<u8>, word: &str) -> Result<(), AllocError> {
    if let Some(length) = word.strip_prefix('<') {
        blob.truncate(length.parse().unwrap_or(0));
        Ok(())
    } else if let Some(text) = word.strip_prefix('>') {
        blob.extend_from_slice(text.as_bytes())
    } else if let Some((at, digits)) = word.split_once('=') {
        let bytes = unhex(alloc, digits)?;
        put_bytes(blob, at.parse().unwrap_or(0), &bytes);
        Ok(())
    } else {
        Ok(())
    }
}

// Returns the blob with a name, of hexadecimal digits, or of a script.
fn base(alloc: Global, text: &str) -> Result<Vec<u8>, AllocError> {
    match text {
        "mixed" => unhex(alloc, MIXED),
        "late" => unhex(alloc, LATE),
        "demo" => unhex(alloc, DEMO),
        "plain" => unhex(alloc, PLAIN),
        _ => match text.strip_prefix("hex:") {
            Some(digits) => unhex(alloc, digits),
            None => scripted(alloc, text),
        },
    }
}

/// Returns the blob of a row: a base, and edits of it separated by spaces.
pub(super) fn made(alloc: Global, text: &str) -> Result<Vec<u8>, AllocError> {
    let (first, edits) = text.split_once(' ').unwrap_or((text, ""));
    let mut blob = base(alloc, first)?;
    for word in edits.split(' ') {
        edit(alloc, &mut blob, word)?;
    }
    Ok(blob)
}
