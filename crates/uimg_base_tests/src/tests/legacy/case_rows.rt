//! Commands on images, and their results.
use crate::samples::listings::{ABC_LISTING, THREE_PART_LISTING};

const EMPTY_LISTING: &str = "Image Name:   01234567890123456789012345678901
Created:      Tue Nov 14 22:13:20 2023
Image Type:   AArch64 Linux Kernel Image (uncompressed)
Data Size:    0 Bytes = 0.00 KiB = 0.00 MiB
Load Address: 00080000
Entry Point:  00080000
";

const OUTSIDE_LISTING: &str = "Image Name:   
Created:      Thu Jan  1 00:00:00 1970
Image Type:   PowerPC Linux Multi-File Image (gzip compressed)
Data Size:    17 Bytes = 0.02 KiB = 0.00 MiB
Load Address: 00000000
Entry Point:  00000000
Contents:
   Image 0: 3 Bytes = 0.00 KiB = 0.00 MiB
";

const NO_END_LISTING: &str = "Image Name:   
Created:      Thu Jan  1 00:00:00 1970
Image Type:   PowerPC Linux Multi-File Image (gzip compressed)
Data Size:    4 Bytes = 0.00 KiB = 0.00 MiB
Load Address: 00000000
Entry Point:  00000000
";

/// The name, the image, the command, how it ends, what is written, and the most bytes requested.
pub(super) const CASES: [(&str, &str, &str, &str, &str, u64); 43] = [
    ("abc-kernel", "abc-kernel", "list", "done", ABC_LISTING, 83),
    (
        "abc-kernel",
        "abc-kernel",
        "list by all names",
        "done",
        ABC_LISTING,
        83,
    ),
    (
        "abc-kernel",
        "abc-kernel",
        "verify",
        "done",
        "header crc32 ok\ndata crc32 ok\n",
        83,
    ),
    ("abc-kernel", "abc-kernel", "extract 0", "done", "abc", 86),
    (
        "short-file",
        "abc-kernel to=63",
        "list",
        "L1 too short",
        "",
        0,
    ),
    (
        "short-file",
        "abc-kernel to=63",
        "verify",
        "L1 too short",
        "",
        0,
    ),
    (
        "short-file",
        "abc-kernel to=63",
        "extract 0",
        "L1 too short",
        "",
        0,
    ),
    ("no byte", "abc-kernel to=0", "list", "L1 too short", "", 0),
    (
        "changed-name",
        "abc-kernel 32=31",
        "list",
        "L3 bad header CRC",
        "",
        64,
    ),
    (
        "changed-name",
        "abc-kernel 32=31",
        "extract 0",
        "L3 bad header CRC",
        "",
        64,
    ),
    (
        "changed-name",
        "abc-kernel 32=31",
        "verify",
        "not right",
        "header crc32 bad\n",
        64,
    ),
    (
        "changed-data",
        "abc-kernel 64=62",
        "list",
        "L5 bad data CRC",
        "",
        67,
    ),
    (
        "changed-data",
        "abc-kernel 64=62",
        "extract 0",
        "L5 bad data CRC",
        "",
        67,
    ),
    (
        "changed-data",
        "abc-kernel 64=62",
        "verify",
        "not right",
        "header crc32 ok\ndata crc32 bad\n",
        67,
    ),
    (
        "bad-magic",
        "abc-kernel 0=d0",
        "list",
        "L2 bad magic",
        "",
        64,
    ),
    (
        "bad-magic",
        "abc-kernel 0=d0",
        "verify",
        "L2 bad magic",
        "",
        64,
    ),
    (
        "bad-magic",
        "abc-kernel 0=d0",
        "extract 0",
        "L2 bad magic",
        "",
        64,
    ),
    (
        "bad-magic before the header CRC",
        "abc-kernel 0=d0 32=31",
        "list",
        "L2 bad magic",
        "",
        64,
    ),
    (
        "size-too-large",
        "size-too-large",
        "list",
        "L4 truncated",
        "",
        64,
    ),
    (
        "size-too-large",
        "size-too-large",
        "extract 0",
        "L4 truncated",
        "",
        64,
    ),
    (
        "size-too-large",
        "size-too-large",
        "verify",
        "L4 truncated",
        "header crc32 ok\n",
        64,
    ),
    (
        "size-too-large and changed data",
        "size-too-large 64=62",
        "list",
        "L4 truncated",
        "",
        64,
    ),
    (
        "cut data",
        "abc-kernel to=66",
        "list",
        "L4 truncated",
        "",
        64,
    ),
    (
        "three-part-multi",
        "three-part-multi",
        "list",
        "done",
        THREE_PART_LISTING,
        9999,
    ),
    (
        "three-part-multi",
        "three-part-multi",
        "verify",
        "done",
        "header crc32 ok\ndata crc32 ok\n",
        9999,
    ),
    (
        "three-part-multi",
        "three-part-multi",
        "extract 0",
        "done",
        "abc",
        9999,
    ),
    (
        "three-part-multi",
        "three-part-multi",
        "extract 1",
        "done",
        "defg",
        9999,
    ),
    (
        "three-part-multi",
        "three-part-multi",
        "extract 2",
        "done",
        "hijkl",
        9999,
    ),
    (
        "three-part-multi",
        "three-part-multi",
        "extract 3",
        "L8 no such part",
        "",
        9999,
    ),
    (
        "three-part-multi",
        "three-part-multi",
        "extract 4294967295",
        "L8 no such part",
        "",
        9999,
    ),
    (
        "part-outside",
        "part-outside",
        "list",
        "L7 part outside",
        OUTSIDE_LISTING,
        129,
    ),
    (
        "part-outside",
        "part-outside",
        "extract 0",
        "done",
        "abc",
        132,
    ),
    (
        "part-outside",
        "part-outside",
        "extract 1",
        "L7 part outside",
        "",
        9999,
    ),
    (
        "part-outside",
        "part-outside",
        "extract 2",
        "L8 no such part",
        "",
        9999,
    ),
    (
        "part-outside",
        "part-outside",
        "verify",
        "done",
        "header crc32 ok\ndata crc32 ok\n",
        9999,
    ),
    (
        "no-table-end",
        "no-table-end",
        "list",
        "L6 no table end",
        NO_END_LISTING,
        9999,
    ),
    (
        "no-table-end",
        "no-table-end",
        "extract 0",
        "L6 no table end",
        "",
        9999,
    ),
    (
        "single-positions",
        "abc-kernel",
        "extract 0",
        "done",
        "abc",
        9999,
    ),
    (
        "single-positions",
        "abc-kernel",
        "extract 1",
        "L8 no such part",
        "",
        9999,
    ),
    (
        "single-positions",
        "abc-kernel",
        "extract 2",
        "L8 no such part",
        "",
        9999,
    ),
    (
        "empty-parts",
        "abc-kernel to=64 4=94 5=0c 6=1c 7=8d 15=00 24=00 25=00 26=00 27=00",
        "list",
        "done",
        EMPTY_LISTING,
        9999,
    ),
    (
        "empty-parts",
        "abc-kernel to=64 4=94 5=0c 6=1c 7=8d 15=00 24=00 25=00 26=00 27=00",
        "verify",
        "done",
        "header crc32 ok\ndata crc32 ok\n",
        9999,
    ),
    (
        "empty-parts",
        "abc-kernel to=64 4=94 5=0c 6=1c 7=8d 15=00 24=00 25=00 26=00 27=00",
        "extract 0",
        "done",
        "",
        9999,
    ),
];

/// Cases over a source that lets some calls through, and a writer that accepts some bytes.
pub(super) const DEVICES: [(&str, &str, &str, u64, u64, &str, &str); 5] = [
    (
        "first-read-fails",
        "abc-kernel",
        "list",
        0,
        999,
        "read failed",
        "",
    ),
    (
        "writer-takes-20",
        "abc-kernel",
        "list",
        99,
        20,
        "write failed",
        "Image Name:   012345",
    ),
    (
        "writer-takes-n: 0",
        "abc-kernel",
        "list",
        99,
        0,
        "write failed",
        "",
    ),
    (
        "writer-takes-n: 232",
        "abc-kernel",
        "list",
        99,
        232,
        "done",
        ABC_LISTING,
    ),
    (
        "writer-takes-n: 2 of a part",
        "abc-kernel",
        "extract 0",
        99,
        2,
        "write failed",
        "ab",
    ),
];
