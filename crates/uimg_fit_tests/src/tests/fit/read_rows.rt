//! Results and output of `list`, `verify` and `extract`.
use super::super::answers::is_said;
use super::images::{hashed, image};
use std::alloc::{AllocError, Global};
use std::test::Fail;
use uimg_base::{MemSource, Out, Room, Status, crc_of};
use uimg_fit::{Fault, extract, list, list_by, verify};
use uimg_texts::Naming;

fn told(alloc: Global, end: Result<Status, Fault>) -> Result<String, AllocError> {
    match end {
        Ok(Status::Done) => format!(in alloc; "done"),
        Ok(_) => format!(in alloc; "not right"),
        Err(fault) => format!(in alloc; "{fault}"),
    }
}

// Calls `list` with either set of names, `verify`, or `extract` at the position of a digit. Returns
// the result and what is written.
fn read(alloc: Global, fit: &[u8], call: &str) -> (Result<Status, Fault>, Vec<u8>) {
    let mut source = MemSource::new(fit);
    let mut room = Room::new(alloc);
    let mut out = Out::new(Vec::new(alloc));
    let end = match call {
        "list" => list(&mut source, &mut room, &mut out),
        "list by all names" => list_by(&mut source, &mut room, Naming::All, &mut out),
        "verify" => verify(&mut source, &mut room, &mut out),
        _ => extract(call.parse().unwrap_or(9), &mut source, &mut room, &mut out),
    };
    (end, out.into_inner())
}

const KERNEL: &str = "FIT description: demo
Created:         Thu Jan  1 00:00:00 1970
 Image 0 (kernel)
  Description:  k
  Created:      Thu Jan  1 00:00:00 1970
  Type:         Kernel Image
  Compression:  uncompressed
  Data Size:    3 Bytes = 0.00 KiB = 0.00 MiB
  Architecture: AArch64
  OS:           Linux
  Load Address: 0x00080000
  Entry Point:  0x00080000
HASHES";

const TWO_CELLS: &str = "FIT description: demo
Created:         Thu Jan  1 00:00:00 1970
 Image 0 (kernel)
  Description:  k
  Created:      Thu Jan  1 00:00:00 1970
  Type:         Kernel Image
  Compression:  uncompressed
  Data Size:    3 Bytes = 0.00 KiB = 0.00 MiB
  Architecture: AArch64
  OS:           Linux
  Load Address: 0x180000000
  Entry Point:  0x00080000
HASHES";

const SHORT_CELLS: &str = "FIT description: demo
Created:         Thu Jan  1 00:00:00 1970
 Image 0 (kernel)
  Description:  k
  Created:      Thu Jan  1 00:00:00 1970
  Type:         Kernel Image
  Compression:  uncompressed
  Data Size:    3 Bytes = 0.00 KiB = 0.00 MiB
  Architecture: AArch64
  OS:           Linux
  Load Address: 0x180000000
  Entry Point:  unavailable
HASHES";

// The end of the kernel's listings.
const HASHES: &str = "  Hash algo:    crc32
  Hash value:   352441c2
  Hash algo:    md5
  Hash value:   900150983cd24fb0d6963f7d28e17f72
  Hash algo:    sha1
  Hash value:   a9993e364706816aba3e25717850c26c9cd0d89d
  Hash algo:    sha256
  Hash value:   ba7816bf8f01cfea414140de5dae2223b00361a396177a9cb410ff61f20015ad
 Default Configuration: 'conf'
 Configuration 0 (conf)
  Description:  c
  Kernel:       kernel
";

const NAMES: &str = "FIT description: unavailable
Created:         unavailable
 Image 0 (a)
  Type:         Unknown Image
  Data Size:    unavailable
  OS:           ARM Trusted Firmware
 Default Configuration: 'both'
 Configuration 0 (b)
  Init Ramdisk: r
  FDT:          one
                
                two
";

const BARE: &str = "FIT description: none\nCreated:         unavailable\n";

const RIGHT: &str = "kernel hash-1 crc32 ok
kernel hash-2 md5 ok
kernel hash-3 sha1 ok
kernel hash-4 sha256 ok
";

const WRONG: &str = "kernel hash-1 crc32 bad
kernel hash-2 md5 bad
kernel hash-3 sha1 bad
kernel hash-4 sha256 bad
";

const FIVE_RIGHT: &str = "kernel hash-1 crc32 ok
kernel hash-2 md5 ok
kernel hash-3 sha1 ok
kernel hash-4 sha256 ok
kernel hash-5 sha512 ok
";

const FIVE_WRONG: &str = "kernel hash-1 crc32 bad
kernel hash-2 md5 bad
kernel hash-3 sha1 bad
kernel hash-4 sha256 bad
kernel hash-5 sha512 bad
";

const WORDS: &str = "a hash-1 - malformed
a hash-2 crc32 malformed
a hash-3 sha3 unsupported
a hash-4 crc32 and more than 31 bytes of a name unsupported
a hash-5 crc32 malformed
a hash-6 crc32 bad
a hash crc32 ok
b - none unhashed
";

// An image, the offset of a cell, its number, the call, the result, and what is written.
const ROWS: [(&str, usize, u32, &str, &str, &str); 30] = [
    ("four-hash-fit", 0, 0, "list", "done", KERNEL),
    ("four-hash-fit", 0, 0, "list by all names", "done", KERNEL),
    ("external-fit", 0, 0, "list", "done", KERNEL),
    ("position-fit", 0, 0, "list", "done", KERNEL),
    ("two-cells", 0, 0, "list", "done", TWO_CELLS),
    ("short-cells", 0, 0, "list", "done", SHORT_CELLS),
    ("lists", 0, 0, "list", "done", NAMES),
    ("bare", 0, 0, "list", "F1 no images", BARE),
    ("short", 0, 0, "list", "B1 too short at 0", ""),
    ("four-hash-fit", 0, 0, "verify", "done", RIGHT),
    (
        "four-hash-fit",
        168,
        0x61626400,
        "verify",
        "not right",
        WRONG,
    ),
    ("external-fit", 0, 0, "verify", "done", RIGHT),
    ("external-fit", 184, 41, "verify", "F3 data outside", ""),
    ("external-fit", 184, 5, "verify", "F3 data outside", ""),
    ("position-fit", 0, 0, "verify", "done", RIGHT),
    ("five-hash-fit", 0, 0, "verify", "done", FIVE_RIGHT),
    (
        "five-hash-fit",
        168,
        0x62626300,
        "verify",
        "not right",
        FIVE_WRONG,
    ),
    ("words", 0, 0, "verify", "not right", WORDS),
    ("bare", 0, 0, "verify", "F1 no images", ""),
    ("four-hash-fit", 0, 0, "0", "done", "abc"),
    ("four-hash-fit", 0, 0, "1", "F4 no such image", ""),
    ("external-fit", 0, 0, "0", "done", "abc"),
    ("external-fit", 184, 5, "0", "F3 data outside", ""),
    ("position-fit", 0, 0, "0", "done", "abc"),
    ("bare", 0, 0, "0", "F1 no images", ""),
    ("sod", 0, 0, "0", "done", "efgh"),
    ("pod", 0, 0, "0", "done", "xyz"),
    ("sd", 0, 0, "0", "done", "xyz"),
    ("s", 0, 0, "0", "F2 no data", ""),
    ("four-hash-fit", 4, 761, "list", "B4 block outside at 4", ""),
];

// `HASHES` at the end of the expected text means the text of that name.
fn is_text(text: &str, wanted: &str) -> bool {
    match wanted.strip_suffix("HASHES") {
        Some(head) => text.strip_prefix(head) == Some(HASHES),
        None => text == wanted,
    }
}

#[test]
fn read_rows(rt: HostRuntime) -> Result<(), Fail> {
    let alloc = rt.alloc();
    for (name, at, number, call, end, wanted) in &ROWS {
        let fit = image(alloc, name, *at, *number)?;
        let (answer, written) = read(alloc, &fit, call);
        let text = str::from_utf8(&written).unwrap_or("no text");
        assert!(rt; is_text(text, wanted), "{call} of {name}, {at}: {text}");
        is_said(&rt, told(alloc, answer), end, name, *number as u64);
    }
    Ok(())
}

// `data-position` overrides `data-offset`, each with `data-size`: the first bytes of the file.
#[test]
fn a_position_counts(rt: HostRuntime) -> Result<(), Fail> {
    let fit = image(rt.alloc(), "spod", 0, 0)?;
    let (answer, written) = read(rt.alloc(), &fit, "0");
    assert_eq!(rt; answer, Ok(Status::Done));
    assert_eq!(rt; written.as_slice(), b"\xd0\x0d\xfe\xed".as_slice());
    Ok(())
}

// Each node has its line, however many passes they take.
#[test]
fn many_hash_nodes(rt: HostRuntime) -> Result<(), Fail> {
    for (count, length) in [(8u32, 128), (9, 144), (17, 272)] {
        let fit = hashed(rt.alloc(), count)?;
        let (answer, written) = read(rt.alloc(), &fit, "verify");
        assert_eq!(rt; answer, Ok(Status::Done), "{count} nodes");
        assert_eq!(rt; written.len(), length, "{count} nodes");
    }
    Ok(())
}

// The images, their sizes, and CRC-32 of the files that dtc makes of the same trees.
const SUM_ROWS: [(&str, usize, u32); 5] = [
    ("four-hash-fit", 760, 0x8c427da1),
    ("five-hash-fit", 872, 0x6a227cb7),
    ("external-fit", 800, 0xd958c3ba),
    ("position-fit", 1028, 0x63144c32),
    ("two-cells", 768, 0xf80ff195),
];

#[test]
fn samples_are_those_of_dtc(rt: HostRuntime) -> Result<(), Fail> {
    for (name, size, sum) in &SUM_ROWS {
        let fit = image(rt.alloc(), name, 0, 0)?;
        assert_eq!(rt; fit.len(), *size, "{name}");
        assert_eq!(rt; crc_of(&fit), *sum, "{name}");
    }
    Ok(())
}
