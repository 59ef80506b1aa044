//! Ranges that are copied or summed, over failing devices.

use super::super::counted::counted;
use std::alloc::Global;
use uimg_base::{
    Crc, FuseSource, FuseWriter, MemSource, MoveFault, Out, Room, Source, SourceFault, copy_range,
    crc_range, sum_range,
};

// Three windows: two of 8192 bytes and one of 3616.
const LONG: usize = 20000;

// Copies: the name, the offset, the length, how many calls pass, how many bytes the writer accepts,
// how the copy ends (0 done, 1 failed read, 2 failed write), and how many bytes are written.
const COPIES: [(&str, u64, u64, u64, u64, u8, usize); 16] = [
    ("a range", 1, 19998, 99, 99999, 0, 19998),
    ("no byte", 20000, 0, 99, 99999, 0, 0),
    ("a byte", 19999, 1, 99, 99999, 0, 1),
    ("a window", 7, 8192, 1, 99999, 0, 8192),
    ("a window and a byte", 7, 8193, 1, 99999, 1, 8192),
    ("the first read fails", 0, 20000, 0, 99999, 1, 0),
    ("the second read fails", 0, 20000, 1, 99999, 1, 8192),
    ("the third read fails", 0, 20000, 2, 99999, 1, 16384),
    ("three reads are all", 0, 20000, 3, 99999, 0, 20000),
    ("no byte is taken", 0, 20000, 99, 0, 2, 0),
    ("a byte is taken", 0, 20000, 99, 1, 2, 1),
    ("8191 bytes are taken", 0, 20000, 99, 8191, 2, 8191),
    ("8192 bytes are taken", 0, 20000, 99, 8192, 2, 8192),
    ("8193 bytes are taken", 0, 20000, 99, 8193, 2, 8193),
    ("19999 bytes are taken", 0, 20000, 99, 19999, 2, 19999),
    ("20000 bytes are taken", 0, 20000, 99, 20000, 0, 20000),
];

// Sums: the name, the offset, the length, how many calls pass, whether that is enough, and CRC-32
// of the range, from zlib.
const SUMS: [(&str, u64, u64, u64, bool, u32); 9] = [
    ("all", 0, 20000, 3, true, 0x361f_c6e7),
    ("all but the ends", 1, 19998, 3, true, 0x6c96_887e),
    ("a byte", 0, 1, 1, true, 0xd202_ef8d),
    (
        "two bytes about a window's end",
        8191,
        2,
        1,
        true,
        0x61d6_27c2,
    ),
    ("a window", 0, 8192, 1, true, 0xfe7c_712f),
    ("a window and a byte", 0, 8193, 2, true, 0xaffb_0d4d),
    ("no byte", 20000, 0, 0, true, 0),
    ("the first read fails", 0, 1, 0, false, 0),
    ("the third read fails", 0, 20000, 2, false, 0),
];

fn code_of(end: Result<(), MoveFault>) -> u8 {
    match end {
        Ok(()) => 0,
        Err(MoveFault::Read) => 1,
        Err(MoveFault::Put) => 2,
    }
}

// Checks how a copy ends, how much it writes, and that it requests at most one window more.
fn copies(alloc: Global, range: (u64, u64), fuses: (u64, u64), end: u8, written: usize) -> bool {
    let (at, length) = range;
    let bytes = counted();
    if at > LONG as u64 || length > LONG as u64 - at {
        return false;
    }
    let mut source = FuseSource::new(MemSource::new(&bytes), fuses.0);
    let mut room = Room::new(alloc);
    let mut out = Out::new(FuseWriter::new(Vec::new(alloc), fuses.1));
    let answer = code_of(copy_range(&mut source, &mut room, at, length, &mut out));
    let text = out.into_inner().into_inner();
    let asked = source.asked();
    answer == end
        && Some(text.as_slice()) == bytes[at as usize..].get(..written)
        && asked <= written as u128 + 8192
        && (end != 0 || asked == length as u128)
}

// Checks CRC-32 of a range, or that a read fails.
fn has_crc(alloc: Global, range: (u64, u64), calls: u64, enough: bool, sum: u32) -> bool {
    let (at, length) = range;
    let bytes = counted();
    if at > LONG as u64 || length > LONG as u64 - at {
        return false;
    }
    let mut room = Room::new(alloc);
    let mut source = FuseSource::new(MemSource::new(&bytes), calls);
    let found = crc_range(&mut source, &mut room, at, length);
    found == (if enough { Ok(sum) } else { Err(SourceFault) })
        && (!enough || source.asked() == length as u128)
}

// Checks that a buffer of sevens begins with CRC-32 of a range, or is unchanged if a read fails.
fn puts_crc(alloc: Global, range: (u64, u64), calls: u64, enough: bool, sum: u32) -> bool {
    let (at, length) = range;
    let bytes = counted();
    if at > LONG as u64 || length > LONG as u64 - at {
        return false;
    }
    let mut room = Room::new(alloc);
    let mut source = FuseSource::new(MemSource::new(&bytes), calls);
    let mut digest = [7; 64];
    let end = sum_range::<Crc, _, _>(&mut source, &mut room, at, length, &mut digest);
    let mut wanted = [7; 64];
    if enough {
        wanted[..4].copy_from_slice(&sum.to_be_bytes());
    }
    end == (if enough { Ok(4) } else { Err(SourceFault) })
        && digest == wanted
        && (!enough || source.asked() == length as u128)
}

#[test]
fn ranges_are_copied(rt: HostRuntime) {
    for (name, at, length, calls, taken, end, written) in &COPIES {
        let ends = copies(rt.alloc(), (*at, *length), (*calls, *taken), *end, *written);
        assert!(rt; ends, "{name}");
    }
}

#[test]
fn ranges_are_summed(rt: HostRuntime) {
    for (name, at, length, calls, enough, sum) in &SUMS {
        let range = (*at, *length);
        assert!(rt; has_crc(rt.alloc(), range, *calls, *enough, *sum), "{name}");
        assert!(rt;
            puts_crc(rt.alloc(), range, *calls, *enough, *sum),
            "{name}"
        );
    }
}
