//! The calls of `uimg_legacy`.

use std::alloc::Global;
use uimg_base::{MemSource, Out, Room, Status};
use uimg_legacy::{Fault, Header, LegacyFault, Options};
use uimg_surface::legacy::{build, extract, header_bytes, list, name_field, read_header, verify};

pub(super) fn kernel() -> Options {
    let (time, load, ep): (u32, u32, u32) = (1_700_000_000, 0x80000, 0x80000);
    let (os, arch, kind, comp): (u8, u8, u8, u8) = (5, 22, 2, 0);
    let name: [u8; 32] = name_field(b"a kernel");
    Options {
        time,
        load,
        ep,
        os,
        arch,
        kind,
        comp,
        name,
    }
}

// Returns an image with a kernel of three bytes.
fn image(alloc: Global) -> Vec<u8> {
    let mut out = Out::new(Vec::new(alloc));
    let mut parts = [MemSource::new(b"abc")];
    match build(&kernel(), &mut parts, &mut out) {
        Ok(()) => out.into_inner(),
        Err(_) => Vec::new(alloc),
    }
}

#[test]
fn headers(rt: HostRuntime) {
    let image = image(rt.alloc());
    assert_eq!(rt; image.len(), 67);
    let Ok(header) = read_header(&mut MemSource::new(&image)) else {
        panic!(rt; "no header");
    };
    assert!(rt; header_bytes(&header).as_slice() == &image[..64]);
    let Header {
        time,
        size,
        load,
        ep,
        dcrc,
        os,
        arch,
        kind,
        comp,
        name,
    } = header;
    let words: [u32; 5] = [time, size, load, ep, dcrc];
    assert!(rt; words == [1_700_000_000, 3, 0x80000, 0x80000, 0x3524_41c2]);
    let codes: [u8; 4] = [os, arch, kind, comp];
    assert!(rt; codes == [5, 22, 2, 0]);
    assert!(rt; name == name_field(b"a kernel"));
}

#[test]
fn commands(rt: HostRuntime) {
    let image = image(rt.alloc());
    let mut source = MemSource::new(&image);
    let mut room = Room::new(rt.alloc());
    let mut out = Out::new(Vec::new(rt.alloc()));
    assert_eq!(rt; list(&mut source, &mut room, &mut out), Ok(Status::Done));
    assert!(rt; out.into_inner().starts_with(b"Image Name:   a kernel\n"));
    let mut out = Out::new(Vec::new(rt.alloc()));
    assert_eq!(rt; verify(&mut source, &mut room, &mut out), Ok(Status::Done));
    assert!(rt; out.into_inner().starts_with(b"header crc32 ok\n"));
    let mut out = Out::new(Vec::new(rt.alloc()));
    assert_eq!(rt;
        extract(0, &mut source, &mut room, &mut out),
        Ok(Status::Done)
    );
    assert!(rt; out.into_inner().as_slice() == b"abc".as_slice());
}

pub(super) fn number(fault: LegacyFault) -> u8 {
    match fault {
        LegacyFault::TooShort => 1,
        LegacyFault::BadMagic => 2,
        LegacyFault::BadHeaderCrc => 3,
        LegacyFault::Truncated => 4,
        LegacyFault::BadDataCrc => 5,
        LegacyFault::NoTableEnd => 6,
        LegacyFault::PartOutside => 7,
        LegacyFault::NoSuchPart => 8,
        LegacyFault::EmptyPart => 9,
        LegacyFault::TooLarge => 10,
    }
}

// Returns the number of a fault of an image, or nothing if a device failed.
fn number_of(fault: Fault) -> Option<u8> {
    match fault {
        Fault::Legacy(fault) => Some(number(fault)),
        Fault::Read => None,
        Fault::Put => None,
    }
}

#[test]
fn faults(rt: HostRuntime) {
    let found = match read_header(&mut MemSource::new(b"abc")) {
        Ok(_) => None,
        Err(fault) => number_of(fault),
    };
    assert_eq!(rt; found, Some(1));
}
