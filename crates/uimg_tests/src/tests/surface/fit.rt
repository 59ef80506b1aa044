//! The calls of `uimg_fit`.

use super::blob;
use super::samples::{FILES, SOURCE};
use std::alloc::Global;
use uimg_base::{MemFiles, MemSource, Out, Room, Status};
use uimg_fit::{Fault, FitFault, Placement};
use uimg_surface::fit::{build, extract, fill, list, verify};
use uimg_surface::its::compile;

fn image(alloc: Global, placement: Placement) -> Vec<u8> {
    let mut files = MemFiles::new(&FILES);
    let Ok(tree) = compile(alloc, SOURCE, &mut files) else {
        return Vec::new(alloc);
    };
    let Ok(tree) = fill(alloc, tree, 0, &mut files) else {
        return Vec::new(alloc);
    };
    let mut out = Out::new(Vec::new(alloc));
    match build(alloc, &tree, &mut files, placement, &mut out) {
        Ok(()) => out.into_inner(),
        Err(_) => Vec::new(alloc),
    }
}

fn reads_payload(alloc: Global, image: &[u8]) -> bool {
    let mut source = MemSource::new(image);
    let mut room = Room::new(alloc);
    let mut text = Out::new(Vec::new(alloc));
    let mut report = Out::new(Vec::new(alloc));
    let mut payload = Out::new(Vec::new(alloc));
    list(&mut source, &mut room, &mut text) == Ok(Status::Done)
        && text.into_inner().starts_with(b"FIT description: demo\n")
        && verify(&mut source, &mut room, &mut report) == Ok(Status::Done)
        && report.into_inner().as_slice() == b"kernel hash-1 crc32 ok\n".as_slice()
        && extract(0, &mut source, &mut room, &mut payload) == Ok(Status::Done)
        && payload.into_inner().as_slice() == b"abc".as_slice()
}

#[test]
fn images(rt: HostRuntime) {
    let placements = [Placement::Inside, Placement::After, Placement::At(1024)];
    for placement in &placements {
        let image = image(rt.alloc(), *placement);
        assert!(rt; reads_payload(rt.alloc(), &image), "{}", image.len());
    }
    // After the blob a payload takes a multiple of 4.
    assert_eq!(rt; image(rt.alloc(), Placement::At(1024)).len(), 1028);
}

pub(super) fn number(fault: FitFault) -> u8 {
    match fault {
        FitFault::NoImages => 1,
        FitFault::NoData => 2,
        FitFault::DataOutside => 3,
        FitFault::NoSuchImage => 4,
        FitFault::UnknownAlgo => 5,
        FitFault::PositionTooLow => 6,
        FitFault::TooLarge => 7,
        FitFault::OutOfMemory => 8,
        FitFault::NoFile => 9,
        FitFault::ReadFailed => 10,
    }
}

// Returns the number of a fault, with the offset of a blob's, or nothing if a device failed.
fn number_of(fault: Fault) -> Option<(u8, u64)> {
    match fault {
        Fault::Blob(fault, offset) => Some((blob::number(fault), offset)),
        Fault::Fit(fault) => Some((number(fault), 0)),
        Fault::Read => None,
        Fault::Put => None,
    }
}

#[test]
fn faults(rt: HostRuntime) {
    let image = image(rt.alloc(), Placement::Inside);
    let mut source = MemSource::new(&image);
    let mut room = Room::new(rt.alloc());
    let mut out = Out::new(Vec::new(rt.alloc()));
    let found = match extract(1, &mut source, &mut room, &mut out) {
        Ok(_) => None,
        Err(fault) => number_of(fault),
    };
    assert_eq!(rt; found, Some((4, 0)));
}
