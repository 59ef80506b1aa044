//! The calls of `uimg_base`.

use super::samples::FILES;
use std::alloc::Global;
use std::fs;
use std::process::Abort;
use std::test::Fail;
use uimg_base::{
    Algo, Crc, Files, Md5Sum, MemSource, MoveFault, PutFault, Sha1Sum, Sha256Sum, Sha384Sum,
    Sha512Sum, Shelf, Source, Status, Summer,
};
use uimg_surface::devices::{
    asked, failures, file_shelf, file_source, fill_at, fuse_files, fuse_source, fuse_writer,
    into_inner, keep, mem_files, mem_keep, mem_shelf, mem_source, open, out_of, put_all, size,
};
use uimg_surface::sums::{
    add, add_sum, algo, bundle, clear, copy_range, count, crc_entry, digest_len, digests, entry,
    feed, feed_sums, finish, held, room_of, set, start, sum_count, sum_range, window,
};
use uimg_surface::texts::{
    arch_code, arch_text, comp_code, comp_text, kind_code, kind_text, os_code, os_text, size_text,
    time_text,
};

// Sources.

fn has_abc<S: Source>(source: &mut S) -> bool {
    let mut to = [0; 3];
    size(source) == Ok(3)
        && fill_at(source, 0, &mut to).is_ok()
        && to.as_slice() == b"abc".as_slice()
        && asked(source) == 3
        && failures(source) == 0
}

#[test]
fn sources(rt: HostRuntime) -> Result<(), Fail> {
    assert!(rt; has_abc(&mut mem_source(b"abc")));
    assert!(rt; has_abc(&mut fuse_source(mem_source(b"abc"), 2)));
    fs::write(&rt, "surface_source.bin", "abc")?;
    let Ok(mut source) = file_source(&rt, "surface_source.bin") else {
        panic!(rt; "not opened");
    };
    assert!(rt; has_abc(&mut source));
    fs::remove_file(&rt, "surface_source.bin")?;
    Ok(())
}

// Outputs.

#[test]
fn outputs(rt: HostRuntime) {
    let mut out = out_of(Vec::new(rt.alloc()));
    assert_eq!(rt; put_all(&mut out, b"abc"), Ok(()));
    assert!(rt; into_inner(out).as_slice() == b"abc".as_slice());
    let mut out = out_of(fuse_writer(Vec::new(rt.alloc()), 2));
    assert_eq!(rt; put_all(&mut out, b"abc"), Err(PutFault));
}

// Shelves.

fn keeps_abc<H: Shelf>(mut shelf: H) -> bool {
    if shelf.write(b"abc").is_err() {
        return false;
    }
    match keep(shelf) {
        Ok(mut kept) => has_abc(&mut kept),
        Err(_) => false,
    }
}

#[test]
fn shelves(rt: HostRuntime) -> Result<(), Fail> {
    assert!(rt; keeps_abc(mem_shelf(rt.alloc())));
    assert!(rt; mem_keep(mem_shelf(rt.alloc())).is_ok());
    assert!(rt; keeps_abc(file_shelf(&rt, "surface_shelf.bin")));
    fs::remove_file(&rt, "surface_shelf.bin")?;
    Ok(())
}

// Files.

fn open_abc<F: Files>(files: &mut F) -> bool {
    match open(files, b"abc.bin") {
        Ok(mut source) => has_abc(&mut source),
        Err(_) => false,
    }
}

#[test]
fn named_files(rt: HostRuntime) {
    assert!(rt; open_abc(&mut mem_files(&FILES)));
    assert!(rt; open_abc(&mut fuse_files(mem_files(&FILES), 1, 0, 2)));
}

// Rooms.

#[test]
fn rooms(rt: HostRuntime) -> Result<(), Fail> {
    let mut room = room_of(rt.alloc());
    add(&mut room, [7; 16])?;
    set(&mut room, 0, [8; 16]);
    window(&mut room)[8191] = 1;
    assert_eq!(rt; entry(&room, 0), [8; 16]);
    assert_eq!(rt; count(&room), 1);
    assert_eq!(rt; held(&room), 8320);
    clear(&mut room);
    assert_eq!(rt; count(&room), 0);
    Ok(())
}

// Sums.

// CRC-32 of the three bytes of these tests.
const CRC: [u8; 4] = [0x35, 0x24, 0x41, 0xc2];

fn digest<M: Summer>(bytes: &[u8], to: &mut [u8; 64]) -> usize {
    let mut sum: M = start();
    feed(&mut sum, bytes);
    finish(sum, to)
}

fn length_by(name: &str) -> usize {
    match algo(name.as_bytes()) {
        Some(algo) => digest_len(algo),
        None => 0,
    }
}

#[test]
fn sums(rt: HostRuntime) {
    let mut to = [0; 64];
    assert_eq!(rt; digest::<Crc>(b"abc", &mut to), 4);
    assert!(rt; &to[..4] == CRC.as_slice());
    assert_eq!(rt; digest::<Md5Sum>(b"abc", &mut to), length_by("md5"));
    assert_eq!(rt; digest::<Sha1Sum>(b"abc", &mut to), length_by("sha1"));
    assert_eq!(rt; digest::<Sha256Sum>(b"abc", &mut to), length_by("sha256"));
    assert_eq!(rt; digest::<Sha384Sum>(b"abc", &mut to), length_by("sha384"));
    assert_eq!(rt; digest::<Sha512Sum>(b"abc", &mut to), length_by("sha512"));
    assert_eq!(rt; length_by("crc32"), 4);
}

#[test]
fn table_words(rt: HostRuntime) {
    assert_eq!(rt; crc_entry(0), 0);
    assert_eq!(rt; crc_entry(1), 0x7707_3096);
    assert_eq!(rt; crc_entry(128), 0xedb8_8320);
    assert_eq!(rt; crc_entry(255), 0x2d02_ef8d);
}

#[test]
fn bundles(rt: HostRuntime) {
    let mut bundle = bundle();
    assert!(rt; add_sum(&mut bundle, Algo::Crc32));
    assert_eq!(rt; sum_count(&bundle), 1);
    feed_sums(&mut bundle, b"abc");
    let digests = digests(bundle);
    assert!(rt; &digests[0].0[..4] == CRC.as_slice());
    assert_eq!(rt; digests[0].1, 4);
    assert_eq!(rt; digests[7].1, 0);
}

// Ranges.

// Returns the device at which a copy stopped.
fn stopped(fault: MoveFault) -> &'static str {
    match fault {
        MoveFault::Read => "read",
        MoveFault::Put => "put",
    }
}

#[test]
fn ranges(rt: HostRuntime) {
    let mut room = room_of(rt.alloc());
    let mut source = mem_source(b"0abc0");
    let mut out = out_of(Vec::new(rt.alloc()));
    match copy_range(&mut source, &mut room, 1, 3, &mut out) {
        Ok(()) => {}
        Err(fault) => panic!(rt; "{}", stopped(fault)),
    }
    assert!(rt; into_inner(out).as_slice() == b"abc".as_slice());
    let mut to = [0; 64];
    let summed = sum_range::<Crc, MemSource<'_>, Global>(&mut source, &mut room, 1, 3, &mut to);
    assert_eq!(rt; summed, Ok(4));
    assert!(rt; &to[..4] == CRC.as_slice());
}

// Texts and codes.

#[test]
fn texts(rt: HostRuntime) {
    let mut out = out_of(Vec::new(rt.alloc()));
    assert_eq!(rt; size_text(3, &mut out), Ok(()));
    assert!(rt; into_inner(out).as_slice() == b"3 Bytes = 0.00 KiB = 0.00 MiB".as_slice());
    assert!(rt; time_text(0).as_slice() == b"Thu Jan  1 00:00:00 1970".as_slice());
}

fn codes(names: [&[u8]; 4]) -> [Option<u8>; 4] {
    [
        os_code(names[0]),
        arch_code(names[1]),
        kind_code(names[2]),
        comp_code(names[3]),
    ]
}

fn printed(codes: [u8; 4]) -> [&'static str; 4] {
    [
        os_text(codes[0]),
        arch_text(codes[1]),
        kind_text(codes[2]),
        comp_text(codes[3]),
    ]
}

#[test]
fn names(rt: HostRuntime) {
    let codes = codes([b"linux", b"arm64", b"kernel", b"none"]);
    assert!(rt; codes == [Some(5), Some(22), Some(2), Some(0)]);
    let printed = printed([5, 22, 2, 0]);
    assert!(rt; printed == ["Linux", "AArch64", "Kernel Image", "uncompressed"]);
}

fn number(status: Status) -> u8 {
    match status {
        Status::Done => 0,
        Status::NotRight => 1,
    }
}

#[test]
fn statuses(rt: HostRuntime) {
    assert_eq!(rt; number(Status::Done), 0);
    assert_eq!(rt; number(Status::NotRight), 1);
}
