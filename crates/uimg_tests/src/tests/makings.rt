//! What a build leaves if opens, reads, the shelf or memory fail.
ghost use Rattle.std.specs.Prelude.{◌≡◌, ◌≢◌, false, length, IfOk};
ghost use Rattle.uimg_base.specs.Device.{IsFresh};
ghost use Rattle.uimg_legacy.specs.Parts.{has_parts};
ghost use Rattle.uimg_requests.specs.Commands.{HasFitNames};

use super::images::image_named;
use std::alloc::{AllocError, Allocator, Global};
use std::io::Write;
use std::{fs, io, rt};
use uimg_base::{
    FileShelf, Files, FuseFiles, FuseWriter, MemFiles, Out, Room, Shelf, SourceFault, Status,
};
use uimg_engine::{Fault, MakeCommand, make};
use uimg_fit_base::Placement;
use uimg_legacy::{Options, has_parts, name_field};

/// The files that images are made from.
pub(super) const FILES: [(&[u8], &[u8]); 5] = [
    (b"a", b"abc"),
    (b"b", b"defg"),
    (b"c", b"hijkl"),
    (b"abc.bin", b"abc"),
    (b"k.its", SOURCE),
];

// The source of four-hash-fit.
const SOURCE: &[u8] = b"/dts-v1/;
/ {
\tdescription = \"demo\";
\t#address-cells = <1>;
\timages {
\t\tkernel {
\t\t\tdescription = \"k\";
\t\t\tdata = /incbin/(\"abc.bin\");
\t\t\ttype = \"kernel\";
\t\t\tarch = \"arm64\";
\t\t\tos = \"linux\";
\t\t\tcompression = \"none\";
\t\t\tload = <0x80000>;
\t\t\tentry = <0x80000>;
\t\t\thash-1 { algo = \"crc32\"; };
\t\t\thash-2 { algo = \"md5\"; };
\t\t\thash-3 { algo = \"sha1\"; };
\t\t\thash-4 { algo = \"sha256\"; };
\t\t};
\t};
\tconfigurations {
\t\tdefault = \"conf\";
\t\tconf {
\t\t\tdescription = \"c\";
\t\t\tkernel = \"kernel\";
\t\t};
\t};
};
";

fn kept<H: Shelf>(shelf: H, keeps: bool) -> Result<H::Kept, SourceFault>
    ensures { IfOk result (λ kept. IsFresh (H.Kept.device kept)) }
{
    if keeps {
        shelf.keep()
    } else {
        Err(SourceFault)
    }
}

// A shelf that takes a number of bytes, and keeps what was written or refuses to.
#[derive(Drop)]
struct CutShelf<H: Shelf> {
    shelf: FuseWriter<H>,
    keeps: bool,
}

impl<H: Shelf> Write for CutShelf<H> {
    fn write(&mut self, buf: &[u8]) -> io::Result<usize> {
        self.shelf.write(buf)
    }

    fn flush(&mut self) -> io::Result<()> {
        self.shelf.flush()
    }
}

impl<H: Shelf> Shelf for CutShelf<H> {
    ghost use Rattle.std.specs.Prelude.{false};

    type Kept = H::Kept;

    ghost honest = { false };

    fn keep(self) -> Result<H::Kept, SourceFault> {
        let CutShelf { shelf, keeps } = self;
        kept(shelf.into_inner(), keeps)
    }
}

/// What fails: opens from number `from` on; the source of open number `turn` after `calls` calls;
/// the shelf after `bytes` bytes, and its `keep` unless `keeps` is set.
#[derive(Clone, Copy)]
pub(super) struct Fuses {
    pub(super) from: u64,
    pub(super) turn: u64,
    pub(super) calls: u64,
    pub(super) bytes: u64,
    pub(super) keeps: bool,
}

/// What a build left: its end, its listing, and how much of the image the file has.
#[derive(Drop)]
pub(super) struct Outcome {
    pub(super) end: Result<Status, Fault>,
    pub(super) listed: Vec<u8>,
    pub(super) file: &'static str,
}

fn one_name(alloc: Global, name: &str) -> Result<Vec<Vec<u8>>, AllocError>
    ensures { IfOk result (λ names. length names.items ≡ 1) }
{
    let mut names = Vec::new(alloc);
    names.push(Vec::from_slice(alloc, name.as_bytes())?)?;
    Ok(names)
}

fn part_names(alloc: Global, data: &str) -> Result<Vec<Vec<u8>>, AllocError>
    ensures { IfOk result (λ names. length names.items ≢ 0) }
{
    let (front, last) = data.rsplit_once(':').unwrap_or(("", data));
    let mut names = Vec::new(alloc);
    for name in front.split_terminator(':') {
        names.push(Vec::from_slice(alloc, name.as_bytes())?)?;
    }
    names.push(Vec::from_slice(alloc, last.as_bytes())?)?;
    Ok(names)
}

// Returns the names of a legacy image's files: one, or those between colons.
fn file_names(alloc: Global, kind: u8, data: &str) -> Result<Vec<Vec<u8>>, AllocError>
    ensures some { IfOk result (λ names. length names.items ≢ 0) }
    ensures single { IfOk result (λ names. has_parts kind ≡ false → length names.items ≡ 1) }
{
    if has_parts(kind) {
        part_names(alloc, data)
    } else {
        one_name(alloc, data)
    }
}

/// Returns the command that makes an image by its name; another name is one of parts with colons.
pub(super) fn command_named(alloc: Global, name: &str) -> Result<MakeCommand, AllocError>
    ensures { IfOk result (λ command. HasFitNames command) }
{
    if name == "four-hash-fit" {
        return Ok(MakeCommand::Tree {
            source: Vec::from_slice(alloc, b"k.its")?,
            placement: Placement::Inside,
        });
    }
    let multi = Options {
        time: 0,
        load: 0,
        ep: 0,
        os: 5,
        arch: 7,
        kind: 4,
        comp: 1,
        name: name_field(b""),
    };
    let kernel = Options {
        time: 0,
        load: 0x80000,
        ep: 0x80000,
        os: 5,
        arch: 22,
        kind: 2,
        comp: 0,
        name: name_field(b"0123456789012345678901234567890123456789"),
    };
    let (options, data) = match name {
        "abc-kernel" => (kernel, "abc.bin"),
        "three-part-multi" => (multi, "a:b:c"),
        _ => (multi, name),
    };
    let files = file_names(alloc, options.kind, data)?;
    Ok(MakeCommand::Parts { options, files })
}

pub(super) fn time_of(name: &str) -> u32 {
    if name == "abc-kernel" {
        1_700_000_000
    } else {
        0
    }
}

// Returns how much of the image of this name the file at a path has, and removes the file.
fn part_left<R: rt::Files + AllocGlobal>(rt: &R, path: &str, name: &str) -> &'static str {
    let Ok(bytes) = fs::read(rt, path) else {
        return "no file";
    };
    let _ = fs::remove_file(rt, path);
    let whole = image_named(rt.alloc(), name);
    if bytes == whole {
        "all"
    } else if whole.starts_with(&bytes) {
        "a part"
    } else {
        "other bytes"
    }
}

// Fuses are around the files and the shelf.
fn built<R: AllocGlobal, A: Allocator + Copy, B: Allocator, F: Files + Drop, H: Shelf>(
    rt: &R,
    memory: (A, B),
    command: (&MakeCommand, u32),
    files: F,
    fuses: Fuses,
    shelf: H,
) -> (Result<Status, Fault>, Vec<u8>)
    requires { HasFitNames command.0.now }
{
    let (alloc, heap) = memory;
    let (command, time) = command;
    let mut files = FuseFiles::new(files, fuses.from, fuses.turn, fuses.calls);
    let shelf = CutShelf {
        shelf: FuseWriter::new(shelf, fuses.bytes),
        keeps: fuses.keeps,
    };
    let mut room = Room::new(heap);
    let mut out = Out::new(Vec::new(rt.alloc()));
    let end = match make(alloc, command, time, &mut files, shelf, &mut room, &mut out) {
        Ok(_) => Ok(Status::Done),
        Err(fault) => Err(fault),
    };
    (end, out.into_inner())
}

/// Makes the image of a name as the file at a path, and removes the file. `memory` is for the
/// build, and for the room of its listing.
pub(super) fn making<R: rt::Files + AllocGlobal, A: Allocator + Copy, B: Allocator>(
    rt: &R,
    memory: (A, B),
    name: &str,
    path: &str,
    fuses: Fuses,
) -> Result<Outcome, AllocError> {
    let command = command_named(rt.alloc(), name)?;
    let (end, listed) = built(
        rt,
        memory,
        (&command, time_of(name)),
        MemFiles::new(&FILES),
        fuses,
        FileShelf::new(rt, path),
    );
    let file = part_left(rt, path, name);
    Ok(Outcome { end, listed, file })
}
