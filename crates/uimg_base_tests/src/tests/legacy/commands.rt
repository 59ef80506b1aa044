//! Commands by name, over devices that may fail.
use std::alloc::{Allocator, Global};
use std::io::Write;
use uimg_base::{FuseSource, FuseWriter, MemSource, Out, Room, Source, Status};
use uimg_legacy::{Fault, extract, list, list_by, verify};
use uimg_texts::Naming;

/// The result of a command.
#[derive(Drop)]
pub(super) struct Outcome {
    pub(super) end: Result<Status, Fault>,
    pub(super) text: Vec<u8>,
    pub(super) asked: u128,
    pub(super) failures: u64,
    pub(super) held: u128,
}

// Returns the position after `extract`: the number with a command's digits.
fn position_of(command: &str) -> u32 {
    let mut position = 0u32;
    for byte in command.bytes() {
        if byte.is_ascii_digit() {
            position = position.wrapping_mul(10).wrapping_add((byte - b'0') as u32);
        }
    }
    position
}

// Runs `list` with the profile's names or all, `verify`, or `extract` of a position.
fn run<S: Source, A: Allocator, W: Write>(
    command: &str,
    source: &mut S,
    room: &mut Room<A>,
    out: &mut Out<W>,
) -> Result<Status, Fault> {
    match command {
        "list" => list(source, room, out),
        "list by all names" => list_by(source, room, Naming::All, out),
        "verify" => verify(source, room, out),
        _ => extract(position_of(command), source, room, out),
    }
}

/// Runs a command over an image that lets `calls` calls through; the writer accepts `taken` bytes.
pub(super) fn ran(alloc: Global, command: &str, image: &[u8], calls: u64, taken: u64) -> Outcome {
    let mut source = FuseSource::new(MemSource::new(image), calls);
    let mut room = Room::new(alloc);
    let mut out = Out::new(FuseWriter::new(Vec::new(alloc), taken));
    let end = run(command, &mut source, &mut room, &mut out);
    Outcome {
        end,
        text: out.into_inner().into_inner(),
        asked: source.asked(),
        failures: source.failures(),
        held: room.held(),
    }
}

pub(super) fn says(alloc: Global, fault: Fault, line: &str) -> bool {
    match format!(in alloc; "{fault}") {
        Ok(text) => text.as_str() == line,
        Err(_) => false,
    }
}

/// Checks how a command ends: `done`, `not right`, or the line of a fault.
pub(super) fn ends_as(alloc: Global, end: Result<Status, Fault>, wanted: &str) -> bool {
    match end {
        Ok(Status::Done) => wanted == "done",
        Ok(Status::NotRight) => wanted == "not right",
        Err(fault) => says(alloc, fault, wanted),
    }
}
