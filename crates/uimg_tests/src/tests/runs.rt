//! Commands on an image in memory, whose reads and writes may fail.
use std::alloc::Global;
use uimg_base::{FuseSource, FuseWriter, MemSource, Out, Room, Source, Status};
use uimg_engine::{Action, Command, Fault, Form, run};

/// No limit of calls, or of bytes.
pub(super) const ALL: u64 = u64::MAX;

/// What a command left: its result and its text, how many bytes it requested, how many its room
/// held, and how many calls of the source failed.
#[derive(Drop)]
pub(super) struct Left {
    pub(super) end: Result<Status, Fault>,
    pub(super) text: Vec<u8>,
    pub(super) asked: u128,
    pub(super) held: u128,
    pub(super) failures: u64,
}

/// Returns the action of a word: `list`, `verify`, or the position for an extraction, `0` or `1`.
pub(super) fn action_named(word: &str) -> Action {
    match word {
        "list" => Action::List,
        "verify" => Action::Verify,
        "1" => Action::Extract(1),
        _ => Action::Extract(0),
    }
}

/// Runs a command on an image, with a source that fails after `calls` calls, and a writer that
/// fails after `bytes` bytes.
pub(super) fn ran(alloc: Global, action: &str, image: &[u8], calls: u64, bytes: u64) -> Left {
    let command = Command {
        action: action_named(action),
        form: Form::Guess,
    };
    let mut source = FuseSource::new(MemSource::new(image), calls);
    let mut room = Room::new(alloc);
    let mut out = Out::new(FuseWriter::new(Vec::new(alloc), bytes));
    let end = run(&command, &mut source, &mut room, &mut out);
    Left {
        end,
        asked: source.asked(),
        held: room.held(),
        failures: source.failures(),
        text: out.into_inner().into_inner(),
    }
}

pub(super) fn told(alloc: Global, end: &Result<Status, Fault>) -> Vec<u8> {
    let told = match end {
        Ok(Status::Done) => format!(in alloc; "done"),
        Ok(Status::NotRight) => format!(in alloc; "not right"),
        Err(fault) => format!(in alloc; "{fault}"),
    };
    match told {
        Ok(text) => text.into_bytes(),
        Err(_) => Vec::new(alloc),
    }
}

pub(super) fn shown(text: &[u8]) -> &str {
    str::from_utf8(text).unwrap_or("no text")
}
