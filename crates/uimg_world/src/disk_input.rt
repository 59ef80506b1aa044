//! Standard input as an image: its bytes in a new file that has no name.

ghost use Rattle.std.specs.Prelude.{IfOk};
ghost use Rattle.uimg_base.specs.Device.{IsFresh};

use crate::opened_file::{OpenedSource, source_of};
use std::alloc::AllocError;
use std::env::Env;
use std::fs::OpenOptions;
use std::io::{ErrorKind, Read, Write};
use std::os::unix::fs::OpenOptionsExt;
use std::rt::Files;
use std::{env, fs, io};
use uimg_base::Source;

/// The path of standard input as a file.
const INPUT: &str = "/dev/stdin";

/// The folder for temporary files if TMPDIR is empty or not set.
const TEMPORARY: &str = "/tmp";

/// How many names are tried for the new file.
const TRIED: u32 = 10000;

/// How many bytes are read at once.
const PIECE: usize = 8192;

/// Reads standard input to its end, into a new file in a folder, or without one in that for temporary
/// files. Nobody else can open the file: its name is removed before the first byte. Returns why there
/// is none, also if there are more bytes than `most`.
pub(crate) fn open_input<R: Files + Env + AllocGlobal>(
    rt: &R,
    folder: Option<&str>,
    most: u64,
) -> io::Result<OpenedSource<R::File>>
    ensures { IfOk result (λ source. IsFresh (⟦<OpenedSource<R::File> as Source>⟧.device source)) }
{
    let mut input = fs::open(rt, INPUT)?;
    let created = match folder {
        Some(folder) => unnamed_in(rt, folder),
        None => unnamed(rt),
    };
    let mut file = match created {
        Ok(file) => file,
        Err(reason) => return Err(uncopied(rt, folder, reason)),
    };
    match copy(&mut input, &mut file, most) {
        Ok(()) => {}
        Err(Stop::Unread(reason)) => return Err(reason),
        Err(Stop::Unwritten(reason)) => return Err(uncopied(rt, folder, reason)),
        Err(Stop::TooMany) => return Err(too_many(rt, most)),
    }
    match source_of(rt.alloc(), file) {
        Ok(source) => Ok(source),
        Err(_) => Err(uncopied(rt, folder, io::Error::from(ErrorKind::Other))),
    }
}

// Creates a file without a name in the folder for temporary files.
fn unnamed<R: Files + Env + AllocGlobal>(rt: &R) -> io::Result<R::File> {
    let folder = env::temp_dir(rt)?;
    let folder = folder.as_str();
    unnamed_in(rt, if folder.is_empty() { TEMPORARY } else { folder })
}

// Creates the first free one of `.uimg-new1` to `.uimg-new10000`, for its owner alone, and removes
// its name.
fn unnamed_in<R: Files + AllocGlobal>(rt: &R, folder: &str) -> io::Result<R::File> {
    for number in 1..=TRIED {
        let path = path_in(rt, folder, number)?;
        let created = OpenOptions::new()
            .read(true)
            .write(true)
            .create_new(true)
            .mode(0o600)
            .open(rt, path.as_str());
        match created {
            Ok(file) => {
                fs::remove_file(rt, path.as_str())?;
                return Ok(file);
            }
            Err(error) if error.kind() == ErrorKind::AlreadyExists => {}
            Err(error) => return Err(error),
        }
    }
    Err(io::Error::from(ErrorKind::AlreadyExists))
}

fn path_in<R: AllocGlobal>(rt: &R, folder: &str, number: u32) -> Result<String, AllocError> {
    format!(in rt.alloc(); "{folder}/.uimg-new{number}")
}

// Why not all of standard input was copied.
enum Stop {
    // It could not be read.
    Unread(io::Error),

    // The copy could not be written.
    Unwritten(io::Error),

    // There are more bytes than are allowed.
    TooMany,
}

// Copies what is left to read, unless it has more bytes than `most`.
fn copy<I: Read, O: Write>(input: &mut I, output: &mut O, most: u64) -> Result<(), Stop> {
    let mut piece = [0; PIECE];
    let mut left = most;
    for _ in 0..u64::MAX {
        let count = match input.read(&mut piece) {
            Ok(0) => return Ok(()),
            Ok(count) => count,
            Err(error) if error.kind() == ErrorKind::Interrupted => continue,
            Err(error) => return Err(Stop::Unread(error)),
        };
        left = match left.checked_sub(count as u64) {
            Some(left) => left,
            None => return Err(Stop::TooMany),
        };
        if let Err(error) = output.write_all(&piece[..count]) {
            return Err(Stop::Unwritten(error));
        }
    }
    Err(Stop::TooMany)
}

fn uncopied<R: AllocGlobal>(rt: &R, folder: Option<&str>, reason: io::Error) -> io::Error {
    let place = if folder.is_some() {
        "the folder"
    } else {
        "TMPDIR"
    };
    match format!(in rt.alloc(); "its copy in {place}: {reason}") {
        Ok(text) => io::Error::new(reason.kind(), text.as_str()),
        Err(_) => io::Error::from(ErrorKind::OutOfMemory),
    }
}

fn too_many<R: AllocGlobal>(rt: &R, most: u64) -> io::Error {
    match format!(in rt.alloc(); "more than {most} bytes; see --max-input") {
        Ok(text) => io::Error::other(text.as_str()),
        Err(_) => io::Error::from(ErrorKind::OutOfMemory),
    }
}
