//! The calls of `uimg_tool`.

use super::samples::FILES;
use super::{blob, fit, legacy};
use std::alloc::{AllocError, Global};
use std::fs;
use std::test::Fail;
use uimg_base::{Files, MemFiles, MemShelf, MemSource, Out, Room, Source};
use uimg_fit::Placement;
use uimg_its::ItsFault;
use uimg_legacy::Options;
use uimg_surface::tool::{disk_files, make, run};
use uimg_tool::{Action, Command, Fault, Form, MakeCommand, program};

fn of_parts(options: Options, files: Vec<Vec<u8>>) -> MakeCommand {
    MakeCommand::Parts { options, files }
}

fn of_source(source: Vec<u8>, placement: Placement) -> MakeCommand {
    MakeCommand::Tree { source, placement }
}

// `letter` chooses one of the two commands.
fn making(alloc: Global, letter: char) -> Result<MakeCommand, AllocError> {
    if letter == 'f' {
        return Ok(of_source(Vec::from_slice(alloc, b"k.its")?, Placement::At(1024)));
    }
    let mut files = Vec::new(alloc);
    files.push(Vec::from_slice(alloc, b"abc.bin")?)?;
    Ok(of_parts(legacy::kernel(), files))
}

// The listing of an image.
const LIST: Command = Command {
    action: Action::List,
    form: Form::Guess,
};

fn text_of<S: Source>(alloc: Global, command: &Command, source: &mut S) -> Vec<u8> {
    let mut out = Out::new(Vec::new(alloc));
    match run(command, source, &mut Room::new(alloc), &mut out) {
        Ok(_) => out.into_inner(),
        Err(_) => Vec::new(alloc),
    }
}

// Returns whether an image is made, listed as it is when read again, and its payload extracted.
fn makes<F: Files>(
    alloc: Global,
    letter: char,
    form: Form,
    files: &mut F,
) -> Result<bool, AllocError> {
    let command = making(alloc, letter)?;
    let mut room = Room::new(alloc);
    let mut out = Out::new(Vec::new(alloc));
    let made = make(
        alloc,
        &command,
        0,
        files,
        MemShelf::new(alloc),
        &mut room,
        &mut out,
    );
    let Ok(mut kept) = made else {
        return Ok(false);
    };
    let verify = Command {
        action: Action::Verify,
        form,
    };
    let extract = Command {
        action: Action::Extract(0),
        form,
    };
    let listed = out.into_inner();
    Ok(
        !listed.is_empty()
            && text_of(alloc, &LIST, &mut kept).as_slice() == listed.as_slice()
            && !text_of(alloc, &verify, &mut kept).is_empty()
            && text_of(alloc, &extract, &mut kept).as_slice() == b"abc".as_slice(),
    )
}

#[test]
fn makings(rt: HostRuntime) -> Result<(), Fail> {
    let mut files = MemFiles::new(&FILES);
    assert!(rt; makes(rt.alloc(), 'l', Form::Legacy, &mut files)?);
    assert!(rt; makes(rt.alloc(), 'f', Form::Fit, &mut files)?);
    fs::write(&rt, "abc.bin", "abc")?;
    let mut files = disk_files(&rt, "");
    assert!(rt; makes(rt.alloc(), 'l', Form::Legacy, &mut files)?);
    fs::remove_file(&rt, "abc.bin")?;
    Ok(())
}

#[test]
fn command_lines(rt: HostRuntime) {
    let mut out = Vec::new(rt.alloc());
    let mut err = Vec::new(rt.alloc());
    let words = ["uimg", "--version"];
    let status = program(&rt, &words, Some("0"), 0, &mut out, &mut err);
    assert_eq!(rt; status, 0);
    assert!(rt; out.starts_with(b"uimg "));
    assert!(rt; err.is_empty());
}

// Returns a letter for a fault, and its number (a blob's offset is added), or the line of a source.
fn told(fault: Fault) -> (char, u64) {
    match fault {
        Fault::Legacy(fault) => ('L', legacy::number(fault) as u64),
        Fault::Blob(fault, offset) => ('B', (blob::number(fault) as u64).saturating_add(offset)),
        Fault::Fit(fault) => ('F', fit::number(fault) as u64),
        Fault::Its(fault) => ('I', line(fault)),
        Fault::Read => ('r', 0),
        Fault::Put => ('p', 0),
        Fault::NoFile(number) => ('n', number),
        Fault::Keep => ('k', 0),
        Fault::OutOfMemory => ('m', 0),
    }
}

fn line(fault: ItsFault) -> u64 {
    fault.line
}

fn refused(alloc: Global, bytes: &[u8]) -> Option<(char, u64)> {
    let mut source = MemSource::new(bytes);
    let mut out = Out::new(Vec::new(alloc));
    match run(&LIST, &mut source, &mut Room::new(alloc), &mut out) {
        Ok(_) => None,
        Err(fault) => Some(told(fault)),
    }
}

#[test]
fn faults(rt: HostRuntime) {
    assert_eq!(rt; refused(rt.alloc(), b"abc"), Some(('L', 1)));
    assert_eq!(rt; refused(rt.alloc(), b"\xd0\x0d\xfe\xed"), Some(('B', 1)));
}
