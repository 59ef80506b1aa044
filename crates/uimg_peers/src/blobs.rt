//! The blob of a source, and the number of a blob's nodes, for the comparison with other tools.

use std::alloc::Global;
use std::io::ErrorKind;
use std::rt::Files;
use std::{fs, io};
use uimg_base::{Out, Room, Source};
use uimg_blob_reading::index;
use uimg_blob_writing::{BlobEnd, Reservation, Tree, WORD_ALIGNMENT, measure_with, write_tree};
use uimg_dts::compile_all;
use uimg_engine::DiskFiles;
use uimg_its::compile;

// The files that the source names are in its folder.
pub(crate) fn compile_source<R: Files + Print + AllocGlobal>(rt: &R, path: &str) -> io::Result<()> {
    let text = fs::read(rt, path)?;
    let mut files = DiskFiles::new(rt, folder_of(path));
    let Ok(tree) = compile(rt.alloc(), &text, &mut files) else {
        return Err(io::Error::from(ErrorKind::InvalidData));
    };
    write_blob(rt, &tree, &[], path)
}

// The source is in the whole language of dtc. A fault is printed.
pub(crate) fn compile_whole<R: Files + Print + AllocGlobal>(rt: &R, path: &str) -> io::Result<()> {
    let text = fs::read(rt, path)?;
    let mut files = DiskFiles::new(rt, folder_of(path));
    match compile_all(rt.alloc(), &text, &mut files) {
        Ok(compiled) => write_blob(rt, &compiled.tree, &compiled.reservations, path),
        Err(fault) => {
            println!(rt; "{fault}")?;
            Err(io::Error::from(ErrorKind::InvalidData))
        }
    }
}

fn write_blob<R: Files + Print + AllocGlobal>(
    rt: &R,
    tree: &Tree<Global>,
    reservations: &[Reservation],
    path: &str,
) -> io::Result<()> {
    let mut files = DiskFiles::new(rt, folder_of(path));
    let ending = BlobEnd {
        align: WORD_ALIGNMENT,
        least: 0,
    };
    let Ok(layout) = measure_with(rt.alloc(), tree, ending, reservations) else {
        return Err(io::Error::from(ErrorKind::InvalidData));
    };
    match write_tree(tree, &layout, &mut files, &mut Out::new(io::writer(rt))) {
        Ok(()) => Ok(()),
        Err(_) => Err(io::Error::from(ErrorKind::Other)),
    }
}

// Returns the folder of a path, up to its last slash.
fn folder_of(path: &str) -> &str {
    match path.rfind('/') {
        Some(0) => "/",
        Some(at) => &path[..at],
        None => "",
    }
}

pub(crate) fn count_nodes<R: Print + Alloc, S: Source>(rt: &R, source: &mut S) -> io::Result<()> {
    let mut room = Room::new(rt.alloc());
    match index(source, &mut room) {
        Ok(_) => println!(rt; "{} nodes", room.count()),
        Err(_) => Err(io::Error::from(ErrorKind::InvalidData)),
    }
}
