//! Commands for the comparison with other tools.

// Calls of the libraries for the comparison with other tools, each as a command:
// - `uimg_peers compile SOURCE` writes the blob of an image-tree source;
// - `uimg_peers compile-all SOURCE` writes that of a source in the whole language of dtc;
// - `uimg_peers index BLOB` prints the number of a blob's nodes.
#![tactic(auto)]

mod blobs;

use blobs::{compile_source, compile_whole, count_nodes};
use std::process::ExitCode;
use std::rt::{Env, Files};
use std::{env, io};
use uimg_base::FileSource;

fn main(rt: HostRuntime) -> ExitCode {
    match run(&rt) {
        Ok(()) => ExitCode::SUCCESS,
        Err(_) => ExitCode::FAILURE,
    }
}

fn run<R: Files + Env + Print + AllocGlobal>(rt: &R) -> io::Result<()> {
    let mut words = env::args(rt)?.skip(1);
    let (Some(command), Some(path)) = (words.next(), words.next()) else {
        return Err(io::Error::from(io::ErrorKind::InvalidInput));
    };
    if command.as_str() == "compile" {
        return compile_source(rt, path.as_str());
    }
    if command.as_str() == "compile-all" {
        return compile_whole(rt, path.as_str());
    }
    match (command.as_str(), FileSource::open(rt, path.as_str())) {
        ("index", Ok(mut source)) => count_nodes(rt, &mut source),
        _ => Err(io::Error::from(io::ErrorKind::NotFound)),
    }
}
