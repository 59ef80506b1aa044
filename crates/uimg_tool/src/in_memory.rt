//! The commands of `uimg` over files in memory, which are honest: the theorem without a premise on
//! the world.

ghost use Rattle.std.specs.Prelude.{◌≡◌, ◌⊎◌};
ghost use Rattle.uimg_tool.specs.InMemory.{AnswersInMemory, files_in};

use crate::command_line::CommandLine;
use crate::complaints::Complaints;
use crate::main_program::run_as_uimg;
use std::alloc::Global;
use std::io::Write;
use uimg_base::{MemKept, Source};
use uimg_world::{MemoryWorld, NewFiles};

/// What a command answered: its exit status, what it printed on standard output, and what it made.
#[derive(Drop)]
pub struct Answered {
    /// The exit status.
    pub status: u8,

    /// The bytes that were printed.
    pub printed: Vec<u8>,

    /// The files and folders that were made.
    pub new_files: NewFiles,
}

/// Carries out a command line of `uimg`, the program's name first, over files in memory, pairs of a
/// path and its bytes. Of equal paths, the first counts. `epoch` and `now` are as for
/// [`program`](crate::program); a fault is one line on `err`.
///
/// Unless the status is 3, the arguments are refused by their definition, or the output is what the
/// definitions give for the bytes at the paths, and so is the line of a fault. This holds for a
/// listing, a verification, a check, facts, the lines of a map, and the listing of an image that is
/// made. If an image is unpacked with status 0 and without `--clean`, new files hold exactly the
/// requested payloads or parts, and after an extraction its file holds the text. An image that is
/// made is not among the new files.
pub fn answer_in_memory<'f, V: Write>(
    alloc: Global,
    words: &[&str],
    epoch: Option<&str>,
    now: u32,
    files: &'f [(&'f [u8], &'f [u8])],
    err: &mut V,
) -> Answered
    ensures { (result.status ≡ 3) ⊎ AnswersInMemory ⟦<MemKept<Global> as Source>⟧.device V.contents
        (record { words = words.entry; epoch = epoch.entry; time = now })
        (files_in files.entry.now) result.status result.printed.items }
{
    let line = CommandLine {
        words,
        epoch,
        time: now,
    };
    let mut world = MemoryWorld::new(alloc, files);
    let complaints = &mut Complaints::new("uimg", err);
    let (status, printed) = run_as_uimg(&mut world, line, Vec::new(alloc), complaints);
    Answered {
        status,
        printed: printed.unwrap_or(Vec::new(alloc)),
        new_files: world.into_new_files(),
    }
}
