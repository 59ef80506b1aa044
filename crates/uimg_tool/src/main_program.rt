//! The function `program`, the whole program: reads a command line, and carries out its request.

ghost use Rattle.std.specs.Prelude.{◌≡◌, ◌≤◌, None, Some, map, option_map};
ghost use Rattle.uimg_cli.specs.Reading.{AsksNothing, ReadsWords};
ghost use Rattle.uimg_tool.specs.{Complaints.Ends, Programs.{AskNothing, epoch_of, words_of}, Statuses.words_status};
ghost use Rattle.uimg_tool.specs.WordAnswers.{AnswersLine, ComplainsWords, printed};

use crate::command_line::CommandLine;
use crate::commands::{close, run};
use crate::complaints::Complaints;
use crate::old_program::run_as_tool;
use crate::old_tools::Tool;
use crate::request_fault::{FAILED, WRONG_LINE};
use std::alloc::Global;
use std::env::Env;
use std::io::{BufWriter, Write};
use std::rt::Files;
use uimg_cli::{Asked, WordsFault, read_words};
use uimg_world::{DiskWorld, MakingWorld, World};

/// Carries out a command line, the program's name first, and returns the exit status. A program
/// whose name, after its last slash, is `mkimage`, `dumpimage`, `uimg-mkimage` or `uimg-dumpimage`
/// takes the arguments of U-Boot 2023.01's tool of that name.
///
/// `epoch` is the text of SOURCE_DATE_EPOCH if it is set, and `now` the current time in seconds
/// since 1970; they give the time of a new image. Of the runtime's environment only TMPDIR is read,
/// for an image on standard input. Listings, reports and help go to `out`, buffered,
/// and are written before a fault is reported. A fault is one line on `err`; failed writes to `err`
/// are ignored.
pub fn program<R: Files + Env + AllocGlobal, W: Write, V: Write>(
    rt: &R,
    words: &[&str],
    epoch: Option<&str>,
    now: u32,
    out: &mut W,
    err: &mut V,
) -> u8
    ensures status { result ≤ 3 }
    ensures nothing { AskNothing (option_map (λ text. text.now) epoch.entry) now
        (map (λ word. word.now) words.entry.now) → 2 ≤ result }
    ensures unprinted { AskNothing (option_map (λ text. text.now) epoch.entry) now
        (map (λ word. word.now) words.entry.now) → out.new ≡ out.old }
{
    let line = CommandLine {
        words,
        epoch,
        time: now,
    };
    let world = &mut DiskWorld::new(rt);
    let (status, out) = match Tool::of_words(words) {
        Some(tool) => {
            let complaints = &mut Complaints::new(tool.name(), err);
            run_as_tool(world, tool, line, out, complaints)
        }
        None => {
            let complaints = &mut Complaints::new("uimg", err);
            run_as_uimg(world, line, out, complaints)
        }
    };
    if let Some(out) = out {
        // No effect at run time. The proof reads what `out` holds from this use.
        let _ = &*out;
        return status;
    }
    status
}

/// Carries out a command line of `uimg` over a world of files. Returns the status, and `out` unless
/// memory for its buffer was refused.
///
/// If the definition of command lines accepts its arguments, then over an honest world output, new
/// files and status are those of the definition, as far as `AnswersLine` says. The definition reads
/// the bytes at the paths of the arguments. Else nothing is done or printed, and the status is that
/// of what is wrong.
#[tactic(auto, using(uimg_cli::proofs::ReadingLaws::nothing_read))]
pub fn run_as_uimg<'a, D: MakingWorld<'a>, W: Write + Drop, V: Write>(
    world: &mut D,
    line: CommandLine<'a>,
    out: W,
    complaints: &mut Complaints<'_, V>,
) -> (u8, Option<W>)
    ensures ends { Ends result.0 complaints.old.count complaints.new.count }
    ensures nothing { AsksNothing (epoch_of line.entry) line.entry.time (words_of line.entry)
        → 2 ≤ result.0 }
    ensures unprinted { AsksNothing (epoch_of line.entry) line.entry.time (words_of line.entry)
        → result.1 ≡ Some out }
    ensures lost { result.1 ≡ None → result.0 ≡ 3 }
    ensures answers { AnswersLine D.Shelf.Kept.device (D.identities world.old) V.contents line.entry
        (D.map world.old) result.0 (record {
          text = W.contents out;
          err = complaints.old;
          trace = D.trace world.old;
        }) (record {
          text = printed W.contents result.1;
          err = complaints.new;
          trace = D.trace world.new;
        }) }
{
    let alloc = world.alloc();
    let asked = match read_line(alloc, line) {
        Ok(asked) => asked,
        Err(fault) => return (tell_words_fault(&fault, complaints), Some(out)),
    };
    let Ok(out) = BufWriter::new(alloc, out) else {
        return (complaints.tell_no_memory(), None);
    };
    let (end, out) = run(world, &asked, out);
    let (status, out) = close(&asked, end, out, complaints);
    (status, Some(out))
}

// Not inlined, to free the stack that this takes before the request is carried out.
#[inline(never)]
fn read_line<'a>(alloc: Global, line: CommandLine<'a>) -> Result<Asked<'a>, WordsFault>
    ensures { ReadsWords (epoch_of line.entry) line.entry.time (words_of line.entry) result }
{
    read_words(alloc, line.words, line.epoch, line.time)
}

fn tell_words_fault<V: Write>(fault: &WordsFault, complaints: &mut Complaints<'_, V>) -> u8
    ensures status { result ≡ words_status fault.now }
    ensures ends { Ends result complaints.old.count complaints.new.count }
    ensures line { ComplainsWords V.contents fault.now complaints.old complaints.new }
{
    match fault {
        WordsFault::NoCommand(text) => {
            complaints.put_text(text);
            WRONG_LINE
        }
        WordsFault::OutOfMemory => complaints.tell(fault, FAILED),
        _ => complaints.tell(fault, WRONG_LINE),
    }
}
