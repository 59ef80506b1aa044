//! The program with the names of mkimage and dumpimage.

ghost use Rattle.std.specs.Prelude.{◌≡◌, ◌≢◌, ◌≤◌, [], None, OnOk, Some};
ghost use Rattle.std.specs.Io.{Buffered.{writer_buffer, writer_contents}, KnownBytes.{Appends}};
ghost use Rattle.uimg_tool.specs.{Complaints.Ends, OldTexts.{name_line, version_line}, WordAnswers.printed};
ghost use Rattle.uimg_tool.specs.OldCommands.{AnswersTool, IsShownOld};
ghost use Rattle.uimg_tool.specs.{Programs.{OldAsksNothing, ReadsOld, epoch_of, words_of}, Statuses.old_words_status};

use crate::command_line::CommandLine;
use crate::complaints::Complaints;
use crate::fit_program::{make_auto, make_fit};
use crate::old_files::make_old;
use crate::old_images::run_old;
use crate::old_tools::Tool;
use crate::request_fault::{DONE, WRONG_LINE};
use crate::update_program::update_image;
use std::alloc::Global;
use std::io;
use std::io::{BufWriter, Write};
use uimg_compat::{OldFault, OldRequest, Show, read_dumpimage, read_mkimage, title_of};
use uimg_requests::VERSION;
use uimg_texts::Field;
use uimg_world::MakingWorld;

/// Carries out the arguments of a tool of U-Boot 2023.01 over a world of files. An image is written to
/// a new file and gets its name when it is complete, unless something exists there that is not a
/// regular file. Returns the status, and `out` unless memory for its buffer was refused.
///
/// If the definition of the tool's arguments accepts them, then output, new files and status are
/// those of the definition, as far as `AnswersTool` says. Else nothing is done or printed.
#[tactic(auto, using(crate::proofs::OldWordLaws::nothing_read))]
pub fn run_as_tool<'a, D: MakingWorld<'a>, W: Write + Drop, V: Write>(
    world: &mut D,
    tool: Tool,
    line: CommandLine<'a>,
    out: W,
    complaints: &mut Complaints<'_, V>,
) -> (u8, Option<W>)
    ensures ends { Ends result.0 complaints.old.count complaints.new.count }
    ensures nothing { OldAsksNothing tool (epoch_of line.entry) line.entry.time (words_of line.entry)
        → 2 ≤ result.0 }
    ensures unprinted { OldAsksNothing tool (epoch_of line.entry) line.entry.time (words_of line.entry)
        → result.1 ≡ Some out }
    ensures lost { result.1 ≡ None → result.0 ≡ 3 }
    ensures answers { AnswersTool (record {
      there = D.Shelf.Kept.device;
      new = D.NewShelf.Kept.device;
      identities = D.identities world.old;
    }) tool line.entry (D.map world.old) result.0 (W.contents out) (printed W.contents result.1)
        (D.trace world.old) (D.trace world.new) }
{
    let alloc = world.alloc();
    let asked = match read_old_words(alloc, tool, line) {
        Ok(asked) => asked,
        Err(fault) => return (tell_old_fault(&fault, complaints), Some(out)),
    };
    let Ok(mut out) = BufWriter::new(alloc, out) else {
        return (complaints.tell_no_memory(), None);
    };
    let (status, out) = match &asked {
        OldRequest::Run { request, is_quiet } => {
            run_old(world, *is_quiet, request, out, complaints)
        }
        OldRequest::Make { request, is_quiet } => {
            make_old(world, *is_quiet, request, out, complaints)
        }
        OldRequest::MakeFit(request) => {
            let status = make_fit(world, request, &mut out, complaints);
            (status, out)
        }
        OldRequest::MakeAuto(request) => {
            let status = make_auto(world, request, &mut out, complaints);
            (status, out)
        }
        OldRequest::Update(request) => {
            let status = update_image(world, request, &mut out, complaints);
            (status, out)
        }
        OldRequest::Show(show) => show_text(tool, *show, out, complaints),
    };
    // A failed write leaves text in the buffer, which its drop would try to write again.
    let (out, _) = out.into_parts();
    (status, Some(out))
}

// Not inlined, to free the stack that this takes before the request is carried out.
#[inline(never)]
#[tactic(auto, unfolding(crate::specs::Programs::ReadsOld))]
fn read_old_words<'a>(
    alloc: Global,
    tool: Tool,
    line: CommandLine<'a>,
) -> Result<OldRequest<'a>, OldFault<'a>>
    ensures { ReadsOld tool (epoch_of line.entry) line.entry.time (words_of line.entry) result }
{
    let words = line.words.get(1..).unwrap_or(&[]);
    match tool {
        Tool::Mkimage => read_mkimage(alloc, words, line.epoch, line.time),
        Tool::Dumpimage => read_dumpimage(alloc, words),
    }
}

fn tell_old_fault<V: Write>(fault: &OldFault<'_>, complaints: &mut Complaints<'_, V>) -> u8
    ensures status { result ≡ old_words_status fault.now }
    ensures ends { Ends result complaints.old.count complaints.new.count }
{
    match fault {
        OldFault::OutOfMemory => complaints.tell_no_memory(),
        _ => complaints.tell(fault, WRONG_LINE),
    }
}

// The names of a field go to standard error, as with the originals.
fn show_text<W: Write + Drop, V: Write>(
    tool: Tool,
    show: Show,
    mut out: BufWriter<W, Global>,
    complaints: &mut Complaints<'_, V>,
) -> (u8, BufWriter<W, Global>)
    ensures ends { Ends result.0 complaints.old.count complaints.new.count }
    ensures means { IsShownOld tool show result.0 (writer_contents W.contents out)
        (writer_contents W.contents result.1) }
    ensures flushed { result.0 ≢ 3 → writer_buffer out ≡ [] → writer_buffer result.1 ≡ [] }
{
    let written = match show {
        Show::Help(text) => put_help(text, &mut out),
        Show::Version => put_version(tool, &mut out, complaints.err),
        Show::Names(field) => put_names(field, complaints.err),
    };
    let status = match (written, show) {
        (Err(error), _) => complaints.tell_unprinted(&error),
        (Ok(()), Show::Names(field)) if field != Field::Kind => WRONG_LINE,
        (Ok(()), _) => DONE,
    };
    (status, out)
}

fn put_help<W: Write + Drop>(text: &str, out: &mut BufWriter<W, Global>) -> io::Result<()>
    ensures { OnOk result (Appends (writer_contents W.contents out.old)
        (writer_contents W.contents out.new) text.now × (writer_buffer out.new ≡ [])) }
{
    write!(out, "{text}")?;
    out.flush()
}

// Others read the last word of the version. The version of uimg goes to standard error, after it.
fn put_version<W: Write + Drop, V: Write>(
    tool: Tool,
    out: &mut BufWriter<W, Global>,
    err: &mut V,
) -> io::Result<()>
    ensures { OnOk result (Appends (writer_contents W.contents out.old)
        (writer_contents W.contents out.new) (version_line tool) × (writer_buffer out.new ≡ [])) }
{
    writeln!(out, "{} version 2023.01", tool.name())?;
    out.flush()?;
    let _ = writeln!(err, "uimg {VERSION}");
    Ok(())
}

// The originals leave out `ppc`, which is another name of `powerpc`.
fn put_names<V: Write>(field: Field, err: &mut V) -> io::Result<()> {
    writeln!(err, "\nInvalid {}, supported are:", title_of(field))?;
    for (name, _, long, _) in field.rows() {
        put_name(name, long, err)?;
    }
    writeln!(err)
}

fn put_name<V: Write>(name: &str, long: &str, err: &mut V) -> io::Result<()>
    ensures { OnOk result (Appends (V.contents err.old) (V.contents err.new)
        (name_line name.now long.now)) }
{
    if name == "ppc" {
        return Ok(());
    }
    writeln!(err, "\t{name:<15}  {long}")
}
