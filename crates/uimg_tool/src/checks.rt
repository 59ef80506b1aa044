//! Checks many images, with a line for each.

ghost use Rattle.std.specs.Prelude.{◌≡◌, ◌≤◌, ◌||◌, None, max, option_map, true, IfErr, IfOk, IsTrue, OnOk};
ghost use Rattle.std.specs.Io.KnownBytes.{Appends, Keeps};
ghost use Rattle.uimg_base.specs.Named.{SameFiles};
ghost use Rattle.uimg_checks.specs.{Answers.answer_status, TestReports.reported};
ghost use Rattle.uimg_tool.specs.{AnswerTexts.{answer_text, object_line, text_line}, Answering.Comes, Checking.{AnswersAll, ChecksBy, EndsChecks, EndsWith, MeansCheck}, Checks.{AnswersFile, LooksAt, names_end, names_path, told}, FaultTexts.told_of_exit, Reports.{AsksToCheck, AsksToReport, FindsReportIf, WritesReportIf, report_before}, Statuses.{Grows, exit_status, request_status}};
ghost use Rattle.uimg_world.specs.Deeds.{changes};

mod below;
mod folder_paths;

use crate::complaints::unprinted;
use crate::json_lines::put_json;
use crate::keys::{Keyed, keys_of};
use crate::path_list::paths_in;
use crate::reports::{find_report, write_report};
use crate::request_fault::{DONE, RequestFault};
use crate::unread::answer_of_unread;
use std::alloc::Global;
use std::io;
use std::io::{ErrorKind, Write};
use uimg_base::Room;
use uimg_checks::{
    Answer, NOT_UTF8, Names, Terms, TestReport, answer_of_source, line_text, object_text,
};
use uimg_cli::CheckRequest;
use uimg_printing::Printed;
use uimg_world::World;

/// The path of standard input as a file.
const STANDARD_INPUT: &str = "/dev/stdin";

/// Checks the requested images, those of the command line first, and writes a line for each on
/// `out`, even after one that is not right. Returns the greatest status. Without an image the command
/// line is wrong, unless none is allowed. Changes no file but that of a report, which is written at the
/// end, if one is requested.
///
/// A file of keys or of names that cannot be read, a line that cannot be written and refused memory
/// end the check, without a report.
pub(crate) fn check_images<'a, D: World, W: Write>(
    world: &mut D,
    request: &CheckRequest<'a>,
    out: &mut W,
) -> Result<u8, RequestFault<'a>>
    ensures most { IfOk result (λ status. status ≤ 3) }
    ensures asks { AsksToCheck request.now.junit (D.trace world.old) (D.trace world.new) }
    ensures means { Comes (MeansCheck request.now (D.map world.old) (D.trace world.old)
        (D.trace world.new)) (exit_status result) (told_of_exit result) (W.contents out.old)
        (W.contents out.new) }
{
    find_report_if(world, request.junit)?;
    let required = match keys_of(world, request.key) {
        Ok(required) => required,
        Err(fault) => return Err(fault),
    };
    let terms = Terms {
        need: request.need,
        is_strict: request.is_strict,
        required,
        covers_images: false,
        lists: request.as_json,
    };
    check_by(world, &Keyed { request, terms }, out)
}

fn find_report_if<'a, D: World>(
    world: &mut D,
    path: Option<&'a str>,
) -> Result<(), RequestFault<'a>>
    ensures fails { IfErr result (λ fault. request_status fault ≡ 3) }
    ensures finds { OnOk result (FindsReportIf (D.map world.old) path.entry (D.trace world.old)
        (D.trace world.new)) }
    ensures same { SameFiles (D.map world.old) (D.map world.new) }
    ensures changes { changes (D.trace world.new) ≡ changes (D.trace world.old) }
{
    match path {
        Some(path) => find_report(world, path),
        None => Ok(()),
    }
}

fn check_by<'a, D: World, W: Write>(
    world: &mut D,
    asked: &Keyed<'_, 'a>,
    out: &mut W,
) -> Result<u8, RequestFault<'a>>
    ensures most { IfOk result (λ status. status ≤ 3) }
    ensures asks { AsksToCheck asked.now.request.now.junit (D.trace world.old)
        (D.trace world.new) }
    ensures means { Comes (ChecksBy asked.now (D.map world.old) (D.trace world.old)
        (D.trace world.new)) (exit_status result) (told_of_exit result) (W.contents out.old)
        (W.contents out.new) }
{
    let mut checks = Checks {
        room: Room::new(world.alloc()),
        greatest: DONE,
        has_checked: false,
        skipped: 0,
        report: report_for(world.alloc(), asked.request.junit),
    };
    match checks.check_all(world, asked, out) {
        Ok(()) => end_checks(world, asked, &checks),
        Err(fault) => Err(fault),
    }
}

fn report_for(alloc: Global, path: Option<&str>) -> Option<TestReport>
    ensures { option_map reported result ≡ report_before path.entry }
{
    match path {
        Some(_) => Some(TestReport::new(alloc)),
        None => None,
    }
}

// Writes the report, if one is requested and the check has not failed.
fn end_checks<'a, D: World>(
    world: &mut D,
    asked: &Keyed<'_, 'a>,
    checks: &Checks,
) -> Result<u8, RequestFault<'a>>
    requires { checks.now.greatest ≤ 3 }
    ensures most { IfOk result (λ status. status ≤ 3) }
    ensures asks { AsksToReport asked.now.request.now.junit (D.trace world.old)
        (D.trace world.new) }
    ensures ends { Comes (EndsChecks (D.map world.old) asked.now (told checks.now None
        (D.trace world.old)) (D.trace world.new)) (exit_status result) (told_of_exit result) None None }
{
    let status = end_of(
        checks.has_checked,
        asked.request.allows_none,
        checks.greatest,
    )?;
    write_report_if(world, asked.request.junit, &checks.report)?;
    Ok(status)
}

fn write_report_if<'a, D: World>(
    world: &mut D,
    path: Option<&'a str>,
    report: &Option<TestReport>,
) -> Result<(), RequestFault<'a>>
    ensures fails { IfErr result (λ fault. request_status fault ≡ 3) }
    ensures asks { AsksToReport path.entry (D.trace world.old) (D.trace world.new) }
    ensures writes { OnOk result (WritesReportIf (D.map world.old) path.entry
        (option_map reported report.now) (D.trace world.old) (D.trace world.new)) }
{
    match path {
        Some(path) => match report {
            Some(report) => write_report(world, path, report),
            None => Ok(()),
        },
        None => Ok(()),
    }
}

// Returns the greatest status, unless no image was checked and that is not allowed.
fn end_of<'a>(has_checked: bool, allows_none: bool, greatest: u8) -> Result<u8, RequestFault<'a>>
    ensures most { greatest ≤ 3 → IfOk result (λ status. status ≤ 3) }
    ensures ends { EndsWith (has_checked || allows_none) greatest (exit_status result)
        (told_of_exit result) }
{
    if has_checked || allows_none {
        Ok(greatest)
    } else {
        Err(RequestFault::NoImages)
    }
}

// The checks so far: their shared room, the greatest status, whether there was one, and how many files
// below a folder were skipped, and the report of all, if one is requested.
#[derive(Drop)]
struct Checks {
    room: Room<Global>,
    greatest: u8,
    has_checked: bool,
    skipped: u64,
    report: Option<TestReport>,
}

impl Checks {
    ghost use Rattle.uimg_tool.specs.Checks.{Answers, AnswersNamed, AnswersUnlessEmpty, IsReported, text_for};

    fn check_all<'b, D: World, W: Write>(
        &mut self,
        world: &mut D,
        asked: &Keyed<'_, 'b>,
        out: &mut W,
    ) -> Result<(), RequestFault<'b>>
        ensures grows { Grows self.old.greatest self.new.greatest }
        ensures told { OnOk result (AnswersAll (D.map world.old) asked.now
            (told self.old (W.contents out.old) (D.trace world.old))
            (told self.new (W.contents out.new) (D.trace world.new))) }
        ensures same { SameFiles (D.map world.old) (D.map world.new) }
        ensures changes { changes (D.trace world.new) ≡ changes (D.trace world.old) }
        ensures fails { IfErr result (λ fault. request_status fault ≡ 3) }
    {
        for path in &asked.request.images {
            self.check_given(world, asked, path, out)?;
        }
        match asked.request.files_from {
            Some(path) => self.check_named(world, asked, path, out),
            None => Ok(()),
        }
    }

    fn check_named<'b, D: World, W: Write>(
        &mut self,
        world: &mut D,
        asked: &Keyed<'_, 'b>,
        path: &'b str,
        out: &mut W,
    ) -> Result<(), RequestFault<'b>>
        ensures grows { Grows self.old.greatest self.new.greatest }
        ensures told { OnOk result (AnswersNamed (D.map world.old) asked.now path.entry.now
            (told self.old (W.contents out.old) (D.trace world.old))
            (told self.new (W.contents out.new) (D.trace world.new))) }
        ensures same { SameFiles (D.map world.old) (D.map world.new) }
        ensures changes { changes (D.trace world.new) ≡ changes (D.trace world.old) }
        ensures fails { IfErr result (λ fault. request_status fault ≡ 3) }
    {
        let file = match world.read(names_path(path)) {
            Ok(file) => file,
            Err(error) => return Err(no_names(path, error)),
        };
        let Ok(names) = paths_in(world.alloc(), file, names_end(asked)) else {
            return Err(RequestFault::OutOfMemory);
        };
        for name in names {
            match name {
                Ok(name) => self.check_unless_empty(world, asked, name.as_slice(), out)?,
                Err(error) => return Err(no_names(path, error)),
            }
        }
        Ok(())
    }

    // An empty line of the file of names has an empty path.
    fn check_unless_empty<'b, D: World, W: Write>(
        &mut self,
        world: &mut D,
        asked: &Keyed<'_, 'b>,
        path: &[u8],
        out: &mut W,
    ) -> Result<(), RequestFault<'b>>
        ensures grows { Grows self.old.greatest self.new.greatest }
        ensures told { OnOk result (AnswersUnlessEmpty (D.map world.old) asked.now path.now
            (told self.old (W.contents out.old) (D.trace world.old))
            (told self.new (W.contents out.new) (D.trace world.new))) }
        ensures same { SameFiles (D.map world.old) (D.map world.new) }
        ensures changes { changes (D.trace world.new) ≡ changes (D.trace world.old) }
        ensures fails { IfErr result (λ fault. request_status fault ≡ 3) }
    {
        if path.is_empty() {
            return Ok(());
        }
        self.check(world, asked, path, out)
    }

    fn check<'b, D: World, W: Write>(
        &mut self,
        world: &mut D,
        asked: &Keyed<'_, 'b>,
        path: &[u8],
        out: &mut W,
    ) -> Result<(), RequestFault<'b>>
        ensures grows { Grows self.old.greatest self.new.greatest }
        ensures told { OnOk result (Answers (D.map world.old) asked.now path.now
            (told self.old (W.contents out.old) (D.trace world.old))
            (told self.new (W.contents out.new) (D.trace world.new))) }
        ensures same { SameFiles (D.map world.old) (D.map world.new) }
        ensures changes { changes (D.trace world.new) ≡ changes (D.trace world.old) }
        ensures fails { IfErr result (λ fault. request_status fault ≡ 3) }
    {
        let mut names = Names::new(world.alloc());
        let answer = answer(world, asked, path, &mut self.room, &mut names);
        self.put(world.alloc(), asked, path, &answer, out)
    }

    fn check_input<'b, D: World, W: Write>(
        &mut self,
        world: &mut D,
        asked: &Keyed<'_, 'b>,
        path: &str,
        out: &mut W,
    ) -> Result<(), RequestFault<'b>>
        ensures grows { Grows self.old.greatest self.new.greatest }
        ensures told { OnOk result (Answers (D.map world.old) asked.now path.now
            (told self.old (W.contents out.old) (D.trace world.old))
            (told self.new (W.contents out.new) (D.trace world.new))) }
        ensures same { SameFiles (D.map world.old) (D.map world.new) }
        ensures changes { changes (D.trace world.new) ≡ changes (D.trace world.old) }
        ensures fails { IfErr result (λ fault. request_status fault ≡ 3) }
    {
        let mut names = Names::new(world.alloc());
        let answer = answer_input(world, asked, path, &mut self.room, &mut names);
        self.put(world.alloc(), asked, path.as_bytes(), &answer, out)
    }

    // Notes an answer, also in the report, and writes its line.
    fn put<'b, W: Write>(
        &mut self,
        alloc: Global,
        asked: &Keyed<'_, 'b>,
        path: &[u8],
        answer: &Answer<'_>,
        out: &mut W,
    ) -> Result<(), RequestFault<'b>>
        ensures grows { Grows self.old.greatest self.new.greatest }
        ensures greatest { self.new.greatest ≡ max self.old.greatest (answer_status answer.now) }
        ensures checked { self.new.has_checked ≡ true }
        ensures skipped { self.new.skipped ≡ self.old.skipped }
        ensures put { OnOk result (Appends (W.contents out.old) (W.contents out.new)
            (text_for asked.now path.now answer.now) × IsReported path.now answer.now
            (option_map reported self.old.report) (option_map reported self.new.report)) }
        ensures fails { IfErr result (λ fault. request_status fault ≡ 3) }
    {
        self.greatest = u8::max(self.greatest, answer.status());
        self.has_checked = true;
        self.add_to_report(alloc, path, answer)?;
        if asked.request.is_quiet && answer.word() == "ok" {
            return Ok(());
        }
        put_answer(alloc, asked.request.as_json, path, answer, out)
    }

    // Adds an answer to the report, if one is requested.
    fn add_to_report<'b>(
        &mut self,
        alloc: Global,
        path: &[u8],
        answer: &Answer<'_>,
    ) -> Result<(), RequestFault<'b>>
        ensures greatest { self.new.greatest ≡ self.old.greatest }
        ensures checked { self.new.has_checked ≡ self.old.has_checked }
        ensures skipped { self.new.skipped ≡ self.old.skipped }
        ensures report { OnOk result (IsReported path.now answer.now
            (option_map reported self.old.report) (option_map reported self.new.report)) }
        ensures fails { IfErr result (λ fault. request_status fault ≡ 3) }
    {
        let Some(report) = &mut self.report else {
            return Ok(());
        };
        match report.add(alloc, path, answer) {
            Ok(()) => Ok(()),
            Err(_) => Err(RequestFault::OutOfMemory),
        }
    }
}

// What arrives on standard input is the file at the path.
#[tactic(auto, using(crate::proofs::CheckLaws::file_answered, crate::proofs::CheckLaws::failed_file))]
fn answer_input<'n, D: World>(
    world: &mut D,
    asked: &'n Keyed<'_, '_>,
    path: &str,
    room: &mut Room<Global>,
    names: &'n mut Names,
) -> Answer<'n>
    ensures file { AnswersFile (D.map world.old) asked.now path.now result }
    ensures looked { LooksAt path.now (D.trace world.old) (D.trace world.new) }
    ensures same { SameFiles (D.map world.old) (D.map world.new) }
    ensures changes { changes (D.trace world.new) ≡ changes (D.trace world.old) }
{
    match world.open_input(path, None, asked.request.most_input) {
        Ok(mut source) => {
            answer_of_source(world.alloc(), &asked.terms, &mut source, room, names)
        }
        Err(_) => answer_of_unread(world, path, names),
    }
}

// The path may have any bytes.
#[tactic(auto, using(crate::proofs::CheckLaws::failed_file))]
fn answer<'n, D: World>(
    world: &mut D,
    asked: &'n Keyed<'_, '_>,
    path: &[u8],
    room: &mut Room<Global>,
    names: &'n mut Names,
) -> Answer<'n>
    ensures file { AnswersFile (D.map world.old) asked.now path.now result }
    ensures looked { LooksAt path.now (D.trace world.old) (D.trace world.new) }
    ensures same { SameFiles (D.map world.old) (D.map world.new) }
    ensures changes { changes (D.trace world.new) ≡ changes (D.trace world.old) }
{
    match str::from_utf8(path) {
        Ok(path) => answer_text(world, asked, path, room, names),
        Err(_) => NOT_UTF8,
    }
}

#[tactic(auto, using(crate::proofs::CheckLaws::file_answered, crate::proofs::CheckLaws::failed_file))]
fn answer_text<'n, D: World>(
    world: &mut D,
    asked: &'n Keyed<'_, '_>,
    path: &str,
    room: &mut Room<Global>,
    names: &'n mut Names,
) -> Answer<'n>
    ensures file { AnswersFile (D.map world.old) asked.now path.now result }
    ensures looked { LooksAt path.now (D.trace world.old) (D.trace world.new) }
    ensures same { SameFiles (D.map world.old) (D.map world.new) }
    ensures changes { changes (D.trace world.new) ≡ changes (D.trace world.old) }
{
    match world.open(path) {
        Ok(mut source) => {
            answer_of_source(world.alloc(), &asked.terms, &mut source, room, names)
        }
        Err(_) => answer_of_unread(world, path, names),
    }
}

// `-` is standard input.
fn names_path(path: &str) -> &str
    ensures { result.now ≡ names_path path.entry.now }
{
    if path == "-" { STANDARD_INPUT } else { path }
}

fn names_end(asked: &Keyed<'_, '_>) -> u8
    ensures { result ≡ names_end asked.now }
{
    if asked.request.has_nuls { 0 } else { b'\n' }
}

// Writes the line of a result, and flushes it.
fn put_answer<'b, W: Write>(
    alloc: Global,
    as_json: bool,
    path: &[u8],
    answer: &Answer<'_>,
    out: &mut W,
) -> Result<(), RequestFault<'b>>
    ensures put { OnOk result (Appends (W.contents out.old) (W.contents out.new)
        (answer_text as_json path.now answer.now)) }
    ensures fails { IfErr result (λ fault. request_status fault ≡ 3) }
{
    if as_json {
        return put_object(alloc, path, answer, out);
    }
    put_line(alloc, path, answer, out)
}

fn put_object<'b, W: Write>(
    alloc: Global,
    path: &[u8],
    answer: &Answer<'_>,
    out: &mut W,
) -> Result<(), RequestFault<'b>>
    ensures put { OnOk result (Appends (W.contents out.old) (W.contents out.new)
        (object_line path.now answer.now)) }
    ensures fails { IfErr result (λ fault. request_status fault ≡ 3) }
{
    let Ok(text) = object_text(alloc, path, answer) else {
        return Err(RequestFault::OutOfMemory);
    };
    if let Err(error) = put_json(text.as_slice(), out) {
        return Err(unprinted(error));
    }
    flush(out)
}

fn put_line<'b, W: Write>(
    alloc: Global,
    path: &[u8],
    answer: &Answer<'_>,
    out: &mut W,
) -> Result<(), RequestFault<'b>>
    ensures put { OnOk result (Appends (W.contents out.old) (W.contents out.new)
        (text_line path.now answer.now)) }
    ensures fails { IfErr result (λ fault. request_status fault ≡ 3) }
{
    let Ok(text) = line_text(alloc, path, answer) else {
        return Err(RequestFault::OutOfMemory);
    };
    if let Err(error) = writeln!(out, "{text}") {
        return Err(unprinted(error));
    }
    flush(out)
}

fn flush<'b, W: Write>(out: &mut W) -> Result<(), RequestFault<'b>>
    ensures kept { Keeps (W.contents out.old) (W.contents out.new) }
    ensures fails { IfErr result (λ fault. request_status fault ≡ 3) }
{
    match out.flush() {
        Ok(()) => Ok(()),
        Err(error) => Err(unprinted(error)),
    }
}

// The file of names cannot be read.
fn no_names<'b>(path: &'b str, error: io::Error) -> RequestFault<'b>
    ensures { request_status result ≡ 3 }
{
    match error.kind() {
        ErrorKind::OutOfMemory => RequestFault::OutOfMemory,
        _ => RequestFault::Unread(Printed(path.as_bytes()), error),
    }
}
