//! Prints the differences of two images, as lines.

ghost use Rattle.std.specs.Prelude.{◌≡◌, ◌≤◌, map, IfOk, IsTrue};
ghost use Rattle.uimg_base.specs.{Honest.IfHonest, Named.SameFiles};
ghost use Rattle.uimg_info.specs.{Comparing.{compared, differs}, Statement.stated};
ghost use Rattle.uimg_tool.specs.{Answering.{Comes, OfFile}, FaultTexts.{told_of, told_of_exit}, Statuses.{exit_status, request_status}};
ghost use Rattle.uimg_engine.specs.declared.fault.Fault.TheVariants.{Legacy};
ghost use Rattle.uimg_tool.specs.{Diffs.{GivesStated, IsCompared, IsPrinted, MeansDiff, MeansNext, ReadsStated, in_image, legacy_states, stated_of, status_of_differences, twice_text}, Facts.fault_as};
ghost use Rattle.uimg_world.specs.Deeds.{changes};

use crate::complaints::{unprinted, unread};
use crate::facts::Stop;
use crate::request_fault::{DONE, REFUSED, RequestFault};
use std::alloc::Global;
use std::io::Write;
use uimg_base::{Room, Source};
use uimg_cli::DiffRequest;
use uimg_engine::{Fault, Form, is_fit};
use uimg_info::{
    CompareFault, Difference, Statement, compare, fit_statements, legacy_statements,
    put_differences,
};
use uimg_legacy::{locate_parts, read_header};
use uimg_printing::Printed;
use uimg_world::World;

/// Writes a line for each difference of the requested images. The first image is read before the
/// second one is opened.
#[tactic(auto, using(crate::proofs::DiffLaws::first_read))]
pub(crate) fn diff_images<'a, D: World, W: Write>(
    world: &mut D,
    request: &DiffRequest<'a>,
    out: &mut W,
) -> Result<u8, RequestFault<'a>>
    ensures most { IfOk result (λ status. status ≤ 3) }
    ensures reads { changes (D.trace world.new) ≡ changes (D.trace world.old) }
    ensures means { IsTrue (D.map world.old).honest → Comes (MeansDiff request.now (D.map world.old)) (exit_status result) (told_of_exit result)
        (W.contents out.old) (W.contents out.new) }
{
    match statements_at(world, request.old) {
        Ok(old) => diff_from(world, request, old.as_slice(), out),
        Err(fault) => Err(fault),
    }
}

// Compares the first image, which states this, with the second.
#[tactic(auto, using(crate::proofs::DiffLaws::both_read))]
fn diff_from<'a, D: World, W: Write>(
    world: &mut D,
    request: &DiffRequest<'a>,
    old: &[Statement],
    out: &mut W,
) -> Result<u8, RequestFault<'a>>
    ensures most { IfOk result (λ status. status ≤ 3) }
    ensures reads { changes (D.trace world.new) ≡ changes (D.trace world.old) }
    ensures means { IsTrue (D.map world.old).honest → Comes (OfFile (D.map world.old)
        request.now.new.now (MeansNext request.now (map stated old.now))) (exit_status result) (told_of_exit result) (W.contents out.old)
        (W.contents out.new) }
{
    match statements_at(world, request.new) {
        Ok(new) => print_differences(world.alloc(), request, old, new.as_slice(), out),
        Err(fault) => Err(fault),
    }
}

#[tactic(auto, using(crate::proofs::DiffLaws::compared_printed, crate::proofs::DiffLaws::compared_first, crate::proofs::DiffLaws::compared_second))]
fn print_differences<'a, W: Write>(
    alloc: Global,
    request: &DiffRequest<'a>,
    old: &[Statement],
    new: &[Statement],
    out: &mut W,
) -> Result<u8, RequestFault<'a>>
    ensures most { IfOk result (λ status. status ≤ 3) }
    ensures means { Comes (IsCompared request.now
        (compared (map stated old.now) (map stated new.now))) (exit_status result)
        (told_of_exit result) (W.contents out.old) (W.contents out.new) }
{
    match compare(alloc, old, new) {
        Ok(found) => print_found(alloc, request.as_json, found.as_slice(), out),
        Err(CompareFault::TwiceInOld) => Err(twice(request.old)),
        Err(CompareFault::TwiceInNew) => Err(twice(request.new)),
        Err(CompareFault::OutOfMemory) => Err(RequestFault::OutOfMemory),
    }
}

#[tactic(auto, using(crate::proofs::DiffLaws::found_printed))]
fn print_found<'a, W: Write>(
    alloc: Global,
    as_json: bool,
    found: &[Difference<'_>],
    out: &mut W,
) -> Result<u8, RequestFault<'a>>
    ensures most { IfOk result (λ status. status ≤ 3) }
    ensures means { Comes (IsPrinted as_json (map differs found.now)) (exit_status result)
        (told_of_exit result) (W.contents out.old) (W.contents out.new) }
{
    match put_differences(alloc, as_json, found, out) {
        Ok(()) => Ok(status_of_differences(found)),
        Err(error) => Err(unprinted(error)),
    }
}

fn status_of_differences(found: &[Difference<'_>]) -> u8
    ensures { result ≡ status_of_differences (map differs found.now) }
{
    if found.is_empty() { DONE } else { REFUSED }
}

fn twice<'a>(path: &'a str) -> RequestFault<'a>
    ensures status { request_status result ≡ 1 }
    ensures told { told_of result ≡ in_image path.entry.now twice_text }
{
    RequestFault::Twice(Printed(path.as_bytes()))
}

#[tactic(auto, using(crate::proofs::DiffLaws::file_read))]
fn statements_at<'a, D: World>(
    world: &mut D,
    path: &'a str,
) -> Result<Vec<Statement>, RequestFault<'a>>
    ensures same { SameFiles (D.map world.old) (D.map world.new) }
    ensures reads { changes (D.trace world.new) ≡ changes (D.trace world.old) }
    ensures told { IsTrue (D.map world.old).honest →
        ReadsStated (D.map world.old) path.entry.now result }
{
    let Ok(mut source) = world.open(path) else {
        return Err(unread(world, path));
    };
    match statements_of(world.alloc(), &mut source) {
        Ok(all) => Ok(all),
        Err(Stop::Refused(fault)) => Err(RequestFault::InImage(Printed(path.as_bytes()), fault)),
        Err(Stop::Changed) => Err(RequestFault::InImage(Printed(path.as_bytes()), Fault::Read)),
        Err(Stop::NoMemory) => Err(RequestFault::OutOfMemory),
    }
}

#[tactic(auto, using(crate::proofs::DiffLaws::fit_given, crate::proofs::DiffLaws::as_legacy))]
fn statements_of<S: Source>(alloc: Global, source: &mut S) -> Result<Vec<Statement>, Stop>
    ensures { IfHonest S.device source (λ file. GivesStated (stated_of file) result) }
{
    let mut room = Room::new(alloc);
    match is_fit(Form::Guess, source) {
        Ok(true) => match fit_statements(alloc, source, &mut room) {
            Ok(all) => Ok(all),
            Err(fault) => Err(Stop::from(fault)),
        },
        Ok(false) => statements_of_legacy(alloc, source, &mut room),
        Err(_) => Err(Stop::Refused(Fault::Read)),
    }
}

#[tactic(auto, using(crate::proofs::DiffLaws::header_refused, crate::proofs::DiffLaws::parts_refused, crate::proofs::DiffLaws::own_stops))]
fn statements_of_legacy<S: Source>(
    alloc: Global,
    source: &mut S,
    room: &mut Room<Global>,
) -> Result<Vec<Statement>, Stop>
    ensures { IfHonest S.device source (λ file.
        GivesStated (fault_as Legacy (legacy_states file)) result) }
{
    let header = match read_header(source) {
        Ok(header) => header,
        Err(fault) => return Err(Stop::Refused(Fault::from(fault))),
    };
    let parts = match locate_parts(alloc, source, room, &header) {
        Ok(parts) => parts,
        Err(fault) => return Err(Stop::from(fault)),
    };
    match legacy_statements(alloc, source, room, &header, parts.as_slice()) {
        Ok(all) => Ok(all),
        Err(fault) => Err(Stop::from(fault)),
    }
}
