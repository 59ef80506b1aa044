//! Prints the facts of an image, as a line of JSON.

ghost use Rattle.std.specs.Prelude.{◌≡◌, ◌≤◌, ◌⊎◌, IfErr, IfOk, IsTrue, OnOk};
ghost use Rattle.std.specs.Io.KnownBytes.{Appends};
ghost use Rattle.uimg_base.specs.Honest.{IfHonest};
ghost use Rattle.uimg_checks.specs.{Answers.answer_status, Objects.check_json};
ghost use Rattle.uimg_engine.specs.declared.fault.Fault.TheVariants.{Legacy};
ghost use Rattle.uimg_tool.specs.{Answering.{Comes, OfFile}, FaultTexts.told_of_exit, JsonLines.shown_line, Statuses.{exit_status, request_status}};
ghost use Rattle.uimg_tool.specs.Facts.{GivesFacts, IsFacts, IsObjectOf, IsTextOf, TellsFacts, facts_of, fault_as, legacy_facts};
ghost use Rattle.uimg_world.specs.Deeds.{changes};

use crate::complaints::unprinted;
use crate::json_lines::put_json;
use crate::opening::open_image;
use crate::request_fault::{DONE, RequestFault};
use crate::unread::answer_of_unread;
use std::alloc::{AllocError, Global};
use std::io::Write;
use uimg_base::{Room, Source};
use uimg_checks::{Answer, CHANGED, Names, answer_of_fault, object_text};
use uimg_cli::InfoRequest;
use uimg_engine::{Fault, Form, is_fit};
use uimg_fit_checking::SurveyFault;
use uimg_info::{fit_text, legacy_text};
use uimg_legacy::{PartsFault, locate_parts, read_header};
use uimg_world::World;

/// Writes the facts of the requested image as a line on `out`, or why there are none.
#[tactic(auto, using(crate::proofs::InfoLaws::facts_come))]
pub(crate) fn tell_facts<'a, D: World, W: Write>(
    world: &mut D,
    request: &InfoRequest<'a>,
    out: &mut W,
) -> Result<u8, RequestFault<'a>>
    ensures most { IfOk result (λ status. status ≤ 3) }
    ensures reads { changes (D.trace world.new) ≡ changes (D.trace world.old) }
    ensures means { IsTrue (D.map world.old).honest → Comes (OfFile (D.map world.old)
        request.now.image.now (IsFacts request.now.image.now)) (exit_status result)
        (told_of_exit result) (W.contents out.old) (W.contents out.new) }
{
    match object_of(world, request.image, request.most_input) {
        Ok((text, status)) => put_object(text.as_slice(), status, out),
        Err(_) => Err(RequestFault::OutOfMemory),
    }
}

/// Writes a line of JSON. Returns the status.
pub(crate) fn put_object<'a, W: Write>(
    text: &[u8],
    status: u8,
    out: &mut W,
) -> Result<u8, RequestFault<'a>>
    ensures put { OnOk result (Appends (W.contents out.old) (W.contents out.new)
        (shown_line text.now)) }
    ensures status { IfOk result (λ given. given ≡ status) }
    ensures fails { IfErr result (λ fault. request_status fault ≡ 3) }
{
    match put_json(text, out) {
        Ok(()) => Ok(status),
        Err(error) => Err(unprinted(error)),
    }
}

/// Why an image has no facts or statements.
pub(crate) enum Stop {
    /// The image is refused, or a read failed.
    Refused(Fault),

    /// The file has another blob when it is read again.
    Changed,

    /// Memory ran out.
    NoMemory,
}

impl From<SurveyFault> for Stop {
    ghost use Rattle.std.specs.Prelude.{◌≡◌};
    ghost use Rattle.uimg_tool.specs.InfoEnds.{stop_of_survey};

    ghost from_gives = { λ fault stop. stop ≡ stop_of_survey fault };

    fn from(fault: SurveyFault) -> Stop {
        match fault {
            SurveyFault::Stopped(fault) => Stop::Refused(Fault::from(fault)),
            SurveyFault::OutOfMemory => Stop::NoMemory,
            SurveyFault::Changed => Stop::Changed,
        }
    }
}

impl From<PartsFault> for Stop {
    ghost use Rattle.std.specs.Prelude.{◌≡◌};
    ghost use Rattle.uimg_tool.specs.InfoEnds.{stop_of_parts};

    ghost from_gives = { λ fault stop. stop ≡ stop_of_parts fault };

    fn from(fault: PartsFault) -> Stop {
        match fault {
            PartsFault::Stopped(fault) => Stop::Refused(Fault::from(fault)),
            PartsFault::OutOfMemory => Stop::NoMemory,
        }
    }
}

#[tactic(auto, using(crate::proofs::InfoLaws::object_told, crate::proofs::InfoLaws::unread_told))]
fn object_of<D: World>(
    world: &mut D,
    path: &str,
    most_input: u64,
) -> Result<(Vec<u8>, u8), AllocError>
    ensures most { IfOk result (λ found. found.1 ≤ 3) }
    ensures told { IsTrue (D.map world.old).honest → IfOk result (λ found.
        IsObjectOf (D.map world.old) path.now found.1 found.0.items) }
    ensures reads { changes (D.trace world.new) ≡ changes (D.trace world.old) }
{
    let Ok(mut source) = open_image(world, path, None, most_input) else {
        let mut names = Names::new(world.alloc());
        let answer = answer_of_unread(world, path, &mut names);
        return object_with(world.alloc(), path, &answer);
    };
    object_in(world.alloc(), path, &mut source)
}

#[tactic(auto, using(crate::proofs::InfoLaws::facts_told, crate::proofs::InfoLaws::refused_told))]
fn object_in<S: Source>(
    alloc: Global,
    path: &str,
    source: &mut S,
) -> Result<(Vec<u8>, u8), AllocError>
    ensures most { IfOk result (λ found. found.1 ≤ 3) }
    ensures told { IfHonest S.device source (λ file. IfOk result (λ found.
        (found.1 ≡ 3) ⊎ TellsFacts path.now (facts_of path.now file) found.1 found.0.items)) }
{
    let mut names = Names::new(alloc);
    match facts_of(alloc, path, source) {
        Ok(text) => Ok((text, DONE)),
        Err(Stop::NoMemory) => Err(AllocError),
        Err(Stop::Changed) => object_with(alloc, path, &CHANGED),
        Err(Stop::Refused(fault)) => object_with(alloc, path, &answer_of_fault(fault, &mut names)),
    }
}

fn object_with(alloc: Global, path: &str, answer: &Answer<'_>) -> Result<(Vec<u8>, u8), AllocError>
    ensures most { IfOk result (λ found. found.1 ≤ 3) }
    ensures status { IfOk result (λ found. found.1 ≡ answer_status answer.now) }
    ensures text { IfOk result (λ found.
        IsTextOf (check_json path.now answer.now) found.0.items) }
{
    let text = object_text(alloc, path.as_bytes(), answer)?;
    Ok((text, answer.status()))
}

#[tactic(auto, using(crate::proofs::InfoLaws::fit_given, crate::proofs::InfoLaws::fit_refused, crate::proofs::InfoLaws::as_legacy))]
fn facts_of<S: Source>(alloc: Global, path: &str, source: &mut S) -> Result<Vec<u8>, Stop>
    ensures { IfHonest S.device source (λ file. GivesFacts (facts_of path.now file) result) }
{
    let mut room = Room::new(alloc);
    match is_fit(Form::Guess, source) {
        Ok(true) => match fit_text(alloc, path, source, &mut room) {
            Ok(text) => Ok(text),
            Err(fault) => Err(Stop::from(fault)),
        },
        Ok(false) => legacy_facts(alloc, path, source, &mut room),
        Err(_) => Err(Stop::Refused(Fault::Read)),
    }
}

#[tactic(auto, using(crate::proofs::InfoLaws::header_refused, crate::proofs::InfoLaws::parts_refused))]
fn legacy_facts<S: Source>(
    alloc: Global,
    path: &str,
    source: &mut S,
    room: &mut Room<Global>,
) -> Result<Vec<u8>, Stop>
    ensures { IfHonest S.device source (λ file.
        GivesFacts (fault_as Legacy (legacy_facts path.now file)) result) }
{
    let header = match read_header(source) {
        Ok(header) => header,
        Err(fault) => return Err(Stop::Refused(Fault::from(fault))),
    };
    let parts = match locate_parts(alloc, source, room, &header) {
        Ok(parts) => parts,
        Err(fault) => return Err(Stop::from(fault)),
    };
    let Ok(size) = source.size() else {
        return Err(Stop::Refused(Fault::Read));
    };
    match legacy_text(alloc, path, size, &header, parts.as_slice()) {
        Ok(text) => Ok(text),
        Err(_) => Err(Stop::NoMemory),
    }
}
