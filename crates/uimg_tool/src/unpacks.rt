//! Unpacks an image.

ghost use Rattle.std.specs.Prelude.{◌≡◌, ◌⊎◌, ◌≤◌, ℕ, List, Err, IfErr, IfOk, IfSome, IsTrue, None, OnErr, Option, Some, is_some, true, false};
ghost use Rattle.uimg_base.specs.{Device.SameDevice, Honest.IfHonest};
ghost use Rattle.uimg_checks.specs.{CheckEnds.Shows, Verdicts.verdict_of};
ghost use Rattle.uimg_tool.specs.{Answering.Comes, EndingStatuses.ending_status, FaultTexts.told_of_complaint, Statuses.closing_status};
ghost use Rattle.uimg_tool.specs.Leavings.{LeavesAsked, LeavesEnding, is_refusal};
ghost use Rattle.uimg_tool.specs.UnpackComplaints.{EndsAsked, EndsOver, EndsSigned};
ghost use Rattle.uimg_tool.specs.Unpackings.{HoldsPayloads, IsChosen, IsRight, IsUnchosen, KeepsAt, KeepsBy, KeepsImage, RightAt, SignedBy, is_signed, signed_terms, unpacking_of};
ghost use Rattle.uimg_tool.specs.Unpacked.{GuardsUnpack, MeansUnpack, TellsImage};
ghost use Rattle.uimg_unpacking.specs.Leaving.{Leaves};
ghost use Rattle.uimg_unpacking.specs.Places.{ChangesWithin, Obeys, terms_of};

use crate::complaint::Complaint;
use crate::json_lines::JsonOut;
use crate::keys::keys_of;
use crate::opening::open_image;
use crate::request_fault::DONE;
use crate::unpack_answers::Ending;
use crate::unpack_ends::{end_of, troubled};
use std::alloc::Global;
use std::collections::BTreeSet;
use std::io::Write;
use uimg_base::{Room, Source, Status};
use uimg_checks::{Answer, Configurations, Names, Terms, answer_of_source, configuration_images};
use uimg_cli::UnpackRequest;
use uimg_engine::{Fault, Form, is_fit};
use uimg_unpacking::{Folder, Limits, Trouble, Unpacking, unpack, unpack_parts};
use uimg_world::{FileId, World};

/// Cleans the folder and unpacks the image, as requested. Writes a line for each removed file,
/// payload or part on `out`, and for JSON a fault, too. A file of keys is read first. Then nothing is
/// written unless they sign the image, and each of its images.
#[tactic(auto, using(crate::proofs::UnpackLaws::unchanged, crate::proofs::UnpackLaws::noted_before))]
pub(crate) fn unpack_image<'a, D: World, W: Write + Drop>(
    world: &mut D,
    request: &UnpackRequest<'a>,
    out: &mut W,
) -> Result<u8, Complaint<'a>>
    ensures most { IfOk result (λ status. status ≤ 3) }
    ensures within { ChangesWithin request.now.folder.now true (D.trace world.old)
        (D.trace world.new) }
    ensures guards { GuardsUnpack request.now (D.map world.old) (closing_status result)
        (D.trace world.old) (D.trace world.new) }
    ensures means { IsTrue (D.map world.old).honest → (old : Option (List ℕ)) → (new : Option (List ℕ)) →
        Comes (MeansUnpack request.now (D.map world.old) (D.trace world.old) (D.trace world.new))
        (closing_status result) (told_of_complaint result) old new }
{
    let required = match keys_of(world, request.key) {
        Ok(required) => required,
        Err(fault) => return Err(Complaint::Request(fault)),
    };
    let terms = Terms {
        need: request.need,
        is_strict: true,
        required,
        covers_images: true,
        lists: false,
    };
    unpack_by(world, request, &terms, out)
}

// The terms have the keys.
#[tactic(auto, using(crate::proofs::UnpackLaws::cleaned_alone, crate::proofs::UnpackLaws::cleaned_first))]
fn unpack_by<'a, D: World, W: Write + Drop>(
    world: &mut D,
    request: &UnpackRequest<'a>,
    terms: &Terms<'_>,
    out: &mut W,
) -> Result<u8, Complaint<'a>>
    requires covers { terms.now.covers_images ≡ true }
    requires terms { terms.now ≡ signed_terms request.now terms.now.required }
    ensures most { IfOk result (λ status. status ≤ 3) }
    ensures within { ChangesWithin request.now.folder.now true (D.trace world.old)
        (D.trace world.new) }
    ensures right { IsTrue (D.map world.old).honest → request.now.cleans ≡ false →
        closing_status result ≡ 0 → RightAt (D.map world.old) request.now terms.now.required
        request.now.image (D.trace world.old) (D.trace world.new) }
    ensures kept { IsTrue (D.map world.old).honest → request.now.cleans ≡ false →
        KeepsImage (D.map world.old) terms.now.required request.now.image (D.trace world.old)
        (D.trace world.new) }
    ensures left { request.now.cleans ≡ false → LeavesAsked request.now (closing_status result)
        (D.trace world.old) (D.trace world.new) }
    ensures tells { IsTrue (D.map world.old).honest → request.now.cleans ≡ false →
        (closing_status result ≡ 3) ⊎ TellsImage (D.map world.old) request.now terms.now.required
        request.now.image (closing_status result) (told_of_complaint result) }
{
    match (clean_if(world, request, out), request.image) {
        (Err(trouble), _) => Err(troubled(trouble)),
        (Ok(()), Some(image)) => unpack_and_tell(world, image, request, terms, out),
        (Ok(()), None) => Ok(DONE),
    }
}

#[tactic(auto, using(crate::proofs::UnpackLaws::unchanged))]
fn clean_if<D: World, W: Write>(
    world: &mut D,
    request: &UnpackRequest<'_>,
    out: &mut W,
) -> Result<(), Trouble>
    ensures within { ChangesWithin request.now.folder.now false (D.trace world.old)
        (D.trace world.new) }
    ensures kept { request.now.cleans ≡ false → D.map world.new ≡ D.map world.old }
    ensures unasked { request.now.cleans ≡ false → D.trace world.new ≡ D.trace world.old }
    ensures done { OnErr result (request.now.cleans ≡ true) }
{
    if request.cleans {
        return folder_of(request, None).clean(world, request.image, out);
    }
    Ok(())
}

#[tactic(auto, using(crate::proofs::UnpackLaws::told_after, crate::proofs::UnpackLaws::right_told, crate::proofs::UnpackLaws::kept_told))]
fn unpack_and_tell<'a, D: World, W: Write + Drop>(
    world: &mut D,
    path: &'a str,
    request: &UnpackRequest<'a>,
    terms: &Terms<'_>,
    out: &mut W,
) -> Result<u8, Complaint<'a>>
    requires covers { terms.now.covers_images ≡ true }
    requires terms { terms.now ≡ signed_terms request.now terms.now.required }
    ensures most { IfOk result (λ status. status ≤ 3) }
    ensures within { ChangesWithin request.now.folder.now true (D.trace world.old)
        (D.trace world.new) }
    ensures right { IsTrue (D.map world.old).honest → closing_status result ≡ 0 →
        RightAt (D.map world.old) request.now terms.now.required (Some path.entry)
        (D.trace world.old) (D.trace world.new) }
    ensures kept { IsTrue (D.map world.old).honest → KeepsAt (D.map world.old)
        terms.now.required path.now (D.trace world.old) (D.trace world.new) }
    ensures left { LeavesAsked request.now (closing_status result) (D.trace world.old)
        (D.trace world.new) }
    ensures tells { IsTrue (D.map world.old).honest → (closing_status result ≡ 3) ⊎ TellsImage
        (D.map world.old) request.now terms.now.required (Some path.entry) (closing_status result)
        (told_of_complaint result) }
{
    let mut names = (Names::new(world.alloc()), Names::new(world.alloc()));
    let ending = unpack_at(world, path, request, terms, &mut names, out);
    end_of(world, path, request.as_json, ending, out)
}

fn folder_of<'a, 'p: 'a>(request: &UnpackRequest<'p>, image: Option<FileId>) -> Folder<'a>
    ensures { result ≡ record {
      path = request.now.folder;
      image = image;
      is_forced = request.now.is_forced;
      is_synced = request.now.is_synced;
    } }
{
    Folder {
        path: request.folder,
        image,
        is_forced: request.is_forced,
        is_synced: request.is_synced,
    }
}

// Returns the names of the images of the chosen configuration, if one is chosen.
fn chosen_by<'n, S: Source>(
    alloc: Global,
    config: Option<&str>,
    source: &mut S,
    names: &'n mut Names,
) -> Result<Option<BTreeSet<Vec<u8>>>, Answer<'n>>
    ensures same { SameDevice (S.device source.old) (S.device source.new) }
    ensures chosen { IfHonest S.device source (λ file.
        IfOk result (IsChosen config.entry file)) }
    ensures unchosen { IfHonest S.device source (λ file.
        IfErr result (IsUnchosen config.entry file)) }
{
    let Some(config) = config else {
        return Ok(None);
    };
    let chosen = configuration_images(alloc, config, source, names)?;
    Ok(Some(chosen))
}

fn unpacking_of<'a, 'p: 'a>(
    request: &UnpackRequest<'p>,
    among: Option<&'a BTreeSet<Vec<u8>>>,
    image: Option<FileId>,
    path: &'a str,
) -> Unpacking<'a>
    ensures { result ≡ unpacking_of request.now among.entry image path.entry }
{
    Unpacking {
        folder: folder_of(request, image),
        only: request.only,
        among,
        need: request.need,
        limits: Limits {
            files: request.most_files,
            bytes: request.most_bytes,
        },
        keeps_good: request.keeps_good,
        json: if request.as_json { Some(path) } else { None },
    }
}

#[tactic(auto, using(crate::proofs::UnpackLaws::unchanged, crate::proofs::UnpackLaws::looked_before, crate::proofs::UnpackLaws::right_at))]
fn unpack_at<'a, 'n, D: World, W: Write + Drop>(
    world: &mut D,
    path: &'a str,
    request: &UnpackRequest<'a>,
    terms: &'n Terms<'_>,
    names: &'n mut (Names, Names),
    out: &mut W,
) -> Ending<'n>
    requires covers { terms.now.covers_images ≡ true }
    requires terms { terms.now ≡ signed_terms request.now terms.now.required }
    ensures within { ChangesWithin request.now.folder.now true (D.trace world.old)
        (D.trace world.new) }
    ensures done { IsTrue (D.map world.old).honest → result ≡ Ending.Told Status.Done →
        RightAt (D.map world.old) request.now terms.now.required (Some path.entry)
        (D.trace world.old) (D.trace world.new) }
    ensures kept { IsTrue (D.map world.old).honest → KeepsAt (D.map world.old)
        terms.now.required path.now (D.trace world.old) (D.trace world.new) }
    ensures left { request.now.keeps_good ≡ false → is_refusal (ending_status result) ≡ true →
        Leaves request.now.folder.now (D.trace world.old) (D.trace world.new) }
    ensures ended { IsTrue (D.map world.old).honest → EndsAsked (D.map world.old)
        request.now terms.now.required path.entry result }
{
    let Ok(mut source) = open_image(world, path, Some(request.folder), request.most_input) else {
        return Ending::Unread;
    };
    let (lacking, names) = names;
    match chosen_by(world.alloc(), request.config, &mut source, lacking) {
        Ok(chosen) => {
            let asked = unpacking_of(request, chosen.as_ref(), world.file_at(path), path);
            unpack_as_asked(world, &asked, terms, names, &mut source, out)
        }
        Err(answer) => Ending::Unsigned(answer),
    }
}

// Writes lines on `out`, or JSON objects.
fn unpack_as_asked<'n, D: World, S: Source, W: Write + Drop>(
    world: &mut D,
    asked: &Unpacking<'_>,
    terms: &'n Terms<'_>,
    names: &'n mut Names,
    source: &mut S,
    out: &mut W,
) -> Ending<'n>
    requires { terms.now.covers_images ≡ true }
    ensures within { ChangesWithin asked.now.folder.path.now true (D.trace world.old)
        (D.trace world.new) }
    ensures obeys { Obeys (terms_of asked.now.folder) true (D.trace world.old) (D.trace world.new) }
    ensures done { IfHonest S.device source (λ file. result ≡ Ending.Told Status.Done →
        IsRight asked.now file) }
    ensures signed { IfHonest S.device source (λ file. result ≡ Ending.Told Status.Done →
        SignedBy terms.now.required file) }
    ensures kept { IfHonest S.device source (λ file. KeepsBy terms.now.required file
        (D.trace world.old) (D.trace world.new)) }
    ensures holds { IfHonest S.device source (λ file. IsTrue D.knows →
        result ≡ Ending.Told Status.Done →
        HoldsPayloads asked.now file (D.trace world.new)) }
    ensures ended { IfHonest S.device source (λ file. EndsSigned asked.now terms.now file result) }
    ensures left { LeavesEnding asked.now result (D.trace world.old) (D.trace world.new) }
{
    if asked.json.is_some() {
        unpack_signed(world, asked, terms, names, source, JsonOut::new(out))
    } else {
        unpack_signed(world, asked, terms, names, source, out)
    }
}

// Nothing is written unless the keys sign the image.
#[tactic(auto, using(crate::proofs::UnpackLaws::unchanged, crate::proofs::UnpackLaws::nothing_called, crate::proofs::SignedLaws::unsigned_ended))]
fn unpack_signed<'n, D: World, S: Source, W: Write + Drop>(
    world: &mut D,
    asked: &Unpacking<'_>,
    terms: &'n Terms<'_>,
    names: &'n mut Names,
    source: &mut S,
    out: W,
) -> Ending<'n>
    requires { terms.now.covers_images ≡ true }
    ensures within { ChangesWithin asked.now.folder.path.now true (D.trace world.old)
        (D.trace world.new) }
    ensures obeys { Obeys (terms_of asked.now.folder) true (D.trace world.old) (D.trace world.new) }
    ensures done { IfHonest S.device source (λ file. result ≡ Ending.Told Status.Done →
        IsRight asked.now file) }
    ensures signed { IfHonest S.device source (λ file. result ≡ Ending.Told Status.Done →
        SignedBy terms.now.required file) }
    ensures kept { IfHonest S.device source (λ file. KeepsBy terms.now.required file
        (D.trace world.old) (D.trace world.new)) }
    ensures holds { IfHonest S.device source (λ file. IsTrue D.knows →
        result ≡ Ending.Told Status.Done →
        HoldsPayloads asked.now file (D.trace world.new)) }
    ensures ended { IfHonest S.device source (λ file. EndsSigned asked.now terms.now file result) }
    ensures left { LeavesEnding asked.now result (D.trace world.old) (D.trace world.new) }
{
    match unsigned(world.alloc(), terms, source, names) {
        Some(answer) => Ending::Unsigned(answer),
        None => unpack_source(world, asked, source, out),
    }
}

// Returns the answer of a strict check, unless there are no keys or they sign all.
#[tactic(auto, using(crate::proofs::SignedLaws::signed_shown))]
fn unsigned<'n, S: Source>(
    alloc: Global,
    terms: &'n Terms<'_>,
    source: &mut S,
    names: &'n mut Names,
) -> Option<Answer<'n>>
    requires { terms.now.covers_images ≡ true }
    ensures same { SameDevice (S.device source.old) (S.device source.new) }
    ensures signed { IfHonest S.device source (λ file. result ≡ None →
        SignedBy terms.now.required file) }
    ensures refused { IfHonest S.device source (λ file. IfSome result (λ answer.
        IsTrue (is_some terms.now.required) × Shows answer (verdict_of terms.now file))) }
{
    if terms.required.is_none() {
        return None;
    }
    let mut room = Room::new(alloc);
    let answer = answer_of_source(alloc, terms, source, &mut room, names);
    if is_signed(answer) {
        None
    } else {
        Some(answer)
    }
}

fn is_signed(answer: Answer<'_>) -> bool
    ensures { result ≡ is_signed answer.entry }
{
    match answer {
        Answer::Found(_, Some(Configurations::Signed(_))) => true,
        _ => false,
    }
}

// The first four bytes decide the image's format.
#[tactic(auto, using(crate::proofs::UnpackLaws::unchanged, crate::proofs::UnpackLaws::nothing_called))]
fn unpack_source<'n, D: World, S: Source, W: Write + Drop>(
    world: &mut D,
    asked: &Unpacking<'_>,
    source: &mut S,
    out: W,
) -> Ending<'n>
    ensures within { ChangesWithin asked.now.folder.path.now true (D.trace world.old)
        (D.trace world.new) }
    ensures obeys { Obeys (terms_of asked.now.folder) true (D.trace world.old) (D.trace world.new) }
    ensures done { IfHonest S.device source (λ file. result ≡ Ending.Told Status.Done →
        IsRight asked.now file) }
    ensures holds { IfHonest S.device source (λ file. IsTrue D.knows →
        result ≡ Ending.Told Status.Done →
        HoldsPayloads asked.now file (D.trace world.new)) }
    ensures ended { IfHonest S.device source (λ file. EndsOver asked.now file result) }
    ensures left { LeavesEnding asked.now result (D.trace world.old) (D.trace world.new) }
{
    match is_fit(Form::Guess, source) {
        Ok(true) => Ending::from(unpack(world, asked, source, out)),
        Ok(false) => Ending::from(unpack_parts(world, asked, source, out)),
        Err(fault) => Ending::Stopped(Fault::from(fault)),
    }
}
