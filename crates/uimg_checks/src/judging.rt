//! Answers a check of a source, and checks strictly what was found to be right.

ghost use Rattle.std.specs.Prelude.{◌≡◌, ◌-◌, ◌^◌, ℕ, List, Ok, None, map, min, length, false, true};
ghost use Rattle.std.specs.List.{sum_by};
ghost use Rattle.uimg_base.specs.{Device.SameDevice, Honest.IfHonest};
ghost use Rattle.uimg_checks.specs.Finding.{check_of, if_strong, stands_by_crc32};
ghost use Rattle.uimg_checks.specs.declared.finding.Checked.{Checked};
ghost use Rattle.uimg_fit_checking.specs.{Checks.named_finding, Indexes.IndexedIn};
ghost use Rattle.uimg_checks.specs.CheckEnds.{IsVerdict, Shows, names_in};
ghost use Rattle.uimg_checks.specs.StrictEnds.{TellsFurther, further_verdict};
ghost use Rattle.uimg_checks.specs.Verdicts.{Finds, Verdict, covered_or, fit_verdict, is_right, listed, signed_verdict, unsigned_or, verdict_by, verdict_of};
ghost use Rattle.uimg_verifying.specs.{Configurations.Tells, Results.read_result};

use crate::answer::{Answer, Configurations};
use crate::ends::{
    CHANGED, Names, answer_of_fault, answer_of_finding, answer_of_header, answer_of_loose,
    answer_of_missing, answer_of_signed,
};
use crate::finding::{Checked, stands_by_crc32};
use crate::references::{Missing, find_missing};
use std::alloc::Global;
use uimg_base::{Algo, Room, Source, Span};
use uimg_blob_reading::Blob;
use uimg_engine::{Fault, is_fit};
use uimg_fit_checking::{ConfigurationFacts, Finding, SurveyFault, check_in, survey};
use uimg_fit_reading::read_tree;
use uimg_requests::Form;
use uimg_strict::{Loose, Looseness, find_loose, find_loose_header};
use uimg_verifying::{Required, SignatureResult, find_uncovered, find_unsigned, signature_results};

/// What is asked of an image.
#[derive(Drop)]
pub struct Terms<'a> {
    /// The weakest algorithm that is enough, if one is needed.
    pub need: Option<Algo>,

    /// Whether the image is checked strictly.
    pub is_strict: bool,

    /// What a strict check requires of signatures, if anything.
    pub required: Option<Required<'a>>,

    /// Whether then each image must be named by a configuration, too, so that it is signed.
    pub covers_images: bool,

    /// Whether the answer then lists the signature nodes.
    pub lists: bool,
}

// What is found in a FIT image whose hashes are right.
#[derive(Drop)]
enum Further<'a> {
    // Something that strictness refuses, and the signature nodes that are listed.
    Loose(Loose, Vec<SignatureResult>),

    // A name without a node.
    Missing(Missing),

    // Nothing. The configurations have so many nodes, which are not checked.
    Unchecked(u64),

    // Nothing, and what is required is signed. The signature nodes that are listed.
    Signed(&'a Required<'a>, Vec<SignatureResult>),
}

/// Checks an image over any source. The answer shows the verdict about the bytes of the source, or that
/// a read failed, memory was refused, or the source had other bytes when it was read again.
pub fn answer_of_source<'a, S: Source>(
    alloc: Global,
    terms: &'a Terms<'_>,
    source: &mut S,
    room: &mut Room<Global>,
    names: &'a mut Names,
) -> Answer<'a>
    ensures same { SameDevice (S.device source.old) (S.device source.new) }
    ensures shown { IfHonest S.device source (λ file. Shows result (verdict_of terms.now file)) }
{
    match is_fit(Form::Guess, source) {
        Ok(true) => answer_of_fit(alloc, terms, source, room, names),
        Ok(false) => answer_of_legacy(terms, source, room, names),
        Err(fault) => answer_of_fault(Fault::from(fault), names),
    }
}

fn answer_of_fit<'a, S: Source>(
    alloc: Global,
    terms: &'a Terms<'_>,
    source: &mut S,
    room: &mut Room<Global>,
    names: &'a mut Names,
) -> Answer<'a>
    ensures same { SameDevice (S.device source.old) (S.device source.new) }
    ensures shown { IfHonest S.device source (λ file.
        Shows result (verdict_by terms.now file (check_of true terms.now.need file))) }
{
    match read_tree(source, room) {
        Ok(blob) => answer_of_blob(alloc, terms, source, &blob, room, names),
        Err(fault) => answer_of_fault(Fault::from(fault), names),
    }
}

// All that is looked at is found by the same index.
fn answer_of_blob<'a, S: Source>(
    alloc: Global,
    terms: &'a Terms<'_>,
    source: &mut S,
    blob: &Blob,
    room: &mut Room<Global>,
    names: &'a mut Names,
) -> Answer<'a>
    requires { IndexedIn (S.device source.old) blob.now room.old }
    ensures same { SameDevice (S.device source.old) (S.device source.new) }
    ensures shown { IfHonest S.device source (λ file.
        Shows result (verdict_by terms.now file (check_of true terms.now.need file))) }
{
    match check_in(terms.need, source, blob, room) {
        Ok(finding) => {
            if terms.is_strict && is_right(finding) {
                let further = look_further(alloc, terms, source, blob, room);
                return answer_of_further(finding, further, source, names);
            }
            answer_of_finding(finding, None, source, names)
        }
        Err(fault) => answer_of_fault(Fault::from(fault), names),
    }
}

// All hash nodes are right, and each image has one.
fn is_right(finding: Finding<Span>) -> bool
    ensures { result ≡ is_right finding }
{
    match finding {
        Finding::Right { .. } => true,
        _ => false,
    }
}

// Answers by what is found further where the finding is that all hash nodes are right.
fn answer_of_further<'a, S: Source>(
    finding: Finding<Span>,
    further: Result<Further<'a>, SurveyFault>,
    source: &mut S,
    names: &'a mut Names,
) -> Answer<'a>
    ensures same { SameDevice (S.device source.old) (S.device source.new) }
    ensures shown { IfHonest S.device source (λ file. (verdict : Verdict) →
        TellsFurther verdict file (Checked.Fit (named_finding file finding)) further.entry →
        Shows result verdict) }
{
    match further {
        Ok(Further::Loose(loose, signatures)) => answer_of_loose(loose, signatures, names),
        Ok(Further::Missing(missing)) => answer_of_missing(missing, source, names),
        Ok(Further::Unchecked(nodes)) => {
            let found = Some(Configurations::Unchecked(nodes));
            answer_of_finding(finding, found, source, names)
        }
        Ok(Further::Signed(required, signatures)) => {
            answer_of_signed(finding, required, signatures, source, names)
        }
        Err(SurveyFault::Stopped(fault)) => answer_of_fault(Fault::from(fault), names),
        Err(SurveyFault::OutOfMemory) => answer_of_fault(Fault::OutOfMemory, names),
        Err(SurveyFault::Changed) => CHANGED,
    }
}

fn look_further<'a, S: Source>(
    alloc: Global,
    terms: &'a Terms<'_>,
    source: &mut S,
    blob: &Blob,
    room: &mut Room<Global>,
) -> Result<Further<'a>, SurveyFault>
    requires { IndexedIn (S.device source.old) blob.now room.old }
    ensures same { SameDevice (S.device source.old) (S.device source.new) }
    ensures told { IfHonest S.device source (λ file. (found : Checked (List ℕ)) →
        TellsFurther (fit_verdict terms.now file found) file found result) }
{
    if let Some(loose) = find_loose(alloc, source, blob, room)? {
        return Ok(Further::Loose(loose, Vec::new(alloc)));
    }
    let facts = survey(alloc, blob, room)?;
    if let Some(missing) = find_missing(alloc, source, &facts)? {
        return Ok(Further::Missing(missing));
    }
    let nodes = count_nodes(facts.configurations.as_slice());
    look_signed(alloc, terms, nodes, source, blob, room)
}

// The configurations have so many nodes.
fn look_signed<'a, S: Source>(
    alloc: Global,
    terms: &'a Terms<'_>,
    nodes: u64,
    source: &mut S,
    blob: &Blob,
    room: &mut Room<Global>,
) -> Result<Further<'a>, SurveyFault>
    requires { IndexedIn (S.device source.old) blob.now room.old }
    ensures same { SameDevice (S.device source.old) (S.device source.new) }
    ensures told { IfHonest S.device source (λ file. (found : Checked (List ℕ)) →
        TellsFurther (signed_verdict terms.now file found nodes) file found result) }
{
    let Some(required) = &terms.required else {
        return Ok(Further::Unchecked(nodes));
    };
    let signatures = list_signatures(alloc, terms.lists, required, source, blob, room)?;
    match find_unsigned(alloc, required, source, blob, room)? {
        Some(loose) => Ok(Further::Loose(loose, signatures)),
        None => {
            let signed = Further::Signed(required, signatures);
            look_covered(alloc, terms.covers_images, signed, source, blob, room)
        }
    }
}

// Returns the signature nodes, if they are to be listed.
fn list_signatures<S: Source>(
    alloc: Global,
    lists: bool,
    required: &Required<'_>,
    source: &mut S,
    blob: &Blob,
    room: &mut Room<Global>,
) -> Result<Vec<SignatureResult>, SurveyFault>
    requires { IndexedIn (S.device source.old) blob.now room.old }
    ensures same { SameDevice (S.device source.old) (S.device source.new) }
    ensures room { room.new ≡ room.old }
    ensures told { IfHonest S.device source (λ file. Tells
        (λ all. map read_result all.items) (listed lists required.now file) result) }
{
    if !lists {
        return Ok(Vec::new(alloc));
    }
    signature_results(alloc, required, source, blob, room)
}

// What is required is signed.
fn look_covered<'a, S: Source>(
    alloc: Global,
    covers: bool,
    signed: Further<'a>,
    source: &mut S,
    blob: &Blob,
    room: &mut Room<Global>,
) -> Result<Further<'a>, SurveyFault>
    requires { IndexedIn (S.device source.old) blob.now room.old }
    ensures same { SameDevice (S.device source.old) (S.device source.new) }
    ensures told { IfHonest S.device source (λ file. (found : Checked (List ℕ)) → TellsFurther
        (covered_or covers file (further_verdict file found signed.entry)) file found result) }
{
    if !covers {
        return Ok(signed);
    }
    match find_uncovered(alloc, source, blob, room)? {
        Some(loose) => Ok(Further::Loose(loose, Vec::new(alloc))),
        None => Ok(signed),
    }
}

fn count_nodes(configurations: &[ConfigurationFacts]) -> u64
    ensures { result ≡ min (sum_by (λ c. length c.nodes.items) configurations.now) (2 ^ 64 - 1) }
{
    let mut count: u64 = 0;
    for configuration in configurations {
        count = count.saturating_add(configuration.nodes.len() as u64);
    }
    count
}

fn answer_of_legacy<'a, S: Source>(
    terms: &'a Terms<'_>,
    source: &mut S,
    room: &mut Room<Global>,
    names: &'a mut Names,
) -> Answer<'a>
    ensures same { SameDevice (S.device source.old) (S.device source.new) }
    ensures shown { IfHonest S.device source (λ file.
        Shows result (verdict_by terms.now file (check_of false terms.now.need file))) }
{
    match uimg_legacy::check(source, room) {
        Ok(true) => answer_of_sums(terms, source, names),
        Ok(false) => Answer::Found(Checked::Damaged, None),
        Err(fault) => answer_of_fault(Fault::from(fault), names),
    }
}

// The checksums of a legacy image are right.
fn answer_of_sums<'a, S: Source>(
    terms: &'a Terms<'_>,
    source: &mut S,
    names: &'a mut Names,
) -> Answer<'a>
    ensures same { SameDevice (S.device source.old) (S.device source.new) }
    ensures shown { IfHonest S.device source (λ file. Shows result
        (verdict_by terms.now file (Ok (if_strong (stands_by_crc32 terms.now.need))))) }
{
    if !stands_by_crc32(terms.need) {
        if terms.is_strict {
            return answer_of_unsigned(terms, Checked::Weak);
        }
        return Answer::Found(Checked::Weak, None);
    }
    if !terms.is_strict {
        return Answer::Found(Checked::Right, None);
    }
    match find_loose_header(source) {
        Ok(Some(why)) => answer_of_header(why),
        Ok(None) => answer_of_unsigned(terms, Checked::Right),
        Err(fault) => answer_of_fault(Fault::from(fault), names),
    }
}

// A legacy image has no signature, however strong a digest is needed.
fn answer_of_unsigned<'a>(terms: &Terms<'_>, found: Checked<&'a [u8]>) -> Answer<'a>
    ensures { IsVerdict result (unsigned_or terms.now.required (Finds (names_in found.entry) None)) }
{
    match &terms.required {
        Some(_) => answer_of_header(Looseness::Unsigned),
        None => Answer::Found(found, None),
    }
}
