//! Turns the end of a check into its answer.

ghost use Rattle.std.specs.Prelude.{◌≡◌, [], None, true, take, map, min, option_map, IfSome};
ghost use Rattle.uimg_base.specs.{Device.SameDevice, Honest.IfHonest};
ghost use Rattle.uimg_checks.specs.{ReferenceNames.name_in_span, References.read_missing};
ghost use Rattle.uimg_fit_checking.specs.Checks.{named_finding};
ghost use Rattle.uimg_strict.specs.Telling.{read_loose};
ghost use Rattle.uimg_checks.specs.CheckEnds.{AnswersFault, AnswersLine, IsVerdict, Shows, fit_names, format_of, kept_names, offset_of, read_configurations};
ghost use Rattle.uimg_checks.specs.Verdicts.{Finds, Lacks, Loosens, loosens, signed_finding};
ghost use Rattle.uimg_verifying.specs.Results.{read_result};

use crate::answer::{Answer, Configurations, Format, Signed, Stop};
use crate::finding::Checked;
use crate::references::Missing;
use crate::statuses::{REFUSED, status_of_fault};
use std::alloc::Global;
use std::fmt::Display;
use uimg_base::{Source, Span};
use uimg_engine::Fault;
use uimg_fit_checking::Finding;
use uimg_strict::{Loose, Looseness};
use uimg_verifying::{Required, SignatureResult};

/// The longest name of a node, in bytes.
const NAME_LEN: usize = 255;

/// The path is not UTF-8, so no file was opened.
pub const NOT_UTF8: Answer<'static> = Answer::Failed(Stop {
    message: "cannot read: the path is not UTF-8",
    code: None,
    format: None,
    offset: None,
});

/// The file has another blob when it is read again.
pub const CHANGED: Answer<'static> = Answer::Failed(Stop {
    message: "changed while it was read",
    code: None,
    format: None,
    offset: None,
});

/// Memory for the result was refused.
const NO_MEMORY: Answer<'static> = Answer::Failed(Stop {
    message: "out of memory",
    code: None,
    format: None,
    offset: None,
});

/// The names in an answer, its signature nodes, and the line of a fault.
#[derive(Drop)]
pub struct Names {
    alloc: Global,
    image: [u8; NAME_LEN],
    hash: [u8; NAME_LEN],
    missing: Vec<u8>,
    signatures: Vec<SignatureResult>,
    message: String,
}

impl Names {
    /// Has no name yet.
    pub fn new(alloc: Global) -> Names {
        Names {
            alloc,
            image: [0; NAME_LEN],
            hash: [0; NAME_LEN],
            missing: Vec::new(alloc),
            signatures: Vec::new(alloc),
            message: String::new(alloc),
        }
    }
}

/// Answers by a line without a code: that the image is refused, or else that a read, a write or the
/// like failed. It says so, too, if memory for the line is refused.
pub fn answer_of_line<'a, D: Display>(
    line: &D,
    is_refused: bool,
    names: &'a mut Names,
) -> Answer<'a>
    ensures { AnswersLine is_refused result }
{
    let Ok(message) = format!(in names.alloc; "{line}") else {
        return NO_MEMORY;
    };
    names.message = message;
    let stop = Stop {
        message: names.message.as_str(),
        code: None,
        format: None,
        offset: None,
    };
    if is_refused {
        Answer::Refused(stop)
    } else {
        Answer::Failed(stop)
    }
}

/// The names are read from the source; if a read fails, that is the result.
#[tactic(auto, using(crate::proofs::VerdictLaws::unread_shows))]
pub(crate) fn answer_of_finding<'a, S: Source>(
    finding: Finding<Span>,
    configurations: Option<Configurations<'a>>,
    source: &mut S,
    names: &'a mut Names,
) -> Answer<'a>
    ensures same { SameDevice (S.device source.old) (S.device source.new) }
    ensures shown { IfHonest S.device source
        (λ file. Shows result (Finds (Checked.Fit (named_finding file finding))
        (option_map read_configurations configurations.entry))) }
{
    if !read_names(finding, source, names) {
        return answer_of_fault(Fault::Read, names);
    }
    Answer::Found(Checked::Fit(named(finding, names)), configurations)
}

#[tactic(auto, using(crate::proofs::VerdictLaws::unread_shows))]
pub(crate) fn answer_of_signed<'a, S: Source>(
    finding: Finding<Span>,
    required: &'a Required<'_>,
    signatures: Vec<SignatureResult>,
    source: &mut S,
    names: &'a mut Names,
) -> Answer<'a>
    ensures same { SameDevice (S.device source.old) (S.device source.new) }
    ensures shown { IfHonest S.device source
        (λ file. Shows result (signed_finding required.now
        (Checked.Fit (named_finding file finding)) (map read_result signatures.items))) }
{
    if !read_names(finding, source, names) {
        return answer_of_fault(Fault::Read, names);
    }
    names.signatures = signatures;
    let signed = Signed {
        only: required.only,
        by: required.keys.name.as_slice(),
        signatures: names.signatures.as_slice(),
    };
    let found = Checked::Fit(named(finding, names));
    Answer::Found(found, Some(Configurations::Signed(signed)))
}

#[tactic(auto, using(crate::proofs::VerdictLaws::unread_shows))]
pub(crate) fn answer_of_missing<'a, S: Source>(
    missing: Missing,
    source: &mut S,
    names: &'a mut Names,
) -> Answer<'a>
    ensures same { SameDevice (S.device source.old) (S.device source.new) }
    ensures shown { IfHonest S.device source
        (λ file. Shows result (Lacks (read_missing file missing))) }
{
    let Missing {
        configuration,
        reference,
        name,
    } = missing;
    names.missing = name;
    let Some(place) = configuration else {
        return Answer::Missing {
            configuration: None,
            property: reference.name(),
            name: names.missing.as_slice(),
        };
    };
    let Some(length) = read_name(source, place, &mut names.image) else {
        return answer_of_fault(Fault::Read, names);
    };
    Answer::Missing {
        configuration: Some(&names.image[..length]),
        property: reference.name(),
        name: names.missing.as_slice(),
    }
}

/// The root, whose name is empty, is reported as `/`.
pub(crate) fn answer_of_loose<'a>(
    loose: Loose,
    signatures: Vec<SignatureResult>,
    names: &'a mut Names,
) -> Answer<'a>
    ensures { IsVerdict result (loosens (map read_result signatures.items) (read_loose loose)) }
{
    let Loose { why, node } = loose;
    names.signatures = signatures;
    let Some(name) = node else {
        return Answer::Loose {
            format: Format::Fit,
            why,
            node: None,
            signatures: names.signatures.as_slice(),
        };
    };
    names.missing = name;
    let node = names.missing.as_slice();
    Answer::Loose {
        format: Format::Fit,
        why,
        node: Some(if node.is_empty() { b"/" } else { node }),
        signatures: names.signatures.as_slice(),
    }
}

pub(crate) fn answer_of_header<'a>(why: Looseness) -> Answer<'a>
    ensures { IsVerdict result (Loosens Format.Legacy why None []) }
{
    Answer::Loose {
        format: Format::Legacy,
        why,
        node: None,
        signatures: &[],
    }
}

/// Answers by a fault, with its line, its code, and the format and the offset if it has them: that the
/// image is refused, if the fault's exit status is 1, or else that the check failed. It failed, too, if
/// memory for the line is refused.
pub fn answer_of_fault<'a>(fault: Fault, names: &'a mut Names) -> Answer<'a>
    ensures { AnswersFault fault result }
{
    let Ok(message) = format!(in names.alloc; "{fault}") else {
        return NO_MEMORY;
    };
    names.message = message;
    let stop = Stop {
        message: names.message.as_str(),
        code: fault.code(),
        format: format_of(fault),
        offset: offset_of(fault),
    };
    if status_of_fault(fault) == REFUSED {
        Answer::Refused(stop)
    } else {
        Answer::Failed(stop)
    }
}

// Only some faults show the format.
fn format_of(fault: Fault) -> Option<Format>
    ensures { result ≡ format_of fault }
{
    match fault {
        Fault::Blob(_, _) => Some(Format::Fit),
        Fault::Fit(_) => Some(Format::Fit),
        Fault::Legacy(_) => Some(Format::Legacy),
        _ => None,
    }
}

fn offset_of(fault: Fault) -> Option<u64>
    ensures { result ≡ offset_of fault }
{
    match fault {
        Fault::Blob(_, offset) => Some(offset),
        _ => None,
    }
}

// Returns false if a name cannot be read.
fn read_names<S: Source>(finding: Finding<Span>, source: &mut S, names: &mut Names) -> bool
    ensures same { SameDevice (S.device source.old) (S.device source.new) }
    ensures names { IfHonest S.device source (λ file. result ≡ true →
        kept_names names.new.image names.new.hash finding ≡ named_finding file finding) }
{
    match finding {
        Finding::Right { .. } | Finding::NoImage => true,
        Finding::Unhashed(image) | Finding::Weak(image) | Finding::Overlapping(image) => {
            read_name(source, image, &mut names.image).is_some()
        }
        Finding::Wrong { image, hash, .. } => {
            if read_name(source, image, &mut names.image).is_none() {
                return false;
            }
            read_name(source, hash, &mut names.hash).is_some()
        }
    }
}

fn named<'a>(finding: Finding<Span>, names: &'a Names) -> Finding<&'a [u8]>
    ensures { fit_names result ≡ kept_names names.now.image names.now.hash finding }
{
    match finding {
        Finding::Right { images, hashes } => Finding::Right { images, hashes },
        Finding::Unhashed(image) => Finding::Unhashed(name_in(&names.image, image)),
        Finding::Wrong { image, hash, word } => Finding::Wrong {
            image: name_in(&names.image, image),
            hash: name_in(&names.hash, hash),
            word,
        },
        Finding::Weak(image) => Finding::Weak(name_in(&names.image, image)),
        Finding::Overlapping(image) => Finding::Overlapping(name_in(&names.image, image)),
        Finding::NoImage => Finding::NoImage,
    }
}

// At most the length of the longest name.
fn name_length(name: Span) -> usize
    ensures { result ≡ min name.length 255 }
{
    u64::min(name.length, NAME_LEN as u64) as usize
}

fn name_in(bytes: &[u8; NAME_LEN], name: Span) -> &[u8]
    ensures { result.now ≡ take (min name.length 255) bytes.now }
{
    &bytes[..name_length(name)]
}

// Returns `None` if the name cannot be read.
fn read_name<S: Source>(source: &mut S, name: Span, bytes: &mut [u8; NAME_LEN]) -> Option<usize>
    ensures same { SameDevice (S.device source.old) (S.device source.new) }
    ensures length { IfSome result (λ length. length ≡ min name.length 255) }
    ensures bytes { IfHonest S.device source (λ file. IfSome result
        (λ length. take (min name.length 255) bytes.new ≡ name_in_span file name)) }
{
    let length = name_length(name);
    let Ok(size) = source.size() else {
        return None;
    };
    if name.length > NAME_LEN as u64 || name.place > size || size - name.place < name.length {
        return None;
    }
    match source.fill_at(name.place, &mut bytes[..length]) {
        Ok(()) => Some(length),
        Err(_) => None,
    }
}
