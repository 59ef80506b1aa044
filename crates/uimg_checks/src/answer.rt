//! The result of a check.

ghost use Rattle.std.specs.Prelude.{◌≡◌};
ghost use Rattle.uimg_checks.specs.Answers.{answer_status, exit_status, answer_word, found_word, finding_word};

use crate::finding::Checked;
use uimg_base::Status;
use uimg_fit_base::word_text;
use uimg_fit_checking::Finding;
use uimg_strict::Looseness;
use uimg_verifying::SignatureResult;

/// The format of an image.
#[derive(Clone, Copy, Debug, PartialEq, Eq)]
pub enum Format {
    /// A FIT image.
    Fit,
    /// A legacy image.
    Legacy,
}

/// Why an image is refused, or a check failed.
#[derive(Clone, Copy, Debug, PartialEq, Eq)]
pub struct Stop<'a> {
    /// The line of the fault.
    pub message: &'a str,
    /// The letter and number that it begins with, if it does.
    pub code: Option<&'a str>,
    /// The format of the image, if it is known.
    pub format: Option<Format>,
    /// The offset of the fault in the file, if it has one.
    pub offset: Option<u64>,
}

/// What keys sign of a FIT image.
#[derive(Clone, Copy, Debug, PartialEq, Eq)]
pub struct Signed<'a> {
    /// The name of the only configuration that must be signed, if it is not each one.
    pub only: Option<&'a [u8]>,
    /// What the keys are called, empty without a name.
    pub by: &'a [u8],
    /// The signature nodes, if they are listed.
    pub signatures: &'a [SignatureResult],
}

/// What a strict check says of the configurations of a FIT image whose hashes are right.
#[derive(Clone, Copy, Debug, PartialEq, Eq)]
pub enum Configurations<'a> {
    /// They have so many nodes, as hash nodes and signatures, which are not checked.
    Unchecked(u64),
    /// They are signed.
    Signed(Signed<'a>),
}

/// The result of a check. Names are those of nodes, without their NULs.
#[derive(Clone, Copy, Debug, PartialEq, Eq)]
pub enum Answer<'a> {
    /// The finding about the image; what a strict check of a FIT image whose hashes are right adds.
    Found(Checked<&'a [u8]>, Option<Configurations<'a>>),

    /// A name has no image or configuration.
    Missing {
        /// The name of the configuration that gives it, none for the default.
        configuration: Option<&'a [u8]>,
        /// The property that gives it.
        property: &'static str,
        /// The name.
        name: &'a [u8],
    },

    /// A strict check refuses the image, whose checksums or hashes are right.
    Loose {
        /// The format of the image.
        format: Format,
        /// Why it is refused.
        why: Looseness,
        /// The name of the node, none for a legacy image, the root and the blob.
        node: Option<&'a [u8]>,
        /// The signature nodes, if they are listed.
        signatures: &'a [SignatureResult],
    },

    /// The image is refused.
    Refused(Stop<'a>),

    /// A read failed, memory was refused, or the file could not be opened.
    Failed(Stop<'a>),
}

fn finding_word<N>(finding: &Finding<N>) -> &'static str
    ensures { result.now ≡ finding_word finding.now }
{
    match finding {
        Finding::Right { .. } => "ok",
        Finding::Unhashed(_) => "unhashed",
        Finding::Wrong { word, .. } => word_text(*word),
        Finding::Weak(_) => "weak",
        Finding::Overlapping(_) => "overlapping",
        Finding::NoImage => "empty",
    }
}

fn found_word<N>(found: &Checked<N>) -> &'static str
    ensures { result.now ≡ found_word found.now }
{
    match found {
        Checked::Fit(finding) => finding_word(finding),
        Checked::Right => "ok",
        Checked::Damaged => "bad",
        Checked::Weak => "weak",
    }
}

fn exit_status(status: Status) -> u8
    ensures { result ≡ exit_status status }
{
    match status {
        Status::Done => 0,
        Status::NotRight => 1,
    }
}

impl<'a> Answer<'a> {
    /// Returns the exit status: 0 if the image is right, 3 if a check failed, else 1.
    pub fn status(&self) -> u8
        ensures { result ≡ answer_status self.now }
    {
        match self {
            Answer::Found(found, _) => exit_status(found.status()),
            Answer::Failed(_) => 3,
            _ => 1,
        }
    }

    /// Returns the word of the finding.
    pub fn word(&self) -> &'static str
        ensures { result.now ≡ answer_word self.now }
    {
        match self {
            Answer::Found(found, _) => found_word(found),
            Answer::Missing { .. } => "missing",
            Answer::Loose { why, .. } => why.word(),
            Answer::Refused(_) => "refused",
            Answer::Failed(_) => "failed",
        }
    }
}
