//! The line of a checked image.

ghost use Rattle.std.specs.Prelude.{◌≡◌, ◌++◌, Some, codes, true, IfOk};
ghost use Rattle.std.specs.String.{string_bytes};
ghost use Rattle.uimg_printing.specs.Printing.{is_shown};
ghost use Rattle.std.specs.Fmt.{WritesOnOk};
ghost use Rattle.uimg_checks.specs.Lines.{by_text, configurations_if, configurations_text, signed_text, nodes_text, some_unchecked, spaced_name, named_if, finding_details, found_details, details_of, answer_line, own_text};

use crate::answer::{Answer, Configurations, Signed};
use crate::finding::Checked;
use std::alloc::{AllocError, Global};
use std::fmt;
use std::fmt::{Display, Formatter, Write};
use uimg_fit_checking::Finding;
use uimg_printing::{Counted, Printed, PrintedWord};

/// The line of the image at a path, without its end. It begins with the path and the word of the
/// finding. The path is printed as by `Printed`, and a name as by `PrintedWord`, so none adds a line
/// and no name a word.
#[derive(Clone, Copy, Debug)]
pub struct Line<'a> {
    /// The path.
    pub path: &'a [u8],

    /// The result of the check.
    pub answer: Answer<'a>,
}

impl<'a> Display for Line<'a> {
    ghost output = { λ line. Some (answer_line line.path.now line.answer) };

    fn fmt<W: Write>(&self, f: &mut Formatter<W>) -> fmt::Result {
        write!(f, "{}: {}", Printed(self.path), self.answer.word())?;
        put_details(&self.answer, f)
    }
}

fn put_details<W: Write>(answer: &Answer<'_>, f: &mut Formatter<W>) -> fmt::Result
    ensures { WritesOnOk W.Write.write_str_gives f.old result (details_of answer.now) f.new }
{
    match *answer {
        Answer::Found(found, configurations) => put_found(found, configurations, f),
        Answer::Missing {
            configuration,
            property,
            name,
        } => put_missing(configuration, property, name, f),
        Answer::Loose { node, .. } => put_named_if(node, f),
        Answer::Refused(stop) | Answer::Failed(stop) => write!(f, " {}", stop.message),
    }
}

fn put_found<W: Write>(
    found: Checked<&[u8]>,
    configurations: Option<Configurations<'_>>,
    f: &mut Formatter<W>,
) -> fmt::Result
    ensures { WritesOnOk W.Write.write_str_gives f.old result
        (found_details found.entry configurations.entry) f.new }
{
    match found {
        Checked::Fit(finding) => put_finding(finding, configurations, f),
        Checked::Right => f.write_str(" 2 checksums"),
        Checked::Damaged => f.write_str(" checksum"),
        Checked::Weak => f.write_str(" crc32"),
    }
}

fn put_finding<W: Write>(
    finding: Finding<&[u8]>,
    configurations: Option<Configurations<'_>>,
    f: &mut Formatter<W>,
) -> fmt::Result
    ensures { WritesOnOk W.Write.write_str_gives f.old result
        (finding_details finding.entry configurations.entry) f.new }
{
    match finding {
        Finding::Right { images, hashes } => {
            put_counts(images as u64, hashes as u64, configurations, f)
        }
        Finding::Unhashed(image) | Finding::Weak(image) | Finding::Overlapping(image) => {
            put_named(image, f)
        }
        Finding::Wrong { image, hash, .. } => {
            put_named(image, f)?;
            put_named(hash, f)
        }
        Finding::NoImage => Ok(()),
    }
}

fn put_counts<W: Write>(
    images: u64,
    hashes: u64,
    configurations: Option<Configurations<'_>>,
    f: &mut Formatter<W>,
) -> fmt::Result
    ensures { WritesOnOk W.Write.write_str_gives f.old result
        (finding_details (Finding.Right images hashes) configurations.entry) f.new }
{
    let payloads = Counted {
        count: images,
        one: "payload",
        many: "payloads",
    };
    let nodes = Counted {
        count: hashes,
        one: "hash",
        many: "hashes",
    };
    write!(f, " {payloads}, {nodes}")?;
    match configurations {
        Some(it) => put_configurations(it, f),
        None => Ok(()),
    }
}

fn put_configurations<W: Write>(it: Configurations<'_>, f: &mut Formatter<W>) -> fmt::Result
    ensures { WritesOnOk W.Write.write_str_gives f.old result (configurations_text it.entry) f.new }
{
    match it {
        Configurations::Unchecked(count) => put_unchecked(count, f),
        Configurations::Signed(signed) => put_signed(signed, f),
    }
}

fn put_signed<W: Write>(signed: Signed<'_>, f: &mut Formatter<W>) -> fmt::Result
    ensures { WritesOnOk W.Write.write_str_gives f.old result (signed_text signed.entry) f.new }
{
    match signed.only {
        Some(name) => write!(f, ", configuration {} signed", PrintedWord(name))?,
        None => f.write_str(", all configurations signed")?,
    }
    put_by(signed.by, f)
}

#[tactic(auto, unfolding(crate::specs::Lines::by_text))]
fn put_by<W: Write>(by: &[u8], f: &mut Formatter<W>) -> fmt::Result
    ensures { WritesOnOk W.Write.write_str_gives f.old result (by_text by.now) f.new }
{
    if by.is_empty() {
        return Ok(());
    }
    write!(f, " by {}", Printed(by))
}

fn put_nodes<W: Write>(count: u64, f: &mut Formatter<W>) -> fmt::Result
    ensures { WritesOnOk W.Write.write_str_gives f.old result (nodes_text count) f.new }
{
    let nodes = Counted {
        count,
        one: "node",
        many: "nodes",
    };
    write!(f, ", {nodes} of configurations unchecked")
}

#[tactic(auto, unfolding(crate::specs::Lines::some_unchecked))]
fn put_unchecked<W: Write>(count: u64, f: &mut Formatter<W>) -> fmt::Result
    ensures { WritesOnOk W.Write.write_str_gives f.old result (some_unchecked count) f.new }
{
    if count == 0 {
        return Ok(());
    }
    put_nodes(count, f)
}

fn put_named<W: Write>(name: &[u8], f: &mut Formatter<W>) -> fmt::Result
    ensures { WritesOnOk W.Write.write_str_gives f.old result (spaced_name name.now) f.new }
{
    write!(f, " {}", PrintedWord(name))
}

fn put_named_if<W: Write>(name: Option<&[u8]>, f: &mut Formatter<W>) -> fmt::Result
    ensures { WritesOnOk W.Write.write_str_gives f.old result (named_if name.entry) f.new }
{
    match name {
        Some(name) => put_named(name, f),
        None => Ok(()),
    }
}

fn put_missing<W: Write>(
    configuration: Option<&[u8]>,
    property: &str,
    name: &[u8],
    f: &mut Formatter<W>,
) -> fmt::Result
    ensures { WritesOnOk W.Write.write_str_gives f.old result
        (named_if configuration.entry ++ codes " " ++ property.now ++ spaced_name name.now) f.new }
{
    put_named_if(configuration, f)?;
    write!(f, " {property}")?;
    put_named(name, f)
}

/// Returns the text of the line of the image at a path, without its end. It has no ASCII control
/// character, whatever the path and the names are, unless the text of a fault has one. So it is one
/// line. Fails if memory for it is refused.
pub fn line_text(alloc: Global, path: &[u8], answer: &Answer<'_>) -> Result<String, AllocError>
    ensures text { IfOk result (λ text. string_bytes text ≡ answer_line path.now answer.now) }
    ensures shown { is_shown (own_text answer.now) ≡ true →
        IfOk result (λ text. is_shown (string_bytes text) ≡ true) }
{
    let line = Line {
        path,
        answer: *answer,
    };
    format!(in alloc; "{line}")
}
