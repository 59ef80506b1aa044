//! The JSON object of a checked image.

ghost use Rattle.std.specs.Prelude.{◌≡◌, ◌++◌, codes, true, Some, IfOk};
ghost use Rattle.std.specs.Str.{IsUtf8};
ghost use Rattle.json.specs.Json.{document};
ghost use Rattle.json.specs.Print.{print};
ghost use Rattle.json.specs.Tree.{json_tokens};
ghost use Rattle.uimg_printing.specs.Members.{tokens_of, string_member, text_members};
ghost use Rattle.uimg_printing.specs.Objects.{is_one_line};
ghost use Rattle.uimg_printing.specs.Steps.{Appends};
ghost use Rattle.uimg_checks.specs.Objects.{format_name, format_if, string_if, name_if, found_format, format_of, stop_members, about_configurations, about_loose, about_signed, only_members, configurations_if, about_fit, about_found, about, first_members, check_json};

use crate::answer::{Answer, Configurations, Format, Signed, Stop};
use crate::finding::Checked;
use crate::signatures::put_signatures_if;
use json::Writer;
use std::alloc::{AllocError, Global};
use uimg_fit_checking::Finding;
use uimg_printing::{put_number, put_number_if, put_string, put_text};
use uimg_verifying::SignatureResult;

impl Format {
    fn name(self) -> &'static str
        ensures { result.now ≡ format_name self }
    {
        match self {
            Format::Fit => "fit",
            Format::Legacy => "legacy",
        }
    }
}

fn found_format<N>(found: &Checked<N>) -> Format
    ensures { result ≡ found_format found.now }
{
    match found {
        Checked::Fit(_) => Format::Fit,
        _ => Format::Legacy,
    }
}

fn format_of(answer: &Answer<'_>) -> Option<Format>
    ensures { result ≡ format_of answer.now }
{
    match answer {
        Answer::Found(found, _) => Some(found_format(found)),
        Answer::Missing { .. } => Some(Format::Fit),
        Answer::Loose { format, .. } => Some(*format),
        Answer::Refused(stop) | Answer::Failed(stop) => stop.format,
    }
}

fn put_format(writer: &mut Writer, format: Option<Format>) -> Result<(), AllocError>
    ensures { Appends result writer.old writer.new (tokens_of (format_if format)) }
{
    match format {
        Some(format) => put_string(writer, "format", format.name()),
        None => Ok(()),
    }
}

fn put_string_if(writer: &mut Writer, key: &str, text: Option<&str>) -> Result<(), AllocError>
    ensures { Appends result writer.old writer.new (tokens_of (string_if key.now text.entry)) }
{
    match text {
        Some(text) => put_string(writer, key, text),
        None => Ok(()),
    }
}

fn put_name_if(
    alloc: Global,
    writer: &mut Writer,
    key: &str,
    name: Option<&[u8]>,
) -> Result<(), AllocError>
    ensures { Appends result writer.old writer.new (tokens_of (name_if key.now name.entry)) }
{
    match name {
        Some(name) => put_text(alloc, writer, key, name),
        None => Ok(()),
    }
}

fn put_stop(writer: &mut Writer, stop: Stop<'_>) -> Result<(), AllocError>
    ensures { Appends result writer.old writer.new (tokens_of (stop_members stop.entry)) }
{
    put_string_if(writer, "fault", stop.code)?;
    put_string(writer, "message", stop.message)?;
    put_number_if(writer, "offset", stop.offset)?;
    Ok(())
}

fn put_counts(
    alloc: Global,
    writer: &mut Writer,
    images: u64,
    hashes: u64,
    configurations: Option<Configurations<'_>>,
) -> Result<(), AllocError>
    ensures { Appends result writer.old writer.new
        (tokens_of (about_fit (Finding.Right images hashes) configurations.entry)) }
{
    put_number(writer, "images", images)?;
    put_number(writer, "hashes", hashes)?;
    put_configurations_if(alloc, writer, configurations)?;
    Ok(())
}

fn put_configurations_if(
    alloc: Global,
    writer: &mut Writer,
    configurations: Option<Configurations<'_>>,
) -> Result<(), AllocError>
    ensures { Appends result writer.old writer.new
        (tokens_of (configurations_if configurations.entry)) }
{
    match configurations {
        Some(it) => put_configurations(alloc, writer, it),
        None => Ok(()),
    }
}

fn put_configurations(
    alloc: Global,
    writer: &mut Writer,
    it: Configurations<'_>,
) -> Result<(), AllocError>
    ensures { Appends result writer.old writer.new (tokens_of (about_configurations it.entry)) }
{
    match it {
        Configurations::Unchecked(count) => put_number(writer, "unchecked", count),
        Configurations::Signed(signed) => put_signed(alloc, writer, signed),
    }
}

fn put_only(alloc: Global, writer: &mut Writer, only: Option<&[u8]>) -> Result<(), AllocError>
    ensures { Appends result writer.old writer.new (tokens_of (only_members only.entry)) }
{
    match only {
        Some(name) => put_text(alloc, writer, "signed", name),
        None => put_string(writer, "configurations", "signed"),
    }
}

fn put_signed(alloc: Global, writer: &mut Writer, signed: Signed<'_>) -> Result<(), AllocError>
    ensures { Appends result writer.old writer.new (tokens_of (about_signed signed.entry)) }
{
    put_only(alloc, writer, signed.only)?;
    put_signatures_if(alloc, writer, signed.signatures)?;
    Ok(())
}

fn put_missing(
    alloc: Global,
    writer: &mut Writer,
    configuration: Option<&[u8]>,
    property: &str,
    name: &[u8],
) -> Result<(), AllocError>
    ensures { Appends result writer.old writer.new
        (tokens_of (name_if (codes "configuration") configuration.entry
        ++ (string_member (codes "property") property.now ++ text_members (codes "name") name.now))) }
{
    put_name_if(alloc, writer, "configuration", configuration)?;
    put_string(writer, "property", property)?;
    put_text(alloc, writer, "name", name)?;
    Ok(())
}

fn put_wrong(
    alloc: Global,
    writer: &mut Writer,
    image: &[u8],
    hash: &[u8],
) -> Result<(), AllocError>
    ensures { Appends result writer.old writer.new
        (tokens_of (text_members (codes "image") image.now ++ text_members (codes "hash") hash.now)) }
{
    put_text(alloc, writer, "image", image)?;
    put_text(alloc, writer, "hash", hash)?;
    Ok(())
}

fn put_fit(
    alloc: Global,
    writer: &mut Writer,
    finding: Finding<&[u8]>,
    configurations: Option<Configurations<'_>>,
) -> Result<(), AllocError>
    ensures { Appends result writer.old writer.new
        (tokens_of (about_fit finding.entry configurations.entry)) }
{
    match finding {
        Finding::Right { images, hashes } => {
            put_counts(alloc, writer, images as u64, hashes as u64, configurations)
        }
        Finding::Unhashed(image) | Finding::Weak(image) | Finding::Overlapping(image) => {
            put_text(alloc, writer, "image", image)
        }
        Finding::Wrong { image, hash, .. } => put_wrong(alloc, writer, image, hash),
        Finding::NoImage => Ok(()),
    }
}

fn put_found(
    alloc: Global,
    writer: &mut Writer,
    found: Checked<&[u8]>,
    configurations: Option<Configurations<'_>>,
) -> Result<(), AllocError>
    ensures { Appends result writer.old writer.new
        (tokens_of (about_found found.entry configurations.entry)) }
{
    match found {
        Checked::Fit(finding) => put_fit(alloc, writer, finding, configurations),
        Checked::Right => put_number(writer, "checksums", 2),
        Checked::Damaged => Ok(()),
        Checked::Weak => put_string(writer, "algo", "crc32"),
    }
}

fn put_loose(
    alloc: Global,
    writer: &mut Writer,
    node: Option<&[u8]>,
    signatures: &[SignatureResult],
) -> Result<(), AllocError>
    ensures { Appends result writer.old writer.new
        (tokens_of (about_loose node.entry signatures.now)) }
{
    put_name_if(alloc, writer, "node", node)?;
    put_signatures_if(alloc, writer, signatures)?;
    Ok(())
}

fn put_about(alloc: Global, writer: &mut Writer, answer: &Answer<'_>) -> Result<(), AllocError>
    ensures { Appends result writer.old writer.new (tokens_of (about answer.now)) }
{
    match *answer {
        Answer::Found(found, configurations) => { put_found(alloc, writer, found, configurations) },
        Answer::Missing {
            configuration,
            property,
            name,
        } => put_missing(alloc, writer, configuration, property, name),
        Answer::Loose {
            node,
            signatures,
            ..
        } => put_loose(alloc, writer, node, signatures),
        Answer::Refused(stop) | Answer::Failed(stop) => put_stop(writer, stop),
    }
}

fn put_head(
    alloc: Global,
    writer: &mut Writer,
    path: &[u8],
    answer: &Answer<'_>,
) -> Result<(), AllocError>
    ensures { Appends result writer.old writer.new (tokens_of (first_members path.now answer.now)) }
{
    put_text(alloc, writer, "path", path)?;
    put_number(writer, "status", answer.status() as u64)?;
    put_string(writer, "verdict", answer.word())?;
    put_format(writer, format_of(answer))?;
    Ok(())
}

fn put_object(
    alloc: Global,
    writer: &mut Writer,
    path: &[u8],
    answer: &Answer<'_>,
) -> Result<(), AllocError>
    ensures { Appends result writer.old writer.new (json_tokens (check_json path.now answer.now)) }
{
    writer.begin_object()?;
    put_head(alloc, writer, path, answer)?;
    put_about(alloc, writer, answer)?;
    writer.end_object()?;
    Ok(())
}

/// Returns the text of the object of the image at a path, without the end of a line. It is UTF-8
/// and one line, whatever the path and the names are, and reads as this object. Fails if memory for
/// it is refused.
pub fn object_text(alloc: Global, path: &[u8], answer: &Answer<'_>) -> Result<Vec<u8>, AllocError>
    ensures text { IfOk result (λ text. text.items ≡ print (json_tokens (check_json path.now answer.now))) }
    ensures reads_back { IfOk result (λ text.
        document text.items ≡ Some (check_json path.now answer.now)) }
    ensures utf8 { IfOk result (λ text. IsUtf8 text.items) }
    ensures one_line { IfOk result (λ text. is_one_line text.items ≡ true) }
{
    let mut writer = Writer::new(Vec::new(alloc));
    put_object(alloc, &mut writer, path, answer)?;
    Ok(writer.into_inner())
}
