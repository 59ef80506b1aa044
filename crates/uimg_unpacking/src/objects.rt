//! The JSON objects of payloads and parts.

ghost use Rattle.std.specs.Prelude.{◌≡◌, ◌++◌, codes, IfOk, Some};
ghost use Rattle.json.specs.Print.{print};
ghost use Rattle.json.specs.Tree.{json_tokens};
ghost use Rattle.uimg_fit_checking.specs.Unpacking.{as_bytes};
ghost use Rattle.uimg_printing.specs.Members.{tokens_of};
ghost use Rattle.uimg_printing.specs.Steps.{Appends};
ghost use Rattle.uimg_unpacking.specs.Objects.{about_payload, file_members, kept_verdict, vouched_members, kept_members, refused_members, part_members, members_of, object_with, told_of};

use crate::lines::Line;
use json::Writer;
use std::alloc::{AllocError, Global};
use uimg_fit_base::word_text;
use uimg_fit_checking::{NodeName, Refusal, Vouched};
use uimg_printing::{Hexadecimal, put_number, put_string, put_text};

/// Returns a line of text, or an object with the path of the image, if that is given. Fails if
/// memory for it is refused.
pub(crate) fn told(
    alloc: Global,
    path: Option<&str>,
    line: &Line<'_>,
) -> Result<Vec<u8>, AllocError>
    ensures { IfOk result (λ text. text.items ≡ told_of path.entry line.now) }
{
    match path {
        Some(path) => object_of(alloc, path, line),
        None => Ok(format!(in alloc; "{line}\n")?.into_bytes()),
    }
}

fn object_of(alloc: Global, path: &str, line: &Line<'_>) -> Result<Vec<u8>, AllocError>
    ensures { IfOk result (λ text. text.items
        ≡ print (json_tokens (object_with path.now (members_of line.now))) ++ codes "\n") }
{
    let mut writer = Writer::new(Vec::new(alloc));
    put_object(alloc, &mut writer, path, line)?;
    let mut text = writer.into_inner();
    text.push(b'\n')?;
    Ok(text)
}

fn put_object(
    alloc: Global,
    writer: &mut Writer,
    path: &str,
    line: &Line<'_>,
) -> Result<(), AllocError>
    ensures { Appends result writer.old writer.new
        (json_tokens (object_with path.now (members_of line.now))) }
{
    writer.begin_object()?;
    put_string(writer, "path", path)?;
    put_line(alloc, writer, line)?;
    writer.end_object()?;
    Ok(())
}

fn put_line(alloc: Global, writer: &mut Writer, line: &Line<'_>) -> Result<(), AllocError>
    ensures { Appends result writer.old writer.new (tokens_of (members_of line.now)) }
{
    match *line {
        Line::Kept {
            name,
            file,
            size,
            vouched,
        } => put_kept(alloc, writer, name, (file, size), vouched),
        Line::Refused(name, refusal) => put_refused(alloc, writer, name, refusal),
        Line::Overlapping(name) => put_about(alloc, writer, 1, "overlapping", name),
        Line::Part { number, size, dcrc } => put_part(alloc, writer, number, size, dcrc),
    }
}

fn put_about(
    alloc: Global,
    writer: &mut Writer,
    status: u64,
    verdict: &str,
    name: &NodeName,
) -> Result<(), AllocError>
    ensures { Appends result writer.old writer.new
        (tokens_of (about_payload status verdict.now (as_bytes name.now))) }
{
    put_number(writer, "status", status)?;
    put_string(writer, "verdict", verdict)?;
    put_string(writer, "format", "fit")?;
    put_text(alloc, writer, "image", name.bytes())?;
    Ok(())
}

fn put_file(writer: &mut Writer, file: &str, size: u64) -> Result<(), AllocError>
    ensures { Appends result writer.old writer.new (tokens_of (file_members file.now size)) }
{
    put_string(writer, "file", file)?;
    put_number(writer, "size", size)?;
    Ok(())
}

fn kept_verdict(vouched: Option<Vouched>) -> &'static str
    ensures { result.now ≡ kept_verdict vouched }
{
    match vouched {
        Some(_) => "ok",
        None => "unhashed",
    }
}

fn put_kept(
    alloc: Global,
    writer: &mut Writer,
    name: &NodeName,
    file: (&str, u64),
    vouched: Option<Vouched>,
) -> Result<(), AllocError>
    ensures { Appends result writer.old writer.new
        (tokens_of (kept_members (as_bytes name.now) file.entry.0.now file.entry.1 vouched)) }
{
    let (file, size) = file;
    put_about(alloc, writer, 0, kept_verdict(vouched), name)?;
    put_file(writer, file, size)?;
    put_vouched(alloc, writer, vouched)?;
    Ok(())
}

fn put_vouched(
    alloc: Global,
    writer: &mut Writer,
    vouched: Option<Vouched>,
) -> Result<(), AllocError>
    ensures { Appends result writer.old writer.new (tokens_of (vouched_members vouched)) }
{
    match vouched {
        Some(vouched) => put_digest(alloc, writer, &vouched),
        None => Ok(()),
    }
}

fn put_digest(alloc: Global, writer: &mut Writer, vouched: &Vouched) -> Result<(), AllocError>
    ensures { Appends result writer.old writer.new (tokens_of (vouched_members (Some vouched.now))) }
{
    let digest = &vouched.digest[..vouched.algo.len()];
    let digest = format!(in alloc; "{}", Hexadecimal(digest))?;
    put_string(writer, "algo", vouched.algo.name())?;
    put_string(writer, "digest", digest.as_str())?;
    Ok(())
}

fn put_refused(
    alloc: Global,
    writer: &mut Writer,
    name: &NodeName,
    refusal: Refusal,
) -> Result<(), AllocError>
    ensures { Appends result writer.old writer.new
        (tokens_of (refused_members (as_bytes name.now) refusal)) }
{
    match refusal {
        Refusal::Wrong { hash, word } => {
            put_about(alloc, writer, 1, word_text(word), name)?;
            put_text(alloc, writer, "hash", hash.bytes())?;
            Ok(())
        }
        Refusal::Weak => put_about(alloc, writer, 1, "weak", name),
    }
}

fn put_part(
    alloc: Global,
    writer: &mut Writer,
    number: u32,
    size: u64,
    dcrc: u32,
) -> Result<(), AllocError>
    ensures { Appends result writer.old writer.new (tokens_of (part_members number size dcrc)) }
{
    let file = format!(in alloc; "image-{number}")?;
    put_number(writer, "status", 0)?;
    put_string(writer, "verdict", "ok")?;
    put_string(writer, "format", "legacy")?;
    put_file(writer, file.as_str(), size)?;
    put_number(writer, "data-crc", dcrc as u64)?;
    Ok(())
}
