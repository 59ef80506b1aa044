//! The object of a legacy image's facts.

ghost use Rattle.std.specs.{Prelude.{◌≡◌, codes, map, true, IfOk}, Str.IsUtf8};
ghost use Rattle.json.specs.Tree.{json_tokens};
ghost use Rattle.uimg_printing.specs.Objects.{is_one_line};
ghost use Rattle.uimg_printing.specs.Members.{array_of, number_member, tokens_of};
ghost use Rattle.uimg_texts.specs.Numbers.{be32};
ghost use Rattle.uimg_legacy.specs.Header.{spelled};
ghost use Rattle.uimg_info.specs.Legacy.{code_members, numbers_members, codes_members, header_members, part_json, legacy_head, legacy_json};
ghost use Rattle.uimg_info.specs.Steps.{AddsTokens, Prints, IsJson};

use json::Writer;
use std::alloc::{AllocError, Global};
use uimg_base::{Span, be32_at, before_nul};
use uimg_legacy::{Header, header_bytes};
use uimg_printing::{put_number, put_string, put_text};
use uimg_texts::{Field, Naming};

fn put_code(
    writer: &mut Writer,
    field: Field,
    name: &str,
    of_code: &str,
    code: u8,
) -> Result<(), AllocError>
    ensures { AddsTokens result writer (tokens_of (code_members field name.now of_code.now code)) }
{
    put_string(writer, name, Naming::Profile.code_text(field, code))?;
    put_number(writer, of_code, code as u64)?;
    Ok(())
}

fn put_crc(writer: &mut Writer, header: &Header) -> Result<(), AllocError>
    ensures { AddsTokens result writer
        (tokens_of (number_member (codes "header-crc") (be32 (spelled header.now) 4))) }
{
    let crc = be32_at(&header_bytes(header), 4);
    put_number(writer, "header-crc", crc as u64)
}

fn put_numbers(writer: &mut Writer, header: &Header) -> Result<(), AllocError>
    ensures { AddsTokens result writer (tokens_of (numbers_members header.now)) }
{
    put_number(writer, "time", header.time as u64)?;
    put_number(writer, "load", header.load as u64)?;
    put_number(writer, "entry", header.ep as u64)?;
    put_crc(writer, header)?;
    put_number(writer, "data-crc", header.dcrc as u64)?;
    Ok(())
}

fn put_codes(writer: &mut Writer, header: &Header) -> Result<(), AllocError>
    ensures { AddsTokens result writer (tokens_of (codes_members header.now)) }
{
    put_code(writer, Field::System, "os", "os-code", header.os)?;
    put_code(
        writer,
        Field::Architecture,
        "arch",
        "arch-code",
        header.arch,
    )?;
    put_code(writer, Field::Kind, "type", "type-code", header.kind)?;
    put_code(
        writer,
        Field::Compression,
        "compression",
        "compression-code",
        header.comp,
    )?;
    Ok(())
}

fn put_header(writer: &mut Writer, header: &Header) -> Result<(), AllocError>
    ensures { AddsTokens result writer (tokens_of (header_members header.now)) }
{
    put_numbers(writer, header)?;
    put_codes(writer, header)?;
    put_number(writer, "data-size", header.size as u64)?;
    Ok(())
}

fn put_part(writer: &mut Writer, part: Span) -> Result<(), AllocError>
    ensures { AddsTokens result writer (json_tokens (part_json part)) }
{
    writer.begin_object()?;
    put_number(writer, "offset", part.place)?;
    put_number(writer, "size", part.length)?;
    writer.end_object()?;
    Ok(())
}

fn put_parts(writer: &mut Writer, parts: &[Span]) -> Result<(), AllocError>
    ensures { AddsTokens result writer (json_tokens (array_of (map part_json parts.now))) }
{
    writer.begin_array()?;
    for part in parts {
        put_part(writer, *part)?;
    }
    writer.end_array()?;
    Ok(())
}

fn put_head(writer: &mut Writer, path: &str, size: u64) -> Result<(), AllocError>
    ensures { AddsTokens result writer (tokens_of (legacy_head path.now size)) }
{
    put_string(writer, "path", path)?;
    put_number(writer, "status", 0)?;
    put_string(writer, "format", "legacy")?;
    put_number(writer, "size", size)?;
    Ok(())
}

fn put_legacy(
    alloc: Global,
    writer: &mut Writer,
    path: &str,
    size: u64,
    header: &Header,
    parts: &[Span],
) -> Result<(), AllocError>
    ensures { AddsTokens result writer
        (json_tokens (legacy_json path.now size header.now parts.now)) }
{
    writer.begin_object()?;
    put_head(writer, path, size)?;
    put_text(alloc, writer, "name", before_nul(&header.name))?;
    put_header(writer, header)?;
    writer.key("parts")?;
    put_parts(writer, parts)?;
    writer.end_object()?;
    Ok(())
}

/// Returns the text of the object of a legacy image, of a file of `size` bytes at a path: the
/// fields of its header, and where its parts are. The text is UTF-8 and one line, without its end,
/// and reads as this object. Fails if memory for it is refused.
pub fn legacy_text(
    alloc: Global,
    path: &str,
    size: u64,
    header: &Header,
    parts: &[Span],
) -> Result<Vec<u8>, AllocError>
    ensures text { IfOk result (Prints (legacy_json path.now size header.now parts.now)) }
    ensures reads_back { IfOk result (IsJson (legacy_json path.now size header.now parts.now)) }
    ensures utf8 { IfOk result (λ text. IsUtf8 text.items) }
    ensures one_line { IfOk result (λ text. is_one_line text.items ≡ true) }
{
    let mut writer = Writer::new(Vec::new(alloc));
    put_legacy(alloc, &mut writer, path, size, header, parts)?;
    Ok(writer.into_inner())
}
