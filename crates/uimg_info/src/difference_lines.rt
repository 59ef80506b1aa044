//! Differences as lines: of text, or of JSON.

ghost use Rattle.std.specs.Prelude.{◌≡◌, ◌++◌, false, option_map, true, IfOk, OnOk};
ghost use Rattle.std.specs.{Io.KnownBytes.Appends, List.flat_map};
ghost use Rattle.uimg_printing.specs.Members.{tokens_of};
ghost use Rattle.uimg_info.specs.{Comparing.{differs, now_of}, Steps.AddsTokens};
ghost use Rattle.uimg_info.specs.DifferenceLines.{both_line, difference_members, ending, line_at, only_line, text_if};

use crate::comparing::Difference;
use json::Writer;
use std::alloc::{AllocError, Global};
use std::io;
use std::io::Write;
use uimg_printing::put_text;

// Appends the text of a value after its key, if there is one.
fn push_ending(to: &mut Vec<u8>, text: &[u8]) -> Result<(), AllocError>
    ensures { OnOk result (to.new.items ≡ to.old.items ++ ending text.now) }
{
    if text.is_empty() {
        return Ok(());
    }
    to.extend_from_slice(b": ")?;
    to.extend_from_slice(text)?;
    Ok(())
}

fn push_only(to: &mut Vec<u8>, sign: &[u8], key: &[u8], text: &[u8]) -> Result<(), AllocError>
    ensures { OnOk result (to.new.items ≡ to.old.items ++ only_line sign.now key.now text.now) }
{
    to.extend_from_slice(sign)?;
    to.extend_from_slice(key)?;
    push_ending(to, text)?;
    to.push(b'\n')?;
    Ok(())
}

fn push_both(to: &mut Vec<u8>, key: &[u8], old: &[u8], new: &[u8]) -> Result<(), AllocError>
    ensures { OnOk result (to.new.items ≡ to.old.items ++ both_line key.now old.now new.now) }
{
    to.extend_from_slice(key)?;
    push_ending(to, old)?;
    to.extend_from_slice(b" -> ")?;
    to.extend_from_slice(new)?;
    to.push(b'\n')?;
    Ok(())
}

fn line_of(alloc: Global, difference: &Difference<'_>) -> Result<Vec<u8>, AllocError>
    ensures { IfOk result (λ line. line.items ≡ line_at false difference.now) }
{
    let mut line = Vec::new(alloc);
    match (difference.old, difference.new) {
        (Some(old), Some(new)) => push_both(&mut line, difference.key, old, new)?,
        (Some(old), None) => push_only(&mut line, b"- ", difference.key, old)?,
        (None, Some(new)) => push_only(&mut line, b"+ ", difference.key, new)?,
        (None, None) => {}
    }
    Ok(line)
}

fn put_text_if(
    alloc: Global,
    writer: &mut Writer,
    name: &str,
    text: Option<&[u8]>,
) -> Result<(), AllocError>
    ensures { AddsTokens result writer
        (tokens_of (text_if name.now (option_map now_of text.entry))) }
{
    match text {
        Some(text) => put_text(alloc, writer, name, text),
        None => Ok(()),
    }
}

fn put_members(
    alloc: Global,
    writer: &mut Writer,
    difference: &Difference<'_>,
) -> Result<(), AllocError>
    ensures { AddsTokens result writer (tokens_of (difference_members (differs difference.now))) }
{
    put_text(alloc, writer, "key", difference.key)?;
    put_text_if(alloc, writer, "old", difference.old)?;
    put_text_if(alloc, writer, "new", difference.new)?;
    Ok(())
}

fn object_of(alloc: Global, difference: &Difference<'_>) -> Result<Vec<u8>, AllocError>
    ensures { IfOk result (λ line. line.items ≡ line_at true difference.now) }
{
    let mut writer = Writer::new(Vec::new(alloc));
    writer.begin_object()?;
    put_members(alloc, &mut writer, difference)?;
    writer.end_object()?;
    let mut line = writer.into_inner();
    line.push(b'\n')?;
    Ok(line)
}

fn put_line<W: Write>(
    alloc: Global,
    as_json: bool,
    difference: &Difference<'_>,
    out: &mut W,
) -> io::Result<()>
    ensures { OnOk result (Appends (W.contents out.old) (W.contents out.new)
        (line_at as_json difference.now)) }
{
    let line = if as_json {
        object_of(alloc, difference)?
    } else {
        line_of(alloc, difference)?
    };
    out.write_all(line.as_slice())
}

/// Writes a line for each difference: the key and both texts, or a sign and one text; or a JSON
/// object (RFC 8259) of these. What was written before a failure stays.
pub fn put_differences<W: Write>(
    alloc: Global,
    as_json: bool,
    differences: &[Difference<'_>],
    out: &mut W,
) -> io::Result<()>
    ensures { OnOk result (Appends (W.contents out.old) (W.contents out.new)
        (flat_map (line_at as_json) differences.now)) }
{
    for difference in differences {
        put_line(alloc, as_json, difference, out)?;
    }
    Ok(())
}
