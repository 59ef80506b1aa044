//! Members of objects, by the forms of properties' values.

ghost use Rattle.std.specs.{Prelude.{◌≡◌, ◌<◌, ◌∷◌, length, map, true, false}, List.list_all};
ghost use Rattle.std.specs.Str.{is_utf8};
ghost use Rattle.json.specs.Tree.{json_tokens};
ghost use Rattle.uimg_fit_reading.specs.Values.{pieces};
ghost use Rattle.uimg_printing.specs.Members.{text_json, array_of, tokens_of};
ghost use Rattle.uimg_info.specs.Members.{texts_members, told_as, length_of, cell_number, address_number};
ghost use Rattle.uimg_info.specs.Steps.{AddsTokens};

use crate::forms::Form;
use base64::engine::general_purpose::STANDARD;
use byteorder::{BigEndian, ByteOrder};
use json::Writer;
use std::alloc::{AllocError, Global};
use uimg_base::{before_nul, first_nul};
use uimg_printing::{put_key, put_number, put_number_if, put_text};

/// Returns the bytes before the first NUL, and those after it.
pub(crate) fn cut(bytes: &[u8]) -> (&[u8], &[u8])
    requires { 0 < length bytes.now }
    ensures pieces { pieces bytes.now ≡ result.0.now ∷ pieces result.1.now }
    ensures fewer { length result.1.now < length bytes.now }
{
    match first_nul(bytes) {
        Some(end) => (&bytes[..end], &bytes[end + 1..]),
        None => (bytes, &bytes[bytes.len()..]),
    }
}

fn is_utf8(bytes: &[u8]) -> bool
    ensures { result ≡ is_utf8 bytes.now }
{
    match str::from_utf8(bytes) {
        Ok(_) => true,
        Err(_) => false,
    }
}

fn are_utf8(bytes: &[u8]) -> bool
    ensures { result ≡ list_all is_utf8 (pieces bytes.now) }
{
    let mut rest = bytes;
    while !rest.is_empty() {
        let (piece, behind) = cut(rest);
        if !is_utf8(piece) {
            return false;
        }
        rest = behind;
    }
    true
}

// Writes a text as a value, or its bytes.
fn put_piece(
    alloc: Global,
    writer: &mut Writer,
    piece: &[u8],
    as_bytes: bool,
) -> Result<(), AllocError>
    ensures { AddsTokens result writer (json_tokens (text_json as_bytes piece.now)) }
{
    let text = if as_bytes {
        STANDARD.encode(alloc, piece)?
    } else {
        String::from_utf8_lossy(alloc, piece)?
    };
    writer.string(text.as_str())?;
    Ok(())
}

fn put_pieces(
    alloc: Global,
    writer: &mut Writer,
    bytes: &[u8],
    as_bytes: bool,
) -> Result<(), AllocError>
    ensures { AddsTokens result writer
        (json_tokens (array_of (map (text_json as_bytes) (pieces bytes.now)))) }
{
    writer.begin_array()?;
    let mut rest = bytes;
    while !rest.is_empty() {
        let (piece, behind) = cut(rest);
        put_piece(alloc, writer, piece, as_bytes)?;
        rest = behind;
    }
    writer.end_array()?;
    Ok(())
}

// Writes texts, and also their bytes if one is not UTF-8.
fn put_texts(alloc: Global, writer: &mut Writer, name: &str, bytes: &[u8]) -> Result<(), AllocError>
    ensures { AddsTokens result writer (tokens_of (texts_members name.now (pieces bytes.now))) }
{
    writer.key(name)?;
    put_pieces(alloc, writer, bytes, false)?;
    if are_utf8(bytes) {
        return Ok(());
    }
    put_key(alloc, writer, name, "_base64")?;
    put_pieces(alloc, writer, bytes, true)?;
    Ok(())
}

fn put_digest(
    alloc: Global,
    writer: &mut Writer,
    name: &str,
    value: &[u8],
) -> Result<(), AllocError>
    ensures { AddsTokens result writer (tokens_of (told_as Form.Digest name.now value.now)) }
{
    let digits = hex::encode(alloc, value)?;
    writer.key(name)?;
    writer.string(digits.as_str())?;
    Ok(())
}

#[tactic(auto, unfolding(crate::specs::Members::cell_number))]
fn cell_number(value: &[u8]) -> Option<u64>
    ensures { result ≡ cell_number value.now }
{
    if value.len() == 4 {
        return Some(BigEndian::read_u32(value) as u64);
    }
    None
}

// Returns the number of an address of one cell or two.
#[tactic(auto, unfolding(crate::specs::Members::address_number))]
fn address_number(value: &[u8]) -> Option<u64>
    ensures { result ≡ address_number value.now }
{
    if value.len() == 4 {
        return Some(BigEndian::read_u32(value) as u64);
    }
    if value.len() == 8 {
        return Some(BigEndian::read_u64(value));
    }
    None
}

pub(crate) fn put_value(
    alloc: Global,
    writer: &mut Writer,
    form: Form,
    name: &str,
    value: &[u8],
) -> Result<(), AllocError>
    ensures { AddsTokens result writer (tokens_of (told_as form name.now value.now)) }
{
    match form {
        Form::Text => put_text(alloc, writer, name, before_nul(value)),
        Form::Texts => put_texts(alloc, writer, name, value),
        Form::Digest => put_digest(alloc, writer, name, value),
        Form::Cell => put_number_if(writer, name, cell_number(value)),
        Form::Address => put_number_if(writer, name, address_number(value)),
    }
}

/// Writes the length of a value that is too long to be printed, unless it would be a number.
pub(crate) fn put_length(
    alloc: Global,
    writer: &mut Writer,
    form: Form,
    name: &str,
    length: u64,
) -> Result<(), AllocError>
    ensures { AddsTokens result writer (tokens_of (length_of form name.now length)) }
{
    if matches!(form, Form::Cell | Form::Address) {
        return Ok(());
    }
    put_key(alloc, writer, name, "_length")?;
    writer.u64(length)?;
    Ok(())
}
