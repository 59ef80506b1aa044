//! The texts of names and values where two images are compared.

ghost use Rattle.std.specs.Prelude.{◌≡◌, ◌+◌, ◌<◌, ◌≤◌, ◌++◌, codes, decimal, false, length, nat_le, IfOk, OnOk};
ghost use Rattle.std.specs.List.{flat_map};
ghost use Rattle.std.specs.String.{string_bytes};
ghost use Rattle.hex.specs.Hex.{encode_lower};
ghost use Rattle.sha2.specs.Sha256.{sha256};
ghost use Rattle.uimg_base.specs.Honest.{IfHonest};
ghost use Rattle.uimg_fit_checking.specs.SurveyParts.{IsOwn, LeavesSurvey};
ghost use Rattle.uimg_fit_reading.specs.Values.{in_span, pieces};
ghost use Rattle.uimg_info.specs.ValueTexts.{after_byte, escaped, escaped_byte, name_text, quoted, quoted_next, strings_text, are_texts, digits_text, full_text, digest_text, value_text, text_inside};

use crate::members::cut;
use std::alloc::{AllocError, Allocator, Global};
use uimg_base::{Room, Source, Span, sum_range};
use uimg_fit_checking::{SurveyFault, read_bytes};
use uimg_printing::Printed;
use uimg_sums::Sha256Sum;

// The most bytes of a value that is printed in full.
const MOST: u64 = 128;

fn push_byte(to: &mut Vec<u8>, byte: u8, mark: u8, escape: &[u8]) -> Result<(), AllocError>
    ensures { OnOk result (to.new.items ≡ to.old.items ++ escaped_byte mark escape.now byte) }
{
    if byte == mark {
        to.extend_from_slice(escape)?;
        return Ok(());
    }
    to.push(byte)?;
    Ok(())
}

fn push_escaped(to: &mut Vec<u8>, text: &[u8], mark: u8, escape: &[u8]) -> Result<(), AllocError>
    ensures { OnOk result (to.new.items ≡ to.old.items ++ escaped mark escape.now text.now) }
{
    for byte in text {
        push_byte(to, *byte, mark, escape)?;
    }
    Ok(())
}

/// Appends a name as it is in a path.
pub(crate) fn push_name(alloc: Global, to: &mut Vec<u8>, name: &[u8]) -> Result<(), AllocError>
    ensures { OnOk result (to.new.items ≡ to.old.items ++ name_text name.now) }
{
    let text = format!(in alloc; "{}", Printed(name))?;
    push_escaped(to, text.as_bytes(), b'/', b"\\x2f")?;
    Ok(())
}

fn push_quoted(alloc: Global, to: &mut Vec<u8>, piece: &[u8]) -> Result<(), AllocError>
    ensures { OnOk result (to.new.items ≡ to.old.items ++ quoted piece.now) }
{
    let text = format!(in alloc; "{}", Printed(piece))?;
    to.push(b'"')?;
    push_escaped(to, text.as_bytes(), b'"', b"\\x22")?;
    to.push(b'"')?;
    Ok(())
}

fn push_next(alloc: Global, to: &mut Vec<u8>, piece: &[u8]) -> Result<(), AllocError>
    ensures { OnOk result (to.new.items ≡ to.old.items ++ quoted_next piece.now) }
{
    to.extend_from_slice(b", ")?;
    push_quoted(alloc, to, piece)?;
    Ok(())
}

fn push_others(alloc: Global, to: &mut Vec<u8>, bytes: &[u8]) -> Result<(), AllocError>
    ensures { OnOk result (to.new.items ≡ to.old.items ++ flat_map quoted_next (pieces bytes.now)) }
{
    let mut rest = bytes;
    while !rest.is_empty() {
        let (piece, behind) = cut(rest);
        push_next(alloc, to, piece)?;
        rest = behind;
    }
    Ok(())
}

fn strings_text(alloc: Global, value: &[u8]) -> Result<Vec<u8>, AllocError>
    requires { 0 < length value.now }
    ensures { IfOk result (λ text. text.items ≡ strings_text (pieces value.now)) }
{
    let (first, others) = cut(value);
    let mut text = Vec::new(alloc);
    push_quoted(alloc, &mut text, first)?;
    push_others(alloc, &mut text, others)?;
    Ok(text)
}

#[tactic(auto, unfolding(crate::specs::ValueTexts::after_byte))]
fn after_byte(is_begun: bool, byte: u8) -> Option<bool>
    ensures { result ≡ after_byte is_begun byte }
{
    if byte == 0 {
        return if is_begun { Some(false) } else { None };
    }
    if byte < 32 || byte > 126 {
        return None;
    }
    Some(true)
}

#[tactic(auto, unfolding(crate::specs::ValueTexts::are_texts))]
fn are_texts(value: &[u8]) -> bool
    ensures { result ≡ are_texts false value.now }
{
    let mut is_begun = false;
    for byte in value {
        let Some(is_begun_now) = after_byte(is_begun, *byte) else {
            return false;
        };
        is_begun = is_begun_now;
    }
    !is_begun
}

#[tactic(auto, unfolding(crate::specs::ValueTexts::digits_text))]
fn digits_text(alloc: Global, value: &[u8]) -> Result<Vec<u8>, AllocError>
    ensures { IfOk result (λ text. text.items ≡ digits_text value.now) }
{
    let digits = hex::encode(alloc, value)?;
    if value.len() == 4 || value.len() == 8 {
        let text = format!(in alloc; "0x{digits}")?;
        return Ok(text.into_bytes());
    }
    let text = format!(in alloc; "[{digits}]")?;
    Ok(text.into_bytes())
}

#[tactic(auto, unfolding(crate::specs::ValueTexts::full_text))]
fn full_text(alloc: Global, value: &[u8]) -> Result<Vec<u8>, AllocError>
    ensures { IfOk result (λ text. text.items ≡ full_text value.now) }
{
    if !value.is_empty() && are_texts(value) {
        return strings_text(alloc, value);
    }
    digits_text(alloc, value)
}

// Returns the digits of the SHA-256 of the bytes at a span.
fn digits_at<S: Source, A: Allocator>(
    alloc: Global,
    source: &mut S,
    room: &mut Room<A>,
    span: Span,
) -> Result<String, SurveyFault>
    requires { span.place + span.length ≤ length (S.device source.old).bytes }
    ensures leaves { LeavesSurvey result S.device source room }
    ensures own { IsOwn result }
    ensures told { IfHonest S.device source (λ file. IfOk result (λ digits.
        string_bytes digits ≡ encode_lower (sha256 (in_span file span)))) }
{
    let mut digest = [0; 64];
    let count = sum_range::<Sha256Sum, S, A>(source, room, span.place, span.length, &mut digest)?;
    let digits = hex::encode(alloc, &digest[..count])?;
    Ok(digits)
}

fn sized_text(alloc: Global, size: u64, digits: &str) -> Result<Vec<u8>, AllocError>
    ensures { IfOk result (λ text.
        text.items ≡ decimal size ++ codes " bytes sha256 " ++ digits.now) }
{
    let number = format!(in alloc; "{size}")?;
    let mut text = number.into_bytes();
    text.extend_from_slice(b" bytes sha256 ")?;
    text.extend_from_slice(digits.as_bytes())?;
    Ok(text)
}

fn digest_text<S: Source, A: Allocator>(
    alloc: Global,
    source: &mut S,
    room: &mut Room<A>,
    span: Span,
) -> Result<Vec<u8>, SurveyFault>
    requires { span.place + span.length ≤ length (S.device source.old).bytes }
    ensures leaves { LeavesSurvey result S.device source room }
    ensures own { IsOwn result }
    ensures told { IfHonest S.device source (λ file.
        IfOk result (λ text. text.items ≡ digest_text span.length (in_span file span))) }
{
    let digits = digits_at(alloc, source, room, span)?;
    let text = sized_text(alloc, span.length, digits.as_str())?;
    Ok(text)
}

/// Returns the text of the value at a span.
#[tactic(auto, unfolding(crate::specs::ValueTexts::value_text))]
pub(crate) fn value_text<S: Source, A: Allocator>(
    alloc: Global,
    source: &mut S,
    room: &mut Room<A>,
    span: Span,
) -> Result<Vec<u8>, SurveyFault>
    requires { span.place + span.length ≤ length (S.device source.old).bytes }
    ensures leaves { LeavesSurvey result S.device source room }
    ensures own { IsOwn result }
    ensures told { IfHonest S.device source (λ file.
        IfOk result (λ text. text.items ≡ value_text (in_span file span))) }
{
    if span.length > MOST {
        return digest_text(alloc, source, room, span);
    }
    let value = read_bytes(alloc, source, span)?;
    let text = full_text(alloc, value.as_slice())?;
    Ok(text)
}

// Returns whether a span ends in a file of `size` bytes.
fn is_inside(span: Span, size: u64) -> bool
    ensures { result ≡ nat_le (span.place + span.length) size }
{
    match span.place.checked_add(span.length) {
        Some(end) => end <= size,
        None => false,
    }
}

/// Returns the text of the value at a span, or nothing if it ends after the source.
#[tactic(auto, unfolding(crate::specs::ValueTexts::text_inside))]
pub(crate) fn text_inside<S: Source, A: Allocator>(
    alloc: Global,
    source: &mut S,
    room: &mut Room<A>,
    span: Span,
) -> Result<Vec<u8>, SurveyFault>
    ensures leaves { LeavesSurvey result S.device source room }
    ensures own { IsOwn result }
    ensures told { IfHonest S.device source (λ file.
        IfOk result (λ text. text.items ≡ text_inside file span)) }
{
    let size = source.size()?;
    if !is_inside(span, size) {
        return Ok(Vec::new(alloc));
    }
    value_text(alloc, source, room, span)
}
