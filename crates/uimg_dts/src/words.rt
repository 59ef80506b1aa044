//! The word at the start of a text.

use crate::bytes::{after, before, byte_at, is_name_byte, label_length, name_length, path_length};
use crate::fault::Refusal;
use crate::literals::{hex_pair, read_literal};
use crate::quoted::{character_length, next_byte, string_length};
use crate::sheet::{Mode, Sheet};
use crate::stop::{Stop, at};
use crate::tokens::{Double, Piece, Word};
use std::alloc::Allocator;

/// The words between slashes, but for `/include/` and `/incbin/`.
const DIRECTIVES: [(&[u8], Word); 7] = [
    (b"/dts-v1/", Word::Version),
    (b"/plugin/", Word::Plugin),
    (b"/memreserve/", Word::Reserve),
    (b"/bits/", Word::Bits),
    (b"/delete-property/", Word::DeleteProperty),
    (b"/delete-node/", Word::DeleteNode),
    (b"/omit-if-no-ref/", Word::OmitIfNoReference),
];

const INCBIN: &[u8] = b"/incbin/";

fn slash_word(mode: Mode, folder: Piece, text: &[u8]) -> (Word, usize) {
    for (name, word) in DIRECTIVES {
        if text.starts_with(name) {
            return (word, name.len());
        }
    }
    if text.starts_with(INCBIN) && matches!(mode, Mode::Start | Mode::Values) {
        (Word::Incbin(folder), INCBIN.len())
    } else {
        (Word::Single(b'/'), 1)
    }
}

fn double_of(text: &[u8]) -> Option<Double> {
    match before(text, 2) {
        b"<<" => Some(Double::ShiftLeft),
        b">>" => Some(Double::ShiftRight),
        b"<=" => Some(Double::AtMost),
        b">=" => Some(Double::AtLeast),
        b"==" => Some(Double::Equal),
        b"!=" => Some(Double::Unequal),
        b"&&" => Some(Double::And),
        b"||" => Some(Double::Or),
        _ => None,
    }
}

// A backslash may precede the name.
fn escaped_name_length(text: &[u8]) -> usize {
    match text {
        [b'\\', b, ..] if is_name_byte(*b) => name_length(after(text, 1)).saturating_add(1),
        _ => name_length(text),
    }
}

fn add_string<A: Allocator + Copy>(
    sheet: &mut Sheet<A>,
    text: &[u8],
    left: usize,
) -> Result<usize, Stop> {
    let Some(length) = string_length(after(text, 1)) else {
        return Err(at(Refusal::BadToken, left));
    };
    let piece = sheet.keep_text(after(text, 1), length.saturating_sub(1), left)?;
    sheet.add(Word::Text(piece), left)?;
    Ok(length.saturating_add(1))
}

fn add_character<A: Allocator + Copy>(
    sheet: &mut Sheet<A>,
    text: &[u8],
    left: usize,
) -> Result<usize, Stop> {
    let Some(length) = character_length(after(text, 1)) else {
        return Err(at(Refusal::BadToken, left));
    };
    match next_byte(after(text, 1)) {
        Some((b, more)) if length > 1 && more.saturating_add(1) >= length => {
            sheet.add(Word::Character(u64::from(b)), left)?;
            Ok(length.saturating_add(1))
        }
        _ => Err(at(Refusal::BadToken, left)),
    }
}

// Reads what begins with an ampersand: a reference or an operator.
fn add_ampersand<A: Allocator + Copy>(
    sheet: &mut Sheet<A>,
    text: &[u8],
    left: usize,
) -> Result<usize, Stop> {
    let label = label_length(after(text, 1));
    let path = path_length(after(text, 2));
    if text.starts_with(b"&{/") && byte_at(text, path.saturating_add(2)) == b'}' {
        let piece = sheet.keep(before(after(text, 2), path), left)?;
        sheet.add(Word::Reference(piece), left)?;
        Ok(path.saturating_add(3))
    } else if label > 0 {
        let piece = sheet.keep(before(after(text, 1), label), left)?;
        sheet.add(Word::Reference(piece), left)?;
        Ok(label.saturating_add(1))
    } else {
        add_mark(sheet, text, left)
    }
}

// Reads an operator of two bytes or a single byte.
fn add_mark<A: Allocator + Copy>(
    sheet: &mut Sheet<A>,
    text: &[u8],
    left: usize,
) -> Result<usize, Stop> {
    if let Some(double) = double_of(text) {
        sheet.add(Word::Double(double), left)?;
        return Ok(2);
    }
    sheet.add(Word::Single(byte_at(text, 0)), left)?;
    Ok(1)
}

fn add_number<A: Allocator + Copy>(
    sheet: &mut Sheet<A>,
    text: &[u8],
    left: usize,
) -> Result<usize, Stop> {
    let found = read_literal(text);
    match found.value {
        Some(value) => {
            sheet.add(Word::Number(value), left)?;
            Ok(found.length)
        }
        None => Err(at(Refusal::BadNumber, left)),
    }
}

fn add_name<A: Allocator + Copy>(
    sheet: &mut Sheet<A>,
    text: &[u8],
    left: usize,
) -> Result<usize, Stop> {
    let name = escaped_name_length(text);
    if name == 0 {
        return add_mark(sheet, text, left);
    }
    let skipped = usize::from(byte_at(text, 0) == b'\\');
    let piece = sheet.keep(after(before(text, name), skipped), left)?;
    sheet.add(Word::Name(piece), left)?;
    Ok(name)
}

fn add_by_mode<A: Allocator + Copy>(
    sheet: &mut Sheet<A>,
    text: &[u8],
    left: usize,
) -> Result<usize, Stop> {
    let first = byte_at(text, 0);
    match sheet.mode {
        Mode::Names => add_name(sheet, text, left),
        Mode::Values if first.is_ascii_digit() => add_number(sheet, text, left),
        Mode::Bytes => match hex_pair(first, byte_at(text, 1)) {
            Some(b) => {
                sheet.add(Word::Byte(b), left)?;
                Ok(2)
            }
            None => add_mark(sheet, text, left),
        },
        _ => add_mark(sheet, text, left),
    }
}

/// Reads the word that begins a text, which is not empty and begins with no gap and no `/include/`,
/// and with so many bytes that labels may have. Adds it to the sheet, and returns its length.
pub(crate) fn add_word<A: Allocator + Copy>(
    sheet: &mut Sheet<A>,
    folder: Piece,
    text: &[u8],
    label: usize,
    left: usize,
) -> Result<usize, Stop> {
    match byte_at(text, 0) {
        b'/' => {
            let (word, length) = slash_word(sheet.mode, folder, text);
            sheet.add(word, left)?;
            Ok(length)
        }
        b'"' => add_string(sheet, text, left),
        b'\'' => add_character(sheet, text, left),
        b'&' => add_ampersand(sheet, text, left),
        first if label > 0 && !first.is_ascii_digit() && byte_at(text, label) == b':' => {
            let piece = sheet.keep(before(text, label), left)?;
            sheet.add(Word::Label(piece), left)?;
            Ok(label.saturating_add(1))
        }
        _ => add_by_mode(sheet, text, left),
    }
}
