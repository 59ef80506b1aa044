//! The values of properties.

ghost use Rattle.uimg_dts.specs.Answers.{OpensFiles};

use crate::arrays::{byte_pairs, numbers};
use crate::expressions::number;
use crate::fault::Refusal;
use crate::opening::{Range, WHOLE, read_file, size_of};
use crate::reading::{begins, behind, expect, left_at, unexpected, word_at};
use crate::sheet::IN_FOLDER;
use crate::stop::{FileStop, Stop, at, out_of_memory, refused};
use crate::table::{MarkKind, Table};
use crate::tokens::{Piece, Token, Word};
use std::alloc::Allocator;
use uimg_base::Files;

/// The least offset that a file of the C library can't have.
const OFFSETS: u64 = 1 << 63;

fn labels<'a, A: Allocator + Copy>(
    table: &mut Table<'_, A>,
    start: usize,
    tokens: &'a [Token],
) -> Result<&'a [Token], Stop> {
    let mut rest = tokens;
    for token in tokens {
        let Word::Label(name) = token.word else {
            return Ok(rest);
        };
        table.add_mark(MarkKind::Label, name, start, token.left)?;
        rest = behind(rest);
    }
    Ok(rest)
}

fn add<A: Allocator>(path: &mut Vec<u8, A>, bytes: &[u8], left: usize) -> Result<(), Stop> {
    match path.extend_from_slice(bytes) {
        Ok(()) => Ok(()),
        Err(_) => Err(out_of_memory(left)),
    }
}

fn path_of<A: Allocator + Copy>(
    table: &Table<'_, A>,
    folder: Piece,
    name: Piece,
    left: usize,
) -> Result<Vec<u8, A>, Stop> {
    let text = table.text(name);
    let mut path = Vec::new(table.alloc);
    let before = table.text(folder);
    if !before.is_empty() && text.first() != Some(&b'/') {
        add(&mut path, before, left)?;
        add(&mut path, IN_FOLDER, left)?;
    }
    add(&mut path, text, left)?;
    Ok(path)
}

// Reads the range of a file up to the closing parenthesis. Returns it and the words after it.
fn range_of(tokens: &[Token]) -> Result<(Range, &[Token]), Stop> {
    if begins(b')', tokens) {
        return Ok((WHOLE, behind(tokens)));
    }
    let first = expect(b',', tokens)?;
    let (offset, comma) = number(first)?;
    let (length, closing) = number(expect(b',', comma)?)?;
    if offset >= OFFSETS {
        return Err(at(Refusal::BadNumber, left_at(first)));
    }
    Ok((Range { offset, length }, expect(b')', closing)?))
}

fn file<'a, F: Files, A: Allocator + Copy>(
    files: &mut F,
    table: &mut Table<'_, A>,
    folder: Piece,
    left: usize,
    tokens: &'a [Token],
) -> Result<&'a [Token], FileStop>
    ensures opens { OpensFiles F.Opened.steady F.map result files }
{
    let inner = expect(b'(', tokens)?;
    let Some(Word::Text(name)) = word_at(inner) else {
        return refused(unexpected(inner));
    };
    let (range, rest) = range_of(behind(inner))?;
    let path = path_of(table, folder, name, left)?;
    let bytes = read_file(table.alloc, files, &path, range, left)?;
    table.append(&bytes, left)?;
    Ok(rest)
}

// Appends a string, an array, bytes, a part of a file or the place of a path to the value that
// begins at a place. Returns the words after it.
fn one_value<'a, F: Files, A: Allocator + Copy>(
    files: &mut F,
    table: &mut Table<'_, A>,
    start: usize,
    tokens: &'a [Token],
) -> Result<&'a [Token], FileStop>
    ensures opens { OpensFiles F.Opened.steady F.map result files }
{
    let left = left_at(tokens);
    match word_at(tokens) {
        Some(Word::Text(text)) => {
            let bytes = table.text(text);
            table.append(bytes, left)?;
            table.append(&[0], left)?;
            Ok(behind(tokens))
        }
        Some(Word::Reference(name)) => {
            table.add_mark(MarkKind::Path, name, start, left)?;
            Ok(behind(tokens))
        }
        Some(Word::Incbin(folder)) => file(files, table, folder, left, behind(tokens)),
        Some(Word::Single(b'[')) => Ok(byte_pairs(table, start, behind(tokens))?),
        _ => Ok(numbers(table, start, tokens)?),
    }
}

// Appends values up to the word after the last. Returns the words from there on.
fn values<'a, F: Files, A: Allocator + Copy>(
    files: &mut F,
    table: &mut Table<'_, A>,
    start: usize,
    tokens: &'a [Token],
) -> Result<&'a [Token], FileStop>
    ensures opens { OpensFiles F.Opened.steady F.map result files }
{
    let mut rest = tokens;
    for _ in 0..tokens.len() {
        let value = labels(table, start, rest)?;
        let behind_value = one_value(files, table, start, value)?;
        rest = labels(table, start, behind_value)?;
        if !begins(b',', rest) {
            return Ok(rest);
        }
        rest = behind(rest);
    }
    refused(unexpected(rest))
}

// Appends the name of the file that is all of a value. Returns the words after the property, or
// `None` if the value is something else.
fn lone_file<'a, F: Files, A: Allocator + Copy>(
    files: &mut F,
    table: &mut Table<'_, A>,
    tokens: &'a [Token],
) -> Result<Option<&'a [Token]>, FileStop>
    ensures opens { OpensFiles F.Opened.steady F.map result files }
{
    let Some(Word::Incbin(folder)) = word_at(tokens) else {
        return Ok(None);
    };
    let left = left_at(tokens);
    let opened = behind(tokens);
    let name = behind(opened);
    let closed = behind(name);
    let end = behind(closed);
    let Some(Word::Text(text)) = word_at(name) else {
        return Ok(None);
    };
    if !begins(b'(', opened) || !begins(b')', closed) || !begins(b';', end) {
        return Ok(None);
    }
    let path = path_of(table, folder, text, left)?;
    let _ = size_of(files, &path, left)?;
    table.append(&path, left)?;
    Ok(Some(behind(end)))
}

/// Reads the value of a property after the equals sign, up to the semicolon. Returns the words after
/// it. If the property is named `data` and its value is just one file, the value is the file's name.
pub(crate) fn assigned<'a, F: Files, A: Allocator + Copy>(
    files: &mut F,
    table: &mut Table<'_, A>,
    place: usize,
    name: Piece,
    tokens: &'a [Token],
) -> Result<&'a [Token], FileStop>
    ensures opens { OpensFiles F.Opened.steady F.map result files }
{
    let start = table.values.len();
    let marks = table.marks.len();
    let mut is_file = false;
    let mut rest = tokens;
    if table.text(name) == b"data".as_slice() {
        if let Some(after) = lone_file(files, table, tokens)? {
            is_file = true;
            rest = after;
        }
    }
    if !is_file {
        rest = expect(b';', values(files, table, start, tokens)?)?;
    }
    let value = Piece {
        start,
        end: table.values.len(),
    };
    let own = Piece {
        start: marks,
        end: table.marks.len(),
    };
    if let Some(property) = table.properties.get_mut(place) {
        property.value = value;
        property.marks = own;
        property.is_file = is_file;
    }
    Ok(rest)
}
