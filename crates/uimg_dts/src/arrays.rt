//! Arrays of numbers and of bytes.

use crate::expressions::number;
use crate::fault::Refusal;
use crate::reading::{behind, expect, left_at, unexpected, word_at};
use crate::stop::{Stop, at};
use crate::table::{MarkKind, Table};
use crate::tokens::{Token, Word};
use std::alloc::Allocator;
use uimg_base::Files;

/// The size of an element.
#[derive(Clone, Copy, PartialEq)]
enum Width {
    Bits8,
    Bits16,
    Bits32,
    Bits64,
}

// The number may be unsigned or negative.
fn fits(width: Width, value: u64) -> bool {
    let most = match width {
        Width::Bits8 => 0xff,
        Width::Bits16 => 0xffff,
        Width::Bits32 => 0xffff_ffff,
        Width::Bits64 => u64::MAX,
    };
    value <= most || (value | most) == u64::MAX
}

fn push_number<A: Allocator + Copy>(
    table: &mut Table<'_, A>,
    width: Width,
    value: u64,
    left: usize,
) -> Result<(), Stop> {
    if !fits(width, value) {
        return Err(at(Refusal::BadNumber, left));
    }
    let bytes = value.to_be_bytes();
    match width {
        Width::Bits8 => table.append(&bytes[7..], left),
        Width::Bits16 => table.append(&bytes[6..], left),
        Width::Bits32 => table.append(&bytes[4..], left),
        Width::Bits64 => table.append(&bytes, left),
    }
}

// Reads the start of an array, up to `<`. Returns the size of its elements and the words after it.
fn opened(tokens: &[Token]) -> Result<(Width, &[Token]), Stop> {
    let Some(Word::Bits) = word_at(tokens) else {
        return Ok((Width::Bits32, expect(b'<', tokens)?));
    };
    let size = behind(tokens);
    let width = match word_at(size) {
        Some(Word::Number(8)) => Width::Bits8,
        Some(Word::Number(16)) => Width::Bits16,
        Some(Word::Number(32)) => Width::Bits32,
        Some(Word::Number(64)) => Width::Bits64,
        Some(Word::Number(_)) => return Err(at(Refusal::BadNumber, left_at(size))),
        _ => return Err(unexpected(size)),
    };
    Ok((width, expect(b'<', behind(size))?))
}

pub(crate) fn numbers<'a, A: Allocator + Copy>(
    table: &mut Table<'_, A>,
    start: usize,
    tokens: &'a [Token],
) -> Result<&'a [Token], Stop> {
    let (width, mut rest) = opened(tokens)?;
    for _ in 0..tokens.len() {
        let left = left_at(rest);
        match word_at(rest) {
            Some(Word::Single(b'>')) => return Ok(behind(rest)),
            Some(Word::Label(name)) => {
                table.add_mark(MarkKind::Label, name, start, left)?;
                rest = behind(rest);
            }
            Some(Word::Reference(name)) if width == Width::Bits32 => {
                table.add_mark(MarkKind::Phandle, name, start, left)?;
                table.append(&[255; 4], left)?;
                rest = behind(rest);
            }
            Some(Word::Reference(_)) => return Err(at(Refusal::BadNumber, left)),
            _ => {
                let (value, after) = number(rest)?;
                push_number(table, width, value, left)?;
                rest = after;
            }
        }
    }
    Err(unexpected(rest))
}

pub(crate) fn byte_pairs<'a, A: Allocator + Copy>(
    table: &mut Table<'_, A>,
    start: usize,
    tokens: &'a [Token],
) -> Result<&'a [Token], Stop> {
    let mut rest = tokens;
    for _ in 0..tokens.len() {
        let left = left_at(rest);
        match word_at(rest) {
            Some(Word::Single(b']')) => return Ok(behind(rest)),
            Some(Word::Label(name)) => table.add_mark(MarkKind::Label, name, start, left)?,
            Some(Word::Byte(b)) => table.append(&[b], left)?,
            _ => return Err(unexpected(rest)),
        }
        rest = behind(rest);
    }
    Err(unexpected(rest))
}
