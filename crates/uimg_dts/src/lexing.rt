//! The words of a text and of the files that it includes, in order.

ghost use Rattle.uimg_dts.specs.Answers.{OpensFiles};

use crate::bytes::{after, before, blanks_length, byte_at, run_length};
use crate::fault::Refusal;
use crate::gaps::{Ends, gap_length};
use crate::opening::{WHOLE, read_file};
use crate::phandles::PREFIX;
use crate::quoted::string_length;
use crate::sheet::Sheet;
use crate::stop::{FileStop, at, refused};
use crate::tokens::{NOTHING, Piece};
use crate::words::add_word;
use std::alloc::Allocator;
use uimg_base::Files;

/// The most files that a source includes, as many as dtc takes.
const MOST_INCLUDES: u8 = 199;

/// The most files that include one another.
const MOST_LEVELS: u8 = 64;

const INCLUDE: &[u8] = b"/include/";

// Where a text is from: the folder of its file, up to a slash; the place of the word `/include/` in
// the first text that leads to it; and how many levels of files it may include.
#[derive(Clone, Copy)]
struct Origin {
    folder: Piece,
    left: Option<usize>,
    levels: u8,
}

// Returns the length of a path up to its last slash.
fn folder_length(path: &[u8]) -> usize {
    let mut length = 0;
    for (i, b) in path.iter().enumerate() {
        if *b == b'/' {
            length = i.saturating_add(1);
        }
    }
    length
}

// Reads the words of the file that a text includes. Returns the length of what includes it.
#[cycle(lexing)]
fn include<F: Files, A: Allocator + Copy>(
    alloc: A,
    files: &mut F,
    sheet: &mut Sheet<A>,
    origin: Origin,
    text: &[u8],
    left: usize,
) -> Result<usize, FileStop>
    ensures opens { OpensFiles F.Opened.steady F.map result files }
{
    let quote = INCLUDE
        .len()
        .saturating_add(blanks_length(after(text, INCLUDE.len())));
    let quoted = after(text, quote.saturating_add(1));
    let length = match string_length(quoted) {
        Some(length) if byte_at(text, quote) == b'"' => length,
        _ => return refused(at(Refusal::BadToken, left)),
    };
    if sheet.includes >= MOST_INCLUDES || origin.levels == 0 {
        return refused(at(Refusal::Includes, left));
    }
    sheet.includes += 1;
    let path = sheet.keep_path(
        origin.folder,
        before(quoted, length.saturating_sub(1)),
        left,
    )?;
    let name = sheet.bytes.get(path.start..path.end).unwrap_or(&[]);
    let folder = folder_length(name);
    let included = read_file(alloc, files, name, WHOLE, left)?;
    let inner = Origin {
        folder: Piece {
            start: path.start,
            end: path.start.saturating_add(folder),
        },
        left: Some(left),
        levels: origin.levels - 1,
    };
    lex_text(alloc, files, sheet, inner, &included)?;
    Ok(quote.saturating_add(1).saturating_add(length))
}

#[cycle(lexing)]
fn lex_text<F: Files, A: Allocator + Copy>(
    alloc: A,
    files: &mut F,
    sheet: &mut Sheet<A>,
    origin: Origin,
    text: &[u8],
) -> Result<(), FileStop>
    ensures opens { OpensFiles F.Opened.steady F.map result files }
{
    let ends = Ends::of(text);
    let mut place = 0usize;
    // where the bytes of labels end that are around the place
    let mut run = 0usize;
    for _ in 0..text.len() {
        let rest = after(text, place);
        if rest.is_empty() {
            return Ok(());
        }
        let left = origin.left.unwrap_or(rest.len());
        let begins_line = place == 0 || byte_at(text, place.saturating_sub(1)) == b'\n';
        if place >= run {
            run = place.saturating_add(run_length(rest));
        }
        let length = match gap_length(rest, begins_line, ends) {
            Some(length) => length,
            None if rest.starts_with(INCLUDE) => include(alloc, files, sheet, origin, rest, left)?,
            None => add_word(sheet, origin.folder, rest, run.saturating_sub(place), left)?,
        };
        place = place.saturating_add(length);
    }
    Ok(())
}

pub(crate) fn lex<F: Files, A: Allocator + Copy>(
    alloc: A,
    files: &mut F,
    text: &[u8],
) -> Result<Sheet<A>, FileStop>
    ensures opens { OpensFiles F.Opened.steady F.map result files }
{
    let mut sheet = Sheet::new(alloc);
    sheet.keep(PREFIX, text.len())?;
    let origin = Origin {
        folder: NOTHING,
        left: None,
        levels: MOST_LEVELS,
    };
    lex_text(alloc, files, &mut sheet, origin, text)?;
    Ok(sheet)
}
