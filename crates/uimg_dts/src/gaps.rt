//! What is between words: blanks, comments, and the lines of a preprocessor.

use crate::bytes::{after, before, blanks_length, byte_at, digits_length, is_blank, spaces_length};
use crate::quoted::{next_byte, string_length};

/// Where the last comment and the last line of a text end: how many bytes remain there, or
/// `usize::MAX` if none ends.
#[derive(Clone, Copy)]
pub(crate) struct Ends {
    comment: usize,
    line: usize,
}

impl Ends {
    pub(crate) fn of(text: &[u8]) -> Ends {
        let mut ends = Ends {
            comment: usize::MAX,
            line: usize::MAX,
        };
        let mut last = 0;
        for (i, b) in text.iter().enumerate() {
            let remain = text.len().saturating_sub(i);
            match *b {
                b'/' if last == b'*' => ends.comment = remain,
                b'\n' => ends.line = remain,
                _ => {}
            }
            last = *b;
        }
        ends
    }
}

// Returns `None` if the comment does not end.
fn comment_length(text: &[u8]) -> Option<usize> {
    let mut last = 0;
    for (i, b) in after(text, 2).iter().enumerate() {
        if last == b'*' && *b == b'/' {
            return Some(i.saturating_add(3));
        }
        last = *b;
    }
    None
}

// Returns the length of a comment up to the end of its line, or `None` if the text ends before.
fn line_length(text: &[u8]) -> Option<usize> {
    let n = text.iter().take_while(|b| **b != b'\n').count();
    if n < text.len() {
        Some(n.saturating_add(1))
    } else {
        None
    }
}

// Returns whether a string, given after its opening quote and with its length, is a file's name.
fn is_file_name(text: &[u8], length: usize) -> bool {
    let mut place = 0;
    for _ in 0..length {
        if place >= length {
            return true;
        }
        match next_byte(after(text, place)) {
            Some((b, more)) if b != 0 => place = place.saturating_add(more),
            _ => return false,
        }
    }
    true
}

// Returns how many bytes of numbers, each after spaces, the text begins with.
fn flags_length(text: &[u8]) -> usize {
    let mut found = 0;
    for _ in 0..text.len() {
        let rest = after(text, found);
        let spaces = spaces_length(rest);
        let digits = digits_length(after(rest, spaces));
        if spaces == 0 || digits == 0 {
            return found;
        }
        found = found.saturating_add(spaces).saturating_add(digits);
    }
    found
}

// Returns the length of a preprocessor's line marker without its newline, as `# 1 "file" 2`, or
// `None` if the text begins with none.
fn marker_length(text: &[u8]) -> Option<usize> {
    let word = if text.starts_with(b"#line") { 5 } else { 1 };
    let spaces = spaces_length(after(text, word));
    let number = word.saturating_add(spaces);
    let digits = digits_length(after(text, number));
    let gap = number.saturating_add(digits);
    let more = spaces_length(after(text, gap));
    let quote = gap.saturating_add(more);
    if spaces == 0 || digits == 0 || more == 0 || byte_at(text, quote) != b'"' {
        return None;
    }
    let name = after(text, quote.saturating_add(1));
    let length = string_length(name)?;
    if !is_file_name(name, length.saturating_sub(1)) {
        return None;
    }
    let end = quote.saturating_add(1).saturating_add(length);
    Some(end.saturating_add(flags_length(after(text, end))))
}

/// Returns the length of what is between words at the start of a text. Returns `None` if a word
/// begins it, or nothing does.
pub(crate) fn gap_length(text: &[u8], begins_line: bool, ends: Ends) -> Option<usize> {
    if is_blank(byte_at(text, 0)) {
        return Some(blanks_length(text));
    }
    match before(text, 2) {
        b"/*" if ends.comment < text.len() => comment_length(text),
        b"//" if ends.line < text.len() => line_length(text),
        [b'#', ..] if begins_line => marker_length(text),
        _ => None,
    }
}
