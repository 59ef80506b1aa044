//! Strings and character literals: their lengths, and their bytes without escapes.

use crate::bytes::{after, before, byte_at, hex_length, is_blank};

/// Returns the length of a string after its opening quote, the closing quote included. Returns
/// `None` if none begins: no quote closes it, or a backslash is before a newline.
pub(crate) fn string_length(text: &[u8]) -> Option<usize> {
    let mut escaped = false;
    for (i, b) in text.iter().enumerate() {
        match *b {
            b'\n' if escaped => return None,
            _ if escaped => escaped = false,
            b'"' => return Some(i + 1),
            b => escaped = b == b'\\',
        }
    }
    None
}

/// Returns the length of a character literal after its opening quote, the closing quote included.
/// A quote after a backslash ends it only if none does that has no backslash before it, and there
/// is no such quote after it.
pub(crate) fn character_length(text: &[u8]) -> Option<usize> {
    let mut found = None;
    let mut last = 0;
    for (i, b) in text.iter().enumerate() {
        if *b == b'\'' {
            found = Some(i + 1);
            if last != b'\\' {
                return found;
            }
        }
        last = *b;
    }
    found
}

// Returns how many octal digits a text begins with, at most three.
fn octal_length(text: &[u8]) -> usize {
    before(text, 3)
        .iter()
        .take_while(|b| matches!(**b, b'0'..=b'7'))
        .count()
}

// Returns the low eight bits of the number with these digits, all below the base.
fn low_byte(base: u32, digits: &[u8]) -> u8 {
    let mut value = 0u32;
    for b in digits {
        let digit = char::from(*b).to_digit(16).unwrap_or(0);
        value = value.wrapping_mul(base).wrapping_add(digit);
    }
    (value & 0xff) as u8
}

// Decodes an escape after `\x`: one or two hexadecimal digits, or one after a blank or a sign, as the
// C library reads numbers. Returns its byte, and its length with the letter.
fn hex_escape(text: &[u8]) -> Option<(u8, usize)> {
    let pair = before(text, 2);
    let n = hex_length(pair);
    if n > 0 {
        return Some((low_byte(16, before(pair, n)), n.saturating_add(1)));
    }
    let digit = low_byte(16, after(pair, 1));
    match byte_at(pair, 0) {
        _ if hex_length(after(pair, 1)) == 0 => None,
        b'-' => Some((digit.wrapping_neg(), 3)),
        b if b == b'+' || is_blank(b) => Some((digit, 3)),
        _ => None,
    }
}

// Decodes an escape after its backslash. Returns `None` if `\x` has no digits.
fn escape(text: &[u8]) -> Option<(u8, usize)> {
    let c = byte_at(text, 0);
    let plain = match c {
        b'a' => 7,
        b'b' => 8,
        b't' => b'\t',
        b'n' => b'\n',
        b'v' => 11,
        b'f' => 12,
        b'r' => b'\r',
        b'0'..=b'7' => {
            let n = octal_length(text);
            return Some((low_byte(8, before(text, n)), n));
        }
        b'x' => return hex_escape(after(text, 1)),
        _ => c,
    };
    Some((plain, 1))
}

/// Decodes the next byte of a string or a character literal, which is not empty. Returns it and its
/// length, or `None` if an escape has no digits.
pub(crate) fn next_byte(text: &[u8]) -> Option<(u8, usize)> {
    let b = byte_at(text, 0);
    if b != b'\\' {
        return Some((b, 1));
    }
    let (decoded, more) = escape(after(text, 1))?;
    Some((decoded, more.saturating_add(1)))
}
