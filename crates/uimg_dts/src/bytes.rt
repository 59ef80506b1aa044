//! The classes of bytes, and the lengths of what a text begins with.

/// Returns the text after its first n bytes, or nothing if it has fewer.
pub(crate) fn after(text: &[u8], n: usize) -> &[u8] {
    text.get(n..).unwrap_or(&[])
}

/// Returns the first n bytes of a text, or all if it has fewer.
pub(crate) fn before(text: &[u8], n: usize) -> &[u8] {
    text.get(..n).unwrap_or(text)
}

pub(crate) fn is_blank(b: u8) -> bool {
    matches!(b, b' ' | 9..=13)
}

pub(crate) fn is_name_byte(b: u8) -> bool {
    b.is_ascii_alphabetic()
        || b.is_ascii_digit()
        || matches!(
            b,
            b',' | b'.' | b'_' | b'+' | b'*' | b'#' | b'?' | b'@' | b'-'
        )
}

fn is_path_byte(b: u8) -> bool {
    is_name_byte(b) || b == b'/'
}

fn is_label_byte(b: u8) -> bool {
    b.is_ascii_alphabetic() || b.is_ascii_digit() || b == b'_'
}

pub(crate) fn name_length(text: &[u8]) -> usize {
    text.iter().take_while(|b| is_name_byte(**b)).count()
}

pub(crate) fn path_length(text: &[u8]) -> usize {
    text.iter().take_while(|b| is_path_byte(**b)).count()
}

/// Counts the bytes of a label that is not told from a number: a digit begins none.
pub(crate) fn run_length(text: &[u8]) -> usize {
    text.iter().take_while(|b| is_label_byte(**b)).count()
}

pub(crate) fn label_length(text: &[u8]) -> usize {
    if byte_at(text, 0).is_ascii_digit() {
        0
    } else {
        run_length(text)
    }
}

pub(crate) fn digits_length(text: &[u8]) -> usize {
    text.iter().take_while(|b| b.is_ascii_digit()).count()
}

pub(crate) fn hex_length(text: &[u8]) -> usize {
    text.iter().take_while(|b| b.is_ascii_hexdigit()).count()
}

pub(crate) fn blanks_length(text: &[u8]) -> usize {
    text.iter().take_while(|b| is_blank(**b)).count()
}

pub(crate) fn spaces_length(text: &[u8]) -> usize {
    text.iter()
        .take_while(|b| matches!(**b, b' ' | b'\t'))
        .count()
}

/// Returns the byte at a place, or zero if there is none.
pub(crate) fn byte_at(text: &[u8], place: usize) -> u8 {
    match text.get(place) {
        Some(b) => *b,
        None => 0,
    }
}
