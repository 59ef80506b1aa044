//! Bytes that rows have as text.
use std::alloc::{AllocError, Global};

fn digit(byte: u8) -> Option<u8> {
    match byte {
        b'0'..=b'9' => Some(byte - b'0'),
        b'a'..=b'f' => Some(byte - b'a' + 10),
        _ => None,
    }
}

/// Returns the bytes of pairs of hexadecimal digits; other characters are skipped.
pub(super) fn unhex(alloc: Global, text: &str) -> Result<Vec<u8>, AllocError> {
    let mut bytes = Vec::new(alloc);
    let mut high = None;
    for byte in text.bytes() {
        if let Some(low) = digit(byte) {
            match high {
                None => high = Some(low),
                Some(first) => {
                    bytes.push((first << 4) | low)?;
                    high = None;
                }
            }
        }
    }
    Ok(bytes)
}

/// Returns the bytes of a text in which `;` is a NUL, and `~` 255 letters `n`.
pub(super) fn plain(alloc: Global, text: &str) -> Result<Vec<u8>, AllocError> {
    let mut bytes = Vec::new(alloc);
    for byte in text.bytes() {
        let one = [byte];
        let part: &[u8] = match byte {
            b';' => b"\0",
            b'~' => &[b'n'; 255],
            _ => &one,
        };
        bytes.extend_from_slice(part)?;
    }
    Ok(bytes)
}
