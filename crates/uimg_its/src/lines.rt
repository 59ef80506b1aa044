//! Line numbers of a text.

/// Returns the line, from 1, of the byte at which `left` bytes remain. If none remain, returns the
/// last line; a newline at the end belongs to it.
pub(crate) fn line_of(text: &[u8], left: usize) -> u64 {
    let mut line = 1u64;
    let before = text.len().saturating_sub(usize::max(left, 1));
    for b in &text[..before] {
        if *b == b'\n' {
            line = line.saturating_add(1);
        }
    }
    line
}
