//! Blobs that are written as words.
//!
//! `(name` begins a node and `)` ends it, `37=616263` is a property with its name's offset in the
//! strings block and its value, and `1000*` before a word repeats it.
use std::alloc::Global;
use uimg_blob_reading::samples::Sample;
use uimg_fit_tests::samples::finish;

/// Nodes without names, nested.
pub(super) const THOUSAND_DEEP: &str = "1000*( 1000*)";

/// Two images with the same three bytes after the blob.
pub(super) const SHARED_PAYLOAD: &str = "( (images \
(a 104=00000000 116=00000003 (hash 78=637263333200 83=352441c2 ) ) \
(b 104=00000000 116=00000003 (hash 78=637263333200 83=352441c2 ) ) ) )";

/// Properties without values that share one name of 255 bytes.
pub(super) const SHARED_NAMES: &str = "( 1000*0= )";

// The text is hexadecimal, of at most 16 bytes.
fn bytes_of(text: &str) -> ([u8; 16], usize) {
    let length = usize::min(text.len() / 2, 16);
    let number = u128::from_str_radix(text, 16).unwrap_or(0);
    let shift = 128 - 8 * length as u32;
    (number.unbounded_shl(shift).to_be_bytes(), length)
}

// Returns whether the word could be added.
fn adds(blob: &mut Sample<Global>, word: &str) -> bool {
    if word == ")" {
        return blob.end_node().is_ok();
    }
    if let Some(name) = word.strip_prefix('(') {
        return blob.begin(name.as_bytes()).is_ok();
    }
    let (name, value) = word.split_once('=').unwrap_or(("", ""));
    let (bytes, length) = bytes_of(value);
    match bytes.get(..length) {
        Some(value) => blob.prop(name.parse().unwrap_or(0), value).is_ok(),
        None => false,
    }
}

fn adds_all(blob: &mut Sample<Global>, words: &str) -> bool {
    for word in words.split(' ') {
        let (count, word) = word.split_once('*').unwrap_or(("1", word));
        for _ in 0..count.parse().unwrap_or(0u32) {
            if !adds(blob, word) {
                return false;
            }
        }
    }
    true
}

/// Returns the blob of the words, with a text after it.
pub(super) fn sample(alloc: Global, words: &str, behind: &str) -> Option<Vec<u8>> {
    let mut blob = Sample::new(alloc);
    if !adds_all(&mut blob, words) {
        return None;
    }
    let mut name = [b'p'; 256];
    name[255] = 0;
    let ended = if words == SHARED_NAMES {
        blob.finish(alloc, &name)
    } else {
        finish(blob, alloc)
    };
    let mut image = ended.ok()?;
    match image.extend_from_slice(behind.as_bytes()) {
        Ok(()) => Some(image),
        Err(_) => None,
    }
}
