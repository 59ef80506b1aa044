//! The known name that a mistaken one means.

use std::alloc::{AllocError, Global};
use strsim::levenshtein;
use uimg_texts::Field;

// What Debian, Linux and others call the architectures.
const ARCHITECTURES: [(&str, &str); 8] = [
    ("aarch64", "arm64"),
    ("amd64", "x86_64"),
    ("armhf", "arm"),
    ("i386", "x86"),
    ("i686", "x86"),
    ("ppc64le", "powerpc"),
    ("riscv64", "riscv"),
    ("x64", "x86_64"),
];

const SYSTEMS: [(&str, &str); 1] = [("uboot", "u-boot")];

const COMPRESSIONS: [(&str, &str); 1] = [("gz", "gzip")];

/// Returns the short name of a field that a word means: of a well-known other name that of image.h,
/// of another word the one with the fewest edits, at most two.
pub(crate) fn meant(
    alloc: Global,
    field: Field,
    word: &str,
) -> Result<Option<&'static str>, AllocError> {
    match meant_by(field, word) {
        Some(name) => Ok(Some(name)),
        None => nearest(alloc, field, word),
    }
}

fn others(field: Field) -> &'static [(&'static str, &'static str)] {
    match field {
        Field::Architecture => ARCHITECTURES.as_slice(),
        Field::System => SYSTEMS.as_slice(),
        Field::Kind => &[],
        Field::Compression => COMPRESSIONS.as_slice(),
    }
}

fn meant_by(field: Field, word: &str) -> Option<&'static str> {
    for (other, name) in others(field) {
        if other.eq_ignore_ascii_case(word) {
            return Some(*name);
        }
    }
    None
}

fn nearest(alloc: Global, field: Field, word: &str) -> Result<Option<&'static str>, AllocError> {
    let mut fewest = 3;
    let mut found = None;
    for (name, _, _, _) in field.rows() {
        let edits = levenshtein(alloc, word, name)?;
        if edits < fewest {
            fewest = edits;
            found = Some(*name);
        }
    }
    Ok(found)
}
