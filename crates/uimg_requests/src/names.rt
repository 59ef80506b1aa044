//! The names of the files that an image is made from.

ghost use Rattle.std.specs.Prelude.{◌≡◌, map, IfOk};
ghost use Rattle.uimg_requests.specs.Names.{between_colons, part_names};

use std::alloc::{AllocError, Global};
use uimg_legacy::has_parts;

/// Returns the file names in the argument of -d, by the image type: those between its colons for a
/// type with parts, else the argument itself.
pub fn file_names(alloc: Global, kind: u8, word: &str) -> Result<Vec<Vec<u8>>, AllocError>
    ensures { IfOk result
        (λ names. map (λ name. name.items) names.items ≡ part_names kind word.now) }
{
    if has_parts(kind) {
        cut_at_colons(alloc, word)
    } else {
        let mut names = Vec::new(alloc);
        names.push(Vec::from_slice(alloc, word.as_bytes())?)?;
        Ok(names)
    }
}

fn cut_at_colons(alloc: Global, word: &str) -> Result<Vec<Vec<u8>>, AllocError>
    ensures { IfOk result (λ names. map (λ name. name.items) names.items ≡ between_colons word.now) }
{
    let mut names = Vec::new(alloc);
    for name in word.split(':') {
        names.push(Vec::from_slice(alloc, name.as_bytes())?)?;
    }
    Ok(names)
}
