//! A file that was begun.

ghost use Rattle.std.specs.Prelude.{◌≡◌, ◌++◌, IfOk, codes, decimal, string_bytes};

use std::alloc::{AllocError, Global};

/// A file that was begun: the name that it gets, and its paths: while it is written, of what it
/// replaces then, and with its name.
#[derive(Drop)]
pub(crate) struct StagedFile {
    pub(crate) name: String,
    pub(crate) new: String,
    pub(crate) old: String,
    pub(crate) whole: String,
}

/// The paths are those in the temporary folder, and the one that the file gets.
pub(crate) fn staged_in(
    alloc: Global,
    made: &str,
    number: usize,
    name: String,
    whole: String,
) -> Result<StagedFile, AllocError>
    ensures new { IfOk result (λ it. string_bytes it.new
        ≡ made.now ++ codes "/new-" ++ decimal number) }
    ensures old { IfOk result (λ it. string_bytes it.old
        ≡ made.now ++ codes "/old-" ++ decimal number) }
    ensures same { IfOk result (λ it. it.name ≡ name × it.whole ≡ whole) }
{
    Ok(StagedFile {
        name,
        new: format!(in alloc; "{made}/new-{number}")?,
        old: format!(in alloc; "{made}/old-{number}")?,
        whole,
    })
}
