//! Images that are made from sources.
use std::alloc::{AllocError, Global};
use uimg_base::{Files, MemFiles, Out};
use uimg_blob_writing::Tree;
use uimg_fit::{Fault, Placement, build, build_by, fill};
use uimg_its::compile;

/// Returns the placement of a word: `inside`, `after`, or a position.
pub(super) fn placement(word: &str) -> Placement {
    match word {
        "inside" => Placement::Inside,
        "after" => Placement::After,
        _ => Placement::At(word.parse().unwrap_or(0)),
    }
}

pub(super) fn told(
    alloc: Global,
    answer: Result<(), Fault>,
    written: usize,
) -> Result<String, AllocError> {
    match answer {
        Ok(()) => format!(in alloc; "done, {written}"),
        Err(fault) => format!(in alloc; "{fault}, {written}"),
    }
}

/// Compiles a source over some files and fills its tree over others.
pub(super) fn filled<F: Files>(
    alloc: Global,
    text: &str,
    time: u32,
    named: &[(&[u8], &[u8])],
    files: &mut F,
) -> Result<Tree<Global>, Fault> {
    match compile(alloc, text.as_bytes(), &mut MemFiles::new(named)) {
        Ok(tree) => fill(alloc, tree, time, files).map_err(Fault::Fit),
        Err(_) => Err(Fault::Put),
    }
}

/// Builds a tree at the placement of a word, which may have an alignment, as `after by 8`. Returns
/// the result and what was written.
pub(super) fn built<F: Files>(
    alloc: Global,
    tree: &Tree<Global>,
    word: &str,
    files: &mut F,
) -> (Result<(), Fault>, Vec<u8>) {
    let mut out = Out::new(Vec::new(alloc));
    let answer = match word.split_once(" by ") {
        None => build(alloc, tree, files, placement(word), &mut out),
        Some((word, align)) => {
            let placement = placement(word).aligned_by(align.parse().unwrap_or(0));
            build_by(alloc, tree, files, placement, &mut out)
        }
    };
    (answer, out.into_inner())
}
