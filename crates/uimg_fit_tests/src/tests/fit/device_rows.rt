//! Results and output if files, the output or memory fail.
use super::super::answers::is_said;
use super::making::{built, filled, placement, told};
use crate::sources::FOUR_HASH;
use linked_list_allocator::LocalHeap;
use std::alloc::{AllocError, Global};
use std::test::Fail;
use uimg_base::{Files, FuseFiles, FuseWriter, MemFiles, Out};
use uimg_blob_writing::Tree;
use uimg_fit::{Fault, FitFault, build, fill};
use uimg_its::compile;

const ABC: [(&[u8], &[u8]); 1] = [(b"abc.bin", b"abc")];

// Builds the tree of four-hash-fit over files with a fuse. Returns the result and the number of
// bytes, or nothing if these are not a prefix of the whole.
fn fused<F: Files + Drop>(
    alloc: Global,
    tree: &Tree<Global>,
    word: &str,
    files: F,
    from: u64,
    calls: u64,
) -> Result<String, AllocError> {
    let (_, whole) = built(alloc, tree, word, &mut MemFiles::new(&ABC));
    let (answer, fit) = built(
        alloc,
        tree,
        word,
        &mut FuseFiles::new(files, from, 0, calls),
    );
    if whole.starts_with(&fit) {
        told(alloc, answer, fit.len())
    } else {
        format!(in alloc; "no prefix")
    }
}

// A placement, the content of the payload's file, the first refused open, how many calls the file
// lets through, and the result. A file that is missing or has another size, and a failed read,
// leave a prefix of the image.
const ROWS: [(&str, &str, u64, u64, &str); 13] = [
    ("inside", "abc", 0, 9, "F9 no file, 168"),
    ("after", "abc", 0, 9, "F9 no file, 796"),
    ("1024", "abc", 0, 9, "F9 no file, 1024"),
    ("inside", "abcd", 1, 9, "read failed, 168"),
    ("after", "abcd", 1, 9, "read failed, 796"),
    ("1024", "abcd", 1, 9, "read failed, 1024"),
    ("after", "abc", 1, 0, "read failed, 796"),
    ("after", "abc", 1, 1, "read failed, 796"),
    ("after", "abc", 1, 2, "done, 800"),
    ("inside", "abc", 1, 0, "read failed, 168"),
    ("inside", "abc", 1, 1, "read failed, 168"),
    ("inside", "abc", 1, 2, "done, 760"),
    ("1024", "abc", 1, 2, "done, 1028"),
];

#[test]
fn file_rows(rt: HostRuntime) -> Result<(), Fail> {
    let alloc = rt.alloc();
    let tree = filled(alloc, FOUR_HASH, 0, &ABC, &mut MemFiles::new(&ABC))?;
    for (number, row) in ROWS.iter().enumerate() {
        let (word, content, from, calls, wanted) = *row;
        let named: [(&[u8], &[u8]); 1] = [(b"abc.bin", content.as_bytes())];
        let found = fused(alloc, &tree, word, MemFiles::new(&named), from, calls);
        is_said(&rt, found, wanted, word, number as u64);
    }
    Ok(())
}

fn leaves_prefix(alloc: Global, tree: &Tree<Global>, whole: &[u8], taken: usize) -> bool {
    let mut files = MemFiles::new(&ABC);
    let mut out = Out::new(FuseWriter::new(Vec::new(alloc), taken as u64));
    let answer = build(alloc, tree, &mut files, placement("1024"), &mut out);
    let written = out.into_inner().into_inner();
    answer == Err(Fault::Put) && written.len() == taken && whole.starts_with(&written)
}

// Returns the first length at which a writer does not leave that prefix, up to the whole image.
fn first_wrong(alloc: Global, tree: &Tree<Global>, whole: &[u8]) -> Option<usize> {
    for taken in 0..whole.len() {
        if !leaves_prefix(alloc, tree, whole, taken) {
            return Some(taken);
        }
    }
    None
}

#[test]
fn each_write_failing(rt: HostRuntime) -> Result<(), Fail> {
    let alloc = rt.alloc();
    let tree = filled(alloc, FOUR_HASH, 0, &ABC, &mut MemFiles::new(&ABC))?;
    let (_, whole) = built(alloc, &tree, "1024", &mut MemFiles::new(&ABC));
    assert!(rt; first_wrong(alloc, &tree, &whole).is_none());
    Ok(())
}

// Returns how far four-hash-fit gets with a heap of this size: 0 not compiled, 1 no memory to fill,
// 2 no memory to build and nothing written, 3 built, 9 anything else.
fn comes_to(alloc: Global, bytes: usize, word: &str) -> Result<u8, Fail> {
    let heap = LocalHeap::new(alloc, bytes)?;
    let Ok(tree) = compile(&heap, FOUR_HASH.as_bytes(), &mut MemFiles::new(&ABC)) else {
        return Ok(0);
    };
    let tree = match fill(&heap, tree, 0, &mut MemFiles::new(&ABC)) {
        Ok(tree) => tree,
        Err(FitFault::OutOfMemory) => return Ok(1),
        Err(_) => return Ok(9),
    };
    let mut out = Out::new(Vec::new(alloc));
    let answer = build(
        &heap,
        &tree,
        &mut MemFiles::new(&ABC),
        placement(word),
        &mut out,
    );
    match answer {
        Ok(()) => Ok(3),
        Err(Fault::Fit(FitFault::OutOfMemory)) if out.into_inner().is_empty() => Ok(2),
        Err(_) => Ok(9),
    }
}

// From a tiny heap to an ample one, filling and building are refused at each growth, and never
// succeed with less memory than was refused.
#[test]
fn each_growth_refused(rt: HostRuntime) -> Result<(), Fail> {
    let mut filling = false;
    let mut building = false;
    let mut whole = false;
    for step in 1..1024usize {
        let reached = comes_to(rt.alloc(), step * 16, "after")?;
        assert!(rt; reached <= 3, "{step} times 16 bytes");
        assert!(rt; !whole || reached == 3, "{step} times 16 bytes");
        filling |= reached == 1;
        building |= reached == 2;
        whole |= reached == 3;
    }
    assert!(rt; filling);
    assert!(rt; building);
    assert!(rt; whole);
    Ok(())
}
