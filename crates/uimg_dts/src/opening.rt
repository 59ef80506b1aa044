//! The files that a source names.

ghost use Rattle.std.specs.Prelude.{◌≡◌, IfOk, IsTrue, codes, false};
ghost use Rattle.uimg_blob_writing.specs.Properties.{content};
ghost use Rattle.uimg_dts.specs.Answers.{OpensFiles, is_no_file, is_unread};
ghost use Rattle.uimg_dts.specs.FileValues.{IsSoundIn};

use crate::fault::DtsKind;
use crate::stop::{FileStop, out_of_memory, refused, unread};
use std::alloc::Allocator;
use uimg_base::{Files, MoveFault, Out, Source, WINDOW, copy_through};
use uimg_blob_writing::{ByteList, Value};

/// A part of a file, clipped to the file.
#[derive(Clone, Copy)]
pub(crate) struct Range {
    pub(crate) offset: u64,
    pub(crate) length: u64,
}

/// All of a file.
pub(crate) const WHOLE: Range = Range {
    offset: 0,
    length: u64::MAX,
};

fn read_part<S: Source, A: Allocator>(
    alloc: A,
    source: &mut S,
    range: Range,
    left: usize,
) -> Result<Vec<u8, A>, FileStop>
    ensures no_file { is_no_file result ≡ false }
    ensures steady { IsTrue S.steady → is_unread result ≡ false }
{
    let Ok(size) = source.size() else {
        return Err(unread(DtsKind::ReadFailed, left));
    };
    let offset = u64::min(range.offset, size);
    let length = u64::min(range.length, size - offset);
    let mut window = [0; WINDOW];
    let mut out = Out::new(Vec::new(alloc));
    match copy_through(source, &mut window, offset, length, &mut out) {
        Ok(()) => Ok(out.into_inner()),
        Err(MoveFault::Read) => Err(unread(DtsKind::ReadFailed, left)),
        Err(MoveFault::Put) => refused(out_of_memory(left)),
    }
}

/// Not inlined, to keep its window and its source out of the frames of recursive functions.
#[inline(never)]
pub(crate) fn read_file<F: Files, A: Allocator>(
    alloc: A,
    files: &mut F,
    name: &[u8],
    range: Range,
    left: usize,
) -> Result<Vec<u8, A>, FileStop>
    ensures opens { OpensFiles F.Opened.steady F.map result files }
{
    match files.open(name) {
        Ok(mut source) => read_part(alloc, &mut source, range, left),
        Err(_) => Err(unread(DtsKind::NoFile, left)),
    }
}

/// Requests none of the file's bytes.
#[inline(never)]
pub(crate) fn size_of<F: Files>(files: &mut F, name: &[u8], left: usize) -> Result<u64, FileStop>
    ensures opens { OpensFiles F.Opened.steady F.map result files }
{
    let Ok(mut source) = files.open(name) else {
        return Err(unread(DtsKind::NoFile, left));
    };
    match source.size() {
        Ok(size) => Ok(size),
        Err(_) => Err(unread(DtsKind::ReadFailed, left)),
    }
}

/// Returns the value of a property named `data` that is one file: its name and its size. Requests
/// none of its bytes.
#[inline(never)]
pub(crate) fn kept<F: Files, A: Allocator>(
    files: &mut F,
    name: Vec<u8, A>,
    left: usize,
) -> Result<Value<A>, FileStop>
    ensures opens { OpensFiles F.Opened.steady F.map result files }
    ensures sound { IfOk result (λ v. IsSoundIn (F.map files.old) (codes "data") (content v)) }
{
    let Ok(mut source) = files.open(&name) else {
        return Err(unread(DtsKind::NoFile, left));
    };
    match source.size() {
        Ok(size) => Ok(Value::File {
            name: ByteList::of(name),
            size,
        }),
        Err(_) => Err(unread(DtsKind::ReadFailed, left)),
    }
}
