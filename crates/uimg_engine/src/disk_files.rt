//! The files of a folder.

ghost use Rattle.std.specs.{Prelude.{◌≡◌, ◌||◌, [], Some, None, true, false, IfOk, IsErr}, Option.option_map};
ghost use Rattle.std.specs.Path.{path_buf_bytes, path_join};
ghost use Rattle.uimg_base.specs.Device.{IsFresh};

use crate::same_files::is_same_file;
use std::alloc::Allocator;
use std::path::{Path, PathBuf};
use std::rt;
use uimg_base::{FileSource, Files, OpenedNames, Source, SourceFault};

/// The files of a folder, opened by their paths.
///
/// A name that begins with `/` is a path of its own; any other name is a path in the folder. No
/// contract says what a file has, so the files are not claimed to be honest. One file may be left
/// out: one that is written while the others are read.
#[derive(Drop)]
pub struct DiskFiles<'a, R: rt::Files + AllocGlobal> {
    rt: &'a R,
    folder: &'a str,
    left_out: Option<&'a str>,
    has_met_left_out: bool,
    refusals: u64,
    opened: OpenedNames,
}

impl<'a, R: rt::Files + AllocGlobal> DiskFiles<'a, R> {
    /// Returns the files of a folder, none of them requested yet. An empty text is the current
    /// folder.
    pub fn new(rt: &'a R, folder: &'a str) -> DiskFiles<'a, R>
        ensures refusals { (⟦<DiskFiles<'a, R> as Files>⟧.map result).refusals ≡ 0 }
        ensures opened { (⟦<DiskFiles<'a, R> as Files>⟧.map result).opened ≡ [] }
        ensures folder { result.folder.now ≡ folder.entry.now }
        ensures left_out { result.left_out ≡ None }
        ensures unmet { result.has_met_left_out ≡ false }
    {
        DiskFiles {
            rt,
            folder,
            left_out: None,
            has_met_left_out: false,
            refusals: 0,
            opened: OpenedNames::new(),
        }
    }

    /// Returns the files of a folder without the file at a path, whose open is refused.
    pub fn without(rt: &'a R, folder: &'a str, path: &'a str) -> DiskFiles<'a, R>
        ensures refusals { (⟦<DiskFiles<'a, R> as Files>⟧.map result).refusals ≡ 0 }
        ensures opened { (⟦<DiskFiles<'a, R> as Files>⟧.map result).opened ≡ [] }
        ensures folder { result.folder.now ≡ folder.entry.now }
        ensures left_out { option_map (λ text. text.now) result.left_out ≡ Some path.entry.now }
        ensures unmet { result.has_met_left_out ≡ false }
    {
        DiskFiles {
            left_out: Some(path),
            ..DiskFiles::new(rt, folder)
        }
    }

    /// Returns whether the file that is left out was requested, and so refused.
    pub fn has_met_left_out(&self) -> bool
        ensures { result ≡ self.now.has_met_left_out }
    {
        self.has_met_left_out
    }
}

impl<'a, R: rt::Files + AllocGlobal> Files for DiskFiles<'a, R> {
    type Opened = FileSource<R::File>;

    ghost map = { λ s. record {
      bytes = λ _. None;
      honest = false;
      complete = false;
      refusals = s.refusals;
      opened = s.opened.names;
    } };

    /// Opens the file of this name.
    ///
    /// Returns `SourceFault` if the name is not UTF-8, memory for the path was refused, the file is
    /// left out, or `FileSource::open` does.
    fn open(&mut self, name: &[u8]) -> Result<FileSource<R::File>, SourceFault> {
        self.opened.note(name);
        let opened = match path_in(self.rt.alloc(), self.folder, name) {
            Ok(path) => {
                let is_left_out = is_left_out(self.rt, path.as_str(), self.left_out);
                open_other(
                    self.rt,
                    path.as_str(),
                    is_left_out,
                    &mut self.has_met_left_out,
                )
            }
            Err(fault) => Err(fault),
        };
        if opened.is_err() {
            self.refusals = self.refusals.saturating_add(1);
        }
        opened
    }
}

fn is_left_out<R: rt::Files>(rt: &R, path: &str, left_out: Option<&str>) -> bool
    ensures { left_out.entry ≡ None → result ≡ false }
{
    match left_out {
        Some(other) => is_same_file(rt, path, other),
        None => false,
    }
}

// Notes whether the file is left out.
fn open_other<R: rt::Files + AllocGlobal>(
    rt: &R,
    path: &str,
    is_left_out: bool,
    has_met_left_out: &mut bool,
) -> Result<FileSource<R::File>, SourceFault>
    ensures fresh { IfOk result
        (λ source. IsFresh (⟦<FileSource<R::File> as Source>⟧.device source)) }
    ensures refused { is_left_out ≡ true → IsErr result }
    ensures noted { has_met_left_out.new ≡ (is_left_out || has_met_left_out.old) }
{
    if is_left_out {
        *has_met_left_out = true;
        return Err(SourceFault);
    }
    FileSource::open(rt, path)
}

// Returns the path of a name in a folder: the name itself if it begins with `/`.
fn path_in<A: Allocator>(alloc: A, folder: &str, name: &[u8]) -> Result<PathBuf<A>, SourceFault>
    ensures { IfOk result (λ path. path_buf_bytes path ≡ path_join folder.now name.now) }
{
    let Ok(name) = str::from_utf8(name) else {
        return Err(SourceFault);
    };
    match Path::new(folder).join(alloc, name) {
        Ok(path) => Ok(path),
        Err(_) => Err(SourceFault),
    }
}
