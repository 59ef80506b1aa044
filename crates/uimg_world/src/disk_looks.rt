//! What the operating system returns for a path, and how it is opened.

ghost use Rattle.std.specs.Prelude.{◌≡◌, IfErr, IfOk, OnOk, Some, pos};
ghost use Rattle.std.specs.IoError.{raw_os_error};
ghost use Rattle.uimg_base.specs.Device.{IsFresh};
ghost use Rattle.uimg_world.specs.Deeds.{IsKindOf};

use crate::kind::{Kind, Target};
use crate::opened_file::{OpenedSource, source_of};
use std::fs::OpenFile;
use std::io::Read;
use std::os::unix::fs::FileTypeExt;
use std::rt::Files;
use std::{fs, io};
use uimg_base::{Source, SourceFault};

/// The error of a path that leads to a folder (`EISDIR`).
const IS_A_FOLDER: i32 = 21;

/// How many bytes of names are read at once. The system refuses a read that has no place for a whole
/// name, which has at most 255 bytes.
const SOME_NAMES: usize = 8192;

/// The error of a file system that cannot wait for a folder (`EINVAL`).
const INVALID: i32 = 22;

/// Does not open a pipe, which would wait for a writer. A folder is no source.
pub(crate) fn open_source<R: Files + AllocGlobal>(
    rt: &R,
    path: &str,
) -> Result<OpenedSource<R::File>, SourceFault>
    ensures { IfOk result (λ source. IsFresh (⟦<OpenedSource<R::File> as Source>⟧.device source)) }
{
    if matches!(target_at(rt, path), Target::Pipe) {
        return Err(SourceFault);
    }
    let Ok(file) = fs::open(rt, path) else {
        return Err(SourceFault);
    };
    match file.metadata() {
        Ok(found) if !found.is_dir() => source_of(rt.alloc(), file),
        _ => Err(SourceFault),
    }
}

/// Returns the reason only if another look at the file shows it. Only a regular file is opened for
/// that.
pub(crate) fn reason_at<R: Files>(rt: &R, path: &str) -> Option<io::Error> {
    match fs::metadata(rt, path) {
        Ok(found) if found.is_file() => fs::open(rt, path).err(),
        Ok(found) if found.is_dir() => Some(io::Error::from_raw_os_error(IS_A_FOLDER)),
        Ok(found) if found.file_type().is_fifo() => Some(io::Error::other("it is a pipe")),
        Ok(_) => Some(io::Error::other("it is not a regular file")),
        Err(reason) => Some(reason),
    }
}

pub(crate) fn target_at<R: Files>(rt: &R, path: &str) -> Target {
    match fs::metadata(rt, path) {
        Ok(found) if found.is_file() => Target::File,
        Ok(found) if found.file_type().is_fifo() => Target::Pipe,
        Ok(_) => Target::Other,
        Err(_) => Target::Nothing,
    }
}

pub(crate) fn kind_of(found: &io::Result<fs::Metadata>) -> Kind
    ensures { IsKindOf found.now result }
{
    match found {
        Ok(found) if found.is_dir() => Kind::Folder,
        Ok(found) if found.file_type().is_symlink() => Kind::Link,
        Ok(_) => Kind::File,
        Err(_) => Kind::Nothing,
    }
}

/// Returns the names in a folder, each with a NUL after it.
pub(crate) fn names_at<R: Files + AllocGlobal>(rt: &R, path: &str) -> io::Result<Vec<u8>> {
    let mut folder = rt.open_dir(path)?;
    let mut names = Vec::new(rt.alloc());
    let mut some = [0; SOME_NAMES];
    for _ in 0..u64::MAX {
        let count = folder.read(&mut some)?;
        if count == 0 {
            break;
        }
        names.extend_from_slice(&some[..count])?;
    }
    Ok(names)
}

/// Waits until the names in a folder are on the disk, if its file system can wait for a folder.
pub(crate) fn sync_folder<R: Files>(rt: &R, path: &str) -> io::Result<()> {
    let folder = fs::open(rt, path)?;
    unless_unable(OpenFile::sync_all(&folder))
}

// Returns the answer of a wait. A file system that cannot wait counts as done.
fn unless_unable(synced: io::Result<()>) -> io::Result<()>
    ensures { IfErr synced (λ error. OnOk result (raw_os_error error ≡ Some (pos 22))) }
{
    match synced {
        Ok(()) => Ok(()),
        Err(error) if error.raw_os_error() == Some(INVALID) => Ok(()),
        Err(error) => Err(error),
    }
}
