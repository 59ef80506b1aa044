//! A file on a disk as a source.

ghost use Rattle.std.specs.Prelude.{◌≡◌, [], ◌∷◌, IfOk};
ghost use Rattle.uimg_base.specs.Device.{IsFresh};

use crate::seek_read::DiskFile;
use crate::seek_source::SeekSource;
use crate::source::{Source, SourceFault};
use std::fs;
use std::fs::OpenFile;
use std::io::{Read, Seek};
use std::rt::Files;

/// A file as a source.
///
/// The length is that found at opening. It reads ahead as any `SeekSource` does. No contract says
/// which bytes a disk returns, so the source is not claimed to be honest: that it returns the bytes
/// of one unchanging file is the user's premise. Contracts see zeros in place of its bytes.
pub type FileSource<F> = SeekSource<DiskFile<F>>;

impl<F: Read + Seek + OpenFile + Drop> SeekSource<DiskFile<F>> {
    /// Opens the file at a path as a source, with no byte requested and no failed read.
    ///
    /// Returns `SourceFault` if the file cannot be opened, is a folder, or has no known length (a
    /// pipe).
    pub fn open<R: Files<File = F> + AllocGlobal>(
        rt: &R,
        path: &str,
    ) -> Result<SeekSource<DiskFile<F>>, SourceFault>
        ensures fresh { IfOk result (λ s. IsFresh (⟦<SeekSource<DiskFile<F>> as Source>⟧.device s)) }
        ensures path { IfOk result (λ s. s.paths.names ≡ path.now ∷ []) }
    {
        let Ok(file) = fs::open(rt, path) else {
            return Err(SourceFault);
        };
        match file.metadata() {
            Ok(metadata) if !metadata.is_dir() => {}
            _ => return Err(SourceFault),
        }
        let mut source = SeekSource::new(rt.alloc(), DiskFile { file })?;
        source.paths.note(path.as_bytes());
        Ok(source)
    }
}
