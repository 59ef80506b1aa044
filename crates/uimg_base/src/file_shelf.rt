//! A shelf in a file on disk, created at the first write.

ghost use Rattle.std.specs.Prelude.{◌≡◌, [], ◌∷◌, None, false, IfOk, IfSome, IsSome, OnOk};
ghost use Rattle.std.specs.Io.{WritesAtMost};
ghost use Rattle.std.specs.Io.Buffered.{writer_buffer, writer_contents};
ghost use Rattle.std.specs.Io.KnownBytes.{Keeps, WriteAppends};
ghost use Rattle.uimg_base.specs.{Device.IsFresh, Shelves.{shelf_contents, BeginsFirst, created_paths}};

use crate::file_source::FileSource;
use crate::opened_names::OpenedNames;
use crate::shelves::Shelf;
use crate::source::{Source, SourceFault};
use std::alloc::Global;
use std::io::{BufWriter, Write};
use std::rt::Files;
use std::{fs, io};

/// A shelf in a file. Writes go to the file byte for byte. Small ones are buffered in pieces of
/// 8192 bytes, and `flush` writes the last piece. No contract says that a disk keeps what was
/// written, so the shelf is not claimed to be honest.
///
/// The first write, even of no bytes, creates the file or empties an existing one. It fails if the
/// file cannot be created or memory for the buffer is refused. Until then the path is not touched.
#[derive(Drop)]
pub struct FileShelf<'a, R: Files + AllocGlobal> {
    rt: &'a R,
    path: &'a str,
    file: Option<BufWriter<R::File, Global>>,
    // The paths at which a file was to be created, for clauses.
    created: OpenedNames,
}

impl<'a, R: Files + AllocGlobal> FileShelf<'a, R> {
    /// Creates a shelf for this path. Touches no file yet.
    pub fn new(rt: &'a R, path: &'a str) -> FileShelf<'a, R>
        ensures path { result.path ≡ path.entry }
        ensures file { result.file ≡ None }
        ensures created { result.created.names ≡ [] }
    {
        FileShelf {
            rt,
            path,
            file: None,
            created: OpenedNames::new(),
        }
    }

    // Writes the buffered bytes, closes the file and reopens it at the shelf's path.
    fn reopen(self) -> Result<FileSource<R::File>, SourceFault>
        ensures fresh { IfOk result (λ kept.
            IsFresh (⟦<FileSource<R::File> as Source>⟧.device kept)) }
        ensures path { IfOk result (λ kept. kept.paths.names ≡ self.entry.path.now ∷ []) }
    {
        let FileShelf { rt, path, file, .. } = self;
        let Some(mut file) = file else {
            return Err(SourceFault);
        };
        if file.flush().is_err() {
            return Err(SourceFault);
        }
        drop(file);
        FileSource::open(rt, path)
    }
}

impl<'a, R: Files + AllocGlobal> Write for FileShelf<'a, R> {
    ghost contents = { λ s. shelf_contents (writer_contents R.File.contents) s.file };

    /// The first write creates the file.
    fn write(&mut self, buf: &[u8]) -> io::Result<usize>
        ensures bound { WritesAtMost result buf.now }
        ensures bytes { WriteAppends
            (shelf_contents (writer_contents R.File.contents) self.old.file)
            (shelf_contents (writer_contents R.File.contents) self.new.file) result buf.now }
        ensures made { OnOk result (IsSome self.new.file) }
        ensures first { BeginsFirst (writer_contents R.File.contents) self.old.file result
            (shelf_contents (writer_contents R.File.contents) self.new.file) buf.now }
        ensures path { self.new.path ≡ self.old.path }
        ensures created { self.new.created.names
            ≡ created_paths self.old.path.now self.old.file self.old.created.names }
    {
        let mut file = match self.file.take() {
            Some(file) => file,
            None => BufWriter::new(
                self.rt.alloc(),
                create(self.rt, self.path, &mut self.created)?,
            )?,
        };
        let count = file.write(buf);
        self.file = Some(file);
        count
    }

    fn flush(&mut self) -> io::Result<()>
        ensures bytes { Keeps (shelf_contents (writer_contents R.File.contents) self.old.file)
            (shelf_contents (writer_contents R.File.contents) self.new.file) }
        ensures written { OnOk result (IfSome self.new.file (λ file. writer_buffer file ≡ [])) }
    {
        match &mut self.file {
            Some(file) => file.flush(),
            None => Ok(()),
        }
    }
}

impl<'a, R: Files + AllocGlobal> Shelf for FileShelf<'a, R> {
    type Kept = FileSource<R::File>;

    ghost honest = { false };

    /// Writes the buffered bytes, closes the file and reopens it as a source.
    ///
    /// Returns `SourceFault` if nothing was written (then there is no file), if the last piece
    /// cannot be written, or as `FileSource::open` does.
    fn keep(self) -> Result<FileSource<R::File>, SourceFault> {
        self.reopen()
    }
}

// Creates the file at a path, or empties it, and notes the path.
fn create<R: Files>(rt: &R, path: &str, created: &mut OpenedNames) -> io::Result<R::File>
    ensures { created.new.names ≡ path.now ∷ created.old.names }
{
    created.note(path.as_bytes());
    fs::create(rt, path)
}
