//! A shelf in a file that was created for it.

ghost use Rattle.std.specs.Prelude.{◌≡◌, [], false, IfOk, OnOk, string_bytes};
ghost use Rattle.std.specs.Io.{WritesAtMost};
ghost use Rattle.std.specs.Io.Buffered.{writer_buffer, writer_contents};
ghost use Rattle.std.specs.Io.KnownBytes.{Keeps, WriteAppends};
ghost use Rattle.uimg_base.specs.Named.{Opens};

use crate::making_world::Reader;
use std::alloc::{AllocError, Global};
use std::io;
use std::io::{BufWriter, Write};
use uimg_base::{Shelf, Source, SourceFault};

/// A shelf in a new file, which is open already: nothing that gets its path meanwhile is written
/// to. A reader reopens it. It is like a `FileShelf` otherwise.
#[derive(Drop)]
pub struct NewShelf<R: Reader, F: Write + Drop> {
    reader: R,
    path: String,
    file: BufWriter<F, Global>,
}

impl<R: Reader, F: Write + Drop> NewShelf<R, F> {
    /// Fails if memory for the path or the buffer is refused.
    pub(crate) fn new(
        alloc: Global,
        reader: R,
        path: &str,
        file: F,
    ) -> Result<NewShelf<R, F>, AllocError>
        ensures { IfOk result (λ shelf. string_bytes shelf.path ≡ path.now) }
    {
        let path = String::from_str(alloc, path)?;
        match BufWriter::new(alloc, file) {
            Ok(file) => Ok(NewShelf { reader, path, file }),
            Err(_) => Err(AllocError),
        }
    }

    // Writes the buffered bytes, closes the file and reopens it at the shelf's path.
    fn reopen(self) -> Result<R::Opened, SourceFault>
        ensures { IfOk result (λ kept. Opens (R.map self.reader) (string_bytes self.path)
            (R.Opened.device kept)) }
    {
        let NewShelf {
            mut reader,
            path,
            mut file,
        } = self;
        if file.flush().is_err() {
            return Err(SourceFault);
        }
        drop(file);
        reader.open(path.as_str())
    }
}

impl<R: Reader, F: Write + Drop> Write for NewShelf<R, F> {
    ghost contents = { λ s. writer_contents F.contents s.file };

    fn write(&mut self, buf: &[u8]) -> io::Result<usize>
        ensures bound { WritesAtMost result buf.now }
        ensures bytes { WriteAppends (writer_contents F.contents self.old.file)
            (writer_contents F.contents self.new.file) result buf.now }
    {
        self.file.write(buf)
    }

    fn flush(&mut self) -> io::Result<()>
        ensures bytes { Keeps (writer_contents F.contents self.old.file)
            (writer_contents F.contents self.new.file) }
        ensures written { OnOk result (writer_buffer self.new.file ≡ []) }
    {
        self.file.flush()
    }
}

impl<R: Reader, F: Write + Drop> Shelf for NewShelf<R, F> {
    type Kept = R::Opened;

    ghost honest = { false };

    /// Returns `SourceFault` if the last piece cannot be written, or as the reader does.
    fn keep(self) -> Result<R::Opened, SourceFault> {
        self.reopen()
    }
}
