//! A file that gets its name when it is complete.

ghost use Rattle.std.specs.Prelude.{◌≡◌, [], OnOk, IfOk};
ghost use Rattle.std.specs.Io.{WritesAtMost};
ghost use Rattle.uimg_unpacking.specs.Sizes.{accepted};
ghost use Rattle.std.specs.Io.Buffered.{writer_buffer, writer_contents};
ghost use Rattle.std.specs.Io.KnownBytes.{Keeps, WriteAppends};

use std::alloc::Global;
use std::cell::Cell;
use std::fs::OpenFile;
use std::io;
use std::io::{BufWriter, Write};

/// The code of the system's error of a failed write, if it had one.
pub(crate) type ErrorCode = Cell<Option<i32>>;

/// A file without its name, and its length in bytes. Writes are buffered; the error of one that
/// fails is noted.
#[derive(Drop)]
pub struct NewFile<'a, F: Write + OpenFile + Drop> {
    file: BufWriter<F, Global>,
    pub(crate) size: u64,
    code: &'a ErrorCode,
}

impl<'a, F: Write + OpenFile + Drop> NewFile<'a, F> {
    pub(crate) fn new(file: BufWriter<F, Global>, code: &'a ErrorCode) -> NewFile<'a, F>
        ensures size { result.size ≡ 0 }
        ensures bytes { writer_contents F.contents result.file ≡ writer_contents F.contents file }
    {
        NewFile {
            file,
            size: 0,
            code,
        }
    }

    /// Writes what is buffered. Returns the file, and its length in bytes.
    pub(crate) fn into_file(self) -> io::Result<(F, u64)>
        ensures size { IfOk result (λ it. it.1 ≡ self.entry.size) }
        ensures bytes { IfOk result (λ it.
            Keeps (writer_contents F.contents self.entry.file) (F.contents it.0)) }
    {
        let NewFile {
            file,
            size,
            code: _,
        } = self;
        match file.into_inner() {
            Ok(file) => Ok((file, size)),
            Err(failed) => Err(failed.into_error()),
        }
    }
}

impl<'a, F: Write + OpenFile + Drop> Write for NewFile<'a, F> {
    ghost contents = { λ s. writer_contents F.contents s.file };

    fn write(&mut self, buf: &[u8]) -> io::Result<usize>
        ensures size { self.new.size ≡ accepted self.old.size result }
        ensures bound { WritesAtMost result buf.now }
        ensures bytes { WriteAppends (writer_contents F.contents self.old.file)
            (writer_contents F.contents self.new.file) result buf.now }
    {
        let written = self.file.write(buf);
        match &written {
            Ok(count) => self.size = self.size.saturating_add(*count as u64),
            Err(error) => self.code.set(error.raw_os_error()),
        }
        written
    }

    fn flush(&mut self) -> io::Result<()>
        ensures bytes { Keeps (writer_contents F.contents self.old.file)
            (writer_contents F.contents self.new.file) }
        ensures written { OnOk result (writer_buffer self.new.file ≡ []) }
    {
        let flushed = self.file.flush();
        if let Err(error) = &flushed {
            self.code.set(error.raw_os_error());
        }
        flushed
    }
}
