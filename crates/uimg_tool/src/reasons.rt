//! The operating system's reasons for what could not be written.

ghost use Rattle.std.specs.Prelude.{◌≡◌};

use std::cell::Cell;
use std::io;
use std::io::{ErrorKind, Write};
use uimg_base::{Shelf, SourceFault};

/// The code is that of the system's error, if it had one.
pub(crate) fn reason_of_code(code: Option<i32>) -> io::Error {
    match code {
        Some(code) => io::Error::from_raw_os_error(code),
        None => io::Error::from(ErrorKind::WriteZero),
    }
}

/// A writer, or a shelf, that keeps the code of the system's error where a write fails.
#[derive(Drop)]
pub(crate) struct ReasonKeeper<'a, W: Write> {
    writer: W,
    code: &'a Cell<Option<i32>>,
}

impl<'a, W: Write> ReasonKeeper<'a, W> {
    pub(crate) fn new(writer: W, code: &'a Cell<Option<i32>>) -> ReasonKeeper<'a, W>
        ensures { result.writer ≡ writer }
    {
        ReasonKeeper { writer, code }
    }

    pub(crate) fn into_inner(self) -> W
        ensures { result ≡ self.entry.writer }
    {
        let ReasonKeeper { writer, code: _ } = self;
        writer
    }
}

impl<'a, W: Write> Write for ReasonKeeper<'a, W> {
    ghost contents = { λ s. W.contents s.writer };

    fn write(&mut self, buf: &[u8]) -> io::Result<usize> {
        let written = self.writer.write(buf);
        if let Err(error) = &written {
            self.code.set(error.raw_os_error());
        }
        written
    }

    fn flush(&mut self) -> io::Result<()> {
        let flushed = self.writer.flush();
        if let Err(error) = &flushed {
            self.code.set(error.raw_os_error());
        }
        flushed
    }
}

impl<'a, H: Shelf> Shelf for ReasonKeeper<'a, H> {
    type Kept = H::Kept;

    ghost honest = { H.honest };

    ghost steady = { H.steady };

    fn keep(self) -> Result<H::Kept, SourceFault> {
        let ReasonKeeper { writer, code: _ } = self;
        writer.keep()
    }
}
