//! A writer that accepts a given number of bytes and then fails, for tests.

ghost use Rattle.std.specs.Prelude.{◌≡◌};

use std::io;
use std::io::{ErrorKind, Write};

/// A writer that accepts a given number of bytes in all, then fails. For tests of failed writes.
#[derive(Drop)]
pub struct FuseWriter<W: Write> {
    writer: W,
    left: u64,
}

impl<W: Write> FuseWriter<W> {
    /// Puts a fuse on `writer` that accepts `bytes` bytes. A `write` of more accepts the rest of
    /// them.
    pub fn new(writer: W, bytes: u64) -> FuseWriter<W>
        ensures { ⟦<FuseWriter<W> as Write>⟧.contents result ≡ W.contents writer }
    {
        FuseWriter {
            writer,
            left: bytes,
        }
    }

    /// Returns the writer, with the bytes that it accepted.
    pub fn into_inner(self) -> W
        ensures { W.contents result ≡ ⟦<FuseWriter<W> as Write>⟧.contents self }
    {
        let FuseWriter { writer, left: _ } = self;
        writer
    }
}

impl<W: Write> Write for FuseWriter<W> {
    ghost contents = { λ s. W.contents s.writer };

    fn write(&mut self, buf: &[u8]) -> io::Result<usize> {
        if self.left == 0 {
            return Err(io::Error::from(ErrorKind::Other));
        }
        let most = usize::min(buf.len(), self.left as usize);
        let count = self.writer.write(&buf[..most])?;
        self.left -= count as u64;
        Ok(count)
    }

    fn flush(&mut self) -> io::Result<()> {
        self.writer.flush()
    }
}
