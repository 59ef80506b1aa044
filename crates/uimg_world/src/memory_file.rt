//! A file in memory, which can be read and written to.

ghost use Rattle.std.specs.Prelude.{◌≡◌, [], Some};
ghost use Rattle.std.specs.IoError.{error_kind};
ghost use Rattle.std.specs.Io.{WritesAtMost, KnownBytes.{Keeps, WriteAppends}};
ghost use Rattle.std.specs.declared.io.ErrorKind.TheVariants.{ReadOnlyFilesystem};

use std::alloc::Global;
use std::fs::{Metadata, OpenFile};
use std::io;
use std::io::{ErrorKind, Read, Write};

/// Bytes in memory as a file, which is read from its beginning to its end, and what was written to
/// it. Its other calls fail.
#[derive(Drop)]
pub struct MemoryFile<'a> {
    rest: &'a [u8],
    written: Vec<u8>,
}

impl<'a> MemoryFile<'a> {
    pub(crate) fn new(alloc: Global, rest: &'a [u8]) -> MemoryFile<'a>
        ensures read { ⟦<MemoryFile<'a> as Read>⟧.remaining result ≡ Some rest.now }
        ensures written { ⟦<MemoryFile<'a> as Write>⟧.contents result ≡ Some [] }
    {
        MemoryFile {
            rest,
            written: Vec::new(alloc),
        }
    }

    pub(crate) fn written(&self) -> &[u8]
        ensures { result.now ≡ self.now.written.items }
    {
        self.written.as_slice()
    }
}

/// The error of a call that would change files.
pub(crate) fn read_only() -> io::Error
    ensures { error_kind result ≡ ReadOnlyFilesystem }
{
    io::Error::from(ErrorKind::ReadOnlyFilesystem)
}

impl<'a> Read for MemoryFile<'a> {
    ghost remaining = { λ file. Some file.rest.now };

    fn read(&mut self, buf: &mut [u8]) -> io::Result<usize> {
        self.rest.read(buf)
    }
}

impl<'a> Write for MemoryFile<'a> {
    ghost contents = { λ file. Some file.written.items };

    fn write(&mut self, buf: &[u8]) -> io::Result<usize>
        ensures bound { WritesAtMost result buf.now }
        ensures bytes { WriteAppends (⟦<MemoryFile<'a> as Write>⟧.contents self.old)
            (⟦<MemoryFile<'a> as Write>⟧.contents self.new) result buf.now }
    {
        self.written.write(buf)
    }

    fn flush(&mut self) -> io::Result<()>
        ensures { Keeps (⟦<MemoryFile<'a> as Write>⟧.contents self.old)
            (⟦<MemoryFile<'a> as Write>⟧.contents self.new) }
    {
        Ok(())
    }
}

impl<'a> OpenFile for MemoryFile<'a> {
    fn metadata(&self) -> io::Result<Metadata> {
        Err(read_only())
    }

    fn set_len(&self, _size: u64) -> io::Result<()> {
        Err(read_only())
    }

    fn sync_all(&self) -> io::Result<()> {
        Err(read_only())
    }

    fn sync_data(&self) -> io::Result<()> {
        Err(read_only())
    }
}
