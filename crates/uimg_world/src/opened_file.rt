//! A file that is open, to be read as a source.

ghost use Rattle.std.specs.{Prelude.{◌≡◌, pos, None, Some, IfOk, IfSome, OnOk}, Io.ReadsAtMost};
ghost use Rattle.std.specs.Io.{KnownBytes.ReadConsumes, Seek.SeekMoves};
ghost use Rattle.uimg_base.specs.Device.{IsFresh};

use std::alloc::Global;
use std::io;
use std::io::{Read, Seek, SeekFrom};
use uimg_base::{SeekRead, SeekSource, Source, SourceFault};

/// A file of the operating system that is open. Contracts do not know its bytes.
#[derive(Drop)]
pub struct OpenedFile<F: Read + Seek> {
    file: F,
}

impl<F: Read + Seek + Drop> SeekRead for OpenedFile<F> {
    ghost stream = { λ _. None };

    fn read_on(&mut self, to: &mut [u8]) -> io::Result<usize>
        ensures bound { ReadsAtMost result to.new }
        ensures given { ReadConsumes (F.remaining self.old.file) (F.remaining self.new.file)
            result to.new }
    {
        self.file.read(to)
    }

    fn move_to(&mut self, at: u64) -> io::Result<()>
        ensures moved { IfSome (F.stream_position self.old.file) (λ _.
            OnOk result (F.stream_position self.new.file ≡ Some at)) }
    {
        self.file.seek(SeekFrom::Start(at))?;
        Ok(())
    }

    fn move_to_end(&mut self) -> io::Result<u64>
        ensures moved { SeekMoves (F.stream_position self.old.file) (F.stream_position self.new.file)
            (F.stream_bytes self.old.file) (SeekFrom.End (pos 0)) result }
    {
        self.file.seek(SeekFrom::End(0))
    }
}

/// An open file as a source. No contract says which bytes a disk returns, so it is not claimed to be
/// honest.
pub type OpenedSource<F> = SeekSource<OpenedFile<F>>;

/// Returns `SourceFault` if the file has no known length.
pub(crate) fn source_of<F: Read + Seek + Drop>(
    alloc: Global,
    file: F,
) -> Result<OpenedSource<F>, SourceFault>
    ensures { IfOk result (λ source. IsFresh (⟦<OpenedSource<F> as Source>⟧.device source)) }
{
    SeekSource::new(alloc, OpenedFile { file })
}
