//! Files with a position, from which they are read.

ghost use Rattle.std.specs.{Prelude.{◌≡◌, pos, None, Some, Option, IfSome, OnOk}, Io.ReadsAtMost};
ghost use Rattle.std.specs.Io.{Cursor.{cursor_inner, cursor_position}, KnownBytes.ReadConsumes};
ghost use Rattle.std.specs.Io.Seek.{SeekMoves};
ghost use Rattle.uimg_base.specs.Streams.{Stream, ReadsSome, MovesTo, MovesToEnd};

use std::io;
use std::io::{Cursor, Read, Seek, SeekFrom};

/// A file with a position, from which it is read, and which can be moved.
///
/// Contracts see it as a `Stream`, its bytes and its position, or as `None`: of a file on disk they
/// know neither. No call changes the bytes, or whether they are known.
pub trait SeekRead: Drop {
    /// What contracts know of the file.
    ghost stream: { Self → Option Stream };

    /// Reads some of the next bytes to the start of `to`. Returns how many: none at the end of the
    /// file or if `to` is empty. After an error the position is unchanged.
    fn read_on(&mut self, to: &mut [u8]) -> io::Result<usize>
        ensures bound { ReadsAtMost result to.new }
        ensures reads { ReadsSome result (stream self.old) (stream self.new) to.new };

    /// Moves to an offset from the start of the file. After an error the position is unchanged.
    fn move_to(&mut self, at: u64) -> io::Result<()>
        ensures { MovesTo at result (stream self.old) (stream self.new) };

    /// Moves to the end of the file. Returns its length. After an error the position is unchanged.
    fn move_to_end(&mut self) -> io::Result<u64>
        ensures { MovesToEnd result (stream self.old) (stream self.new) };
}

/// A file of the operating system. Contracts do not know its bytes. They know that a read returns
/// bytes that the file's own reader gave, and that a move goes to the given offset.
#[derive(Drop)]
pub struct DiskFile<F: Read + Seek> {
    pub(crate) file: F,
}

impl<F: Read + Seek + Drop> SeekRead for DiskFile<F> {
    ghost stream = { λ _. None };

    fn read_on(&mut self, to: &mut [u8]) -> io::Result<usize>
        ensures bound { ReadsAtMost result to.new }
        ensures given { ReadConsumes (F.remaining self.old.file) (F.remaining self.new.file)
            result to.new }
    {
        self.file.read(to)
    }

    fn move_to(&mut self, at: u64) -> io::Result<()>
        ensures moved { IfSome (F.stream_position self.old.file) (λ _.
            OnOk result (F.stream_position self.new.file ≡ Some at)) }
    {
        self.file.seek(SeekFrom::Start(at))?;
        Ok(())
    }

    fn move_to_end(&mut self) -> io::Result<u64>
        ensures moved { SeekMoves (F.stream_position self.old.file) (F.stream_position self.new.file)
            (F.stream_bytes self.old.file) (SeekFrom.End (pos 0)) result }
    {
        self.file.seek(SeekFrom::End(0))
    }
}

/// A slice as a file.
impl<'a> SeekRead for Cursor<&'a [u8]> {
    ghost stream = { λ c. Some (record {
      bytes = (cursor_inner c).now;
      position = cursor_position c;
    }) };

    fn read_on(&mut self, to: &mut [u8]) -> io::Result<usize> {
        self.read(to)
    }

    fn move_to(&mut self, at: u64) -> io::Result<()> {
        self.set_position(at);
        Ok(())
    }

    fn move_to_end(&mut self) -> io::Result<u64> {
        self.seek(SeekFrom::End(0))
    }
}
