//! What files in memory lend for the build of an image.

ghost use Rattle.std.specs.Prelude.{[], None, true};
ghost use Rattle.uimg_base.specs.Named.{bytes_named};

use crate::call::Call;
use crate::file_id::FileId;
use crate::making_world::{MakingWorld, Reader};
use crate::memory_file::MemoryFile;
use crate::memory_world::{MemoryWorld, bytes_at};
use std::alloc::{AllocError, Global};
use uimg_base::{MemShelf, MemSource, SourceFault};

/// What opens files in memory. No file is found by which it is.
#[derive(Drop)]
pub struct MemoryReader<'a> {
    files: &'a [(&'a [u8], &'a [u8])],
}

impl<'a> Reader for MemoryReader<'a> {
    type Opened = MemSource<'a>;

    ghost map = { λ reader. record {
      bytes = λ path. bytes_named path reader.files.now;
      honest = true;
      complete = true;
      refusals = 0;
      opened = [];
    } };

    ghost identities = { λ _ _. None };

    fn open(&mut self, path: &str) -> Result<MemSource<'a>, SourceFault> {
        match bytes_at(self.files, path) {
            Some(bytes) => Ok(MemSource::new(bytes)),
            None => Err(SourceFault),
        }
    }

    fn file_at(&mut self, _path: &str) -> Option<FileId> {
        None
    }
}

/// A shelf of this world is in memory, and what it keeps is at no path.
impl<'a> MakingWorld<'a> for MemoryWorld<'a> {
    type Reader = MemoryReader<'a>;

    type Shelf = MemShelf<Global>;

    type NewShelf = MemShelf<Global>;

    ghost identities = { λ _ _. None };

    fn reader(&mut self) -> MemoryReader<'a> {
        self.record.note(&Call::LendsReader, b"", b"");
        MemoryReader { files: self.files }
    }

    fn shelf_at(&mut self, path: &'a str) -> MemShelf<Global> {
        self.record.note(&Call::LendsShelf, path.as_bytes(), b"");
        MemShelf::new(self.alloc)
    }

    fn shelf_in(
        &mut self,
        path: &str,
        _file: MemoryFile<'a>,
    ) -> Result<MemShelf<Global>, AllocError> {
        self.record.note(&Call::LendsShelf, path.as_bytes(), b"");
        Ok(MemShelf::new(self.alloc))
    }
}
