//! What the files of the operating system lend for the build of an image.

ghost use Rattle.std.specs.Prelude.{[], None, false};

use crate::call::Call;
use crate::disk_looks::open_source;
use crate::disk_world::DiskWorld;
use crate::file_id::FileId;
use crate::making_world::{MakingWorld, Reader};
use crate::new_shelf::NewShelf;
use crate::opened_file::OpenedSource;
use std::alloc::AllocError;
use std::env::Env;
use std::rt::Files;
use uimg_base::{FileShelf, SourceFault};

/// What opens the files of the operating system. No contract says what they have, so it is not
/// claimed to be honest.
#[derive(Drop)]
pub struct DiskReader<'a, R: Files + AllocGlobal> {
    rt: &'a R,
}

impl<'a, R: Files + AllocGlobal> Reader for DiskReader<'a, R> {
    type Opened = OpenedSource<R::File>;

    ghost map = { λ _. record {
      bytes = λ _. None;
      honest = false;
      complete = false;
      refusals = 0;
      opened = [];
    } };

    ghost identities = { λ _ _. None };

    fn open(&mut self, path: &str) -> Result<OpenedSource<R::File>, SourceFault> {
        open_source(self.rt, path)
    }

    fn file_at(&mut self, path: &str) -> Option<FileId> {
        FileId::of(self.rt, path)
    }
}

impl<'a, R: Files + Env + AllocGlobal> MakingWorld<'a> for DiskWorld<'a, R> {
    type Reader = DiskReader<'a, R>;

    type Shelf = FileShelf<'a, R>;

    type NewShelf = NewShelf<DiskReader<'a, R>, R::File>;

    ghost identities = { λ _ _. None };

    fn reader(&mut self) -> DiskReader<'a, R> {
        self.record.note(&Call::LendsReader, b"", b"");
        DiskReader { rt: self.rt }
    }

    fn shelf_at(&mut self, path: &'a str) -> FileShelf<'a, R> {
        self.record.note(&Call::LendsShelf, path.as_bytes(), b"");
        FileShelf::new(self.rt, path)
    }

    fn shelf_in(
        &mut self,
        path: &str,
        file: R::File,
    ) -> Result<NewShelf<DiskReader<'a, R>, R::File>, AllocError> {
        self.record.note(&Call::LendsShelf, path.as_bytes(), b"");
        NewShelf::new(self.rt.alloc(), DiskReader { rt: self.rt }, path, file)
    }
}
