//! The files of the operating system. Each method makes one call, of the standard library or of
//! `disk_looks`, notes it, and returns the answer.

ghost use Rattle.std.specs.Prelude.{◌≡◌, ◌∷◌, [], None, false, is_err, is_ok};
ghost use Rattle.uimg_base.specs.Device.{RisesIf};
ghost use Rattle.uimg_world.specs.Deeds.{Deed};

use crate::call::{Call, answer_of};
use crate::disk_input::open_input;
use crate::disk_looks::{kind_of, names_at, open_source, reason_at, sync_folder, target_at};
use crate::file_id::FileId;
use crate::kind::{Kind, Target};
use crate::opened_file::OpenedSource;
use crate::record::Record;
use crate::world::World;
use std::alloc::Global;
use std::env::Env;
use std::fs::OpenFile;
use std::path::PathBuf;
use std::rt::Files;
use std::{fs, io};
use uimg_base::SourceFault;

/// The files of the operating system. No contract says what they have, so it is not claimed to be
/// honest.
#[derive(Drop)]
pub struct DiskWorld<'a, R: Files + Env + AllocGlobal> {
    pub(crate) rt: &'a R,
    pub(crate) record: Record,
    refusals: u64,
    // Why standard input could not be opened, until that is told.
    input_reason: Option<io::Error>,
}

impl<'a, R: Files + Env + AllocGlobal> DiskWorld<'a, R> {
    /// Returns the files of a system, none of them requested yet.
    pub fn new(rt: &'a R) -> DiskWorld<'a, R>
        ensures { ⟦<DiskWorld<'a, R> as World>⟧.trace result ≡ [] }
    {
        DiskWorld {
            rt,
            record: Record::new(),
            refusals: 0,
            input_reason: None,
        }
    }

    // Notes that a source was opened, and counts it if it was not.
    fn note_opened<X>(
        &mut self,
        path: &str,
        opened: Result<X, SourceFault>,
    ) -> Result<X, SourceFault>
        ensures is { result ≡ opened }
        ensures noted { self.new.record.deeds
            ≡ Deed.Opens path.now (is_ok opened) ∷ self.old.record.deeds }
        ensures refusals { RisesIf (is_err opened) self.old.refusals self.new.refusals }
    {
        let call = Call::Opens(opened.is_ok());
        self.record.note(&call, path.as_bytes(), b"");
        if opened.is_err() {
            self.refusals = self.refusals.saturating_add(1);
        }
        opened
    }
}

impl<'a, R: Files + Env + AllocGlobal> World for DiskWorld<'a, R> {
    type File = R::File;

    type Opened = OpenedSource<R::File>;

    ghost trace = { λ world. world.record.deeds };

    ghost map = { λ world. record {
      bytes = λ _. None;
      honest = false;
      complete = false;
      refusals = world.refusals;
      opened = [];
    } };

    ghost known = { λ world honest. honest };

    fn alloc(&self) -> Global {
        self.rt.alloc()
    }

    fn open(&mut self, path: &str) -> Result<OpenedSource<R::File>, SourceFault> {
        let opened = open_source(self.rt, path);
        self.note_opened(path, opened)
    }

    fn open_input(
        &mut self,
        path: &str,
        folder: Option<&str>,
        most: u64,
    ) -> Result<OpenedSource<R::File>, SourceFault> {
        let opened = match open_input(self.rt, folder, most) {
            Ok(source) => Ok(source),
            Err(reason) => {
                self.input_reason = Some(reason);
                Err(SourceFault)
            }
        };
        self.note_opened(path, opened)
    }

    fn reason_unread(&mut self, path: &str) -> Option<io::Error> {
        self.record.note(&Call::Explains, path.as_bytes(), b"");
        match self.input_reason.take() {
            Some(reason) => Some(reason),
            None => reason_at(self.rt, path),
        }
    }

    fn read(&mut self, path: &str) -> io::Result<R::File> {
        let opened = fs::open(self.rt, path);
        let call = Call::Reads(answer_of(&opened));
        self.record.note(&call, path.as_bytes(), b"");
        opened
    }

    fn target_of(&mut self, path: &str) -> Target {
        let target = target_at(self.rt, path);
        let call = Call::Finds(target);
        self.record.note(&call, path.as_bytes(), b"");
        target
    }

    fn read_dir(&mut self, path: &str) -> io::Result<Vec<u8>> {
        let listed = names_at(self.rt, path);
        match &listed {
            Ok(names) => self
                .record
                .note(&Call::Lists(true), path.as_bytes(), names.as_slice()),
            Err(_) => self.record.note(&Call::Lists(false), path.as_bytes(), b""),
        }
        listed
    }

    fn create(&mut self, path: &str) -> io::Result<R::File> {
        let created = fs::create(self.rt, path);
        let call = Call::Overwrites(answer_of(&created));
        self.record.note(&call, path.as_bytes(), b"");
        created
    }

    fn create_new(&mut self, path: &str) -> io::Result<R::File> {
        let created = fs::File::create_new(self.rt, path);
        let call = Call::Creates(answer_of(&created));
        self.record.note(&call, path.as_bytes(), b"");
        created
    }

    fn close(&mut self, path: &str, file: R::File, is_synced: bool) -> io::Result<()> {
        let closed = if is_synced { file.sync_all() } else { Ok(()) };
        drop(file);
        let call = Call::Closes(is_synced, false, answer_of(&closed));
        self.record.note(&call, path.as_bytes(), b"");
        closed
    }

    fn hard_link(&mut self, from: &str, to: &str) -> io::Result<()> {
        let linked = fs::hard_link(self.rt, from, to);
        let call = Call::Links(answer_of(&linked));
        self.record.note(&call, from.as_bytes(), to.as_bytes());
        linked
    }

    fn rename(&mut self, from: &str, to: &str) -> io::Result<()> {
        let renamed = fs::rename(self.rt, from, to);
        let call = Call::Renames(answer_of(&renamed));
        self.record.note(&call, from.as_bytes(), to.as_bytes());
        renamed
    }

    fn remove_file(&mut self, path: &str) -> io::Result<()> {
        let removed = fs::remove_file(self.rt, path);
        let call = Call::Removes(answer_of(&removed));
        self.record.note(&call, path.as_bytes(), b"");
        removed
    }

    fn create_dir(&mut self, path: &str) -> io::Result<()> {
        let made = fs::create_dir(self.rt, path);
        let call = Call::MakesFolder(answer_of(&made));
        self.record.note(&call, path.as_bytes(), b"");
        made
    }

    fn remove_dir(&mut self, path: &str) -> io::Result<()> {
        let removed = fs::remove_dir(self.rt, path);
        let call = Call::RemovesFolder(answer_of(&removed));
        self.record.note(&call, path.as_bytes(), b"");
        removed
    }

    fn remove_dir_all(&mut self, path: &str) -> io::Result<()> {
        let removed = fs::remove_dir_all(self.rt, path);
        let call = Call::RemovesAll(answer_of(&removed));
        self.record.note(&call, path.as_bytes(), b"");
        removed
    }

    fn sync_dir(&mut self, path: &str) -> io::Result<()> {
        let synced = sync_folder(self.rt, path);
        let call = Call::Syncs(answer_of(&synced));
        self.record.note(&call, path.as_bytes(), b"");
        synced
    }

    fn canonicalize(&mut self, path: &str) -> io::Result<PathBuf> {
        let resolved = fs::canonicalize(self.rt, path);
        match &resolved {
            Ok(found) => {
                let found = found.as_str().as_bytes();
                self.record
                    .note(&Call::Resolves(true), path.as_bytes(), found);
            }
            Err(_) => self
                .record
                .note(&Call::Resolves(false), path.as_bytes(), b""),
        }
        resolved
    }

    fn kind_at(&mut self, path: &str) -> Kind {
        let kind = kind_of(&fs::symlink_metadata(self.rt, path));
        let call = Call::Looks(kind);
        self.record.note(&call, path.as_bytes(), b"");
        kind
    }

    fn file_at(&mut self, path: &str) -> Option<FileId> {
        let found = FileId::of(self.rt, path);
        self.record
            .note(&Call::Identifies(found), path.as_bytes(), b"");
        found
    }
}
