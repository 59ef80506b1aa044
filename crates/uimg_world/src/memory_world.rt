//! Files in memory, which can be opened and read, and new ones beside them.

ghost use Rattle.std.specs.Prelude.{◌≡◌, ◌∷◌, [], false, true};
ghost use Rattle.std.specs.Option.{option_map};
ghost use Rattle.uimg_base.specs.{Device.Rose, Named.bytes_named};
ghost use Rattle.uimg_world.specs.{Deeds.{Deed, answer_of, deed_of}, Kinds.target_of_kind};
ghost use Rattle.uimg_world.specs.declared.call.Answer.TheVariants.{Failed};

use crate::call::{Answer, Call, answer_of};
use crate::file_id::FileId;
use crate::kind::{Kind, Target};
use crate::memory_file::{MemoryFile, read_only};
use crate::new_files::NewFiles;
use crate::record::Record;
use crate::world::World;
use std::alloc::Global;
use std::io;
use std::io::ErrorKind;
use std::path::PathBuf;
use uimg_base::{MemSource, Source, SourceFault};

/// Files in memory: pairs of a path and its bytes. Of equal paths, the first counts.
///
/// They are honest and complete, and never change. Standard input has the bytes of the file at the path
/// that stands for it. New files and folders are beside them: they are created, closed, linked, renamed
/// and removed as on a disk, but are not opened again. What is written to a file of `create` is at its
/// path once the file is closed. Calls that resolve a path, list a folder or remove one with all in it
/// fail, and no file is found by which it is (`file_at`).
#[derive(Drop)]
pub struct MemoryWorld<'a> {
    pub(crate) alloc: Global,
    pub(crate) files: &'a [(&'a [u8], &'a [u8])],
    pub(crate) record: Record,
    refusals: u64,
    new_files: NewFiles,
}

impl<'a> MemoryWorld<'a> {
    /// Returns a world of these files, none of them requested yet.
    pub fn new(alloc: Global, files: &'a [(&'a [u8], &'a [u8])]) -> MemoryWorld<'a>
        ensures map { ⟦<MemoryWorld<'a> as World>⟧.map result ≡ record {
          bytes = λ path. bytes_named path files.now;
          honest = true;
          complete = true;
          refusals = 0;
          opened = [];
        } }
        ensures trace { ⟦<MemoryWorld<'a> as World>⟧.trace result ≡ [] }
    {
        MemoryWorld {
            alloc,
            files,
            record: Record::new(),
            refusals: 0,
            new_files: NewFiles::new(alloc),
        }
    }

    /// Returns the files and folders that were made.
    pub fn into_new_files(self) -> NewFiles
        ensures { result ≡ self.entry.new_files }
    {
        self.new_files
    }

    // Notes the call, and fails.
    fn refuse<X>(&mut self, call: Call, path: &str) -> io::Result<X>
        ensures failed { answer_of result ≡ Failed }
        ensures noted { self.new.record.deeds
            ≡ deed_of call path.now [] ∷ self.old.record.deeds }
        ensures files { self.new.files ≡ self.old.files }
    {
        self.record.note(&call, path.as_bytes(), b"");
        Err(read_only())
    }

    // Notes that a file was opened.
    fn opened(&mut self, path: &str, bytes: &'a [u8]) -> MemSource<'a>
        ensures device { ⟦<MemSource<'a> as Source>⟧.device result ≡ record {
          bytes = bytes.now;
          honest = true;
          asked = 0;
          failures = 0;
        } }
        ensures noted { self.new.record.deeds ≡ Deed.Opens path.now true ∷ self.old.record.deeds }
        ensures files { self.new.files ≡ self.old.files }
        ensures refusals { self.new.refusals ≡ self.old.refusals }
    {
        self.record.note(&Call::Opens(true), path.as_bytes(), b"");
        MemSource::new(bytes)
    }

    // Notes that a file was not opened.
    fn unopened(&mut self, path: &str) -> SourceFault
        ensures noted { self.new.record.deeds ≡ Deed.Opens path.now false ∷ self.old.record.deeds }
        ensures files { self.new.files ≡ self.old.files }
        ensures refusals { Rose self.old.refusals self.new.refusals }
    {
        self.record.note(&Call::Opens(false), path.as_bytes(), b"");
        self.refusals = self.refusals.saturating_add(1);
        SourceFault
    }

    // Puts a new, empty file, or a folder, at a path where nothing is.
    fn make(&mut self, path: &str, bytes: Option<&[u8]>) -> io::Result<()>
        ensures deeds { self.new.record ≡ self.old.record }
        ensures files { self.new.files ≡ self.old.files }
    {
        match bytes_at(self.files, path) {
            Some(_) => Err(io::Error::from(ErrorKind::AlreadyExists)),
            None => self.new_files.make(path, bytes),
        }
    }
}

impl<'a> World for MemoryWorld<'a> {
    type File = MemoryFile<'a>;

    type Opened = MemSource<'a>;

    ghost trace = { λ world. world.record.deeds };

    ghost knows = { true };

    ghost map = { λ world. record {
      bytes = λ path. bytes_named path world.files.now;
      honest = true;
      complete = true;
      refusals = world.refusals;
      opened = [];
    } };

    ghost known = { λ world honest. honest };

    fn alloc(&self) -> Global {
        self.alloc
    }

    fn open(&mut self, path: &str) -> Result<MemSource<'a>, SourceFault> {
        match bytes_at(self.files, path) {
            Some(bytes) => Ok(self.opened(path, bytes)),
            None => Err(self.unopened(path)),
        }
    }

    fn open_input(
        &mut self,
        path: &str,
        _folder: Option<&str>,
        most: u64,
    ) -> Result<MemSource<'a>, SourceFault> {
        match bytes_at(self.files, path) {
            Some(bytes) => {
                if bytes.len() as u64 > most {
                    return Err(self.unopened(path));
                }
                Ok(self.opened(path, bytes))
            }
            None => Err(self.unopened(path)),
        }
    }

    fn reason_unread(&mut self, path: &str) -> Option<io::Error> {
        self.record.note(&Call::Explains, path.as_bytes(), b"");
        None
    }

    fn read(&mut self, path: &str) -> io::Result<MemoryFile<'a>> {
        match bytes_at(self.files, path) {
            Some(bytes) => {
                self.record
                    .note(&Call::Reads(Answer::Done), path.as_bytes(), b"");
                Ok(MemoryFile::new(self.alloc, bytes))
            }
            None => self.refuse(Call::Reads(Answer::Failed), path),
        }
    }

    fn target_of(&mut self, path: &str) -> Target {
        let target = match bytes_at(self.files, path) {
            Some(_) => Target::File,
            None => target_of_kind(self.new_files.kind_at(path)),
        };
        let call = Call::Finds(target);
        self.record.note(&call, path.as_bytes(), b"");
        target
    }

    fn read_dir(&mut self, path: &str) -> io::Result<Vec<u8>> {
        self.refuse(Call::Lists(false), path)
    }

    fn create(&mut self, path: &str) -> io::Result<MemoryFile<'a>> {
        self.record
            .note(&Call::Overwrites(Answer::Done), path.as_bytes(), b"");
        Ok(MemoryFile::new(self.alloc, &[]))
    }

    fn create_new(&mut self, path: &str) -> io::Result<MemoryFile<'a>> {
        let made = self.make(path, Some(&[]));
        let call = Call::Creates(answer_of(&made));
        self.record.note(&call, path.as_bytes(), b"");
        match made {
            Ok(()) => Ok(MemoryFile::new(self.alloc, &[])),
            Err(error) => Err(error),
        }
    }

    fn close(&mut self, path: &str, file: MemoryFile<'a>, is_synced: bool) -> io::Result<()> {
        let closed = self.new_files.put(path, Some(file.written()));
        let call = Call::Closes(is_synced, true, answer_of(&closed));
        self.record.note(&call, path.as_bytes(), file.written());
        closed
    }

    fn hard_link(&mut self, from: &str, to: &str) -> io::Result<()> {
        let linked = match bytes_at(self.files, to) {
            Some(_) => Err(io::Error::from(ErrorKind::AlreadyExists)),
            None => self.new_files.hard_link(from, to),
        };
        let call = Call::Links(answer_of(&linked));
        self.record.note(&call, from.as_bytes(), to.as_bytes());
        linked
    }

    fn rename(&mut self, from: &str, to: &str) -> io::Result<()> {
        let renamed = match bytes_at(self.files, to) {
            Some(_) => Err(read_only()),
            None => self.new_files.rename(from, to),
        };
        let call = Call::Renames(answer_of(&renamed));
        self.record.note(&call, from.as_bytes(), to.as_bytes());
        renamed
    }

    fn remove_file(&mut self, path: &str) -> io::Result<()> {
        let removed = self.new_files.remove_file(path);
        let call = Call::Removes(answer_of(&removed));
        self.record.note(&call, path.as_bytes(), b"");
        removed
    }

    fn create_dir(&mut self, path: &str) -> io::Result<()> {
        let made = self.make(path, None);
        let call = Call::MakesFolder(answer_of(&made));
        self.record.note(&call, path.as_bytes(), b"");
        made
    }

    fn remove_dir(&mut self, path: &str) -> io::Result<()> {
        let removed = self.new_files.remove_dir(path);
        let call = Call::RemovesFolder(answer_of(&removed));
        self.record.note(&call, path.as_bytes(), b"");
        removed
    }

    fn remove_dir_all(&mut self, path: &str) -> io::Result<()> {
        self.refuse(Call::RemovesAll(Answer::Failed), path)
    }

    fn sync_dir(&mut self, path: &str) -> io::Result<()> {
        self.record
            .note(&Call::Syncs(Answer::Done), path.as_bytes(), b"");
        Ok(())
    }

    fn canonicalize(&mut self, path: &str) -> io::Result<PathBuf> {
        self.record
            .note(&Call::Resolves(false), path.as_bytes(), b"");
        Err(read_only())
    }

    fn kind_at(&mut self, path: &str) -> Kind {
        let kind = match bytes_at(self.files, path) {
            Some(_) => Kind::File,
            None => self.new_files.kind_at(path),
        };
        let call = Call::Looks(kind);
        self.record.note(&call, path.as_bytes(), b"");
        kind
    }

    fn file_at(&mut self, path: &str) -> Option<FileId> {
        self.record
            .note(&Call::Identifies(None), path.as_bytes(), b"");
        None
    }
}

fn target_of_kind(kind: Kind) -> Target
    ensures { result ≡ target_of_kind kind }
{
    match kind {
        Kind::Nothing => Target::Nothing,
        Kind::File => Target::File,
        Kind::Folder | Kind::Link => Target::Other,
    }
}

pub(crate) fn bytes_at<'a>(files: &'a [(&'a [u8], &'a [u8])], path: &str) -> Option<&'a [u8]>
    ensures { option_map (λ bytes. bytes.now) result ≡ bytes_named path.now files.entry.now }
{
    for (known, bytes) in files {
        if *known == path.as_bytes() {
            return Some(*bytes);
        }
    }
    None
}
