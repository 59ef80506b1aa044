//! Files that are written in a folder of their own, and get their names all at once.

ghost use Rattle.std.specs.Prelude.{◌≡◌, ◌++◌, ◌∷◌, [], List, ℕ, Bool, Some, true, false, codes, IfOk, IsTrue, OnErr, OnOk, is_ok, not, string_bytes};
ghost use Rattle.std.specs.{Io.Buffered.writer_contents, List.list_all};
ghost use Rattle.std.specs.Option.{option_map, option_map_or};
ghost use Rattle.uimg_world.specs.Deeds.{answer_of};
ghost use Rattle.uimg_unpacking.specs.Contents.{held};
ghost use Rattle.uimg_unpacking.specs.FileNames.{is_file_name};
ghost use Rattle.uimg_unpacking.specs.Leaving.{KeepsNone};
ghost use Rattle.uimg_unpacking.specs.Places.{is_temporary_folder, is_temporary_file, is_begun_in, Obeys, terms_of};
ghost use Rattle.uimg_unpacking.specs.Refusals.{last_of, last_name, TellsUnwritten};
ghost use Rattle.uimg_unpacking.specs.Staged.{ClosesLast, Completes, are_numbered_in, complete_names, names_of, staged, with_name};

mod naming_all;
mod removing;

use crate::folder::Folder;
use crate::new_file::{ErrorCode, NewFile};
use crate::staged_file::{StagedFile, staged_in};
use crate::task::Task;
use crate::trouble::{ShownPath, Trouble};
use std::alloc::{AllocError, Global};
use std::io;
use std::io::{BufWriter, ErrorKind};
use std::marker::PhantomData;
use uimg_world::World;

/// New files for a folder. Until they get their names, they are in a temporary folder within it.
#[derive(Drop)]
pub(crate) struct Staging<'w, 'a, 'c, W: World, M: Task> {
    world: &'w mut W,
    task: PhantomData<M>,
    alloc: Global,
    folder: Folder<'a>,
    // The path of the temporary folder, once it is created.
    made: Option<String>,
    // The files that were begun. File number N is `new-N` in the temporary folder, and what it
    // replaces is `old-N`.
    files: Vec<StagedFile>,
    // The paths of all files that were created in the temporary folder.
    created: Vec<String>,
    // Refused files. What they were to replace is removed with the names.
    outdated: Vec<StagedFile>,
    // Whether the last file is not complete.
    is_writing: bool,
    // Whether files get their names.
    is_naming: bool,
    // The code of the error of its failed write.
    code: &'c ErrorCode,
    ghost made_inside: { option_map_or (λ path. is_temporary_folder folder.path.now (string_bytes path)) made true ≡ true },
    ghost files_inside: { list_all (is_begun_in folder.path.now) files.items ≡ true },
    ghost created_inside: { list_all (λ path. is_temporary_file folder.path.now (string_bytes path)) created.items ≡ true },
    ghost outdated_inside: { list_all (is_begun_in folder.path.now) outdated.items ≡ true },
    ghost named: { world.ghost_name ≡ M.name },
    ghost agreed: { terms_of folder ≡ M.terms },
    ghost obeys: { Obeys (terms_of folder) is_naming M.before (W.trace world.now) },
    ghost numbered: { are_numbered_in (option_map string_bytes made) files.items ≡ true },
    ghost none: { is_naming ≡ false → KeepsNone (option_map string_bytes made) (W.trace world.now) },
}

impl<'w, 'a, 'c, W: World, M: Task> Staging<'w, 'a, 'c, W, M> {
    /// Notes failed writes in `code`.
    pub(crate) fn new(
        world: &'w mut W,
        alloc: Global,
        folder: Folder<'a>,
        code: &'c ErrorCode,
    ) -> Staging<'w, 'a, 'c, W, M>
        requires named { world.ghost_name ≡ M.name }
        requires before { W.trace world.now ≡ M.before }
        requires agreed { terms_of folder ≡ M.terms }
        ensures folder { result.folder ≡ folder.entry }
        ensures unnamed { result.is_naming ≡ false }
        ensures none { result.files.items ≡ [] × result.outdated.items ≡ []
            × result.is_writing ≡ false }
    {
        Staging {
            world,
            task: PhantomData,
            alloc,
            folder,
            made: None,
            files: Vec::new(alloc),
            created: Vec::new(alloc),
            outdated: Vec::new(alloc),
            is_writing: false,
            is_naming: false,
            code,
        }
    }

    pub(crate) fn look(&mut self, name: &str) -> Result<(), Trouble>
        ensures folder { self.new.folder ≡ self.old.folder }
        ensures naming { self.new.is_naming ≡ self.old.is_naming }
        ensures files { self.new.files ≡ self.old.files }
        ensures outdated { self.new.outdated ≡ self.old.outdated }
        ensures writing { self.new.is_writing ≡ self.old.is_writing }
        ensures held { held (W.trace self.new.world.now) ≡ held (W.trace self.old.world.now) }
    {
        let whole = self.folder.path_of(self.alloc, name)?;
        self.folder.allows(self.world, whole)?;
        Ok(())
    }

    /// The file gets its name later. Fails if another one is not complete.
    pub(crate) fn begin(&mut self, name: String) -> Result<NewFile<'c, W::File>, Trouble>
        requires { is_file_name (string_bytes name) ≡ true }
        ensures folder { self.new.folder ≡ self.old.folder }
        ensures naming { self.new.is_naming ≡ self.old.is_naming }
        ensures names { names_of self.new.files.items
            ≡ with_name (is_ok result) (names_of self.old.files.items) (string_bytes name) }
        ensures complete { complete_names self.new.files.items self.new.is_writing
            ≡ complete_names self.old.files.items self.old.is_writing }
        ensures outdated { self.new.outdated ≡ self.old.outdated }
        ensures writing { OnOk result (self.old.is_writing ≡ false × self.new.is_writing ≡ true
            × last_name self.new.files.items ≡ string_bytes name) }
        ensures staged { staged (W.trace self.new.world.now) self.new.files.items self.new.is_writing
            ≡ staged (W.trace self.old.world.now) self.old.files.items self.old.is_writing }
        ensures empty { IsTrue W.knows → IfOk result (λ new.
            writer_contents W.File.contents new.file ≡ Some []) }
    {
        if self.is_writing {
            return Err(Trouble::NoName);
        }
        let whole = self.folder.path_of(self.alloc, name.as_str())?;
        match self.make_folder() {
            Ok(Ok(())) => {}
            Ok(Err(reason)) => return Err(Trouble::CannotCreate(ShownPath(whole), reason)),
            Err(error) => return Err(Trouble::from(error)),
        }
        let begun = self.begun(name, whole)?;
        self.note(&begun)?;
        let file = match self.create(&begun) {
            Ok(file) => BufWriter::new(self.alloc, file)?,
            Err(reason) => return Err(Trouble::CannotCreate(ShownPath(begun.whole), reason)),
        };
        self.add(begun)?;
        Ok(NewFile::new(file, self.code))
    }

    // Does nothing if the folder is created.
    fn make_folder(&mut self) -> Result<io::Result<()>, AllocError>
        ensures folder { self.new.folder ≡ self.old.folder }
        ensures naming { self.new.is_naming ≡ self.old.is_naming }
        ensures files { self.new.files ≡ self.old.files }
        ensures outdated { self.new.outdated ≡ self.old.outdated }
        ensures writing { self.new.is_writing ≡ self.old.is_writing }
        ensures staged { staged (W.trace self.new.world.now) self.old.files.items self.old.is_writing
            ≡ staged (W.trace self.old.world.now) self.old.files.items self.old.is_writing }
    {
        if self.made.is_some() {
            return Ok(Ok(()));
        }
        match self.folder.new_folder(self.world, self.alloc) {
            Ok(Ok(made)) => {
                self.made = Some(made);
                Ok(Ok(()))
            }
            Ok(Err(reason)) => Ok(Err(reason)),
            Err(error) => Err(error),
        }
    }

    fn begun(&self, name: String, whole: String) -> Result<StagedFile, Trouble>
        requires named { is_file_name (string_bytes name) ≡ true }
        requires whole { string_bytes whole
            ≡ self.now.folder.path.now ++ codes "/" ++ string_bytes name }
        ensures begun { IfOk result (λ it. is_begun_in self.now.folder.path.now it ≡ true) }
        ensures numbered { IfOk result (λ it. are_numbered_in (option_map string_bytes self.now.made)
            (self.now.files.items ++ it ∷ []) ≡ true) }
        ensures name { IfOk result (λ it. it.name ≡ name) }
    {
        let Some(made) = &self.made else {
            return Err(Trouble::NoName);
        };
        match staged_in(self.alloc, made.as_str(), self.files.len(), name, whole) {
            Ok(begun) => Ok(begun),
            Err(error) => Err(Trouble::from(error)),
        }
    }

    fn note(&mut self, begun: &StagedFile) -> Result<(), Trouble>
        requires { is_begun_in self.old.folder.path.now begun.now ≡ true }
        ensures folder { self.new.folder ≡ self.old.folder }
        ensures naming { self.new.is_naming ≡ self.old.is_naming }
        ensures made { self.new.made ≡ self.old.made }
        ensures files { self.new.files ≡ self.old.files }
        ensures outdated { self.new.outdated ≡ self.old.outdated }
        ensures writing { self.new.is_writing ≡ self.old.is_writing }
        ensures world { self.new.world ≡ self.old.world }
    {
        let path = String::from_str(self.alloc, begun.new.as_str())?;
        match self.created.push(path) {
            Ok(()) => Ok(()),
            Err(failed) => Err(Trouble::from(failed)),
        }
    }

    fn create(&mut self, begun: &StagedFile) -> io::Result<W::File>
        requires begun { is_begun_in self.old.folder.path.now begun.now ≡ true }
        requires numbered { are_numbered_in (option_map string_bytes self.old.made)
            (self.old.files.items ++ begun.now ∷ []) ≡ true }
        ensures folder { self.new.folder ≡ self.old.folder }
        ensures naming { self.new.is_naming ≡ self.old.is_naming }
        ensures made { self.new.made ≡ self.old.made }
        ensures files { self.new.files ≡ self.old.files }
        ensures outdated { self.new.outdated ≡ self.old.outdated }
        ensures writing { self.new.is_writing ≡ self.old.is_writing }
        ensures staged { staged (W.trace self.new.world.now) self.old.files.items self.old.is_writing
            ≡ staged (W.trace self.old.world.now) self.old.files.items self.old.is_writing }
        ensures empty { IsTrue W.knows →
            IfOk result (λ file. W.File.contents file ≡ Some []) }
    {
        self.world.create_new(begun.new.as_str())
    }

    // The file was created, and is not complete.
    fn add(&mut self, begun: StagedFile) -> Result<(), Trouble>
        requires begun { is_begun_in self.old.folder.path.now begun ≡ true }
        requires numbered { are_numbered_in (option_map string_bytes self.old.made)
            (self.old.files.items ++ begun ∷ []) ≡ true }
        requires writing { self.old.is_writing ≡ false }
        ensures folder { self.new.folder ≡ self.old.folder }
        ensures naming { self.new.is_naming ≡ self.old.is_naming }
        ensures names { names_of self.new.files.items
            ≡ with_name (is_ok result) (names_of self.old.files.items) (string_bytes begun.name) }
        ensures complete { complete_names self.new.files.items self.new.is_writing
            ≡ complete_names self.old.files.items self.old.is_writing }
        ensures outdated { self.new.outdated ≡ self.old.outdated }
        ensures writing { OnOk result (self.new.is_writing ≡ true
            × last_name self.new.files.items ≡ string_bytes begun.name) }
        ensures staged { staged (W.trace self.new.world.now) self.new.files.items self.new.is_writing
            ≡ staged (W.trace self.old.world.now) self.old.files.items self.old.is_writing }
    {
        match self.files.push(begun) {
            Ok(()) => {
                self.is_writing = true;
                Ok(())
            }
            Err(failed) => Err(Trouble::from(failed)),
        }
    }

    /// Returns the length of the file in bytes. Fails if it is complete.
    pub(crate) fn complete(&mut self, file: NewFile<'c, W::File>) -> Result<u64, Trouble>
        ensures size { IfOk result (λ size. size ≡ file.entry.size) }
        ensures folder { self.new.folder ≡ self.old.folder }
        ensures files { self.new.files ≡ self.old.files }
        ensures complete { complete_names self.new.files.items self.new.is_writing
            ≡ with_name (is_ok result) (complete_names self.old.files.items self.old.is_writing)
            (last_name self.old.files.items) }
        ensures outdated { self.new.outdated ≡ self.old.outdated }
        ensures naming { self.new.is_naming ≡ self.old.is_naming }
        ensures writing { OnOk result (self.old.is_writing ≡ true × self.new.is_writing ≡ false) }
        ensures unwritten { OnErr result (self.new.is_writing ≡ self.old.is_writing) }
        ensures staged { IsTrue W.knows → (bytes : List ℕ) →
            writer_contents W.File.contents file.entry.file ≡ Some bytes →
            Completes (is_ok result) (Some bytes)
            (staged (W.trace self.old.world.now) self.old.files.items self.old.is_writing)
            (staged (W.trace self.new.world.now) self.new.files.items self.new.is_writing) }
    {
        if self.is_complete() {
            return Err(Trouble::NoName);
        }
        let (file, size) = match file.into_file() {
            Ok(written) => written,
            Err(error) => return Err(self.unclosed(error)),
        };
        match self.close_last(file) {
            Ok(()) => Ok(size),
            Err(error) => Err(self.unclosed(error)),
        }
    }

    pub(crate) fn is_complete(&self) -> bool
        ensures { result ≡ not self.now.is_writing }
    {
        !self.is_writing
    }

    fn unclosed(&self, error: io::Error) -> Trouble {
        self.code.set(error.raw_os_error());
        self.unwritten().unwrap_or(Trouble::NoName)
    }

    fn close_last(&mut self, file: W::File) -> io::Result<()>
        requires { self.old.is_writing ≡ true }
        ensures closed { ClosesLast W.knows self.old.folder.is_synced
            (last_of self.old.files.items) (W.File.contents file) (answer_of result)
            (W.trace self.old.world.now) (W.trace self.new.world.now) }
        ensures folder { self.new.folder ≡ self.old.folder }
        ensures files { self.new.files ≡ self.old.files }
        ensures outdated { self.new.outdated ≡ self.old.outdated }
        ensures naming { self.new.is_naming ≡ self.old.is_naming }
        ensures complete { complete_names self.new.files.items self.new.is_writing
            ≡ with_name (is_ok result) (complete_names self.old.files.items self.old.is_writing)
            (last_name self.old.files.items) }
        ensures writing { OnOk result (self.new.is_writing ≡ false) }
        ensures unwritten { OnErr result (self.new.is_writing ≡ self.old.is_writing) }
        ensures staged { IsTrue W.knows → Completes (is_ok result) (W.File.contents file)
            (staged (W.trace self.old.world.now) self.old.files.items self.old.is_writing)
            (staged (W.trace self.new.world.now) self.new.files.items self.new.is_writing) }
    {
        let Some(last) = self.files.last() else {
            return Err(io::Error::from(ErrorKind::NotFound));
        };
        let (path, is_synced) = (last.new.as_str(), self.folder.is_synced);
        match self.world.close(path, file, is_synced) {
            Ok(()) => {
                self.is_writing = false;
                Ok(())
            }
            Err(error) => Err(error),
        }
    }

    pub(crate) fn last_name(&self) -> &str
        ensures { result.now ≡ last_name self.now.files.items }
    {
        match self.files.last() {
            Some(last) => last.name.as_str(),
            None => "",
        }
    }

    pub(crate) fn unwritten(&self) -> Option<Trouble>
        ensures { TellsUnwritten self.now.is_writing (last_of self.now.files.items) result }
    {
        let last = self.files.last()?;
        if !self.is_writing {
            return None;
        }
        match String::from_str(self.alloc, last.whole.as_str()) {
            Ok(whole) => Some(Trouble::CannotWrite(ShownPath(whole), self.reason())),
            Err(error) => Some(Trouble::from(error)),
        }
    }

    fn reason(&self) -> io::Error {
        match self.code.get() {
            Some(code) => io::Error::from_raw_os_error(code),
            None => io::Error::from(ErrorKind::WriteZero),
        }
    }
}
