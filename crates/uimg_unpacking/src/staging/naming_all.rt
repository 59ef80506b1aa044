//! Gives all files their names, or none.

ghost use Rattle.std.specs.Prelude.{◌≡◌, None, length, is_some, not, string_bytes, false, true};
ghost use Rattle.std.specs.Option.{option_map};
ghost use Rattle.uimg_unpacking.specs.Contents.{Files, IsTrueTo, files_after};
ghost use Rattle.uimg_unpacking.specs.Leaving.{KeepsNone, NamesAll, is_undone};
ghost use Rattle.uimg_unpacking.specs.Naming.{NamesFiles, PutsBackFiles};
ghost use Rattle.uimg_unpacking.specs.Staged.{LeavesOthers, complete_names, held_new, names_of, staged};
ghost use Rattle.uimg_unpacking.specs.Troubles.{trouble_in};

use crate::naming::{forget_old, name_files, put_back_all, remove_all_old};
use crate::staging::Staging;
use crate::task::Task;
use crate::trouble::{ShownPath, Trouble};
use uimg_world::World;

impl<'w, 'a, 'c, W: World, M: Task> Staging<'w, 'a, 'c, W, M> {
    fn begin_naming(&mut self)
        ensures files { self.new.files ≡ self.old.files }
        ensures writing { self.new.is_writing ≡ self.old.is_writing }
        ensures world { self.new.world ≡ self.old.world }
        ensures made { self.new.made ≡ self.old.made }
        ensures folder { self.new.folder ≡ self.old.folder }
        ensures outdated { self.new.outdated ≡ self.old.outdated }
        ensures naming { self.new.is_naming ≡ true }
    {
        self.is_naming = true;
    }

    /// If one cannot get its name, or the names cannot be written to the disk, none gets one, and
    /// what they were to replace is restored.
    pub(crate) fn name_all(&mut self) -> Result<(), Trouble>
        requires { self.old.is_naming ≡ false }
        ensures named { NamesAll self.old.folder.path.now
            (complete_names self.old.files.items self.old.is_writing)
            (staged (W.trace self.old.world.now) self.old.files.items self.old.is_writing)
            (trouble_in result) (W.trace self.old.world.now) (W.trace self.new.world.now) }
        ensures complete { complete_names self.new.files.items self.new.is_writing
            ≡ complete_names self.old.files.items self.old.is_writing }
        ensures folder { self.new.folder ≡ self.old.folder }
        ensures outdated { self.new.outdated ≡ self.old.outdated }
        ensures naming { self.new.is_naming ≡ true }
    {
        self.begin_naming();
        if !self.is_writing {
            return self.name_complete();
        }
        if let Err(trouble) = self.drop_last() {
            return Err(trouble);
        }
        self.name_complete()
    }

    // The files are complete.
    fn name_complete(&mut self) -> Result<(), Trouble>
        requires naming { self.old.is_naming ≡ true }
        requires none { KeepsNone (option_map string_bytes self.old.made) (W.trace self.old.world.now) }
        ensures named { NamesAll self.old.folder.path.now (names_of self.old.files.items)
            (held_new (W.trace self.old.world.now) self.old.files.items) (trouble_in result)
            (W.trace self.old.world.now) (W.trace self.new.world.now) }
        ensures files { self.new.files ≡ self.old.files }
        ensures writing { self.new.is_writing ≡ self.old.is_writing }
        ensures folder { self.new.folder ≡ self.old.folder }
        ensures outdated { self.new.outdated ≡ self.old.outdated }
        ensures naming { self.new.is_naming ≡ self.old.is_naming }
    {
        if let (named, Some(trouble)) = self.name_each() {
            return Err(self.taken_back(named, trouble));
        }
        if let Err(trouble) = self.sync() {
            let all = self.files.len();
            return Err(self.taken_back(all, trouble));
        }
        forget_old(self.world, &self.folder, self.files.as_slice());
        Ok(())
    }

    /// Removes what refused files were to replace.
    pub(crate) fn remove_outdated(&mut self) -> Result<(), Trouble>
        requires { self.old.is_naming ≡ true }
        ensures folder { self.new.folder ≡ self.old.folder }
        ensures naming { self.new.is_naming ≡ self.old.is_naming }
        ensures leaves { LeavesOthers self.old.folder.path.now (names_of self.old.outdated.items)
            (W.trace self.old.world.now) (W.trace self.new.world.now) }
    {
        let outdated = self.outdated.as_slice();
        remove_all_old(self.world, self.alloc, &self.folder, outdated)?;
        if self.outdated.is_empty() {
            return Ok(());
        }
        self.sync()
    }

    // Waits until the names in the folder are on the disk, if that is requested and there are any.
    fn sync(&mut self) -> Result<(), Trouble>
        ensures same { (start : Files) → files_after start (W.trace self.new.world.now)
            ≡ files_after start (W.trace self.old.world.now) }
        ensures earlier { (start : Files) → IsTrueTo start (W.trace self.new.world.now) →
            IsTrueTo start (W.trace self.old.world.now) }
        ensures made { self.new.made ≡ self.old.made }
        ensures files { self.new.files ≡ self.old.files }
        ensures writing { self.new.is_writing ≡ self.old.is_writing }
        ensures folder { self.new.folder ≡ self.old.folder }
        ensures outdated { self.new.outdated ≡ self.old.outdated }
        ensures naming { self.new.is_naming ≡ self.old.is_naming }
    {
        if !self.folder.is_synced || self.files.is_empty() {
            return Ok(());
        }
        match self.world.sync_dir(self.folder.path) {
            Ok(()) => Ok(()),
            Err(reason) => {
                let path = String::from_str(self.alloc, self.folder.path)?;
                Err(Trouble::CannotSync(ShownPath(path), reason))
            }
        }
    }

    // Stops at a file that cannot get its name. Returns how many have it, and why the next one has
    // not: none if all have it.
    fn name_each(&mut self) -> (usize, Option<Trouble>)
        requires { self.old.is_naming ≡ true }
        ensures all { result.1 ≡ None → result.0 ≡ length self.new.files.items }
        ensures told { NamesFiles self.old.files.items result.0 (not (is_some result.1))
            (W.trace self.old.world.now) (W.trace self.new.world.now) }
        ensures made { self.new.made ≡ self.old.made }
        ensures files { self.new.files ≡ self.old.files }
        ensures writing { self.new.is_writing ≡ self.old.is_writing }
        ensures folder { self.new.folder ≡ self.old.folder }
        ensures outdated { self.new.outdated ≡ self.old.outdated }
        ensures naming { self.new.is_naming ≡ self.old.is_naming }
    {
        name_files(self.world, self.alloc, &self.folder, self.files.as_slice())
    }

    // Takes the names of the files before a number away, and puts back what they, and the file of
    // this number, were to replace. Returns the trouble to report: this one, or that old files are
    // not in their place, still without the path of their folder.
    fn taken_back(&mut self, number: usize, trouble: Trouble) -> Trouble
        requires { self.old.is_naming ≡ true }
        ensures told { is_undone result ≡ true → PutsBackFiles self.old.files.items number true
            (W.trace self.old.world.now) (W.trace self.new.world.now) }
        ensures files { self.new.files ≡ self.old.files }
        ensures writing { self.new.is_writing ≡ self.old.is_writing }
        ensures folder { self.new.folder ≡ self.old.folder }
        ensures outdated { self.new.outdated ≡ self.old.outdated }
        ensures naming { self.new.is_naming ≡ self.old.is_naming }
    {
        let is_back = put_back_all(self.world, &self.folder, self.files.as_slice(), number);
        if is_back {
            return trouble;
        }
        Trouble::NotPutBack(ShownPath(String::new(self.alloc)))
    }
}
