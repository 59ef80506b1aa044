//! Removes files that get no names.

ghost use Rattle.std.specs.Prelude.{◌≡◌, ◌++◌, ◌∷◌, [], List, Bool, true, false, IfOk, IfSome, MatchOption, is_none, string_bytes};
ghost use Rattle.std.specs.List.{list_all};
ghost use Rattle.std.specs.Option.{option_map, option_map_or};
ghost use Rattle.uimg_unpacking.specs.Leaving.{KeepsNone, are_undone};
ghost use Rattle.uimg_unpacking.specs.Places.{is_temporary_folder, is_temporary_file, is_begun_in, Obeys, terms_of};
ghost use Rattle.uimg_unpacking.specs.Staged.{Drops, complete_names, names_of, staged};
ghost use Rattle.uimg_world.specs.Deeds.{Deed, answer_of};
ghost use Rattle.uimg_world.specs.declared.call.Answer.{Answer};

use crate::folder::Folder;
use crate::staged_file::StagedFile;
use crate::staging::Staging;
use crate::task::Task;
use crate::trouble::{ShownPath, Trouble};
use std::io;
use uimg_world::World;

impl<'w, 'a, 'c, W: World, M: Task> Staging<'w, 'a, 'c, W, M> {
    /// Removes the last file, which gets no name. If it is outdated, what it was to replace is removed
    /// with the names.
    pub(crate) fn refuse_last(&mut self, is_outdated: bool) -> Result<(), Trouble>
        requires { self.old.is_writing ≡ true }
        ensures folder { self.new.folder ≡ self.old.folder }
        ensures names { Drops (names_of self.old.files.items) (names_of self.new.files.items)
            (names_of self.old.outdated.items) (names_of self.new.outdated.items) }
        ensures staged { staged (W.trace self.new.world.now) self.new.files.items self.new.is_writing
            ≡ staged (W.trace self.old.world.now) self.old.files.items self.old.is_writing }
        ensures naming { self.new.is_naming ≡ self.old.is_naming }
        ensures writing { self.new.is_writing ≡ false }
        ensures complete { complete_names self.new.files.items self.new.is_writing
            ≡ complete_names self.old.files.items self.old.is_writing }
    {
        let refused = self.drop_last()?;
        if !is_outdated {
            return Ok(());
        }
        self.outdated.push(refused)?;
        Ok(())
    }

    pub(super) fn drop_last(&mut self) -> Result<StagedFile, Trouble>
        ensures begun { IfOk result (λ last. is_begun_in self.old.folder.path.now last ≡ true) }
        ensures folder { self.new.folder ≡ self.old.folder }
        ensures last { IfOk result (λ last. self.old.files.items ≡ self.new.files.items ++ last ∷ []
            × W.trace self.new.world.now
            ≡ Deed.Removes (string_bytes last.new) Answer.Done ∷ W.trace self.old.world.now) }
        ensures within { Obeys (terms_of self.old.folder) false
            (W.trace self.old.world.now) (W.trace self.new.world.now) }
        ensures made { self.new.made ≡ self.old.made }
        ensures none { KeepsNone (option_map string_bytes self.old.made) (W.trace self.old.world.now)
            → KeepsNone (option_map string_bytes self.old.made) (W.trace self.new.world.now) }
        ensures outdated { self.new.outdated ≡ self.old.outdated }
        ensures naming { self.new.is_naming ≡ self.old.is_naming }
        ensures writing { self.new.is_writing ≡ false }
        ensures names { Drops (names_of self.old.files.items) (names_of self.new.files.items)
            (names_of self.old.outdated.items) (names_of self.new.outdated.items) }
        ensures staged { self.old.is_writing ≡ true →
            staged (W.trace self.new.world.now) self.new.files.items self.new.is_writing
            ≡ staged (W.trace self.old.world.now) self.old.files.items true }
        ensures complete { self.old.is_writing ≡ true →
            complete_names self.new.files.items self.new.is_writing
            ≡ complete_names self.old.files.items true }
    {
        let Some(last) = self.pop() else {
            return Err(Trouble::NoName);
        };
        match self.remove(&last) {
            Ok(()) => Ok(last),
            Err(reason) => Err(Trouble::CannotRemove(ShownPath(last.new), reason)),
        }
    }

    fn pop(&mut self) -> Option<StagedFile>
        ensures begun { IfSome result (λ last. is_begun_in self.old.folder.path.now last ≡ true) }
        ensures folder { self.new.folder ≡ self.old.folder }
        ensures last { MatchOption result
            ((self.old.files.items ≡ []) × (self.new.files.items ≡ []))
            (λ last. self.old.files.items ≡ self.new.files.items ++ last ∷ []) }
        ensures made { self.new.made ≡ self.old.made }
        ensures world { self.new.world ≡ self.old.world }
        ensures outdated { self.new.outdated ≡ self.old.outdated }
        ensures naming { self.new.is_naming ≡ self.old.is_naming }
        ensures writing { self.new.is_writing ≡ false }
    {
        self.is_writing = false;
        self.files.pop()
    }

    fn remove(&mut self, begun: &StagedFile) -> io::Result<()>
        requires { is_begun_in self.old.folder.path.now begun.now ≡ true }
        ensures folder { self.new.folder ≡ self.old.folder }
        ensures made { self.new.made ≡ self.old.made }
        ensures files { self.new.files ≡ self.old.files }
        ensures outdated { self.new.outdated ≡ self.old.outdated }
        ensures writing { self.new.is_writing ≡ self.old.is_writing }
        ensures removed { W.trace self.new.world.now
            ≡ Deed.Removes (string_bytes begun.now.new) (answer_of result) ∷ W.trace self.old.world.now }
        ensures naming { self.new.is_naming ≡ self.old.is_naming }
    {
        self.world.remove_file(begun.new.as_str())
    }

    /// Removes the files that have no name, and their folder. Returns the world, and the trouble with
    /// the path of the folder if old files are left there.
    pub(crate) fn end(self, trouble: Option<Trouble>) -> (&'w mut W, Option<Trouble>)
        ensures named { result.0.ghost_name ≡ M.name }
        ensures obeys { Obeys M.terms self.entry.is_naming M.before (W.trace result.0.now) }
        ensures quiet { Obeys M.terms false (W.trace self.entry.world.now) (W.trace result.0.now) }
        ensures none { is_none result.1 ≡ is_none trouble }
        ensures undone { are_undone result.1 ≡ are_undone trouble }
    {
        let Staging {
            world,
            task: _task,
            alloc: _alloc,
            folder,
            made,
            files: _files,
            created,
            outdated: _outdated,
            is_writing: _is_writing,
            is_naming: _is_naming,
            code: _code,
        } = self;
        clear(world, &folder, &made, created.as_slice());
        (world, with_path(trouble, made))
    }
}

// If old files are left, the trouble has no path. The folder has them.
fn with_path(trouble: Option<Trouble>, made: Option<String>) -> Option<Trouble>
    ensures none { is_none result ≡ is_none trouble }
    ensures undone { are_undone result ≡ are_undone trouble }
{
    match (trouble, made) {
        (Some(Trouble::NotPutBack(_)), Some(made)) => Some(Trouble::NotPutBack(ShownPath(made))),
        (trouble, _) => trouble,
    }
}

// Removes these temporary files, and then the folder that was made.
fn clear<W: World>(world: &mut W, folder: &Folder<'_>, made: &Option<String>, created: &[String])
    requires made { option_map_or (λ path. is_temporary_folder folder.now.path.now
        (string_bytes path)) made.now true ≡ true }
    requires created { list_all (λ path. is_temporary_file folder.now.path.now
        (string_bytes path)) created.now ≡ true }
    ensures { (is_naming : Bool) → Obeys (terms_of folder.now) is_naming
        (W.trace world.old) (W.trace world.new) }
{
    for path in created {
        let _ = world.remove_file(path.as_str());
    }
    let Some(made) = made else {
        return;
    };
    let _ = world.remove_dir(made.as_str());
}
