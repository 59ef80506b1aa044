//! Gives files their names, and takes names back.

ghost use Rattle.std.specs.Prelude.{◌≡◌, ℕ, List, None, bytes_eq, length, nat_lt, is_ok, is_some, not, false, true, string_bytes};
ghost use Rattle.std.specs.List.{list_all};
ghost use Rattle.uimg_unpacking.specs.Contents.{Files, files_after};
ghost use Rattle.uimg_world.specs.Deeds.{answer_of};
ghost use Rattle.uimg_unpacking.specs.Naming.{GivesName, Moves, NamesFiles, NamesIt, PutsBackFiles, PutsItBack, UnlessLater};
ghost use Rattle.uimg_unpacking.specs.Places.{Obeys, Terms, is_begun_in, is_file_of, is_temporary_file, terms_of};
ghost use Rattle.uimg_unpacking.specs.Staged.{LeavesOthers, names_of};

use crate::folder::Folder;
use crate::staged_file::StagedFile;
use crate::trouble::{ShownPath, Trouble};
use std::alloc::Global;
use std::io;
use std::io::ErrorKind;
use uimg_world::{Kind, World};

/// Moves a file to another path. Unless it replaces an existing file, makes a hard link first,
/// which fails if something exists there. On a file system without links it checks that itself.
pub fn name_file<W: World>(world: &mut W, path: &str, whole: &str, replaces: bool) -> io::Result<()>
    ensures { GivesName path.now whole.now replaces (answer_of result)
        (W.trace world.old) (W.trace world.new) }
{
    if replaces {
        return world.rename(path, whole);
    }
    match world.hard_link(path, whole) {
        // The file has its name, whether or not it loses the first one.
        Ok(()) => {
            let _ = world.remove_file(path);
            Ok(())
        }
        Err(error) => match error.kind() {
            ErrorKind::AlreadyExists => Err(error),
            _ => match world.kind_at(whole) {
                Kind::Nothing => world.rename(path, whole),
                Kind::File => Err(error),
                Kind::Folder => Err(error),
                Kind::Link => Err(error),
            },
        },
    }
}

/// Gives a file another name too. On a file system without links it loses the first one.
pub(crate) fn keep_as<W: World>(world: &mut W, whole: &str, old: &str) -> io::Result<()>
    ensures moves { Moves whole.now old.now (is_ok result) (W.trace world.old) (W.trace world.new) }
    ensures within { (terms : Terms) → terms.1 ≡ true → is_file_of terms.0 whole.now ≡ true →
        is_temporary_file terms.0 old.now ≡ true → Obeys terms true (W.trace world.old) (W.trace world.new) }
{
    match world.hard_link(whole, old) {
        Ok(()) => Ok(()),
        Err(_) => world.rename(whole, old),
    }
}

/// Puts back what was kept under another name. If there is nothing, removes what got the name.
/// Returns whether that is done.
fn put_back<W: World>(world: &mut W, its: &StagedFile, has_name: bool) -> bool
    ensures told { (terms : Terms) → is_begun_in terms.0 its.now ≡ true →
        PutsItBack its.now has_name result (W.trace world.old) (W.trace world.new) }
    ensures within { (terms : Terms) → is_begun_in terms.0 its.now ≡ true →
        Obeys terms true (W.trace world.old) (W.trace world.new) }
{
    let (whole, old) = (its.whole.as_str(), its.old.as_str());
    if !world.kind_at(old).is_something() {
        return !has_name || world.remove_file(whole).is_ok();
    }
    match world.rename(old, whole) {
        Ok(()) => {
            // Two links to one file are left by a rename.
            let _ = world.remove_file(old);
            true
        }
        Err(_) => false,
    }
}

/// Stops at a file that cannot get its name. Returns how many have it, and why the next one has
/// not: none if all have it.
pub(crate) fn name_files<W: World>(
    world: &mut W,
    alloc: Global,
    folder: &Folder<'_>,
    files: &[StagedFile],
) -> (usize, Option<Trouble>)
    requires { list_all (is_begun_in folder.now.path.now) files.now ≡ true }
    ensures all { result.1 ≡ None → result.0 ≡ length files.now }
    ensures told { NamesFiles files.now result.0 (not (is_some result.1))
        (W.trace world.old) (W.trace world.new) }
    ensures within { Obeys (terms_of folder.now) true (W.trace world.old) (W.trace world.new) }
{
    let mut named = 0;
    for its in files {
        if let Err(trouble) = name(world, alloc, folder, its) {
            return (named, Some(trouble));
        }
        named += 1;
    }
    (named, None)
}

/// Puts back what files up to a number were to replace. Returns whether all is back.
pub(crate) fn put_back_all<W: World>(
    world: &mut W,
    folder: &Folder<'_>,
    files: &[StagedFile],
    number: usize,
) -> bool
    requires { list_all (is_begun_in folder.now.path.now) files.now ≡ true }
    ensures told { PutsBackFiles files.now number result (W.trace world.old) (W.trace world.new) }
    ensures within { Obeys (terms_of folder.now) true (W.trace world.old) (W.trace world.new) }
{
    let mut is_back = true;
    for (before, its) in files.iter().enumerate() {
        let back = put_back_before(world, its, before, number);
        is_back = is_back && back;
    }
    is_back
}

// Puts back what a file was to replace, unless its number is greater than another. Returns whether
// it is back.
fn put_back_before<W: World>(world: &mut W, its: &StagedFile, before: usize, number: usize) -> bool
    ensures told { (terms : Terms) → is_begun_in terms.0 its.now ≡ true →
        UnlessLater (nat_lt number before) its.now (nat_lt before number) result
        (W.trace world.old) (W.trace world.new) }
    ensures within { (terms : Terms) → is_begun_in terms.0 its.now ≡ true →
        Obeys terms true (W.trace world.old) (W.trace world.new) }
{
    if before > number {
        return true;
    }
    put_back(world, its, before < number)
}

/// Removes what files have replaced.
pub(crate) fn forget_old<W: World>(world: &mut W, folder: &Folder<'_>, files: &[StagedFile])
    requires { list_all (is_begun_in folder.now.path.now) files.now ≡ true }
    ensures within { Obeys (terms_of folder.now) false (W.trace world.old) (W.trace world.new) }
{
    for its in files {
        let _ = world.remove_file(its.old.as_str());
    }
}

// What the file replaces is kept under another name.
fn name<W: World>(
    world: &mut W,
    alloc: Global,
    folder: &Folder<'_>,
    its: &StagedFile,
) -> Result<(), Trouble>
    requires { is_begun_in folder.now.path.now its.now ≡ true }
    ensures told { NamesIt its.now (is_ok result) (W.trace world.old) (W.trace world.new) }
    ensures within { Obeys (terms_of folder.now) true (W.trace world.old) (W.trace world.new) }
{
    let whole = String::from_str(alloc, its.whole.as_str())?;
    let whole = match folder.allows(world, whole) {
        Ok(whole) => whole,
        Err(trouble) => return Err(trouble),
    };
    if folder.is_forced {
        let named = name_over(world, its);
        return created(named, whole);
    }
    let named = name_file(world, its.new.as_str(), its.whole.as_str(), false);
    created(named, whole)
}

// Something may exist at the name.
fn name_over<W: World>(world: &mut W, its: &StagedFile) -> io::Result<()>
    ensures told { (terms : Terms) → is_begun_in terms.0 its.now ≡ true →
        NamesIt its.now (is_ok result) (W.trace world.old) (W.trace world.new) }
    ensures within { (terms : Terms) → is_begun_in terms.0 its.now ≡ true → terms.1 ≡ true →
        Obeys terms true (W.trace world.old) (W.trace world.new) }
{
    let (new, old, whole) = (its.new.as_str(), its.old.as_str(), its.whole.as_str());
    if !world.kind_at(whole).is_something() {
        return name_file(world, new, whole, false);
    }
    match keep_as(world, whole, old) {
        Ok(()) => name_file(world, new, whole, true),
        Err(reason) => Err(reason),
    }
}

fn created(named: io::Result<()>, whole: String) -> Result<(), Trouble>
    ensures { is_ok result ≡ is_ok named }
{
    match named {
        Ok(()) => Ok(()),
        Err(reason) => Err(Trouble::CannotCreate(ShownPath(whole), reason)),
    }
}

pub(crate) fn remove_all_old<W: World>(
    world: &mut W,
    alloc: Global,
    folder: &Folder<'_>,
    files: &[StagedFile],
) -> Result<(), Trouble>
    requires { list_all (is_begun_in folder.now.path.now) files.now ≡ true }
    ensures within { Obeys (terms_of folder.now) true (W.trace world.old) (W.trace world.new) }
    ensures leaves { LeavesOthers folder.now.path.now (names_of files.now)
        (W.trace world.old) (W.trace world.new) }
{
    for its in files {
        remove_old(world, alloc, folder, its)?;
    }
    Ok(())
}

fn remove_old<W: World>(
    world: &mut W,
    alloc: Global,
    folder: &Folder<'_>,
    its: &StagedFile,
) -> Result<(), Trouble>
    requires { is_begun_in folder.now.path.now its.now ≡ true }
    ensures within { Obeys (terms_of folder.now) true (W.trace world.old) (W.trace world.new) }
    ensures leaves { (start : Files) (path : List ℕ) → bytes_eq (string_bytes its.now.whole) path ≡ false →
        files_after start (W.trace world.new) path ≡ files_after start (W.trace world.old) path }
{
    if !folder.is_forced {
        return Ok(());
    }
    if !world.kind_at(its.whole.as_str()).is_something() {
        return Ok(());
    }
    let Err(reason) = world.remove_file(its.whole.as_str()) else {
        return Ok(());
    };
    let whole = String::from_str(alloc, its.whole.as_str())?;
    Err(Trouble::CannotRemove(ShownPath(whole), reason))
}
