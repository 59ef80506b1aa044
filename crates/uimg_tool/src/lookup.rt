//! Files that are looked up in folders.

ghost use Rattle.std.specs.Prelude.{◌≡◌, ◌||◌, ◌&&◌, ◌==◌, length, is_err, true, false, IfOk, IsTrue};
ghost use Rattle.std.specs.Path.{path_buf_bytes, path_join};
ghost use Rattle.uimg_base.specs.{Device.IsFresh, Named.{Opens, SameFiles}};
ghost use Rattle.uimg_tool.specs.LeavingOut.{NotesMet, SameFolders, leads_to, seen_in};
ghost use Rattle.uimg_world.specs.FileIds.{is_image};

use crate::source_names::{copied, folder_before, folder_of, own_name};
use std::alloc::Global;
use std::path::{Path, PathBuf};
use uimg_base::{Source, SourceFault};
use uimg_world::{FileId, Reader};

/// A folder, and other folders for the files that it lacks. The file that is left out is found in
/// none of them: where it comes first, no other is opened.
///
/// A name may have the folder of the file that names it, then `/./`, and then what that file calls
/// it. As dtc does, the others are searched only for the last part. If a file that was found in one
/// of them may name this one, they are searched for the whole name too.
#[derive(Drop)]
pub(crate) struct Folders<'a, R: Reader> {
    pub(crate) reader: R,
    pub(crate) alloc: Global,
    pub(crate) folder: &'a str,
    pub(crate) others: &'a [&'a str],
    pub(crate) left_out: &'a str,
    /// The file that is left out was requested, and so refused.
    pub(crate) has_met_left_out: bool,
    // The folders, by their names, of the files that were found in the others.
    searched: Vec<Vec<u8>>,
    /// Whether a file was in several folders that another may name which was found in one of the
    /// others. If that one names it, dtc looks in its folder first.
    pub(crate) is_ambiguous: bool,
}

impl<'a, R: Reader> Folders<'a, R> {
    /// The files of `folder` come first, then those of the others in order. An open of the file at
    /// the path that is left out is refused.
    pub(crate) fn new(
        reader: R,
        alloc: Global,
        folder: &'a str,
        others: &'a [&'a str],
        left_out: &'a str,
    ) -> Folders<'a, R>
        ensures reader { result.reader ≡ reader }
        ensures folder { result.folder ≡ folder.entry }
        ensures others { result.others ≡ others.entry }
        ensures left_out { result.left_out ≡ left_out.entry }
        ensures unmet { result.has_met_left_out ≡ false }
    {
        Folders {
            reader,
            alloc,
            folder,
            others,
            left_out,
            has_met_left_out: false,
            searched: Vec::new(alloc),
            is_ambiguous: false,
        }
    }

    /// Opens a file. A name that begins with `/` is a path of its own; any other name is a path in
    /// a folder. Returns `SourceFault` if the name is not UTF-8, if memory for the path was refused,
    /// if the file is left out, or if no folder has it.
    #[tactic(auto, using(crate::proofs::FolderLaws::is_alone, crate::proofs::FolderLaws::is_honest, crate::proofs::FolderLaws::opens_here, crate::proofs::FolderLaws::opens_there))]
    pub(crate) fn open(&mut self, name: &[u8]) -> Result<R::Opened, SourceFault>
        ensures same { SameFolders R.map R.identities self.old self.new }
        ensures met { IsTrue (length self.old.others.now == 0 && (R.map self.old.reader).honest) →
            NotesMet (leads_to (R.identities self.old.reader) self.old.folder.now
            self.old.left_out.now name.now) (is_err result) self.old.has_met_left_out
            self.new.has_met_left_out }
        ensures refused { IsTrue (length self.old.others.now == 0
            && (R.map self.old.reader).honest) → leads_to (R.identities self.old.reader)
            self.old.folder.now self.old.left_out.now name.now ≡ true → is_err result ≡ true }
        ensures opened { IfOk result (λ source. Opens (seen_in self.old.folder.now
            (length self.old.others.now) (R.map self.old.reader)) name.now
            (R.Opened.device source)) }
    {
        if self.others.is_empty() {
            self.open_here(name)
        } else {
            self.search(name)
        }
    }

    // Not inlined, as the next ones: only one of them is on the stack.
    #[inline(never)]
    fn open_here(&mut self, name: &[u8]) -> Result<R::Opened, SourceFault>
        ensures same { SameFolders R.map R.identities self.old self.new }
        ensures met { IsTrue (R.map self.old.reader).honest → NotesMet
            (leads_to (R.identities self.old.reader) self.old.folder.now self.old.left_out.now
            name.now) (is_err result) self.old.has_met_left_out self.new.has_met_left_out }
        ensures refused { IsTrue (R.map self.old.reader).honest →
            leads_to (R.identities self.old.reader) self.old.folder.now self.old.left_out.now
            name.now ≡ true → is_err result ≡ true }
        ensures opened { IfOk result (λ source. Opens (R.map self.old.reader)
            (path_join self.old.folder.now name.now) (R.Opened.device source)) }
    {
        let met = &mut self.has_met_left_out;
        open_in(
            &mut self.reader,
            self.alloc,
            self.folder,
            name,
            self.left_out,
            met,
        )
    }

    #[inline(never)]
    fn search(&mut self, name: &[u8]) -> Result<R::Opened, SourceFault>
        ensures same { SameFolders R.map R.identities self.old self.new }
        ensures fresh { IfOk result (λ source. IsFresh (R.Opened.device source)) }
    {
        let own = own_name(name);
        let is_by_searched = self.has_searched(folder_before(name, own));
        if is_by_searched
            && is_in_several(
                &mut self.reader,
                self.alloc,
                self.folder,
                self.others,
                name,
                own,
            )
        {
            self.is_ambiguous = true;
        }
        match self.open_here(name) {
            Ok(source) => Ok(source),
            Err(_) if self.has_met_left_out => Err(SourceFault),
            Err(_) => self.open_there(name, own, is_by_searched),
        }
    }

    // A file of this folder was found in one of the others.
    fn has_searched(&self, folder: &[u8]) -> bool {
        self.searched
            .as_slice()
            .iter()
            .any(|it| it.as_slice() == folder)
    }

    // Opens a file in one of the others, by what the source calls it. If a file that was found
    // there may name it, opens it by its whole name.
    #[inline(never)]
    fn open_there(
        &mut self,
        name: &[u8],
        own: &[u8],
        is_by_searched: bool,
    ) -> Result<R::Opened, SourceFault>
        ensures same { SameFolders R.map R.identities self.old self.new }
        ensures fresh { IfOk result (λ source. IsFresh (R.Opened.device source)) }
    {
        let found = match self.open_in_others(own) {
            Err(_) if is_by_searched => self.open_in_others(name),
            found => found,
        }?;
        let folder = folder_of(name);
        if !self.has_searched(folder) {
            let Some(folder) = copied(self.alloc, folder) else {
                return Err(SourceFault);
            };
            if self.searched.push(folder).is_err() {
                return Err(SourceFault);
            }
        }
        Ok(found)
    }

    fn open_in_others(&mut self, name: &[u8]) -> Result<R::Opened, SourceFault>
        ensures same { SameFolders R.map R.identities self.old self.new }
        ensures fresh { IfOk result (λ source. IsFresh (R.Opened.device source)) }
    {
        let met = &mut self.has_met_left_out;
        open_first(
            &mut self.reader,
            self.alloc,
            self.others,
            name,
            self.left_out,
            met,
        )
    }
}

// Opens the file, unless it is left out. Notes whether it is, if there is a path of this name and
// memory for it.
fn open_in<R: Reader>(
    reader: &mut R,
    alloc: Global,
    folder: &str,
    name: &[u8],
    left_out: &str,
    has_met_left_out: &mut bool,
) -> Result<R::Opened, SourceFault>
    ensures same { SameFiles (R.map reader.old) (R.map reader.new) }
    ensures kept { R.identities reader.new ≡ R.identities reader.old }
    ensures met { IsTrue (R.map reader.old).honest → NotesMet
        (leads_to (R.identities reader.old) folder.now left_out.now name.now)
        (is_err result) has_met_left_out.old has_met_left_out.new }
    ensures refused { IsTrue (R.map reader.old).honest →
        leads_to (R.identities reader.old) folder.now left_out.now name.now ≡ true →
        is_err result ≡ true }
    ensures opened { IfOk result (λ opened.
        Opens (R.map reader.old) (path_join folder.now name.now) (R.Opened.device opened)) }
{
    match path_in(alloc, folder, name) {
        Ok(path) => open_other(reader, path.as_str(), left_out, has_met_left_out),
        Err(fault) => Err(fault),
    }
}

// Notes whether the file is left out. The paths may be links.
fn open_other<R: Reader>(
    reader: &mut R,
    path: &str,
    left_out: &str,
    has_met_left_out: &mut bool,
) -> Result<R::Opened, SourceFault>
    ensures same { SameFiles (R.map reader.old) (R.map reader.new) }
    ensures kept { R.identities reader.new ≡ R.identities reader.old }
    ensures met { IsTrue (R.map reader.old).honest → has_met_left_out.new
        ≡ (has_met_left_out.old || is_image (R.identities reader.old path.now)
        (R.identities reader.old left_out.now)) }
    ensures refused { IsTrue (R.map reader.old).honest → is_image (R.identities reader.old path.now)
        (R.identities reader.old left_out.now) ≡ true → is_err result ≡ true }
    ensures opened { IfOk result
        (λ opened. Opens (R.map reader.old) path.now (R.Opened.device opened)) }
{
    let found = reader.file_at(path);
    if FileId::is_image(found, reader.file_at(left_out)) {
        *has_met_left_out = true;
        return Err(SourceFault);
    }
    reader.open(path)
}

// The path is the name itself if it begins with `/`.
fn path_in(alloc: Global, folder: &str, name: &[u8]) -> Result<PathBuf, SourceFault>
    ensures { IfOk result (λ path. path_buf_bytes path ≡ path_join folder.now name.now) }
{
    let Ok(name) = str::from_utf8(name) else {
        return Err(SourceFault);
    };
    match Path::new(folder).join(alloc, name) {
        Ok(path) => Ok(path),
        Err(_) => Err(SourceFault),
    }
}

fn open_first<R: Reader>(
    reader: &mut R,
    alloc: Global,
    folders: &[&str],
    name: &[u8],
    left_out: &str,
    has_met_left_out: &mut bool,
) -> Result<R::Opened, SourceFault>
    ensures same { SameFiles (R.map reader.old) (R.map reader.new) }
    ensures kept { R.identities reader.new ≡ R.identities reader.old }
    ensures fresh { IfOk result (λ source. IsFresh (R.Opened.device source)) }
{
    for folder in folders {
        match open_in(reader, alloc, folder, name, left_out, has_met_left_out) {
            Ok(source) => return Ok(source),
            Err(_) if *has_met_left_out => return Err(SourceFault),
            Err(_) => {}
        }
    }
    Err(SourceFault)
}

// A file that is met again, by another path of its folder, is not counted twice.
#[inline(never)]
fn is_in_several<R: Reader>(
    reader: &mut R,
    alloc: Global,
    folder: &str,
    others: &[&str],
    name: &[u8],
    own: &[u8],
) -> bool
    ensures same { SameFiles (R.map reader.old) (R.map reader.new) }
    ensures kept { R.identities reader.new ≡ R.identities reader.old }
{
    let mut first = file_in(reader, alloc, folder, name);
    for other in others {
        for name in [name, own] {
            let found = file_in(reader, alloc, other, name);
            if first.is_none() {
                first = found;
            } else if found.is_some() && found != first {
                return true;
            }
        }
    }
    false
}

// Returns `None` if no file there can be opened.
fn file_in<R: Reader>(reader: &mut R, alloc: Global, folder: &str, name: &[u8]) -> Option<FileId>
    ensures same { SameFiles (R.map reader.old) (R.map reader.new) }
    ensures kept { R.identities reader.new ≡ R.identities reader.old }
{
    let path = path_in(alloc, folder, name).ok()?;
    reader.open(path.as_str()).ok()?;
    reader.file_at(path.as_str())
}
