//! Files and folders that are made in memory.

ghost use Rattle.std.specs.Prelude.{◌≡◌, List, ℕ, None, Some, OnOk, OnErr, IfOk, IfErr};
ghost use Rattle.std.specs.Option.{option_map};
ghost use Rattle.uimg_world.specs.Made.{MadeBut, MovesMade, bytes_made, kind_made, made_at};

use crate::kind::Kind;
use std::alloc::Global;
use std::collections::BTreeMap;
use std::io;
use std::io::ErrorKind;

/// Files and folders by their paths. The folders above a path need not exist.
#[derive(Drop)]
pub struct NewFiles {
    alloc: Global,
    // The bytes of a file; a folder has none.
    made: BTreeMap<String, Option<Vec<u8>>>,
}

impl NewFiles {
    /// Returns that nothing was made.
    pub fn new(alloc: Global) -> NewFiles
        ensures { (path : List ℕ) → made_at result.made path ≡ None }
    {
        NewFiles {
            alloc,
            made: BTreeMap::new(alloc),
        }
    }

    /// Returns the bytes of the file at a path, if there is one.
    pub fn bytes_at(&self, path: &str) -> Option<&[u8]>
        ensures { option_map (λ bytes. bytes.now) result ≡ bytes_made (made_at self.now.made path.now) }
    {
        match self.made.get(path) {
            Some(Some(bytes)) => Some(bytes.as_slice()),
            Some(None) => None,
            None => None,
        }
    }

    pub(crate) fn kind_at(&self, path: &str) -> Kind
        ensures { result ≡ kind_made (made_at self.now.made path.now) }
    {
        match self.made.get(path) {
            Some(Some(_)) => Kind::File,
            Some(None) => Kind::Folder,
            None => Kind::Nothing,
        }
    }

    pub(crate) fn make(&mut self, path: &str, bytes: Option<&[u8]>) -> io::Result<()>
        ensures done { OnOk result (MadeBut self.old.made self.new.made path.now
            (Some (option_map (λ bytes. bytes.now) bytes.entry))) }
        ensures free { OnOk result (made_at self.old.made path.now ≡ None) }
    {
        if self.kind_at(path).is_something() {
            return Err(io::Error::from(ErrorKind::AlreadyExists));
        }
        self.put(path, bytes)
    }

    pub(crate) fn put(&mut self, path: &str, bytes: Option<&[u8]>) -> io::Result<()>
        ensures done { OnOk result (MadeBut self.old.made self.new.made path.now
            (Some (option_map (λ bytes. bytes.now) bytes.entry))) }
    {
        let path = String::from_str(self.alloc, path)?;
        let found = found_of(self.alloc, bytes)?;
        self.made.insert(path, found)?;
        Ok(())
    }

    /// Fails if something is at the second path.
    pub(crate) fn hard_link(&mut self, from: &str, to: &str) -> io::Result<()>
        ensures done { OnOk result (MadeBut self.old.made self.new.made to.now (made_at self.old.made from.now)) }
    {
        let bytes = self.copy_at(from)?;
        self.make(to, Some(&bytes))
    }

    /// Replaces what is at the new path.
    pub(crate) fn rename(&mut self, from: &str, to: &str) -> io::Result<()>
        ensures done { OnOk result (MovesMade self.old.made self.new.made from.now to.now) }
    {
        if from == to {
            return Err(io::Error::from(ErrorKind::InvalidInput));
        }
        let bytes = self.copy_at(from)?;
        self.put(to, Some(&bytes))?;
        self.forget(from);
        Ok(())
    }

    pub(crate) fn remove_file(&mut self, path: &str) -> io::Result<()>
        ensures done { OnOk result (MadeBut self.old.made self.new.made path.now None) }
    {
        self.remove(path, Kind::File)
    }

    pub(crate) fn remove_dir(&mut self, path: &str) -> io::Result<()>
        ensures done { OnOk result (MadeBut self.old.made self.new.made path.now None) }
    {
        if self.has_within(path) {
            return Err(io::Error::from(ErrorKind::DirectoryNotEmpty));
        }
        self.remove(path, Kind::Folder)
    }

    fn remove(&mut self, path: &str, kind: Kind) -> io::Result<()>
        ensures done { OnOk result (MadeBut self.old.made self.new.made path.now None) }
    {
        if self.kind_at(path) != kind {
            return Err(io::Error::from(ErrorKind::NotFound));
        }
        self.forget(path);
        Ok(())
    }

    fn forget(&mut self, path: &str)
        ensures { MadeBut self.old.made self.new.made path.now None }
    {
        self.made.remove(path);
    }

    fn has_within(&self, folder: &str) -> bool {
        self.made
            .keys()
            .any(|path| is_within(folder, path.as_str()))
    }

    fn copy_at(&self, path: &str) -> io::Result<Vec<u8>>
        ensures { IfOk result (λ bytes. made_at self.now.made path.now ≡ Some (Some bytes.items)) }
    {
        match self.bytes_at(path) {
            Some(bytes) => Ok(copy_of(self.alloc, bytes)?),
            None => Err(io::Error::from(ErrorKind::NotFound)),
        }
    }
}

fn is_within(folder: &str, path: &str) -> bool {
    match path.strip_prefix(folder) {
        Some(rest) => rest.starts_with('/'),
        None => false,
    }
}

fn found_of(alloc: Global, bytes: Option<&[u8]>) -> io::Result<Option<Vec<u8>>>
    ensures { IfOk result (λ found. option_map (λ copy. copy.items) found
        ≡ option_map (λ bytes. bytes.now) bytes.entry) }
{
    match bytes {
        Some(bytes) => Ok(Some(copy_of(alloc, bytes)?)),
        None => Ok(None),
    }
}

fn copy_of(alloc: Global, bytes: &[u8]) -> io::Result<Vec<u8>>
    ensures { IfOk result (λ copy. copy.items ≡ bytes.now) }
{
    let mut copy = Vec::new(alloc);
    copy.extend_from_slice(bytes)?;
    Ok(copy)
}
