//! The folder for payloads and parts, and the paths of their files.

ghost use Rattle.std.specs.Prelude.{◌≡◌, ◌++◌, ℕ, List, Some, codes, IfOk, string_bytes, decimal, false, true, Bool};
ghost use Rattle.uimg_unpacking.specs.Allowing.{Allows};
ghost use Rattle.uimg_unpacking.specs.Leaving.{KeepsNone};
ghost use Rattle.uimg_world.specs.Deeds.{changes};
ghost use Rattle.uimg_world.specs.Kinds.{is_no_link};
ghost use Rattle.uimg_unpacking.specs.Places.{ChangesWithin, Obeys, Terms, is_temporary_folder, terms_of};
ghost use Rattle.uimg_unpacking.specs.Refusing.{refused_of};

use crate::trouble::{ShownPath, Trouble};
use std::alloc::{AllocError, Global};
use std::io;
use std::io::{ErrorKind, Write};
use uimg_world::{FileId, Kind, World};

/// How many names are tried for a temporary folder. Commands that were stopped left those that exist.
const TRIED: u32 = 10_000;

/// A folder for the payloads of an image.
#[derive(Clone, Copy, Debug)]
pub struct Folder<'a> {
    /// Its path.
    pub path: &'a str,

    /// The file of the image, which must not be written while it is read.
    pub image: Option<FileId>,

    /// Whether existing files are replaced.
    pub is_forced: bool,

    /// Whether files are written to the disk before they get their names, and the names then.
    pub is_synced: bool,
}

impl<'a> Folder<'a> {
    pub(crate) fn path_of(&self, alloc: Global, name: &str) -> Result<String, AllocError>
        ensures { IfOk result (λ path. string_bytes path
            ≡ self.now.path.now ++ codes "/" ++ name.now) }
    {
        format!(in alloc; "{}/{name}", self.path)
    }

    /// Returns the path if it is free, or a file to replace exists there, which is not the image.
    pub(crate) fn allows<W: World>(&self, world: &mut W, path: String) -> Result<String, Trouble>
        ensures told { Allows self.now.image self.now.is_forced (string_bytes path)
            (refused_of result) (W.trace world.old) (W.trace world.new) }
        ensures same { IfOk result (λ it. it ≡ path) }
        ensures within { (terms : Terms) → (is_naming : Bool) →
            Obeys terms is_naming (W.trace world.old) (W.trace world.new) }
    {
        let found = world.file_at(path.as_str());
        if FileId::is_image(found, self.image) {
            return Err(Trouble::IsImage(ShownPath(path)));
        }
        match (world.kind_at(path.as_str()), self.is_forced) {
            (Kind::Nothing, _) => Ok(path),
            (Kind::Folder, _) => Err(Trouble::IsFolder(ShownPath(path))),
            (Kind::File, true) => Ok(path),
            (Kind::File, false) => Err(Trouble::Exists(ShownPath(path))),
            (Kind::Link, true) => Ok(path),
            (Kind::Link, false) => Err(Trouble::Exists(ShownPath(path))),
        }
    }

    /// Creates the first free one of `.uimg-new1` to `.uimg-new10000`. Returns why none can be
    /// created. Fails if memory for a path is refused.
    pub(crate) fn new_folder<W: World>(
        &self,
        world: &mut W,
        alloc: Global,
    ) -> Result<io::Result<String>, AllocError>
        ensures made { IfOk result (λ made. IfOk made (λ path.
            is_temporary_folder self.now.path.now (string_bytes path) ≡ true)) }
        ensures none { IfOk result (λ made. IfOk made (λ path.
            KeepsNone (Some (string_bytes path)) (W.trace world.new))) }
        ensures within { (is_naming : Bool) → Obeys (terms_of self.now) is_naming
            (W.trace world.old) (W.trace world.new) }
    {
        for number in 1..=TRIED {
            let path = self.unnamed(alloc, number)?;
            match world.create_dir(path.as_str()) {
                Ok(()) => return Ok(Ok(path)),
                Err(error) if error.kind() == ErrorKind::AlreadyExists => {}
                Err(error) => return Ok(Err(error)),
            }
        }
        Ok(Err(io::Error::from(ErrorKind::AlreadyExists)))
    }

    fn unnamed(&self, alloc: Global, number: u32) -> Result<String, AllocError>
        ensures { IfOk result (λ path. string_bytes path
            ≡ self.now.path.now ++ codes "/.uimg-new" ++ decimal number) }
    {
        format!(in alloc; "{}/.uimg-new{number}", self.path)
    }

    /// Removes the files and folders without a name in it, which commands that were stopped have
    /// left, with a line for each on `out`. Stops before one that is the image at a path, or has it.
    pub fn clean<W: World, O: Write>(
        &self,
        world: &mut W,
        image: Option<&str>,
        out: &mut O,
    ) -> Result<(), Trouble>
        ensures { ChangesWithin self.now.path.now false (W.trace world.old) (W.trace world.new) }
    {
        let alloc = world.alloc();
        self.clean_in(world, alloc, image, out)
    }

    fn clean_in<W: World, O: Write>(
        &self,
        world: &mut W,
        alloc: Global,
        image: Option<&str>,
        out: &mut O,
    ) -> Result<(), Trouble>
        ensures { ChangesWithin self.now.path.now false (W.trace world.old) (W.trace world.new) }
    {
        for number in 1..=TRIED {
            let path = self.unnamed(alloc, number)?;
            if clean_at(world, path, image)? {
                writeln!(out, ".uimg-new{number}: removed")?;
                out.flush()?;
            }
        }
        Ok(())
    }
}

// Removes what exists at a path, with all in it. Returns whether anything did. Stops before it
// removes the image, or a folder that has it.
fn clean_at<W: World>(world: &mut W, path: String, image: Option<&str>) -> Result<bool, Trouble>
    ensures { (folder : List ℕ) → is_temporary_folder folder (string_bytes path) ≡ true →
        ChangesWithin folder false (W.trace world.old) (W.trace world.new) }
{
    if is_or_has(world, path.as_str(), image) {
        return Err(Trouble::RemovesImage(ShownPath(path)));
    }
    let kind = world.kind_at(path.as_str());
    if !kind.is_something() {
        return Ok(false);
    }
    match remove_at(world, path.as_str(), kind) {
        Ok(()) => Ok(true),
        Err(reason) => Err(Trouble::CannotRemove(ShownPath(path), reason)),
    }
}

fn remove_at<W: World>(world: &mut W, path: &str, kind: Kind) -> io::Result<()>
    ensures { (folder : List ℕ) → is_temporary_folder folder path.now ≡ true →
        ChangesWithin folder false (W.trace world.old) (W.trace world.new) }
{
    match kind {
        Kind::Nothing => Ok(()),
        Kind::File => world.remove_file(path),
        Kind::Folder => world.remove_dir_all(path),
        Kind::Link => world.remove_file(path),
    }
}

// Returns whether the image's file is at a path, or in a folder there, or may be. Below a folder
// whose name is not UTF-8 this is not known.
fn is_or_has<W: World>(world: &mut W, path: &str, image: Option<&str>) -> bool
    ensures { changes (W.trace world.new) ≡ changes (W.trace world.old) }
{
    let Some(image) = image else {
        return false;
    };
    let folder = world.canonicalize(path);
    let file = world.canonicalize(image);
    match (folder, file) {
        (Ok(folder), Ok(file)) => {
            is_at_or_below(file.as_str().as_bytes(), folder.as_str().as_bytes())
        }
        (Err(_), _) => may_be_in(world, path, image),
        (Ok(_), Err(_)) => may_be_in(world, path, image),
    }
}

fn may_be_in<W: World>(world: &mut W, path: &str, image: &str) -> bool
    ensures { changes (W.trace world.new) ≡ changes (W.trace world.old) }
{
    is_no_link(world.kind_at(path)) && world.kind_at(image).is_something()
}

fn is_at_or_below(path: &[u8], folder: &[u8]) -> bool {
    match path.strip_prefix(folder) {
        Some(rest) => ends_name(rest),
        None => false,
    }
}

// A name ends before nothing, or before a slash and more.
fn ends_name(rest: &[u8]) -> bool {
    match rest.first() {
        Some(byte) => *byte == b'/',
        None => true,
    }
}

fn is_no_link(kind: Kind) -> bool
    ensures { result ≡ is_no_link kind }
{
    match kind {
        Kind::File | Kind::Folder => true,
        Kind::Link | Kind::Nothing => false,
    }
}
