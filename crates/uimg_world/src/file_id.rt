//! Which file is at a path.

use std::fs;
use std::os::unix::fs::MetadataExt;
use std::rt::Files;

/// The file at a path; different paths may lead to the same file.
#[derive(Clone, Copy, Debug, PartialEq, Eq)]
pub struct FileId {
    pub(crate) device: u64,
    pub(crate) inode: u64,
}

impl FileId {
    /// Returns the file at a path, if there is one.
    pub fn of<R: Files>(rt: &R, path: &str) -> Option<FileId> {
        let found = fs::metadata(rt, path).ok()?;
        Some(FileId {
            device: found.dev(),
            inode: found.ino(),
        })
    }
}

impl FileId {
    ghost use Rattle.std.specs.Prelude.{◌≡◌};
    ghost use Rattle.uimg_world.specs.FileIds.{is_same};

    fn is_same(self, other: FileId) -> bool
        ensures { result ≡ is_same self other }
    {
        self.device == other.device && self.inode == other.inode
    }

    ghost use Rattle.uimg_world.specs.FileIds.{is_image};

    /// Returns whether both are there and are the same file.
    pub fn is_image(found: Option<FileId>, image: Option<FileId>) -> bool
        ensures { result ≡ is_image found image }
    {
        match (found, image) {
            (Some(found), Some(image)) => found.is_same(image),
            (Some(_), None) => false,
            (None, _) => false,
        }
    }
}
