//! A world of files in which images are made.

use crate::file_id::FileId;
use crate::world::World;
use std::alloc::AllocError;
use uimg_base::{Shelf, Source, SourceFault};

/// What opens the files of a world, and finds which they are. It changes none, and so it can be
/// lent to a build while the image is written.
pub trait Reader: Drop {
    ghost use Rattle.std.specs.Prelude.{◌≡◌, ℕ, List, IfOk, IsTrue, Option};
    ghost use Rattle.uimg_base.specs.Named.{FileMap, SameFiles, Opens};
    ghost use Rattle.uimg_world.specs.declared.file_id.FileId.{FileId};

    /// What a file is opened as.
    type Opened: Source;

    /// The bytes at each path.
    ghost map: { Self → FileMap };

    /// The file at each path; links are followed.
    ghost identities: { Self → List ℕ → Option FileId };

    /// Opens the file at a path as a source. Nothing was requested of it yet.
    ///
    /// Returns `SourceFault` if the file cannot be opened, is a folder, or has no known length, as
    /// a pipe.
    fn open(&mut self, path: &str) -> Result<Self::Opened, SourceFault>
        ensures same { SameFiles (map self.old) (map self.new) }
        ensures kept { identities self.new ≡ identities self.old }
        ensures opened { IfOk result (λ opened.
            Opens (map self.old) path.now (Self.Opened.device opened)) };

    /// Returns the file at a path, if there is one; links are followed. In an honest world it is the
    /// one that contracts know.
    fn file_at(&mut self, path: &str) -> Option<FileId>
        ensures same { SameFiles (map self.old) (map self.new) }
        ensures kept { identities self.new ≡ identities self.old }
        ensures found { IsTrue (map self.old).honest → result ≡ identities self.old path.now };
}

/// A world in which images are made. It lends a reader of its files, and shelves for new ones.
pub trait MakingWorld<'p>: World {
    ghost use Rattle.std.specs.Prelude.{◌≡◌, ◌∷◌, ℕ, List, [], Option, Some, IfOk, IsTrue};
    ghost use Rattle.uimg_base.specs.Named.{SameFiles};
    ghost use Rattle.uimg_world.specs.Deeds.{Deed};
    ghost use Rattle.uimg_world.specs.declared.file_id.FileId.{FileId};

    /// What opens its files.
    type Reader: Reader;

    /// What an image is written to.
    type Shelf: Shelf;

    /// What an image is written to in a file that was created for it.
    type NewShelf: Shelf;

    /// The file at each path, as its readers find it; links are followed.
    ghost identities: { Self → List ℕ → Option FileId };

    /// Lends a reader of its files.
    fn reader(&mut self) -> Self::Reader
        ensures noted { Self.trace self.new ≡ Deed.LendsReader ∷ Self.trace self.old }
        ensures same { SameFiles (Self.map self.old) (Self.map self.new) }
        ensures map { SameFiles (Self.map self.old) (Self.Reader.map result) }
        ensures identities { Self.Reader.identities result ≡ identities self.old };

    /// Lends a shelf in the file at a path, which the first write creates or empties. If contracts
    /// know what new files hold, it is honest, and nothing is on it yet.
    fn shelf_at(&mut self, path: &'p str) -> Self::Shelf
        ensures noted { Self.trace self.new ≡ Deed.LendsShelf path.now ∷ Self.trace self.old }
        ensures honest { IsTrue Self.knows → IsTrue Self.Shelf.honest }
        ensures empty { IsTrue Self.knows → Self.Shelf.contents result ≡ Some [] };

    /// Lends a shelf in a file that was created at a path, to which nothing was written. If
    /// contracts know what new files hold, it is honest, and nothing is on it yet.
    ///
    /// Fails if memory for it is refused.
    fn shelf_in(&mut self, path: &str, file: Self::File) -> Result<Self::NewShelf, AllocError>
        ensures noted { Self.trace self.new ≡ Deed.LendsShelf path.now ∷ Self.trace self.old }
        ensures honest { IsTrue Self.knows → IsTrue Self.NewShelf.honest }
        ensures empty { IsTrue Self.knows → Self.File.contents file ≡ Some [] →
            IfOk result (λ shelf. Self.NewShelf.contents shelf ≡ Some []) };
}
