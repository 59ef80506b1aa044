//! The files of the operating system, as the program uses them.

use crate::file_id::FileId;
use crate::kind::{Kind, Target};
use std::alloc::Global;
use std::fs::OpenFile;
use std::io;
use std::io::{Read, Write};
use std::path::PathBuf;
use uimg_base::{Source, SourceFault};

/// The files of a system by their paths.
///
/// Contracts see the calls that were made, the newest first: which call, on which path or paths, and
/// what it answered. They see the files as a `FileMap`, as those of `Files`: an honest world opens
/// honest sources of the bytes that it has at a path. Where contracts know what new files hold, each
/// call that closes one says it.
pub trait World: Drop {
    ghost use Rattle.std.specs.Prelude.{◌≡◌, ◌≤◌, ◌<◌, List, [], ◌∷◌, Bool, None, Some, false, length, IfOk, IfSome, IsTrue, OnErr, is_err, is_ok};
    ghost use Rattle.uimg_base.specs.{Device.RisesIf, Named.{FileMap, SameFiles, Opens}};
    ghost use Rattle.uimg_world.specs.Deeds.{ClosesFile, Deed, answer_of, listed, resolved};

    /// A file to read or to write to.
    type File: Read + Write + OpenFile + Drop;

    /// What an image is opened as.
    type Opened: Source;

    /// The calls that were made.
    ghost trace: { Self → List Deed };

    /// The bytes at each path. At the path that stands for standard input they are those that arrive
    /// there.
    ghost map: { Self → FileMap };

    /// Whether contracts know what new files hold.
    ghost knows: { Bool } = { false };

    /// They do in an honest world.
    ghost known: { (world : Self) → IsTrue (map world).honest → IsTrue knows };

    /// Returns the allocator of the program's memory.
    fn alloc(&self) -> Global;

    /// Opens the file at a path as a source. Nothing was requested of it yet.
    ///
    /// Returns `SourceFault` if the file cannot be opened, is a folder, or has no known length, as
    /// a pipe.
    fn open(&mut self, path: &str) -> Result<Self::Opened, SourceFault>
        ensures noted { trace self.new ≡ Deed.Opens path.now (is_ok result) ∷ trace self.old }
        ensures same { SameFiles (map self.old) (map self.new) }
        ensures missing { IsTrue (map self.old).complete →
            OnErr result ((map self.old).bytes path.now ≡ None) }
        ensures refusals { RisesIf (is_err result) (map self.old).refusals (map self.new).refusals }
        ensures opened { IfOk result (λ opened.
            Opens (map self.old) path.now (Self.Opened.device opened)) };

    /// Reads standard input to its end and opens what arrived as a source, as the file at `path`. It
    /// is kept in a file that has no name, on the file system of a folder, or without one on that for
    /// temporary files.
    ///
    /// Returns `SourceFault` if standard input cannot be read or has more bytes than `most`, or if
    /// that file cannot be written.
    fn open_input(
        &mut self,
        path: &str,
        folder: Option<&str>,
        most: u64,
    ) -> Result<Self::Opened, SourceFault>
        ensures noted { trace self.new ≡ Deed.Opens path.now (is_ok result) ∷ trace self.old }
        ensures same { SameFiles (map self.old) (map self.new) }
        ensures missing { IsTrue (map self.old).complete →
            OnErr result (IfSome ((map self.old).bytes path.now) (λ file. most < length file)) }
        ensures refusals { RisesIf (is_err result) (map self.old).refusals (map self.new).refusals }
        ensures opened { IfOk result (λ opened.
            Opens (map self.old) path.now (Self.Opened.device opened)) }
        ensures most { IsTrue (map self.old).honest → IfOk result (λ opened.
            length (Self.Opened.device opened).bytes ≤ most) };

    /// Returns why the file at a path could not be opened, if another look at it shows that; or why
    /// standard input could not, if that failed before.
    fn reason_unread(&mut self, path: &str) -> Option<io::Error>
        ensures noted { trace self.new ≡ Deed.Explains path.now ∷ trace self.old }
        ensures same { SameFiles (map self.old) (map self.new) };

    /// Opens the file at a path to be read from its beginning to its end.
    fn read(&mut self, path: &str) -> io::Result<Self::File>
        ensures noted { trace self.new ≡ Deed.Reads path.now (answer_of result) ∷ trace self.old }
        ensures same { SameFiles (map self.old) (map self.new) }
        ensures text { IsTrue (map self.old).honest → IfOk result (λ file.
            Self.File.remaining file ≡ (map self.old).bytes path.now) };

    /// Returns what a path leads to; links are followed.
    fn target_of(&mut self, path: &str) -> Target
        ensures noted { trace self.new ≡ Deed.Finds path.now result ∷ trace self.old }
        ensures same { SameFiles (map self.old) (map self.new) };

    /// Returns the names in a folder, in any order, each with a NUL after it. A name may have any
    /// bytes but NUL and `/`, and may be `.` or `..`.
    fn read_dir(&mut self, path: &str) -> io::Result<Vec<u8>>
        ensures noted { trace self.new ≡ Deed.Lists path.now (listed result) ∷ trace self.old }
        ensures same { SameFiles (map self.old) (map self.new) };

    /// Opens the file at a path to be written to, without its bytes, or creates it. In an honest
    /// world, contracts know that it is empty.
    fn create(&mut self, path: &str) -> io::Result<Self::File>
        ensures noted { trace self.new ≡ Deed.Overwrites path.now (answer_of result) ∷ trace self.old }
        ensures empty { IsTrue (map self.old).honest →
            IfOk result (λ file. Self.File.contents file ≡ Some []) };

    /// Creates a file where nothing exists. If contracts know what it holds, it is empty.
    fn create_new(&mut self, path: &str) -> io::Result<Self::File>
        ensures noted { trace self.new ≡ Deed.Creates path.now (answer_of result) ∷ trace self.old }
        ensures empty { IsTrue knows →
            IfOk result (λ file. Self.File.contents file ≡ Some []) };

    /// Closes the file that was created at a path. If `is_synced`, waits before that until its bytes
    /// are on the disk.
    fn close(&mut self, path: &str, file: Self::File, is_synced: bool) -> io::Result<()>
        ensures { ClosesFile knows path.now is_synced (Self.File.contents file)
            (answer_of result) (trace self.old) (trace self.new) };

    /// Gives a file a second path, where nothing exists.
    fn hard_link(&mut self, from: &str, to: &str) -> io::Result<()>
        ensures { trace self.new ≡ Deed.Links from.now to.now (answer_of result) ∷ trace self.old };

    /// Moves a file to another path, over what exists there.
    fn rename(&mut self, from: &str, to: &str) -> io::Result<()>
        ensures { trace self.new ≡ Deed.Renames from.now to.now (answer_of result) ∷ trace self.old };

    /// Removes a file.
    fn remove_file(&mut self, path: &str) -> io::Result<()>
        ensures { trace self.new ≡ Deed.Removes path.now (answer_of result) ∷ trace self.old };

    /// Makes a folder where nothing exists.
    fn create_dir(&mut self, path: &str) -> io::Result<()>
        ensures { trace self.new ≡ Deed.MakesFolder path.now (answer_of result) ∷ trace self.old };

    /// Removes an empty folder.
    fn remove_dir(&mut self, path: &str) -> io::Result<()>
        ensures { trace self.new ≡ Deed.RemovesFolder path.now (answer_of result) ∷ trace self.old };

    /// Removes a folder, and all in it.
    fn remove_dir_all(&mut self, path: &str) -> io::Result<()>
        ensures { trace self.new ≡ Deed.RemovesAll path.now (answer_of result) ∷ trace self.old };

    /// Waits until the names in a folder are on the disk, if its file system can wait for a folder.
    fn sync_dir(&mut self, path: &str) -> io::Result<()>
        ensures { trace self.new ≡ Deed.Syncs path.now (answer_of result) ∷ trace self.old };

    /// Returns a path without links and dots, to what exists at a path.
    fn canonicalize(&mut self, path: &str) -> io::Result<PathBuf>
        ensures { trace self.new ≡ Deed.Resolves path.now (resolved result) ∷ trace self.old };

    /// Returns what exists at a path; links are not followed.
    fn kind_at(&mut self, path: &str) -> Kind
        ensures noted { trace self.new ≡ Deed.Looks path.now result ∷ trace self.old }
        ensures same { SameFiles (map self.old) (map self.new) };

    /// Returns the file at a path, if there is one; links are followed.
    fn file_at(&mut self, path: &str) -> Option<FileId>
        ensures noted { trace self.new ≡ Deed.Identifies path.now result ∷ trace self.old }
        ensures same { SameFiles (map self.old) (map self.new) };
}
