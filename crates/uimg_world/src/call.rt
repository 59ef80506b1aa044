//! Calls of the system, and what they answer.

ghost use Rattle.std.specs.Prelude.{◌≡◌};
ghost use Rattle.uimg_world.specs.Deeds.{answer_of};

use crate::file_id::FileId;
use crate::kind::{Kind, Target};
use std::io;
use std::io::ErrorKind;

/// What a call answers that makes, moves or removes a file.
#[derive(Clone, Copy, Debug)]
pub enum Answer {
    /// It is done.
    Done,

    /// Something exists where something was to be made.
    Exists,

    /// It failed for another reason.
    Failed,
}

/// A call of the system, and its answer. Its path, and a second one, are noted beside it.
#[derive(Clone, Copy, Debug)]
pub enum Call {
    /// A file was created where nothing existed.
    Creates(Answer),

    /// A file got a second path, where nothing existed.
    Links(Answer),

    /// A file was moved, over what existed there.
    Renames(Answer),

    /// A file was removed.
    Removes(Answer),

    /// A folder was made.
    MakesFolder(Answer),

    /// An empty folder was removed.
    RemovesFolder(Answer),

    /// A folder was removed, and all in it.
    RemovesAll(Answer),

    /// The names in a folder were written to the disk.
    Syncs(Answer),

    /// A path without links and dots was requested. If there is one, it is noted as the second path.
    Resolves(bool),

    /// What exists at a path; links were not followed.
    Looks(Kind),

    /// The file at a path, if there is one; links were followed.
    Identifies(Option<FileId>),

    /// A file was opened as a source, if it was.
    Opens(bool),

    /// The reason was requested why a file cannot be opened.
    Explains,

    /// A file was opened to be read from its beginning.
    Reads(Answer),

    /// What a path leads to; links were followed.
    Finds(Target),

    /// The names in a folder were requested. If they are there, they are noted as the second path.
    Lists(bool),

    /// A file was created or emptied.
    Overwrites(Answer),

    /// What opens files was lent.
    LendsReader,

    /// A shelf in the file at a path was lent.
    LendsShelf,

    /// A new file was closed: whether it was synced, and whether what it holds is known, which is
    /// noted as the second path.
    Closes(bool, bool, Answer),
}

/// Returns what a call answered.
pub(crate) fn answer_of<X>(called: &io::Result<X>) -> Answer
    ensures { result ≡ answer_of called.now }
{
    match called {
        Ok(_) => Answer::Done,
        Err(error) => match error.kind() {
            ErrorKind::AlreadyExists => Answer::Exists,
            _ => Answer::Failed,
        },
    }
}
