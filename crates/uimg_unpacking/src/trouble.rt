//! Why payloads are not written to a folder, or temporary files in it not removed.

ghost use Rattle.std.specs.Prelude.{◌≡◌, Some, false, is_ok, string_bytes};
ghost use Rattle.std.specs.IoError.{error_kind};
ghost use Rattle.uimg_printing.specs.Printing.{printed};
ghost use Rattle.uimg_unpacking.specs.Leaving.{are_undone};
ghost use Rattle.uimg_unpacking.specs.Troubles.{done_in, noted, printing_trouble, trouble_in};
ghost use Rattle.uimg_unpacking.specs.declared.trouble.Trouble.TheVariants.{OutOfMemory};

use std::alloc::{AllocError, AllocFailed};
use std::fmt::{Display, Formatter, Write};
use std::io::ErrorKind;
use std::{fmt, io};
use thiserror::Error;
use uimg_base::PutFault;
use uimg_printing::Printed;

/// A path in a line, where hidden characters are escaped as `Printed` does.
#[derive(Debug, Drop)]
pub struct ShownPath(pub(crate) String);

impl Display for ShownPath {
    ghost output = { λ path. Some (printed false (string_bytes path.0)) };

    fn fmt<W: Write>(&self, f: &mut Formatter<W>) -> fmt::Result {
        Printed(self.0.as_bytes()).fmt(f)
    }
}

/// Why payloads were not written to a folder, or temporary files in it not removed. Its text is the
/// line to print; `Closed` needs none.
#[derive(Debug, Drop, Error)]
pub enum Trouble {
    /// Something exists at the path of a file to write.
    #[error("{0} exists; use --force to replace it")]
    Exists(ShownPath),

    /// A folder exists at the path of a file to write.
    #[error("{0} is a folder, which is never replaced")]
    IsFolder(ShownPath),

    /// A file to write is the image.
    #[error("{0} would be written while it is read")]
    IsImage(ShownPath),

    /// A file or folder to remove is the image, or has it.
    #[error("{0} would be removed while it is read")]
    RemovesImage(ShownPath),

    /// The image has more files than this.
    #[error("more than {0} files; --max-files allows more")]
    TooManyFiles(u64),

    /// The files have more bytes together than this.
    #[error("more than {0} bytes; --max-bytes allows more")]
    TooManyBytes(u64),

    /// A file cannot be removed, for this reason.
    #[error("cannot remove {0}: {1}")]
    CannotRemove(ShownPath, io::Error),

    /// A file cannot be created or given its name, for this reason.
    #[error("cannot create {0}: {1}")]
    CannotCreate(ShownPath, io::Error),

    /// The names in a folder cannot be written to the disk, for this reason.
    #[error("cannot sync {0}: {1}")]
    CannotSync(ShownPath, io::Error),

    /// Old files could not be put back after another trouble, and are in this folder.
    #[error("old files cannot be put back: they are in {0}, old-0 and so on")]
    NotPutBack(ShownPath),

    /// A file cannot be written, for this reason.
    #[error("cannot write {0}: {1}")]
    CannotWrite(ShownPath, io::Error),

    /// No name was found for a file.
    #[error("no name for a file")]
    NoName,

    /// Memory ran out.
    #[error("out of memory")]
    OutOfMemory,

    /// A write failed.
    #[error("write failed")]
    Put,

    /// A line could not be printed, for this reason.
    #[error("cannot write standard output: {0}")]
    CannotPrint(io::Error),

    /// The reader has closed the output.
    #[error("closed")]
    Closed,
}

pub(crate) fn kept<X>(
    done: Result<X, Trouble>,
    trouble: &mut Option<Trouble>,
) -> Result<X, PutFault>
    ensures done { done_in result ≡ done_in done }
    ensures noted { trouble.new ≡ noted done trouble.old }
{
    match done {
        Ok(done) => Ok(done),
        Err(found) => {
            *trouble = Some(found);
            Err(PutFault)
        }
    }
}

/// Returns the trouble of a line that is printed once files have their names. It is never
/// `OutOfMemory`: after that no file has its name.
pub(crate) fn printed(done: io::Result<()>) -> Result<(), Trouble>
    ensures done { is_ok result ≡ is_ok done }
    ensures told { are_undone (trouble_in result) ≡ false }
{
    match done {
        Ok(()) => Ok(()),
        Err(error) => Err(match error.kind() {
            ErrorKind::BrokenPipe => Trouble::Closed,
            _ => Trouble::CannotPrint(error),
        }),
    }
}

impl From<AllocError> for Trouble {
    ghost from_gives = { λ _ trouble. trouble ≡ OutOfMemory };

    fn from(_error: AllocError) -> Trouble {
        Trouble::OutOfMemory
    }
}

impl From<io::Error> for Trouble {
    ghost from_gives = { λ error trouble. trouble ≡ printing_trouble (error_kind error) error };

    fn from(error: io::Error) -> Trouble {
        match error.kind() {
            ErrorKind::OutOfMemory => Trouble::OutOfMemory,
            ErrorKind::BrokenPipe => Trouble::Closed,
            _ => Trouble::CannotPrint(error),
        }
    }
}

impl<X: Drop> From<AllocFailed<X>> for Trouble {
    ghost from_gives = { λ _ trouble. trouble ≡ OutOfMemory };

    fn from(failed: AllocFailed<X>) -> Trouble {
        drop(failed);
        Trouble::OutOfMemory
    }
}
