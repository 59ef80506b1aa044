//! Why and where compiling stopped.

ghost use Rattle.std.specs.Prelude.{◌≡◌, Err};
ghost use Rattle.uimg_dts.specs.declared.fault.DtsKind.TheVariants.{Source};

use crate::fault::{DtsKind, Refusal};

/// Why compiling stopped, and how many bytes of the text remain at the word where it did.
#[derive(Clone, Copy)]
pub(crate) struct Stop {
    pub(crate) kind: Refusal,
    pub(crate) left: usize,
}

/// The same for calls that open files.
#[derive(Clone, Copy)]
pub(crate) struct FileStop {
    pub(crate) kind: DtsKind,
    pub(crate) left: usize,
}

impl From<Stop> for FileStop {
    ghost use Rattle.std.specs.Prelude.{◌≡◌};
    ghost use Rattle.uimg_dts.specs.declared.fault.DtsKind.TheVariants.{Source};

    ghost from_gives = { λ stop wide. wide ≡ record { kind = Source stop.kind; left = stop.left } };

    fn from(stop: Stop) -> FileStop {
        FileStop {
            kind: DtsKind::Source(stop.kind),
            left: stop.left,
        }
    }
}

pub(crate) fn at(kind: Refusal, left: usize) -> Stop {
    Stop { kind, left }
}

pub(crate) fn out_of_memory(left: usize) -> Stop {
    at(Refusal::OutOfMemory, left)
}

/// Returns the stop of a word in a call that opens files.
pub(crate) fn refused<T>(stop: Stop) -> Result<T, FileStop>
    ensures { result ≡ Err (record { kind = Source stop.kind; left = stop.left }) }
{
    Err(FileStop::from(stop))
}

pub(crate) fn unread(kind: DtsKind, left: usize) -> FileStop
    ensures { result ≡ record { kind = kind; left = left } }
{
    FileStop { kind, left }
}
