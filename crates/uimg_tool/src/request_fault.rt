//! Why a command was not carried out, or what is wrong with its image: the line on standard error, and
//! the exit status.

ghost use Rattle.std.specs.Prelude.{◌≡◌};
ghost use Rattle.uimg_tool.specs.{FaultTexts.request_text, Statuses.request_status};

use std::fmt::{Display, Formatter, Write};
use std::{fmt, io};
use uimg_checks::status_of_fault;
use uimg_cli::WordsFault;
use uimg_engine::Fault;
use uimg_keys::KeyFault;
use uimg_map::MapFault;
use uimg_printing::Printed;

/// All is done.
pub(crate) const DONE: u8 = 0;

/// The image is refused, or a checksum is not right.
pub(crate) const REFUSED: u8 = 1;

/// The command line is wrong.
pub(crate) const WRONG_LINE: u8 = 2;

/// A file could not be opened, or a read, a write or memory failed.
pub(crate) const FAILED: u8 = 3;

/// Why a command was not carried out, or what is wrong with its image. Its text is the line after
/// the program's name; `Closed` has none.
///
/// `dumpimage`, `verify` and `mkimage` tell a path as it is, and no reason of the system. The other
/// commands escape what no terminal should get, and tell the reason.
#[derive(Drop)]
pub(crate) enum RequestFault<'a> {
    CannotRead(&'a str),

    // By the other commands. Another look at the file shows the reason, or that it can be opened now.
    Unread(Printed<'a>, io::Error),
    OpensNow(Printed<'a>),

    CannotWrite(&'a str, io::Error),

    // By the other commands.
    Unwritten(Printed<'a>, io::Error),

    // Bytes of the outfile, at this path.
    NotPut(&'a str, io::Error),

    // Text for standard output.
    NotPrinted(io::Error),

    // By the other commands. If the reader has closed it, nothing is told.
    Unprinted(io::Error),
    Closed,

    Exists(Printed<'a>),

    WritesWhatIsRead(&'a str),

    // By the other commands.
    DrawsOverWhatIsRead(Printed<'a>),

    // What is at the path of a report.
    IsNoReport(Printed<'a>),

    NoRoom(&'a str),

    OutOfMemory,

    Stopped(Fault),

    // An image that is refused has a map, and one that cannot be read has none.
    Mapped(MapFault),
    Unmapped(MapFault),

    NoImages,

    NoKeys(Printed<'a>, KeyFault),

    NoHash,

    // One of two images that are compared is refused, or a read of it failed.
    InImage(Printed<'a>, Fault),

    // It has two nodes or two properties of a name.
    Twice(Printed<'a>),
}

impl<'a> Display for RequestFault<'a> {
    ghost output = { λ fault. request_text fault };

    fn fmt<W: Write>(&self, f: &mut Formatter<W>) -> fmt::Result {
        match self {
            RequestFault::CannotRead(path) => write!(f, "cannot read {path}"),
            RequestFault::Unread(path, reason) => write!(f, "cannot read {path}: {reason}"),
            RequestFault::OpensNow(path) => {
                write!(f, "cannot read {path}: it can be opened now")
            }
            RequestFault::CannotWrite(path, _) => write!(f, "cannot write {path}"),
            RequestFault::Unwritten(path, reason) => write!(f, "cannot write {path}: {reason}"),
            RequestFault::NotPut(_, _) | RequestFault::NotPrinted(_) => f.write_str("write failed"),
            RequestFault::Unprinted(reason) => {
                write!(f, "cannot write standard output: {reason}")
            }
            RequestFault::Closed => f.write_str("closed"),
            RequestFault::Exists(path) => write!(f, "{path} exists; use --force to replace it"),
            RequestFault::WritesWhatIsRead(path) => {
                write!(f, "{path} would be written while it is read")
            }
            RequestFault::DrawsOverWhatIsRead(path) => {
                write!(f, "{path} would be written while it is read")
            }
            RequestFault::IsNoReport(path) => {
                write!(f, "{path} is no report, and is not replaced")
            }
            RequestFault::NoRoom(path) => write!(
                f,
                "-x: {path} does not begin with 64 bytes 0xff, which the header replaces"
            ),
            RequestFault::OutOfMemory => f.write_str("out of memory"),
            RequestFault::Stopped(fault) => write!(f, "{fault}"),
            RequestFault::Mapped(fault) => write!(f, "{fault}"),
            RequestFault::Unmapped(fault) => write!(f, "{fault}"),
            RequestFault::NoImages => write!(f, "{}", WordsFault::NoImages),
            RequestFault::NoKeys(path, fault) => write!(f, "{path}: {fault}"),
            RequestFault::NoHash => f.write_str("no image has a hash, as there is none"),
            RequestFault::InImage(path, fault) => write!(f, "{path}: {fault}"),
            RequestFault::Twice(path) => {
                write!(f, "{path}: two nodes or properties have the same name")
            }
        }
    }
}

impl<'a> From<Fault> for RequestFault<'a> {
    fn from(fault: Fault) -> RequestFault<'a> {
        RequestFault::Stopped(fault)
    }
}

pub(crate) fn status_of(fault: &RequestFault<'_>) -> u8
    ensures { result ≡ request_status fault.now }
{
    match fault {
        RequestFault::WritesWhatIsRead(_) => WRONG_LINE,
        RequestFault::DrawsOverWhatIsRead(_) => WRONG_LINE,
        RequestFault::NoImages => WRONG_LINE,
        RequestFault::NoRoom(_) => REFUSED,
        RequestFault::Mapped(_) => REFUSED,
        RequestFault::NoHash => REFUSED,
        RequestFault::Twice(_) => REFUSED,
        RequestFault::InImage(_, fault) => status_of_fault(*fault),
        RequestFault::Stopped(fault) => status_of_fault(*fault),
        _ => FAILED,
    }
}
