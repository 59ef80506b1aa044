//! Standard error, which has one line for a fault.

ghost use Rattle.std.specs.{Prelude.{◌≡◌, ◌∷◌, ◌+◌, ◌-◌, ◌^◌, ◌≤◌, IfOk, None, Some, codes, false, min}, IoError.error_kind};
ghost use Rattle.uimg_tool.specs.{FaultTexts.{told_of, told_of_complaint}, Statuses.{closing_status, request_status}};
ghost use Rattle.uimg_tool.specs.Complaints.{AddsText, Complains, Ends, is_closed_pipe};
ghost use Rattle.uimg_world.specs.Deeds.{Deed};
ghost use Rattle.uimg_base.specs.Named.{SameFiles};

use crate::complaint::{Complaint, status_of_complaint};
use crate::request_fault::{FAILED, RequestFault};
use std::fmt::Display;
use std::io;
use std::io::{ErrorKind, Write};
use uimg_printing::Printed;
use uimg_world::World;

/// Standard error of a program. The program's name begins each line of a fault. Failed writes are
/// ignored.
#[derive(Drop)]
pub struct Complaints<'a, V: Write> {
    name: &'a str,
    /// Other lines are written here, too.
    pub(crate) err: &'a mut V,

    /// How many faults were printed.
    pub(crate) count: u64,

    /// Whether a write failed: a line may be missing.
    pub(crate) is_lost: bool,
}

impl<'a, V: Write> Complaints<'a, V> {
    /// Creates the standard error of a program of this name, which writes to `err`.
    pub fn new(name: &'a str, err: &'a mut V) -> Complaints<'a, V>
        ensures count { result.count ≡ 0 }
        ensures lost { result.is_lost ≡ false }
        ensures name { result.name ≡ name.entry }
    {
        Complaints {
            name,
            err,
            count: 0,
            is_lost: false,
        }
    }

    /// Prints the line of a fault, and returns the status.
    pub(crate) fn tell<D: Display>(&mut self, fault: &D, status: u8) -> u8
        ensures status { result ≡ status }
        ensures counted { self.new.count ≡ min (self.old.count + 1) (2 ^ 64 - 1) }
        ensures line { Complains V.contents (Some (D.output fault.now)) self }
    {
        self.count = self.count.saturating_add(1);
        if writeln!(self.err, "{}: {fault}", self.name).is_err() {
            self.is_lost = true;
        }
        status
    }

    /// The text is more than the line of a fault.
    pub(crate) fn put_text(&mut self, text: &str)
        ensures count { self.new.count ≡ self.old.count }
        ensures text { AddsText V.contents text.now self.old self.new }
    {
        if write!(self.err, "{text}").is_err() {
            self.is_lost = true;
        }
    }

    /// Tells how a command ended, if that is a fault. Returns the status.
    pub(crate) fn tell_end(&mut self, end: &Result<u8, Complaint<'_>>) -> u8
        requires { IfOk end.now (λ status. status ≤ 3) }
        ensures status { result ≡ closing_status end.now }
        ensures ends { Ends result self.old.count self.new.count }
        ensures line { Complains V.contents (told_of_complaint end.now) self }
    {
        match end {
            Ok(status) => *status,
            Err(Complaint::Request(RequestFault::Closed)) => FAILED,
            Err(complaint) => self.tell(complaint, status_of_complaint(complaint)),
        }
    }

    pub(crate) fn tell_no_memory(&mut self) -> u8
        ensures status { result ≡ 3 }
        ensures once { self.new.count ≤ self.old.count + 1 }
        ensures line { Complains V.contents (Some (Some (codes "out of memory"))) self }
    {
        self.tell(&RequestFault::OutOfMemory, FAILED)
    }

    /// Prints that a file cannot be opened, with the reason if there is one. Returns the status.
    pub(crate) fn tell_unread<D: World>(&mut self, world: &mut D, path: &str) -> u8
        ensures status { result ≡ 3 }
        ensures once { self.new.count ≤ self.old.count + 1 }
        ensures line { Complains V.contents (Some None) self }
        ensures asked { D.trace world.new ≡ Deed.Explains path.now ∷ D.trace world.old }
        ensures same { SameFiles (D.map world.old) (D.map world.new) }
    {
        self.tell(&unread(world, path), FAILED)
    }

    pub(crate) fn tell_unwritten(&mut self, path: &str, reason: &io::Error) -> u8
        ensures status { result ≡ 3 }
        ensures once { self.new.count ≤ self.old.count + 1 }
        ensures line { Complains V.contents (Some None) self }
    {
        let path = Printed(path.as_bytes());
        self.tell(&format_args!("cannot write {path}: {reason}"), FAILED)
    }

    /// A closed output is not reported. Returns the status.
    pub(crate) fn tell_unprinted(&mut self, error: &io::Error) -> u8
        ensures status { result ≡ 3 }
        ensures once { self.new.count ≤ self.old.count + 1 }
        ensures line { Complains V.contents (Some None) self }
    {
        if is_closed(error) {
            return FAILED;
        }
        self.tell(
            &format_args!("cannot write standard output: {error}"),
            FAILED,
        )
    }
}

/// Returns why a file cannot be opened to be read.
pub(crate) fn unread<'a, D: World>(world: &mut D, path: &'a str) -> RequestFault<'a>
    ensures status { request_status result ≡ 3 }
    ensures told { told_of result ≡ Some None }
    ensures asked { D.trace world.new ≡ Deed.Explains path.now ∷ D.trace world.old }
    ensures same { SameFiles (D.map world.old) (D.map world.new) }
{
    let reason = world.reason_unread(path);
    let path = Printed(path.as_bytes());
    match reason {
        Some(reason) => RequestFault::Unread(path, reason),
        None => RequestFault::OpensNow(path),
    }
}

/// A closed output is not told.
pub(crate) fn unprinted<'a>(error: io::Error) -> RequestFault<'a>
    ensures { request_status result ≡ 3 }
{
    if is_closed(&error) {
        RequestFault::Closed
    } else {
        RequestFault::Unprinted(error)
    }
}

/// The write failed because its reader has closed the output.
pub(crate) fn is_closed(error: &io::Error) -> bool
    ensures { result ≡ is_closed_pipe (error_kind error.now) }
{
    match error.kind() {
        ErrorKind::BrokenPipe => true,
        _ => false,
    }
}
