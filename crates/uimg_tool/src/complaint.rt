//! What a command of `uimg` tells on standard error.

ghost use Rattle.std.specs.Prelude.{◌≡◌, ◌≤◌, IfOk};
ghost use Rattle.uimg_tool.specs.{FaultTexts.{complaint_text, told_of_exit, told_of_complaint}, Statuses.{closing_status, complaint_status, exit_status, trouble_status}};

use crate::request_fault::{FAILED, REFUSED, RequestFault, WRONG_LINE, status_of};
use std::fmt;
use std::fmt::{Display, Formatter, Write};
use uimg_unpacking::Trouble;

/// What is told of a command. Apart from `Request`, an unpacking has it.
#[derive(Drop)]
pub(crate) enum Complaint<'a> {
    Request(RequestFault<'a>),

    // The line of a check, and whether that failed.
    Unsigned(String, bool),

    Troubled(Trouble),
}

impl<'a> Display for Complaint<'a> {
    ghost output = { λ complaint. complaint_text complaint };

    fn fmt<W: Write>(&self, f: &mut Formatter<W>) -> fmt::Result {
        match self {
            Complaint::Request(fault) => write!(f, "{fault}"),
            Complaint::Unsigned(line, _) => f.write_str(line.as_str()),
            Complaint::Troubled(trouble) => write!(f, "{trouble}"),
        }
    }
}

/// Returns the end of a command that is no unpacking.
pub(crate) fn told<'a>(end: Result<u8, RequestFault<'a>>) -> Result<u8, Complaint<'a>>
    ensures most { IfOk end.entry (λ status. status ≤ 3) → IfOk result (λ status. status ≤ 3) }
    ensures status { closing_status result ≡ exit_status end.entry }
    ensures told { told_of_complaint result ≡ told_of_exit end.entry }
{
    match end {
        Ok(status) => Ok(status),
        Err(fault) => Err(Complaint::Request(fault)),
    }
}

pub(crate) fn status_of_complaint(complaint: &Complaint<'_>) -> u8
    ensures { result ≡ complaint_status complaint.now }
{
    match complaint {
        Complaint::Request(fault) => status_of(fault),
        Complaint::Unsigned(_, true) => FAILED,
        Complaint::Unsigned(_, false) => REFUSED,
        Complaint::Troubled(trouble) => status_of_trouble(trouble),
    }
}

pub(crate) fn status_of_trouble(trouble: &Trouble) -> u8
    ensures { result ≡ trouble_status trouble.now }
{
    match trouble {
        Trouble::IsImage(_) => WRONG_LINE,
        Trouble::RemovesImage(_) => WRONG_LINE,
        Trouble::NoName => REFUSED,
        Trouble::TooManyFiles(_) => REFUSED,
        Trouble::TooManyBytes(_) => REFUSED,
        _ => FAILED,
    }
}
