//! How the making of an image ended.

use crate::request_fault::RequestFault;
use std::io;
use uimg_base::Status;

/// How a request ended, and how the flush of the buffer with what it printed did.
#[derive(Drop)]
pub(crate) struct Made<'a> {
    pub(crate) end: Result<Status, RequestFault<'a>>,
    pub(crate) printed: io::Result<()>,
}

impl<'a> Made<'a> {
    ghost use Rattle.std.specs.Prelude.{◌≡◌};
    ghost use Rattle.uimg_tool.specs.MadeEnds.{told_end};

    /// A text that could not be printed comes before what ended the request.
    pub(crate) fn told(self) -> Result<Status, RequestFault<'a>>
        ensures { result ≡ told_end self.entry }
    {
        match self.printed {
            Ok(()) => self.end,
            Err(error) => Err(RequestFault::NotPrinted(error)),
        }
    }
}
