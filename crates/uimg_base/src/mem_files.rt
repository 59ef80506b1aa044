//! Files in memory.

ghost use Rattle.std.specs.Prelude.{◌≡◌, [], true};
ghost use Rattle.uimg_base.specs.Named.{bytes_named};

use crate::files::Files;
use crate::opened_names::OpenedNames;
use crate::source::{MemSource, Source, SourceFault};

/// Files in memory: pairs of a name and its bytes. Of equal names, the first counts.
///
/// They are honest, and an open takes no memory.
#[derive(Drop)]
pub struct MemFiles<'a> {
    files: &'a [(&'a [u8], &'a [u8])],
    refusals: u64,
    opened: OpenedNames,
}

impl<'a> MemFiles<'a> {
    /// Creates the files, with no refused open yet.
    pub fn new(files: &'a [(&'a [u8], &'a [u8])]) -> MemFiles<'a>
        ensures { ⟦<MemFiles<'a> as Files>⟧.map result ≡ record {
          bytes = λ name. bytes_named name files.now;
          honest = true;
          complete = true;
          refusals = 0;
          opened = [];
        } }
    {
        MemFiles {
            files,
            refusals: 0,
            opened: OpenedNames::new(),
        }
    }
}

impl<'a> Files for MemFiles<'a> {
    type Opened = MemSource<'a>;

    ghost map = { λ s. record {
      bytes = λ name. bytes_named name s.files.now;
      honest = true;
      complete = true;
      refusals = s.refusals;
      opened = s.opened.names;
    } };

    /// Opens the first file with this name. Returns `SourceFault` only if there is none.
    fn open(&mut self, name: &[u8]) -> Result<MemSource<'a>, SourceFault> {
        self.opened.note(name);
        for (known, bytes) in self.files {
            if *known == name {
                return Ok(MemSource::new(bytes));
            }
        }
        self.refusals = self.refusals.saturating_add(1);
        Err(SourceFault)
    }
}
