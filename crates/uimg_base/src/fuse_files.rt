//! Files that refuse an open, or open a failing source, for tests.

ghost use Rattle.std.specs.Prelude.{◌≡◌, [], false};

use crate::files::Files;
use crate::fuse_source::FuseSource;
use crate::opened_names::OpenedNames;
use crate::source::SourceFault;

/// Files that can be opened a given number of times; one open gives a source that fails after some
/// calls. For tests of refused opens and failed reads.
#[derive(Drop)]
pub struct FuseFiles<F: Files> {
    files: F,
    from: u64,
    turn: u64,
    calls: u64,
    opens: u64,
    refusals: u64,
    opened: OpenedNames,
}

impl<F: Files> FuseFiles<F> {
    /// Puts a fuse on `files`. Opens are counted from 0, including those that `files` refuses.
    ///
    /// Open number `from` and all later ones are refused. Open number `turn` gives a source that
    /// lets `calls` calls through; any other gives one that lets 2^64 - 1 through. The fuse counts
    /// refused opens itself, from 0, and notes the names that were requested of it. No clause says which opens are refused or how many calls pass;
    /// tests show it.
    pub fn new(files: F, from: u64, turn: u64, calls: u64) -> FuseFiles<F>
        ensures { ⟦<FuseFiles<F> as Files>⟧.map result
            ≡ record (F.map files) { complete = false; refusals = 0; opened = [] } }
    {
        FuseFiles {
            files,
            from,
            turn,
            calls,
            opens: 0,
            refusals: 0,
            opened: OpenedNames::new(),
        }
    }
}

impl<F: Files> Files for FuseFiles<F> {
    type Opened = FuseSource<F::Opened>;

    ghost map = { λ s. record (F.map s.files) {
      complete = false;
      refusals = s.refusals;
      opened = s.opened.names;
    } };

    fn open(&mut self, name: &[u8]) -> Result<FuseSource<F::Opened>, SourceFault> {
        self.opened.note(name);
        let number = self.opens;
        self.opens = self.opens.saturating_add(1);
        if number < self.from
            && let Ok(source) = self.files.open(name)
        {
            let calls = if number == self.turn {
                self.calls
            } else {
                u64::MAX
            };
            return Ok(FuseSource::new(source, calls));
        }
        self.refusals = self.refusals.saturating_add(1);
        Err(SourceFault)
    }
}
