//! A source that fails from some call on, for tests.

ghost use Rattle.std.{proofs.Common.rules, specs.Prelude.{◌≡◌, ◌-◌, ◌==◌}};

use crate::source::{Source, SourceFault};

/// A source that answers a given number of calls of `size` and `fill_at`, then fails. For tests of
/// failed reads.
#[derive(Drop)]
pub struct FuseSource<S: Source> {
    source: S,
    left: u64,

    asked: u128,
    failures: u64,
}

impl<S: Source> FuseSource<S> {
    /// Puts a fuse on `source` that lets `calls` calls through. Its counters continue the source's.
    pub fn new(source: S, calls: u64) -> FuseSource<S>
        ensures { ⟦<FuseSource<S> as Source>⟧.device result ≡ S.device source }
    {
        let asked = source.asked();
        let failures = source.failures();
        FuseSource {
            source,
            left: calls,
            asked,
            failures,
        }
    }

    // Uses up one call. Returns whether none was left.
    fn burn(&mut self) -> bool
        ensures burnt { result ≡ (self.old.left == 0) }
        ensures left { self.new.left ≡ self.old.left - 1 }
        ensures source { self.new.source ≡ self.old.source }
        ensures asked { self.new.asked ≡ self.old.asked }
        ensures failures { self.new.failures ≡ self.old.failures }
    {
        let burnt = self.left == 0;
        if !burnt {
            self.left -= 1;
        }
        burnt
    }
}

impl<S: Source> Source for FuseSource<S> {
    ghost device = { λ s. record {
      bytes = (S.device s.source).bytes;
      honest = (S.device s.source).honest;
      asked = s.asked;
      failures = s.failures;
    } };

    ghost never_failed = { λ s always. Prim.search rules };

    ghost short = { λ s. S.short s.source };

    fn size(&mut self) -> Result<u64, SourceFault> {
        if !self.burn()
            && let Ok(length) = self.source.size()
        {
            return Ok(length);
        }
        self.failures = self.failures.saturating_add(1);
        Err(SourceFault)
    }

    fn fill_at(&mut self, at: u64, to: &mut [u8]) -> Result<(), SourceFault> {
        self.asked = self.asked.saturating_add(to.len() as u128);
        if !self.burn() && self.source.fill_at(at, to).is_ok() {
            return Ok(());
        }
        self.failures = self.failures.saturating_add(1);
        Err(SourceFault)
    }

    fn asked(&self) -> u128 {
        self.asked
    }

    fn failures(&self) -> u64 {
        self.failures
    }
}
