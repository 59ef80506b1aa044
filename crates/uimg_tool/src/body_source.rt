//! A source after the room for a header.

ghost use Rattle.std.specs.Prelude.{◌≤◌, drop, length, IfOk, IfSome, false, true};
ghost use Rattle.std.proofs.Common.{rules};
ghost use Rattle.uimg_tool.specs.Bodies.{IsBody, short_rest};

use uimg_base::{Source, SourceFault};

/// The length of a header, in bytes.
const HEADER_BYTES: usize = 64;

/// A source without its first bytes.
///
/// Contracts see the bytes after those, and it is honest if the source is.
#[derive(Drop)]
pub(crate) struct BodySource<S: Source> {
    source: S,
    skipped: u64,
    asked: u128,
    failures: u64,
    ghost inside: { skipped ≤ length (S.device source).bytes },
}

impl<S: Source> BodySource<S> {
    /// Returns the whole source.
    pub(crate) fn whole(source: S) -> BodySource<S>
        ensures { IsBody false (S.device source) (⟦<BodySource<S> as Source>⟧.device result) }
    {
        BodySource {
            source,
            skipped: 0,
            asked: 0,
            failures: 0,
        }
    }

    /// Returns a source without its first 64 bytes, or `None` if it is shorter or they are not all
    /// 0xff. Returns `SourceFault` if a read failed.
    pub(crate) fn of(mut source: S) -> Result<Option<BodySource<S>>, SourceFault>
        ensures { IfOk result (λ found. IfSome found (λ body.
            IsBody true (S.device source) (⟦<BodySource<S> as Source>⟧.device body))) }
    {
        let size = source.size()?;
        if size < HEADER_BYTES as u64 {
            return Ok(None);
        }
        let mut room = [0; HEADER_BYTES];
        source.fill_at(0, &mut room)?;
        if room.iter().any(|byte| *byte != 0xff) {
            return Ok(None);
        }
        Ok(Some(BodySource {
            source,
            skipped: HEADER_BYTES as u64,
            asked: 0,
            failures: 0,
        }))
    }
}

impl<S: Source> Source for BodySource<S> {
    ghost device = { λ s. record {
      bytes = drop s.skipped (S.device s.source).bytes;
      honest = (S.device s.source).honest;
      asked = s.asked;
      failures = s.failures;
    } };

    ghost never_failed = { λ s always. Prim.search rules };

    ghost short = { λ s. short_rest (S.device s.source).bytes s.skipped (S.short s.source) };

    #[tactic(auto, using(crate::proofs::BodyLaws::rest_length))]
    fn size(&mut self) -> Result<u64, SourceFault> {
        match self.source.size() {
            Ok(size) => Ok(size - self.skipped),
            Err(fault) => {
                self.failures = self.failures.saturating_add(1);
                Err(fault)
            }
        }
    }

    fn fill_at(&mut self, at: u64, to: &mut [u8]) -> Result<(), SourceFault> {
        self.asked = self.asked.saturating_add(to.len() as u128);
        if self.source.fill_at(at + self.skipped, to).is_ok() {
            return Ok(());
        }
        self.failures = self.failures.saturating_add(1);
        Err(SourceFault)
    }

    fn asked(&self) -> u128 {
        self.asked
    }

    fn failures(&self) -> u64 {
        self.failures
    }
}
