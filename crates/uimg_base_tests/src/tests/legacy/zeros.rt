//! A source of zeros that takes no memory.

ghost use Rattle.std.{specs.Prelude.{◌^◌, ◌<◌, false}, proofs.Common.rules};
ghost use Rattle.uimg_base.specs.Zeros.{zeros, zeros_short};

use uimg_base::{Source, SourceFault};

/// A number of zeros that take no memory. It is not claimed to be honest.
#[derive(Drop)]
pub struct ZeroSource {
    length: u64,
    asked: u128,
    ghost short: { length < 2 ^ 64 },
}

impl ZeroSource {
    pub fn new(length: u64) -> ZeroSource {
        ZeroSource { length, asked: 0 }
    }
}

impl Source for ZeroSource {
    ghost device = { λ s. record { bytes = zeros s.length; honest = false; asked = s.asked; failures = 0 } };

    ghost never_failed = { λ s always. Prim.search rules };

    ghost short = { λ s. zeros_short s.length s.short };

    fn size(&mut self) -> Result<u64, SourceFault> {
        Ok(self.length)
    }

    fn fill_at(&mut self, _at: u64, to: &mut [u8]) -> Result<(), SourceFault> {
        self.asked = self.asked.saturating_add(to.len() as u128);
        to.fill(0);
        Ok(())
    }

    fn asked(&self) -> u128 {
        self.asked
    }

    fn failures(&self) -> u64 {
        0
    }
}
