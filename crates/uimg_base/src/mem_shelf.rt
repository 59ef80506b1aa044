//! A shelf in memory.

ghost use Rattle.std.specs.Prelude.{◌≡◌, ◌^◌, ◌<◌, [], true, Some, length, IsOk, IfOk, IfErr, IsTrue};
ghost use Rattle.std.specs.Io.{WritesAtMost, KnownBytes.{Keeps, WriteAppends}};
ghost use Rattle.std.{specs.IoError.error_kind, proofs.Common.refl};
ghost use Rattle.uimg_base.specs.Device.{IsFresh};

use crate::shelves::Shelf;
use crate::source::{Source, SourceFault};
use std::alloc::Allocator;
use std::io;
use std::io::{ErrorKind, Write};

/// A shelf in memory. It is honest, and keeps what was written when memory for more is refused.
#[derive(Drop)]
pub struct MemShelf<A: Allocator> {
    bytes: Vec<u8, A>,
}

impl<A: Allocator> MemShelf<A> {
    /// Creates an empty shelf. Takes no memory until the first write.
    pub fn new(alloc: A) -> MemShelf<A>
        ensures { ⟦<MemShelf<A> as Write>⟧.contents result ≡ Some [] }
    {
        MemShelf {
            bytes: Vec::new(alloc),
        }
    }
}

impl<A: Allocator> Write for MemShelf<A> {
    ghost contents = { λ s. Some s.bytes.items };

    /// Appends all the bytes, or returns `ErrorKind::OutOfMemory` and appends none.
    fn write(&mut self, buf: &[u8]) -> io::Result<usize>
        ensures bound { WritesAtMost result buf.now }
        ensures bytes { WriteAppends (⟦<MemShelf<A> as Write>⟧.contents self.old)
            (⟦<MemShelf<A> as Write>⟧.contents self.new) result buf.now }
        ensures count { IfOk result (λ n. n ≡ length buf.now) }
        ensures kind { IfErr result (λ e. error_kind e ≡ ErrorKind.OutOfMemory) }
    {
        self.bytes.write(buf)
    }

    fn flush(&mut self) -> io::Result<()>
        ensures ok { IsOk result }
        ensures bytes { Keeps (⟦<MemShelf<A> as Write>⟧.contents self.old)
            (⟦<MemShelf<A> as Write>⟧.contents self.new) }
    {
        Ok(())
    }
}

impl<A: Allocator> Shelf for MemShelf<A> {
    type Kept = MemKept<A>;

    ghost honest = { true };

    ghost steady = { true };

    /// Never fails.
    fn keep(self) -> Result<MemKept<A>, SourceFault>
        ensures ok { IsOk result }
        ensures bytes { IfOk result (λ kept.
            ⟦<MemShelf<A> as Write>⟧.contents self
            ≡ Some (⟦<MemKept<A> as Source>⟧.device kept).bytes) }
        ensures honest { IfOk result (λ kept. IsTrue (⟦<MemKept<A> as Source>⟧.device kept).honest) }
        ensures fresh { IfOk result (λ kept. IsFresh (⟦<MemKept<A> as Source>⟧.device kept)) }
    {
        let MemShelf { bytes } = self;
        Ok(MemKept { bytes, asked: 0 })
    }
}

/// What a `MemShelf` keeps: a source that owns its bytes. It is honest and never fails.
#[derive(Drop)]
pub struct MemKept<A: Allocator> {
    bytes: Vec<u8, A>,
    asked: u128,
    ghost short: { length bytes.items < 2 ^ 64 },
}

impl<A: Allocator> Source for MemKept<A> {
    ghost device = { λ s. record { bytes = s.bytes.items; honest = true; asked = s.asked; failures = 0 } };

    ghost steady = { true };

    ghost never_failed = { λ s always. refl };

    ghost short = { λ s. s.short };

    fn size(&mut self) -> Result<u64, SourceFault> {
        Ok(self.bytes.len() as u64)
    }

    fn fill_at(&mut self, at: u64, to: &mut [u8]) -> Result<(), SourceFault> {
        self.asked = self.asked.saturating_add(to.len() as u128);
        let start = at as usize;
        to.copy_from_slice(&self.bytes[start..start + to.len()]);
        Ok(())
    }

    fn asked(&self) -> u128 {
        self.asked
    }

    fn failures(&self) -> u64 {
        0
    }
}
