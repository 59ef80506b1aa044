//! Sources: devices with a fixed list of bytes, read at any offset; and a slice as a source.

ghost use Rattle.std.specs.Prelude.{◌≡◌, ◌+◌, ◌^◌, ◌<◌, ◌≤◌, Bool, true, false, length, min, IsTrue, OnOk, OnErr, IfOk, is_err};
ghost use Rattle.std.proofs.Common.{refl};
ghost use Rattle.uimg_base.specs.Device.{Device, RisesIf, SameDevice, asked_more};
ghost use Rattle.uimg_base.specs.{Sink.AppendsPrefix, Using.Uses};
ghost use Rattle.uimg_base.specs.Ranges.{is_read, is_put, SumsRange, TakesRange};
ghost use Rattle.uimg_texts.specs.Slices.{slice};

use crate::output::Out;
use crate::ranges::{MoveFault, put_fed};
use std::io::Write;
use thiserror::Error;
use uimg_sums::Sums;

/// A source could not be opened, or a read of it failed.
#[derive(Clone, Copy, Debug, PartialEq, Eq, Error)]
#[error("read failed")]
pub struct SourceFault;

/// A device with a fixed list of bytes, read at any offset.
///
/// Contracts see a source as a `Device`: its bytes, whether it is honest (returns those bytes), how
/// many bytes were requested, and how many calls failed. No call changes the bytes or the honesty.
pub trait Source: Drop {
    /// What contracts see of the source.
    ghost device: { Self → Device };

    /// Whether no call fails. It is a fact of the type: sources in memory are steady.
    ghost steady: { Bool } = { false };

    /// Returns the number of bytes of the source. Requests none of them.
    ///
    /// Returns `SourceFault` only if `failures` rose by 1 in this call, or was at its greatest
    /// value.
    fn size(&mut self) -> Result<u64, SourceFault>
        ensures length { IfOk result (λ n. n ≡ length (device self.old).bytes) }
        ensures same { SameDevice (device self.old) (device self.new) }
        ensures asked { (device self.new).asked ≡ (device self.old).asked }
        ensures failures { RisesIf (is_err result) (device self.old).failures
            (device self.new).failures }
        ensures counted { (device self.new).failures ≤ (device self.old).failures + 1 };

    /// Fills `to` with the bytes at the offset `at`.
    ///
    /// The range must be inside the source. An honest source gives the bytes there. `asked` rises
    /// by the length of `to`, after a failure too. Returns `SourceFault` only if `failures` rose by
    /// 1 in this call, or was at its greatest value. Then the contents of `to` are unspecified.
    fn fill_at(&mut self, at: u64, to: &mut [u8]) -> Result<(), SourceFault>
        requires { at + length to.old ≤ length (device self.old).bytes }
        ensures bytes { IsTrue (device self.old).honest →
            OnOk result (to.new ≡ slice (device self.old).bytes at (length to.old)) }
        ensures same { SameDevice (device self.old) (device self.new) }
        ensures asked { (device self.new).asked
            ≡ asked_more (device self.old).asked (length to.old) }
        ensures failures { RisesIf (is_err result) (device self.old).failures
            (device self.new).failures }
        ensures counted { (device self.new).failures ≤ (device self.old).failures + 1 };

    /// Feeds to sums as many bytes as `window` has, from the offset `at`.
    ///
    /// They are read to `window`, unless the source has them in memory. The range must be inside the
    /// source. Requests are counted, and `SourceFault` is returned, as `fill_at` does.
    fn feed_at<M: Sums>(
        &mut self,
        at: u64,
        window: &mut [u8],
        sums: &mut M,
    ) -> Result<(), SourceFault>
        requires { at + length window.old ≤ length (device self.old).bytes }
        ensures uses { Uses (is_err result) (device self.old) (device self.new) }
        ensures asked { (device self.new).asked
            ≡ asked_more (device self.old).asked (length window.old) }
        ensures fed { OnOk result (SumsRange M.fed (device self.old) at (length window.old)
            sums.old sums.new) }
    {
        self.fill_at(at, window)?;
        sums.feed_all(window);
        Ok(())
    }

    /// Feeds to sums, and writes, as many bytes as `window` has, from the offset `at`.
    ///
    /// The bytes are read to `window`, unless the source has them in memory. The range must be
    /// inside the source. Requests are counted as `fill_at` does.
    ///
    /// - `MoveFault::Read`: if and only if the read failed; then nothing is written.
    /// - `MoveFault::Put`: if and only if a write failed.
    fn take_at<M: Sums, W: Write>(
        &mut self,
        at: u64,
        window: &mut [u8],
        sums: &mut M,
        out: &mut Out<W>,
    ) -> Result<(), MoveFault>
        requires { at + length window.old ≤ length (device self.old).bytes }
        ensures uses { Uses (is_read result) (device self.old) (device self.new) }
        ensures asked { (device self.new).asked
            ≡ asked_more (device self.old).asked (length window.old) }
        ensures faults { RisesIf (is_put result) out.old.faults out.new.faults }
        ensures prefix { IsTrue (device self.old).honest → AppendsPrefix out.old out.new
            (slice (device self.old).bytes at (length window.old)) }
        ensures taken { OnOk result (TakesRange M.fed (device self.old) at (length window.old)
            sums.old sums.new out.old out.new) }
    {
        if self.fill_at(at, window).is_err() {
            return Err(MoveFault::Read);
        }
        put_fed(window, sums, out)
    }

    /// Feeds to sums, and writes, bytes from the offset `at`: at least one, and at most `most`.
    /// Returns how many.
    ///
    /// The bytes are read to `window`, as many as it has, unless the source has them in memory. The
    /// range of `most` bytes must be inside the source; neither it nor the window is empty. As many
    /// bytes are requested as are returned; at a fault at most as many as `window` has. Returns
    /// `MoveFault` as `take_at` does.
    fn take_some<M: Sums, W: Write>(
        &mut self,
        at: u64,
        most: u64,
        window: &mut [u8],
        sums: &mut M,
        out: &mut Out<W>,
    ) -> Result<u64, MoveFault>
        requires inside { at + most ≤ length (device self.old).bytes }
        requires some { 1 ≤ most }
        requires room { 1 ≤ length window.old }
        ensures uses { Uses (is_read result) (device self.old) (device self.new) }
        ensures count { IfOk result (λ n. (1 ≤ n) × (n ≤ most)) }
        ensures asked { IfOk result (λ n. (device self.new).asked
            ≡ asked_more (device self.old).asked n) }
        ensures ahead { OnErr result ((device self.new).asked
            ≤ (device self.old).asked + min most (length window.old)) }
        ensures faults { RisesIf (is_put result) out.old.faults out.new.faults }
        ensures prefix { IsTrue (device self.old).honest → OnErr result (AppendsPrefix out.old
            out.new (slice (device self.old).bytes at (min most (length window.old)))) }
        ensures taken { IfOk result (λ n. TakesRange M.fed (device self.old) at n
            sums.old sums.new out.old out.new) }
    {
        let next = u64::min(most, window.len() as u64);
        self.take_at(at, &mut window[..next as usize], sums, out)?;
        Ok(next)
    }

    /// Returns how many bytes were requested, failed calls included. It saturates.
    fn asked(&self) -> u128
        ensures { result ≡ (device self.now).asked };

    /// Returns how many calls failed. It saturates.
    fn failures(&self) -> u64
        ensures { result ≡ (device self.now).failures };

    /// A steady source never failed.
    ghost never_failed: { (s : Self) → IsTrue steady → (device s).failures ≡ 0 };

    /// A source has fewer than 2^64 bytes.
    ghost short: { (s : Self) → length (device s).bytes < 2 ^ 64 };
}

/// A slice as a source. It is honest and never fails.
#[derive(Drop)]
pub struct MemSource<'a> {
    bytes: &'a [u8],
    asked: u128,
    ghost short: { length bytes.now < 2 ^ 64 },
}

impl<'a> MemSource<'a> {
    /// Creates a source of these bytes. Nothing was requested of it yet.
    pub fn new(bytes: &'a [u8]) -> MemSource<'a>
        ensures { ⟦<MemSource<'a> as Source>⟧.device result
            ≡ record { bytes = bytes.now; honest = true; asked = 0; failures = 0 } }
    {
        MemSource { bytes, asked: 0 }
    }
}

impl<'a> Source for MemSource<'a> {
    ghost device = { λ s. record { bytes = s.bytes.now; honest = true; asked = s.asked; failures = 0 } };

    ghost steady = { true };

    ghost never_failed = { λ s always. refl };

    ghost short = { λ s. s.short };

    fn size(&mut self) -> Result<u64, SourceFault> {
        Ok(self.bytes.len() as u64)
    }

    fn fill_at(&mut self, at: u64, to: &mut [u8]) -> Result<(), SourceFault> {
        self.asked = self.asked.saturating_add(to.len() as u128);
        let start = at as usize;
        to.copy_from_slice(&self.bytes[start..start + to.len()]);
        Ok(())
    }

    fn asked(&self) -> u128 {
        self.asked
    }

    fn failures(&self) -> u64 {
        0
    }
}
