//! Open files, which can be read and moved, as sources.

ghost use Rattle.std.specs.Prelude.{◌≡◌, [], ◌^◌, ◌<◌, true, IfOk, IfSome, is_some};
ghost use Rattle.std.proofs.Common.{rules};
ghost use Rattle.std.proofs.Props.{props};
ghost use Rattle.uimg_base.specs.Device.{IsFresh};
ghost use Rattle.uimg_base.specs.Ahead.{IsAhead, IsPieceAhead};
ghost use Rattle.uimg_base.specs.Streams.{StandsAt, HasLength, stream_bytes_of, short_bytes};

use crate::opened_names::OpenedNames;
use crate::output::Out;
use crate::ranges::{MoveFault, put_fed, put_some_fed};
use crate::reading::Reading;
use crate::seek_read::SeekRead;
use crate::source::{Source, SourceFault};
use std::alloc::Global;
use std::io::Write;
use uimg_sums::Sums;

/// An open file as a source, read by seek and read.
///
/// The length is that found at creation. Over a file whose bytes contracts know, it is an honest
/// source of these bytes. Over any other, contracts see zeros, and it is not claimed to be honest.
///
/// Reads of fewer than 4096 bytes are served from two windows of 4096 bytes that are read ahead. If
/// two longer ones follow one another, 128 KiB are read ahead. Their memory is freed at the end of
/// the file; sums are fed and bytes are written from it. Without this memory only the requested
/// bytes are read. It never reads past the length, nor ahead by more than one such piece. If a read
/// ahead fails or is short, only the requested bytes are read.
#[derive(Drop)]
pub struct SeekSource<F: SeekRead> {
    file: F,
    reading: Reading,
    /// The path at which the file was opened, if by its path.
    pub paths: OpenedNames,
    ghost short: { reading.length < 2 ^ 64 },
    ghost stands: { StandsAt reading.position (F.stream file) } by { Prim.hlevel props },
    ghost first_ahead: { IsAhead reading.windows.first (F.stream file) } by { Prim.hlevel props },
    ghost second_ahead: { IsAhead reading.windows.second (F.stream file) } by { Prim.hlevel props },
    ghost piece_ahead: { IsPieceAhead reading.piece (F.stream file) } by { Prim.hlevel props },
    ghost whole: { HasLength reading.length (F.stream file) } by { Prim.hlevel props },
}

impl<F: SeekRead> SeekSource<F> {
    /// Creates a source of an open file. Nothing was requested of it yet.
    ///
    /// Returns `SourceFault` if the file has no known length (a pipe).
    pub fn new(alloc: Global, mut file: F) -> Result<SeekSource<F>, SourceFault>
        ensures fresh { IfOk result (λ s. IsFresh (⟦<SeekSource<F> as Source>⟧.device s)) }
        ensures paths { IfOk result (λ s. s.paths.names ≡ []) }
        ensures known { IfSome (F.stream file) (λ stream.
            IfOk result (λ s. ⟦<SeekSource<F> as Source>⟧.device s ≡ record {
              bytes = stream.bytes;
              honest = true;
              asked = 0;
              failures = 0;
            })) }
    {
        let reading = Reading::of(alloc, &mut file)?;
        Ok(SeekSource {
            file,
            reading,
            paths: OpenedNames::new(),
        })
    }
}

impl<F: SeekRead> Source for SeekSource<F> {
    ghost device = { λ s. record {
      bytes = stream_bytes_of s.reading.length (F.stream s.file);
      honest = is_some (F.stream s.file);
      asked = s.reading.asked;
      failures = s.reading.failures;
    } };

    ghost never_failed = { λ s always. Prim.search rules };

    ghost short = { λ s. short_bytes s.reading.length (F.stream s.file) s.short s.whole };

    fn size(&mut self) -> Result<u64, SourceFault> {
        Ok(self.reading.length)
    }

    fn fill_at(&mut self, at: u64, to: &mut [u8]) -> Result<(), SourceFault> {
        self.reading.fill_at(&mut self.file, at, to)
    }

    fn feed_at<M: Sums>(
        &mut self,
        at: u64,
        window: &mut [u8],
        sums: &mut M,
    ) -> Result<(), SourceFault> {
        if !self.reading.hold(&mut self.file, at, window.len()) {
            self.reading.fill_beside(&mut self.file, at, window)?;
            sums.feed_all(window);
            return Ok(());
        }
        sums.feed_all(self.reading.piece.part(at, window.len()));
        self.reading.free_at_end(at, window.len());
        Ok(())
    }

    fn take_at<M: Sums, W: Write>(
        &mut self,
        at: u64,
        window: &mut [u8],
        sums: &mut M,
        out: &mut Out<W>,
    ) -> Result<(), MoveFault> {
        if !self.reading.hold(&mut self.file, at, window.len()) {
            if self
                .reading
                .fill_beside(&mut self.file, at, window)
                .is_err()
            {
                return Err(MoveFault::Read);
            }
            return put_fed(window, sums, out);
        }
        let put = put_fed(self.reading.piece.part(at, window.len()), sums, out);
        self.reading.free_at_end(at, window.len());
        put
    }

    fn take_some<M: Sums, W: Write>(
        &mut self,
        at: u64,
        most: u64,
        window: &mut [u8],
        sums: &mut M,
        out: &mut Out<W>,
    ) -> Result<u64, MoveFault> {
        let next = u64::min(most, window.len() as u64) as usize;
        if !self.reading.has(&mut self.file, at, next) {
            self.take_at(at, &mut window[..next], sums, out)?;
            return Ok(next as u64);
        }
        let taken = put_some_fed(self.reading.piece.up_to(at, next, most), sums, out)?;
        self.reading.gave(at, taken);
        Ok(taken as u64)
    }

    fn asked(&self) -> u128 {
        self.reading.asked
    }

    fn failures(&self) -> u64 {
        self.reading.failures
    }
}
