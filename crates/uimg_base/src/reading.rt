//! Reads of a file at any offset; small ones, and those that follow one another, are read ahead.

ghost use Rattle.std.specs.Prelude.{◌≡◌, ◌≤◌, ◌+◌, ◌-◌, [], length, is_err, Option, Some, IfOk, IfSome, IsTrue, OnOk};
ghost use Rattle.uimg_base.specs.Device.{RisesIf, asked_more};
ghost use Rattle.uimg_base.specs.Ahead.{AreAhead, IsPieceAhead, HasPiece};
ghost use Rattle.uimg_base.specs.Streams.{Stream, StandsAt, SameBytes, HoldsFrom, HasLength, ReadsOn};

use crate::piece::Piece;
use crate::seek_read::SeekRead;
use crate::source::SourceFault;
use crate::windows::{AHEAD, Windows};
use std::alloc::Global;
use std::io::ErrorKind;

/// The state of an open file: its position, if known, what is read ahead, its length, and the
/// counters of a source.
#[derive(Drop)]
pub(crate) struct Reading {
    pub(crate) position: Option<u64>,
    pub(crate) windows: Windows,
    pub(crate) piece: Piece,
    pub(crate) length: u64,
    pub(crate) asked: u128,
    pub(crate) failures: u64,
}

impl Reading {
    pub(crate) fn of<F: SeekRead>(alloc: Global, file: &mut F) -> Result<Reading, SourceFault>
        ensures same { SameBytes (F.stream file.old) (F.stream file.new) }
        ensures stands { IfOk result (λ r. StandsAt r.position (F.stream file.new)) }
        ensures ahead { IfOk result (λ r. AreAhead r.windows (F.stream file.new)) }
        ensures piece { IfOk result (λ r. IsPieceAhead r.piece (F.stream file.new)) }
        ensures whole { IfOk result (λ r. HasLength r.length (F.stream file.new)) }
        ensures asked { IfOk result (λ r. r.asked ≡ 0) }
        ensures failures { IfOk result (λ r. r.failures ≡ 0) }
    {
        let Ok(length) = file.move_to_end() else {
            return Err(SourceFault);
        };
        Ok(Reading {
            position: Some(length),
            windows: Windows::new(),
            piece: Piece::new(alloc),
            length,
            asked: 0,
            failures: 0,
        })
    }

    // Counts the requested bytes, and a failure.
    pub(crate) fn fill_at<F: SeekRead>(
        &mut self,
        file: &mut F,
        at: u64,
        to: &mut [u8],
    ) -> Result<(), SourceFault>
        requires stands { StandsAt self.old.position (F.stream file.old) }
        requires ahead { AreAhead self.old.windows (F.stream file.old) }
        requires piece { IsPieceAhead self.old.piece (F.stream file.old) }
        requires whole { HasLength self.old.length (F.stream file.old) }
        ensures stands { StandsAt self.new.position (F.stream file.new) }
        ensures ahead { AreAhead self.new.windows (F.stream file.new) }
        ensures piece { IsPieceAhead self.new.piece (F.stream file.new) }
        ensures same { SameBytes (F.stream file.old) (F.stream file.new) }
        ensures length { self.new.length ≡ self.old.length }
        ensures bytes { OnOk result (HoldsFrom at (F.stream file.old) to.new) }
        ensures asked { self.new.asked ≡ asked_more self.old.asked (length to.old) }
        ensures failures { RisesIf (is_err result) self.old.failures self.new.failures }
        ensures counted { self.new.failures ≤ self.old.failures + 1 }
        ensures freed { self.old.length - at ≤ length to.old → self.new.piece.bytes.items ≡ [] }
    {
        if !self.hold(file, at, to.len()) {
            return self.fill_beside(file, at, to);
        }
        to.copy_from_slice(self.piece.part(at, to.len()));
        self.free_at_end(at, to.len());
        Ok(())
    }

    // Counts `len` requested bytes. Returns whether the piece has them. It is read ahead if this
    // read follows the one before.
    pub(crate) fn hold<F: SeekRead>(&mut self, file: &mut F, at: u64, len: usize) -> bool
        requires stands { StandsAt self.old.position (F.stream file.old) }
        requires ahead { AreAhead self.old.windows (F.stream file.old) }
        requires piece { IsPieceAhead self.old.piece (F.stream file.old) }
        requires whole { HasLength self.old.length (F.stream file.old) }
        ensures stands { StandsAt self.new.position (F.stream file.new) }
        ensures ahead { AreAhead self.new.windows (F.stream file.new) }
        ensures piece { IsPieceAhead self.new.piece (F.stream file.new) }
        ensures same { SameBytes (F.stream file.old) (F.stream file.new) }
        ensures length { self.new.length ≡ self.old.length }
        ensures asked { self.new.asked ≡ asked_more self.old.asked len }
        ensures failures { self.new.failures ≡ self.old.failures }
        ensures holds { IsTrue result → HasPiece at len self.new.piece }
    {
        self.count_asked(len);
        self.has(file, at, len)
    }

    pub(crate) fn count_asked(&mut self, len: usize)
        ensures same { self.new ≡ record self.old { asked = self.new.asked } }
        ensures asked { self.new.asked ≡ asked_more self.old.asked len }
    {
        self.asked = self.asked.saturating_add(len as u128);
    }

    // The piece is read ahead if this read follows the one before.
    pub(crate) fn has<F: SeekRead>(&mut self, file: &mut F, at: u64, len: usize) -> bool
        requires stands { StandsAt self.old.position (F.stream file.old) }
        requires ahead { AreAhead self.old.windows (F.stream file.old) }
        requires piece { IsPieceAhead self.old.piece (F.stream file.old) }
        requires whole { HasLength self.old.length (F.stream file.old) }
        ensures stands { StandsAt self.new.position (F.stream file.new) }
        ensures ahead { AreAhead self.new.windows (F.stream file.new) }
        ensures piece { IsPieceAhead self.new.piece (F.stream file.new) }
        ensures same { SameBytes (F.stream file.old) (F.stream file.new) }
        ensures length { self.new.length ≡ self.old.length }
        ensures asked { self.new.asked ≡ self.old.asked }
        ensures failures { self.new.failures ≡ self.old.failures }
        ensures holds { IsTrue result → HasPiece at len self.new.piece }
    {
        let left = self.length.saturating_sub(at);
        self.piece.hold(file, &mut self.position, at, left, len)
    }

    // Counts `len` requested bytes that the piece gave. Frees it at the end of the file.
    pub(crate) fn gave(&mut self, at: u64, len: usize)
        ensures same { self.new ≡ record self.old { asked = self.new.asked; piece = self.new.piece } }
        ensures asked { self.new.asked ≡ asked_more self.old.asked len }
        ensures piece { (s : Option Stream) → IsPieceAhead self.old.piece s →
            IsPieceAhead self.new.piece s }
    {
        self.count_asked(len);
        self.piece.end_at(at.saturating_add(len as u64));
        self.free_at_end(at, len);
    }

    // Frees the piece if `len` bytes at an offset reach the end of the file.
    pub(crate) fn free_at_end(&mut self, at: u64, len: usize)
        ensures same { self.new ≡ record self.old { piece = self.new.piece } }
        ensures piece { (s : Option Stream) → IsPieceAhead self.old.piece s →
            IsPieceAhead self.new.piece s }
        ensures freed { self.old.length - at ≤ len → self.new.piece.bytes.items ≡ [] }
    {
        let left = self.length.saturating_sub(at);
        self.piece.free_at_end(left, len);
    }

    // Fills `to` without the piece: from a window if it is small, or else by reading only the
    // requested bytes. Counts a failure.
    pub(crate) fn fill_beside<F: SeekRead>(
        &mut self,
        file: &mut F,
        at: u64,
        to: &mut [u8],
    ) -> Result<(), SourceFault>
        requires stands { StandsAt self.old.position (F.stream file.old) }
        requires ahead { AreAhead self.old.windows (F.stream file.old) }
        requires piece { IsPieceAhead self.old.piece (F.stream file.old) }
        requires whole { HasLength self.old.length (F.stream file.old) }
        ensures stands { StandsAt self.new.position (F.stream file.new) }
        ensures ahead { AreAhead self.new.windows (F.stream file.new) }
        ensures piece { IsPieceAhead self.new.piece (F.stream file.new) }
        ensures same { SameBytes (F.stream file.old) (F.stream file.new) }
        ensures length { self.new.length ≡ self.old.length }
        ensures bytes { OnOk result (HoldsFrom at (F.stream file.old) to.new) }
        ensures asked { self.new.asked ≡ self.old.asked }
        ensures failures { RisesIf (is_err result) self.old.failures self.new.failures }
        ensures counted { self.new.failures ≤ self.old.failures + 1 }
        ensures freed { self.old.length - at ≤ length to.old → self.new.piece.bytes.items ≡ [] }
    {
        self.free_at_end(at, to.len());
        if to.len() < AHEAD {
            let left = self.length.saturating_sub(at);
            let most = u64::min(AHEAD as u64, left) as usize;
            if self.windows.fill(file, &mut self.position, at, most, to) {
                return Ok(());
            }
        }
        if fill_from(file, &mut self.position, at, to) {
            return Ok(());
        }
        self.failures = self.failures.saturating_add(1);
        Err(SourceFault)
    }
}

// Reads once. Returns the number of bytes read, 0 after an interrupt by a signal, or `None` at the
// end of the file and after any other error.
pub(crate) fn read_some<F: SeekRead>(file: &mut F, to: &mut [u8]) -> Option<usize>
    ensures same { SameBytes (F.stream file.old) (F.stream file.new) }
    ensures bound { IfSome result (λ n. n ≤ length to.old) }
    ensures reads { IfSome result (λ n. ReadsOn n (F.stream file.old) (F.stream file.new) to.new) }
{
    match file.read_on(to) {
        Ok(0) => None,
        Ok(count) => Some(count),
        Err(error) if error.kind() == ErrorKind::Interrupted => Some(0),
        Err(_) => None,
    }
}

// Reads at most once per byte. Returns whether `to` is full.
fn fill<F: SeekRead>(file: &mut F, to: &mut [u8]) -> bool
    ensures same { SameBytes (F.stream file.old) (F.stream file.new) }
    ensures filled { IsTrue result → ReadsOn (length to.old) (F.stream file.old)
        (F.stream file.new) to.new }
{
    let mut filled = 0;
    for _turn in 0..to.len() {
        let Some(count) = read_some(file, &mut to[filled..]) else {
            return false;
        };
        filled += count;
        if filled == to.len() {
            return true;
        }
    }
    to.is_empty()
}

// `position` is the file's position, or `None` if unknown.
pub(crate) fn move_to<F: SeekRead>(file: &mut F, position: &mut Option<u64>, at: u64) -> bool
    requires stands { StandsAt position.old (F.stream file.old) }
    ensures stands { StandsAt position.new (F.stream file.new) }
    ensures same { SameBytes (F.stream file.old) (F.stream file.new) }
    ensures there { IsTrue result → StandsAt (Some at) (F.stream file.new) }
{
    if *position == Some(at) {
        return true;
    }
    let moved = file.move_to(at).is_ok();
    *position = if moved { Some(at) } else { None };
    moved
}

fn fill_from<F: SeekRead>(file: &mut F, position: &mut Option<u64>, at: u64, to: &mut [u8]) -> bool
    requires stands { StandsAt position.old (F.stream file.old) }
    ensures stands { StandsAt position.new (F.stream file.new) }
    ensures same { SameBytes (F.stream file.old) (F.stream file.new) }
    ensures filled { IsTrue result → HoldsFrom at (F.stream file.old) to.new }
{
    if to.is_empty() {
        return true;
    }
    if !move_to(file, position, at) {
        return false;
    }
    let full = fill(file, to);
    *position = if full {
        at.checked_add(to.len() as u64)
    } else {
        None
    };
    full
}
