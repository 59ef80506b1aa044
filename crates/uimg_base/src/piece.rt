//! A piece read ahead of a file, which serves long reads that follow one another.
ghost use Rattle.std.specs.Prelude.{◌≡◌, ◌≤◌, length, Option, IsTrue, []};
ghost use Rattle.uimg_base.specs.Streams.{Stream, StandsAt, SameBytes, HoldsFrom, IsInside};
ghost use Rattle.uimg_base.specs.Ahead.{IsPieceAhead, HasPiece};

use crate::reading::{move_to, read_some};
use crate::seek_read::SeekRead;
use crate::windows::AHEAD;
use std::alloc::Global;

/// The most bytes of a piece: 128 KiB.
pub(crate) const PIECE: usize = 131072;

/// Bytes of a file from one long read, and their offset.
///
/// It takes memory when two reads of at least `AHEAD` bytes follow one another, and frees it at the
/// end of the file. If the memory is refused, it has no bytes.
#[derive(Drop)]
pub(crate) struct Piece {
    pub(crate) at: u64,
    pub(crate) bytes: Vec<u8, Global>,
    // where the last long read ended
    next: u64,
}

impl Piece {
    pub(crate) fn new(alloc: Global) -> Piece
        ensures { (s : Option Stream) → IsPieceAhead result s }
    {
        Piece {
            at: 0,
            bytes: Vec::new(alloc),
            next: u64::MAX,
        }
    }

    // Returns whether the piece has the bytes. A new piece is read if this read follows the one
    // before. `left` is the number of bytes from the offset to the file's end.
    pub(crate) fn hold<F: SeekRead>(
        &mut self,
        file: &mut F,
        position: &mut Option<u64>,
        at: u64,
        left: u64,
        len: usize,
    ) -> bool
        requires stands { StandsAt position.old (F.stream file.old) }
        requires ahead { IsPieceAhead self.old (F.stream file.old) }
        requires inside { IsInside at left (F.stream file.old) }
        ensures stands { StandsAt position.new (F.stream file.new) }
        ensures same { SameBytes (F.stream file.old) (F.stream file.new) }
        ensures ahead { IsPieceAhead self.new (F.stream file.new) }
        ensures holds { IsTrue result → HasPiece at len self.new }
    {
        let follows = self.follows(at, len);
        if follows && !self.has(at, len) {
            let most = u64::min(PIECE as u64, left) as usize;
            self.read_ahead(file, position, at, most);
        }
        self.has(at, len)
    }

    fn has(&self, at: u64, len: usize) -> bool
        ensures { IsTrue result → HasPiece at len self.now }
    {
        if at < self.at || at - self.at > self.bytes.len() as u64 {
            return false;
        }
        len <= self.bytes.len() - (at - self.at) as usize
    }

    pub(crate) fn part(&self, at: u64, len: usize) -> &[u8]
        requires { HasPiece at len self.now }
        ensures length { length result.now ≡ len }
        ensures part { (s : Option Stream) → IsPieceAhead self.now s → HoldsFrom at s result.now }
    {
        let start = (at - self.at) as usize;
        &self.bytes[start..start + len]
    }

    pub(crate) fn up_to(&self, at: u64, len: usize, most: u64) -> &[u8]
        requires has { HasPiece at len self.now }
        requires most { len ≤ most }
        ensures least { len ≤ length result.now }
        ensures most { length result.now ≤ most }
        ensures part { (s : Option Stream) → IsPieceAhead self.now s → HoldsFrom at s result.now }
    {
        let left = self.bytes.len() - (at - self.at) as usize;
        self.part(at, u64::min(most, left as u64) as usize)
    }

    // Notes that a long read ended at an offset.
    pub(crate) fn end_at(&mut self, end: u64)
        ensures at { self.new.at ≡ self.old.at }
        ensures bytes { self.new.bytes ≡ self.old.bytes }
    {
        self.next = end;
    }

    // Frees the memory, and so drops the bytes, if a read of `len` bytes reaches the end of the file.
    pub(crate) fn free_at_end(&mut self, left: u64, len: usize)
        ensures ahead { (s : Option Stream) → IsPieceAhead self.old s → IsPieceAhead self.new s }
        ensures freed { left ≤ len → self.new.bytes.items ≡ [] }
    {
        if left <= len as u64 {
            self.bytes.clear();
            self.bytes.shrink_to_fit();
        }
    }

    // Returns whether a read is long and begins where the last long one ended. Notes where it ends.
    fn follows(&mut self, at: u64, len: usize) -> bool
        ensures at { self.new.at ≡ self.old.at }
        ensures bytes { self.new.bytes ≡ self.old.bytes }
    {
        if len < AHEAD {
            return false;
        }
        let follows = self.next == at;
        self.next = at.saturating_add(len as u64);
        follows
    }

    // Reads once, at most `most` bytes. After a failure the piece has none.
    fn read_ahead<F: SeekRead>(
        &mut self,
        file: &mut F,
        position: &mut Option<u64>,
        at: u64,
        most: usize,
    )
        requires few { most ≤ 131072 }
        requires inside { IsInside at most (F.stream file.old) }
        requires stands { StandsAt position.old (F.stream file.old) }
        ensures stands { StandsAt position.new (F.stream file.new) }
        ensures same { SameBytes (F.stream file.old) (F.stream file.new) }
        ensures ahead { IsPieceAhead self.new (F.stream file.old) }
        ensures read { length self.new.bytes.items ≤ most }
    {
        if self.bytes.resize(most, 0).is_err() || !move_to(file, position, at) {
            self.bytes.clear();
            return;
        }
        self.at = at;
        let count = read_some(file, &mut self.bytes[..]);
        *position = count.and_then(|count| at.checked_add(count as u64));
        self.bytes.truncate(count.unwrap_or(0));
    }
}
