//! Windows read ahead of a file, which serve consecutive small reads with few reads of the file.
ghost use Rattle.std.specs.Prelude.{◌≤◌, length, Option, IsTrue};
ghost use Rattle.uimg_base.specs.Streams.{Stream, StandsAt, SameBytes, HoldsFrom, IsInside};
ghost use Rattle.uimg_base.specs.Ahead.{IsAhead, AreAhead};

use crate::reading::{move_to, read_some};
use crate::seek_read::SeekRead;

/// The most bytes that are read ahead.
pub(crate) const AHEAD: usize = 4096;

/// Bytes of a file from one read, and their offset.
#[derive(Drop)]
pub(crate) struct Window {
    pub(crate) at: u64,
    pub(crate) count: usize,
    pub(crate) bytes: [u8; AHEAD],
}

impl Window {
    fn new() -> Window
        ensures { (s : Option Stream) → IsAhead result s }
    {
        Window {
            at: 0,
            count: 0,
            bytes: [0; AHEAD],
        }
    }

    // Copies the bytes if the window has all of them. Returns whether it has.
    fn give(&self, at: u64, to: &mut [u8]) -> bool
        ensures { IsTrue result → (s : Option Stream) → IsAhead self.now s →
            HoldsFrom at s to.new }
    {
        if at < self.at || at - self.at > self.count as u64 {
            return false;
        }
        let start = (at - self.at) as usize;
        if to.len() > self.count - start {
            return false;
        }
        let Some(found) = self.bytes.get(start..start + to.len()) else {
            return false;
        };
        to.copy_from_slice(found);
        true
    }

    // Reads once, at most `most` bytes. After a failure the window has none.
    fn read_ahead<F: SeekRead>(
        &mut self,
        file: &mut F,
        position: &mut Option<u64>,
        at: u64,
        most: usize,
    )
        requires few { most ≤ 4096 }
        requires inside { IsInside at most (F.stream file.old) }
        requires stands { StandsAt position.old (F.stream file.old) }
        ensures stands { StandsAt position.new (F.stream file.new) }
        ensures same { SameBytes (F.stream file.old) (F.stream file.new) }
        ensures ahead { IsAhead self.new (F.stream file.old) }
        ensures read { self.new.count ≤ most }
    {
        self.count = 0;
        if !move_to(file, position, at) {
            return;
        }
        self.at = at;
        match read_some(file, &mut self.bytes[..most]) {
            Some(count) => {
                self.count = count;
                *position = at.checked_add(count as u64);
            }
            None => *position = None,
        }
    }
}

/// Two windows; the one used longest ago is read anew. Reads of a blob's structure block and
/// strings block alternate.
#[derive(Drop)]
pub(crate) struct Windows {
    pub(crate) first: Window,
    pub(crate) second: Window,
    pub(crate) first_is_newer: bool,
}

impl Windows {
    pub(crate) fn new() -> Windows
        ensures { (s : Option Stream) → AreAhead result s }
    {
        Windows {
            first: Window::new(),
            second: Window::new(),
            first_is_newer: false,
        }
    }

    // Fills `to` from a window that has its bytes. If none has, reads one anew, at most `most`
    // bytes. Returns whether `to` is full.
    pub(crate) fn fill<F: SeekRead>(
        &mut self,
        file: &mut F,
        position: &mut Option<u64>,
        at: u64,
        most: usize,
        to: &mut [u8],
    ) -> bool
        requires few { most ≤ 4096 }
        requires inside { IsInside at most (F.stream file.old) }
        requires stands { StandsAt position.old (F.stream file.old) }
        requires ahead { AreAhead self.old (F.stream file.old) }
        ensures stands { StandsAt position.new (F.stream file.new) }
        ensures same { SameBytes (F.stream file.old) (F.stream file.new) }
        ensures ahead { AreAhead self.new (F.stream file.new) }
        ensures filled { IsTrue result → HoldsFrom at (F.stream file.old) to.new }
    {
        if self.first.give(at, to) {
            self.first_is_newer = true;
            return true;
        }
        if self.second.give(at, to) {
            self.first_is_newer = false;
            return true;
        }
        self.first_is_newer = !self.first_is_newer;
        if self.first_is_newer {
            self.first.read_ahead(file, position, at, most);
            self.first.give(at, to)
        } else {
            self.second.read_ahead(file, position, at, most);
            self.second.give(at, to)
        }
    }
}
