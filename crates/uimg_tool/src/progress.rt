//! How far the reading of a large file is, shown on a terminal while it takes long.

use std::alloc::Global;
use std::cell::Cell;
use std::io;
use std::io::Write;
use std::time::{Clock, Duration};

/// The work is shown once it takes longer than this, in milliseconds.
const PATIENCE: u64 = 2000;

/// The time between two drawings, in milliseconds.
const PAUSE: u64 = 200;

/// A line on standard error with the bytes that were read of a file, drawn again and again in its
/// place.
#[derive(Drop)]
pub struct Meter<'a, R: Clock, V: Write + Copy> {
    clock: &'a R,
    alloc: Global,
    err: V,
    // when to draw next, by the clock; none if nothing is drawn
    next: Cell<Option<Duration>>,
    is_drawn: Cell<bool>,
}

impl<'a, R: Clock, V: Write + Copy> Meter<'a, R, V> {
    /// Creates a meter that draws to `err`, two seconds from now on, or never unless `is_shown`.
    pub fn new(clock: &'a R, alloc: Global, err: V, is_shown: bool) -> Meter<'a, R, V> {
        let next = match clock.monotonic() {
            Ok(now) if is_shown => now.checked_add(Duration::from_millis(PATIENCE)),
            _ => None,
        };
        Meter {
            clock,
            alloc,
            err,
            next: Cell::new(next),
            is_drawn: Cell::new(false),
        }
    }

    pub(crate) fn is_shown(&self) -> bool {
        self.next.get().is_some()
    }

    /// Draws how many bytes were read, of how many, if it is time. Failures are ignored.
    pub(crate) fn note(&self, read: u64, all: u64) {
        let (Some(next), Ok(now)) = (self.next.get(), self.clock.monotonic()) else {
            return;
        };
        if now < next {
            return;
        }
        self.next.set(now.checked_add(Duration::from_millis(PAUSE)));
        self.is_drawn.set(true);
        let Ok(line) = format!(in self.alloc; "\r{} of {} MiB\x1b[K", read >> 20, all >> 20) else {
            return;
        };
        let mut err = self.err;
        let _ = err.write_all(line.as_bytes());
    }

    /// Erases what is drawn.
    pub fn clear(&self) {
        if self.is_drawn.get() {
            self.is_drawn.set(false);
            let mut err = self.err;
            let _ = err.write_all(b"\r\x1b[K");
        }
    }
}

/// An output that erases what a meter drew before each write.
#[derive(Drop)]
pub struct Cleared<'a, R: Clock, V: Write + Copy, W: Write> {
    meter: &'a Meter<'a, R, V>,
    out: W,
}

impl<'a, R: Clock, V: Write + Copy, W: Write> Cleared<'a, R, V, W> {
    /// Creates an output over `out`.
    pub fn new(meter: &'a Meter<'a, R, V>, out: W) -> Cleared<'a, R, V, W> {
        Cleared { meter, out }
    }
}

impl<'a, R: Clock, V: Write + Copy, W: Write> Write for Cleared<'a, R, V, W> {
    ghost contents = { λ c. W.contents c.out };

    fn write(&mut self, buf: &[u8]) -> io::Result<usize> {
        self.meter.clear();
        self.out.write(buf)
    }

    fn flush(&mut self) -> io::Result<()> {
        self.out.flush()
    }
}
