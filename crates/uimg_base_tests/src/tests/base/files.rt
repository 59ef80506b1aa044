//! A file that returns few bytes per read, or fails.
ghost use Rattle.std.specs.Prelude.{None};

use super::steps::{cut, number};
use std::cell::Cell;
use std::io;
use std::io::{Error, ErrorKind};
use uimg_base::SeekRead;

/// A file of digits, each that of its offset.
#[derive(Drop)]
pub(super) struct DigitFile<'a> {
    at: u64,

    /// The most bytes that a read returns.
    most: usize,

    /// The offset from which on a read returns no bytes, or an error.
    end: u64,
    fails: bool,

    /// The offset that no read may pass.
    bad: u64,

    /// How many reads are interrupted first.
    interrupts: u64,

    /// The length that the file reports.
    length: u64,

    /// The number of reads so far.
    turns: &'a Cell<u64>,
}

impl<'a> DigitFile<'a> {
    /// What is not given has no limit.
    pub(super) fn new(description: &str, turns: &'a Cell<u64>) -> DigitFile<'a> {
        let mut file = DigitFile {
            at: 0,
            most: usize::MAX,
            end: u64::MAX,
            fails: false,
            bad: u64::MAX,
            interrupts: 0,
            length: u64::MAX,
            turns,
        };
        for part in description.split('|') {
            file.takes(part);
        }
        file
    }

    fn takes(&mut self, part: &str) {
        let (word, rest) = cut(part);
        match word {
            "most" => self.most = number(rest) as usize,
            "end" => self.end = number(rest),
            "error" => self.fails = true,
            "bad" => self.bad = number(rest),
            "interrupts" => self.interrupts = number(rest),
            "length" => self.length = number(rest),
            _ => {}
        }
    }

    fn error(&mut self, count: usize) -> Option<ErrorKind> {
        if self.interrupts > 0 {
            self.interrupts -= 1;
            return Some(ErrorKind::Interrupted);
        }
        let is_past = self.at.saturating_add(count as u64) > self.bad;
        if is_past || (self.fails && self.at >= self.end) {
            return Some(ErrorKind::Other);
        }
        None
    }
}

impl<'a> SeekRead for DigitFile<'a> {
    ghost stream = { λ _. None };

    fn read_on(&mut self, to: &mut [u8]) -> io::Result<usize> {
        self.turns.set(self.turns.get().saturating_add(1));
        if let Some(kind) = self.error(to.len()) {
            return Err(Error::from(kind));
        }
        if self.at >= self.end {
            return Ok(0);
        }
        let count = usize::min(to.len(), self.most);
        for byte in to[..count].iter_mut() {
            *byte = b'0' + (self.at % 10) as u8;
            self.at = self.at.saturating_add(1);
        }
        Ok(count)
    }

    fn move_to(&mut self, at: u64) -> io::Result<()> {
        self.at = at;
        Ok(())
    }

    fn move_to_end(&mut self) -> io::Result<u64> {
        self.at = self.length;
        Ok(self.length)
    }
}
