//! A writer with a count of failed writes.

ghost use Rattle.std.specs.Prelude.{◌≡◌, ◌+◌, ◌-◌, ◌^◌, ◌≤◌, min, length, take, [], IfOk, IfSome, OnErr, is_err, if◌then◌else◌};
ghost use Rattle.std.specs.{Io.KnownBytes.Appends, List.flat_map};
ghost use Rattle.uimg_base.specs.{Device.RisesIf, Sink.{AppendsAll, AppendsPrefix}, Writing.Writes};

use std::io::Write;
use std::marker::Model;
use thiserror::Error;

/// A write failed.
#[derive(Clone, Copy, Debug, PartialEq, Eq, Error)]
#[error("write failed")]
pub struct PutFault;

/// A writer with a count of failed writes.
///
/// Contracts see it as a `Sink`: the writer's contents, if known, and the count.
#[derive(Drop)]
pub struct Out<W: Write> {
    writer: W,
    faults: u64,
}

impl<W: Write> Model for Out<W> {
    ghost use Rattle.uimg_base.specs.Sink.{Sink};

    ghost Value = { Sink };

    ghost view = { λ o. record { contents = W.contents o.writer; faults = o.faults } };
}

impl<W: Write> Out<W> {
    /// Creates an output to this writer, with no failed write yet.
    pub fn new(writer: W) -> Out<W>
        ensures { result ≡ record { contents = W.contents writer; faults = 0 } }
    {
        Out { writer, faults: 0 }
    }

    /// Returns the writer, with all that was written to it.
    pub fn into_inner(self) -> W
        ensures { W.contents result ≡ self.contents }
    {
        let Out { writer, faults: _ } = self;
        writer
    }

    /// Writes all the bytes.
    ///
    /// Returns `PutFault` if `write` returns an error or accepts nothing. Then a prefix of the
    /// bytes was written, and the count of failures rose by 1, or was at its greatest value.
    pub fn put_all(&mut self, bytes: &[u8]) -> Result<(), PutFault>
        ensures writes { Writes (is_err result) self.old self.new bytes.now }
        ensures counted { self.new.faults ≡ (if is_err result then min (self.old.faults + 1)
            (2 ^ 64 - 1) else self.old.faults) }
    {
        if write_until_fault(&mut self.writer, bytes) == bytes.len() {
            Ok(())
        } else {
            self.faults = self.faults.saturating_add(1);
            Err(PutFault)
        }
    }

    // Writes at least one of the bytes, as many as the writer accepts at once. Returns how many.
    // Returns `PutFault` as `put_all` does; then nothing was written.
    pub(crate) fn put_some(&mut self, bytes: &[u8]) -> Result<usize, PutFault>
        ensures faults { RisesIf (is_err result) self.old.faults self.new.faults }
        ensures count { IfOk result (λ n. (1 ≤ n) × (n ≤ length bytes.now)) }
        ensures put { IfOk result (λ n. AppendsAll self.old self.new (take n bytes.now)) }
        ensures none { OnErr result (AppendsPrefix self.old self.new []) }
    {
        match self.writer.write(bytes) {
            Ok(0) | Err(_) => {
                self.faults = u64::saturating_add(self.faults, 1);
                Err(PutFault)
            }
            Ok(count) => Ok(count),
        }
    }

    /// Writes several pieces as one text, in one write if they have at most 256 bytes.
    ///
    /// Returns `PutFault` as `put_all` does; then a prefix of the text was written.
    pub fn put_pieces(&mut self, pieces: &[&[u8]]) -> Result<(), PutFault>
        ensures writes { Writes (is_err result) self.old self.new
            (flat_map (λ piece. piece.now) pieces.now) }
        ensures counted { self.new.faults ≡ (if is_err result then min (self.old.faults + 1)
            (2 ^ 64 - 1) else self.old.faults) }
    {
        let mut line = [0; 256];
        match gather(pieces, &mut line) {
            Some(length) => self.put_all(&line[..length]),
            None => self.put_each(pieces),
        }
    }

    fn put_each(&mut self, pieces: &[&[u8]]) -> Result<(), PutFault>
        ensures writes { Writes (is_err result) self.old self.new
            (flat_map (λ piece. piece.now) pieces.now) }
        ensures counted { self.new.faults ≡ (if is_err result then min (self.old.faults + 1)
            (2 ^ 64 - 1) else self.old.faults) }
    {
        for piece in pieces {
            self.put_all(piece)?;
        }
        Ok(())
    }
}

// Copies the pieces to the start of `line` in order. Returns their length, or `None` if they do not
// fit.
fn gather(pieces: &[&[u8]], line: &mut [u8; 256]) -> Option<usize>
    ensures bound { IfSome result (λ n. n ≤ 256) }
    ensures text { IfSome result (λ n. take n line.new ≡ flat_map (λ piece. piece.now) pieces.now) }
{
    let mut length = 0;
    for piece in pieces {
        if piece.len() > line.len() - length {
            return None;
        }
        line[length..length + piece.len()].copy_from_slice(piece);
        length += piece.len();
    }
    Some(length)
}

// Writes until all is written or a write fails. Returns the number of bytes written.
fn write_until_fault<W: Write>(writer: &mut W, bytes: &[u8]) -> usize
    ensures bound { result ≤ length bytes.now }
    ensures prefix { Appends (W.contents writer.old) (W.contents writer.new) (take result bytes.now) }
{
    let mut at = 0;
    while at < bytes.len() {
        match writer.write(&bytes[at..]) {
            Ok(0) | Err(_) => return at,
            Ok(count) => at += count,
        }
    }
    at
}
