//! Ranges of a source, copied to an output or fed to a sum, one window or piece at a time.

ghost use Rattle.std.specs.Prelude.{◌≡◌, ◌+◌, ◌≤◌, ⊤, false, length, take, [], OnOk, OnErr, IfOk, is_err};
ghost use Rattle.uimg_base.specs.{Honest.HonestSource, Device.{RisesIf, asked_more}};
ghost use Rattle.uimg_base.specs.{Sink.{AppendsPrefix, AppendsAll}, Using.{Asks, AsksAll}};
ghost use Rattle.uimg_base.specs.Ranges.{is_read, is_put, Copies, SumsRange, TakesRange};
ghost use Rattle.uimg_texts.specs.Slices.{slice};
ghost use Rattle.uimg_sums.specs.{Crc.crc, Digest.PutsDigest};

use crate::output::Out;
use crate::room::{Room, WINDOW};
use crate::source::{Source, SourceFault};
use std::alloc::Allocator;
use std::io::Write;
use thiserror::Error;
use uimg_sums::{Crc, Summer, Sums};

/// The device that failed during a copy.
#[derive(Clone, Copy, Debug, PartialEq, Eq, Error)]
pub enum MoveFault {
    /// A read of the source failed.
    #[error("read failed")]
    Read,

    /// A write to the output failed.
    #[error("write failed")]
    Put,
}

// Sums nothing.
#[derive(Drop)]
struct NoSums;

impl Sums for NoSums {
    ghost fed = { λ old new bytes. ⊤ };

    ghost fed_nothing = { λ sums. tt };

    ghost fed_more = { λ first between last xs ys p q. tt };

    fn feed_all(&mut self, _bytes: &[u8]) {}
}

pub(crate) fn put_fed<M: Sums, W: Write>(
    bytes: &[u8],
    sums: &mut M,
    out: &mut Out<W>,
) -> Result<(), MoveFault>
    ensures read { is_read result ≡ false }
    ensures faults { RisesIf (is_put result) out.old.faults out.new.faults }
    ensures prefix { AppendsPrefix out.old out.new bytes.now }
    ensures fed { M.fed sums.old sums.new bytes.now }
    ensures all { OnOk result (AppendsAll out.old out.new bytes.now) }
{
    sums.feed_all(bytes);
    match out.put_all(bytes) {
        Ok(()) => Ok(()),
        Err(_) => Err(MoveFault::Put),
    }
}

/// Writes at least one of the bytes, as many as the writer accepts at once, and feeds these to
/// sums. Returns how many. After a fault nothing was written.
pub(crate) fn put_some_fed<M: Sums, W: Write>(
    bytes: &[u8],
    sums: &mut M,
    out: &mut Out<W>,
) -> Result<usize, MoveFault>
    ensures read { is_read result ≡ false }
    ensures faults { RisesIf (is_put result) out.old.faults out.new.faults }
    ensures count { IfOk result (λ n. (1 ≤ n) × (n ≤ length bytes.now)) }
    ensures put { IfOk result (λ n. AppendsAll out.old out.new (take n bytes.now)) }
    ensures fed { IfOk result (λ n. M.fed sums.old sums.new (take n bytes.now)) }
    ensures none { OnErr result (AppendsPrefix out.old out.new []) }
{
    let Ok(count) = out.put_some(bytes) else {
        return Err(MoveFault::Put);
    };
    sums.feed_all(&bytes[..count]);
    Ok(count)
}

/// Copies `len` bytes at offset `at` of the source to the output, and feeds the same bytes to sums.
///
/// The range must be inside the source. Requests at most `len` bytes, and exactly `len` at `Ok`.
/// Over an honest source, at every exit, a prefix of the range was written and at most 8192 bytes
/// more were requested. At `Ok`, what was fed is what was written, over any source.
///
/// - `MoveFault::Read`: if and only if a read failed.
/// - `MoveFault::Put`: if and only if a write failed.
pub fn take_through<S: Source, M: Sums, W: Write>(
    source: &mut S,
    window: &mut [u8; WINDOW],
    at: u64,
    len: u64,
    sums: &mut M,
    out: &mut Out<W>,
) -> Result<(), MoveFault>
    requires { at + len ≤ length (S.device source.old).bytes }
    ensures uses { Asks len (is_read result) (S.device source.old) (S.device source.new) }
    ensures asked_all { OnOk result
        ((S.device source.new).asked ≡ asked_more (S.device source.old).asked len) }
    ensures faults { RisesIf (is_put result) out.old.faults out.new.faults }
    ensures copied { HonestSource S.device source →
        Copies (is_err result) (S.device source.old) (S.device source.new) out.old out.new
        (slice (S.device source.old).bytes at len) }
    ensures taken { OnOk result (TakesRange M.fed (S.device source.old) at len
        sums.old sums.new out.old out.new) }
{
    let mut done = 0;
    while done < len {
        done += source.take_some(at + done, len - done, &mut window[..], sums, out)?;
    }
    Ok(())
}

/// Copies `len` bytes at offset `at` of the source to the output, through a window.
///
/// The range must be inside the source. Requests at most `len` bytes, and exactly `len` at `Ok`.
/// Over an honest source, at every exit, a prefix of the range was written and at most 8192 bytes
/// more were requested.
///
/// - `MoveFault::Read`: if and only if a read failed.
/// - `MoveFault::Put`: if and only if a write failed.
pub fn copy_through<S: Source, W: Write>(
    source: &mut S,
    window: &mut [u8; WINDOW],
    at: u64,
    len: u64,
    out: &mut Out<W>,
) -> Result<(), MoveFault>
    requires { at + len ≤ length (S.device source.old).bytes }
    ensures uses { Asks len (is_read result) (S.device source.old) (S.device source.new) }
    ensures asked_all { OnOk result
        ((S.device source.new).asked ≡ asked_more (S.device source.old).asked len) }
    ensures faults { RisesIf (is_put result) out.old.faults out.new.faults }
    ensures copied { HonestSource S.device source →
        Copies (is_err result) (S.device source.old) (S.device source.new) out.old out.new
        (slice (S.device source.old).bytes at len) }
{
    take_through(source, window, at, len, &mut NoSums, out)
}

/// Copies `len` bytes at offset `at` of the source to the output, through the room's window.
///
/// The range must be inside the source. Requests at most `len` bytes, and exactly `len` at `Ok`.
/// Over an honest source, at every exit, a prefix of the range was written and at most 8192 bytes
/// more were requested. Only the room's window changes.
///
/// - `MoveFault::Read`: if and only if a read failed.
/// - `MoveFault::Put`: if and only if a write failed.
pub fn copy_range<S: Source, W: Write, A: Allocator>(
    source: &mut S,
    room: &mut Room<A>,
    at: u64,
    len: u64,
    out: &mut Out<W>,
) -> Result<(), MoveFault>
    requires { at + len ≤ length (S.device source.old).bytes }
    ensures uses { Asks len (is_read result) (S.device source.old) (S.device source.new) }
    ensures room { room.new ≡ room.old }
    ensures asked_all { OnOk result
        ((S.device source.new).asked ≡ asked_more (S.device source.old).asked len) }
    ensures faults { RisesIf (is_put result) out.old.faults out.new.faults }
    ensures copied { HonestSource S.device source →
        Copies (is_err result) (S.device source.old) (S.device source.new) out.old out.new
        (slice (S.device source.old).bytes at len) }
{
    copy_through(source, room.window(), at, len, out)
}

/// Feeds `len` bytes at offset `at` of the source to sums, through a window.
///
/// The range must be inside the source. Requests at most `len` bytes, and exactly `len` at `Ok`. At
/// `Ok` `len` bytes were fed, over an honest source those of the range. Returns `SourceFault` if
/// and only if a read failed; then part of the range may have been fed.
pub fn feed_through<M: Sums, S: Source>(
    sums: &mut M,
    source: &mut S,
    window: &mut [u8; WINDOW],
    at: u64,
    len: u64,
) -> Result<(), SourceFault>
    requires { at + len ≤ length (S.device source.old).bytes }
    ensures uses { AsksAll len (is_err result) (S.device source.old) (S.device source.new) }
    ensures fed { OnOk result (SumsRange M.fed (S.device source.old) at len sums.old sums.new) }
{
    let mut done = 0;
    while done < len {
        let next = u64::min(len - done, WINDOW as u64);
        source.feed_at(at + done, &mut window[..next as usize], sums)?;
        done += next;
    }
    Ok(())
}

/// Sums `len` bytes at offset `at` of the source, one window at a time. Writes the digest to the
/// start of `to` and returns its length, at most 64 bytes.
///
/// The range must be inside the source. Returns `SourceFault` if and only if a read failed; then
/// `to` is unchanged. Over an honest source the digest is that of the range's bytes. Requests at
/// most `len` bytes, and exactly `len` at `Ok`. Only the room's window changes.
pub fn sum_range<M: Summer, S: Source, A: Allocator>(
    source: &mut S,
    room: &mut Room<A>,
    at: u64,
    len: u64,
    to: &mut [u8; 64],
) -> Result<usize, SourceFault>
    requires { at + len ≤ length (S.device source.old).bytes }
    ensures uses { AsksAll len (is_err result) (S.device source.old) (S.device source.new) }
    ensures room { room.new ≡ room.old }
    ensures kept { OnErr result (to.new ≡ to.old) }
    ensures bound { IfOk result (λ n. n ≤ 64) }
    ensures digest { HonestSource S.device source →
        IfOk result (PutsDigest (M.digest (slice (S.device source.old).bytes at len)) to.old to.new) }
{
    let mut sum = M::start();
    feed_through(&mut sum, source, room.window(), at, len)?;
    Ok(sum.finish(to))
}

/// Returns CRC-32 of `len` bytes at offset `at` of the source.
///
/// The range must be inside the source. Returns `SourceFault` if and only if a read failed. Over an
/// honest source the CRC is that of the range's bytes. Requests at most `len` bytes, and exactly
/// `len` at `Ok`. Only the room's window changes.
pub fn crc_range<S: Source, A: Allocator>(
    source: &mut S,
    room: &mut Room<A>,
    at: u64,
    len: u64,
) -> Result<u32, SourceFault>
    requires { at + len ≤ length (S.device source.old).bytes }
    ensures uses { AsksAll len (is_err result) (S.device source.old) (S.device source.new) }
    ensures room { room.new ≡ room.old }
    ensures crc { HonestSource S.device source →
        IfOk result (λ n. n ≡ crc (slice (S.device source.old).bytes at len)) }
{
    let mut sum = Crc::start();
    feed_through(&mut sum, source, room.window(), at, len)?;
    Ok(sum.value())
}
