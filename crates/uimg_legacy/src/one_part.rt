//! One part of a built image: its size, its checksum, and writing it.

ghost use Rattle.std.specs.Prelude.{◌≡◌, ℕ, ◌%◌, ◌^◌, ◌<◌, length, map, IfOk};
ghost use Rattle.std.specs.Int.{to_be_bytes, w32};
ghost use Rattle.uimg_legacy.specs.{Building.padding, Devices.{bytes_of, AreHonest}};
ghost use Rattle.uimg_legacy.specs.PartSteps.{Learns, FeedsParts, PutsParts, numbered};

use crate::fault::Fault;
use std::io::Write;
use uimg_base::{Out, Source, SourceFault, Summer, WINDOW, copy_through, feed_through};

// Returns the zeros that pad a length with this remainder modulo 4.
pub(crate) fn zeros_after(remainder: u64) -> &'static [u8]
    requires { remainder < 4 }
    ensures { (n : ℕ) → n % 4 ≡ remainder → result.now ≡ padding n }
{
    match remainder {
        1 => &[0; 3],
        2 => &[0; 2],
        3 => &[0; 1],
        _ => &[],
    }
}

pub(crate) fn part_size<S: Source>(parts: &mut [S], i: usize) -> Result<u64, SourceFault>
    requires { i < length parts.old }
    ensures { Learns (λ ps n. n ≡ length (numbered i ps)) result S.device parts }
{
    parts[i].size()
}

pub(crate) fn size_word<S: Source>(parts: &mut [S], i: usize) -> Result<[u8; 4], SourceFault>
    requires within { i < length parts.old }
    requires small { length (numbered i (bytes_of (map S.device parts.old))) < 2 ^ 32 }
    ensures { Learns (λ ps w. w ≡ to_be_bytes w32 (length (numbered i ps))) result S.device parts }
{
    let size = part_size(parts, i)?;
    Ok((size as u32).to_be_bytes())
}

pub(crate) fn feed_part<M: Summer, S: Source>(
    parts: &mut [S],
    window: &mut [u8; WINDOW],
    i: usize,
    sum: &mut M,
) -> Result<u64, SourceFault>
    requires { i < length parts.old }
    ensures feeds { FeedsParts AreHonest M.holds (numbered i) result S.device parts sum }
    ensures size { IfOk result (λ n. n ≡ length (numbered i (bytes_of (map S.device parts.old)))) }
{
    let source = &mut parts[i];
    let size = source.size()?;
    feed_through(sum, source, window, 0, size)?;
    Ok(size)
}

pub(crate) fn put_part<S: Source, W: Write>(
    parts: &mut [S],
    window: &mut [u8; WINDOW],
    i: usize,
    out: &mut Out<W>,
) -> Result<u64, Fault>
    requires { i < length parts.old }
    ensures puts { PutsParts AreHonest (numbered i) result S.device parts out }
    ensures size { IfOk result (λ n. n ≡ length (numbered i (bytes_of (map S.device parts.old)))) }
{
    let source = &mut parts[i];
    let size = source.size()?;
    copy_through(source, window, 0, size, out)?;
    Ok(size)
}
