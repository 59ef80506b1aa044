//! The data of a built image: their checksum, and writing them.

ghost use Rattle.std.specs.Prelude.{◌≡◌, map};
ghost use Rattle.uimg_sums.specs.Crc.{crc};
ghost use Rattle.uimg_legacy.specs.Building.{size_table, joined, data_of};
ghost use Rattle.uimg_legacy.specs.Devices.{bytes_of, AreHonest};
ghost use Rattle.uimg_legacy.specs.PartSteps.{FitWords, FindsInParts, FeedsParts, PutsParts, AnyDevices};

use crate::fault::Fault;
use crate::one_part::{feed_part, put_part, size_word, zeros_after};
use std::io::Write;
use uimg_base::{Crc, Out, Source, SourceFault, Summer, WINDOW};

fn feed_table<M: Summer, S: Source>(parts: &mut [S], sum: &mut M) -> Result<(), SourceFault>
    requires small { FitWords (bytes_of (map S.device parts.old)) }
    ensures { FeedsParts AnyDevices M.holds size_table result S.device parts sum }
{
    for i in 0..parts.len() {
        sum.feed(&size_word(parts, i)?);
    }
    sum.feed(&0u32.to_be_bytes());
    Ok(())
}

// Each part but the last is padded to a multiple of 4.
fn feed_joined<M: Summer, S: Source>(
    parts: &mut [S],
    window: &mut [u8; WINDOW],
    sum: &mut M,
) -> Result<(), SourceFault>
    ensures { FeedsParts AreHonest M.holds joined result S.device parts sum }
{
    let mut remainder = 0;
    for i in 0..parts.len() {
        sum.feed(zeros_after(remainder));
        remainder = feed_part(parts, window, i, sum)? % 4;
    }
    Ok(())
}

fn feed_data<M: Summer, S: Source>(
    parts: &mut [S],
    window: &mut [u8; WINDOW],
    has_parts: bool,
    sum: &mut M,
) -> Result<(), SourceFault>
    requires small { FitWords (bytes_of (map S.device parts.old)) }
    ensures { FeedsParts AreHonest M.holds (data_of has_parts) result S.device parts sum }
{
    if !has_parts {
        return feed_joined(parts, window, sum);
    }
    feed_table(parts, sum)?;
    feed_joined(parts, window, sum)
}

pub(crate) fn data_crc<S: Source>(
    parts: &mut [S],
    window: &mut [u8; WINDOW],
    has_parts: bool,
) -> Result<u32, SourceFault>
    requires small { FitWords (bytes_of (map S.device parts.old)) }
    ensures { FindsInParts (λ ps n. n ≡ crc (data_of has_parts ps)) result S.device parts }
{
    let mut sum = Crc::start();
    feed_data(parts, window, has_parts, &mut sum)?;
    Ok(sum.value())
}

fn put_table<S: Source, W: Write>(parts: &mut [S], out: &mut Out<W>) -> Result<(), Fault>
    requires small { FitWords (bytes_of (map S.device parts.old)) }
    ensures { PutsParts AnyDevices size_table result S.device parts out }
{
    for i in 0..parts.len() {
        out.put_all(&size_word(parts, i)?)?;
    }
    out.put_all(&0u32.to_be_bytes())?;
    Ok(())
}

// Each part but the last is padded to a multiple of 4.
fn put_joined<S: Source, W: Write>(
    parts: &mut [S],
    window: &mut [u8; WINDOW],
    out: &mut Out<W>,
) -> Result<(), Fault>
    ensures { PutsParts AreHonest joined result S.device parts out }
{
    let mut remainder = 0;
    for i in 0..parts.len() {
        out.put_all(zeros_after(remainder))?;
        remainder = put_part(parts, window, i, out)? % 4;
    }
    Ok(())
}

pub(crate) fn put_data<S: Source, W: Write>(
    parts: &mut [S],
    window: &mut [u8; WINDOW],
    has_parts: bool,
    out: &mut Out<W>,
) -> Result<(), Fault>
    requires small { FitWords (bytes_of (map S.device parts.old)) }
    ensures { PutsParts AreHonest (data_of has_parts) result S.device parts out }
{
    if !has_parts {
        return put_joined(parts, window, out);
    }
    put_table(parts, out)?;
    put_joined(parts, window, out)
}
