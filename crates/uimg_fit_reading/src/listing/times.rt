//! The lines of times.

ghost use Rattle.uimg_fit_reading.specs.{Puts.PutsOwn, Shows.{time_line, moment_line}};

use crate::puts::put_line;
use std::io::Write;
use uimg_base::{MoveFault, Out, time_text};

pub(crate) fn put_time_line<W: Write>(
    out: &mut Out<W>,
    label: &[u8],
    time: Option<u32>,
) -> Result<(), MoveFault>
    ensures { PutsOwn result out.old out.new (time_line label.now time) }
{
    match time {
        Some(seconds) => put_line(out, label, &time_text(seconds)),
        None => Ok(()),
    }
}

pub(crate) fn put_moment_line<W: Write>(
    out: &mut Out<W>,
    label: &[u8],
    time: Option<u32>,
) -> Result<(), MoveFault>
    ensures { PutsOwn result out.old out.new (moment_line label.now time) }
{
    match time {
        Some(seconds) => put_line(out, label, &time_text(seconds)),
        None => put_line(out, label, b"unavailable"),
    }
}
