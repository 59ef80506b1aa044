//! Writes texts and reads bytes; failures are returned as those of a copy.
ghost use Rattle.std.specs.Prelude.{◌≡◌, ◌+◌, ◌≤◌, ◌++◌, length, is_err, OnOk, IfErr};
ghost use Rattle.uimg_base.specs.{Honest.HonestSource, Outcome.line};
ghost use Rattle.uimg_base.specs.{declared.ranges.MoveFault.TheVariants.Read, Using.Asks};
ghost use Rattle.uimg_texts.specs.Slices.{slice};
ghost use Rattle.uimg_fit_reading.specs.{Puts.{Puts, PutsOwn}, Values.in_span};

use std::alloc::Allocator;
use std::io::Write;
use uimg_base::{MoveFault, Out, Room, Source, Span, copy_range};

pub(crate) fn put<W: Write>(out: &mut Out<W>, text: &[u8]) -> Result<(), MoveFault>
    ensures { PutsOwn result out.old out.new text.now }
{
    match out.put_all(text) {
        Ok(()) => Ok(()),
        Err(_) => Err(MoveFault::Put),
    }
}

pub(crate) fn put_pair<W: Write>(
    out: &mut Out<W>,
    first: &[u8],
    second: &[u8],
) -> Result<(), MoveFault>
    ensures { PutsOwn result out.old out.new (first.now ++ second.now) }
{
    match out.put_pieces(&[first, second]) {
        Ok(()) => Ok(()),
        Err(_) => Err(MoveFault::Put),
    }
}

pub(crate) fn put_line<W: Write>(
    out: &mut Out<W>,
    label: &[u8],
    text: &[u8],
) -> Result<(), MoveFault>
    ensures { PutsOwn result out.old out.new (line (label.now ++ text.now)) }
{
    match out.put_pieces(&[label, text, b"\n"]) {
        Ok(()) => Ok(()),
        Err(_) => Err(MoveFault::Put),
    }
}

pub(crate) fn read<S: Source>(source: &mut S, at: u64, to: &mut [u8]) -> Result<(), MoveFault>
    requires { at + length to.old ≤ length (S.device source.old).bytes }
    ensures uses { Asks (length to.old) (is_err result) (S.device source.old) (S.device source.new) }
    ensures read { IfErr result (λ e. e ≡ Read) }
    ensures bytes { HonestSource S.device source →
        OnOk result (to.new ≡ slice (S.device source.old).bytes at (length to.old)) }
{
    match source.fill_at(at, to) {
        Ok(()) => Ok(()),
        Err(_) => Err(MoveFault::Read),
    }
}

pub(crate) fn put_span<S: Source, A: Allocator, W: Write>(
    source: &mut S,
    room: &mut Room<A>,
    span: Span,
    out: &mut Out<W>,
) -> Result<(), MoveFault>
    requires { span.place + span.length ≤ length (S.device source.old).bytes }
    ensures { Puts span.length result S.device source room out (λ file. in_span file span) }
{
    copy_range(source, room, span.place, span.length, out)
}
