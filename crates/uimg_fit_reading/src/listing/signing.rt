//! The lines of a signature node.

ghost use Rattle.std.specs.Prelude.{◌≡◌, ◌++◌, length, true};
ghost use Rattle.uimg_fit_base.specs.Files.{bytes_in, number_in};
ghost use Rattle.uimg_fit_reading.specs.{Nodes.{HasNode, OfAnyNode}, OpenFits.InFit, Telling.Lists};
ghost use Rattle.uimg_fit_reading.specs.{Puts.{Leaves, Puts, PutsFrom, PutsOwn}, PayloadPlaces.Ends};
ghost use Rattle.uimg_fit_reading.specs.Rows.{text_after, required_line, keeps_row, signing_cost, signing_lines};
ghost use Rattle.uimg_fit_reading.specs.declared.listing.rows.Row.TheVariants.{Signing as Part};
ghost use Rattle.uimg_fit_reading.specs.{Heads.span_size, Shows.moment_line};

use crate::listing::rows::Signing;
use crate::listing::times::put_moment_line;
use crate::nodes::value_of;
use crate::open_fit::OpenFit;
use crate::places::cell;
use crate::puts::put;
use std::alloc::Allocator;
use std::io::Write;
use uimg_base::{MoveFault, Out, Room, Source, Span};
use uimg_blob_reading::{Key, put_text};

// Writes what comes before a text, and the text, if there is one.
fn put_after<S: Source, A: Allocator, W: Write>(
    source: &mut S,
    room: &mut Room<A>,
    before: &[u8],
    value: Option<Span>,
    out: &mut Out<W>,
) -> Result<(), MoveFault>
    requires { Ends (length (S.device source.old).bytes) value }
    ensures { Puts (span_size value) result S.device source room out
        (λ file. text_after before.now (bytes_in file value)) }
{
    let Some(span) = value else {
        return Ok(());
    };
    put(out, before)?;
    put_text(source, room, span, out)
}

fn put_required<W: Write>(out: &mut Out<W>, is_required: bool) -> Result<(), MoveFault>
    ensures { PutsOwn result out.old out.new (required_line is_required) }
{
    if is_required {
        put(out, b" (required)\n")
    } else {
        put(out, b"\n")
    }
}

fn put_signed<S: Source, W: Write>(
    source: &mut S,
    label: &[u8],
    time: Option<Span>,
    out: &mut Out<W>,
) -> Result<(), MoveFault>
    requires { Ends (length (S.device source.old).bytes) time }
    ensures { PutsFrom 4 result S.device source out
        (λ file. moment_line label.now (number_in file time)) }
{
    match cell(source, time) {
        Ok(seconds) => put_moment_line(out, label, seconds),
        Err(_) => Err(MoveFault::Read),
    }
}

pub(crate) fn put_signing<S: Source, A: Allocator, W: Write>(
    fit: &mut OpenFit<'_, S, A>,
    node: usize,
    part: Signing,
    out: &mut Out<W>,
) -> Result<(), MoveFault>
    requires { InFit S.device fit.old HasNode node }
    ensures leaves { Leaves result S.device fit out }
    ensures told { InFit S.device fit.old OfAnyNode node
        (λ level found. keeps_row level found.name (Part part) ≡ true →
        Lists (signing_cost found.own part) result S.device fit out (signing_lines found.own part)) }
{
    let key = value_of(&fit.blob, fit.room, node, Key::KeyName);
    match part {
        Signing::Algo(label) => {
            let algo = value_of(&fit.blob, fit.room, node, Key::Algo);
            put_after(fit.source, fit.room, &label, algo, out)
        }
        Signing::KeyName => put_after(fit.source, fit.room, b":", key, out),
        Signing::Required => {
            let required = value_of(&fit.blob, fit.room, node, Key::Required);
            put_required(out, required.is_some())
        }
        Signing::Time(label) => {
            if key.is_some() {
                let time = value_of(&fit.blob, fit.room, node, Key::Timestamp);
                put_signed(fit.source, &label, time, out)
            } else {
                Ok(())
            }
        }
    }
}
