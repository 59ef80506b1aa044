//! The lines of rows.
ghost use Rattle.std.specs.{Prelude.{◌≡◌, ◌+◌, ◌≤◌, ◌++◌, length, true}, List.{list_all, sum_by}};
ghost use Rattle.std.specs.Option.{option_map_or};
ghost use Rattle.uimg_base.specs.Outcome.{line};
ghost use Rattle.uimg_texts.specs.{Nul.text, Sizes.size_text};
ghost use Rattle.uimg_fit_base.specs.Files.{bytes_in};
ghost use Rattle.uimg_fit_reading.specs.{Nodes.{HasNode, OfAnyNode}, OpenFits.InFit, Telling.Lists};
ghost use Rattle.uimg_fit_reading.specs.{Puts.{Leaves, Puts, PutsOwn}, Values.in_span};
ghost use Rattle.uimg_fit_reading.specs.Rows.{keeps_row, row_cost, row_lines, rows_lines};
ghost use Rattle.uimg_fit_reading.specs.PayloadPlaces.{Ends};
ghost use Rattle.uimg_fit_reading.specs.Shows.{value_lines, value_cost, shown, missing, missing_name, wanted, size_line};

use crate::listing::addresses::put_address_line;
use crate::listing::hexadecimal::put_hexadecimal_line;
use crate::listing::lists::put_list_lines;
use crate::listing::names::put_name_line;
use crate::listing::rows::{Facts, Row};
use crate::listing::shows::Show;
use crate::listing::signing::put_signing;
use crate::listing::times::{put_moment_line, put_time_line};
use crate::nodes::value_of;
use crate::open_fit::OpenFit;
use crate::puts::{put, put_line};
use std::alloc::Allocator;
use std::io::Write;
use uimg_base::{MoveFault, Out, Room, Source, Span, size_text};
use uimg_blob_reading::put_text;
use uimg_texts::Field;

pub(crate) fn put_text_line<S: Source, A: Allocator, W: Write>(
    source: &mut S,
    room: &mut Room<A>,
    label: &[u8],
    span: Span,
    out: &mut Out<W>,
) -> Result<(), MoveFault>
    requires { span.place + span.length ≤ length (S.device source.old).bytes }
    ensures { Puts span.length result S.device source room out
        (λ file. line (label.now ++ text (in_span file span))) }
{
    put(out, label)?;
    put_text(source, room, span, out)?;
    put(out, b"\n")
}

#[tactic(auto, unfolding(crate::specs::Shows::value_lines))]
fn put_value<S: Source, A: Allocator, W: Write>(
    source: &mut S,
    room: &mut Room<A>,
    label: &[u8],
    show: Show,
    span: Span,
    out: &mut Out<W>,
) -> Result<(), MoveFault>
    requires { span.place + span.length ≤ length (S.device source.old).bytes }
    ensures { Puts (value_cost show span.length) result S.device source room out
        (λ file. value_lines show label.now (in_span file span)) }
{
    match show {
        Show::Text => put_text_line(source, room, label, span, out),
        Show::Name(naming, field) => put_name_line(source, label, naming, field, span, out),
        Show::Address => put_address_line(source, label, span, out),
        Show::Hexadecimal => put_hexadecimal_line(source, label, span, out),
        Show::List => put_list_lines(source, room, label, span, out),
    }
}

fn put_property<S: Source, A: Allocator, W: Write>(
    source: &mut S,
    room: &mut Room<A>,
    label: &[u8],
    show: Show,
    value: Option<Span>,
    out: &mut Out<W>,
) -> Result<(), MoveFault>
    requires { Ends (length (S.device source.old).bytes) value }
    ensures { Puts (option_map_or (λ s. value_cost show s.length) value 0)
        result S.device source room out (λ file. shown show label.now (bytes_in file value)) }
{
    match value {
        Some(span) => put_value(source, room, label, show, span, out),
        None => Ok(()),
    }
}

fn missing_name(field: Field) -> &'static str
    ensures { result.now ≡ missing_name field }
{
    match field {
        Field::Compression => "uncompressed",
        Field::Architecture | Field::System | Field::Kind => field.unknown(),
    }
}

fn missing(show: Show) -> &'static str
    ensures { result.now ≡ missing show }
{
    match show {
        Show::Name(_, field) => missing_name(field),
        Show::Text | Show::Address | Show::Hexadecimal | Show::List => "unavailable",
    }
}

fn put_wanted<S: Source, A: Allocator, W: Write>(
    source: &mut S,
    room: &mut Room<A>,
    label: &[u8],
    show: Show,
    value: Option<Span>,
    out: &mut Out<W>,
) -> Result<(), MoveFault>
    requires { Ends (length (S.device source.old).bytes) value }
    ensures { Puts (option_map_or (λ s. value_cost show s.length) value 0)
        result S.device source room out (λ file. wanted show label.now (bytes_in file value)) }
{
    match value {
        Some(span) => put_value(source, room, label, show, span, out),
        None => put_line(out, label, missing(show).as_bytes()),
    }
}

fn put_size<W: Write>(out: &mut Out<W>, size: u32) -> Result<(), MoveFault>
    ensures { PutsOwn result out.old out.new (line (size_text size)) }
{
    match size_text(size, out) {
        Ok(()) => put(out, b"\n"),
        Err(_) => Err(MoveFault::Put),
    }
}

fn put_size_line<W: Write>(
    out: &mut Out<W>,
    label: &[u8],
    size: Option<u32>,
) -> Result<(), MoveFault>
    ensures { PutsOwn result out.old out.new (size_line label.now size) }
{
    let Some(size) = size else {
        return put_line(out, label, b"unavailable");
    };
    put(out, label)?;
    put_size(out, size)
}

fn put_row<S: Source, A: Allocator, W: Write>(
    fit: &mut OpenFit<'_, S, A>,
    node: usize,
    facts: Facts,
    row: Row,
    out: &mut Out<W>,
) -> Result<(), MoveFault>
    requires { InFit S.device fit.old HasNode node }
    ensures leaves { Leaves result S.device fit out }
    ensures told { InFit S.device fit.old OfAnyNode node
        (λ level found. keeps_row level found.name row ≡ true →
        Lists (row_cost found.own row) result S.device fit out (row_lines facts found.own row)) }
{
    match row {
        Row::Property(key, label, show) => {
            let value = value_of(&fit.blob, fit.room, node, key);
            put_property(fit.source, fit.room, &label, show, value, out)
        }
        Row::Wanted(key, label, show) => {
            let value = value_of(&fit.blob, fit.room, node, key);
            put_wanted(fit.source, fit.room, &label, show, value, out)
        }
        Row::Time(label) => put_time_line(out, &label, facts.time),
        Row::Created(label) => put_moment_line(out, &label, facts.time),
        Row::Size(label) => put_size_line(out, &label, facts.size),
        Row::Signing(part) => put_signing(fit, node, part, out),
        Row::Unsupported(label) => put_line(out, &label, b"invalid/unsupported"),
        Row::Nothing => Ok(()),
    }
}

pub(crate) fn put_rows<S: Source, A: Allocator, W: Write>(
    fit: &mut OpenFit<'_, S, A>,
    node: usize,
    facts: Facts,
    rows: &[Row],
    out: &mut Out<W>,
) -> Result<(), MoveFault>
    requires { InFit S.device fit.old HasNode node }
    ensures leaves { Leaves result S.device fit out }
    ensures told { InFit S.device fit.old OfAnyNode node
        (λ level found. list_all (keeps_row level found.name) rows.now ≡ true →
        Lists (sum_by (row_cost found.own) rows.now) result S.device fit out
        (rows_lines facts found.own rows.now)) }
{
    for row in rows {
        put_row(fit, node, facts, *row, out)?;
    }
    Ok(())
}
