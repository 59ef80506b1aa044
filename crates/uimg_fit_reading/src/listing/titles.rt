//! The title of a node, and its rows.
ghost use Rattle.std.specs.Prelude.{◌≡◌, ◌+◌, ◌≤◌, ◌++◌, length, decimal, codes, true};
ghost use Rattle.std.specs.List.{list_all, sum_by};
ghost use Rattle.uimg_fit_reading.specs.{Nodes.{HasNode, OfAnyNode}, OpenFits.InFit, Telling.Lists};
ghost use Rattle.uimg_fit_reading.specs.{Puts.{Leaves, Puts, PutsOwn}, Values.in_span};
ghost use Rattle.uimg_fit_reading.specs.Rows.{keeps_row, row_cost, rows_lines, title};

use crate::listing::fields::put_rows;
use crate::listing::rows::{Facts, Row};
use crate::nodes::name_of;
use crate::open_fit::OpenFit;
use crate::puts::{put, put_span};
use itoa::Buffer;
use std::alloc::Allocator;
use std::io::Write;
use uimg_base::{MoveFault, Out, Room, Source, Span};

/// A listed node: its number in the listing, and its number in the index.
#[derive(Clone, Copy)]
pub(crate) struct Numbered {
    pub(crate) number: usize,
    pub(crate) node: usize,
}

fn put_number<W: Write>(out: &mut Out<W>, before: &[u8], number: usize) -> Result<(), MoveFault>
    ensures { PutsOwn result out.old out.new (before.now ++ (decimal number ++ codes " (")) }
{
    let mut buffer = Buffer::new();
    match out.put_pieces(&[before, buffer.format(number).as_bytes(), b" ("]) {
        Ok(()) => Ok(()),
        Err(_) => Err(MoveFault::Put),
    }
}

fn put_title<S: Source, A: Allocator, W: Write>(
    source: &mut S,
    room: &mut Room<A>,
    before: &[u8],
    number: usize,
    name: Span,
    out: &mut Out<W>,
) -> Result<(), MoveFault>
    requires { name.place + name.length ≤ length (S.device source.old).bytes }
    ensures { Puts name.length result S.device source room out
        (λ file. title before.now number (in_span file name)) }
{
    put_number(out, before, number)?;
    put_span(source, room, name, out)?;
    put(out, b")\n")
}

pub(crate) fn put_node<S: Source, A: Allocator, W: Write>(
    fit: &mut OpenFit<'_, S, A>,
    before: &[u8],
    at: Numbered,
    facts: Facts,
    rows: &[Row],
    out: &mut Out<W>,
) -> Result<(), MoveFault>
    requires { InFit S.device fit.old HasNode at.node }
    ensures leaves { Leaves result S.device fit out }
    ensures told { InFit S.device fit.old OfAnyNode at.node
        (λ level found. list_all (keeps_row level found.name) rows.now ≡ true →
        Lists (255 + sum_by (row_cost found.own) rows.now) result S.device fit out
        (title before.now at.number found.name ++ rows_lines facts found.own rows.now)) }
{
    let name = name_of(&fit.blob, fit.room, at.node);
    put_title(fit.source, fit.room, before, at.number, name, out)?;
    put_rows(fit, at.node, facts, rows, out)
}
