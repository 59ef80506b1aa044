//! A map as lines of text.

ghost use Rattle.std.specs.Prelude.{◌≡◌, OnOk, IfErr, IsTrue, Some};
ghost use Rattle.std.specs.{Io.KnownBytes.Appends, Fmt.WritesOnOk};
ghost use Rattle.uimg_base.specs.Honest.{HonestSource};
ghost use Rattle.uimg_map.specs.{Labels.ReadsNames, Lines.{glyph_of, bar_text, line_text, PutsLines}, Stops.is_stop};

use crate::bar::bar_of;
use crate::map::Map;
use crate::place::Place;
use crate::row::Row;
use crate::stop::MapStop;
use crate::texts::text_of;
use std::alloc::Global;
use std::fmt::{Display, Formatter};
use std::io::Write;
use std::{fmt, io};
use uimg_base::Source;

// The letters of a bar.
const CELLS: u32 = 32;

/// Writes the rows of a map, a line each: the range in hexadecimal, its size, its bar, and what it
/// is. Names are read from the source. What was written before a failure stays.
pub fn put_lines<S: Source, W: Write>(
    alloc: Global,
    source: &mut S,
    map: &Map,
    out: &mut W,
) -> Result<(), MapStop>
    ensures lines { HonestSource S.device source → OnOk result
        (PutsLines (S.device source.old).bytes map.now map.now.rows.items (W.contents out.old) (W.contents out.new)) }
    ensures stops { IfErr result (λ stop. IsTrue (is_stop stop)) }
{
    for row in &map.rows {
        let text = text_of(alloc, source, map, row)?;
        put_line(map.size, row, text.as_str(), out)?;
    }
    Ok(())
}

fn put_line<W: Write>(size: u64, row: &Row, text: &str, out: &mut W) -> io::Result<()>
    ensures { OnOk result (Appends (W.contents out.old) (W.contents out.new)
        (line_text size row.now text.now)) }
{
    writeln!(out, "{}{} {text}", Place(row), Cells { size, row })
}

/// The bar of a row, in a file of `size` bytes.
#[derive(Clone, Copy, Debug)]
struct Cells<'a> {
    size: u64,
    row: &'a Row,
}

impl<'a> Display for Cells<'a> {
    ghost output = { λ it. Some (bar_text it.size it.row.now) };

    #[tactic(auto, unfolding(crate::specs::Lines::bar_text))]
    fn fmt<W: fmt::Write>(&self, f: &mut Formatter<W>) -> fmt::Result {
        put_cells(self.size, self.row, f)
    }
}

fn put_cells<W: fmt::Write>(size: u64, row: &Row, f: &mut Formatter<W>) -> fmt::Result
    ensures { WritesOnOk W.Write.write_str_gives f.old result (bar_text size row.now) f.new }
{
    let bar = bar_of(CELLS, size, row.place(), row.end());
    for cell in 0..CELLS {
        f.write_char(glyph_of(bar.has(cell)))?;
    }
    Ok(())
}

fn glyph_of(is_filled: bool) -> char
    ensures { result ≡ glyph_of is_filled }
{
    if is_filled { '#' } else { '.' }
}
