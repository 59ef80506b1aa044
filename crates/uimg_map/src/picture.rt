//! A map as a picture.

ghost use Rattle.std.specs.Prelude.{◌<◌, ◌≤◌, IfErr, IsTrue};
ghost use Rattle.uimg_map.specs.Stops.{is_stop};

use crate::bar::{Bar, bar_of};
use crate::contents::Label;
use crate::map::{Map, Standing};
use crate::place::Place;
use crate::row::Row;
use crate::stop::MapStop;
use crate::texts::text_of;
use crate::xml::{Cut, Escaped, fits};
use std::alloc::Global;
use std::io;
use std::io::Write;
use uimg_base::Source;

// The width of a full bar, the margin around all, and the heights of the head and of a row.
const WIDTH: u32 = 1000;

const MARGIN: u64 = 10;

const HEAD: u32 = 70;

const ROW: u32 = 40;

// The least width of a mark where a bar would have none.
const MARK: u32 = 3;

// The most rows that are drawn.
const ROWS: usize = 1000;

// The most characters of a row's text beside its offsets, and of the title.
const LETTERS: usize = 86;

const TITLE_LETTERS: usize = 72;

/// What a bar shows, with its colour.
#[derive(Clone, Copy, Debug, PartialEq, Eq)]
enum Kind {
    Item,
    Covered,
    Shared,
    Outside,
    Unused,
    Fault,
}

impl Kind {
    fn colour(self) -> &'static str {
        match self {
            Kind::Item => "#3465a4",
            Kind::Covered => "#4e9a06",
            Kind::Shared => "#f57900",
            Kind::Outside => "#75507b",
            Kind::Unused => "#d3d7cf",
            Kind::Fault => "#cc0000",
        }
    }
}

/// Writes the rows of a map as a picture (SVG 1.1): a title with the file's name and size, a legend,
/// and for each row a text and a bar below it. At most 1000 rows are drawn, and the number of the
/// others is written. A text that is too long is cut; a `title` element has all of it. What was
/// written before a failure stays.
pub fn put_picture<S: Source, W: Write>(
    alloc: Global,
    source: &mut S,
    map: &Map,
    name: &str,
    out: &mut W,
) -> Result<(), MapStop>
    ensures { IfErr result (λ stop. IsTrue (is_stop stop)) }
{
    put_head(map, name, out)?;
    put_rows(alloc, source, map, out)?;
    put_rest(map.rows.len(), out)?;
    writeln!(out, "</svg>")?;
    Ok(())
}

fn put_rows<S: Source, W: Write>(
    alloc: Global,
    source: &mut S,
    map: &Map,
    out: &mut W,
) -> Result<(), MapStop>
    ensures { IfErr result (λ stop. IsTrue (is_stop stop)) }
{
    for index in 0..usize::min(map.rows.len(), ROWS) {
        let row = &map.rows[index];
        let text = text_of(alloc, source, map, row)?;
        put_row(top_of(index), map, row, text.as_str(), out)?;
    }
    Ok(())
}

fn top_of(index: usize) -> u32
    requires { index < 1000 }
{
    HEAD + ROW * index as u32
}

fn put_head<W: Write>(map: &Map, name: &str, out: &mut W) -> io::Result<()> {
    let height = height_of(map.rows.len());
    put_opening(height, out)?;
    put_title(name, map.size, out)?;
    put_background(height, out)?;
    put_heading(name, map.size, out)?;
    put_legend(out)?;
    Ok(())
}

fn put_opening<W: Write>(height: u64, out: &mut W) -> io::Result<()> {
    let width = WIDTH as u64 + 2 * MARGIN;
    writeln!(
        out,
        "<?xml version=\"1.0\" encoding=\"UTF-8\"?>\n<svg xmlns=\"http://www.w3.org/2000/svg\" viewBox=\"0 0 {width} {height}\" font-family=\"monospace\" font-size=\"14\">"
    )
}

fn put_background<W: Write>(height: u64, out: &mut W) -> io::Result<()> {
    let width = WIDTH as u64 + 2 * MARGIN;
    writeln!(
        out,
        "<rect width=\"{width}\" height=\"{height}\" fill=\"#ffffff\"/>"
    )
}

fn put_heading<W: Write>(name: &str, size: u64, out: &mut W) -> io::Result<()> {
    let shown = Cut {
        text: name,
        most: TITLE_LETTERS,
    };
    writeln!(
        out,
        "<text x=\"{MARGIN}\" y=\"28\" font-size=\"16\">{shown}, {size} bytes</text>"
    )
}

fn height_of(rows: usize) -> u64 {
    let drawn = usize::min(rows, ROWS) as u64 + (rows > ROWS) as u64;
    HEAD as u64 + drawn * ROW as u64 + MARGIN
}

fn put_title<W: Write>(name: &str, size: u64, out: &mut W) -> io::Result<()> {
    writeln!(out, "<title>{}, {size} bytes</title>", Escaped(name))
}

fn put_legend<W: Write>(out: &mut W) -> io::Result<()> {
    put_item(Kind::Item, "item", 10, out)?;
    put_item(Kind::Shared, "shares bytes with an earlier item", 90, out)?;
    put_item(Kind::Outside, "ends outside the file", 410, out)?;
    put_item(Kind::Unused, "unused", 630, out)?;
    put_item(Kind::Fault, "fault", 730, out)?;
    put_item(Kind::Covered, "covered by a signature", 805, out)?;
    Ok(())
}

fn put_item<W: Write>(kind: Kind, words: &str, left: u32, out: &mut W) -> io::Result<()> {
    let after = left as u64 + 18;
    put_rect(left as u64, 42, 12, kind.colour(), out)?;
    writeln!(out, "<text x=\"{after}\" y=\"53\">{words}</text>")?;
    Ok(())
}

// Writes a row: its whole text, the text that fits, and its bar.
fn put_row<W: Write>(top: u32, map: &Map, row: &Row, text: &str, out: &mut W) -> io::Result<()> {
    writeln!(out, "<g class=\"row\">")?;
    put_whole(row, text, out)?;
    put_text(top, row, text, out)?;
    put_bar(top, map, row, out)?;
    writeln!(out, "</g>")?;
    Ok(())
}

// Writes a text that does not fit as a title.
fn put_whole<W: Write>(row: &Row, text: &str, out: &mut W) -> io::Result<()> {
    if fits(text, LETTERS) {
        return Ok(());
    }
    writeln!(out, "<title>{}{}</title>", Place(row), Escaped(text))
}

fn put_text<W: Write>(top: u32, row: &Row, text: &str, out: &mut W) -> io::Result<()> {
    let base = top as u64 + 14;
    let shown = Cut {
        text,
        most: LETTERS,
    };
    write!(
        out,
        "<text x=\"{MARGIN}\" y=\"{base}\" xml:space=\"preserve\">"
    )?;
    writeln!(out, "{}{shown}</text>", Place(row))
}

// Writes the bar of a row, or a mark where it has no width.
fn put_bar<W: Write>(top: u32, map: &Map, row: &Row, out: &mut W) -> io::Result<()> {
    let kind = kind_of(map, row);
    let bar = bar_of(WIDTH, map.size, row.place(), row.end());
    let bar = marked(bar, kind, map, row);
    let left = MARGIN + bar.from as u64;
    put_rect(left, top as u64 + 20, bar.to - bar.from, kind.colour(), out)
}

fn put_rect<W: Write>(x: u64, y: u64, width: u32, colour: &str, out: &mut W) -> io::Result<()> {
    writeln!(
        out,
        "<rect x=\"{x}\" y=\"{y}\" width=\"{width}\" height=\"12\" fill=\"{colour}\"/>"
    )
}

// Widens a bar that would not show: a fault, and what begins outside the file, have a mark at their
// offset.
fn marked(bar: Bar, kind: Kind, map: &Map, row: &Row) -> Bar
    requires { bar.from ≤ bar.to }
    ensures { result.from ≤ result.to }
{
    if bar.from < bar.to || (kind != Kind::Fault && kind != Kind::Outside) {
        return bar;
    }
    let place = row.place();
    let from = if place < map.size {
        u32::min(bar_of(WIDTH, map.size, place, place + 1).from, WIDTH - MARK)
    } else {
        WIDTH - MARK
    };
    Bar {
        from,
        to: from + MARK,
    }
}

fn kind_of(map: &Map, row: &Row) -> Kind {
    match *row {
        Row::Taken(thing, over) => match (map.label_of(thing), map.standing_of(thing, over)) {
            (Some(Label::Fault(_)), _) => Kind::Fault,
            (_, _) if thing.end > map.size => Kind::Outside,
            (_, Standing::Overlapping(_)) => Kind::Shared,
            (Some(Label::Payload(_, Some(_)) | Label::Embedded(_, Some(_))), _) => Kind::Covered,
            (_, _) => Kind::Item,
        },
        Row::Gap(_, _) | Row::Rest(_, _) => Kind::Unused,
    }
}

// Writes how many rows are not drawn, if any are not.
fn put_rest<W: Write>(rows: usize, out: &mut W) -> io::Result<()> {
    if rows <= ROWS {
        return Ok(());
    }
    let (base, count) = (HEAD as u64 + ROW as u64 * ROWS as u64 + 14, rows - ROWS);
    writeln!(
        out,
        "<text x=\"{MARGIN}\" y=\"{base}\">and {count} more rows</text>"
    )
}
