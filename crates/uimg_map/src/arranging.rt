//! Makes the rows of a map from the things in a file.

ghost use Rattle.std.specs.Prelude.{◌≡◌, ◌++◌, None, IfOk, OnOk};
ghost use Rattle.uimg_map.specs.Arranging.{Arranges};
ghost use Rattle.uimg_map.specs.Rows.{thing_end, further, overlapped, rows_of_thing, rest, rows_from};

use crate::row::Row;
use crate::thing::Thing;
use std::alloc::{AllocError, Global};

// Without a thing, the file's start.
fn end_of(last: Option<Thing>) -> u64
    ensures { result ≡ thing_end last }
{
    match last {
        Some(thing) => thing.end,
        None => 0,
    }
}

// Returns the one that ends later; the earlier one if both end at the same offset.
fn further(last: Option<Thing>, thing: Thing) -> Option<Thing>
    ensures { result ≡ further last thing }
{
    if end_of(last) < thing.end {
        Some(thing)
    } else {
        last
    }
}

// Returns the thing that ends last, if another one shares bytes with it.
#[tactic(auto, unfolding(crate::specs::Rows::overlapped))]
fn overlapped(last: Option<Thing>, thing: Thing) -> Option<Thing>
    ensures { result ≡ overlapped last thing }
{
    if thing.place < u64::min(end_of(last), thing.end) {
        last
    } else {
        None
    }
}

// Adds the rows of the next thing: the gap before it, if there is one, and its own.
#[tactic(auto, unfolding(crate::specs::Rows::gap))]
fn add(rows: &mut Vec<Row>, size: u64, last: Option<Thing>, thing: Thing) -> Result<(), AllocError>
    ensures { OnOk result (rows.new.items ≡ rows.old.items ++ rows_of_thing size last thing) }
{
    let (end, next) = (end_of(last), u64::min(thing.place, size));
    if end < next {
        rows.push(Row::Gap(end, next))?;
    }
    rows.push(Row::Taken(thing, overlapped(last, thing)))?;
    Ok(())
}

#[tactic(auto, unfolding(crate::specs::Rows::rest))]
fn add_rest(rows: &mut Vec<Row>, size: u64, last: Option<Thing>) -> Result<(), AllocError>
    ensures { OnOk result (rows.new.items ≡ rows.old.items ++ rest size (thing_end last)) }
{
    if end_of(last) < size {
        rows.push(Row::Rest(end_of(last), size))?;
    }
    Ok(())
}

fn rows_of(alloc: Global, size: u64, things: &[Thing]) -> Result<Vec<Row>, AllocError>
    ensures { IfOk result (λ rows. rows.items ≡ rows_from size None things.now) }
{
    let mut rows = Vec::new(alloc);
    let mut last = None;
    for thing in things {
        add(&mut rows, size, last, *thing)?;
        last = further(last, *thing);
    }
    add_rest(&mut rows, size, last)?;
    Ok(rows)
}

/// Returns the rows of the map of a file of `size` bytes: one for each thing, in their order, one
/// for the bytes before a thing that are in no earlier one, and one for those after all. Things may
/// be after the file's end, and may share bytes.
///
/// Fails if memory for the rows is refused, some 64 bytes a row; there are at most two rows a
/// thing, and one more.
pub fn arrange(alloc: Global, size: u64, mut things: Vec<Thing>) -> Result<Vec<Row>, AllocError>
    ensures { IfOk result (λ rows. Arranges size things.items rows.items) }
{
    things.sort_unstable();
    rows_of(alloc, size, &things)
}
