//! Strict checks of where the payloads of images are.

ghost use Rattle.std.specs.Prelude.{◌≡◌, Some};
ghost use Rattle.uimg_base.specs.Using.{Uses};
ghost use Rattle.uimg_blob_reading.specs.Roles.{in_images};
ghost use Rattle.uimg_fit_checking.specs.SurveyParts.{IsOwn, is_unread};
ghost use Rattle.uimg_fit_reading.specs.Nodes.{HasNode, HasNodes, OfNode, OfNodes};
ghost use Rattle.uimg_strict.specs.Looseness.{in_node, is_odd, one_alone, loose_place, loose_image, first_found};
ghost use Rattle.uimg_strict.specs.Telling.{TellsLoose};

use crate::loose::{Loose, Looseness};
use crate::nodes::in_node;
use std::alloc::{Allocator, Global};
use uimg_base::{Room, Source, Span};
use uimg_blob_reading::{Blob, Key};
use uimg_fit_checking::{SurveyFault, read_bytes};
use uimg_fit_reading::nodes::{name_of, next_of, value_of};

// Returns whether a cell has another length than four bytes.
fn is_odd(cell: Option<Span>) -> bool
    ensures { result ≡ is_odd cell }
{
    match cell {
        Some(span) => span.length != 4,
        None => false,
    }
}

fn loose_place(
    embedded: Option<Span>,
    size: Option<Span>,
    offset: Option<Span>,
    position: Option<Span>,
) -> Option<Looseness>
    ensures { result ≡ loose_place embedded size offset position }
{
    if is_odd(size) || is_odd(offset) || is_odd(position) {
        return Some(Looseness::OddCell);
    }
    let is_external = offset.is_some() || position.is_some();
    if size.is_some() != is_external {
        return Some(Looseness::HalfPlace);
    }
    if embedded.is_some() && is_external {
        return Some(Looseness::TwoPayloads);
    }
    None
}

pub(crate) fn in_image<S: Source, A: Allocator>(
    alloc: Global,
    source: &mut S,
    blob: &Blob,
    room: &Room<A>,
    image: usize,
    why: Looseness,
) -> Result<Option<Loose>, SurveyFault>
    requires { HasNode (S.device source.old) blob.now room.now image }
    ensures uses { Uses (is_unread result) (S.device source.old) (S.device source.new) }
    ensures own { IsOwn result }
    ensures told { OfNode (S.device source.old) blob.now room.now in_images image (λ found.
        TellsLoose (Some (in_node why found.name)) result) }
{
    let name = read_bytes(alloc, source, name_of(blob, room, image))?;
    let found = in_node(alloc, why, name.as_slice())?;
    Ok(found)
}

fn loose_image<S: Source, A: Allocator>(
    alloc: Global,
    source: &mut S,
    blob: &Blob,
    room: &Room<A>,
    image: usize,
) -> Result<Option<Loose>, SurveyFault>
    requires { HasNode (S.device source.old) blob.now room.now image }
    ensures uses { Uses (is_unread result) (S.device source.old) (S.device source.new) }
    ensures own { IsOwn result }
    ensures told { OfNode (S.device source.old) blob.now room.now in_images image (λ found.
        TellsLoose (loose_image found) result) }
{
    let why = loose_place(
        value_of(blob, room, image, Key::Data),
        value_of(blob, room, image, Key::DataSize),
        value_of(blob, room, image, Key::DataOffset),
        value_of(blob, room, image, Key::DataPosition),
    );
    let Some(why) = why else {
        return Ok(None);
    };
    in_image(alloc, source, blob, room, image, why)
}

pub(crate) fn first_loose_image<S: Source, A: Allocator>(
    alloc: Global,
    source: &mut S,
    blob: &Blob,
    room: &Room<A>,
    first: Option<usize>,
) -> Result<Option<Loose>, SurveyFault>
    requires { HasNodes (S.device source.old) blob.now room.now first }
    ensures uses { Uses (is_unread result) (S.device source.old) (S.device source.new) }
    ensures own { IsOwn result }
    ensures told { OfNodes (S.device source.old) blob.now room.now in_images first (λ found.
        TellsLoose (first_found loose_image found) result) }
{
    let mut next = first;
    while let Some(image) = next {
        let found = loose_image(alloc, source, blob, room, image)?;
        if found.is_some() {
            return Ok(found);
        }
        next = next_of(blob, room, image);
    }
    Ok(None)
}
