//! The properties of a node, read again from the structure block.

ghost use Rattle.std.specs.Prelude.{◌≡◌, ◌+◌, ◌*◌, ◌^◌, ◌<◌, ◌≤◌, length, Ok, IfOk};
ghost use Rattle.uimg_texts.specs.Numbers.{be32};
ghost use Rattle.uimg_base.specs.{Honest.HonestSource, Using.{Asks, Uses}};
ghost use Rattle.uimg_blob_reading.specs.{Grammar.Siblings, Blob.tree, Counts.nops_met};
ghost use Rattle.uimg_blob_reading.specs.Extents.{IsInside};
ghost use Rattle.uimg_blob_reading.specs.Properties.{is_unread, places_of, TellsPlaces, LieInside, OfRowRead, TakesToken, TakesTokens, FindsBlocks};

use crate::extent::{Extent, read_extent};
use crate::fault::IndexFault;
use crate::nodes::Blob;
use crate::places::{Met, PropertyPlace, meet};
use std::alloc::{Allocator, Global};
use thiserror::Error;
use uimg_base::{Room, Source, up4};

/// Why the properties of a node are not returned.
#[derive(Clone, Copy, Debug, PartialEq, Eq, Error)]
pub enum PropertiesFault {
    /// A read failed.
    #[error("read failed")]
    Read,
    /// Memory was refused.
    #[error("out of memory")]
    OutOfMemory,
    /// The source does not have the blob that was indexed.
    #[error("changed while it was read")]
    Changed,
}

// Takes the token at an offset and adds its spans if it is a property. Returns the offset of the
// next token, or `None` if the token begins or ends a node.
fn step<S: Source, A: Allocator>(
    source: &mut S,
    room: &mut Room<A>,
    extent: Extent,
    at: u64,
    places: &mut Vec<PropertyPlace>,
) -> Result<Option<u64>, PropertiesFault>
    requires inside { IsInside extent (length (S.device source.old).bytes) }
    requires place { at < 2 ^ 40 }
    ensures { TakesToken extent at result (S.device source.old) (S.device source.new) room.old room.new
        places.old.items places.new.items }
{
    let Ok(met) = meet(source, room, extent, at) else {
        return Err(PropertiesFault::Read);
    };
    match met {
        Met::Place(place) => {
            if places.push(place).is_err() {
                return Err(PropertiesFault::OutOfMemory);
            }
            Ok(Some(at + 12 + up4(place.value.length)))
        }
        Met::Nop => Ok(Some(at + 4)),
        Met::Edge => Ok(None),
        Met::Strange => Err(PropertiesFault::Changed),
    }
}

fn gather<S: Source, A: Allocator>(
    alloc: Global,
    source: &mut S,
    room: &mut Room<A>,
    extent: Extent,
    start: u64,
) -> Result<Vec<PropertyPlace>, PropertiesFault>
    requires inside { IsInside extent (length (S.device source.old).bytes) }
    requires place { start < 2 ^ 40 }
    ensures { TakesTokens extent start result (S.device source.old) (S.device source.new)
        room.old room.new }
{
    let mut places = Vec::new(alloc);
    let mut at = start;
    while let Some(next) = step(source, room, extent, at, &mut places)? {
        at = next;
    }
    Ok(places)
}

/// Reads the header of an indexed blob again and returns its blocks. It requests 40 bytes.
///
/// - `Read`: if and only if the read failed.
/// - `Changed`: the header is no longer one that `index` takes, or its total size is another; only
///   if the source does not have the blob that was indexed.
pub fn extent_again<S: Source>(source: &mut S, totalsize: u32) -> Result<Extent, PropertiesFault>
    ensures uses { Asks 40 (is_unread result) (S.device source.old) (S.device source.new) }
    ensures inside { IfOk result (λ extent. IsInside extent (length (S.device source.old).bytes)) }
    ensures same { IfOk result (λ extent. extent.totalsize ≡ totalsize) }
    ensures again { HonestSource S.device source → (t : Siblings) →
        tree (S.device source.old).bytes ≡ Ok t → totalsize ≡ be32 (S.device source.old).bytes 4 →
        FindsBlocks (S.device source.old).bytes result }
{
    match read_extent(source) {
        Ok(extent) if extent.totalsize == totalsize as u64 => Ok(extent),
        Ok(_) => Err(PropertiesFault::Changed),
        Err(IndexFault::Blob(_, _)) => Err(PropertiesFault::Changed),
        Err(IndexFault::Read) => Err(PropertiesFault::Read),
    }
}

/// Returns the spans of all properties of a node, in order (Devicetree Specification, section 5.4),
/// including those without a key.
///
/// Blob and room must be as `index` left them, and the node's number below the count of entries.
/// The properties are read again from the structure block: from the node's name up to the first
/// token that begins or ends a node. No value is read. Whatever the source returns, a name has at
/// most 255 bytes, and the blob at least 12 for each property. Of an honest source it requests at
/// most 44 bytes, 268 for each property of the node and 4 for each NOP of the blob. Only the room's
/// window changes.
///
/// - `Read`: if and only if a read failed.
/// - `OutOfMemory`: only if memory for the spans was refused.
/// - `Changed`: only if the source does not have the blob that was indexed.
pub fn properties_of<S: Source, A: Allocator>(
    alloc: Global,
    source: &mut S,
    blob: &Blob,
    room: &mut Room<A>,
    node: usize,
) -> Result<Vec<PropertyPlace>, PropertiesFault>
    requires { node < length room.old.entries }
    ensures uses { Uses (is_unread result) (S.device source.old) (S.device source.new) }
    ensures room { room.new ≡ room.old }
    ensures inside { IfOk result (λ places.
        LieInside blob.now.totalsize (length (S.device source.old).bytes) places.items) }
    ensures asked { OfRowRead (S.device source.old) blob.now room.old.entries node (λ row.
        (S.device source.new).asked ≤ (S.device source.old).asked
        + (44 + 268 * length row.own + 4 * nops_met (S.device source.old).bytes)) }
    ensures told { OfRowRead (S.device source.old) blob.now room.old.entries node (λ row.
        TellsPlaces (S.device source.old).bytes (places_of row) result) }
{
    let extent = extent_again(source, blob.totalsize())?;
    let name = blob.name(room, node);
    if name.place > extent.totalsize || name.length > extent.totalsize {
        return Err(PropertiesFault::Changed);
    }
    let start = name.place + up4(name.length + 1);
    let places = gather(alloc, source, room, extent, start)?;
    Ok(places)
}
