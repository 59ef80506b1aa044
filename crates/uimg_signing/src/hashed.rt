//! Whether the images that a configuration names have hash nodes. Without one the signature covers
//! no digest of an image's data.

ghost use Rattle.std.specs.Prelude.{◌≡◌, ◌*◌, ◌<◌, ◌≤◌, List, length, map, false, None, IfOk};
ghost use Rattle.std.specs.List.{All};
ghost use Rattle.uimg_base.specs.{Using.{Asks}};
ghost use Rattle.uimg_blob_reading.specs.{Grammar.Siblings, Indexed.{IsIndexed, OfRow}, Places.read_place, Rows.table};
ghost use Rattle.uimg_signing.specs.{Faults.{is_unread, Refuses}, Naming.CanBeRead};
ghost use Rattle.uimg_signing.specs.Hashed.{any_after, are_hashed, has_hash, hashed_as, is_bare, is_hash_of, is_named_image, is_parent};
ghost use Rattle.uimg_signing.specs.Listing.{OfNode, OfNodeRead, OfTable, OfTableRead, node_cost};

use crate::faults::SigningFault;
use crate::listing::is_named;
use std::alloc::Allocator;
use uimg_base::{Room, Source};
use uimg_blob_reading::{Blob, PropertyPlace, Role};

fn is_parent(parent: Option<usize>, number: usize) -> bool
    ensures { result ≡ is_parent number parent }
{
    match parent {
        Some(parent) => parent == number,
        None => false,
    }
}

// Returns whether a node is a hash node of an image.
fn is_hash_of<A: Allocator>(blob: &Blob, room: &Room<A>, image: usize, node: usize) -> bool
    requires { node < length room.now.entries }
    ensures { OfRow blob.now room.now.entries node (λ row. result ≡ is_hash_of image row) }
{
    match blob.role(room, node) {
        Role::Hash => is_parent(blob.parent(room, node), image),
        _ => false,
    }
}

// Returns whether an image has a hash node.
fn has_hash<A: Allocator>(blob: &Blob, room: &Room<A>, image: usize) -> bool
    ensures { (t : Siblings) → IsIndexed t blob.now room.now.entries →
        result ≡ has_hash (table t) image }
{
    let mut node = 0;
    while node < room.count() {
        if is_hash_of(blob, room, image, node) {
            return true;
        }
        node += 1;
    }
    false
}

// Returns whether a node is an image that the configuration with these properties names.
fn is_named_image<S: Source, A: Allocator>(
    source: &mut S,
    blob: &Blob,
    room: &mut Room<A>,
    places: &[PropertyPlace],
    node: usize,
) -> Result<bool, SigningFault>
    requires node { node < length room.old.entries }
    requires within { blob.now.totalsize ≤ length (S.device source.old).bytes }
    requires places { All (CanBeRead (length (S.device source.old).bytes)) places.now }
    ensures uses { Asks (node_cost (length places.now)) (is_unread result) (S.device source.old)
        (S.device source.new) }
    ensures room { room.new ≡ room.old }
    ensures refused { OfNodeRead (S.device source.old) blob.now room.old.entries node (λ rows row.
        Refuses None result) }
    ensures told { OfNode (S.device source.old) blob.now room.old.entries node (λ rows row.
        IfOk result (λ it. it ≡ is_named_image (S.device source.old).bytes
        (map (read_place (S.device source.old).bytes) places.now) row)) }
{
    match blob.role(room, node) {
        Role::Image => is_named(source, blob, room, places, node),
        _ => Ok(false),
    }
}

// Returns whether an image that the configuration names has a hash node; `None` of other nodes.
fn hashed_as<S: Source, A: Allocator>(
    source: &mut S,
    blob: &Blob,
    room: &mut Room<A>,
    places: &[PropertyPlace],
    node: usize,
) -> Result<Option<bool>, SigningFault>
    requires node { node < length room.old.entries }
    requires within { blob.now.totalsize ≤ length (S.device source.old).bytes }
    requires places { All (CanBeRead (length (S.device source.old).bytes)) places.now }
    ensures uses { Asks (node_cost (length places.now)) (is_unread result) (S.device source.old)
        (S.device source.new) }
    ensures room { room.new ≡ room.old }
    ensures refused { OfNodeRead (S.device source.old) blob.now room.old.entries node (λ rows row.
        Refuses None result) }
    ensures told { OfNode (S.device source.old) blob.now room.old.entries node (λ rows row.
        IfOk result (λ it. it ≡ hashed_as (S.device source.old).bytes
        (map (read_place (S.device source.old).bytes) places.now) rows node row)) }
{
    match is_named_image(source, blob, room, places, node) {
        Ok(true) => Ok(Some(has_hash(blob, room, node))),
        Ok(false) => Ok(None),
        Err(fault) => Err(fault),
    }
}

fn is_bare(found: Option<bool>) -> bool
    ensures { result ≡ is_bare found }
{
    match found {
        Some(is_hashed) => !is_hashed,
        None => false,
    }
}

fn any_after(found: Option<bool>, has_any: bool) -> bool
    ensures { result ≡ any_after found has_any }
{
    match found {
        Some(_) => true,
        None => has_any,
    }
}

/// Returns whether the configuration with these properties names an image, and each image that it
/// names has a hash node.
pub(crate) fn are_hashed<S: Source, A: Allocator>(
    source: &mut S,
    blob: &Blob,
    room: &mut Room<A>,
    places: &[PropertyPlace],
) -> Result<bool, SigningFault>
    requires within { blob.now.totalsize ≤ length (S.device source.old).bytes }
    requires places { All (CanBeRead (length (S.device source.old).bytes)) places.now }
    ensures uses { Asks (length room.old.entries * node_cost (length places.now)) (is_unread result)
        (S.device source.old) (S.device source.new) }
    ensures room { room.new ≡ room.old }
    ensures refused { OfTableRead (S.device source.old) blob.now room.old.entries (λ rows.
        Refuses None result) }
    ensures told { OfTable (S.device source.old) blob.now room.old.entries (λ rows.
        IfOk result (λ it. it ≡ are_hashed (S.device source.old).bytes
        (map (read_place (S.device source.old).bytes) places.now) rows)) }
{
    let mut has_any = false;
    let mut node = 0;
    let count = room.count();
    while node < count {
        let found = match hashed_as(source, blob, room, places, node) {
            Ok(found) => found,
            Err(fault) => return Err(fault),
        };
        if is_bare(found) {
            return Ok(false);
        }
        has_any = any_after(found, has_any);
        node += 1;
    }
    Ok(has_any)
}
