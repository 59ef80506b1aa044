//! Names and values of the nodes of an indexed blob, and its hash nodes.
ghost use Rattle.std.specs.Prelude.{◌≡◌, ℕ, ◌+◌, ◌<◌, ◌≤◌, List, [], ◌∷◌, length, Some, IfSome, IsTrue};
ghost use Rattle.std.specs.Option.{option_map};
ghost use Rattle.uimg_blob_reading.specs.{Grammar.Siblings, Indexed.{IsIndexed, keeps, value_span}};
ghost use Rattle.uimg_blob_reading.specs.{Keys.name_of, LookUps.{NodeOf, first, hashes, listed}};
ghost use Rattle.uimg_blob_reading.specs.Spots.{Spot, spots};
ghost use Rattle.uimg_blob_reading.specs.Roles.{Level, role_at, level_in, level_after, top, in_images, in_image};
ghost use Rattle.uimg_fit_base.specs.Files.{value_bytes, bytes_in, root_own};
ghost use Rattle.uimg_fit_reading.specs.Nodes.{Indexed, IsRead, IsNode, AtNode, InTree, AreFrom, HashesFrom, HashAt, HashesAt, TellsConfigurations, IsEntry, IsEntryOrNone, InAnyFile};
ghost use Rattle.uimg_fit_reading.specs.{Values.in_span, PayloadPlaces.Ends, Rows.sum_named};

use std::alloc::Allocator;
use uimg_base::{Room, Span};
use uimg_blob_reading::{Blob, Key};

/// Returns the span of a node's name, at most 255 bytes.
pub fn name_of<A: Allocator>(blob: &Blob, room: &Room<A>, node: usize) -> Span
    requires { node < length room.now.entries }
    ensures inside { InAnyFile blob.now room.now (λ size. result.place + result.length ≤ size) }
    ensures name { AtNode blob.now room.now node
        (λ file level found. in_span file result ≡ found.name) }
    ensures short { AtNode blob.now room.now node (λ file level found. result.length ≤ 255) }
{
    blob.name(room, node)
}

/// Returns the span of the value of a node's first property of a key, if it has one.
pub fn value_of<A: Allocator>(blob: &Blob, room: &Room<A>, node: usize, key: Key) -> Option<Span>
    requires { node < length room.now.entries }
    ensures inside { InAnyFile blob.now room.now (λ size. Ends size result) }
    ensures span { InTree blob.now room.now node (λ t level found.
        IsTrue (keeps (role_at level found.name) key) →
        result ≡ option_map value_span (first found.own (name_of key))) }
    ensures bytes { AtNode blob.now room.now node (λ file level found.
        IsTrue (keeps (role_at level found.name) key) →
        value_bytes found.own (name_of key) ≡ bytes_in file result) }
{
    blob.value(room, node, key)
}

/// Returns the span of the value of the root's first property of a key, if it has one.
pub fn root_value<A: Allocator>(blob: &Blob, room: &Room<A>, key: Key) -> Option<Span>
    requires { IsTrue (keeps (role_at top []) key) }
    ensures inside { InAnyFile blob.now room.now (λ size. Ends size result) }
    ensures bytes { (file : List ℕ) (t : Siblings) → IsRead file blob.now room.now.entries t →
        value_bytes (root_own (spots t)) (name_of key) ≡ bytes_in file result }
{
    if room.count() == 0 {
        return None;
    }
    value_of(blob, room, 0, key)
}

/// Returns the number of a node's first child, if it has one.
pub fn child_of<A: Allocator>(blob: &Blob, room: &Room<A>, node: usize) -> Option<usize>
    requires { node < length room.now.entries }
    ensures within { IfSome result (λ i. i < length room.now.entries) }
    ensures children { InTree blob.now room.now node (λ t level found.
        AreFrom t (level_in (role_at level found.name)) result (listed found.below)) }
{
    blob.first_child(room, node)
}

/// Returns the number of the node `configurations`, if there is one.
pub fn configurations_of<A: Allocator>(blob: &Blob, room: &Room<A>) -> Option<usize>
    requires { Indexed blob.now room.now.entries }
    ensures within { IfSome result (λ i. i < length room.now.entries) }
    ensures told { (t : Siblings) → IsIndexed t blob.now room.now.entries →
        TellsConfigurations t result }
{
    blob.configurations()
}

/// Returns the number of the next sibling of a node, if it has one.
pub fn next_of<A: Allocator>(blob: &Blob, room: &Room<A>, node: usize) -> Option<usize>
    requires { IsEntry blob.now room.now node }
    ensures within { IfSome result (λ i. i < length room.now.entries) }
    ensures later { IfSome result (λ i. node < i) }
    ensures next { (t : Siblings) → IsIndexed t blob.now room.now.entries →
        (level : Level) (found : NodeOf Spot) (more : List (NodeOf Spot)) →
        AreFrom t level (Some node) (found ∷ more) → AreFrom t (level_after level found.name) result more }
{
    blob.next_sibling(room, node)
}

/// What a child of an image or a configuration is.
#[derive(Clone, Copy, Debug, PartialEq, Eq)]
pub(crate) enum Sum {
    Hash,
    Signature,
}

pub(crate) fn sum_of<A: Allocator>(blob: &Blob, room: &Room<A>, node: usize) -> Option<Sum>
    requires { node < length room.now.entries }
    ensures { (t : Siblings) → IsIndexed t blob.now room.now.entries → (found : NodeOf Spot) →
        IsNode t in_image node found → result ≡ sum_named found.name }
{
    if blob.is_hash(room, node) {
        Some(Sum::Hash)
    } else if blob.is_signature(room, node) {
        Some(Sum::Signature)
    } else {
        None
    }
}

fn hash_from<A: Allocator>(blob: &Blob, room: &Room<A>, first: Option<usize>) -> Option<usize>
    requires { IsEntryOrNone blob.now room.now first }
    ensures within { IfSome result (λ i. i < length room.now.entries) }
    ensures hashes { (t : Siblings) → IsIndexed t blob.now room.now.entries →
        (hs : List (NodeOf Spot)) → HashesFrom t first hs → HashesAt t result hs }
    ensures later { (n : ℕ) → IfSome first (λ i. n < i) → IfSome result (λ i. n < i) }
{
    let mut next = first;
    while let Some(child) = next {
        if blob.is_hash(room, child) {
            return next;
        }
        next = blob.next_sibling(room, child);
    }
    None
}

/// Returns the number of an image's first hash node, if it has one.
pub fn first_hash<A: Allocator>(blob: &Blob, room: &Room<A>, image: usize) -> Option<usize>
    requires { IsEntry blob.now room.now image }
    ensures within { IfSome result (λ i. i < length room.now.entries) }
    ensures hashes { (t : Siblings) → IsIndexed t blob.now room.now.entries →
        (found : NodeOf Spot) → IsNode t in_images image found → HashesAt t result (hashes found) }
{
    hash_from(blob, room, blob.first_child(room, image))
}

/// Returns the number of the next hash node of the image, if there is one.
pub fn next_hash<A: Allocator>(blob: &Blob, room: &Room<A>, hash: usize) -> Option<usize>
    requires { IsEntry blob.now room.now hash }
    ensures within { IfSome result (λ i. i < length room.now.entries) }
    ensures hashes { (t : Siblings) → IsIndexed t blob.now room.now.entries → (found : NodeOf Spot)
        (more : List (NodeOf Spot)) → HashAt t hash found more → HashesAt t result more }
    ensures later { IfSome result (λ i. hash < i) }
{
    hash_from(blob, room, blob.next_sibling(room, hash))
}
