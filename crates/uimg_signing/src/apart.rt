//! The nodes that are not listed, but whose parents are.

ghost use Rattle.std.specs.Prelude.{◌≡◌, ◌<◌, ◌≤◌, length, Some};
ghost use Rattle.std.specs.List.{slice_get};
ghost use Rattle.uimg_blob_reading.specs.{Grammar.Siblings, Indexed.{IsIndexed, OfRow}, Rows.{Row, table}};
ghost use Rattle.uimg_signing.specs.{Apart.{are_apart, is_apart}, Covering.is_marked};

use crate::texts::count_if;
use std::alloc::Allocator;
use uimg_base::Room;
use uimg_blob_reading::Blob;

// Returns whether a node's offset is among these.
fn is_marked<A: Allocator>(blob: &Blob, room: &Room<A>, marks: &[u64], node: usize) -> bool
    requires { node < length room.now.entries }
    ensures { OfRow blob.now room.now.entries node (λ row. result ≡ is_marked marks.now row.at) }
{
    let at = blob.name(room, node).place.saturating_sub(4);
    marks.contains(&at)
}

// Returns whether a node is not listed, and its parent is.
fn is_apart<A: Allocator>(blob: &Blob, room: &Room<A>, marks: &[u64], node: usize) -> bool
    requires { node < length room.now.entries }
    ensures { (t : Siblings) → IsIndexed t blob.now room.now.entries → (row : Row) →
        slice_get (table t) node ≡ Some row → result ≡ is_apart marks.now (table t) row }
{
    if is_marked(blob, room, marks, node) {
        return false;
    }
    let Some(parent) = blob.parent(room, node) else {
        return false;
    };
    if parent >= room.count() {
        return false;
    }
    is_marked(blob, room, marks, parent)
}

// Returns whether there are more of these nodes than U-Boot can sign beside the listed ones.
pub(crate) fn are_apart<A: Allocator>(blob: &Blob, room: &Room<A>, marks: &[u64]) -> bool
    requires { length marks.now ≤ 100 }
    ensures { (t : Siblings) → IsIndexed t blob.now room.now.entries →
        result ≡ are_apart marks.now (table t) }
{
    let mut found = 0;
    let mut node = 0;
    while node < room.count() {
        found = count_if(found, is_apart(blob, room, marks, node));
        node += 1;
    }
    found > 17 + 2 * marks.len() as u64
}
