//! How many bytes the path of a node has.

ghost use Rattle.std.specs.Prelude.{◌≡◌, ◌<◌, length};
ghost use Rattle.uimg_blob_reading.specs.{Grammar.Siblings, Indexed.IsIndexed, Rows.table};
ghost use Rattle.uimg_signing.specs.PathSizes.{path_size};

use std::alloc::Allocator;
use uimg_base::Room;
use uimg_blob_reading::Blob;

/// Returns how many bytes the path of a node has, with its NUL; of at most 200 nodes.
pub(crate) fn path_size<A: Allocator>(blob: &Blob, room: &Room<A>, node: usize) -> u64
    requires { node < length room.now.entries }
    ensures { (t : Siblings) → IsIndexed t blob.now room.now.entries →
        result ≡ path_size (table t) node }
{
    let mut size = 0;
    let mut next = Some(node);
    let mut left = 200_u8;
    while left > 0 {
        let Some(number) = next else {
            return size;
        };
        if number >= room.count() {
            return size;
        }
        size = size
            .saturating_add(1)
            .saturating_add(blob.name(room, number).length);
        next = blob.parent(room, number);
        left -= 1;
    }
    size
}
