//! The sizes of the payloads after the blob.

ghost use Rattle.std.specs.Prelude.{◌≡◌, ◌^◌, ◌%◌, min, map};
ghost use Rattle.uimg_fit_building.specs.{Behind.{entry, padded_sizes}, UnreadTrees.padded_size_of};

use crate::payloads::payload_of;
use std::alloc::Allocator;
use uimg_blob_writing::{Node, Props, aligned, value_size};

// Sizes are counted up to 2^36, too large for a file, so no sum of them wraps.
const MOST: u64 = 0x10_0000_0000;

/// The modulus of a number in a cell.
pub(crate) const CELL: u64 = 0x1_0000_0000;

// Returns the size of an image's payload, rounded up to an alignment, at most 2^36.
fn padded_size_of<A: Allocator>(props: &Props<A>, align: u32) -> u64
    ensures { result ≡ min (padded_size_of align props.now) (2 ^ 36) }
{
    match payload_of(props) {
        Some(value) => u128::min(aligned(value_size(value), align), MOST as u128) as u64,
        None => 0,
    }
}

// The size is as a cell keeps it.
pub(crate) fn padded_size_in_cell<A: Allocator>(props: &Props<A>, align: u32) -> u32
    ensures { result ≡ padded_size_of align props.now % 4294967296 }
{
    match payload_of(props) {
        Some(value) => (aligned(value_size(value), align) % CELL as u128) as u32,
        None => 0,
    }
}

// Returns the size of all payloads of images, each rounded up to an alignment, at most 2^36.
pub(crate) fn payloads_size<A: Allocator>(images: &[Node<A>], align: u32) -> u64
    ensures { result ≡ min (padded_sizes align (map entry images.now)) (2 ^ 36) }
{
    let mut size: u64 = 0;
    for image in images {
        size = u64::min(size + padded_size_of(&image.props, align), MOST);
    }
    size
}
