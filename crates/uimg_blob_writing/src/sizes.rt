//! The sizes in bytes of nodes and properties.

ghost use Rattle.std.specs.Prelude.{◌≡◌, ◌^◌, min, length};
ghost use Rattle.uimg_blob_writing.specs.{Encoding.strings, Layouts.{properties_size, nodes_size}};
ghost use Rattle.uimg_blob_writing.specs.{Names.name_texts, Trees.node_of};

use crate::nodes::ThisNode;
use crate::payloads::value_size;
use crate::props::Props;
use std::alloc::Allocator;
use uimg_base::up4;

// Sizes are counted up to 2^36, which is too large for a blob, so no sum of them wraps.
const MOST: u64 = 0x10_0000_0000;

// In bytes, at most 2^36.
fn properties_size<A: Allocator>(props: &Props<A>) -> u64
    ensures { result ≡ min (properties_size props.now) (2 ^ 36) }
{
    let mut size: u64 = 0;
    for prop in props.items() {
        let value = u64::min(value_size(&prop.value), MOST);
        size = u64::min(size + (12 + up4(value)), MOST);
    }
    size
}

// With the node's descendants, in bytes, at most 2^36.
pub(crate) fn node_size<A: Allocator>(this: ThisNode<A>) -> u64
    ensures { result ≡ min (nodes_size (node_of this.entry.node.now)) (2 ^ 36) }
{
    let name = u64::min(this.node.name.items().len() as u64, MOST);
    let mut size = u64::min(8 + up4(name + 1) + properties_size(&this.node.props), MOST);
    for node in this.node.children.items() {
        size = u64::min(size + node_size(ThisNode { node }), MOST);
    }
    size
}

// In bytes, at most 2^36.
pub(crate) fn strings_size(names: &[&[u8]]) -> u64
    ensures { result ≡ min (length (strings (name_texts names.now))) (2 ^ 36) }
{
    let mut size: u64 = 0;
    for name in names {
        size = u64::min(size + (name.len() as u64 + 1), MOST);
    }
    size
}
