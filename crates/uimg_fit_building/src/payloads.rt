//! The images of a tree, and the payload of each.

ghost use Rattle.std.specs.{Prelude.{◌≡◌, map, codes}, Option.option_map, Str.bytes_eq};
ghost use Rattle.uimg_blob_reading.specs.LookUps.{first};
ghost use Rattle.uimg_blob_writing.specs.{Properties.content, Trees.node_of};
ghost use Rattle.uimg_fit_building.specs.Behind.{entry, images_in};

use crate::setting::first_value;
use std::alloc::Allocator;
use uimg_blob_writing::{Node, Prop, Props, Value};

pub(crate) fn is_data<A: Allocator>(prop: &Prop<A>) -> bool
    ensures { result ≡ bytes_eq (codes "data") prop.now.name }
{
    b"data".as_slice() == prop.name.items()
}

/// Returns whether a node is named `images`.
pub fn is_images<A: Allocator>(node: &Node<A>) -> bool
    ensures { result ≡ bytes_eq (codes "images") node.now.name }
{
    b"images".as_slice() == node.name.items()
}

// Without a child `images` of the root there are none.
pub(crate) fn images_of<A: Allocator>(root: &Node<A>) -> &[Node<A>]
    ensures { map entry result.now ≡ images_in (node_of root.now) }
{
    for node in root.children.items() {
        if is_images(node) {
            return node.children.items();
        }
    }
    &[]
}

// Returns the payload of an image: its first `data`.
pub(crate) fn payload_of<A: Allocator>(props: &Props<A>) -> Option<&Value<A>>
    ensures { option_map (λ value. content value.now) result ≡ first props.now (codes "data") }
{
    first_value(props, b"data")
}
