//! A copy of the tree with cells in place of its payloads.

ghost use Rattle.std.specs.Prelude.{◌≡◌, ◌++◌, IfOk, OnOk, codes};
ghost use Rattle.uimg_blob_writing.specs.Trees.{node_of};
ghost use Rattle.uimg_fit_building.specs.Filling.{in_first, with_images};
ghost use Rattle.uimg_fit_building.specs.Placing.{cell_property, cells, placed_image, with_placed};
ghost use Rattle.uimg_fit_building.specs.UnreadTrees.{unread_own, unread_from};

use crate::building::payload_sizes::{CELL, padded_size_in_cell};
use crate::payloads::{is_data, is_images};
use std::alloc::{AllocError, Allocator};
use uimg_blob_writing::{
    Node, Nodes, Prop, Props, Tree, Value, copy_bytes, copy_node, copy_nodes, copy_properties,
    copy_property, value_size,
};

fn cell<A: Allocator + Copy>(alloc: A, name: &[u8], number: u32) -> Result<Prop<A>, AllocError>
    ensures { IfOk result (λ prop. prop ≡ cell_property name.now number) }
{
    let name = copy_bytes(alloc, name)?;
    let value = copy_bytes(alloc, &number.to_be_bytes())?;
    Ok(Prop {
        name,
        value: Value::Bytes(value),
    })
}

// Adds the two cells that replace a payload.
fn add_cells<A: Allocator + Copy>(
    alloc: A,
    props: &mut Vec<Prop<A>, A>,
    key: &[u8],
    at: u32,
    payload: &Prop<A>,
) -> Result<(), AllocError>
    ensures { OnOk result (props.new.items ≡ props.old.items ++ cells key.now at payload.now) }
{
    let place = cell(alloc, key, at)?;
    let size = cell(
        alloc,
        b"data-size",
        (value_size(&payload.value) % CELL) as u32,
    )?;
    props.push(place)?;
    props.push(size)?;
    Ok(())
}

// Copies properties, with two cells in place of the first `data`.
fn place_properties<A: Allocator + Copy>(
    alloc: A,
    props: &Props<A>,
    key: &[u8],
    at: u32,
) -> Result<Props<A>, AllocError>
    ensures { IfOk result (λ placed. placed ≡ unread_own key.now at props.now) }
{
    let mut copies = Vec::new(alloc);
    let mut moved = false;
    for prop in props.items() {
        if !moved && is_data(prop) {
            add_cells(alloc, &mut copies, key, at, prop)?;
            moved = true;
        } else {
            let copy = copy_property(alloc, prop)?;
            copies.push(copy)?;
        }
    }
    Ok(Props::of(copies))
}

fn place_image<A: Allocator + Copy>(
    alloc: A,
    image: &Node<A>,
    key: &[u8],
    at: u32,
) -> Result<Node<A>, AllocError>
    ensures { IfOk result (λ placed. placed ≡ placed_image key.now at image.now) }
{
    let name = copy_bytes(alloc, image.name.items())?;
    let props = place_properties(alloc, &image.props, key, at)?;
    let children = copy_nodes(alloc, &image.children)?;
    Ok(Node {
        name,
        props,
        children,
    })
}

// Copies images, with two cells in place of each payload. The payloads follow one another from an
// offset on, each rounded up to an alignment.
fn place_images<A: Allocator + Copy>(
    alloc: A,
    images: &Nodes<A>,
    align: u32,
    key: &[u8],
    at: u32,
) -> Result<Nodes<A>, AllocError>
    ensures { IfOk result (λ placed. placed ≡ unread_from align key.now at images.now) }
{
    let mut copies = Vec::new(alloc);
    let mut at = at;
    for image in images.items() {
        let copy = place_image(alloc, image, key, at)?;
        copies.push(copy)?;
        at = at.wrapping_add(padded_size_in_cell(&image.props, align));
    }
    Ok(Nodes::of(copies))
}

fn place_in<A: Allocator + Copy>(
    alloc: A,
    node: &Node<A>,
    align: u32,
    key: &[u8],
    at: u32,
) -> Result<Node<A>, AllocError>
    ensures { IfOk result (λ placed. placed ≡ with_placed align key.now at node.now) }
{
    let name = copy_bytes(alloc, node.name.items())?;
    let props = copy_properties(alloc, &node.props)?;
    let children = place_images(alloc, &node.children, align, key, at)?;
    Ok(Node {
        name,
        props,
        children,
    })
}

fn place_children<A: Allocator + Copy>(
    alloc: A,
    nodes: &Nodes<A>,
    align: u32,
    key: &[u8],
    at: u32,
) -> Result<Nodes<A>, AllocError>
    ensures { IfOk result (λ placed.
        placed ≡ in_first (codes "images") (unread_from align key.now at) nodes.now) }
{
    let mut copies = Vec::new(alloc);
    let mut moved = false;
    for node in nodes.items() {
        let copy = if !moved && is_images(node) {
            moved = true;
            place_in(alloc, node, align, key, at)?
        } else {
            copy_node(alloc, node)?
        };
        copies.push(copy)?;
    }
    Ok(Nodes::of(copies))
}

// Each payload is replaced by `data-size`, and by a cell of this name for its offset. Offsets count
// from `at` on, each rounded up to an alignment. No payload of an image is copied.
pub(crate) fn place<A: Allocator + Copy>(
    alloc: A,
    tree: &Tree<A>,
    align: u32,
    key: &[u8],
    at: u32,
) -> Result<Tree<A>, AllocError>
    ensures { IfOk result (λ placed.
        node_of placed.root ≡ with_images (unread_from align key.now at) (node_of tree.now.root)) }
{
    let name = copy_bytes(alloc, tree.root.name.items())?;
    let props = copy_properties(alloc, &tree.root.props)?;
    let children = place_children(alloc, &tree.root.children, align, key, at)?;
    Ok(Tree {
        root: Node {
            name,
            props,
            children,
        },
    })
}
