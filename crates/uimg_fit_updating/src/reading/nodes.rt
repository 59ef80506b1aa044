//! Nodes, read to memory by recursion.

ghost use Rattle.std.specs.Prelude.{◌≡◌, map, IfOk};
ghost use Rattle.uimg_base.specs.Device.{SameDevice};
ghost use Rattle.uimg_blob_reading.specs.LookUps.{listed};
ghost use Rattle.uimg_blob_reading.specs.Plain.{AllValues};
ghost use Rattle.uimg_blob_writing.specs.{Content.IsBytes, Trees.node_of};
ghost use Rattle.uimg_fit_building.specs.Behind.{entry};
ghost use Rattle.uimg_fit_reading.specs.Nodes.{HasNode, HasNodes, OfAnyNode};
ghost use Rattle.uimg_fit_updating.specs.Reading.{held_node, FromAnyLevel};

use crate::fault::UpdateFault;
use crate::reading::values::{read_properties, read_span};
use std::alloc::{Allocator, Global};
use uimg_base::{Room, Source};
use uimg_blob_reading::Blob;
use uimg_blob_writing::{Node, Nodes};
use uimg_fit_reading::nodes::{child_of, name_of, next_of};

#[cycle(read_nodes)]
fn read_node<S: Source, A: Allocator>(
    alloc: Global,
    source: &mut S,
    blob: &Blob,
    room: &mut Room<A>,
    node: usize,
    levels: u8,
) -> Result<Node<Global>, UpdateFault>
    requires { HasNode (S.device source.old) blob.now room.old node }
    ensures same { SameDevice (S.device source.old) (S.device source.new) }
    ensures room { room.new ≡ room.old }
    ensures in_memory { IfOk result (λ made. AllValues IsBytes (node_of made)) }
    ensures told { OfAnyNode (S.device source.old) blob.now room.old node (λ level found.
        IfOk result (λ made. entry made ≡ held_node found)) }
{
    let name = read_span(alloc, source, room, name_of(blob, room, node))?;
    let props = read_properties(alloc, source, blob, room, node)?;
    let first = child_of(blob, room, node);
    let children = read_nodes(alloc, source, blob, room, first, levels)?;
    Ok(Node {
        name,
        props,
        children,
    })
}

#[cycle(read_nodes)]
pub(crate) fn read_nodes<S: Source, A: Allocator>(
    alloc: Global,
    source: &mut S,
    blob: &Blob,
    room: &mut Room<A>,
    first: Option<usize>,
    levels: u8,
) -> Result<Nodes<Global>, UpdateFault>
    requires { HasNodes (S.device source.old) blob.now room.old first }
    ensures same { SameDevice (S.device source.old) (S.device source.new) }
    ensures room { room.new ≡ room.old }
    ensures in_memory { IfOk result (AllValues IsBytes) }
    ensures told { FromAnyLevel (S.device source.old) blob.now room.old first (λ found.
        IfOk result (λ nodes. listed nodes ≡ map held_node found)) }
{
    let mut nodes = Vec::new(alloc);
    let mut next = first;
    while let Some(node) = next {
        if levels == 0 {
            return Err(UpdateFault::TooDeep);
        }
        let made = read_node(alloc, source, blob, room, node, levels - 1)?;
        if nodes.push(made).is_err() {
            return Err(UpdateFault::OutOfMemory);
        }
        next = next_of(blob, room, node);
    }
    Ok(Nodes::of(nodes))
}
