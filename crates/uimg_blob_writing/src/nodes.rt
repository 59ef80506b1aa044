//! Writing of nodes, by recursion.

ghost use Rattle.std.specs.Prelude.{◌^◌, ◌<◌, length};
ghost use Rattle.uimg_blob_reading.specs.Plain.{AllValues};
ghost use Rattle.uimg_blob_writing.specs.{Content.size_of, Encoding.strings, Names.name_texts};
ghost use Rattle.uimg_blob_writing.specs.{Pieces.{nodes_pieces, WritesPieces}, Trees.node_of};

use crate::fault::TreeFault;
use crate::properties::put_properties;
use crate::tokens::{put_begin_node, put_end_node};
use crate::tree::{Node, Nodes};
use std::alloc::Allocator;
use std::io::Write;
use uimg_base::{Files, Out, WINDOW};

// A node to read. Recursive functions take it in place of a reference because the check does not
// find the size of a reference as a measure.
#[derive(Clone, Copy)]
pub(crate) struct ThisNode<'a, A: Allocator> {
    pub(crate) node: &'a Node<A>,
}

// Nodes to read, for the same reason.
#[derive(Clone, Copy)]
struct TheseNodes<'a, A: Allocator> {
    nodes: &'a Nodes<A>,
}

#[cycle(put_nodes)]
pub(crate) fn put_node<F: Files, W: Write, A: Allocator>(
    this: ThisNode<A>,
    names: &[&[u8]],
    files: &mut F,
    window: &mut [u8; WINDOW],
    out: &mut Out<W>,
) -> Result<(), TreeFault>
    requires strings { length (strings (name_texts names.now)) < 2 ^ 32 }
    requires fit { AllValues (λ c. size_of c < 2 ^ 32) (node_of this.node.now) }
    ensures { WritesPieces F.Opened.steady result (F.map files.old) (F.map files.new)
        out.old out.new
        (nodes_pieces (name_texts names.now) (node_of this.entry.node.now)) }
{
    put_begin_node(this.node.name.items(), out)?;
    put_properties(&this.node.props, names, files, window, out)?;
    let below = TheseNodes {
        nodes: &this.node.children,
    };
    put_nodes(below, names, files, window, out)?;
    put_end_node(out)?;
    Ok(())
}

#[cycle(put_nodes)]
fn put_nodes<F: Files, W: Write, A: Allocator>(
    these: TheseNodes<A>,
    names: &[&[u8]],
    files: &mut F,
    window: &mut [u8; WINDOW],
    out: &mut Out<W>,
) -> Result<(), TreeFault>
    requires strings { length (strings (name_texts names.now)) < 2 ^ 32 }
    requires fit { AllValues (λ c. size_of c < 2 ^ 32) these.nodes.now }
    ensures { WritesPieces F.Opened.steady result (F.map files.old) (F.map files.new)
        out.old out.new
        (nodes_pieces (name_texts names.now) these.entry.nodes.now) }
{
    for node in these.nodes.items() {
        put_node(ThisNode { node }, names, files, window, out)?;
    }
    Ok(())
}
