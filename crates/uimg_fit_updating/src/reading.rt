//! Reads a FIT image to a tree in memory.

ghost use Rattle.std.specs.Prelude.{◌≡◌, ◌≤◌, length, IfOk};
ghost use Rattle.uimg_base.specs.Device.{SameDevice};
ghost use Rattle.uimg_base.specs.Honest.{HonestSource};
ghost use Rattle.uimg_blob_reading.specs.Plain.{AllValues};
ghost use Rattle.uimg_blob_writing.specs.{Content.IsBytes, Trees.node_of};
ghost use Rattle.uimg_fit_reading.specs.Nodes.{InFile, Opened};
ghost use Rattle.uimg_blob_reading.specs.{Grammar.Siblings, Spots.spots};
ghost use Rattle.uimg_fit_updating.specs.Reading.{held, IsHeld};

mod nodes;
mod reservations;
mod values;

use crate::fault::UpdateFault;
use crate::reading::nodes::read_nodes;
use crate::reading::reservations::read_reservations;
use std::alloc::{Allocator, Global};
use uimg_base::{Room, Source};
use uimg_blob_reading::Blob;
use uimg_blob_writing::{Nodes, Reservation, Tree};
use uimg_fit_reading::read_tree;
pub(crate) use values::read_span;

/// The most levels of nodes that are read; the root is at the first.
const MOST_LEVELS: u8 = 64;

// The list must have one node.
fn tree_of(nodes: Nodes<Global>) -> Result<Tree<Global>, UpdateFault>
    ensures { IfOk result (λ tree. node_of tree.root ≡ nodes) }
{
    let mut list = nodes.into_vec();
    match list.pop() {
        Some(root) if list.is_empty() => Ok(Tree { root }),
        _ => Err(UpdateFault::Changed),
    }
}

fn read_indexed<S: Source, A: Allocator>(
    alloc: Global,
    source: &mut S,
    blob: &Blob,
    room: &mut Room<A>,
) -> Result<Tree<Global>, UpdateFault>
    requires { InFile (length (S.device source.old).bytes) blob.now room.old.entries }
    ensures same { SameDevice (S.device source.old) (S.device source.new) }
    ensures in_memory { IfOk result (λ tree. AllValues IsBytes (node_of tree.root)) }
    ensures told { (t : Siblings) → Opened (S.device source.old) blob.now room.old t →
        IfOk result (λ tree. node_of tree.root ≡ held (spots t)) }
{
    if room.count() == 0 {
        return Err(UpdateFault::Changed);
    }
    let nodes = read_nodes(alloc, source, blob, room, Some(0), MOST_LEVELS)?;
    tree_of(nodes)
}

/// Reads the blob that a FIT image begins with to a tree in memory: all nodes and properties in
/// order (Devicetree Specification, chapter 5). Returns the entries of its reservation block and
/// its size, too. What is after the blob is not read. Memory is taken for all names and values.
///
/// - The faults of the blob, as `index` returns them.
/// - `Endless`: its reservation block has no end within it and 65536 bytes.
/// - `TooDeep`: it has more than 64 levels.
pub fn read_fit<S: Source, A: Allocator>(
    alloc: Global,
    source: &mut S,
    room: &mut Room<A>,
) -> Result<(Tree<Global>, Vec<Reservation>, u32), UpdateFault>
    ensures same { SameDevice (S.device source.old) (S.device source.new) }
    ensures in_memory { IfOk result (λ read. AllValues IsBytes (node_of read.0.root)) }
    ensures told { HonestSource S.device source → IfOk result (λ read.
        IsHeld (S.device source.old).bytes (node_of read.0.root) read.1.items read.2) }
{
    let blob = read_tree(source, room)?;
    let reservations = read_reservations(alloc, source, room, blob.totalsize())?;
    let tree = read_indexed(alloc, source, &blob, room)?;
    Ok((tree, reservations, blob.totalsize()))
}
