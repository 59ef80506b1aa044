//! The configurations with signature nodes.

ghost use Rattle.std.specs.Prelude.{◌≡◌, ◌++◌, length, None, IfOk, OnOk};
ghost use Rattle.std.specs.List.{All};
ghost use Rattle.uimg_blob_reading.specs.{Grammar.Siblings, Indexed.IsIndexed, Rows.table};
ghost use Rattle.uimg_map.specs.Signing.{first_from, first_of, is_same, signing_nodes};
ghost use Rattle.uimg_signing.specs.SignatureNodes.{IsBelow};

use std::alloc::{AllocError, Allocator, Global};
use uimg_base::Room;
use uimg_blob_reading::Blob;
use uimg_signing::{SignatureNode, signature_nodes};

fn is_same(last: Option<usize>, number: usize) -> bool
    ensures { result ≡ is_same last number }
{
    match last {
        Some(last) => last == number,
        None => false,
    }
}

// Adds a node, unless its configuration is the last one.
fn add_first(
    nodes: &mut Vec<SignatureNode>,
    last: Option<usize>,
    node: SignatureNode,
) -> Result<(), AllocError>
    ensures { OnOk result (nodes.new.items ≡ nodes.old.items ++ first_of last node) }
{
    if is_same(last, node.configuration) {
        return Ok(());
    }
    nodes.push(node)?;
    Ok(())
}

fn first_nodes(alloc: Global, all: &[SignatureNode]) -> Result<Vec<SignatureNode>, AllocError>
    ensures { IfOk result (λ nodes. nodes.items ≡ first_from None all.now) }
{
    let mut nodes = Vec::new(alloc);
    let mut last = None;
    for node in all {
        add_first(&mut nodes, last, *node)?;
        last = Some(node.configuration);
    }
    Ok(nodes)
}

/// Returns the first signature node of each configuration that has one, in reading order. So a
/// configuration is read once for an image, however many signature nodes it has.
pub(crate) fn signing_nodes<A: Allocator>(
    alloc: Global,
    blob: &Blob,
    room: &Room<A>,
) -> Result<Vec<SignatureNode>, AllocError>
    ensures inside { IfOk result (λ nodes. All (IsBelow (length room.now.entries)) nodes.items) }
    ensures told { (t : Siblings) → IsIndexed t blob.now room.now.entries →
        IfOk result (λ nodes. nodes.items ≡ signing_nodes (table t)) }
{
    let all = signature_nodes(alloc, blob, room)?;
    let nodes = first_nodes(alloc, all.as_slice())?;
    Ok(nodes)
}
