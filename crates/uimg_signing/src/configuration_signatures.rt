//! The signature nodes of configurations.

ghost use Rattle.std.specs.Prelude.{◌≡◌, ◌<◌, ◌++◌, length, Some, IfOk, IfSome, OnOk};
ghost use Rattle.std.specs.List.{All, slice_get};
ghost use Rattle.uimg_blob_reading.specs.{Grammar.Siblings, Indexed.{IsIndexed, OfRow}, Rows.{Row, table}};
ghost use Rattle.uimg_signing.specs.SignatureNodes.{IsBelow, configuration_around, is_configuration_role, node_of, signature_nodes, signed_configuration};

use std::alloc::{AllocError, Allocator, Global};
use uimg_base::Room;
use uimg_blob_reading::{Blob, Role};

/// A signature node of a configuration, both by their numbers.
#[derive(Clone, Copy, Debug, PartialEq, Eq)]
pub struct SignatureNode {
    /// The configuration's number.
    pub configuration: usize,
    /// The signature node's number.
    pub node: usize,
}

fn is_configuration<A: Allocator>(blob: &Blob, room: &Room<A>, node: usize) -> bool
    requires { node < length room.now.entries }
    ensures { OfRow blob.now room.now.entries node (λ row. result ≡ is_configuration_role row.role) }
{
    match blob.role(room, node) {
        Role::Configuration => true,
        _ => false,
    }
}

// Returns the number of a parent that is a configuration.
fn configuration_around<A: Allocator>(
    blob: &Blob,
    room: &Room<A>,
    parent: Option<usize>,
) -> Option<usize>
    ensures below { IfSome result (λ number. number < length room.now.entries) }
    ensures told { (t : Siblings) → IsIndexed t blob.now room.now.entries →
        result ≡ configuration_around (table t) parent }
{
    let parent = parent?;
    if parent >= room.count() {
        return None;
    }
    if is_configuration(blob, room, parent) {
        return Some(parent);
    }
    None
}

// Returns the number of the configuration that a node is a signature node of.
fn signed_configuration<A: Allocator>(blob: &Blob, room: &Room<A>, node: usize) -> Option<usize>
    requires { node < length room.now.entries }
    ensures below { IfSome result (λ number. number < length room.now.entries) }
    ensures told { (t : Siblings) → IsIndexed t blob.now room.now.entries → (row : Row) →
        slice_get (table t) node ≡ Some row → result ≡ signed_configuration (table t) row }
{
    if !blob.is_signature(room, node) {
        return None;
    }
    configuration_around(blob, room, blob.parent(room, node))
}

// Adds a node that is a signature node of a configuration.
fn add_node(
    nodes: &mut Vec<SignatureNode>,
    node: usize,
    signed: Option<usize>,
) -> Result<(), AllocError>
    ensures { OnOk result (nodes.new.items ≡ nodes.old.items ++ node_of node signed) }
{
    let Some(configuration) = signed else {
        return Ok(());
    };
    nodes.push(SignatureNode {
        configuration,
        node,
    })?;
    Ok(())
}

/// Returns the signature nodes of all configurations, in reading order.
///
/// Blob and room must be as `index` left them. Both numbers of a signature node are below the count
/// of entries. Returns `AllocError` only if memory was refused.
pub fn signature_nodes<A: Allocator>(
    alloc: Global,
    blob: &Blob,
    room: &Room<A>,
) -> Result<Vec<SignatureNode>, AllocError>
    ensures inside { IfOk result (λ nodes. All (IsBelow (length room.now.entries)) nodes.items) }
    ensures told { (t : Siblings) → IsIndexed t blob.now room.now.entries →
        IfOk result (λ nodes. nodes.items ≡ signature_nodes (table t)) }
{
    let mut nodes = Vec::new(alloc);
    let mut node = 0;
    while node < room.count() {
        let signed = signed_configuration(blob, room, node);
        add_node(&mut nodes, node, signed)?;
        node += 1;
    }
    Ok(nodes)
}
