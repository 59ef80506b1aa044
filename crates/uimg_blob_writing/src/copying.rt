//! Copies of nodes, properties and values.

ghost use Rattle.std.specs.Prelude.{◌≡◌, IfOk};

use crate::byte_list::ByteList;
use crate::nodes::ThisNode;
use crate::props::{Prop, Props, Value};
use crate::tree::{Node, Nodes};
use std::alloc::{AllocError, Allocator};

/// Copies bytes. Returns `AllocError` only if memory was refused.
pub fn copy_bytes<A: Allocator>(alloc: A, bytes: &[u8]) -> Result<ByteList<A>, AllocError>
    ensures { IfOk result (λ copy. copy ≡ bytes.now) }
{
    let mut copies = Vec::new(alloc);
    copies.extend_from_slice(bytes)?;
    Ok(ByteList::of(copies))
}

/// Copies a value; the bytes of a file stay in the file. Returns `AllocError` only if memory was
/// refused.
pub fn copy_value<A: Allocator + Copy>(alloc: A, value: &Value<A>) -> Result<Value<A>, AllocError>
    ensures { IfOk result (λ copy. copy ≡ value.now) }
{
    match value {
        Value::Bytes(bytes) => Ok(Value::Bytes(copy_bytes(alloc, bytes.items())?)),
        Value::File { name, size } => {
            let name = copy_bytes(alloc, name.items())?;
            Ok(Value::File { name, size: *size })
        }
    }
}

/// Copies a property. Returns `AllocError` only if memory was refused.
pub fn copy_property<A: Allocator + Copy>(alloc: A, prop: &Prop<A>) -> Result<Prop<A>, AllocError>
    ensures { IfOk result (λ copy. copy ≡ prop.now) }
{
    let name = copy_bytes(alloc, prop.name.items())?;
    let value = copy_value(alloc, &prop.value)?;
    Ok(Prop { name, value })
}

/// Copies properties. Returns `AllocError` only if memory was refused.
pub fn copy_properties<A: Allocator + Copy>(
    alloc: A,
    props: &Props<A>,
) -> Result<Props<A>, AllocError>
    ensures { IfOk result (λ copy. copy ≡ props.now) }
{
    let mut copies = Vec::new(alloc);
    for prop in props.items() {
        let copy = copy_property(alloc, prop)?;
        copies.push(copy)?;
    }
    Ok(Props::of(copies))
}

fn copy_this<A: Allocator + Copy>(alloc: A, this: ThisNode<A>) -> Result<Node<A>, AllocError>
    ensures { IfOk result (λ copy. copy ≡ this.entry.node.now) }
{
    let name = copy_bytes(alloc, this.node.name.items())?;
    let props = copy_properties(alloc, &this.node.props)?;
    let mut copies = Vec::new(alloc);
    for node in this.node.children.items() {
        let copy = copy_this(alloc, ThisNode { node })?;
        copies.push(copy)?;
    }
    let children = Nodes::of(copies);
    Ok(Node {
        name,
        props,
        children,
    })
}

/// Copies a node and its descendants. Returns `AllocError` only if memory was refused. Its calls
/// nest as deep as the node.
pub fn copy_node<A: Allocator + Copy>(alloc: A, node: &Node<A>) -> Result<Node<A>, AllocError>
    ensures { IfOk result (λ copy. copy ≡ node.now) }
{
    copy_this(alloc, ThisNode { node })
}

/// Copies nodes and their descendants. Returns `AllocError` only if memory was refused. Its calls
/// nest as deep as the nodes.
pub fn copy_nodes<A: Allocator + Copy>(alloc: A, nodes: &Nodes<A>) -> Result<Nodes<A>, AllocError>
    ensures { IfOk result (λ copy. copy ≡ nodes.now) }
{
    let mut copies = Vec::new(alloc);
    for node in nodes.items() {
        let copy = copy_this(alloc, ThisNode { node })?;
        copies.push(copy)?;
    }
    Ok(Nodes::of(copies))
}
