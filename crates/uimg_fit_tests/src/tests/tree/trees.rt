//! Trees that no source spells.
use std::alloc::{AllocError, Global};
use uimg_blob_writing::{ByteList, Node, Nodes, Prop, Props, Tree, Value};

pub(super) fn prop(alloc: Global, name: &[u8], value: &[u8]) -> Result<Prop<Global>, AllocError> {
    let name = ByteList::of(Vec::from_slice(alloc, name)?);
    let value = Value::Bytes(ByteList::of(Vec::from_slice(alloc, value)?));
    Ok(Prop { name, value })
}

/// Returns a value in the file `f`.
pub(super) fn in_file(alloc: Global, size: u64) -> Result<Value<Global>, AllocError> {
    let name = ByteList::of(Vec::from_slice(alloc, b"f")?);
    Ok(Value::File { name, size })
}

pub(super) fn node(
    alloc: Global,
    name: &[u8],
    own: Prop<Global>,
    children: Vec<Node<Global>>,
) -> Result<Node<Global>, AllocError> {
    let mut props = Vec::new(alloc);
    props.push(own)?;
    Ok(Node {
        name: ByteList::of(Vec::from_slice(alloc, name)?),
        props: Props::of(props),
        children: Nodes::of(children),
    })
}

pub(super) fn root_of(alloc: Global, own: Prop<Global>) -> Result<Tree<Global>, AllocError> {
    let root = node(alloc, b"", own, Vec::new(alloc))?;
    Ok(Tree { root })
}

/// Returns a root with a value in the file `f`.
pub(super) fn root_in_file(
    alloc: Global,
    name: &[u8],
    size: u64,
) -> Result<Tree<Global>, AllocError> {
    let name = ByteList::of(Vec::from_slice(alloc, name)?);
    let value = in_file(alloc, size)?;
    root_of(alloc, Prop { name, value })
}

/// Returns a chain of `levels` nodes below the root.
pub(super) fn chain(alloc: Global, levels: u64) -> Result<Tree<Global>, AllocError> {
    let mut root = node(alloc, b"", prop(alloc, b"p", b"")?, Vec::new(alloc))?;
    for _level in 0..levels {
        let mut children = Vec::new(alloc);
        children.push(root)?;
        root = node(alloc, b"n", prop(alloc, b"p", b"")?, children)?;
    }
    Ok(Tree { root })
}
