//! Names and properties of a node: those that it lacks, and those that occur twice. dtc refuses the
//! latter, and readers use one of the two.

use crate::warnings::teller::Teller;
use crate::warnings::warning::{NodePath, Warning};
use std::alloc::{AllocError, Global};
use std::collections::BTreeSet;
use std::io::Write;
use uimg_blob_writing::{Node, Value};

pub(crate) fn child_of<'a>(node: &'a Node<Global>, name: &[u8]) -> Option<&'a Node<Global>> {
    for child in node.children.items() {
        if child.name.items() == name {
            return Some(child);
        }
    }
    None
}

/// Returns `None` if the value is left in a file.
pub(crate) fn bytes_of(value: &Value<Global>) -> Option<&[u8]> {
    match value {
        Value::Bytes(bytes) => Some(bytes.items()),
        Value::File { .. } => None,
    }
}

/// Warns unless a node has a property of this name.
pub(crate) fn tell_lack<W: Write>(
    path: NodePath<'_>,
    node: &Node<Global>,
    name: &'static str,
    teller: &mut Teller<'_, W>,
) {
    for property in node.props.items() {
        if property.name.items() == name.as_bytes() {
            return;
        }
    }
    teller.tell(path, Warning::Lacks(name));
}

/// Returns the names of a node's child nodes. Fails if memory for them is refused.
pub(crate) fn names_below(
    alloc: Global,
    node: &Node<Global>,
) -> Result<BTreeSet<&[u8]>, AllocError> {
    let mut names = BTreeSet::new(alloc);
    for child in node.children.items() {
        names.insert(child.name.items())?;
    }
    Ok(names)
}

/// Warns about names that two child nodes of a node have, or two of its properties. Fails if memory
/// for the names is refused.
pub(crate) fn tell_equal_names<W: Write>(
    alloc: Global,
    path: NodePath<'_>,
    node: &Node<Global>,
    teller: &mut Teller<'_, W>,
) -> Result<(), AllocError> {
    let mut nodes = BTreeSet::new(alloc);
    for child in node.children.items() {
        let name = child.name.items();
        if !nodes.insert(name)? {
            teller.tell(path, Warning::EqualNodes(name));
        }
    }
    tell_equal_properties(alloc, path, node, teller)
}

fn tell_equal_properties<W: Write>(
    alloc: Global,
    path: NodePath<'_>,
    node: &Node<Global>,
    teller: &mut Teller<'_, W>,
) -> Result<(), AllocError> {
    let mut properties = BTreeSet::new(alloc);
    for property in node.props.items() {
        let name = property.name.items();
        if !properties.insert(name)? {
            teller.tell(path, Warning::EqualProperties(name));
        }
    }
    Ok(())
}
