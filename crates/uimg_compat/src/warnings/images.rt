//! The images of a source.

use crate::warnings::names::{bytes_of, tell_equal_names, tell_lack};
use crate::warnings::teller::Teller;
use crate::warnings::warning::{NodePath, Warning};
use std::alloc::{AllocError, Global};
use std::io::Write;
use uimg_base::before_nul;
use uimg_blob_writing::{Node, Prop};
use uimg_texts::{Field, Naming};

/// The images are the child nodes of a node. Fails if memory is refused.
pub(crate) fn tell_of_images<W: Write>(
    alloc: Global,
    images: &Node<Global>,
    teller: &mut Teller<'_, W>,
) -> Result<(), AllocError> {
    tell_equal_names(alloc, NodePath(&[images.name.items()]), images, teller)?;
    for image in images.children.items() {
        tell_of_image(alloc, images.name.items(), image, teller)?;
    }
    Ok(())
}

fn tell_of_image<W: Write>(
    alloc: Global,
    above: &[u8],
    image: &Node<Global>,
    teller: &mut Teller<'_, W>,
) -> Result<(), AllocError> {
    let names = [above, image.name.items()];
    let path = NodePath(&names);
    tell_lack(path, image, "description", teller);
    for property in image.props.items() {
        tell_unknown_name(path, property, teller);
    }
    tell_equal_names(alloc, path, image, teller)?;
    tell_of_hashes(alloc, above, image, teller)
}

// Warns about the hash nodes of an image, and its other child nodes.
fn tell_of_hashes<W: Write>(
    alloc: Global,
    above: &[u8],
    image: &Node<Global>,
    teller: &mut Teller<'_, W>,
) -> Result<(), AllocError> {
    for node in image.children.items() {
        let names = [above, image.name.items(), node.name.items()];
        tell_equal_names(alloc, NodePath(&names), node, teller)?;
    }
    Ok(())
}

// What follows a NUL is ignored.
fn tell_unknown_name<W: Write>(
    path: NodePath<'_>,
    property: &Prop<Global>,
    teller: &mut Teller<'_, W>,
) {
    let Some(field) = field_of(property.name.items()) else {
        return;
    };
    let Some(value) = bytes_of(&property.value) else {
        return;
    };
    let name = before_nul(value);
    if Naming::All.code_named(field, name).is_none() {
        teller.tell(path, Warning::UnknownName { field, name });
    }
}

fn field_of(property: &[u8]) -> Option<Field> {
    if property == b"type".as_slice() {
        return Some(Field::Kind);
    }
    if property == b"arch".as_slice() {
        return Some(Field::Architecture);
    }
    if property == b"os".as_slice() {
        return Some(Field::System);
    }
    if property == b"compression".as_slice() {
        return Some(Field::Compression);
    }
    None
}
