//! The whole source.

use crate::dtc_words::Silenced;
use crate::warnings::configurations::tell_of_configurations;
use crate::warnings::images::tell_of_images;
use crate::warnings::names::{child_of, tell_equal_names, tell_lack};
use crate::warnings::teller::Teller;
use crate::warnings::warning::NodePath;
use std::alloc::{AllocError, Global};
use std::io::Write;
use uimg_blob_writing::{Node, Tree};

/// Warns about the tree of a source, a line for each of the first 20 warnings, then the number of
/// further ones. Silenced warnings are not counted.
///
/// These are the warnings:
/// - a description that the root, an image or a configuration lacks, and the root's
///   `#address-cells`;
/// - a name in a configuration without an image, and a default without a configuration;
/// - a type, architecture, operating system or compression that is no name of image.h;
/// - equal names of nodes or properties in one node, down to the child nodes of images.
///
/// Takes memory for the names of one node and those of the images; if that is refused, the rest is
/// not checked. It goes on after failed writes.
pub fn warn<W: Write>(alloc: Global, tree: &Tree<Global>, silenced: Silenced, err: &mut W) {
    let mut teller = Teller::new(silenced, err);
    let _ = tell_of_root(alloc, &tree.root, &mut teller);
    teller.end();
}

fn tell_of_root<W: Write>(
    alloc: Global,
    root: &Node<Global>,
    teller: &mut Teller<'_, W>,
) -> Result<(), AllocError> {
    let path = NodePath(&[]);
    tell_lack(path, root, "description", teller);
    tell_lack(path, root, "#address-cells", teller);
    tell_equal_names(alloc, path, root, teller)?;
    let images = child_of(root, b"images");
    if let Some(images) = images {
        tell_of_images(alloc, images, teller)?;
    }
    match child_of(root, b"configurations") {
        Some(configurations) => tell_of_configurations(alloc, configurations, images, teller),
        None => Ok(()),
    }
}
