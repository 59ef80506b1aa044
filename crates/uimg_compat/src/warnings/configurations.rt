//! The configurations of a source.

ghost use Rattle.std.specs.Prelude.{◌<◌, IfSome, length};

use crate::warnings::names::{bytes_of, names_below, tell_equal_names, tell_lack};
use crate::warnings::teller::Teller;
use crate::warnings::warning::{NodePath, Warning};
use std::alloc::{AllocError, Global};
use std::collections::BTreeSet;
use std::io::Write;
use uimg_base::{before_nul, first_nul};
use uimg_blob_writing::{Node, Prop};

/// The properties of a configuration whose values are names of images.
const REFERENCES: [&str; 6] = ["kernel", "ramdisk", "fdt", "loadables", "firmware", "fpga"];

/// The configurations are the child nodes of a node; `images` is the node of the images. Fails if
/// memory is refused.
pub(crate) fn tell_of_configurations<W: Write>(
    alloc: Global,
    configurations: &Node<Global>,
    images: Option<&Node<Global>>,
    teller: &mut Teller<'_, W>,
) -> Result<(), AllocError> {
    let names = match images {
        Some(images) => names_below(alloc, images)?,
        None => BTreeSet::new(alloc),
    };
    tell_of_node(alloc, configurations, teller)?;
    for configuration in configurations.children.items() {
        let path = [configurations.name.items(), configuration.name.items()];
        tell_of_configuration(alloc, NodePath(&path), configuration, &names, teller)?;
    }
    Ok(())
}

fn tell_of_node<W: Write>(
    alloc: Global,
    configurations: &Node<Global>,
    teller: &mut Teller<'_, W>,
) -> Result<(), AllocError> {
    let names = [configurations.name.items()];
    let path = NodePath(&names);
    tell_equal_names(alloc, path, configurations, teller)?;
    let known = names_below(alloc, configurations)?;
    for property in configurations.props.items() {
        tell_default(path, property, &known, teller);
    }
    Ok(())
}

// What follows a NUL is ignored.
fn tell_default<W: Write>(
    path: NodePath<'_>,
    property: &Prop<Global>,
    names: &BTreeSet<&[u8]>,
    teller: &mut Teller<'_, W>,
) {
    if property.name.items() != b"default".as_slice() {
        return;
    }
    let Some(value) = bytes_of(&property.value) else {
        return;
    };
    let name = before_nul(value);
    if !names.contains(name) {
        teller.tell(path, Warning::NoConfiguration(name));
    }
}

fn tell_of_configuration<W: Write>(
    alloc: Global,
    path: NodePath<'_>,
    configuration: &Node<Global>,
    names: &BTreeSet<&[u8]>,
    teller: &mut Teller<'_, W>,
) -> Result<(), AllocError> {
    tell_lack(path, configuration, "description", teller);
    for property in configuration.props.items() {
        tell_of_reference(path, property, names, teller);
    }
    tell_equal_names(alloc, path, configuration, teller)
}

// Warns about names in a property that no image has.
fn tell_of_reference<W: Write>(
    path: NodePath<'_>,
    property: &Prop<Global>,
    names: &BTreeSet<&[u8]>,
    teller: &mut Teller<'_, W>,
) {
    let name = property.name.items();
    if !is_reference(name) {
        return;
    }
    if let Some(value) = bytes_of(&property.value) {
        tell_missing(path, name, value, names, teller);
    }
}

fn is_reference(property: &[u8]) -> bool {
    for name in REFERENCES {
        if name.as_bytes() == property {
            return true;
        }
    }
    false
}

// Warns about texts of a value that no image has as its name. The NUL at its end ends the last one.
fn tell_missing<W: Write>(
    path: NodePath<'_>,
    property: &[u8],
    value: &[u8],
    names: &BTreeSet<&[u8]>,
    teller: &mut Teller<'_, W>,
) {
    let mut left = Some(value.strip_suffix(b"\0".as_slice()).unwrap_or(value));
    while let Some(texts) = left {
        let (name, rest) = first_text(texts);
        if !names.contains(name) {
            teller.tell(path, Warning::NoImage { property, name });
        }
        left = rest;
    }
}

// Returns the bytes before the first NUL, and those after it if there is one.
fn first_text(texts: &[u8]) -> (&[u8], Option<&[u8]>)
    ensures { IfSome result.1 (λ rest. length rest.now < length texts.now) }
{
    match first_nul(texts) {
        Some(end) => (&texts[..end], Some(&texts[end + 1..])),
        None => (texts, None),
    }
}
