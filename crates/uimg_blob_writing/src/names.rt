//! The distinct names of properties, and their offsets.

ghost use Rattle.std.specs.{Prelude.{◌≡◌, ◌^◌, ◌<◌, length, OnOk, OnErr}, List.list_any};
ghost use Rattle.std.specs.Str.{bytes_eq};
ghost use Rattle.uimg_blob_writing.specs.Encoding.{strings, name_offset, with_name, with_names, with_names_in};
ghost use Rattle.uimg_blob_writing.specs.{Names.name_texts, Trees.node_of};

use crate::nodes::ThisNode;
use crate::props::Props;
use std::alloc::{AllocError, Allocator};

pub(crate) fn name_offset(names: &[&[u8]], name: &[u8]) -> u32
    requires { length (strings (name_texts names.now)) < 2 ^ 32 }
    ensures { result ≡ name_offset (name_texts names.now) name.now }
{
    let mut at: u32 = 0;
    for other in names {
        if name == *other {
            return at;
        }
        at += other.len() as u32 + 1;
    }
    at
}

fn has_name(names: &[&[u8]], name: &[u8]) -> bool
    ensures { result ≡ list_any (bytes_eq name.now) (name_texts names.now) }
{
    for other in names {
        if name == *other {
            return true;
        }
    }
    false
}

// Adds a name, unless it is one of the names already.
fn add_name<'a, A: Allocator>(
    names: &mut Vec<&'a [u8], A>,
    name: &'a [u8],
) -> Result<(), AllocError>
    ensures added { OnOk result (name_texts names.new.items
        ≡ with_name (name_texts names.old.items) name.now) }
    ensures memory { OnErr result (0 < length (with_name (name_texts names.old.items) name.now)) }
{
    if has_name(names.as_slice(), name) {
        return Ok(());
    }
    names.push(name)?;
    Ok(())
}

fn add_names<'a, A: Allocator>(
    names: &mut Vec<&'a [u8], A>,
    props: &'a Props<A>,
) -> Result<(), AllocError>
    ensures added { OnOk result (name_texts names.new.items
        ≡ with_names (name_texts names.old.items) props.now) }
    ensures memory { OnErr result (0 < length (with_names (name_texts names.old.items) props.now)) }
{
    for prop in props.items() {
        add_name(names, prop.name.items())?;
    }
    Ok(())
}

pub(crate) fn add_all_names<'a, A: Allocator>(
    names: &mut Vec<&'a [u8], A>,
    this: ThisNode<'a, A>,
) -> Result<(), AllocError>
    ensures added { OnOk result (name_texts names.new.items
        ≡ with_names_in (name_texts names.old.items) (node_of this.entry.node.now)) }
    ensures memory { OnErr result
        (0 < length (with_names_in (name_texts names.old.items) (node_of this.entry.node.now))) }
{
    add_names(names, &this.node.props)?;
    for node in this.node.children.items() {
        add_all_names(names, ThisNode { node })?;
    }
    Ok(())
}
