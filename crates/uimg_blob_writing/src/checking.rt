//! Names that no blob may have.

ghost use Rattle.std.specs.Prelude.{◌≡◌};
ghost use Rattle.uimg_blob_writing.specs.Measured.{is_name, bad_property, bad_name, fault_in};
ghost use Rattle.uimg_blob_writing.specs.Trees.{node_of};

use crate::nodes::ThisNode;
use crate::props::Props;
use std::alloc::Allocator;
use uimg_base::first_nul;
use uimg_blob_reading::BlobFault;

// The greatest length of a name in bytes.
const LONGEST_NAME: usize = 255;

// Returns whether a name has at most 255 bytes and no NUL.
fn is_name(name: &[u8]) -> bool
    ensures { result ≡ is_name name.now }
{
    name.len() <= LONGEST_NAME && first_nul(name).is_none()
}

fn check_properties<A: Allocator>(props: &Props<A>) -> Result<(), BlobFault>
    ensures { fault_in result ≡ bad_property props.now }
{
    for prop in props.items() {
        if !is_name(prop.name.items()) {
            return Err(BlobFault::BadPropertyName);
        }
    }
    Ok(())
}

// Returns the fault of the first bad name in the order of writing.
pub(crate) fn check_names<A: Allocator>(this: ThisNode<A>) -> Result<(), BlobFault>
    ensures { fault_in result ≡ bad_name (node_of this.entry.node.now) }
{
    if !is_name(this.node.name.items()) {
        return Err(BlobFault::BadNodeName);
    }
    check_properties(&this.node.props)?;
    for node in this.node.children.items() {
        check_names(ThisNode { node })?;
    }
    Ok(())
}
