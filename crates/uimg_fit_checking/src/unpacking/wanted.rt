//! Which images' payloads are requested.

ghost use Rattle.std.specs.Prelude.{◌≡◌};
ghost use Rattle.uimg_fit_checking.specs.Unpacking.{as_bytes, is_asked, which};

use crate::unpacking::node_names::NodeName;
use std::collections::BTreeSet;

/// Which images' payloads are requested.
#[derive(Clone, Copy)]
pub enum Wanted<'a> {
    /// Those of all images.
    All,
    /// Those of the images of this name.
    Named(NodeName),
    /// Those of the images whose names are among these.
    Among(&'a BTreeSet<Vec<u8>>),
}

// Returns whether the image of a name is requested.
pub(super) fn is_asked(wanted: Wanted<'_>, name: &NodeName) -> bool
    ensures { result ≡ is_asked (which wanted.entry) (as_bytes name.now) }
{
    match wanted {
        Wanted::All => true,
        Wanted::Named(asked) => asked.bytes() == name.bytes(),
        Wanted::Among(names) => names.contains(name.bytes()),
    }
}
