//! Names in memory: which occur again, and whether one is among them.

ghost use Rattle.std.specs.Prelude.{◌≡◌, ◌+◌, map, IfOk};
ghost use Rattle.std.specs.Option.{option_map};
ghost use Rattle.std.specs.Result.{OnOk};
ghost use Rattle.uimg_strict.specs.Names.{has_at, again, has_name, AddsName};
ghost use Rattle.uimg_strict.specs.Telling.{items_of};

use std::alloc::{AllocError, Global};
use std::collections::BTreeSet;

pub(crate) fn has_at(name: &[u8]) -> bool
    ensures { result ≡ has_at name.now }
{
    for byte in name {
        if *byte == b'@' {
            return true;
        }
    }
    false
}

pub(crate) fn has_name(name: &[u8], names: &[Vec<u8>]) -> bool
    ensures { result ≡ has_name name.now (map items_of names.now) }
{
    for known in names {
        if name == known.as_slice() {
            return true;
        }
    }
    false
}

fn add_name(alloc: Global, names: &mut BTreeSet<Vec<u8>>, name: &[u8]) -> Result<(), AllocError>
    ensures { OnOk result (AddsName name.now names.old names.new) }
{
    let copy = Vec::from_slice(alloc, name)?;
    match names.insert(copy) {
        Ok(_is_new) => Ok(()),
        Err(fault) => Err(AllocError::from(fault)),
    }
}

// Returns the first name that is one of the names before it. Fails if memory was refused.
pub(crate) fn first_again<'a>(
    alloc: Global,
    names: &'a [Vec<u8>],
) -> Result<Option<&'a [u8]>, AllocError>
    ensures { IfOk result (λ found.
        option_map (λ name. name.now) found ≡ again (map items_of names.now)) }
{
    let mut known = BTreeSet::new(alloc);
    for name in names {
        if known.contains(name.as_slice()) {
            return Ok(Some(name.as_slice()));
        }
        add_name(alloc, &mut known, name.as_slice())?;
    }
    Ok(None)
}
