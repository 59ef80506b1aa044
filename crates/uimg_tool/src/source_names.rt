//! The names of files in sources: the folder of the file that names another, `/./`, and what it
//! calls that.

ghost use Rattle.std.specs.Prelude.{◌≡◌, ◌-◌, length, take, IfSome};
ghost use Rattle.uimg_tool.specs.SearchedNames.{folder_in, or_own, own_in};

use std::alloc::Global;

/// The name after the last `/./` is what the source calls the file.
pub(crate) fn own_name(name: &[u8]) -> &[u8]
    ensures { result.now ≡ or_own (own_in name.now) name.now }
{
    let mut own = name;
    let mut rest = name;
    while let Some((_, next)) = rest.split_first() {
        if let Some(after) = rest.strip_prefix(b"/./") {
            own = after;
        }
        rest = next;
    }
    own
}

/// The last slash is included.
pub(crate) fn folder_of(name: &[u8]) -> &[u8]
    ensures { result.now ≡ folder_in name.now }
{
    let mut folder = name;
    while let Some((last, before)) = folder.split_last() {
        if *last == b'/' {
            return folder;
        }
        folder = before;
    }
    folder
}

/// Returns the folder of the file that names another: what is before `./` and what it calls that.
pub(crate) fn folder_before<'n>(name: &'n [u8], own: &[u8]) -> &'n [u8]
    ensures { result.now ≡ take (length name.now - length own.now - 2) name.now }
{
    let length = name.len().saturating_sub(own.len()).saturating_sub(2);
    name.get(..length).unwrap_or(&[])
}

pub(crate) fn copied(alloc: Global, name: &[u8]) -> Option<Vec<u8>>
    ensures { IfSome result (λ copy. copy.items ≡ name.now) }
{
    let mut copy = Vec::new(alloc);
    match copy.extend_from_slice(name) {
        Ok(()) => Some(copy),
        Err(_) => None,
    }
}
