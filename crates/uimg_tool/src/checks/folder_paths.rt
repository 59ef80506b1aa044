//! The paths of what is in a folder.

ghost use Rattle.std.specs.Prelude.{◌≡◌, ◌∷◌, ◌++◌, [], IfOk, OnOk, filter, map, vec_items};
ghost use Rattle.uimg_tool.specs.FolderPaths.{ArePathsIn, ends_in_slash, is_entry, path_in, paths_by};

use std::alloc::{AllocError, Global};
use std::io;
use std::io::BufRead;

/// Returns the paths of what is in a folder, in the order of bytes. `names` has all names, each with a
/// NUL after it. Fails if memory is refused.
pub(super) fn sorted_paths(alloc: Global, folder: &[u8], names: &[u8]) -> io::Result<Vec<Vec<u8>>>
    ensures { IfOk result (λ paths. ArePathsIn folder.now names.now (map vec_items paths.items)) }
{
    let mut paths = paths_of(alloc, folder, names)?;
    paths.sort_unstable();
    Ok(paths)
}

fn paths_of(alloc: Global, folder: &[u8], names: &[u8]) -> io::Result<Vec<Vec<u8>>>
    ensures { IfOk result (λ paths. map vec_items paths.items ≡ paths_by folder.now names.now) }
{
    let mut paths = Vec::new(alloc);
    for name in BufRead::split(names, alloc, 0) {
        match name {
            Ok(name) => push_entry(alloc, &mut paths, folder, name.as_slice())?,
            Err(error) => return Err(error),
        }
    }
    Ok(paths)
}

fn push_entry(
    alloc: Global,
    paths: &mut Vec<Vec<u8>>,
    folder: &[u8],
    name: &[u8],
) -> Result<(), AllocError>
    ensures { OnOk result (map vec_items paths.new.items ≡ map vec_items paths.old.items
        ++ map (path_in folder.now) (filter is_entry (name.now ∷ []))) }
{
    if !is_entry(name) {
        return Ok(());
    }
    paths.push(path_in(alloc, folder, name)?)?;
    Ok(())
}

fn is_entry(name: &[u8]) -> bool
    ensures { result ≡ is_entry name.now }
{
    !name.is_empty() && name != b".".as_slice() && name != b"..".as_slice()
}

fn path_in(alloc: Global, folder: &[u8], name: &[u8]) -> Result<Vec<u8>, AllocError>
    ensures { IfOk result (λ path. path.items ≡ path_in folder.now name.now) }
{
    let mut path = Vec::from_slice(alloc, folder)?;
    if !ends_in_slash(folder) {
        path.push(b'/')?;
    }
    path.extend_from_slice(name)?;
    Ok(path)
}

fn ends_in_slash(path: &[u8]) -> bool
    ensures { result ≡ ends_in_slash path.now }
{
    !path.is_empty() && path[path.len() - 1] == b'/'
}
