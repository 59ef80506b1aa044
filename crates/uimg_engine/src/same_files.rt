//! Whether two paths lead to the same file.
use std::fs;
use std::os::unix::fs::MetadataExt;
use std::rt::Files;

/// Returns whether two paths lead to the same file, also by links. If the metadata of one cannot be
/// read, as of a file that does not exist, they do not.
pub fn is_same_file<R: Files>(rt: &R, path: &str, other: &str) -> bool {
    let Ok(one) = fs::metadata(rt, path) else {
        return false;
    };
    match fs::metadata(rt, other) {
        Ok(two) => one.dev() == two.dev() && one.ino() == two.ino(),
        Err(_) => false,
    }
}
