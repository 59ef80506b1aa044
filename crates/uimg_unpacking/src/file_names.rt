//! Which names of images are used as file names.

ghost use Rattle.std.specs.Prelude.{◌≡◌};
ghost use Rattle.std.specs.List.{list_all};
ghost use Rattle.uimg_unpacking.specs.FileNames.{is_allowed, may_begin, is_file_name};

// The bytes that a file name may have.
const ALLOWED: &[u8] = b"ABCDEFGHIJKLMNOPQRSTUVWXYZabcdefghijklmnopqrstuvwxyz0123456789._-+@";

// Those of them that it may not begin with.
const NOT_FIRST: &[u8] = b".-";

fn is_allowed(byte: u8) -> bool
    ensures { result ≡ is_allowed byte }
{
    ALLOWED.contains(&byte)
}

fn begins(byte: u8) -> bool
    ensures { result ≡ may_begin byte }
{
    !NOT_FIRST.contains(&byte)
}

fn are_allowed(name: &[u8]) -> bool
    ensures { result ≡ list_all is_allowed name.now }
{
    name.iter().all(|byte| is_allowed(*byte))
}

/// Returns whether an image's name can be a file name: it has only letters, digits, `.`, `_`, `-`,
/// `+` and `@`, and begins with neither `.` nor `-`. So it is no path, no option and not hidden.
pub fn is_file_name(name: &[u8]) -> bool
    ensures { result ≡ is_file_name name.now }
{
    match name.first().copied() {
        Some(byte) => begins(byte) && are_allowed(name),
        None => false,
    }
}
