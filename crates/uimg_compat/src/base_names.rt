//! The last names of paths, and those names without a suffix.

ghost use Rattle.std.specs.Prelude.{◌≡◌, ◌≤◌, ◌-◌, ◌==◌, not, length, take};
ghost use Rattle.std.specs.List.{suffix_len};
ghost use Rattle.uimg_compat.specs.AutoSource.{base_name, file_name, without_suffix};

/// The longest description of a device tree, in bytes.
const LONGEST: usize = 99;

/// Returns the name of the file at a path, without its last dot and what follows it, or the first
/// 99 bytes of it.
pub(crate) fn base_name(path: &[u8]) -> &[u8]
    ensures { result.now ≡ base_name path.now }
{
    at_most(without_suffix(file_name(path)), LONGEST)
}

fn at_most(name: &[u8], length: usize) -> &[u8]
    ensures { result.now ≡ take length name.now }
{
    name.get(..length).unwrap_or(name)
}

/// Returns what is after the last slash of a path.
pub fn file_name(path: &[u8]) -> &[u8]
    ensures { result.now ≡ file_name path.now }
{
    &path[end_of_last(path, b'/')..]
}

fn without_suffix(name: &[u8]) -> &[u8]
    ensures { result.now ≡ without_suffix name.now }
{
    let end = end_of_last(name, b'.');
    if end > 0 { &name[..end - 1] } else { name }
}

// Returns the number of bytes up to and with the last one that is this, or 0.
fn end_of_last(text: &[u8], byte: u8) -> usize
    ensures end { result ≡ length text.now - suffix_len (λ it. not (it == byte)) text.now }
    ensures inside { result ≤ length text.now }
{
    let mut end = text.len();
    while end > 0 && text[end - 1] != byte {
        end -= 1;
    }
    end
}
