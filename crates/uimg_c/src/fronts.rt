//! Copies to the caller's memory.

ghost use Rattle.std.specs.Prelude.{◌≡◌, ◌++◌, min, length, take, drop};

/// Truncates to the length of `to`. Returns how many bytes were copied.
pub(crate) fn copy_front(from: &[u8], to: &mut [u8]) -> usize
    ensures count { result ≡ min (length from.now) (length to.old) }
    ensures copied { to.new ≡ take result from.now ++ drop result to.old }
{
    let count = usize::min(from.len(), to.len());
    to[..count].copy_from_slice(&from[..count]);
    count
}
