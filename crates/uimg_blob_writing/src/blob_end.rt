//! The end of a blob.

ghost use Rattle.std.specs.Prelude.{◌≡◌, ◌≤◌};
ghost use Rattle.uimg_blob_writing.specs.Alignment.{sized};

use crate::alignment::aligned;

/// The end of a blob, behind its strings block.
#[derive(Clone, Copy, Debug)]
pub struct BlobEnd {
    /// The alignment that the blob's size is rounded up to, as by `aligned`.
    pub align: u32,

    /// The least size of the blob in bytes. Zeros fill it: free room for properties to come.
    pub least: u32,
}

impl BlobEnd {
    // Returns the size in bytes of a blob whose strings block ends at `size`.
    pub(crate) fn sized(self, size: u64) -> u128
        ensures place { result ≡ sized self size }
        ensures least { size ≤ result }
    {
        u128::max(aligned(size, self.align), self.least as u128)
    }
}
