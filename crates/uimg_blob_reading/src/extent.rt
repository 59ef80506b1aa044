//! The header of a blob: the offsets of its blocks.

ghost use Rattle.std.specs.Prelude.{◌≡◌, ℕ, ◌+◌, ◌≤◌, List, length, false, IfOk};
ghost use Rattle.uimg_blob_reading.specs.Extents.{IsInside, HeadsFile, GivesBlocks};
ghost use Rattle.uimg_blob_reading.specs.Faults.{is_read, is_out_of_memory, is_of_making};
ghost use Rattle.uimg_base.specs.{Honest.HonestSource, Using.Asks};

use crate::fault::{BlobFault, IndexFault};
use uimg_base::{Source, be32_at};

/// The magic number of a blob (Devicetree Specification, section 5.2).
pub const BLOB_MAGIC: u32 = 0xd00d_feed;

// The version of the format that is read.
const VERSION: u32 = 17;

/// The blocks of a blob, as offsets in bytes from the start of the file.
#[derive(Clone, Copy, Debug, PartialEq, Eq)]
pub struct Extent {
    /// The size of the blob in bytes.
    pub totalsize: u64,
    /// The offset of the structure block.
    pub structure: u64,
    /// The end of the structure block.
    pub structure_end: u64,
    /// The offset of the strings block.
    pub strings: u64,
    /// The size of the strings block in bytes.
    pub strings_size: u64,
}

#[tactic(auto, unfolding(crate::specs::Blob::blocks))]
fn extent_in(bytes: &[u8; 40], size: u64) -> Result<Extent, IndexFault>
    requires { 40 ≤ size }
    ensures no_read { is_read result ≡ false }
    ensures no_memory { is_out_of_memory result ≡ false }
    ensures no_making { is_of_making result ≡ false }
    ensures gives { (file : List ℕ) → HeadsFile bytes.now file → size ≡ length file →
        GivesBlocks file result }
    ensures inside { IfOk result (λ extent. IsInside extent size) }
{
    let totalsize = be32_at(bytes, 4) as u64;
    let structure = be32_at(bytes, 8) as u64;
    let strings = be32_at(bytes, 12) as u64;
    let strings_size = be32_at(bytes, 32) as u64;
    let structure_end = structure + be32_at(bytes, 36) as u64;
    if be32_at(bytes, 0) != BLOB_MAGIC {
        Err(IndexFault::Blob(BlobFault::BadMagic, 0))
    } else if be32_at(bytes, 20) < VERSION {
        Err(IndexFault::Blob(BlobFault::BadVersion, 20))
    } else if be32_at(bytes, 24) > VERSION {
        Err(IndexFault::Blob(BlobFault::BadVersion, 24))
    } else if totalsize < 40 {
        Err(IndexFault::Blob(BlobFault::BlockOutside, 4))
    } else if totalsize > size {
        Err(IndexFault::Blob(BlobFault::BlockOutside, 4))
    } else if structure % 4 != 0 {
        Err(IndexFault::Blob(BlobFault::BlockOutside, 8))
    } else if structure_end > totalsize {
        Err(IndexFault::Blob(BlobFault::BlockOutside, 8))
    } else if strings + strings_size > totalsize {
        Err(IndexFault::Blob(BlobFault::BlockOutside, 12))
    } else {
        Ok(Extent {
            totalsize,
            structure,
            structure_end,
            strings,
            strings_size,
        })
    }
}

// Reads the header of a blob (Devicetree Specification, section 5.2) at once. The returned blocks
// are inside the source, whatever it returns.
//
// Returns the first of these faults, or `Read` if the read failed:
// - `TooShort`: the source has fewer than 40 bytes.
// - `BadMagic`: they do not begin with `0xd00dfeed`.
// - `BadVersion`: the version is below 17, or the last compatible version above 17.
// - `BlockOutside`: the blob has fewer than 40 bytes or is outside the source, a block is outside
//   the blob, or the structure block is not at a multiple of 4.
#[tactic(auto, unfolding(crate::specs::Blob::blocks), using(crate::proofs::NumberLaws::heads))]
pub(crate) fn read_extent<S: Source>(source: &mut S) -> Result<Extent, IndexFault>
    ensures uses { Asks 40 (is_read result) (S.device source.old) (S.device source.new) }
    ensures no_memory { is_out_of_memory result ≡ false }
    ensures no_making { is_of_making result ≡ false }
    ensures gives { HonestSource S.device source →
        GivesBlocks (S.device source.old).bytes result }
    ensures inside { IfOk result (λ extent. IsInside extent (length (S.device source.old).bytes)) }
{
    let size = source.size()?;
    if size < 40 {
        return Err(IndexFault::Blob(BlobFault::TooShort, 0));
    }
    let mut bytes = [0; 40];
    source.fill_at(0, &mut bytes)?;
    extent_in(&bytes, size)
}
