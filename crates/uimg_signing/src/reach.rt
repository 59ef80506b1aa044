//! Whether U-Boot's walk takes the names and paths of a tree.

ghost use Rattle.std.specs.Prelude.{◌≡◌, ◌*◌, ◌<◌, ◌≤◌, length, None, Ok, IfOk};
ghost use Rattle.uimg_base.specs.{Honest.IfHonest, Using.{Asks, Uses}};
ghost use Rattle.uimg_blob_reading.specs.{Blob.tree, Grammar.Siblings};
ghost use Rattle.uimg_texts.specs.Numbers.{be32};
ghost use Rattle.uimg_signing.specs.{Faults.{is_unread, Refuses}, Reach.{is_closed, is_name, is_reached, takes}};
ghost use Rattle.uimg_signing.specs.Listing.{OfNode, OfNodeRead, OfTable, OfTableRead};

use crate::faults::SigningFault;
use crate::listing::read_name;
use crate::path_sizes::path_size;
use std::alloc::Allocator;
use uimg_base::{Room, Source, be32_at};
use uimg_blob_reading::{Blob, extent_again};

// The longest path with its NUL. U-Boot keeps a path in 200 bytes, and leaves two for the next slash.
const LONGEST: u64 = 198;

// The token that ends a node.
const FDT_END_NODE: u32 = 2;

fn is_name(name: &[u8]) -> bool
    ensures { result ≡ is_name name.now }
{
    if name.is_empty() {
        return false;
    }
    !name.contains(&b'/')
}

// Returns whether the walk takes a node.
fn takes<S: Source, A: Allocator>(
    source: &mut S,
    blob: &Blob,
    room: &Room<A>,
    node: usize,
) -> Result<bool, SigningFault>
    requires node { node < length room.now.entries }
    requires within { blob.now.totalsize ≤ length (S.device source.old).bytes }
    ensures uses { Asks 255 (is_unread result) (S.device source.old) (S.device source.new) }
    ensures refused { OfNodeRead (S.device source.old) blob.now room.now.entries node (λ rows row.
        Refuses None result) }
    ensures told { OfNode (S.device source.old) blob.now room.now.entries node (λ rows row.
        IfOk result (λ it. it ≡ takes (S.device source.old).bytes rows node row)) }
{
    if node == 0 {
        return Ok(true);
    }
    if path_size(blob, room, node) > LONGEST {
        return Ok(false);
    }
    let mut name = [0; 256];
    match read_name(source, blob, room, node, &mut name) {
        Ok(length) => Ok(is_name(&name[..length])),
        Err(fault) => Err(fault),
    }
}

/// Returns whether U-Boot's walk over the tokens (fdt_find_regions) finds nothing between the end of
/// the root and FDT_END, if this ends the structure block: the last word but one is FDT_END_NODE. The
/// walk refuses FDT_NOP there.
///
/// The blob must be as `index` left it.
///
/// - `Read`: if and only if a read failed.
/// - `Changed`: only if the source does not have the blob that was indexed.
pub fn is_closed<S: Source>(source: &mut S, blob: &Blob) -> Result<bool, SigningFault>
    ensures uses { Uses (is_unread result) (S.device source.old) (S.device source.new) }
    ensures refused { IfHonest S.device source (λ file. (t : Siblings) → tree file ≡ Ok t →
        blob.now.totalsize ≡ be32 file 4 → Refuses None result) }
    ensures told { IfHonest S.device source (λ file. (t : Siblings) → tree file ≡ Ok t →
        blob.now.totalsize ≡ be32 file 4 → IfOk result (λ it. it ≡ is_closed file)) }
{
    let extent = match extent_again(source, blob.totalsize()) {
        Ok(extent) => extent,
        Err(fault) => return Err(SigningFault::from(fault)),
    };
    if extent.structure_end < 8 {
        return Ok(false);
    }
    let mut word = [0; 4];
    if source.fill_at(extent.structure_end - 8, &mut word).is_err() {
        return Err(SigningFault::Read);
    }
    Ok(be32_at(&word, 0) == FDT_END_NODE)
}

/// Returns whether U-Boot's walk over the tokens (fdt_find_regions), which tells nodes by their
/// paths, takes those of a tree: each node but the root has a name of at least one byte and without
/// a slash, and a path of fewer than 198 bytes.
///
/// Blob and room must be as `index` left them. Reads each name once.
///
/// - `Read`: if and only if a read failed.
/// - `Changed`: only if the source does not have the blob that was indexed.
pub fn is_reached<S: Source, A: Allocator>(
    source: &mut S,
    blob: &Blob,
    room: &Room<A>,
) -> Result<bool, SigningFault>
    requires { blob.now.totalsize ≤ length (S.device source.old).bytes }
    ensures uses { Asks (length room.now.entries * 255) (is_unread result) (S.device source.old)
        (S.device source.new) }
    ensures refused { OfTableRead (S.device source.old) blob.now room.now.entries (λ rows.
        Refuses None result) }
    ensures told { OfTable (S.device source.old) blob.now room.now.entries (λ rows.
        IfOk result (λ it. it ≡ is_reached (S.device source.old).bytes rows)) }
{
    let mut node = 0;
    while node < room.count() {
        match takes(source, blob, room, node) {
            Ok(true) => node += 1,
            Ok(false) => return Ok(false),
            Err(fault) => return Err(fault),
        }
    }
    Ok(true)
}
