//! The size of a tree's blob.

ghost use Rattle.std.specs.Prelude.{◌≡◌, ◌≢◌, ℕ, List, [], length, Option, Err, OnOk, IfOk};
ghost use Rattle.uimg_blob_reading.specs.Plain.{AreNamed};
ghost use Rattle.uimg_blob_reading.specs.declared.fault.BlobFault.TheVariants.{OutOfMemory};
ghost use Rattle.uimg_blob_writing.specs.Content.{in_full, AreKept};
ghost use Rattle.uimg_blob_writing.specs.{Encoding.{names_of, encode, encode_with}, Layouts.totalsize};
ghost use Rattle.uimg_blob_writing.specs.{Measured.{measured, measured_by, Measures}, Trees.node_of};

use crate::alignment::WORD_ALIGNMENT;
use crate::blob_end::BlobEnd;
use crate::checking::check_names;
use crate::layout::{Layout, RESERVATION_OFFSET};
use crate::names::add_all_names;
use crate::nodes::ThisNode;
use crate::reservation::{Reservation, block_size};
use crate::sizes::{node_size, strings_size};
use crate::tree::Tree;
use std::alloc::Allocator;
use uimg_blob_reading::BlobFault;

// The greatest size of a blob in bytes.
const LARGEST: u128 = 0xffff_ffff;

/// Measures the blob of a tree: finds the names of its properties, each once in the order of first
/// use, and the sizes of its blocks. The blob's end is rounded up to a multiple of 4.
///
/// The time grows with the properties times the distinct names. Calls nest as deep as the tree.
/// Memory is taken for the names only, and none for a tree without properties.
///
/// - `BadNodeName`, `BadPropertyName`: for the first name, in the order of writing, with more than
///   255 bytes or a NUL.
/// - `TooLarge`: no name is bad, and the blob has more than 4294967295 bytes, with each file
///   counted by its stored size.
/// - `OutOfMemory`: only if memory for the names was refused.
pub fn measure<'a, A: Allocator>(alloc: A, tree: &'a Tree<A>) -> Result<Layout<'a, A>, BlobFault>
    ensures measured { Measures result (measured (node_of tree.now.root)) }
    ensures memory { result ≡ Err OutOfMemory → names_of (node_of tree.now.root) ≢ [] }
    ensures named { OnOk result (AreNamed (node_of tree.now.root)) }
    ensures sized { IfOk result (λ layout. (files : List ℕ → Option (List ℕ)) →
        AreKept files (node_of tree.now.root) →
        length (encode (in_full files (node_of tree.now.root))) ≡ totalsize layout) }
{
    let ending = BlobEnd {
        align: WORD_ALIGNMENT,
        least: 0,
    };
    measure_with(alloc, tree, ending, &[])
}

/// Measures the blob of a tree as `measure` does, with this end and these entries in its reservation
/// block.
pub fn measure_with<'a, A: Allocator>(
    alloc: A,
    tree: &'a Tree<A>,
    ending: BlobEnd,
    reservations: &'a [Reservation],
) -> Result<Layout<'a, A>, BlobFault>
    ensures measured { Measures result
        (measured_by ending reservations.now (node_of tree.now.root)) }
    ensures memory { result ≡ Err OutOfMemory → names_of (node_of tree.now.root) ≢ [] }
    ensures named { OnOk result (AreNamed (node_of tree.now.root)) }
    ensures sized { IfOk result (λ layout. (files : List ℕ → Option (List ℕ)) →
        AreKept files (node_of tree.now.root) →
        length (encode_with ending reservations.now (in_full files (node_of tree.now.root)))
        ≡ totalsize layout) }
{
    check_names(ThisNode { node: &tree.root })?;
    let mut names = Vec::new(alloc);
    if add_all_names(&mut names, ThisNode { node: &tree.root }).is_err() {
        return Err(BlobFault::OutOfMemory);
    }
    let structure = node_size(ThisNode { node: &tree.root }) + 4;
    let strings = strings_size(names.as_slice());
    let offset = RESERVATION_OFFSET as u64 + block_size(reservations);
    if ending.sized(offset + structure + strings) > LARGEST {
        return Err(BlobFault::TooLarge);
    }
    Ok(Layout {
        names,
        reservations,
        structure_size: structure as u32,
        strings_size: strings as u32,
        ending,
    })
}
