//! Updates a FIT image: its tree with its payloads in it, filled again.

ghost use Rattle.std.specs.Prelude.{◌≡◌, None, IfOk};
ghost use Rattle.uimg_base.specs.{Device.SameDevice, Honest.HonestSource};
ghost use Rattle.uimg_blob_reading.specs.Plain.{AllValues};
ghost use Rattle.uimg_blob_writing.specs.{Content.IsBytes, Trees.node_of};
ghost use Rattle.uimg_texts.specs.declared.naming.Naming.TheVariants.{All};
ghost use Rattle.uimg_fit_building.specs.{PayloadSums.no_files, UnreadTrees.filled_unread};
ghost use Rattle.uimg_fit_updating.specs.Updating.{refilled, packed_size, with_room, IsUpdated};

use crate::fault::UpdateFault;
use crate::importing::import;
use crate::reading::read_fit;
use std::alloc::{Allocator, Global};
use uimg_base::{MemFiles, Room, Source};
use uimg_blob_reading::BlobFault;
use uimg_blob_writing::{
    BlobEnd, Node, Reservation, Tree, WORD_ALIGNMENT, copy_properties, measure_with,
};
use uimg_fit_base::{Fault, FitFault};
use uimg_fit_building::fill_by;
use uimg_texts::Naming;

// The bytes by which mkimage makes a blob longer until all fits.
const ROOM: u64 = 1024;

fn fill_in_memory(alloc: Global, tree: Tree<Global>, time: u32) -> Result<Tree<Global>, FitFault>
    requires { AllValues IsBytes (node_of tree.root) }
    ensures { IfOk result (λ filled.
        node_of filled.root ≡ filled_unread All no_files time (node_of tree.root)) }
{
    let mut files = MemFiles::new(&[]);
    fill_by(alloc, tree, time, Naming::All, &mut files)
}

// Leaves the root's properties unchanged.
fn fill_images(alloc: Global, tree: Tree<Global>) -> Result<Tree<Global>, UpdateFault>
    requires { AllValues IsBytes (node_of tree.root) }
    ensures { IfOk result (λ filled.
        node_of filled.root ≡ refilled None (node_of tree.root)) }
{
    let props = copy_properties(alloc, &tree.root.props)?;
    let filled = fill_in_memory(alloc, tree, 0)?;
    let Tree { root } = filled;
    let Node {
        name,
        props: _,
        children,
    } = root;
    Ok(Tree {
        root: Node {
            name,
            props,
            children,
        },
    })
}

// Without a time the root's properties are unchanged.
fn fill_again(
    alloc: Global,
    tree: Tree<Global>,
    time: Option<u32>,
) -> Result<Tree<Global>, UpdateFault>
    requires { AllValues IsBytes (node_of tree.root) }
    ensures { IfOk result (λ filled.
        node_of filled.root ≡ refilled time (node_of tree.root)) }
{
    match time {
        Some(time) => Ok(fill_in_memory(alloc, tree, time)?),
        None => fill_images(alloc, tree),
    }
}

/// The tree of a FIT image that was updated.
#[derive(Drop)]
pub struct Updated {
    /// Its nodes and properties.
    pub tree: Tree<Global>,

    /// The memory that its blob reserves.
    pub reservations: Vec<Reservation>,

    /// The size in bytes of its blob with the free room that mkimage leaves. If the blob needs more
    /// bytes than before the update, packed and with its payloads in it, that is the size before
    /// and as many times 1024 bytes.
    pub roomy_size: u32,
}

fn packed_size(
    alloc: Global,
    tree: &Tree<Global>,
    reservations: &[Reservation],
) -> Result<u32, UpdateFault>
    ensures { IfOk result (λ size.
        size ≡ packed_size reservations.now (node_of tree.now.root)) }
{
    let ending = BlobEnd {
        align: WORD_ALIGNMENT,
        least: 0,
    };
    match measure_with(alloc, tree, ending, reservations) {
        Ok(layout) => Ok(layout.totalsize()),
        Err(BlobFault::TooLarge) => Err(UpdateFault::Fit(Fault::Fit(FitFault::TooLarge))),
        Err(BlobFault::OutOfMemory) => Err(UpdateFault::OutOfMemory),
        Err(fault) => Err(UpdateFault::Fit(Fault::Blob(fault, 0))),
    }
}

// Rounds the growth up to a multiple of `ROOM`, as mkimage does.
fn with_room(packed: u32, needed: u32) -> Result<u32, UpdateFault>
    ensures { IfOk result (λ size. size ≡ with_room packed needed) }
{
    if needed <= packed {
        return Ok(needed);
    }
    let more = u64::from(needed - packed);
    match u32::try_from(u64::from(packed) + (more + ROOM - 1) / ROOM * ROOM) {
        Ok(size) => Ok(size),
        Err(_) => Err(UpdateFault::Fit(Fault::Fit(FitFault::TooLarge))),
    }
}

/// Reads a FIT image to a tree, takes the payloads that are after its blob into it, and fills it by
/// the algorithms of `Naming::All`. The `value` of each hash node is set, and the root's
/// `timestamp` if there is a time, in seconds since 1970. An existing property is replaced in its
/// place, a new one is appended. All other nodes and properties and the reservations stay, but for
/// `data-offset`, `data-size` and `data-position` of images.
///
/// - The faults of `read_fit` and of `uimg_fit_building::fill_by`.
/// - `DataOutside`: a payload is outside the file.
/// - `TooLarge`: the payloads have more bytes than the file, or the blob would have more than
///   4294967295 bytes.
/// - `BadNodeName`, `BadPropertyName`, at offset 0: the blob would have a name of more than 255
///   bytes.
pub fn update<S: Source, A: Allocator>(
    alloc: Global,
    source: &mut S,
    room: &mut Room<A>,
    time: Option<u32>,
) -> Result<Updated, UpdateFault>
    ensures same { SameDevice (S.device source.old) (S.device source.new) }
    ensures told { HonestSource S.device source → IfOk result (λ updated.
        IsUpdated (S.device source.old).bytes time (node_of updated.tree.root)
        updated.reservations.items updated.roomy_size) }
{
    let (tree, reservations, totalsize) = read_fit(alloc, source, room)?;
    let tree = import(alloc, source, room, totalsize, tree)?;
    let packed = packed_size(alloc, &tree, &reservations)?;
    let tree = fill_again(alloc, tree, time)?;
    let needed = packed_size(alloc, &tree, &reservations)?;
    Ok(Updated {
        tree,
        reservations,
        roomy_size: with_room(packed, needed)?,
    })
}
