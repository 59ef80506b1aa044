//! Building: the blob of a filled tree is written, and the payloads after it.

ghost use Rattle.std.specs.Prelude.{◌≡◌, OnOk, false};
ghost use Rattle.uimg_blob_writing.specs.{Content.{AreKept, in_full}, Layouts.{plan_with, totalsize}};
ghost use Rattle.uimg_blob_writing.specs.{Trees.node_of, LentFiles.{OfHonest, IfInFull}};
ghost use Rattle.uimg_fit_building.specs.BuildSteps.{of_measure, of_writing, MeasuresTree, WritesText, BuildsWith, Builds};
ghost use Rattle.uimg_fit_building.specs.{Building.{built, built_with, end_of}, Filling.IsFilled, ReadsBack.ReadsBack};
ghost use Rattle.uimg_fit_building.specs.{Refusing.is_low, UnreadTrees.moved_unread};
ghost use Rattle.uimg_fit_building.specs.OpenedFiles.{OpensNamed, built_files};
ghost use Rattle.uimg_fit_base.specs.Placements.{aligned_by};

mod behind;
mod payload_sizes;
mod placing;

use crate::building::behind::{check_payloads, put_behind};
use crate::building::placing::place;
use std::alloc::Allocator;
use std::io::Write;
use uimg_base::{Files, Out, Source};
use uimg_blob_reading::BlobFault;
use uimg_blob_writing::{BlobEnd, Layout, Reservation, Tree, TreeFault, measure_with, write_tree};
use uimg_fit_base::{AlignedPlacement, Fault, FitFault, Placement, WORD_ALIGNMENT};

/// What a FIT image has beside its tree.
#[derive(Clone, Copy)]
pub struct Frame<'a> {
    /// Where the payloads go.
    pub placement: AlignedPlacement,

    /// The memory that the blob reserves.
    pub reservations: &'a [Reservation],
}

fn of_measure(fault: BlobFault) -> Fault
    ensures { result ≡ of_measure fault }
{
    match fault {
        BlobFault::TooLarge => Fault::Fit(FitFault::TooLarge),
        BlobFault::OutOfMemory => Fault::Fit(FitFault::OutOfMemory),
        _ => Fault::Blob(fault, 0),
    }
}

fn of_writing(fault: TreeFault) -> Fault
    ensures { result ≡ of_writing fault }
{
    match fault {
        TreeFault::Put => Fault::Put,
        TreeFault::Read => Fault::Read,
        TreeFault::NoFile => Fault::Fit(FitFault::NoFile),
    }
}

fn end_of(placement: AlignedPlacement) -> BlobEnd
    ensures { result ≡ end_of placement }
{
    BlobEnd {
        align: placement.align(),
        least: placement.least(),
    }
}

fn measure_placed<'a, A: Allocator>(
    alloc: A,
    placed: &'a Tree<A>,
    ending: BlobEnd,
    reservations: &'a [Reservation],
) -> Result<Layout<'a, A>, Fault>
    ensures { MeasuresTree ending reservations.now result (node_of placed.now.root) }
{
    match measure_with(alloc, placed, ending, reservations) {
        Ok(layout) => Ok(layout),
        Err(fault) => Err(of_measure(fault)),
    }
}

// `placed` is the tree's copy with cells for its payloads.
fn write_file<F: Files, W: Write, A: Allocator>(
    placed: &Tree<A>,
    layout: &Layout<A>,
    tree: &Tree<A>,
    placement: AlignedPlacement,
    files: &mut F,
    out: &mut Out<W>,
) -> Result<(), TreeFault>
    requires plan { layout.now
        ≡ plan_with (end_of placement) layout.now.reservations (node_of placed.now.root) }
    requires placed { node_of placed.now.root ≡ moved_unread (node_of tree.now.root) placement }
    requires high { is_low (totalsize layout.now) placement ≡ false }
    ensures opened { OpensNamed F.map (built_files (node_of tree.now.root) placement)
        result files }
    ensures kept { OfHonest F.map files (λ there.
        OnOk result (AreKept there (node_of tree.now.root))) }
    ensures sent { WritesText F.Opened.steady F.map (node_of tree.now.root) result files out
        (λ there.
        built_with layout.now.reservations (in_full there (node_of tree.now.root)) placement) }
{
    write_tree(placed, layout, files, out)?;
    put_behind(layout.totalsize(), tree, placement, files, out)
}

// `placed` is the tree's copy with cells for its payloads.
fn build_placed<F: Files, W: Write, A: Allocator>(
    alloc: A,
    placed: &Tree<A>,
    tree: &Tree<A>,
    frame: Frame<'_>,
    files: &mut F,
    out: &mut Out<W>,
) -> Result<(), Fault>
    requires { node_of placed.now.root
        ≡ moved_unread (node_of tree.now.root) frame.placement }
    ensures opened { OpensNamed F.map (built_files (node_of tree.now.root) frame.entry.placement)
        result files }
    ensures builds { BuildsWith F.Opened.steady F.map frame.entry.reservations.now
        (node_of tree.now.root) frame.entry.placement result files out }
{
    let placement = frame.placement;
    let layout = measure_placed(alloc, placed, end_of(placement), frame.reservations)?;
    check_payloads(layout.totalsize(), tree, placement)?;
    match write_file(placed, &layout, tree, placement, files, out) {
        Ok(()) => Ok(()),
        Err(fault) => Err(of_writing(fault)),
    }
}

#[tactic(auto, using(uimg_blob_writing::proofs::OpenedLaws::each_unopened))]
fn place_and_build<F: Files, W: Write, A: Allocator + Copy>(
    alloc: A,
    tree: &Tree<A>,
    frame: Frame<'_>,
    files: &mut F,
    out: &mut Out<W>,
) -> Result<(), Fault>
    ensures opened { OpensNamed F.map (built_files (node_of tree.now.root) frame.entry.placement)
        result files }
    ensures builds { BuildsWith F.Opened.steady F.map frame.entry.reservations.now
        (node_of tree.now.root) frame.entry.placement result files out }
{
    match frame.placement {
        AlignedPlacement::Inside { least: _ } => build_placed(alloc, tree, tree, frame, files, out),
        AlignedPlacement::After { align } => {
            let Ok(placed) = place(alloc, tree, align, b"data-offset", 0) else {
                return Err(Fault::Fit(FitFault::OutOfMemory));
            };
            build_placed(alloc, &placed, tree, frame, files, out)
        }
        AlignedPlacement::At { position, align } => {
            let Ok(placed) = place(alloc, tree, align, b"data-position", position) else {
                return Err(Fault::Fit(FitFault::OutOfMemory));
            };
            build_placed(alloc, &placed, tree, frame, files, out)
        }
    }
}

/// Builds the FIT image of a tree: its blob (Devicetree Specification, chapter 5), and after it the
/// payloads that are not in it (Flattened Image Tree format, "External data").
///
/// With `Inside` the tree is written unchanged. With `After` and `At` two cells replace the first
/// `data` of each image, `data-offset` or `data-position`, and `data-size`; the payloads follow in
/// order. The blob's end and each payload's are padded with zeros to a multiple of 4, and zeros
/// fill up to the position of the first. An image without `data` is unchanged.
///
/// A file is opened once for each value stored in it, when the value is written, and read through a
/// window of 8192 bytes. Over honest files, at `Ok`, each file has the size that the tree keeps.
/// The image of a filled tree verifies, and each payload is found in it. Calls nest as deep as the
/// tree.
///
/// All memory is taken before the first byte. Refusals come before it too, in this order:
/// - `BadNodeName`, `BadPropertyName` of the blob, at offset 0: for the first bad name in the order
///   of writing.
/// - `TooLarge`: the blob has more than 4294967295 bytes.
/// - `PositionTooLow`: the payloads would begin before the blob's end.
/// - `TooLarge`: the file has more than 4294967295 bytes.
/// - `OutOfMemory`, also before the first byte: memory was refused.
///
/// These come while the image is written. Over honest files of the kept sizes a prefix of it was
/// written then:
/// - `Put`: if and only if a write failed.
/// - `NoFile`: if and only if the open of a file was refused.
/// - `Read`: a read of a file failed, or its size differs from the one that the tree keeps.
pub fn build<F: Files, W: Write, A: Allocator + Copy>(
    alloc: A,
    tree: &Tree<A>,
    files: &mut F,
    placement: Placement,
    out: &mut Out<W>,
) -> Result<(), Fault>
    ensures builds { Builds F.Opened.steady F.map (node_of tree.now.root) (aligned_by placement 4)
        result files out }
    // Exactly the files that stay in the blob, and then the payloads after it, are opened, in the
    // order of writing; at a fault the first ones.
    ensures opened { OpensNamed F.map
        (built_files (node_of tree.now.root) (aligned_by placement 4)) result files }
    // Here `t` is the tree with the bytes of its files.
    ensures reads_back { IfInFull F.map files (node_of tree.now.root) (λ t.
        IsFilled t → OnOk result (ReadsBack (built t (aligned_by placement 4)) t)) }
{
    build_by(
        alloc,
        tree,
        files,
        placement.aligned_by(WORD_ALIGNMENT),
        out,
    )
}

/// Builds the FIT image of a tree as `build` does, with the blob's end and each payload's rounded
/// up to the placement's alignment.
pub fn build_by<F: Files, W: Write, A: Allocator + Copy>(
    alloc: A,
    tree: &Tree<A>,
    files: &mut F,
    placement: AlignedPlacement,
    out: &mut Out<W>,
) -> Result<(), Fault>
    ensures builds { Builds F.Opened.steady F.map (node_of tree.now.root) placement result
        files out }
    ensures opened { OpensNamed F.map (built_files (node_of tree.now.root) placement)
        result files }
    // Here `t` is the tree with the bytes of its files.
    ensures reads_back { IfInFull F.map files (node_of tree.now.root) (λ t.
        IsFilled t → OnOk result (ReadsBack (built t placement) t)) }
{
    let frame = Frame {
        placement,
        reservations: &[],
    };
    build_with(alloc, tree, files, frame, out)
}

/// Builds the FIT image of a tree as `build_by` does, with the reservations of the frame in its blob
/// (Devicetree Specification, section 5.3).
pub fn build_with<F: Files, W: Write, A: Allocator + Copy>(
    alloc: A,
    tree: &Tree<A>,
    files: &mut F,
    frame: Frame<'_>,
    out: &mut Out<W>,
) -> Result<(), Fault>
    ensures builds { BuildsWith F.Opened.steady F.map frame.entry.reservations.now
        (node_of tree.now.root) frame.entry.placement result files out }
    ensures opened { OpensNamed F.map (built_files (node_of tree.now.root) frame.entry.placement)
        result files }
    // Here `t` is the tree with the bytes of its files.
    ensures reads_back { IfInFull F.map files (node_of tree.now.root) (λ t.
        IsFilled t → OnOk result (ReadsBack
        (built_with frame.entry.reservations.now t frame.entry.placement) t)) }
{
    place_and_build(alloc, tree, frame, files, out)
}
