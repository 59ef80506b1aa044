//! The payloads after the blob: checked, and written one after another.

ghost use Rattle.std.specs.{Prelude.{◌≡◌, ◌≤◌, ◌^◌, map, false, Ok, Err}, List.flat_map};
ghost use Rattle.uimg_blob_writing.specs.{Pieces.WritesPieces, Trees.node_of};
ghost use Rattle.uimg_fit_building.specs.Behind.{entry, payload_pieces, images_in, padded_sizes, behind_pieces, end_fault, fault_in};
ghost use Rattle.uimg_fit_base.specs.Placements.{align_of};
ghost use Rattle.uimg_fit_building.specs.Refusing.{is_low};

use crate::building::payload_sizes::payloads_size;
use crate::payloads::{images_of, payload_of};
use std::alloc::Allocator;
use std::io::Write;
use uimg_base::{Files, Out, Source, WINDOW};
use uimg_blob_writing::{Node, Tree, TreeFault, put_aligned, put_zeros};
use uimg_fit_base::{AlignedPlacement, FitFault};

// The most bytes of a file.
const LARGEST: u64 = 0xffff_ffff;

// Refuses payloads that would begin before the end of a blob of this size, and a file that is too
// large.
#[tactic(auto, unfolding(crate::specs::Behind::end_fault))]
fn check_end(size: u32, padded: u64, placement: AlignedPlacement) -> Result<(), FitFault>
    requires { padded ≤ 2 ^ 36 }
    ensures { fault_in result ≡ end_fault size padded placement }
{
    match placement {
        AlignedPlacement::Inside { least: _ } => Ok(()),
        AlignedPlacement::After { align: _ } => {
            if size as u64 + padded > LARGEST {
                return Err(FitFault::TooLarge);
            }
            Ok(())
        }
        AlignedPlacement::At { position, align: _ } => {
            if position < size {
                return Err(FitFault::PositionTooLow);
            }
            if position as u64 + padded > LARGEST {
                return Err(FitFault::TooLarge);
            }
            Ok(())
        }
    }
}

pub(crate) fn check_payloads<A: Allocator>(
    size: u32,
    tree: &Tree<A>,
    placement: AlignedPlacement,
) -> Result<(), FitFault>
    ensures { fault_in result
        ≡ end_fault size (padded_sizes (align_of placement) (images_in (node_of tree.now.root)))
        placement }
{
    let padded = payloads_size(images_of(&tree.root), placement.align());
    check_end(size, padded, placement)
}

fn put_payload<F: Files, W: Write, A: Allocator>(
    image: &Node<A>,
    align: u32,
    files: &mut F,
    window: &mut [u8; WINDOW],
    out: &mut Out<W>,
) -> Result<(), TreeFault>
    ensures { WritesPieces F.Opened.steady result (F.map files.old) (F.map files.new)
        out.old out.new (payload_pieces align (entry image.now)) }
{
    match payload_of(&image.props) {
        Some(value) => put_aligned(value, align, files, window, out),
        None => Ok(()),
    }
}

fn put_payloads<F: Files, W: Write, A: Allocator>(
    images: &[Node<A>],
    align: u32,
    files: &mut F,
    out: &mut Out<W>,
) -> Result<(), TreeFault>
    ensures { WritesPieces F.Opened.steady result (F.map files.old) (F.map files.new)
        out.old out.new (flat_map (payload_pieces align) (map entry images.now)) }
{
    let mut window = [0; WINDOW];
    for image in images {
        put_payload(image, align, files, &mut window, out)?;
    }
    Ok(())
}

pub(crate) fn put_behind<F: Files, W: Write, A: Allocator>(
    size: u32,
    tree: &Tree<A>,
    placement: AlignedPlacement,
    files: &mut F,
    out: &mut Out<W>,
) -> Result<(), TreeFault>
    requires { is_low size placement ≡ false }
    ensures { WritesPieces F.Opened.steady result (F.map files.old) (F.map files.new)
        out.old out.new (behind_pieces size (node_of tree.now.root) placement) }
{
    match placement {
        AlignedPlacement::Inside { least: _ } => Ok(()),
        AlignedPlacement::After { align } => put_payloads(images_of(&tree.root), align, files, out),
        AlignedPlacement::At { position, align } => {
            put_zeros((position - size) as u64, out)?;
            put_payloads(images_of(&tree.root), align, files, out)
        }
    }
}
