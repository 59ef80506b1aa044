//! The image at a position.

ghost use Rattle.std.specs.Prelude.{◌<◌, length, IfOk, IfSome, ◌≡◌, false, IfErr};
ghost use Rattle.uimg_fit_base.specs.Faults.{of_making};
ghost use Rattle.uimg_blob_reading.specs.{Grammar.Siblings, Indexed.IsIndexed};
ghost use Rattle.uimg_fit_reading.specs.Nodes.{Indexed, TellsImages, TellsImage};

use std::alloc::Allocator;
use uimg_base::Room;
use uimg_blob_reading::Blob;
use uimg_fit_base::FitFault;

/// Returns the number of the first image, if there is one, or `NoImages` without a node `images`.
pub fn first_image<A: Allocator>(blob: &Blob, room: &Room<A>) -> Result<Option<usize>, FitFault>
    requires { Indexed blob.now room.now.entries }
    ensures within { IfOk result (λ first. IfSome first (λ i. i < length room.now.entries)) }
    ensures no_making { IfErr result (λ fault. of_making fault ≡ false) }
    ensures told { (t : Siblings) → IsIndexed t blob.now room.now.entries → TellsImages t result }
{
    match blob.images() {
        Some(images) => Ok(blob.first_child(room, images)),
        None => Err(FitFault::NoImages),
    }
}

/// Returns the number of the image at a position, counted from 0. Returns `NoImages` or else
/// `NoSuchImage` if there is none.
pub fn image_at<A: Allocator>(blob: &Blob, room: &Room<A>, position: u32) -> Result<usize, FitFault>
    requires { Indexed blob.now room.now.entries }
    ensures within { IfOk result (λ i. i < length room.now.entries) }
    ensures no_making { IfErr result (λ fault. of_making fault ≡ false) }
    ensures told { (t : Siblings) → IsIndexed t blob.now room.now.entries →
        TellsImage t position result }
{
    let mut next = first_image(blob, room)?;
    for _before in 0..position {
        match next {
            Some(image) => next = blob.next_sibling(room, image),
            None => return Err(FitFault::NoSuchImage),
        }
    }
    match next {
        Some(image) => Ok(image),
        None => Err(FitFault::NoSuchImage),
    }
}
