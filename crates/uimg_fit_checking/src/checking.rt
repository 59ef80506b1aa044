//! Checks the hashes of a FIT image's images.

ghost use Rattle.std.specs.Prelude.{◌+◌, ◌≤◌, length, IfOk};
ghost use Rattle.uimg_base.specs.Honest.{IfHonest};
ghost use Rattle.uimg_fit_base.specs.Faults.{Gives};
ghost use Rattle.uimg_blob_reading.specs.Counts.{index_cost};
ghost use Rattle.uimg_fit_checking.specs.Checks.{check_work, named_finding, check_of, EndsInside};
ghost use Rattle.uimg_fit_checking.specs.Indexes.{IndexedIn};
ghost use Rattle.uimg_fit_checking.specs.UnpackingParts.{ReadsOrRefuses};
ghost use Rattle.uimg_fit_reading.specs.Rooms.{Inspects};

mod all_right;
mod checked_images;
mod checked_payloads;

use crate::checking::all_right::all_right;
use crate::checking::checked_images::first_finding;
use std::alloc::Allocator;
use uimg_base::{Algo, Room, Source, Span};
use uimg_blob_reading::Blob;
use uimg_fit_base::{Fault, Verdict};
use uimg_fit_reading::images::first_image;
use uimg_fit_reading::read_tree;

/// The finding about a FIT image whose blob and payloads are in order. Images and hash nodes are
/// given by the spans of their names in the file, or by the names themselves.
#[derive(Clone, Copy, Debug, PartialEq, Eq)]
pub enum Finding<N> {
    /// Each image has a hash node, and each hash node is right.
    Right {
        /// The number of images.
        images: usize,
        /// The number of their hash nodes.
        hashes: usize,
    },
    /// Each hash node is right, and this is the first image without one. Returned only if no
    /// strength is needed.
    Unhashed(N),
    /// A hash node is not right.
    Wrong {
        /// The image.
        image: N,
        /// The hash node, the first of the image that is not right.
        hash: N,
        /// The word that a report prints for it.
        word: Verdict,
    },
    /// No hash node of the image is compared with its payload by an algorithm at least as strong as
    /// the needed one.
    Weak(N),
    /// With this image, the compared payloads have more bytes together than the file, so some of
    /// them overlap.
    Overlapping(N),
    /// There is no image, but a strength is needed.
    NoImage,
}

/// Compares the hash nodes of a FIT image's images with their payloads, and returns the first
/// finding. Images are checked in their order, each for `Overlapping` before its payload is read,
/// then for `Wrong`, then for `Weak`. If nothing is found, returns `Right` or `Unhashed`. `need` is
/// the needed strength, in the order of `Algo`.
///
/// Each payload is requested at most once, and not at all if no hash node of its image is compared.
/// All requested payloads have at most the file's length together. The span of a name ends inside
/// the source, whatever that returns.
///
/// - The faults of the blob, then `NoImages`.
/// - `NoData`, `DataOutside`: of an image, before any finding about it.
/// - `Read`: if and only if a read failed.
/// - `OutOfMemory`: if and only if the room refused to grow.
pub fn check<S: Source, A: Allocator>(
    need: Option<Algo>,
    source: &mut S,
    room: &mut Room<A>,
) -> Result<Finding<Span>, Fault>
    ensures inspects { Inspects check_work result S.device source room }
    ensures inside { IfOk result (EndsInside (length (S.device source.old).bytes)) }
    ensures told { IfHonest S.device source
        (λ file. Gives (named_finding file) result (check_of need file)) }
{
    let blob = read_tree(source, room)?;
    let finding = check_in(need, source, &blob, room)?;
    Ok(finding)
}

/// As `check`, of a FIT image whose blob was indexed.
pub fn check_in<S: Source, A: Allocator>(
    need: Option<Algo>,
    source: &mut S,
    blob: &Blob,
    room: &mut Room<A>,
) -> Result<Finding<Span>, Fault>
    requires { IndexedIn (S.device source.old) blob.now room.old }
    ensures leaves { ReadsOrRefuses result S.device source room }
    ensures inside { IfOk result (EndsInside (length (S.device source.old).bytes)) }
    ensures asked { IfHonest S.device source (λ file. (S.device source.new).asked + index_cost file
        ≤ (S.device source.old).asked + check_work file) }
    ensures told { IfHonest S.device source
        (λ file. Gives (named_finding file) result (check_of need file)) }
{
    let first = first_image(blob, room)?;
    if need.is_some() & first.is_none() {
        return Ok(Finding::NoImage);
    }
    if let Some(finding) = first_finding(source, blob, room, first, need)? {
        return Ok(finding);
    }
    Ok(all_right(blob, room, first, need))
}
