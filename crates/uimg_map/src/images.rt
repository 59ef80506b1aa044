//! The images of a FIT image: where their payloads are, and which signature covers them.

ghost use Rattle.std.specs.Prelude.{◌≡◌, ◌+◌, ◌*◌, ◌<◌, ◌≤◌, List, length, map, false, IfOk};
ghost use Rattle.std.specs.List.{All};
ghost use Rattle.uimg_base.specs.{Honest.IfHonest, Using.{Uses, UsesWithin}};
ghost use Rattle.uimg_blob_reading.specs.{Grammar.Siblings, LookUps.NodeOf, Roles.in_images, Rows.table, Spots.Spot};
ghost use Rattle.uimg_fit_checking.specs.SurveyParts.{IsOwn, is_changed, is_unread};
ghost use Rattle.uimg_fit_reading.specs.Nodes.{AreFrom, InAnyFile, IsEntryOrNone, IsNode, Opened};
ghost use Rattle.uimg_map.specs.Images.{ImageInside, ImagesInside, TellsImages, read_image, told_by};
ghost use Rattle.uimg_map.specs.{Signatures.covering_cost, Work.images_work};
ghost use Rattle.uimg_signing.specs.SignatureNodes.{IsBelow};

use crate::signatures::covered_by;
use crate::signing::signing_nodes;
use std::alloc::{Allocator, Global};
use uimg_base::{Room, Source, Span};
use uimg_blob_reading::Blob;
use uimg_fit_checking::SurveyFault;
use uimg_fit_reading::images::first_image;
use uimg_fit_reading::nodes::next_of;
use uimg_fit_reading::{PayloadFacts, payload_facts, read_tree};
use uimg_signing::SignatureNode;

/// An image.
#[derive(Drop)]
pub(crate) struct Image {
    /// Its name.
    pub(crate) name: Span,

    /// The properties that say where its payload is.
    pub(crate) payload: PayloadFacts,

    /// The name of the configuration whose signature covers it, if one does.
    pub(crate) covered: Option<Span>,
}

/// The images of a blob.
#[derive(Drop)]
pub(crate) struct Images {
    /// The length of the blob in bytes, by its header.
    pub(crate) totalsize: u32,

    /// The images, in their order.
    pub(crate) images: Vec<Image>,
}

fn image_of<S: Source, A: Allocator>(
    alloc: Global,
    source: &mut S,
    blob: &Blob,
    room: &mut Room<A>,
    signatures: &[SignatureNode],
    image: usize,
) -> Result<Image, SurveyFault>
    requires signatures { All (IsBelow (length room.old.entries)) signatures.now }
    requires image { image < length room.old.entries }
    ensures uses { Uses (is_unread result) (S.device source.old) (S.device source.new) }
    ensures room { room.new ≡ room.old }
    ensures own { IsOwn result }
    ensures inside { InAnyFile blob.now room.old (λ size. IfOk result (ImageInside size)) }
    ensures asked { (t : Siblings) → Opened (S.device source.old) blob.now room.old t →
        (found : NodeOf Spot) → IsNode t in_images image found → ((S.device source.new).asked ≤ (S.device source.old).asked
        + covering_cost (S.device source.old).bytes (table t) signatures.now) }
    ensures said { (t : Siblings) → Opened (S.device source.old) blob.now room.old t →
        (found : NodeOf Spot) → IsNode t in_images image found → IfOk result (λ it.
        read_image (S.device source.old).bytes it
        ≡ told_by (S.device source.old).bytes (table t) signatures.now found) }
{
    let name = blob.name(room, image);
    let payload = payload_facts(blob, room, image);
    let covered = covered_by(alloc, source, blob, room, signatures, image)?;
    Ok(Image {
        name,
        payload,
        covered,
    })
}

fn gather_images<S: Source, A: Allocator>(
    alloc: Global,
    source: &mut S,
    blob: &Blob,
    room: &mut Room<A>,
    signatures: &[SignatureNode],
    first: Option<usize>,
) -> Result<Vec<Image>, SurveyFault>
    requires signatures { All (IsBelow (length room.old.entries)) signatures.now }
    requires first { IsEntryOrNone blob.now room.old first }
    ensures uses { Uses (is_unread result) (S.device source.old) (S.device source.new) }
    ensures room { room.new ≡ room.old }
    ensures own { IsOwn result }
    ensures inside { InAnyFile blob.now room.old (λ size. IfOk result
        (λ images. All (ImageInside size) images.items)) }
    ensures asked { (t : Siblings) → Opened (S.device source.old) blob.now room.old t →
        (all : List (NodeOf Spot)) → AreFrom t in_images first all →
        (S.device source.new).asked ≤ (S.device source.old).asked
        + length all * covering_cost (S.device source.old).bytes (table t) signatures.now }
    ensures said { (t : Siblings) → Opened (S.device source.old) blob.now room.old t →
        (all : List (NodeOf Spot)) → AreFrom t in_images first all → IfOk result (λ images.
        map (read_image (S.device source.old).bytes) images.items
        ≡ map (told_by (S.device source.old).bytes (table t) signatures.now) all) }
{
    let mut images = Vec::new(alloc);
    let mut next = first;
    while let Some(image) = next {
        let found = image_of(alloc, source, blob, room, signatures, image)?;
        if images.push(found).is_err() {
            return Err(SurveyFault::OutOfMemory);
        }
        next = next_of(blob, room, image);
    }
    Ok(images)
}

/// Collects the images of a FIT image. Reads no value but those of configurations with signature
/// nodes. The room holds the nodes meanwhile.
///
/// - The faults of the blob, then `NoImages`.
/// - `Stopped` with `Read`: if and only if a read failed.
/// - `OutOfMemory`: memory for the images, or for signature nodes and their configurations'
///   properties was refused.
pub(crate) fn read_images<S: Source, A: Allocator>(
    alloc: Global,
    source: &mut S,
    room: &mut Room<A>,
) -> Result<Images, SurveyFault>
    ensures uses { UsesWithin images_work (is_unread result) S.device source }
    ensures inside { IfOk result (ImagesInside (length (S.device source.old).bytes)) }
    ensures unchanged { is_changed result ≡ false }
    ensures told { IfHonest S.device source (λ file. TellsImages file result) }
{
    let blob = read_tree(source, room)?;
    let first = first_image(&blob, room)?;
    let signatures = signing_nodes(alloc, &blob, room)?;
    let images = gather_images(alloc, source, &blob, room, signatures.as_slice(), first)?;
    Ok(Images {
        totalsize: blob.totalsize(),
        images,
    })
}
