//! The images of a tree, filled one after another.

ghost use Rattle.std.specs.{Prelude.{◌≡◌, ◌≢◌, ℕ, List, [], map, Some, IsTrue, OnOk}, List.filter};
ghost use Rattle.uimg_blob_reading.specs.{LookUps.listed, Roles.is_hash};
ghost use Rattle.uimg_blob_writing.specs.{Content.IsKept, Properties.content, Trees.siblings};
ghost use Rattle.uimg_blob_writing.specs.LentFiles.{OfHonest};
ghost use Rattle.uimg_fit_building.specs.{FillAnswers.OpensKept, Behind.entry, Filling.each};
ghost use Rattle.uimg_fit_building.specs.{FillOrder.FillsNext, PayloadSums.no_files};
ghost use Rattle.uimg_fit_building.specs.ImageSteps.{OpensImages, AnswersInOrder};
ghost use Rattle.uimg_fit_building.specs.OpenedFiles.{OpensNamed, file_if_hashed, summed_file, summed_files};
ghost use Rattle.uimg_fit_building.specs.DigestBytes.{zeroed_child, zeroed_image};
ghost use Rattle.uimg_fit_building.specs.ImageFillings.{hashed_in, filled_over, FillsHashes, FillsImage, FillsImages, IsKeptImage};

use crate::filling::filled_hashes::{algos_of, fill_children};
use crate::filling::payload_sums::payload_digests;
use crate::payloads::payload_of;
use crate::setting::without_external;
use std::alloc::Allocator;
use std::mem;
use uimg_base::Files;
use uimg_blob_writing::{Node, Nodes, Props, Value};
use uimg_fit_base::FitFault;
use uimg_texts::Naming;

fn fill_hashes<F: Files, A: Allocator + Copy>(
    alloc: A,
    nodes: &mut [Node<A>],
    payload: &Value<A>,
    naming: Naming,
    files: &mut F,
) -> Result<(), FitFault>
    ensures opens { OpensKept F.Opened.steady F.map (λ there. IsKept there (content payload.now))
        result files }
    ensures opened { OpensNamed F.map (file_if_hashed
        (filter (λ h. is_hash h.name) (listed (siblings nodes.old))) (Some (content payload.now)))
        result files }
    ensures filled { OfHonest F.map files (λ there.
        FillsHashes naming (λ u. siblings nodes.new) there
        (content payload.now) (siblings nodes.old) result) }
    ensures kept { OfHonest F.map files (λ there. OnOk result (
        filter (λ h. is_hash h.name) (listed (siblings nodes.old)) ≢ [] →
        IsKept there (content payload.now))) }
    ensures rest { (message : List ℕ) → OnOk result (
        each (zeroed_child naming) (siblings nodes.new)
        ≡ each (zeroed_child naming) (each (hashed_in naming message) (siblings nodes.old))) }
{
    let Some(set) = algos_of(naming, nodes) else {
        return Err(FitFault::UnknownAlgo);
    };
    if set.is_empty() {
        return Ok(());
    }
    match payload_digests(set, payload, files) {
        Ok(digests) => fill_children(alloc, nodes, naming, &digests),
        Err(fault) => Err(fault),
    }
}

fn fill_image<F: Files, A: Allocator + Copy>(
    alloc: A,
    image: &mut Node<A>,
    naming: Naming,
    files: &mut F,
) -> Result<(), FitFault>
    ensures opens { OpensKept F.Opened.steady F.map (λ there. IsKeptImage there (entry image.old))
        result files }
    ensures opened { OpensNamed F.map (summed_file (entry image.old)) result files }
    ensures filled { OfHonest F.map files (λ there.
        FillsImage naming there (entry image.old) (entry image.new) result) }
    ensures order { IsTrue (F.map files.old).honest →
        FillsNext naming (F.map files.old) F.Opened.steady (entry image.old) result }
    ensures rest { OnOk result (
        zeroed_image naming (entry image.new)
        ≡ zeroed_image naming (filled_over naming no_files (entry image.old))) }
{
    let Some(payload) = payload_of(&image.props) else {
        return Err(FitFault::NoData);
    };
    let nodes = mem::replace(&mut image.children, Nodes::of(Vec::new(alloc)));
    let mut list = nodes.into_vec();
    let answer = fill_hashes(alloc, list.as_mut_slice(), payload, naming, files);
    image.children = Nodes::of(list);
    let props = mem::replace(&mut image.props, Props::of(Vec::new(alloc)));
    image.props = without_external(props);
    answer
}

/// Stops at the first that is refused.
pub(crate) fn fill_images<F: Files, A: Allocator + Copy>(
    alloc: A,
    images: &mut [Node<A>],
    naming: Naming,
    files: &mut F,
) -> Result<(), FitFault>
    ensures opens { OpensImages F.Opened.steady F.map (Some (map entry images.old)) result files }
    ensures opened { OpensNamed F.map (summed_files (Some (map entry images.old))) result files }
    ensures filled { OfHonest F.map files (λ there.
        FillsImages naming there (map entry images.old) (map entry images.new) result) }
    ensures order { AnswersInOrder naming F.Opened.steady F.map (Some (map entry images.old))
        result files }
    ensures rest { OnOk result (
        each (zeroed_image naming) (siblings images.new)
        ≡ each (zeroed_image naming) (each (filled_over naming no_files) (siblings images.old))) }
{
    for image in images.iter_mut() {
        fill_image(alloc, image, naming, files)?;
    }
    Ok(())
}
