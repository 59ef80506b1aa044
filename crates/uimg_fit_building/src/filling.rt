//! Filling: the timestamp and the digests of a tree are set.

ghost use Rattle.std.specs.{Prelude.{◌≡◌, codes, not, Some, IfOk, OnOk, false}, List.prefix_len};
ghost use Rattle.std.specs.Str.{bytes_eq};
ghost use Rattle.uimg_blob_reading.specs.LookUps.{images, listed};
ghost use Rattle.uimg_blob_writing.specs.{Content.{bytes, FilesAtData}, Encoding.word};
ghost use Rattle.uimg_blob_writing.specs.{Trees.{node_of, siblings}, UsingFiles.UsesFiles};
ghost use Rattle.uimg_blob_writing.specs.LentFiles.{OfHonest, IfKept, IfComplete, IfSteady};
ghost use Rattle.uimg_fit_building.specs.{Filling.{with, each, in_first}, PayloadSums.no_files};
ghost use Rattle.uimg_fit_building.specs.FillAnswers.{opens_no_file, fails_to_read};
ghost use Rattle.uimg_fit_building.specs.FillAnswers.{FillsAnswer, FillsAnswerBy};
ghost use Rattle.uimg_texts.specs.declared.naming.Naming.TheVariants.{Profile};
ghost use Rattle.uimg_fit_building.specs.ImageSteps.{OpensImages, AnswersInOrder};
ghost use Rattle.uimg_fit_building.specs.SettingSteps.{MakesUnlessMemory};
ghost use Rattle.uimg_fit_building.specs.OpenedFiles.{OpensNamed, summed_files};
ghost use Rattle.uimg_fit_building.specs.UnreadTrees.{filled_unread};
ghost use Rattle.uimg_fit_building.specs.DigestBytes.{zeroed_parent, zeroed_below, zeroed_tree};
ghost use Rattle.uimg_fit_building.specs.ImageFillings.{filled_over, FillsParent, FillsBelow, images_among};

mod filled_hashes;
mod filled_images;
mod payload_sums;

use crate::filling::filled_images::fill_images;
use crate::payloads::is_images;
use crate::setting::{copied, with_value};
use std::alloc::Allocator;
use std::mem;
use uimg_base::{Files, Source};
use uimg_blob_writing::{Node, Nodes, Props, Tree, Value};
use uimg_fit_base::FitFault;
use uimg_texts::Naming;

fn with_time<A: Allocator + Copy>(
    alloc: A,
    props: Props<A>,
    time: u32,
) -> Result<Props<A>, FitFault>
    ensures { MakesUnlessMemory result
        (λ own. own ≡ with (codes "timestamp") (bytes (word time)) props) }
{
    let value = Value::Bytes(copied(alloc, &time.to_be_bytes())?);
    with_value(alloc, props, b"timestamp", value)
}

// Counts the nodes before the first that is named `images`.
fn before_images<A: Allocator>(nodes: &[Node<A>]) -> usize
    ensures { result ≡ prefix_len (λ n. not (bytes_eq (codes "images") n.name)) nodes.now }
{
    nodes.iter().take_while(|node| !is_images(node)).count()
}

fn fill_parent<F: Files, A: Allocator + Copy>(
    alloc: A,
    parent: &mut Node<A>,
    naming: Naming,
    files: &mut F,
) -> Result<(), FitFault>
    ensures opens { OpensImages F.Opened.steady F.map (Some (listed parent.old.children))
        result files }
    ensures opened { OpensNamed F.map (summed_files (Some (listed parent.old.children)))
        result files }
    ensures filled { OfHonest F.map files (λ there.
        FillsParent naming there parent.old parent.new result) }
    ensures order { AnswersInOrder naming F.Opened.steady F.map (Some (listed parent.old.children))
        result files }
    ensures rest { OnOk result (zeroed_parent naming parent.new
        ≡ zeroed_parent naming (record parent.old {
          children = each (filled_over naming no_files) parent.old.children;
        })) }
{
    let nodes = mem::replace(&mut parent.children, Nodes::of(Vec::new(alloc)));
    let mut images = nodes.into_vec();
    let answer = fill_images(alloc, images.as_mut_slice(), naming, files);
    parent.children = Nodes::of(images);
    answer
}

fn fill_below<F: Files, A: Allocator + Copy>(
    alloc: A,
    nodes: &mut [Node<A>],
    naming: Naming,
    files: &mut F,
) -> Result<(), FitFault>
    ensures opens { OpensImages F.Opened.steady F.map (images_among (siblings nodes.old))
        result files }
    ensures opened { OpensNamed F.map (summed_files (images_among (siblings nodes.old)))
        result files }
    ensures filled { OfHonest F.map files (λ there.
        FillsBelow naming there (siblings nodes.old) (siblings nodes.new) result) }
    ensures order { AnswersInOrder naming F.Opened.steady F.map (images_among (siblings nodes.old))
        result files }
    ensures rest { OnOk result (zeroed_below naming (siblings nodes.new)
        ≡ zeroed_below naming (in_first (codes "images") (each (filled_over naming no_files))
        (siblings nodes.old))) }
{
    let at = before_images(nodes);
    if at >= nodes.len() {
        return Err(FitFault::NoImages);
    }
    fill_parent(alloc, &mut nodes[at], naming, files)
}

/// Fills a tree before it is built (Flattened Image Tree format, "Hash nodes"). Sets the root's
/// `timestamp` to `time`, in seconds since 1970. Removes `data-offset`, `data-size` and
/// `data-position` of each image. Sets the `value` of each hash node to the digest of the image's
/// first `data`. An existing property is replaced in its place, a new one is appended.
///
/// Only properties named `data` may be files. An image's file is opened once if the image has hash
/// nodes, and read once for all of them through a window of 8192 bytes; it stays a file in the
/// tree. Over any files, only this is changed in the tree. Over honest files of the kept sizes its
/// hashes are what `verify` expects.
///
/// Returns the first fault and drops the tree: `NoImages`, then for each image one of the others.
/// - `NoImages`: the root has no child `images`.
/// - `NoData`: an image has no `data`.
/// - `UnknownAlgo`: the `algo` of a hash node is missing or unknown.
/// - `NoFile`: if and only if the open of an image's file was refused; never if the files are
///   complete and of the kept sizes.
/// - `ReadFailed`: a read of an image's file failed, or its size differs from the one that the tree
///   keeps; never over files of the kept sizes that are honest and never fail.
/// - `OutOfMemory`: memory for a property was refused.
///
/// Over honest files of any sizes, any other fault of an image than `OutOfMemory` means that no
/// image before it has one. At `Ok` the file of each image with hash nodes has the size that the
/// tree keeps.
pub fn fill<F: Files, A: Allocator + Copy>(
    alloc: A,
    tree: Tree<A>,
    time: u32,
    files: &mut F,
) -> Result<Tree<A>, FitFault>
    requires { FilesAtData (node_of tree.root) }
    // The files are unchanged, and `NoFile` is returned exactly if they refused an open.
    ensures files { UsesFiles (opens_no_file result) (F.map files.old) (F.map files.new) }
    // Exactly the files of the images with hash nodes are opened, in order; at a fault the first ones.
    ensures opened { OpensNamed F.map (summed_files (images (node_of tree.root))) result files }
    ensures found { IfComplete F.map files (node_of tree.root) (opens_no_file result ≡ false) }
    ensures steady { IfSteady F.Opened.steady F.map files (node_of tree.root)
        (fails_to_read result ≡ false) }
    // The tree is filled, and each file stays a file; or the first fault is returned.
    ensures filled { IfKept F.map files (node_of tree.root) (λ there.
        FillsAnswer (λ filled. node_of filled.root) there time (node_of tree.root) result) }
    // In the order of images, over files of any sizes: filling passes an image with hash nodes only
    // if its file has the size that the tree keeps. It stops at the first image that it cannot
    // pass. If the files are complete, `NoFile` means that the file of that image is missing or has
    // another size, whatever the others are. If what they open is steady, `ReadFailed` means the
    // same.
    ensures order { AnswersInOrder Profile F.Opened.steady F.map (images (node_of tree.root))
        result files }
    // Over any files, except for the bytes of its digests: the tree is the source's, filled.
    ensures rest { IfOk result (λ filled. zeroed_tree Profile (node_of filled.root)
        ≡ zeroed_tree Profile (filled_unread Profile no_files time (node_of tree.root))) }
{
    fill_by(alloc, tree, time, Naming::Profile, files)
}

/// Fills a tree as `fill` does, by the algorithms of a set of names. With `Naming::All` a hash node
/// may be of crc16-ccitt, too, whose `value` `verify` does not check.
pub fn fill_by<F: Files, A: Allocator + Copy>(
    alloc: A,
    tree: Tree<A>,
    time: u32,
    naming: Naming,
    files: &mut F,
) -> Result<Tree<A>, FitFault>
    requires { FilesAtData (node_of tree.root) }
    ensures files { UsesFiles (opens_no_file result) (F.map files.old) (F.map files.new) }
    ensures opened { OpensNamed F.map (summed_files (images (node_of tree.root))) result files }
    ensures found { IfComplete F.map files (node_of tree.root) (opens_no_file result ≡ false) }
    ensures steady { IfSteady F.Opened.steady F.map files (node_of tree.root)
        (fails_to_read result ≡ false) }
    ensures filled { IfKept F.map files (node_of tree.root) (λ there.
        FillsAnswerBy naming (λ filled. node_of filled.root) there time (node_of tree.root)
        result) }
    ensures order { AnswersInOrder naming F.Opened.steady F.map (images (node_of tree.root))
        result files }
    ensures rest { IfOk result (λ filled. zeroed_tree naming (node_of filled.root)
        ≡ zeroed_tree naming (filled_unread naming no_files time (node_of tree.root))) }
{
    let Tree { root } = tree;
    let Node {
        name,
        props,
        children,
    } = root;
    let mut nodes = children.into_vec();
    fill_below(alloc, nodes.as_mut_slice(), naming, files)?;
    let props = with_time(alloc, props, time)?;
    let children = Nodes::of(nodes);
    Ok(Tree {
        root: Node {
            name,
            props,
            children,
        },
    })
}
