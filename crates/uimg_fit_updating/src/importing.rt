//! Payloads after the blob, taken into the tree.

ghost use Rattle.std.specs.Prelude.{◌≡◌, ◌≤◌, codes, length, not, OnOk, IfOk};
ghost use Rattle.std.specs.{List.prefix_len, Str.bytes_eq};
ghost use Rattle.uimg_base.specs.{Device.SameDevice, Honest.HonestSource};
ghost use Rattle.uimg_fit_base.specs.Files as files;
ghost use Rattle.uimg_blob_reading.specs.Plain.{AllValues};
ghost use Rattle.uimg_blob_writing.specs.{Content.IsBytes, Trees.{siblings, node_of}};
ghost use Rattle.uimg_fit_building.specs.{Behind.entry, Filling.{each, in_first, with_images}};
ghost use Rattle.uimg_blob_writing.specs.Properties.{property};
ghost use Rattle.uimg_fit_updating.specs.Importing.{cell_in, payload_after, replaced_name, replaced, IsReplacedAt, imported};

use crate::fault::UpdateFault;
use crate::reading::read_span;
use std::alloc::{Allocator, Global};
use std::mem;
use uimg_base::{Room, Source, Span, be32_at, up4};
use uimg_blob_writing::{Node, Nodes, Prop, Props, Tree, Value, copy_bytes};
use uimg_fit_base::{Fault, FitFault};
use uimg_fit_building::{first_value, is_images};

// Returns `None` unless the value has 4 bytes.
fn number(bytes: &[u8]) -> Option<u32>
    ensures { result ≡ files.number bytes.now }
{
    if bytes.len() == 4 {
        Some(be32_at(bytes, 0))
    } else {
        None
    }
}

fn cell(props: &Props<Global>, key: &[u8]) -> Option<u32>
    ensures { result ≡ cell_in props.now key.now }
{
    match first_value(props, key) {
        Some(Value::Bytes(bytes)) => number(bytes.items()),
        Some(Value::File { name: _, size: _ }) => None,
        None => None,
    }
}

fn payload_after(props: &Props<Global>, totalsize: u32) -> Option<Span>
    ensures { result ≡ payload_after totalsize props.now }
{
    let offset = cell(props, b"data-offset")?;
    let length = cell(props, b"data-size")?;
    Some(Span {
        place: up4(totalsize as u64) + offset as u64,
        length: length as u64,
    })
}

// Returns the name of the property that a payload replaces: `data`, or else `data-offset`.
fn replaced_name(props: &Props<Global>) -> &'static [u8]
    ensures { result.now ≡ replaced_name props.now }
{
    match first_value(props, b"data") {
        Some(_) => b"data",
        None => b"data-offset",
    }
}

// Returns the index of the first property of a name, or the number of properties if none has it.
#[tactic(auto, unfolding(crate::specs::Importing::replaced))]
fn place_of(props: &[Prop<Global>], key: &[u8]) -> usize
    ensures within { result ≤ length props.now }
    ensures set { IsReplacedAt key.now props.now result }
{
    for (i, prop) in props.iter().enumerate() {
        if key == prop.name.items() {
            return i;
        }
    }
    props.len()
}

// Returns properties with another in place of the first of a name, or with one more.
fn replaced(
    props: Props<Global>,
    key: &[u8],
    prop: Prop<Global>,
) -> Result<Props<Global>, UpdateFault>
    ensures { IfOk result (λ own. own ≡ replaced key.now (property prop) props) }
{
    let mut list = props.into_vec();
    let at = place_of(list.as_slice(), key);
    if at < list.len() {
        list[at] = prop;
        return Ok(Props::of(list));
    }
    match list.push(prop) {
        Ok(()) => Ok(Props::of(list)),
        Err(_) => Err(UpdateFault::OutOfMemory),
    }
}

// Takes the payload of an image into its node. Of all payloads at most `left` bytes are taken.
// Returns how many are left.
fn import_image<S: Source, A: Allocator>(
    alloc: Global,
    source: &mut S,
    room: &mut Room<A>,
    totalsize: u32,
    left: u64,
    image: &mut Node<Global>,
) -> Result<u64, UpdateFault>
    ensures same { SameDevice (S.device source.old) (S.device source.new) }
    ensures in_memory { OnOk result (AllValues IsBytes (node_of image.old) → AllValues IsBytes (node_of image.new)) }
    ensures told { HonestSource S.device source → OnOk result (
        entry image.new ≡ imported (S.device source.old).bytes totalsize (entry image.old)) }
{
    let Some(span) = payload_after(&image.props, totalsize) else {
        return Ok(left);
    };
    let size = source.size()?;
    if size < span.place || size - span.place < span.length {
        return Err(UpdateFault::Fit(Fault::Fit(FitFault::DataOutside)));
    }
    if left < span.length {
        return Err(UpdateFault::Fit(Fault::Fit(FitFault::TooLarge)));
    }
    let payload = Prop {
        name: copy_bytes(alloc, b"data")?,
        value: Value::Bytes(read_span(alloc, source, room, span)?),
    };
    let key = replaced_name(&image.props);
    let props = mem::replace(&mut image.props, Props::of(Vec::new(alloc)));
    image.props = replaced(props, key, payload)?;
    Ok(left - span.length)
}

fn import_images<S: Source, A: Allocator>(
    alloc: Global,
    source: &mut S,
    room: &mut Room<A>,
    totalsize: u32,
    images: &mut [Node<Global>],
) -> Result<(), UpdateFault>
    ensures same { SameDevice (S.device source.old) (S.device source.new) }
    ensures in_memory { OnOk result (AllValues IsBytes (siblings images.old) → AllValues IsBytes (siblings images.new)) }
    ensures told { HonestSource S.device source → OnOk result (siblings images.new
        ≡ each (imported (S.device source.old).bytes totalsize) (siblings images.old)) }
{
    let mut left = source.size()?;
    for image in images.iter_mut() {
        left = import_image(alloc, source, room, totalsize, left, image)?;
    }
    Ok(())
}

fn import_parent<S: Source, A: Allocator>(
    alloc: Global,
    source: &mut S,
    room: &mut Room<A>,
    totalsize: u32,
    parent: &mut Node<Global>,
) -> Result<(), UpdateFault>
    ensures same { SameDevice (S.device source.old) (S.device source.new) }
    ensures in_memory { OnOk result (AllValues IsBytes (node_of parent.old) → AllValues IsBytes (node_of parent.new)) }
    ensures told { HonestSource S.device source → OnOk result (parent.new
        ≡ record parent.old {
          children = each
              (imported (S.device source.old).bytes totalsize) parent.old.children;
        }) }
{
    let nodes = mem::replace(&mut parent.children, Nodes::of(Vec::new(alloc)));
    let mut images = nodes.into_vec();
    let answer = import_images(alloc, source, room, totalsize, images.as_mut_slice());
    parent.children = Nodes::of(images);
    answer
}

// Counts the nodes before the first that is named `images`.
fn before_images(nodes: &[Node<Global>]) -> usize
    ensures { result ≡ prefix_len (λ n. not (bytes_eq (codes "images") n.name)) nodes.now }
{
    nodes.iter().take_while(|node| !is_images(node)).count()
}

fn import_below<S: Source, A: Allocator>(
    alloc: Global,
    source: &mut S,
    room: &mut Room<A>,
    totalsize: u32,
    nodes: &mut [Node<Global>],
) -> Result<(), UpdateFault>
    ensures same { SameDevice (S.device source.old) (S.device source.new) }
    ensures in_memory { OnOk result (AllValues IsBytes (siblings nodes.old) → AllValues IsBytes (siblings nodes.new)) }
    ensures told { HonestSource S.device source → OnOk result (siblings nodes.new
        ≡ in_first (codes "images") (each (imported (S.device source.old).bytes totalsize))
        (siblings nodes.old)) }
{
    let at = before_images(nodes);
    if at >= nodes.len() {
        return Err(UpdateFault::Fit(Fault::Fit(FitFault::NoImages)));
    }
    import_parent(alloc, source, room, totalsize, &mut nodes[at])
}

/// Takes the payloads that are after a blob of a size into the tree. An image with `data-offset`
/// and `data-size` gets the bytes there as its `data`, in place of its first `data`, or of its
/// `data-offset`. The offset counts from the blob's end, rounded up to a multiple of 4 (Flattened
/// Image Tree format, "External data").
///
/// - `NoImages`: the root has no child `images`.
/// - `DataOutside`: a payload ends after the file.
/// - `TooLarge`: all payloads together have more bytes than the file.
pub(crate) fn import<S: Source, A: Allocator>(
    alloc: Global,
    source: &mut S,
    room: &mut Room<A>,
    totalsize: u32,
    tree: Tree<Global>,
) -> Result<Tree<Global>, UpdateFault>
    ensures same { SameDevice (S.device source.old) (S.device source.new) }
    ensures in_memory { IfOk result (λ taken.
        AllValues IsBytes (node_of tree.root) → AllValues IsBytes (node_of taken.root)) }
    ensures told { HonestSource S.device source → IfOk result (λ taken. node_of taken.root
        ≡ with_images (each (imported (S.device source.old).bytes totalsize)) (node_of tree.root)) }
{
    let Tree { root } = tree;
    let Node {
        name,
        props,
        children,
    } = root;
    let mut nodes = children.into_vec();
    import_below(alloc, source, room, totalsize, nodes.as_mut_slice())?;
    let children = Nodes::of(nodes);
    Ok(Tree {
        root: Node {
            name,
            props,
            children,
        },
    })
}
