//! Trees that no source spells, and the lines of faults.
use super::super::answers::is_said;
use super::making::{built, told};
use std::alloc::{AllocError, Global};
use std::test::Fail;
use uimg_base::MemFiles;
use uimg_blob_reading::BlobFault;
use uimg_blob_writing::{ByteList, Node, Nodes, Prop, Props, Tree, Value};
use uimg_fit::{Fault, FitFault};

fn node(
    alloc: Global,
    name: &[u8],
    own: Option<Prop<Global>>,
    children: Vec<Node<Global>>,
) -> Result<Node<Global>, AllocError> {
    let mut props = Vec::new(alloc);
    if let Some(own) = own {
        props.push(own)?;
    }
    Ok(Node {
        name: ByteList::of(Vec::from_slice(alloc, name)?),
        props: Props::of(props),
        children: Nodes::of(children),
    })
}

// Returns none if the name is empty.
fn empty(alloc: Global, name: &[u8]) -> Result<Option<Prop<Global>>, AllocError> {
    if name.is_empty() {
        return Ok(None);
    }
    Ok(Some(Prop {
        name: ByteList::of(Vec::from_slice(alloc, name)?),
        value: Value::Bytes(ByteList::of(Vec::new(alloc))),
    }))
}

// Returns an image of `size` bytes in the file `abc.bin`.
fn image(alloc: Global, name: &[u8], size: u64) -> Result<Node<Global>, AllocError> {
    let file = ByteList::of(Vec::from_slice(alloc, b"abc.bin")?);
    let own = Prop {
        name: ByteList::of(Vec::from_slice(alloc, b"data")?),
        value: Value::File { name: file, size },
    };
    node(alloc, name, Some(own), Vec::new(alloc))
}

// Returns a tree of two images, with a property of this name, unless empty, in `images` and root.
fn tree(
    alloc: Global,
    name: &[u8],
    one: Node<Global>,
    other: Node<Global>,
) -> Result<Tree<Global>, AllocError> {
    let mut images = Vec::new(alloc);
    images.push(one)?;
    images.push(other)?;
    let mut children = Vec::new(alloc);
    children.push(node(alloc, b"images", empty(alloc, name)?, images)?)?;
    let root = node(alloc, b"", empty(alloc, name)?, children)?;
    Ok(Tree { root })
}

const ABC: [(&[u8], &[u8]); 1] = [(b"abc.bin", b"abc")];

// The stored sizes of two files, the placement, and the result. A file that would be too large is
// refused before its first byte; the largest allowed one is not, and its payload is then found to
// have another size.
const SIZE_ROWS: [(u64, u64, &str, &str); 14] = [
    (4294967296, 3, "inside", "F7 too large, 0"),
    (4294967296, 3, "after", "F7 too large, 0"),
    (4294967296, 3, "1024", "F7 too large, 0"),
    (3, 4294967296, "inside", "F7 too large, 0"),
    (3, 4294967296, "after", "F7 too large, 0"),
    (3, 4294967296, "1024", "F7 too large, 0"),
    (2147483648, 2147483648, "inside", "F7 too large, 0"),
    (2147483648, 2147483648, "after", "F7 too large, 0"),
    (2147483648, 2147483648, "1024", "F7 too large, 0"),
    (
        18446744073709551615,
        18446744073709551615,
        "inside",
        "F7 too large, 0",
    ),
    (
        18446744073709551615,
        18446744073709551615,
        "after",
        "F7 too large, 0",
    ),
    (
        18446744073709551615,
        18446744073709551615,
        "1024",
        "F7 too large, 0",
    ),
    (4294967092, 0, "after", "read failed, 200"),
    (4294967093, 0, "after", "F7 too large, 0"),
];

// Returns the result of building a tree, and how many bytes are written.
fn answer(alloc: Global, tree: &Tree<Global>, placement: &str) -> Result<String, AllocError> {
    let (answer, fit) = built(alloc, tree, placement, &mut MemFiles::new(&ABC));
    told(alloc, answer, fit.len())
}

// The tree has two files of these sizes.
fn answer_of_sizes(
    alloc: Global,
    first: u64,
    second: u64,
    placement: &str,
) -> Result<String, AllocError> {
    let one = image(alloc, b"a", first)?;
    let tree = tree(alloc, b"", one, image(alloc, b"b", second)?)?;
    answer(alloc, &tree, placement)
}

#[test]
fn size_rows(rt: HostRuntime) {
    for (first, second, placement, wanted) in &SIZE_ROWS {
        let found = answer_of_sizes(rt.alloc(), *first, *second, placement);
        is_said(&rt, found, wanted, placement, *first);
    }
}

// The length of an image's name, the name of a property, the placement, and the result.
const NAME_ROWS: [(usize, &str, &str, &str); 7] = [
    (256, "p", "inside", "B7 bad node name at 0, 0"),
    (256, "p", "after", "B7 bad node name at 0, 0"),
    (256, "p", "1024", "B7 bad node name at 0, 0"),
    (255, "a\0b", "inside", "B9 bad property name at 0, 0"),
    (255, "a\0b", "after", "B9 bad property name at 0, 0"),
    (255, "a\0b", "1024", "B9 bad property name at 0, 0"),
    (255, "p", "1024", "done, 1032"),
];

// The first image has a name of this length, and a property of this name.
fn answer_of_names(
    alloc: Global,
    length: usize,
    name: &str,
    placement: &str,
) -> Result<String, AllocError> {
    let long = Vec::from_elem(alloc, b'n', length)?;
    let one = image(alloc, &long, 3)?;
    let tree = tree(alloc, name.as_bytes(), one, image(alloc, b"b", 3)?)?;
    answer(alloc, &tree, placement)
}

#[test]
fn name_rows(rt: HostRuntime) {
    for (length, name, placement, wanted) in &NAME_ROWS {
        let found = answer_of_names(rt.alloc(), *length, name, placement);
        is_said(&rt, found, wanted, placement, *length as u64);
    }
}

// The lines of the faults that no other row has.
#[test]
fn faults_have_their_lines(rt: HostRuntime) -> Result<(), Fail> {
    let alloc = rt.alloc();
    for (fault, line) in [
        (FitFault::TooLarge, "F7 too large"),
        (FitFault::OutOfMemory, "F8 out of memory"),
    ] {
        let text = format!(in alloc; "{}", Fault::Fit(fault))?;
        assert_eq!(rt; text.as_str(), line);
    }
    let text = format!(in alloc; "{}", Fault::Blob(BlobFault::BadMagic, 0))?;
    assert_eq!(rt; text.as_str(), "B2 bad magic at 0");
    Ok(())
}
