//! Results of `measure`: bad names, sizes, and refused memory.
ghost use Rattle.std.specs.Prelude.{◌<◌};

use super::super::answers::is_said;
use super::bytes::plain;
use super::sources::{NAMED, WORDS, blob_ending, blob_of, tree_of};
use super::trees::{node, prop, root_in_file};
use linked_list_allocator::LocalHeap;
use std::alloc::{AllocError, Global};
use std::test::Fail;
use uimg_blob_reading::BlobFault;
use uimg_blob_writing::{
    BlobEnd, ByteList, Node, Nodes, Prop, Props, Tree, Value, measure, measure_with,
};

fn measured(alloc: Global, tree: &Tree<Global>) -> Result<String, AllocError> {
    measured_by(alloc, tree, WORDS.align)
}

fn measured_by(alloc: Global, tree: &Tree<Global>, align: u32) -> Result<String, AllocError> {
    let ending = BlobEnd { align, least: 0 };
    match measure_with(alloc, tree, ending, &[]) {
        Ok(layout) => {
            let size = layout.totalsize();
            format!(in alloc; "{size}")
        }
        Err(fault) => format!(in alloc; "{fault}"),
    }
}

fn leaf(alloc: Global, name: &str, property: &str) -> Result<Node<Global>, AllocError> {
    let name = plain(alloc, name)?;
    let property = plain(alloc, property)?;
    node(alloc, &name, prop(alloc, &property, b"")?, Vec::new(alloc))
}

fn parent(
    alloc: Global,
    root: &str,
    own: &str,
    first: Node<Global>,
    second: Node<Global>,
) -> Result<Tree<Global>, AllocError> {
    let mut children = Vec::new(alloc);
    children.push(first)?;
    children.push(second)?;
    let name = plain(alloc, root)?;
    let property = plain(alloc, own)?;
    let root = node(alloc, &name, prop(alloc, &property, b"")?, children)?;
    Ok(Tree { root })
}

// The names of the root, its property, its first child, the property of that, and its second child,
// with `~` for 255 letters and `;` for a NUL; and the result: the first bad name counts.
const NAME_ROWS: [(&str, &str, &str, &str, &str, &str); 11] = [
    ("~", "~", "~", "~", "~", "1148"),
    ("~n", "p", "c", "p", "d", "B7 bad node name"),
    ("", "~n", "c", "p", "d", "B9 bad property name"),
    ("", "p", "~n", "p", "d", "B7 bad node name"),
    ("a;", "p", "c", "p", "d", "B7 bad node name"),
    ("", ";p", "c", "p", "d", "B9 bad property name"),
    ("", "p", "c;d", "p", "d", "B7 bad node name"),
    ("~n", "~n", "c", "p", "d", "B7 bad node name"),
    ("", "p;", "~n", "p", "d", "B9 bad property name"),
    ("", "p", "first", "bad;", "second;", "B9 bad property name"),
    ("", "p", "first", "p", "second;", "B7 bad node name"),
];

fn measured_names(
    alloc: Global,
    root: &str,
    own: &str,
    first: &str,
    property: &str,
    second: &str,
) -> Result<String, AllocError> {
    let one = leaf(alloc, first, property)?;
    let other = leaf(alloc, second, "q")?;
    let tree = parent(alloc, root, own, one, other)?;
    measured(alloc, &tree)
}

#[test]
fn name_rows(rt: HostRuntime) {
    for (number, row) in NAME_ROWS.iter().enumerate() {
        let (root, own, first, property, second, wanted) = *row;
        let answer = measured_names(rt.alloc(), root, own, first, property, second);
        is_said(&rt, answer, wanted, root, number as u64);
    }
}

// The name of a property, the size of the file with its value, and the result. The greatest blob
// has 4294967292 bytes: 92 around the value. A bad name comes before a blob that is too large.
const SIZE_ROWS: [(&str, u64, &str); 8] = [
    ("data", 4_294_967_196, "4294967288"),
    ("data", 4_294_967_197, "4294967292"),
    ("data", 4_294_967_200, "4294967292"),
    ("data", 4_294_967_201, "B10 too large"),
    ("data", 4_294_967_296, "B10 too large"),
    ("data", 0xffff_ffff_ffff_fffc, "B10 too large"),
    ("data", 0xffff_ffff_ffff_ffff, "B10 too large"),
    ("d;", 0xffff_ffff_ffff_ffff, "B9 bad property name"),
];

// Measures a root with a property of this name in a file of this size.
fn measured_file(alloc: Global, name: &str, size: u64) -> Result<String, AllocError> {
    let name = plain(alloc, name)?;
    let tree = root_in_file(alloc, &name, size)?;
    measured(alloc, &tree)
}

#[test]
fn size_rows(rt: HostRuntime) {
    for (name, size, wanted) in &SIZE_ROWS {
        let answer = measured_file(rt.alloc(), name, *size);
        is_said(&rt, answer, wanted, name, *size);
    }
}

// The size of a file, an alignment, and the result for a root with that file: the blob's end is
// rounded up as by mkimage 2023.01, also for no power of two.
const ALIGN_ROWS: [(u64, u32, &str); 14] = [
    (0, 4, "92"),
    (0, 0, "92"),
    (0, 8, "96"),
    (4, 8, "96"),
    (5, 8, "104"),
    (0, 12, "100"),
    (12, 12, "112"),
    (0, 20, "108"),
    (0, 512, "512"),
    (421, 512, "1024"),
    (4294963108, 4096, "4294963200"),
    (4294963109, 4096, "B10 too large"),
    (0, 0x8000_0000, "2147483648"),
    (0, 0xffff_fffc, "B10 too large"),
];

// An alignment, a least size, and the size of the blob of `family`, which has 192 bytes otherwise.
const END_ROWS: [(u32, u32, usize); 9] = [
    (8, 0, 192),
    (128, 0, 256),
    (4096, 0, 4096),
    (20000, 0, 192),
    (4, 192, 192),
    (4, 193, 193),
    (4, 1216, 1216),
    (128, 255, 256),
    (128, 257, 257),
];

// Measures a root with a file of this size, for an alignment.
fn measured_root(alloc: Global, size: u64, align: u32) -> Result<String, AllocError> {
    let tree = root_in_file(alloc, b"data", size)?;
    measured_by(alloc, &tree, align)
}

#[test]
fn align_rows(rt: HostRuntime) -> Result<(), Fail> {
    let alloc = rt.alloc();
    for (size, align, wanted) in &ALIGN_ROWS {
        let answer = measured_root(alloc, *size, *align)?;
        assert_eq!(rt; answer.as_str(), *wanted, "{size} bytes by {align}");
    }
    Ok(())
}

// With another end a blob is the same except for its totalsize; zeros follow its strings block. A
// least size that it has anyway changes nothing.
#[test]
fn other_ends(rt: HostRuntime) -> Result<(), Fail> {
    let alloc = rt.alloc();
    let Some(tree) = tree_of(alloc, "family") else {
        panic!(rt; "the source is refused");
    };
    let Some(plain) = blob_of(alloc, &tree, &NAMED) else {
        panic!(rt; "the blob is not written");
    };
    for (align, least, size) in &END_ROWS {
        let ending = BlobEnd {
            align: *align,
            least: *least,
        };
        let Some(blob) = blob_ending(alloc, &tree, ending, &NAMED) else {
            panic!(rt; "the blob is not written by {align} and {least}");
        };
        assert_eq!(rt; blob.len(), *size, "by {align} and {least}");
        assert_eq!(rt;
            blob.get(4..8),
            Some((*size as u32).to_be_bytes().as_slice())
        );
        assert_eq!(rt; blob.get(8..plain.len()), plain.get(8..));
        assert!(rt; blob.iter().skip(plain.len()).all(|byte| *byte == 0));
    }
    Ok(())
}

// A source and the size of its tree's blob: a root of 16 bytes with its end, nodes of 20 and 12
// bytes with theirs, properties of 36 and 40.
const SOURCE_ROWS: [(&str, &str); 3] = [
    ("mixed-values", "112"),
    ("family", "192"),
    ("four-hash-fit", "608"),
];

#[test]
fn source_sizes(rt: HostRuntime) {
    for (text, wanted) in &SOURCE_ROWS {
        is_said(&rt, measured_source(rt.alloc(), text), wanted, text, 0);
    }
}

fn measured_source(alloc: Global, text: &str) -> Result<String, AllocError> {
    match tree_of(alloc, text) {
        Some(tree) => measured(alloc, &tree),
        None => format!(in alloc; "refused"),
    }
}

// Returns a property of no bytes whose name is a letter.
fn lettered(alloc: &LocalHeap, letter: u8) -> Result<Prop<&LocalHeap>, AllocError> {
    let name = Vec::from_slice(alloc, &[letter])?;
    Ok(Prop {
        name: ByteList::of(name),
        value: Value::Bytes(ByteList::of(Vec::new(alloc))),
    })
}

// Returns a root with a property for each letter.
fn letters(alloc: &LocalHeap, count: u8) -> Result<Tree<&LocalHeap>, AllocError> {
    let mut props = Vec::with_capacity(alloc, count as usize)?;
    for letter in 0..count {
        props.push(lettered(alloc, b'a'.saturating_add(letter))?)?;
    }
    Ok(Tree {
        root: Node {
            name: ByteList::of(Vec::new(alloc)),
            props: Props::of(props),
            children: Nodes::of(Vec::new(alloc)),
        },
    })
}

// Measures over a heap with 16 * `taken` bytes in use. Returns the size or the fault, or `None` if
// the heap is too small.
fn measured_with<'a>(
    heap: &'a LocalHeap,
    tree: &Tree<&'a LocalHeap>,
    taken: usize,
) -> Option<Result<u32, BlobFault>>
    requires { taken < 512 }
{
    let Ok(_filler) = Vec::<u8, &LocalHeap>::with_capacity(heap, 16 * taken) else {
        return None;
    };
    match measure(heap, tree) {
        Ok(layout) => Some(Ok(layout.totalsize())),
        Err(fault) => Some(Err(fault)),
    }
}

const LETTERS_SIZE: u32 = 56 + 8 + 20 * 12 + 8 + 40;

// With less and less of the heap left, measuring is refused at each growth of the names, and never
// succeeds with less memory than was refused.
#[test]
fn each_growth_refused(rt: HostRuntime) -> Result<(), Fail> {
    let heap = LocalHeap::new(rt.alloc(), 8192)?;
    let tree = letters(&heap, 20)?;
    let mut measured = false;
    let mut refused = false;
    for taken in 0..512usize {
        let Some(answer) = measured_with(&heap, &tree, taken) else {
            break;
        };
        let is_next = answer == Err(BlobFault::OutOfMemory)
            || (answer == Ok(LETTERS_SIZE) && !refused);
        assert!(rt; is_next, "{taken} are taken");
        measured |= answer.is_ok();
        refused |= answer.is_err();
    }
    assert!(rt; measured && refused);
    Ok(())
}
