//! The calls of `uimg_blob`.

use super::samples::FILES;
use std::alloc::{AllocError, Global};
use std::test::Fail;
use uimg_base::{MemFiles, MemSource, Out, Room, Span};
use uimg_blob::samples::Sample;
use uimg_blob::{BlobFault, ByteList, IndexFault, Key, Node, Prop, Tree, TreeFault, Value};
use uimg_surface::blob::{
    bytes_from, bytes_in, bytes_of, configurations, first_child, images, index, layout_size,
    measure, name, next_sibling, nodes_from, nodes_in, nodes_of, props_from, props_in, props_of,
    put_text, short_text, totalsize, value, write_tree,
};

// Blobs.

// The keys up to `Loadables`, each by its property.
const KEYS: [(&str, Key); 19] = [
    ("description", Key::Description),
    ("timestamp", Key::Timestamp),
    ("data", Key::Data),
    ("type", Key::Kind),
    ("arch", Key::Arch),
    ("os", Key::Os),
    ("compression", Key::Compression),
    ("load", Key::Load),
    ("entry", Key::Entry),
    ("data-size", Key::DataSize),
    ("data-offset", Key::DataOffset),
    ("data-position", Key::DataPosition),
    ("algo", Key::Algo),
    ("value", Key::Value),
    ("default", Key::Default),
    ("kernel", Key::Kernel),
    ("ramdisk", Key::Ramdisk),
    ("fdt", Key::Fdt),
    ("loadables", Key::Loadables),
];

// Returns a blob with an image of three bytes, and no configuration.
fn blob_of(alloc: Global) -> Result<Vec<u8>, AllocError> {
    let mut sample: Sample<Global> = Sample::new(alloc);
    sample.begin(b"")?;
    sample.begin(b"images")?;
    sample.begin(b"kernel")?;
    sample.prop(0, b"abc")?;
    sample.nop()?;
    sample.word(4)?;
    sample.end_node()?;
    sample.end_node()?;
    sample.begin(b"configurations")?;
    sample.end_node()?;
    sample.end_node()?;
    sample.finish(alloc, b"data\0")
}

#[test]
fn blobs(rt: HostRuntime) -> Result<(), Fail> {
    let bytes = blob_of(rt.alloc())?;
    let mut source = MemSource::new(&bytes);
    let mut room = Room::new(rt.alloc());
    let Ok(blob) = index(&mut source, &mut room) else {
        panic!(rt; "no blob");
    };
    assert_eq!(rt; totalsize(&blob) as usize, bytes.len());
    assert_eq!(rt; room.count(), 4);
    assert_eq!(rt; images(&blob), Some(1));
    assert_eq!(rt; configurations(&blob), Some(3));
    assert_eq!(rt; first_child(&blob, &room, 1), Some(2));
    assert_eq!(rt; next_sibling(&blob, &room, 1), Some(3));
    assert_eq!(rt; name(&blob, &room, 2).length, 6);
    for (property, key) in &KEYS {
        let found = value(&blob, &room, 2, *key).is_some();
        assert!(rt; found == (*property == "data"), "{property}");
    }
    Ok(())
}

#[test]
fn texts_of_values(rt: HostRuntime) {
    let mut source = MemSource::new(b"0abc\0d");
    let span = Span {
        place: 1,
        length: 5,
    };
    let mut out = Out::new(Vec::new(rt.alloc()));
    let put = put_text(&mut source, &mut Room::new(rt.alloc()), span, &mut out);
    assert_eq!(rt; put, Ok(()));
    assert!(rt; out.into_inner().as_slice() == b"abc".as_slice());
    let mut to = [0; 32];
    assert_eq!(rt; short_text(&mut source, span, &mut to), Ok(Some(3)));
    assert!(rt; &to[..3] == b"abc".as_slice());
}

// Trees.

fn list_of(alloc: Global, bytes: &[u8]) -> Result<ByteList<Global>, AllocError> {
    Ok(bytes_of(Vec::from_slice(alloc, bytes)?))
}

// Returns a root with a property of three bytes, and one that is a file of three bytes.
fn tree_of(alloc: Global) -> Result<Tree<Global>, AllocError> {
    let mut props = Vec::new(alloc);
    props.push(Prop {
        name: list_of(alloc, b"bytes")?,
        value: Value::Bytes(list_of(alloc, b"abc")?),
    })?;
    let size: u64 = 3;
    props.push(Prop {
        name: list_of(alloc, b"file")?,
        value: Value::File {
            name: list_of(alloc, b"abc.bin")?,
            size,
        },
    })?;
    let root = Node {
        name: list_of(alloc, b"")?,
        props: props_of(props),
        children: nodes_of(Vec::new(alloc)),
    };
    Ok(Tree { root })
}

#[test]
fn trees(rt: HostRuntime) -> Result<(), Fail> {
    let tree = tree_of(rt.alloc())?;
    let Ok(layout) = measure(rt.alloc(), &tree) else {
        panic!(rt; "no layout");
    };
    let mut out = Out::new(Vec::new(rt.alloc()));
    let end = write_tree(&tree, &layout, &mut MemFiles::new(&FILES), &mut out);
    assert_eq!(rt; end, Ok(()));
    assert_eq!(rt; out.into_inner().len(), layout_size(&layout) as usize);
    Ok(())
}

#[test]
fn lists(rt: HostRuntime) -> Result<(), Fail> {
    let Tree { root } = tree_of(rt.alloc())?;
    let Node {
        name: list,
        props,
        children,
    } = root;
    let bytes: &[u8] = bytes_in(&list);
    assert!(rt; bytes.is_empty());
    let bytes: Vec<u8, Global> = bytes_from(list);
    assert!(rt; bytes.is_empty());
    let items: &[Prop<Global>] = props_in(&props);
    assert_eq!(rt; items.len(), 2);
    let items: Vec<Prop<Global>, Global> = props_from(props);
    assert_eq!(rt; items.len(), 2);
    let nodes: &[Node<Global>] = nodes_in(&children);
    assert!(rt; nodes.is_empty());
    let nodes: Vec<Node<Global>, Global> = nodes_from(children);
    assert!(rt; nodes.is_empty());
    Ok(())
}

pub(super) fn number(fault: BlobFault) -> u8 {
    match fault {
        BlobFault::TooShort => 1,
        BlobFault::BadMagic => 2,
        BlobFault::BadVersion => 3,
        BlobFault::BlockOutside => 4,
        BlobFault::BadToken => 5,
        BlobFault::Truncated => 6,
        BlobFault::BadNodeName => 7,
        BlobFault::BadNesting => 8,
        BlobFault::BadPropertyName => 9,
        BlobFault::TooLarge => 10,
        BlobFault::OutOfMemory => 11,
    }
}

// Returns the number of a blob's fault and its offset, or nothing after a failed read.
fn number_of(fault: IndexFault) -> Option<(u8, u64)> {
    match fault {
        IndexFault::Blob(fault, offset) => Some((number(fault), offset)),
        IndexFault::Read => None,
    }
}

fn letter(fault: TreeFault) -> char {
    match fault {
        TreeFault::Put => 'p',
        TreeFault::Read => 'r',
        TreeFault::NoFile => 'n',
    }
}

#[test]
fn faults(rt: HostRuntime) -> Result<(), Fail> {
    let found = match index(&mut MemSource::new(b"abc"), &mut Room::new(rt.alloc())) {
        Ok(_) => None,
        Err(fault) => number_of(fault),
    };
    assert_eq!(rt; found, Some((1, 0)));
    let tree = tree_of(rt.alloc())?;
    let Ok(layout) = measure(rt.alloc(), &tree) else {
        panic!(rt; "no layout");
    };
    let mut out = Out::new(Vec::new(rt.alloc()));
    let stopped = match write_tree(&tree, &layout, &mut MemFiles::new(&[]), &mut out) {
        Ok(()) => 'o',
        Err(fault) => letter(fault),
    };
    assert_eq!(rt; stopped, 'n');
    Ok(())
}
