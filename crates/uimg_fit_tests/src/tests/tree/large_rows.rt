//! Blobs of very many nodes.
use super::tree_rows::nodes_in;
use std::alloc::{AllocError, Global};
use std::test::Fail;
use uimg_base::{MemSource, Room, Source};
use uimg_blob_reading::index;
use uimg_blob_reading::samples::Sample;

// Returns `levels` nodes with empty names, one inside the other.
fn nested(alloc: Global, levels: u32) -> Result<Vec<u8>, AllocError> {
    let mut sample = Sample::new(alloc);
    for _ in 0..levels {
        sample.begin(b"")?;
    }
    for _ in 0..levels {
        sample.end_node()?;
    }
    sample.finish(alloc, b"")
}

fn row(alloc: Global, count: u32) -> Result<Vec<u8>, AllocError> {
    let mut sample = Sample::new(alloc);
    sample.begin(b"")?;
    for _ in 0..count {
        sample.begin(b"n")?;
        sample.end_node()?;
    }
    sample.end_node()?;
    sample.finish(alloc, b"")
}

// Any depth is indexed.
#[test]
fn ten_thousand_deep(rt: HostRuntime) -> Result<(), Fail> {
    let bytes = nested(rt.alloc(), 10000)?;
    assert_eq!(rt; bytes.len(), 120060);
    let mut room = Room::new(rt.alloc());
    let mut source = MemSource::new(&bytes);
    assert!(rt; index(&mut source, &mut room).is_ok());
    assert_eq!(rt; room.held(), 1288192);
    assert!(rt; source.asked() <= 44 + 264 * 10000);
    Ok(())
}

// Returns how many nodes, from the root's first child on, have the node after them as next sibling.
// The root and the last node have none.
fn siblings(alloc: Global, bytes: &[u8]) -> usize {
    let mut room = Room::new(alloc);
    let found = index(&mut MemSource::new(bytes), &mut room);
    let count = room.count();
    let Ok(blob) = found else {
        return 0;
    };
    if count == 0
        || blob.first_child(&room, 0) != Some(1)
        || blob.next_sibling(&room, 0).is_some()
    {
        return 0;
    }
    for node in 1..count {
        match blob.next_sibling(&room, node) {
            Some(next) if next == node + 1 => {}
            Some(_) => return 0,
            None => return node,
        }
    }
    0
}

// Each child of the root is the next sibling of the one before it.
#[test]
fn many_siblings(rt: HostRuntime) -> Result<(), Fail> {
    let bytes = row(rt.alloc(), 10000)?;
    assert_eq!(rt; siblings(rt.alloc(), &bytes), 10000);
    assert_eq!(rt; nodes_in(rt.alloc(), &bytes), 10001);
    Ok(())
}
