//! The blobs of trees that sources spell, compared with bytes from elsewhere.
use super::made::made;
use super::sources::{NAMED, blob_of, tree_of};
use std::alloc::Global;
use std::test::Fail;
use uimg_base::{MemSource, Room};
use uimg_blob_reading::index;
use uimg_blob_writing::{Tree, copy_node};

// A source, the size of its blob, the number of nodes, and how it ends: the name of a blob, or
// hexadecimal digits. Names are in the strings block once, in the order of first use.
const ROWS: [(&str, usize, usize, &str); 4] = [
    ("mixed-values", 112, 1, "mixed"),
    (
        "/dts-v1/; / { };",
        72,
        1,
        "hex:00000001000000000000000200000009",
    ),
    (
        "family",
        192,
        3,
        "hex:000000016b65726e656c2d31000000000000000300000007000000006b65726e656c0000000000030000000300000005616263000000000200000001666474000000000300000005000000050102030405000000000000030000000800000000666c61745f647400000000020000000200000009747970650064617461000000",
    ),
    ("four-hash-fit", 608, 9, "plain"),
];

pub(super) fn nodes_in(alloc: Global, blob: &[u8]) -> usize {
    let mut room = Room::new(alloc);
    match index(&mut MemSource::new(blob), &mut room) {
        Ok(_) => room.count(),
        Err(_) => 0,
    }
}

// Checks the size of a tree's blob, its number of nodes, and how it ends.
fn is_blob(alloc: Global, blob: Option<Vec<u8>>, length: usize, nodes: usize, end: &[u8]) -> bool {
    match blob {
        Some(blob) => {
            blob.len() == length && blob.ends_with(end) && nodes_in(alloc, &blob) == nodes
        }
        None => false,
    }
}

fn blob_of_source(alloc: Global, text: &str) -> Option<Vec<u8>> {
    let tree = tree_of(alloc, text)?;
    blob_of(alloc, &tree, &NAMED)
}

fn copied(alloc: Global, tree: &Tree<Global>) -> Option<Tree<Global>> {
    match copy_node(alloc, &tree.root) {
        Ok(root) => Some(Tree { root }),
        Err(_) => None,
    }
}

fn blob_of_copy(alloc: Global, text: &str) -> Option<Vec<u8>> {
    match tree_of(alloc, text) {
        Some(tree) => blob_of(alloc, &copied(alloc, &tree)?, &NAMED),
        None => None,
    }
}

// A copy of a tree has the same blob.
#[test]
fn blob_rows(rt: HostRuntime) -> Result<(), Fail> {
    let alloc = rt.alloc();
    for (text, length, nodes, end) in &ROWS {
        let end = made(alloc, end)?;
        let blob = blob_of_source(alloc, text);
        assert!(rt; is_blob(alloc, blob, *length, *nodes, &end), "{text}");
        let blob = blob_of_copy(alloc, text);
        assert!(rt;
            is_blob(alloc, blob, *length, *nodes, &end),
            "a copy of {text}"
        );
    }
    Ok(())
}
