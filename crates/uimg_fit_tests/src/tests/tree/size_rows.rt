//! Blobs of trees by size.
use super::bytes::unhex;
use super::refused_rows::long_text;
use super::sources::{blob_of, tree_of};
use super::tree_rows::nodes_in;
use super::trees::{chain, prop, root_in_file, root_of};
use std::alloc::{AllocError, Global};
use std::test::Fail;

// A name, a value, and the end of the blob of a root with that property: a value is padded to a
// multiple of 4, and the strings block too.
const PADDED_ROWS: [(&str, &str, &str); 5] = [
    ("abc", "", "00000000 00000000 00000002 00000009 61626300"),
    (
        "ab",
        "1",
        "00000001 00000000 31000000 00000002 00000009 61620000",
    ),
    (
        "a",
        "12",
        "00000002 00000000 31320000 00000002 00000009 61000000",
    ),
    (
        "",
        "123",
        "00000003 00000000 31323300 00000002 00000009 00000000",
    ),
    (
        "abcd",
        "1234",
        "00000004 00000000 31323334 00000002 00000009 6162636400000000",
    ),
];

fn blob_of_property(
    alloc: Global,
    name: &[u8],
    value: &[u8],
) -> Result<Option<Vec<u8>>, AllocError> {
    let tree = root_of(alloc, prop(alloc, name, value)?)?;
    Ok(blob_of(alloc, &tree, &[]))
}

// Checks that the blob of a property ends like this, at a multiple of 4.
fn is_padded(alloc: Global, name: &str, value: &str, end: &[u8]) -> bool {
    match blob_of_property(alloc, name.as_bytes(), value.as_bytes()) {
        Ok(Some(blob)) => blob.ends_with(end) && blob.len() % 4 == 0,
        _ => false,
    }
}

#[test]
fn padded_rows(rt: HostRuntime) -> Result<(), Fail> {
    for (name, value, end) in &PADDED_ROWS {
        let end = unhex(rt.alloc(), end)?;
        assert!(rt;
            is_padded(rt.alloc(), name, value, &end),
            "{name} = {value}"
        );
    }
    Ok(())
}

// Returns the blob of a root with a property in memory whose name and value have these lengths.
fn blob_in_memory(alloc: Global, name: usize, value: usize) -> Result<Option<Vec<u8>>, AllocError> {
    let name = Vec::from_elem(alloc, b'n', name)?;
    let value = Vec::from_elem(alloc, 0x5au8, value)?;
    blob_of_property(alloc, &name, &value)
}

// Returns the same with the value in a file.
fn blob_in_file(alloc: Global, name: usize, value: usize) -> Result<Option<Vec<u8>>, AllocError> {
    let name = Vec::from_elem(alloc, b'n', name)?;
    let value = Vec::from_elem(alloc, 0x5au8, value)?;
    let tree = root_in_file(alloc, &name, value.len() as u64)?;
    let named: [(&[u8], &[u8]); 1] = [(b"f", &value)];
    Ok(blob_of(alloc, &tree, &named))
}

// The lengths of a name and a value, and the size of the blob of a root with that property. Some
// are longer than what is gathered for one write, some are below, at and above the window's size.
const LENGTH_ROWS: [(usize, usize, usize); 10] = [
    (1, 243, 332),
    (1, 244, 332),
    (1, 245, 336),
    (1, 1000, 1088),
    (255, 0, 340),
    (4, 0, 92),
    (4, 1, 96),
    (4, 8191, 8284),
    (4, 8192, 8284),
    (4, 8193, 8288),
];

// Returns the size of such a blob of one node, the same from memory and file; 0 for any other.
fn length_of(alloc: Global, name: usize, value: usize) -> usize {
    let one = blob_in_memory(alloc, name, value);
    let other = blob_in_file(alloc, name, value);
    match (one, other) {
        (Ok(Some(one)), Ok(Some(other))) => {
            if one.as_slice() == other.as_slice() && nodes_in(alloc, &one) == 1 {
                one.len()
            } else {
                0
            }
        }
        _ => 0,
    }
}

#[test]
fn length_rows(rt: HostRuntime) {
    for (name, value, length) in &LENGTH_ROWS {
        let found = length_of(rt.alloc(), *name, *value);
        assert_eq!(rt; found, *length, "{name}, {value}");
    }
}

fn nodes_of_levels(alloc: Global, levels: u64) -> Result<u64, AllocError> {
    let tree = chain(alloc, levels)?;
    let blob = blob_of(alloc, &tree, &[]).unwrap_or(Vec::new(alloc));
    Ok(nodes_in(alloc, &blob) as u64)
}

#[test]
fn deep_trees(rt: HostRuntime) -> Result<(), Fail> {
    for levels in [63, 64, 1000u64] {
        assert_eq!(rt; nodes_of_levels(rt.alloc(), levels)?, levels + 1);
    }
    Ok(())
}

// Returns the size of the blob of a source's tree, if it has one node; 0 otherwise.
fn length_of_source(alloc: Global, text: &str) -> usize {
    let Some(tree) = tree_of(alloc, text) else {
        return 0;
    };
    match blob_of(alloc, &tree, &[]) {
        Some(blob) if nodes_in(alloc, &blob) == 1 => blob.len(),
        _ => 0,
    }
}

const EIGHT: &str = " a = [76616c7565]; b = [76616c7565]; c = [76616c7565]; d = [76616c7565]; \
e = [76616c7565]; f = [76616c7565]; g = [76616c7565]; h = [76616c7565];";

// Many properties with few names.
#[test]
fn many_properties(rt: HostRuntime) -> Result<(), Fail> {
    let text = long_text(rt.alloc(), "/dts-v1/; / {", 1000, EIGHT, "", " };")?;
    assert_eq!(rt; length_of_source(rt.alloc(), text.as_str()), 160_088);
    Ok(())
}
