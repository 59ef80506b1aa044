//! Messages of signatures, and why there is none.

use super::signed::{HASHED_STRINGS, SIGNATURES, SIGNED};
use super::trees::{BARE, TREES, UNNAMED};
use std::alloc::{AllocError, Global};
use uimg_base::{MemSource, Room};
use uimg_blob_reading::{Blob, Key, index};
use uimg_signing::{
    RsaAlgo, RsaPadding, SigningFault, feed_message, is_reached, list_nodes, read_rsa_algo,
    read_rsa_padding, strings_size,
};
use uimg_sums::{Algo, Sha256Sum, Summer};

// Returns the number of a configuration by its place among the configurations.
fn configuration_at(blob: &Blob, room: &Room<Global>, place: usize) -> Option<usize> {
    let mut found = blob.first_child(room, blob.configurations()?)?;
    for _ in 0..place {
        found = blob.next_sibling(room, found)?;
    }
    Some(found)
}

// Returns the offsets of the nodes that the signature of a configuration covers.
fn marks_of(alloc: Global, file: &[u8], place: usize) -> Result<Vec<u64>, SigningFault> {
    let mut source = MemSource::new(file);
    let mut room = Room::new(alloc);
    let Ok(blob) = index(&mut source, &mut room) else {
        return Err(SigningFault::Changed);
    };
    let Some(configuration) = configuration_at(&blob, &room, place) else {
        return Err(SigningFault::Changed);
    };
    list_nodes(alloc, &mut source, &blob, &mut room, configuration)
}

// Returns how many bytes of the strings block the first signature of a configuration signs.
fn strings_of(alloc: Global, file: &[u8], place: usize) -> Result<u64, SigningFault> {
    let mut source = MemSource::new(file);
    let mut room = Room::new(alloc);
    let Ok(blob) = index(&mut source, &mut room) else {
        return Err(SigningFault::Changed);
    };
    let Some(configuration) = configuration_at(&blob, &room, place) else {
        return Err(SigningFault::Changed);
    };
    let Some(signature) = blob.first_child(&room, configuration) else {
        return Err(SigningFault::Changed);
    };
    strings_size(alloc, &mut source, &blob, &mut room, signature)
}

// Returns the SHA-256 sum of the message of these nodes and so many bytes of the strings block.
fn digest_of(
    alloc: Global,
    file: &[u8],
    marks: &[u64],
    strings: u64,
) -> Result<[u8; 64], SigningFault> {
    let mut source = MemSource::new(file);
    let mut room = Room::new(alloc);
    let Ok(blob) = index(&mut source, &mut room) else {
        return Err(SigningFault::Changed);
    };
    let mut sum = Sha256Sum::start();
    feed_message(&mut source, &blob, &mut room, marks, strings, &mut sum)?;
    let mut digest = [0; 64];
    let _ = sum.finish(&mut digest);
    Ok(digest)
}

fn is_digest(found: Result<[u8; 64], SigningFault>, wanted: &[u8]) -> bool {
    match found {
        Ok(digest) => &digest[..32] == wanted,
        Err(_) => false,
    }
}

#[test]
fn signed_by_mkimage(rt: HostRuntime) {
    for (place, (nodes, strings, digest)) in SIGNATURES.iter().enumerate() {
        let Ok(marks) = marks_of(rt.alloc(), &SIGNED, place) else {
            panic!(rt; "configuration {place}: no nodes");
        };
        assert!(rt; marks.as_slice() == *nodes, "configuration {place}");
        assert!(rt;
            strings_of(rt.alloc(), &SIGNED, place) == Ok(*strings),
            "configuration {place}"
        );
        let found = digest_of(rt.alloc(), &SIGNED, &marks, *strings);
        assert!(rt; is_digest(found, digest), "configuration {place}");
    }
}

// Returns the algorithm and the padding of the first signature of a configuration.
fn algorithm_of(alloc: Global, file: &[u8]) -> Option<(Option<RsaAlgo>, Option<RsaPadding>)> {
    let mut source = MemSource::new(file);
    let mut room = Room::new(alloc);
    let blob = index(&mut source, &mut room).ok()?;
    let configuration = configuration_at(&blob, &room, 0)?;
    let signature = blob.first_child(&room, configuration)?;
    let algo = blob.value(&room, signature, Key::Algo)?;
    let padding = blob.value(&room, signature, Key::Padding);
    let algo = read_rsa_algo(&mut source, algo).ok()?;
    let padding = read_rsa_padding(&mut source, padding).ok()?;
    Some((algo, padding))
}

#[test]
fn algorithm(rt: HostRuntime) {
    let Some((algo, padding)) = algorithm_of(rt.alloc(), &SIGNED) else {
        panic!(rt; "no algorithm");
    };
    assert!(rt;
        algo == Some(RsaAlgo {
            sum: Algo::Sha256,
            bits: 2048
        })
    );
    assert!(rt; padding == Some(RsaPadding::Pkcs1));
}

#[test]
fn small_trees(rt: HostRuntime) {
    for (row, (file, strings, digest)) in TREES.iter().enumerate() {
        let Ok(marks) = marks_of(rt.alloc(), file, 0) else {
            panic!(rt; "tree {row}: no nodes");
        };
        let found = digest_of(rt.alloc(), file, &marks, *strings);
        assert!(rt; is_digest(found, digest), "tree {row}");
    }
}

#[test]
fn images_without_hash_nodes(rt: HostRuntime) {
    assert!(rt; marks_of(rt.alloc(), &UNNAMED, 0) == Err(SigningFault::Unhashed));
    assert!(rt; marks_of(rt.alloc(), &BARE, 0) == Err(SigningFault::Unhashed));
    assert!(rt; listed(rt.alloc(), 0) == Err(SigningFault::Unhashed));
    assert!(rt; listed(rt.alloc(), 1) == Ok(4));
}

#[test]
fn hashed_strings(rt: HostRuntime) {
    let mut file = SIGNED;
    file[HASHED_STRINGS + 15] = 1;
    assert!(rt; strings_of(rt.alloc(), &file, 0) == Err(SigningFault::StringsOffset));
    let mut file = SIGNED;
    file[HASHED_STRINGS + 16] = 1;
    assert!(rt; strings_of(rt.alloc(), &file, 0) == Err(SigningFault::StringsOutside));
    let mut file = SIGNED;
    file[HASHED_STRINGS + 7] = 7;
    assert!(rt; strings_of(rt.alloc(), &file, 0) == Err(SigningFault::BadStrings));
    let outside = digest_of(rt.alloc(), &SIGNED, &[], 0x1_0000_0000);
    assert!(rt; outside == Err(SigningFault::StringsOutside));
}

#[test]
fn names_of_properties(rt: HostRuntime) {
    // the last name of a signed property is `value`, from 147 to the NUL at 152
    let (nodes, _, _) = SIGNATURES[0];
    for strings in [0, 147, 148, 152, 154] {
        let found = digest_of(rt.alloc(), &SIGNED, nodes, strings);
        assert!(rt; found == Err(SigningFault::NameUnsigned), "{strings} bytes");
    }
    for strings in [153, 165, 208] {
        let found = digest_of(rt.alloc(), &SIGNED, nodes, strings);
        assert!(rt; found.is_ok(), "{strings} bytes");
    }
    // no property is signed
    assert!(rt; digest_of(rt.alloc(), &SIGNED, &[], 5).is_ok());
}

// The tokens of the structure block, of names of at most 3 bytes.
const NAMELESS: [u8; 8] = [0, 0, 0, 1, 0, 0, 0, 0];

const BEGIN_NODE: [u8; 4] = [0, 0, 0, 1];

const END_NODE: [u8; 4] = [0, 0, 0, 2];

const END: [u8; 4] = [0, 0, 0, 9];

const CHILD: [u8; 12] = *b"\0\0\0\x01x\0\0\0\0\0\0\x02";

const IMAGES: [u8; 20] = *b"\0\0\0\x01images\0\0\0\0\0\x01k\0\0\0";

const CONFIGURATIONS: [u8; 24] = *b"\0\0\0\x01configurations\0\0\0\0\0\x01";

// The name of the image, 34 times.
const REPEATED: [u8; 68] = *b"k\0k\0k\0k\0k\0k\0k\0k\0k\0k\0k\0k\0k\0k\0k\0k\0k\0\
    k\0k\0k\0k\0k\0k\0k\0k\0k\0k\0k\0k\0k\0k\0k\0k\0k\0";

// Returns a blob with these tokens, `times` times the second, and the property name `kernel`.
fn blob_of(alloc: Global, parts: &[(&[u8], usize)]) -> Result<Vec<u8>, AllocError> {
    let mut size = 0;
    for (tokens, times) in parts {
        size += tokens.len() as u32 * *times as u32;
    }
    let mut bytes = Vec::new(alloc);
    for word in [
        0xd00d_feed,
        64 + size,
        64,
        56,
        40,
        17,
        16,
        0,
        8,
        size,
        0,
        0,
        0,
        0,
    ] {
        bytes.extend_from_slice(&word.to_be_bytes())?;
    }
    bytes.extend_from_slice(b"kernel\0\0")?;
    for (tokens, times) in parts {
        for _ in 0..*times {
            bytes.extend_from_slice(tokens)?;
        }
    }
    Ok(bytes)
}

// Returns what comes of a chain of so many nodes.
fn nested(alloc: Global, count: usize) -> Option<SigningFault> {
    let parts: [(&[u8], usize); 3] = [(&NAMELESS, count), (&END_NODE, count), (&END, 1)];
    let Ok(file) = blob_of(alloc, &parts) else {
        return Some(SigningFault::OutOfMemory);
    };
    digest_of(alloc, &file, &[], 0).err()
}

// Returns what comes of a block that ends with so many words FDT_END.
fn ended(alloc: Global, count: usize) -> Option<SigningFault> {
    let parts: [(&[u8], usize); 3] = [(&NAMELESS, 1), (&END_NODE, 1), (&END, count)];
    let Ok(file) = blob_of(alloc, &parts) else {
        return Some(SigningFault::OutOfMemory);
    };
    digest_of(alloc, &file, &[], 0).err()
}

// Returns how many nodes are listed of a configuration, whose name has so many letters and whose
// property `kernel` has this value, and of an image `k` with so many hash nodes, so many letters in
// the name of each after `hash`, and so many children besides.
fn listed_of(
    alloc: Global,
    (hashes, letters, children): (usize, usize, usize),
    configuration: usize,
    value: &[u8],
) -> Result<usize, SigningFault> {
    let mut hash = Vec::new(alloc);
    for (bytes, times) in [
        (b"\0\0\0\x01hash".as_slice(), 1),
        (b"h", letters),
        (b"\0", 4 - letters % 4),
        (&END_NODE, 1),
    ] {
        for _ in 0..times {
            if hash.extend_from_slice(bytes).is_err() {
                return Err(SigningFault::OutOfMemory);
            }
        }
    }
    let property = [0, 0, 0, 3, 0, 0, 0, value.len() as u8, 0, 0, 0, 0];
    let parts: [(&[u8], usize); 13] = [
        (&NAMELESS, 1),
        (&IMAGES, 1),
        (&hash, hashes),
        (&CHILD, children),
        (&END_NODE, 2),
        (&CONFIGURATIONS, 1),
        (b"c", configuration),
        (b"\0", 4 - configuration % 4),
        (&property, 1),
        (value, 1),
        (b"\0", (4 - value.len() % 4) % 4),
        (&END_NODE, 3),
        (&END, 1),
    ];
    let Ok(file) = blob_of(alloc, &parts) else {
        return Err(SigningFault::OutOfMemory);
    };
    Ok(marks_of(alloc, &file, 0)?.len())
}

// Returns how many nodes are listed of an image with so many hash nodes.
fn listed(alloc: Global, hashes: usize) -> Result<usize, SigningFault> {
    listed_of(alloc, (hashes, 0, 0), 1, b"k\0")
}

#[test]
fn texts_of_names(rt: HostRuntime) {
    for value in [b"".as_slice(), b"k", b"k\0k", b"k\0kernel", b"K\0", b"kk\0"] {
        assert!(rt; listed_of(rt.alloc(), (1, 0, 0), 1, value) == Err(SigningFault::Unhashed));
    }
    for value in [b"k\0".as_slice(), b"\0k\0", b"k\0\0", b"x\0k\0k\0"] {
        assert!(rt; listed_of(rt.alloc(), (1, 0, 0), 1, value) == Ok(4));
    }
}

#[test]
fn bounds(rt: HostRuntime) {
    assert!(rt; nested(rt.alloc(), 32).is_none());
    assert!(rt; nested(rt.alloc(), 33) == Some(SigningFault::TooDeep));
    assert!(rt; ended(rt.alloc(), 1).is_none());
    assert!(rt; ended(rt.alloc(), 2) == Some(SigningFault::EarlyEnd));
    assert!(rt; listed(rt.alloc(), 97) == Ok(100));
    assert!(rt; listed(rt.alloc(), 98) == Err(SigningFault::TooManyNodes));
    // an image with two hash nodes counts for three nodes each time that it is named
    assert!(rt; listed_of(rt.alloc(), (2, 0, 0), 1, &REPEATED[..64]) == Ok(5));
    let named = listed_of(rt.alloc(), (2, 0, 0), 1, &REPEATED);
    assert!(rt; named == Err(SigningFault::TooManyNodes));
    // 27 times the image's path of 10 bytes and the hash node's of 139, and 2 and 71 bytes
    assert!(rt; listed_of(rt.alloc(), (1, 124, 0), 54, &REPEATED[..54]) == Ok(4));
    let long = listed_of(rt.alloc(), (1, 124, 0), 55, &REPEATED[..54]);
    assert!(rt; long == Err(SigningFault::TooManyNodes));
    // the root has two children that are not listed
    assert!(rt; listed_of(rt.alloc(), (1, 0, 23), 1, b"k\0") == Ok(4));
    let apart = listed_of(rt.alloc(), (1, 0, 24), 1, b"k\0");
    assert!(rt; apart == Err(SigningFault::TooManyNodes));
}

// The name of a child of the root: a word so many times, and the last one; and whether U-Boot's walk
// takes it.
const NAMES: [(&[u8; 4], usize, &[u8; 4], bool); 6] = [
    (b"name", 0, b"k@1\0", true),
    (b"name", 0, b"\0\0\0\0", false),
    (b"name", 0, b"a/b\0", false),
    (b"n/me", 1, b"\0\0\0\0", false),
    // with the slash and the NUL the path has 198 bytes, and 199
    (b"name", 49, b"\0\0\0\0", true),
    (b"name", 49, b"k\0\0\0", false),
];

// Returns whether U-Boot's walk takes a tree with these tokens.
fn reached(alloc: Global, parts: &[(&[u8], usize)]) -> Option<bool> {
    let file = blob_of(alloc, parts).ok()?;
    let mut source = MemSource::new(&file);
    let mut room = Room::new(alloc);
    let blob = index(&mut source, &mut room).ok()?;
    is_reached(&mut source, &blob, &room).ok()
}

#[test]
fn names(rt: HostRuntime) {
    for (row, (word, times, last, is_taken)) in NAMES.iter().enumerate() {
        let parts: [(&[u8], usize); 6] = [
            (&NAMELESS, 1),
            (&BEGIN_NODE, 1),
            (*word, *times),
            (*last, 1),
            (&END_NODE, 2),
            (&END, 1),
        ];
        assert!(rt; reached(rt.alloc(), &parts) == Some(*is_taken), "row {row}");
    }
}
