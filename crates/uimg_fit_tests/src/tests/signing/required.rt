//! Keys in control devicetrees, and what they have signed.

use super::key_trees::{MADE, MADE_KEY, SHORT, TWO, WEAK};
use super::keys::{DEV, OTHER};
use super::signed::SIGNED;
use std::alloc::Global;
use uimg_base::{MemSource, Room};
use uimg_fit_reading::read_tree;
use uimg_keys::{KeyFault, Keys, PublicKey, key_of_pem, read_keys};
use uimg_strict::Looseness;
use uimg_verifying::{Required, find_unsigned};

fn read(alloc: Global, file: &[u8]) -> Result<Keys, KeyFault> {
    read_keys(alloc, &mut MemSource::new(file))
}

fn is_key(alloc: Global, key: &PublicKey, text: &str) -> bool {
    match key_of_pem(alloc, text.as_bytes()) {
        Ok(wanted) => {
            key.modulus.as_slice() == wanted.modulus.as_slice() && key.exponent == wanted.exponent
        }
        Err(_) => false,
    }
}

fn are_keys(alloc: Global, keys: &Keys, texts: &[&str]) -> bool {
    keys.keys.len() == texts.len()
        && keys
            .keys
            .iter()
            .zip(texts)
            .all(|(key, text)| is_key(alloc, key, text))
}

// Returns the word for the first configuration of the signed image that these keys refuse.
fn refused(alloc: Global, keys: Keys) -> Option<Looseness> {
    let required = Required {
        keys,
        takes_sha1: false,
        only: None,
    };
    let mut source = MemSource::new(&SIGNED);
    let mut room = Room::new(alloc);
    let Ok(blob) = read_tree(&mut source, &mut room) else {
        return Some(Looseness::Unsigned);
    };
    match find_unsigned(alloc, &required, &mut source, &blob, &mut room) {
        Ok(found) => found.map(|loose| loose.why),
        Err(_) => Some(Looseness::Unsigned),
    }
}

#[test]
fn by_mkimage(rt: HostRuntime) {
    let Ok(keys) = read(rt.alloc(), &MADE) else {
        panic!(rt; "no key");
    };
    assert!(rt; are_keys(rt.alloc(), &keys, &[MADE_KEY]));
    assert!(rt; keys.name.as_slice() == b"dev".as_slice());
    assert!(rt; !keys.is_any);
    assert!(rt; refused(rt.alloc(), keys) == Some(Looseness::BadSignature));
}

// Returns the tree of two keys with these bytes at these offsets.
fn changed(changes: &[(usize, u8)]) -> [u8; 1563] {
    let mut file = TWO;
    for (at, byte) in changes {
        file[*at] = *byte;
    }
    file
}

#[test]
fn two_keys(rt: HostRuntime) {
    let Ok(keys) = read(rt.alloc(), &TWO) else {
        panic!(rt; "no key");
    };
    assert!(rt; are_keys(rt.alloc(), &keys, &[DEV, OTHER]));
    assert!(rt; !keys.is_any && keys.name.as_slice() == b"dev, other".as_slice());
    assert!(rt; refused(rt.alloc(), keys) == Some(Looseness::BadSignature));
}

#[test]
fn any_of_two_keys(rt: HostRuntime) {
    let Ok(keys) = read(rt.alloc(), &changed(&[(105, b'n'), (106, b'y')])) else {
        panic!(rt; "no key");
    };
    assert!(rt; are_keys(rt.alloc(), &keys, &[DEV, OTHER]));
    assert!(rt; keys.is_any && keys.name.as_slice() == b"dev or other".as_slice());
    assert!(rt; refused(rt.alloc(), keys).is_none());
}

#[test]
fn one_required(rt: HostRuntime) {
    for (at, text, why) in [
        (788, DEV, None),
        (132, OTHER, Some(Looseness::BadSignature)),
    ] {
        let Ok(keys) = read(rt.alloc(), &changed(&[(at, b'x')])) else {
            panic!(rt; "no key");
        };
        assert!(rt; are_keys(rt.alloc(), &keys, &[text]));
        assert!(rt; refused(rt.alloc(), keys) == why);
    }
}

// Bytes of the tree of two keys, and why it is refused then.
const REFUSED: [(&[(usize, u8)], KeyFault); 21] = [
    // no key is required, or there is no /signature, or a key is required for images
    (&[(132, b'x'), (788, b'x')], KeyFault::NoKey),
    (&[(136, b'x'), (792, b'x')], KeyFault::WrongNode),
    (&[(80, b'x')], KeyFault::NoKey),
    (&[(1448, b'e')], KeyFault::ImageKey),
    // the size of the modulus, and its highest bit
    (&[(183, 1)], KeyFault::WrongNode),
    (&[(838, 0x0c)], KeyFault::WrongNode),
    (&[(196, 0x7f)], KeyFault::Unfit),
    // an exponent that is even, and that is 1
    (&[(471, 0)], KeyFault::Unfit),
    (&[(469, 0)], KeyFault::Unfit),
    // the names of the properties
    (&[(1491, b'x')], KeyFault::WrongNode),
    (&[(1496, b'x')], KeyFault::WrongNode),
    (&[(1509, b'x')], KeyFault::WrongNode),
    (&[(1521, b'x')], KeyFault::WrongNode),
    (&[(1534, b'x')], KeyFault::WrongNode),
    (&[(1549, b'x')], KeyFault::WrongNode),
    // rsa,r-squared and rsa,n0-inverse of another modulus
    (&[(755, 0xde)], KeyFault::WrongNode),
    (&[(1156, 0x5)], KeyFault::WrongNode),
    (&[(487, 0x8e)], KeyFault::WrongNode),
    (&[(1140, 0x30)], KeyFault::WrongNode),
    // a token, and the size of the structure block
    (&[(59, 7)], KeyFault::NotKey),
    (&[(37, 1)], KeyFault::NotKey),
];

#[test]
fn refused_trees(rt: HostRuntime) {
    for (row, (changes, why)) in REFUSED.iter().enumerate() {
        let Err(fault) = read(rt.alloc(), &changed(changes)) else {
            panic!(rt; "row {row}: keys");
        };
        assert!(rt; fault == *why, "row {row}");
    }
}

#[test]
fn refused_files(rt: HostRuntime) {
    let Ok(large) = Vec::from_elem(rt.alloc(), b'\n', 0x10_0001) else {
        panic!(rt; "no memory");
    };
    let mut long = MADE_KEY.as_bytes();
    let Ok(mut text) = Vec::from_elem(rt.alloc(), b'\n', 8192) else {
        panic!(rt; "no memory");
    };
    assert!(rt; text.extend_from_slice(long).is_ok());
    long = text.as_slice();
    for (row, (file, why)) in [
        (SHORT.as_slice(), KeyFault::WrongNode),
        (WEAK.as_slice(), KeyFault::Unfit),
        (&TWO[..TWO.len() - 1], KeyFault::NotKey),
        (&TWO[..4], KeyFault::NotKey),
        (large.as_slice(), KeyFault::NotKey),
        (long, KeyFault::NotKey),
    ]
    .iter()
    .enumerate()
    {
        let Err(fault) = read(rt.alloc(), file) else {
            panic!(rt; "row {row}: keys");
        };
        assert!(rt; fault == *why, "row {row}");
    }
}
