//! Keys in PEM, and what they have signed.

use super::keys::{CURVE, DEV, DEV_RSA, LARGE, OTHER, SMALL};
use super::signed::SIGNED;
use std::alloc::{AllocError, Global};
use uimg_base::{MemSource, Room};
use uimg_fit_checking::SurveyFault;
use uimg_fit_reading::read_tree;
use uimg_keys::{KeyFault, Keys, key_of_pem, read_keys};
use uimg_strict::{Loose, Looseness};
use uimg_verifying::{Required, find_unsigned, signature_results};

type Refused<'a> = (Looseness, Option<&'a [u8]>);

fn found_by(
    alloc: Global,
    required: &Required<'_>,
    file: &[u8],
) -> Result<Option<Loose>, SurveyFault> {
    let mut source = MemSource::new(file);
    let mut room = Room::new(alloc);
    let blob = read_tree(&mut source, &mut room)?;
    find_unsigned(alloc, required, &mut source, &blob, &mut room)
}

// Requires signatures by these keys.
fn by(keys: Keys) -> Required<'static> {
    Required {
        keys,
        takes_sha1: false,
        only: None,
    }
}

// Requires signatures by the keys of these texts.
fn keys_of(alloc: Global, texts: &[&str], is_any: bool) -> Result<Required<'static>, KeyFault> {
    let mut keys = Vec::new(alloc);
    for text in texts {
        let key = key_of_pem(alloc, text.as_bytes())?;
        if keys.push(key).is_err() {
            return Err(KeyFault::OutOfMemory);
        }
    }
    let name = Vec::new(alloc);
    Ok(by(Keys { keys, is_any, name }))
}

fn is_found(found: Result<Option<Loose>, SurveyFault>, wanted: Option<Refused<'_>>) -> bool {
    match (found, wanted) {
        (Ok(None), None) => true,
        (Ok(Some(loose)), Some((why, name))) => {
            loose.why == why && loose.node.as_ref().map(|node| node.as_slice()) == name
        }
        _ => false,
    }
}

// An offset in the signed image, the byte there instead, and what is found.
const CHANGED: [(usize, u8, Option<Refused<'static>>); 17] = [
    // a byte of a payload, which only its hash tells
    (148, 0xff, None),
    // the hash of a signed image
    (292, 0, Some((Looseness::BadSignature, Some(b"conf")))),
    (620, 0, Some((Looseness::BadSignature, Some(b"other")))),
    // the name of an image
    (740, b'x', Some((Looseness::BadSignature, Some(b"conf")))),
    // the value
    (972, 0x19, Some((Looseness::BadSignature, Some(b"conf")))),
    (972, 0xff, Some((Looseness::SignatureRange, Some(b"conf")))),
    // the strings
    (799, 0xff, Some((Looseness::SignedStrings, Some(b"conf")))),
    (795, 1, Some((Looseness::SignedStrings, Some(b"conf")))),
    // the size of the structure block
    (39, 0x30, Some((Looseness::SignedNodes, None))),
    // the name of an image: none, and one with a slash
    (356, 0, Some((Looseness::SignedNodes, None))),
    (513, b'/', Some((Looseness::SignedNodes, None))),
    // the algorithm and the padding
    (
        1243,
        b'3',
        Some((Looseness::UnknownSignature, Some(b"conf"))),
    ),
    (
        1250,
        b'4',
        Some((Looseness::UnknownSignature, Some(b"conf"))),
    ),
    (
        1860,
        b'x',
        Some((Looseness::UnknownSignature, Some(b"other"))),
    ),
    // the names of the nodes
    (768, b'x', Some((Looseness::Unsigned, Some(b"conf")))),
    (1360, b'x', Some((Looseness::Unsigned, Some(b"other")))),
    (660, b'x', Some((Looseness::Unsigned, None))),
];

#[test]
fn by_the_key(rt: HostRuntime) {
    let Ok(keys) = read_keys(rt.alloc(), &mut MemSource::new(DEV.as_bytes())) else {
        panic!(rt; "no key");
    };
    let keys = by(keys);
    assert!(rt; is_found(found_by(rt.alloc(), &keys, &SIGNED), None));
    for (at, byte, wanted) in CHANGED {
        let mut file = SIGNED;
        file[at] = byte;
        assert!(rt;
            is_found(found_by(rt.alloc(), &keys, &file), wanted),
            "offset {at}"
        );
    }
}

// The hash of the image that the first of two configurations names is another one.
fn with_another_hash() -> [u8; 3105] {
    let mut file = SIGNED;
    file[292] = 0;
    file
}

#[test]
fn by_the_name_of_a_configuration(rt: HostRuntime) {
    let file = with_another_hash();
    for (only, wanted) in [
        (b"conf".as_slice(), Some(Looseness::BadSignature)),
        (b"other", None),
        (b"third", Some(Looseness::Unsigned)),
    ] {
        let Ok(mut required) = keys_of(rt.alloc(), &[DEV], false) else {
            panic!(rt; "no key");
        };
        required.only = Some(only);
        let wanted = wanted.map(|why| (why, Some(only)));
        assert!(rt; is_found(found_by(rt.alloc(), &required, &file), wanted));
    }
}

#[test]
fn results_of_signature_nodes(rt: HostRuntime) {
    let Ok(required) = keys_of(rt.alloc(), &[OTHER, DEV], false) else {
        panic!(rt; "no key");
    };
    let file = with_another_hash();
    let mut source = MemSource::new(&file);
    let mut room = Room::new(rt.alloc());
    let Ok(blob) = read_tree(&mut source, &mut room) else {
        panic!(rt; "no blob");
    };
    let Ok(results) = signature_results(rt.alloc(), &required, &mut source, &blob, &mut room) else {
        panic!(rt; "no results");
    };
    assert!(rt; results.len() == 2);
    let (first, second) = (&results[0], &results[1]);
    assert!(rt; first.configuration.as_slice() == b"conf".as_slice());
    assert!(rt; first.refusal == Some(Looseness::BadSignature));
    assert!(rt; second.configuration.as_slice() == b"other".as_slice());
    assert!(rt; second.refusal.is_none());
    let algo = second.algo.as_ref().map(|text| text.as_slice());
    assert!(rt; algo == Some(b"sha256,rsa2048\0".as_slice()));
}

#[test]
fn by_other_keys(rt: HostRuntime) {
    for (text, why) in [
        (OTHER, Looseness::BadSignature),
        (LARGE, Looseness::UnknownSignature),
    ] {
        let Ok(keys) = keys_of(rt.alloc(), &[text], false) else {
            panic!(rt; "no key");
        };
        let found = found_by(rt.alloc(), &keys, &SIGNED);
        assert!(rt; is_found(found, Some((why, Some(b"conf".as_slice())))));
    }
}

// The keys, whether one is enough, and why the first configuration is refused.
const POLICIES: [(&[&str], bool, Option<Looseness>); 9] = [
    (&[DEV, OTHER], false, Some(Looseness::BadSignature)),
    (&[OTHER, DEV], false, Some(Looseness::BadSignature)),
    (&[DEV, LARGE], false, Some(Looseness::UnknownSignature)),
    (&[DEV, DEV], false, None),
    (&[DEV, OTHER], true, None),
    (&[OTHER, DEV], true, None),
    (&[OTHER, LARGE], true, Some(Looseness::UnknownSignature)),
    (&[], false, Some(Looseness::Unsigned)),
    (&[], true, Some(Looseness::Unsigned)),
];

#[test]
fn by_several_keys(rt: HostRuntime) {
    for (row, (texts, is_any, why)) in POLICIES.iter().enumerate() {
        let Ok(keys) = keys_of(rt.alloc(), texts, *is_any) else {
            panic!(rt; "no key");
        };
        let found = found_by(rt.alloc(), &keys, &SIGNED);
        let wanted = why.map(|why| (why, Some(b"conf".as_slice())));
        assert!(rt; is_found(found, wanted), "row {row}");
    }
}

// The offset of the signature node of the first configuration.
const SIGNATURE: usize = 764;

// A signature node without an algorithm, and with so many bytes of the strings block.
const EARLIER: [u8; 32] = *b"\0\0\0\x01signature\0\0\0\0\0\0\x03\0\0\0\x08\0\0\0\xc1\0\0\0\0";

// Returns the signed image with this node before the signature.
fn with_earlier(alloc: Global, strings: u32) -> Result<Vec<u8>, AllocError> {
    let mut file = Vec::new(alloc);
    for part in [
        &SIGNED[..SIGNATURE],
        &EARLIER,
        &strings.to_be_bytes(),
        &[0, 0, 0, 2],
        &SIGNED[SIGNATURE..],
    ] {
        file.extend_from_slice(part)?;
    }
    // the total size, the offset of the strings block, and the size of the structure block
    for (at, value) in [(4, 0xc49), (12, 0x78c), (36, 0x754)] {
        let word: u32 = value;
        file[at..at + 4].copy_from_slice(&word.to_be_bytes());
    }
    Ok(file)
}

#[test]
fn strings_of_an_earlier_signature(rt: HostRuntime) {
    for (strings, texts, is_any, why) in [
        (0xd0, [DEV, OTHER], false, Looseness::BadSignature),
        (0xd1, [DEV, OTHER], false, Looseness::SignedStrings),
        (0xd1, [LARGE, DEV], true, Looseness::SignedStrings),
    ] {
        let Ok(keys) = keys_of(rt.alloc(), &texts, is_any) else {
            panic!(rt; "no key");
        };
        let Ok(file) = with_earlier(rt.alloc(), strings) else {
            panic!(rt; "no memory");
        };
        let wanted = (why, Some(b"conf".as_slice()));
        assert!(rt;
            is_found(found_by(rt.alloc(), &keys, &file), Some(wanted)),
            "{strings}"
        );
    }
}

#[test]
fn two_forms_of_a_key(rt: HostRuntime) {
    let Ok(key) = key_of_pem(rt.alloc(), DEV.as_bytes()) else {
        panic!(rt; "no key");
    };
    let Ok(keys) = read_keys(rt.alloc(), &mut MemSource::new(DEV_RSA.as_bytes())) else {
        panic!(rt; "no key");
    };
    assert!(rt; (keys.keys.len(), keys.is_any) == (1, false));
    let same = &keys.keys[0];
    assert!(rt; key.modulus.len() == 256);
    assert!(rt; key.modulus.as_slice() == same.modulus.as_slice());
    assert!(rt; (key.exponent, same.exponent) == (65537, 65537));
}

#[test]
fn other_texts(rt: HostRuntime) {
    let cut = &DEV.as_bytes()[..DEV.len() - 2];
    for text in [SMALL.as_bytes(), CURVE.as_bytes(), b"", cut, &SIGNED] {
        let Err(fault) = key_of_pem(rt.alloc(), text) else {
            panic!(rt; "a key");
        };
        assert!(rt; fault == KeyFault::NotKey);
    }
}
