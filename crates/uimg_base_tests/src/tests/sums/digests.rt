//! Digests of published messages.

// Vectors of RFC 1321, section A.5, and NIST's examples for FIPS 180; CRC-32 is from zlib, CRC-16
// from the catalogue of CRC algorithms (CRC-16/XMODEM) and Python's binascii.
use super::super::counted::counted;
use super::{COUNTED_DIGESTS, is_entry, is_spelled};
use uimg_base::{Crc, Md5Sum, Sha1Sum, Sha256Sum, Sha384Sum, Sha512Sum, Summer, crc_of};
use uimg_sums::Crc16;

// The name, the algorithm, the text and its digest.
const VECTORS: [(&str, &str, &str, &str); 18] = [
    ("crc16 of 123456789", "crc16-ccitt", "123456789", "31c3"),
    ("crc16 of abc", "crc16-ccitt", "abc", "9dd6"),
    ("crc16 of nothing", "crc16-ccitt", "", "0000"),
    ("crc-vectors: 123456789", "crc32", "123456789", "cbf43926"),
    ("crc-vectors: abc", "crc32", "abc", "352441c2"),
    ("crc-vectors: nothing", "crc32", "", "00000000"),
    ("crc-table-vectors: a", "crc32", "a", "e8b7be43"),
    (
        "crc-table-vectors: the fox",
        "crc32",
        "The quick brown fox jumps over the lazy dog",
        "414fa339",
    ),
    (
        "md5 of nothing",
        "md5",
        "",
        "d41d8cd98f00b204e9800998ecf8427e",
    ),
    (
        "md5 of abc",
        "md5",
        "abc",
        "900150983cd24fb0d6963f7d28e17f72",
    ),
    (
        "sha1 of nothing",
        "sha1",
        "",
        "da39a3ee5e6b4b0d3255bfef95601890afd80709",
    ),
    (
        "sha1 of abc",
        "sha1",
        "abc",
        "a9993e364706816aba3e25717850c26c9cd0d89d",
    ),
    (
        "sha256 of nothing",
        "sha256",
        "",
        "e3b0c44298fc1c149afbf4c8996fb92427ae41e4649b934ca495991b7852b855",
    ),
    (
        "sha256 of abc",
        "sha256",
        "abc",
        "ba7816bf8f01cfea414140de5dae2223b00361a396177a9cb410ff61f20015ad",
    ),
    (
        "sha384 of nothing",
        "sha384",
        "",
        "38b060a751ac96384cd9327eb1b1e36a21fdb71114be07434c0cc7bf63f6e1da274edebfe76f65fbd51ad2f14898b95b",
    ),
    (
        "sha512-vectors: sha384 of abc",
        "sha384",
        "abc",
        "cb00753f45a35e8bb5a03d699ac65007272c32ab0eded1631a8b605a43ff5bed8086072ba1e7cc2358baeca134c825a7",
    ),
    (
        "sha512 of nothing",
        "sha512",
        "",
        "cf83e1357eefb8bdf1542850d66d8007d620e4050b5715dc83f4a921d36ce9ce47d0d13c5d85f2b0ff8318d2877eec2f63b931bd47417a81a538327af927da3e",
    ),
    (
        "sha512-vectors: sha512 of abc",
        "sha512",
        "abc",
        "ddaf35a193617abacc417349ae20413112e6fa4e89a97ea20a9eeee64b55d39a2192992a274fc1a836ba3c23a3feebbd454d4423643ce80e2a9ac94fa54ca49f",
    ),
];

// Offsets at which a text is cut; one after its end counts as its end.
const CUTS: [usize; 18] = [
    0, 1, 4, 7, 55, 63, 64, 65, 127, 128, 129, 2047, 2048, 2049, 2500, 4096, 4999, 5000,
];

fn is_digest<S: Summer>(sum: S, hex: &str) -> bool {
    let mut digest = [0; 64];
    let length = sum.finish(&mut digest);
    is_entry(&(digest, length), hex)
}

fn is_digest_of_two<S: Summer>(first: &[u8], second: &[u8], hex: &str) -> bool {
    let mut sum = S::start();
    sum.feed(first);
    sum.feed(b"");
    sum.feed(second);
    is_digest(sum, hex)
}

fn is_digest_of_singles<S: Summer>(text: &[u8], hex: &str) -> bool {
    let mut sum = S::start();
    for single in text.chunks(1) {
        sum.feed(single);
    }
    is_digest(sum, hex)
}

// Checks the digest of a text, fed byte by byte and cut at each offset.
fn has_digest<S: Summer>(text: &[u8], hex: &str) -> bool {
    let mut same = is_digest_of_singles::<S>(text, hex);
    for cut in &CUTS {
        let (first, second) = text.split_at(usize::min(*cut, text.len()));
        same = same && is_digest_of_two::<S>(first, second, hex);
    }
    same
}

fn sums_to(algorithm: &str, text: &[u8], hex: &str) -> bool {
    match algorithm {
        "crc16-ccitt" => has_digest::<Crc16>(text, hex),
        "crc32" => has_digest::<Crc>(text, hex) && has_crc(text, hex),
        "md5" => has_digest::<Md5Sum>(text, hex),
        "sha1" => has_digest::<Sha1Sum>(text, hex),
        "sha256" => has_digest::<Sha256Sum>(text, hex),
        "sha384" => has_digest::<Sha384Sum>(text, hex),
        "sha512" => has_digest::<Sha512Sum>(text, hex),
        _ => false,
    }
}

// Checks CRC-32 of a text, at once and in two pieces.
fn has_crc(text: &[u8], hex: &str) -> bool {
    let (first, second) = text.split_at(text.len() / 2);
    let mut sum = Crc::start();
    sum.feed(first);
    sum.feed(second);
    sum.value() == crc_of(text) && is_spelled(&sum.value().to_be_bytes(), hex.as_bytes())
}

#[test]
fn vectors(rt: HostRuntime) {
    for (name, algorithm, text, hex) in &VECTORS {
        assert!(rt; sums_to(algorithm, text.as_bytes(), hex), "{name}");
    }
}

#[test]
fn the_counted_text(rt: HostRuntime) {
    let bytes = counted();
    let text = bytes.get(..5000).unwrap_or(b"");
    for (algorithm, hex) in &COUNTED_DIGESTS {
        assert!(rt; sums_to(algorithm, text, hex), "{algorithm}");
    }
}

// crc-table-vectors: the bytes 00 to ff.
#[test]
fn the_crc_of_each_byte(rt: HostRuntime) {
    let mut bytes = [0u8; 256];
    for (number, byte) in bytes.iter_mut().enumerate() {
        *byte = (number % 256) as u8;
    }
    assert!(rt; sums_to("crc32", &bytes, "29058c73"));
}
