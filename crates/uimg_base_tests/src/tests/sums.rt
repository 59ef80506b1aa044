//! Checksums and hashes against digests from elsewhere: in any pieces, and eight sums at once.

mod algorithms;
mod bundles;
mod digests;

/// CRC, MD5 and SHA of the counted text, from zlib, coreutils and, for CRC-16, Python's binascii.
const COUNTED_DIGESTS: [(&str, &str); 7] = [
    ("crc16-ccitt", "90a4"),
    ("crc32", "c1607408"),
    ("md5", "046b3239eaade30920069f171518d956"),
    ("sha1", "e6937aa016bc06eda81d3b227fffde825d881ce5"),
    (
        "sha256",
        "69dbee893909fa17d1be397e0c07691336fe42049c29d403467d3d4a1fc3b5a1",
    ),
    (
        "sha384",
        "3592cbbc05f7c49ff1edb2c122f878fb78792cdb3d6883d3a705f902f43cfde95f1bc803445f48b3eac92224d54f846d",
    ),
    (
        "sha512",
        "f7b8464be8c23f633cd761a6502801a7d77f59a9eb0523e50bec6b366687258a7c8e5f8b1578e56076b133a5ea1f0dd3cf439d97ebca4f335818be014a085c86",
    ),
];

// Checks that an entry has the digest that `hex` spells, with its length, and zeros after it.
fn is_entry(entry: &([u8; 64], usize), hex: &str) -> bool {
    let (bytes, length) = entry;
    *length <= 64
        && is_spelled(&bytes[..*length], hex.as_bytes())
        && bytes[*length..].iter().all(|byte| *byte == 0)
}

fn is_spelled(bytes: &[u8], hex: &[u8]) -> bool {
    let digits = b"0123456789abcdef";
    let mut same = hex.len() % 2 == 0 && hex.len() / 2 == bytes.len();
    for (pair, byte) in hex.chunks_exact(2).zip(bytes) {
        let wanted = [digits[(*byte / 16) as usize], digits[(*byte % 16) as usize]];
        same = same && *pair == *wanted.as_slice();
    }
    same
}
