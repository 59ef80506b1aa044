//! Algorithms by name.

use uimg_base::{Algo, crc_entry};

// Names and the lengths of their digests, all different; 0 if no algorithm of the profile has the
// name.
const NAMES: [(&str, usize); 16] = [
    ("crc32", 4),
    ("md5", 16),
    ("sha1", 20),
    ("sha256", 32),
    ("sha384", 48),
    ("sha512", 64),
    ("", 0),
    ("crc", 0),
    ("crc16-ccitt", 0),
    ("crc16", 0),
    ("CRC32", 0),
    ("sha3", 0),
    ("sha256 ", 0),
    ("sha256\0", 0),
    ("sha", 0),
    ("md", 0),
];

// Entries of the CRC-32 table, from RFC 1952, section 8.
const ENTRIES: [(u8, u32); 4] = [
    (0, 0),
    (1, 0x7707_3096),
    (128, 0xEDB8_8320),
    (255, 0x2D02_EF8D),
];

fn digest_length(name: &str) -> usize {
    match Algo::named(name.as_bytes()) {
        Some(algo) => algo.len(),
        None => 0,
    }
}

#[test]
fn names_of_algorithms(rt: HostRuntime) {
    for (name, length) in &NAMES {
        assert_eq!(rt; digest_length(name), *length, "{name}");
    }
}

// crc16-ccitt is known beside the algorithms of the profile.
#[test]
fn known_algorithms(rt: HostRuntime) {
    for (name, length) in &NAMES {
        let known = Algo::known(name.as_bytes()).map_or(0, |algo| algo.len());
        let wanted = if *name == "crc16-ccitt" { 2 } else { *length };
        assert_eq!(rt; known, wanted, "{name}");
    }
}

#[test]
fn entries_of_the_table(rt: HostRuntime) {
    for (index, entry) in &ENTRIES {
        assert_eq!(rt; crc_entry(*index), *entry, "{index}");
    }
}
