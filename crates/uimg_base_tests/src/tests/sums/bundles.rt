//! Several sums over the same bytes.

use super::super::counted::counted;
use super::{COUNTED_DIGESTS, is_entry};
use uimg_base::{Algo, Bundle};

// The name, the algorithms that are added before the counted text is fed and those that are tried
// after it, and the number of sums.
const BUNDLES: [(&str, &str, &str, usize); 7] = [
    (
        "eight sums are fed at once",
        "crc32 md5 sha1 sha256 sha384 sha512 md5 crc32",
        "",
        8,
    ),
    (
        "places past the sums are empty",
        "sha512 sha512 crc32",
        "",
        3,
    ),
    (
        "crc16-ccitt beside others",
        "sha1 crc16-ccitt crc16-ccitt crc32",
        "",
        4,
    ),
    ("no sum", "", "", 0),
    (
        "a ninth sum is refused",
        "crc32 crc32 crc32 crc32 crc32 crc32 crc32 crc32 md5",
        "",
        8,
    ),
    ("a late sum is refused", "crc32", "md5", 1),
    (
        "each late sum is refused",
        "sha256 sha1",
        "md5 crc32 sha256",
        2,
    ),
];

// Adds as many sums as there is room for. Returns whether exactly these were added.
fn adds(bundle: &mut Bundle, algorithms: &str, place: usize) -> bool {
    let mut same = true;
    for (number, name) in algorithms.split_whitespace().enumerate() {
        let count = bundle.len();
        let added = match Algo::known(name.as_bytes()) {
            Some(algo) => bundle.add(algo),
            None => false,
        };
        same = same
            && added == (number < place)
            && bundle.len() == count.saturating_add(added as usize);
    }
    same
}

// Returns the digest of the counted text for an algorithm, or none for another name.
fn digest_by(algorithm: &str) -> &'static str {
    match algorithm {
        "crc16-ccitt" => COUNTED_DIGESTS[0].1,
        "crc32" => COUNTED_DIGESTS[1].1,
        "md5" => COUNTED_DIGESTS[2].1,
        "sha1" => COUNTED_DIGESTS[3].1,
        "sha256" => COUNTED_DIGESTS[4].1,
        "sha384" => COUNTED_DIGESTS[5].1,
        "sha512" => COUNTED_DIGESTS[6].1,
        _ => "",
    }
}

// Checks that the bundle has the digests for the first `count` algorithms, then empty slots.
fn finishes(bundle: Bundle, algorithms: &str, count: usize) -> bool {
    let mut names = algorithms.split_whitespace();
    let mut same = true;
    for (number, entry) in bundle.finish().iter().enumerate() {
        let name = names.next().unwrap_or("");
        let hex = if number < count { digest_by(name) } else { "" };
        same = same && is_entry(entry, hex);
    }
    same
}

fn sums_at_once(algorithms: &str, late: &str, count: usize) -> bool {
    let mut bundle = Bundle::new();
    bundle.feed(b"");
    let added = adds(&mut bundle, algorithms, 8);
    let bytes = counted();
    for piece in bytes.get(..5000).unwrap_or(b"").chunks(700) {
        bundle.feed(piece);
    }
    let refused = adds(&mut bundle, late, 0);
    added && refused && bundle.len() == count && finishes(bundle, algorithms, count)
}

#[test]
fn bundles(rt: HostRuntime) {
    for (name, algorithms, late, count) in &BUNDLES {
        assert!(rt; sums_at_once(algorithms, late, *count), "{name}");
    }
}
