//! Results of `fill`.
use super::super::answers::is_said;
use super::making::{built, filled};
use crate::sources::FOUR_HASH;
use std::alloc::{AllocError, Global};
use std::test::Fail;
use uimg_base::{Files, FuseFiles, MemFiles};
use uimg_fit::{Fault, FitFault};

// The files when a source is compiled.
const KEPT: [(&[u8], &[u8]); 5] = [
    (b"abc.bin", b"abc"),
    (b"missing", b"abc"),
    (b"two", b"ab"),
    (b"four", b"abcd"),
    (b"none", b""),
];

// The files when the tree is filled.
const HELD: [(&[u8], &[u8]); 4] = [
    (b"abc.bin", b"abc"),
    (b"two", b"abc"),
    (b"four", b"abc"),
    (b"none", b"abc"),
];

// Adds an image: its file, if any, then after `:` the algorithms of its hash nodes, `-` for a hash
// node without one.
fn put_image(text: &mut String, image: &str) -> Result<(), AllocError> {
    let (file, algos) = image.split_once(':').unwrap_or((image, ""));
    text.push_str("a { ")?;
    if !file.is_empty() {
        text.push_str("data = /incbin/(\"")?;
        text.push_str(file)?;
        text.push_str("\"); ")?;
    }
    for algo in algos.split(',') {
        put_hash(text, algo)?;
    }
    text.push_str("}; ")
}

fn put_hash(text: &mut String, algo: &str) -> Result<(), AllocError> {
    match algo {
        "" => Ok(()),
        "-" => text.push_str("hash { }; "),
        _ => {
            text.push_str("hash { algo = \"")?;
            text.push_str(algo)?;
            text.push_str("\"; }; ")
        }
    }
}

fn source(alloc: Global, first: &str, second: &str) -> Result<String, AllocError> {
    let mut text = String::from_str(alloc, "/dts-v1/; / { images { ")?;
    put_image(&mut text, first)?;
    put_image(&mut text, second)?;
    text.push_str("}; };")?;
    Ok(text)
}

fn answer<F: Files>(
    alloc: Global,
    text: &str,
    named: &[(&[u8], &[u8])],
    files: &mut F,
) -> Result<String, AllocError> {
    match filled(alloc, text, 0, named, files) {
        Ok(_) => format!(in alloc; "filled"),
        Err(fault) => format!(in alloc; "{fault}"),
    }
}

// Two images, and the first fault.
const ROWS: [(&str, &str, &str); 16] = [
    ("abc.bin:crc32", "abc.bin:crc32", "filled"),
    (":crc32", "abc.bin:crc32", "F2 no data"),
    (":sha3", "abc.bin:crc32", "F2 no data"),
    ("abc.bin:crc32", "", "F2 no data"),
    ("abc.bin:-", ":crc32", "F5 unknown algorithm"),
    ("abc.bin:sha3", "missing:crc32", "F5 unknown algorithm"),
    ("abc.bin:crc32,sha3", ":crc32", "F5 unknown algorithm"),
    (
        "missing:crc32,sha3",
        "abc.bin:crc32",
        "F5 unknown algorithm",
    ),
    ("missing:-", "abc.bin:crc32", "F5 unknown algorithm"),
    ("missing", "abc.bin:sha3", "F5 unknown algorithm"),
    ("missing:crc32", "abc.bin:sha3", "F9 no file"),
    ("missing:crc32", ":crc32", "F9 no file"),
    ("abc.bin:crc32", "missing:crc32", "F9 no file"),
    ("two:crc32", "missing:crc32", "F10 read failed"),
    ("four:crc32", "abc.bin:sha3", "F10 read failed"),
    ("none:crc32", ":crc32", "F10 read failed"),
];

#[test]
fn image_rows(rt: HostRuntime) -> Result<(), Fail> {
    let alloc = rt.alloc();
    for (first, second, wanted) in &ROWS {
        let text = source(alloc, first, second)?;
        let found = answer(alloc, text.as_str(), &KEPT, &mut MemFiles::new(&HELD));
        is_said(&rt, found, wanted, text.as_str(), 0);
    }
    Ok(())
}

// Sources whose files are all refused, and the result. No file is opened for a payload in memory,
// or for an image without hash nodes. A tree may have no images, but needs the node `images`.
const CLOSED_ROWS: [(&str, &str); 5] = [
    (FOUR_HASH, "F9 no file"),
    (
        "/dts-v1/; / { images { a { data = [616263]; hash-1 { algo = \"crc32\"; }; hash-2 { algo = \"md5\"; };
hash-3 { algo = \"sha1\"; }; hash-4 { algo = \"sha256\"; }; }; }; };",
        "filled",
    ),
    (
        "/dts-v1/; / { images { a { data = /incbin/(\"abc.bin\"); }; }; };",
        "filled",
    ),
    ("/dts-v1/; / { images; };", "F1 no images"),
    ("/dts-v1/; / { images { }; };", "filled"),
];

#[test]
fn closed_rows(rt: HostRuntime) {
    for (text, wanted) in &CLOSED_ROWS {
        let found = answer(rt.alloc(), text, &KEPT, &mut MemFiles::new(&[]));
        is_said(&rt, found, wanted, text, 0);
    }
}

// Nine hash nodes with six algorithms.
const NINE: &str = "/dts-v1/; / { images { a { data = /incbin/(\"f\");
hash { algo = \"sha256\"; }; hash { algo = \"crc32\"; }; hash { algo = \"md5\"; };
hash { algo = \"sha1\"; }; hash { algo = \"md5\"; }; hash { algo = \"sha384\"; };
hash { algo = \"sha512\"; }; hash { algo = \"sha256\"; }; hash { algo = \"crc32\"; }; }; }; };";

// The same with its values for the numbers from 0 to 250, repeated to 20000 bytes: from zlib and
// coreutils.
const NINE_DONE: &str = "/dts-v1/; / { timestamp = <0>; images { a { data = /incbin/(\"f\");
hash { algo = \"sha256\";
value = [93a6015a3874a774dd59fdd5db19414b301525381eb5ddcc265cdcc68bb9d350]; };
hash { algo = \"crc32\"; value = [361fc6e7]; };
hash { algo = \"md5\"; value = [c968d3e881d1ec95343a421fe3e79a1a]; };
hash { algo = \"sha1\"; value = [7f21d0bec0ec41aea43854e5bb9e97951d383157]; };
hash { algo = \"md5\"; value = [c968d3e881d1ec95343a421fe3e79a1a]; };
hash { algo = \"sha384\"; value = [caadb600645ada82d1d9da7773f29bcf6dbd13da5731c545
1b1e4eeb37a52e5438a5ffd9f31786cb5710ab30fa0f3256]; };
hash { algo = \"sha512\"; value = [654c1b4f6ba606d0af75799531862053ef3a506733bf758fe5508c00b92eb6a4
c4fe61a993c1b60a8a836cbf19669a0ea02a602af3d63da9fbaaa2fc2d81b2f0]; };
hash { algo = \"sha256\";
value = [93a6015a3874a774dd59fdd5db19414b301525381eb5ddcc265cdcc68bb9d350]; };
hash { algo = \"crc32\"; value = [361fc6e7]; }; }; }; };";

// Fills over a fuse, then builds over the files themselves.
fn fused<F: Files + Drop, G: Files>(
    alloc: Global,
    named: &[(&[u8], &[u8])],
    files: F,
    calls: u64,
    whole: &mut G,
) -> (Result<(), Fault>, Vec<u8>) {
    let mut files = FuseFiles::new(files, 1, 0, calls);
    match filled(alloc, NINE, 0, named, &mut files) {
        Ok(tree) => built(alloc, &tree, "inside", whole),
        Err(fault) => (Err(fault), Vec::new(alloc)),
    }
}

// Returns the numbers from 0 to 250, repeated.
fn numbers(alloc: Global) -> Result<Vec<u8>, AllocError> {
    let mut content = Vec::from_elem(alloc, 0u8, 20000)?;
    for (number, byte) in content.as_mut_slice().iter_mut().enumerate() {
        *byte = (number % 251) as u8;
    }
    Ok(content)
}

// A file of three windows is opened once and read once for all hash nodes: one call for its size,
// three reads, and no fourth. A failed read ends it.
#[test]
fn one_pass_for_all_hashes(rt: HostRuntime) -> Result<(), Fail> {
    let alloc = rt.alloc();
    let content = numbers(alloc)?;
    let named: [(&[u8], &[u8]); 1] = [(b"f", &content)];
    let mut whole = MemFiles::new(&named);
    for calls in 0..4u64 {
        let (answer, _) = fused(alloc, &named, MemFiles::new(&named), calls, &mut whole);
        assert_eq!(rt;
            answer,
            Err(Fault::Fit(FitFault::ReadFailed)),
            "{calls} calls"
        );
    }
    let (answer, fit) = fused(alloc, &named, MemFiles::new(&named), 4, &mut whole);
    assert_eq!(rt; answer, Ok(()));
    let Ok(tree) = uimg_its::compile(alloc, NINE_DONE.as_bytes(), &mut whole) else {
        panic!(rt; "the source is refused");
    };
    let (answer, wanted) = built(alloc, &tree, "inside", &mut whole);
    assert_eq!(rt; answer, Ok(()));
    assert!(rt; fit.as_slice() == wanted.as_slice());
    Ok(())
}
