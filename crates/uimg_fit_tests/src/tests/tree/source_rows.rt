//! The trees of sources, and files that fail while sources are compiled.
use super::super::answers::is_said;
use super::bytes::unhex;
use super::refused_rows::answer;
use super::sources::{NAMED, source, tree_of};
use std::alloc::{AllocError, Global};
use std::test::Fail;
use uimg_base::{Files, FuseFiles, MemFiles};
use uimg_blob_writing::{Node, Prop, Tree, Value};
use uimg_its::compile;

// The value of the root's only property, and its bytes.
const VALUE_ROWS: [(&str, &str); 14] = [
    ("<>, [], \"\\0\"", "0000"),
    ("<0xffffffff 010>", "ffffffff00000008"),
    (
        "<0 00 0X1aB 4294967295>",
        "0000000000000000000001abffffffff",
    ),
    ("<037777777777>", "ffffffff"),
    ("<000000000000000000000001>", "00000001"),
    ("[00ff aB c0DE]", "00ffabc0de"),
    ("\"a\\\\\\\"\\n\\t\\r\\x41\\xfFz\"", "615c220a090d41ff7a00"),
    ("\"\\08\"", "003800"),
    (
        "\"a\nb // c /* d */\"",
        "610a62202f2f2063202f2a2064202a2f00",
    ),
    ("/incbin/(\"a\")", "616263"),
    ("/incbin/ ( \"\\x61\" )", "616263"),
    (
        "/incbin/(\"a\"), [01], /incbin/(\"abc.bin\")",
        "61626301616263",
    ),
    ("/* c */ < // d\n1 /**/ > /***/", "00000001"),
    ("\"\"", "00"),
];

// Checks that these bytes are the value of a root's only property.
fn is_value(tree: &Tree<Global>, bytes: &[u8]) -> bool {
    match tree.root.props.items() {
        [own] => match &own.value {
            Value::Bytes(list) => list.items() == bytes,
            Value::File { .. } => false,
        },
        _ => false,
    }
}

fn gives(alloc: Global, value: &str, bytes: &[u8]) -> Result<bool, AllocError> {
    let text = format!(in alloc; "/dts-v1/; / {{ v = {value}; }};")?;
    match tree_of(alloc, text.as_str()) {
        Some(tree) => Ok(is_value(&tree, bytes)),
        None => Ok(false),
    }
}

#[test]
fn value_rows(rt: HostRuntime) -> Result<(), Fail> {
    let alloc = rt.alloc();
    for (value, bytes) in &VALUE_ROWS {
        let bytes = unhex(alloc, bytes)?;
        assert!(rt; gives(alloc, value, &bytes)?, "{value}");
    }
    Ok(())
}

// Returns bytes as text, or `?`.
fn text_of(bytes: &[u8]) -> &str {
    str::from_utf8(bytes).unwrap_or("?")
}

// Returns a property in words: its name, and its bytes as text, or the file and its size.
fn told(alloc: Global, own: &Prop<Global>) -> Result<String, AllocError> {
    let name = text_of(own.name.items());
    match &own.value {
        Value::Bytes(list) => {
            let bytes = text_of(list.items());
            format!(in alloc; "{name}={bytes:?}")
        }
        Value::File { name: file, size } => {
            let file = text_of(file.items());
            format!(in alloc; "{name} in {file}, {size}")
        }
    }
}

// Returns a node's property in words or, after the last, the node's name and the numbers of its
// properties and children.
fn part(alloc: Global, node: &Node<Global>, number: usize) -> Result<String, AllocError> {
    let props = node.props.items();
    match props.get(number) {
        Some(own) => told(alloc, own),
        None => {
            let name = text_of(node.name.items());
            let count = props.len();
            let children = node.children.items().len();
            format!(in alloc; "{name}: {count}, {children}")
        }
    }
}

// Returns that part of the node at a path: a digit for each step down.
fn part_at(
    alloc: Global,
    tree: &Tree<Global>,
    path: &str,
    number: usize,
) -> Result<String, AllocError> {
    let mut node = &tree.root;
    for digit in path.bytes() {
        match node
            .children
            .items()
            .get(digit.saturating_sub(b'0') as usize)
        {
            Some(child) => node = child,
            None => return format!(in alloc; "no node"),
        }
    }
    part(alloc, node, number)
}

// A source, a path, the number of a property, and the part; 99 is the node itself.
const PART_ROWS: [(&str, &str, usize, &str); 20] = [
    ("mixed-values", "", 99, ": 2, 0"),
    ("mixed-values", "", 1, "e=\"\""),
    ("four-hash-fit", "", 99, ": 2, 2"),
    ("four-hash-fit", "0", 99, "images: 0, 1"),
    ("four-hash-fit", "1", 99, "configurations: 1, 1"),
    ("four-hash-fit", "00", 99, "kernel: 8, 4"),
    ("four-hash-fit", "00", 1, "data in abc.bin, 3"),
    ("four-hash-fit", "00", 6, "load=\"\\0\\u{8}\\0\\0\""),
    ("four-hash-fit", "003", 99, "hash-4: 1, 0"),
    ("four-hash-fit", "10", 99, "conf: 2, 0"),
    ("family", "0", 1, "data in abc.bin, 3"),
    ("family", "1", 99, "fdt: 2, 0"),
    ("file-values", "", 99, ": 7, 0"),
    ("file-values", "", 0, "data in abc.bin, 3"),
    ("file-values", "", 1, "data=\"abc\\0\""),
    ("file-values", "", 2, "data=\"\\0abc\""),
    ("file-values", "", 3, "data in abc.bin, 3"),
    ("file-values", "", 4, "datax=\"abc\""),
    ("file-values", "", 5, "data=\"abc.bin\\0\""),
    ("file-values", "", 6, "data=\"\""),
];

fn part_of_source(
    alloc: Global,
    text: &str,
    path: &str,
    number: usize,
) -> Result<String, AllocError> {
    match tree_of(alloc, text) {
        Some(tree) => part_at(alloc, &tree, path, number),
        None => format!(in alloc; "refused"),
    }
}

#[test]
fn part_rows(rt: HostRuntime) {
    for (text, path, number, wanted) in &PART_ROWS {
        let found = part_of_source(rt.alloc(), text, path, *number);
        is_said(&rt, found, wanted, text, *number as u64);
    }
}

// A file that stays a file, one of 8193 bytes that is read, and three that are opened in the order
// of the text.
const STAYS: &str = "/dts-v1/; / { data = /incbin/(\"abc.bin\"); };";

const BIG: &str = "/dts-v1/; / {\nv =\n/incbin/(\"big\"); };";

const THREE: &str = "/dts-v1/; / { a =
/incbin/(\"a\"); data =
/incbin/(\"a\"); b = [00],
/incbin/(\"a\"); };";

// A source, the first refused open, the open whose file has a fuse, how many calls that lets
// through, and the result. For a file that stays a file only its size is requested; for the one of
// 8193 bytes its size, and two windows.
const FILE_ROWS: [(&str, u64, u64, u64, &str); 19] = [
    ("stays", 9, 0, 1, "compiled"),
    ("stays", 9, 0, 0, "I6 read failed at line 1"),
    ("stays", 0, 0, 9, "I5 no file at line 1"),
    ("big", 9, 0, 0, "I6 read failed at line 3"),
    ("big", 9, 0, 1, "I6 read failed at line 3"),
    ("big", 9, 0, 2, "I6 read failed at line 3"),
    ("big", 9, 0, 3, "compiled"),
    ("big", 0, 0, 3, "I5 no file at line 3"),
    ("three", 0, 9, 0, "I5 no file at line 2"),
    ("three", 1, 9, 0, "I5 no file at line 3"),
    ("three", 2, 9, 0, "I5 no file at line 4"),
    ("three", 9, 0, 0, "I6 read failed at line 2"),
    ("three", 9, 1, 0, "I6 read failed at line 3"),
    ("three", 9, 2, 0, "I6 read failed at line 4"),
    ("three", 3, 9, 0, "compiled"),
    ("file-values", 9, 0, 1, "compiled"),
    ("four-hash-fit", 1, 0, 1, "compiled"),
    ("four-hash-fit", 0, 0, 1, "I5 no file at line 8"),
    ("four-hash-fit", 1, 0, 0, "I6 read failed at line 8"),
];

fn filed(name: &str) -> &str {
    match name {
        "stays" => STAYS,
        "big" => BIG,
        "three" => THREE,
        _ => source(name),
    }
}

fn fused<F: Files + Drop>(
    alloc: Global,
    text: &str,
    files: F,
    from: u64,
    turn: u64,
    calls: u64,
) -> Result<String, AllocError> {
    let mut files = FuseFiles::new(files, from, turn, calls);
    answer(alloc, text.as_bytes(), &mut files)
}

const BIG_FILE: [u8; 8193] = [7; 8193];

const FILES: [(&[u8], &[u8]); 3] = [(b"a", b"abc"), (b"abc.bin", b"abc"), (b"big", &BIG_FILE)];

#[test]
fn file_rows(rt: HostRuntime) {
    for (number, row) in FILE_ROWS.iter().enumerate() {
        let (name, from, turn, calls, wanted) = *row;
        let files = MemFiles::new(&FILES);
        let found = fused(rt.alloc(), filed(name), files, from, turn, calls);
        is_said(&rt, found, wanted, name, number as u64);
    }
}
