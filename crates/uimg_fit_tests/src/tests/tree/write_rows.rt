//! Results and output of `write_tree` and `put_aligned` if files or the output fail.
use super::super::answers::is_said;
use super::bytes::unhex;
use super::sources::{FAMILY, NAMED, blob_of, tree_of};
use super::trees::in_file;
use std::alloc::{AllocError, Global};
use std::test::Fail;
use uimg_base::{Files, FuseFiles, FuseWriter, MemFiles, Out, WINDOW};
use uimg_blob_writing::{
    ByteList, Tree, TreeFault, Value, WORD_ALIGNMENT, copy_value, measure, put_aligned, value_size,
    write_tree,
};
use uimg_its::compile;

fn told(
    alloc: Global,
    answer: Result<(), TreeFault>,
    written: usize,
) -> Result<String, AllocError> {
    match answer {
        Ok(()) => format!(in alloc; "written, {written}"),
        Err(fault) => format!(in alloc; "{fault}, {written}"),
    }
}

// Writes a tree over files whose opens are refused from a number on. The first opened file lets
// `calls` calls through. Returns the result and the size, or nothing without layout or prefix.
fn fused<F: Files + Drop>(
    alloc: Global,
    tree: &Tree<Global>,
    whole: &[u8],
    files: F,
    from: u64,
    calls: u64,
) -> Result<String, AllocError> {
    let mut files = FuseFiles::new(files, from, 0, calls);
    let mut out = Out::new(Vec::new(alloc));
    let Ok(layout) = measure(alloc, tree) else {
        return format!(in alloc; "no layout");
    };
    let answer = write_tree(tree, &layout, &mut files, &mut out);
    let written = out.into_inner();
    if !whole.starts_with(&written) {
        return format!(in alloc; "no prefix");
    }
    told(alloc, answer, written.len())
}

// The stored size of the value, the size of the file when the tree is written, its name then, the
// first refused open, how many calls the file lets through, and the result. First the file's size
// is requested, then its bytes; 112 bytes come before them.
const FILE_ROWS: [(usize, usize, &str, u64, u64, &str); 13] = [
    (3, 3, "abc.bin", 1, 0, "read failed, 112"),
    (3, 3, "abc.bin", 1, 1, "read failed, 112"),
    (3, 3, "abc.bin", 1, 2, "written, 192"),
    (3, 3, "abc.bin", 0, 2, "no file, 112"),
    (3, 3, "other", 1, 2, "no file, 112"),
    (0, 3, "abc.bin", 1, 2, "read failed, 112"),
    (2, 3, "abc.bin", 1, 2, "read failed, 112"),
    (4, 3, "abc.bin", 1, 2, "read failed, 112"),
    (5000, 3, "abc.bin", 1, 2, "read failed, 112"),
    (8193, 8193, "abc.bin", 1, 0, "read failed, 112"),
    (8193, 8193, "abc.bin", 1, 1, "read failed, 112"),
    (8193, 8193, "abc.bin", 1, 2, "read failed, 8304"),
    (8193, 8193, "abc.bin", 1, 3, "written, 8384"),
];

const BYTES: [u8; 8193] = [0x5a; 8193];

// Returns the first `count` bytes of a file.
fn bytes(count: usize) -> &'static [u8] {
    BYTES.get(..count).unwrap_or(&[])
}

fn kept_as(
    alloc: Global,
    kept: &[(&[u8], &[u8])],
    held: &[(&[u8], &[u8])],
    from: u64,
    calls: u64,
) -> Result<String, AllocError> {
    let Ok(tree) = compile(alloc, FAMILY.as_bytes(), &mut MemFiles::new(kept)) else {
        return format!(in alloc; "refused");
    };
    let whole = blob_of(alloc, &tree, kept).unwrap_or(Vec::new(alloc));
    fused(alloc, &tree, &whole, MemFiles::new(held), from, calls)
}

#[test]
fn file_rows(rt: HostRuntime) {
    for (number, row) in FILE_ROWS.iter().enumerate() {
        let (kept, held, name, from, calls, wanted) = *row;
        let first: [(&[u8], &[u8]); 1] = [(b"abc.bin", bytes(kept))];
        let then: [(&[u8], &[u8]); 1] = [(name.as_bytes(), bytes(held))];
        let answer = kept_as(rt.alloc(), &first, &then, from, calls);
        is_said(&rt, answer, wanted, name, number as u64);
    }
}

fn leaves_prefix(alloc: Global, tree: &Tree<Global>, whole: &[u8], taken: usize) -> bool {
    let Ok(layout) = measure(alloc, tree) else {
        return false;
    };
    let mut out = Out::new(FuseWriter::new(Vec::new(alloc), taken as u64));
    let answer = write_tree(tree, &layout, &mut MemFiles::new(&NAMED), &mut out);
    let wanted = if taken < whole.len() {
        Err(TreeFault::Put)
    } else {
        Ok(())
    };
    let written = out.into_inner().into_inner();
    answer == wanted && written.len() == taken && whole.starts_with(&written)
}

// Returns how many writers, from one that accepts nothing to one that accepts everything, leave the
// right prefix of a source's blob of 192 bytes.
fn prefixes(alloc: Global, text: &str) -> usize {
    let Some(tree) = tree_of(alloc, text) else {
        return 0;
    };
    let whole = blob_of(alloc, &tree, &NAMED).unwrap_or(Vec::new(alloc));
    if whole.len() != 192 {
        return 0;
    }
    for taken in 0..193usize {
        if !leaves_prefix(alloc, &tree, &whole, taken) {
            return taken;
        }
    }
    193
}

#[test]
fn each_write_failing(rt: HostRuntime) {
    assert_eq!(rt; prefixes(rt.alloc(), "family"), 193);
}

fn put<F: Files + Drop>(
    alloc: Global,
    value: &Value<Global>,
    files: F,
    calls: u64,
    taken: u64,
) -> (Result<(), TreeFault>, Vec<u8>) {
    let mut files = FuseFiles::new(files, 1, 0, calls);
    let mut window = [0; WINDOW];
    let mut out = Out::new(FuseWriter::new(Vec::new(alloc), taken));
    let answer = put_aligned(value, WORD_ALIGNMENT, &mut files, &mut window, &mut out);
    (answer, out.into_inner().into_inner())
}

// A value, and how it is written: padded with zeros to a multiple of 4.
const PADDED_ROWS: [(&str, &str); 6] = [
    ("", ""),
    ("1", "31000000"),
    ("12", "31320000"),
    ("123", "31323300"),
    ("1234", "31323334"),
    ("12345", "3132333435000000"),
];

// Checks the size of a value, and how it is written.
fn is_written(alloc: Global, value: &Value<Global>, content: &[u8], wanted: &[u8]) -> bool {
    let named: [(&[u8], &[u8]); 1] = [(b"f", content)];
    let (answer, written) = put(alloc, value, MemFiles::new(&named), 9, 9);
    answer.is_ok() && written.as_slice() == wanted && value_size(value) == content.len() as u64
}

// Checks the same for a value and its copy.
fn are_written(alloc: Global, value: &Value<Global>, content: &[u8], wanted: &[u8]) -> bool {
    match copy_value(alloc, value) {
        Ok(copy) => {
            is_written(alloc, value, content, wanted) && is_written(alloc, &copy, content, wanted)
        }
        Err(_) => false,
    }
}

fn in_memory(alloc: Global, content: &[u8]) -> Result<Value<Global>, AllocError> {
    let bytes = Vec::from_slice(alloc, content)?;
    Ok(Value::Bytes(ByteList::of(bytes)))
}

// Checks how a content is written, from memory and from a file.
fn is_padded(alloc: Global, content: &[u8], wanted: &[u8]) -> bool {
    match (
        in_memory(alloc, content),
        in_file(alloc, content.len() as u64),
    ) {
        (Ok(one), Ok(other)) => {
            are_written(alloc, &one, content, wanted) && are_written(alloc, &other, content, wanted)
        }
        _ => false,
    }
}

#[test]
fn padded_values(rt: HostRuntime) -> Result<(), Fail> {
    for (content, wanted) in &PADDED_ROWS {
        let wanted = unhex(rt.alloc(), wanted)?;
        assert!(rt;
            is_padded(rt.alloc(), content.as_bytes(), &wanted),
            "{content}"
        );
    }
    Ok(())
}

// The bytes of the file `f`, how many calls it lets through, how many bytes the output accepts, and
// the result for a value of five bytes in it. A file of another size leaves nothing.
const VALUE_ROWS: [(&str, u64, u64, &str); 14] = [
    ("12345", 2, 8, "written, 8"),
    ("1234", 2, 8, "read failed, 0"),
    ("123456", 2, 8, "read failed, 0"),
    ("12345", 1, 8, "read failed, 0"),
    ("12345", 0, 8, "read failed, 0"),
    ("none", 2, 8, "no file, 0"),
    ("12345", 2, 0, "write failed, 0"),
    ("12345", 2, 1, "write failed, 1"),
    ("12345", 2, 2, "write failed, 2"),
    ("12345", 2, 3, "write failed, 3"),
    ("12345", 2, 4, "write failed, 4"),
    ("12345", 2, 5, "write failed, 5"),
    ("12345", 2, 6, "write failed, 6"),
    ("12345", 2, 7, "write failed, 7"),
];

fn put_in_words(
    alloc: Global,
    named: &[(&[u8], &[u8])],
    calls: u64,
    taken: u64,
) -> Result<String, AllocError> {
    let value = in_file(alloc, 5)?;
    let (answer, written) = put(alloc, &value, MemFiles::new(named), calls, taken);
    if b"12345\0\0\0".starts_with(&written) {
        told(alloc, answer, written.len())
    } else {
        format!(in alloc; "no prefix")
    }
}

#[test]
fn value_rows(rt: HostRuntime) {
    for (content, calls, taken, wanted) in &VALUE_ROWS {
        let name = if *content == "none" { "g" } else { "f" };
        let named: [(&[u8], &[u8]); 1] = [(name.as_bytes(), content.as_bytes())];
        let answer = put_in_words(rt.alloc(), &named, *calls, *taken);
        is_said(&rt, answer, wanted, content, *taken);
    }
}
