//! Shelves in memory and on disk.

use super::steps::{cut, file_step, plays_file, plays_source, spell};
use linked_list_allocator::LocalHeap;
use std::io::{ErrorKind, Write};
use std::process::Abort;
use std::rt::Files;
use std::test::Fail;
use uimg_base::{FileShelf, MemShelf, Shelf};

// Shelves in files: the name, the path, the steps before the end of writing, whether it was kept,
// and the steps after that.
const FILE_SHELVES: [(&str, &str, &str, bool, &str); 12] = [
    (
        "a file is made by the first write",
        "shelf_first.bin",
        "flush|missing|put ab|there|put cde|flush|holds abcde",
        true,
        "size 5|asked 0|read 0 abcde|read 1 bc|asked 7|remove",
    ),
    (
        "an old file is emptied by the first write",
        "shelf_old.bin",
        "write a longer file than the new one|holds a longer file than the new one|put new|put  one",
        true,
        "size 7|read 0 new one|remove",
    ),
    (
        "a write of no bytes makes an empty file",
        "shelf_empty.bin",
        "take ",
        true,
        "size 0|read 0 |holds |remove",
    ),
    (
        "a file in no folder cannot be made",
        "shelf_no/folder",
        "refuse a|refuse ",
        false,
        "missing",
    ),
    (
        "a folder cannot be made",
        ".",
        "refuse a|refuse ",
        false,
        "",
    ),
    ("no path cannot be made", "", "refuse a|refuse ", false, ""),
    (
        "no folder was made",
        "shelf_no",
        "missing",
        false,
        "missing",
    ),
    (
        "large writes go straight to the file",
        "shelf_large.bin",
        "put head|holds |put a*8192|holds heada*8192|put tail",
        true,
        "size 8200|read 2 adaa|read 8194 aatail|remove",
    ),
    (
        "a full device is told by the flush",
        "/dev/full",
        "put abc|stick",
        false,
        "",
    ),
    (
        "a shelf without a write makes no file",
        "shelf_unwritten.bin",
        "missing",
        false,
        "missing",
    ),
    (
        "a shelf without a write keeps an old file",
        "shelf_untouched.bin",
        "write old",
        false,
        "holds old|remove",
    ),
    (
        "a file that was removed is not kept",
        "shelf_removed.bin",
        "put abc|remove",
        false,
        "missing",
    ),
];

// Shelves in memory: the name, the size of the heap in bytes, the steps before the end of writing,
// and those after it.
const MEMORY_SHELVES: [(&str, usize, &str, &str); 4] = [
    (
        "what was written in pieces is kept",
        4096,
        "take ab|take |flush|put cde",
        "asked 0|read 0 abcde|asked 5|failures 0",
    ),
    (
        "what is kept is read at any place",
        4096,
        "put abc|put |put de",
        "size 5|read 0 ab|read 2 cd|read 3 de|read 5 ",
    ),
    ("no write keeps no byte", 4096, "", "size 0|read 0 "),
    (
        "a refused growth leaves what was written",
        1024,
        "put a*600|starve b*600|starve b*600",
        "size 600|read 0 a*600",
    ),
];

// Returns how a write ends: 0 all accepted, 1 fewer accepted, 2 out of memory, 3 another error.
fn written<W: Write>(writer: &mut W, bytes: &[u8]) -> u8 {
    match writer.write(bytes) {
        Ok(count) => (count != bytes.len()) as u8,
        Err(error) if error.kind() == ErrorKind::OutOfMemory => 2,
        Err(_) => 3,
    }
}

fn shelf_step<R: Files + AllocGlobal, H: Shelf>(
    rt: &R,
    path: &str,
    shelf: &mut H,
    step: &str,
) -> bool {
    let (word, rest) = cut(step);
    let mut buffer = [0; 20000];
    let bytes = buffer_of(rest, &mut buffer);
    match word {
        "take" => written(shelf, bytes) == 0,
        "put" => shelf.write_all(bytes).is_ok(),
        "refuse" => written(shelf, bytes) >= 2,
        "starve" => written(shelf, bytes) == 2,
        "flush" => shelf.flush().is_ok(),
        "stick" => shelf.flush().is_err(),
        _ => file_step(rt, path, step),
    }
}

fn buffer_of<'a>(text: &str, buffer: &'a mut [u8; 20000]) -> &'a [u8] {
    let count = spell(text, buffer);
    buffer.get(..count).unwrap_or(b"")
}

fn plays_writing<R: Files + AllocGlobal + Abort, H: Shelf>(
    rt: &R,
    name: &str,
    path: &str,
    shelf: &mut H,
    script: &str,
) {
    for step in script.split('|') {
        assert!(rt; shelf_step(rt, path, shelf, step), "{name}: {step}");
    }
}

// Plays the steps after the end of writing. Returns whether the shelf was kept.
fn plays_kept<R: Files + AllocGlobal + Abort, H: Shelf>(
    rt: &R,
    name: &str,
    path: &str,
    shelf: H,
    script: &str,
) -> bool {
    match shelf.keep() {
        Ok(mut kept) => {
            plays_source(rt, name, path, &mut kept, script);
            true
        }
        Err(_) => {
            plays_file(rt, name, path, script);
            false
        }
    }
}

// Returns whether the shelf was kept.
fn plays_shelf<R: Files + AllocGlobal + Abort, H: Shelf>(
    rt: &R,
    name: &str,
    path: &str,
    mut shelf: H,
    scripts: (&str, &str),
) -> bool {
    plays_writing(rt, name, path, &mut shelf, scripts.0);
    plays_kept(rt, name, path, shelf, scripts.1)
}

#[test]
fn shelves_that_are_files(rt: HostRuntime) {
    for (name, path, before, kept, after) in &FILE_SHELVES {
        let shelf = FileShelf::new(&rt, path);
        let is_kept = plays_shelf(&rt, name, path, shelf, (before, after));
        assert!(rt; is_kept == *kept, "{name}");
    }
}

#[test]
fn shelves_in_memory(rt: HostRuntime) -> Result<(), Fail> {
    for (name, bytes, before, after) in &MEMORY_SHELVES {
        let heap = LocalHeap::new(rt.alloc(), *bytes)?;
        let is_kept = plays_shelf(&rt, name, "", MemShelf::new(&heap), (before, after));
        assert!(rt; is_kept, "{name}");
    }
    Ok(())
}
