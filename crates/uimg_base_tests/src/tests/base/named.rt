//! Named files whose opens and reads may fail.

use super::steps::reads_at;
use uimg_base::{Files, FuseFiles, MemFiles, Source};

const MANY: [(&[u8], &[u8]); 7] = [
    (b"ab", b"two"),
    (b"a", b"first"),
    (b"", b"none"),
    (b"abc", b"three"),
    (b"A", b""),
    (b"b", b"other"),
    (b"a", b"last"),
];

const ONE: [(&[u8], &[u8]); 1] = [(b"ab", b"two")];

const LETTER: [(&[u8], &[u8]); 1] = [(b"a", b"bytes")];

// Which files exist (none, one or many), a name, and its bytes, or `refused`.
const NAMES: [(usize, &str, &str); 16] = [
    (2, "ab", "two"),
    (2, "a", "first"),
    (2, "", "none"),
    (2, "abc", "three"),
    (2, "A", ""),
    (2, "b", "other"),
    (2, "B", "refused"),
    (2, "first", "refused"),
    (1, "ab", "two"),
    (1, "", "refused"),
    (1, "a", "refused"),
    (1, "b", "refused"),
    (1, "abc", "refused"),
    (1, "AB", "refused"),
    (1, "two", "refused"),
    (0, "", "refused"),
];

// Opens through a fuse: the number of the first refused open, the number of the open whose source
// has a fuse, and how many calls that lets through. Then the names opened in order (only `a`
// exists), and for each how many of four calls its source answers, or `-` if the open is refused.
const OPENS: [(u64, u64, u64, &str, &str); 22] = [
    (0, 0, 1, "aaaaa", "-----"),
    (1, 0, 1, "aaaaa", "1----"),
    (2, 0, 1, "aaaaa", "14---"),
    (3, 0, 1, "abaab", "1-4--"),
    (2, 1, 0, "baa", "-0-"),
    (2, 0, 2, "aa", "24"),
    (3, 0, 0, "aaa", "044"),
    (3, 0, 1, "aaa", "144"),
    (3, 0, 2, "aaa", "244"),
    (3, 0, 3, "aaa", "344"),
    (3, 1, 0, "aaa", "404"),
    (3, 1, 1, "aaa", "414"),
    (3, 1, 2, "aaa", "424"),
    (3, 1, 3, "aaa", "434"),
    (3, 2, 0, "aaa", "440"),
    (3, 2, 1, "aaa", "441"),
    (3, 2, 2, "aaa", "442"),
    (3, 2, 3, "aaa", "443"),
    (3, 3, 0, "aaa", "444"),
    (3, 3, 1, "aaa", "444"),
    (3, 3, 2, "aaa", "444"),
    (3, 3, 3, "aaa", "444"),
];

fn holds<S: Source>(source: &mut S, text: &str) -> bool {
    let mut found = [0; 9];
    match found.get_mut(..text.len()) {
        Some(found) => {
            source.size() == Ok(text.len() as u64)
                && reads_at(source, 0, found)
                && *found == *text.as_bytes()
        }
        None => false,
    }
}

fn opens_as<F: Files + Drop>(mut files: F, name: &str, text: &str) -> bool {
    match files.open(name.as_bytes()) {
        Ok(mut source) => holds(&mut source, text),
        Err(_) => text == "refused",
    }
}

fn named_as(table: usize, name: &str, text: &str) -> bool {
    match table {
        0 => opens_as(MemFiles::new(&[]), name, text),
        1 => opens_as(MemFiles::new(&ONE), name, text),
        _ => opens_as(MemFiles::new(&MANY), name, text),
    }
}

#[test]
fn names_have_their_bytes(rt: HostRuntime) {
    for (table, name, text) in &NAMES {
        assert!(rt; named_as(*table, name, text), "{table}: {name}");
    }
}

// Returns, as a digit, how many of four calls a source answers; the others must be its failures.
fn answers<S: Source>(mut source: S) -> u8 {
    let mut count = 0u8;
    for _call in 0..4u64 {
        count = count.saturating_add(source.size().is_ok() as u8);
    }
    if source.failures() == 4 - u64::min(count as u64, 4) {
        b'0'.saturating_add(count)
    } else {
        b'?'
    }
}

fn opened<F: Files>(files: &mut F, name: u8) -> u8 {
    match files.open(&[name]) {
        Ok(source) => answers(source),
        Err(_) => b'-',
    }
}

fn opens<F: Files + Drop>(files: F, fuse: (u64, u64, u64), names: &str, wanted: &str) -> bool {
    let mut files = FuseFiles::new(files, fuse.0, fuse.1, fuse.2);
    let mut same = names.len() == wanted.len();
    for (name, digit) in names.bytes().zip(wanted.bytes()) {
        same = same && opened(&mut files, name) == digit;
    }
    same
}

#[test]
fn opens_behind_a_fuse(rt: HostRuntime) {
    for (from, turn, calls, names, wanted) in &OPENS {
        let fuse = (*from, *turn, *calls);
        assert!(rt;
            opens(MemFiles::new(&LETTER), fuse, names, wanted),
            "{from} {turn} {calls} {names}"
        );
    }
}

// A source stays readable when its name is opened again.
#[test]
fn a_name_is_opened_twice(rt: HostRuntime) {
    let mut files = FuseFiles::new(MemFiles::new(&ONE), 2, 0, 3);
    match (files.open(b"ab"), files.open(b"ab")) {
        (Ok(mut first), Ok(mut second)) => {
            assert!(rt; holds(&mut second, "two"));
            assert!(rt; holds(&mut first, "two"));
        }
        _ => assert!(rt; false),
    }
}
