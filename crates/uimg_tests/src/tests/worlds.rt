//! A world of files in memory, and commands over it.

use super::runs::shown;
use std::io::{ErrorKind, Read, Write};
use std::test::Fail;
use uimg_base::Source;
use uimg_base_tests::samples::legacy::ABC_KERNEL;
use uimg_fit_tests::samples::{four_hash_fit, set_cell};
use uimg_tool::{CommandLine, Complaints, Tool, answer_in_memory, run_as_tool};
use uimg_world::{Kind, MemoryWorld, World};

const FILES: [(&[u8], &[u8]); 3] = [(b"a", b"abc"), (b"a", b"def"), (b"b/c", b"ghi")];

// A path, and the three bytes of the file there: an empty text without a file.
const ROWS: [(&str, &str); 4] = [("a", "abc"), ("b/c", "ghi"), ("b", ""), ("", "")];

fn opens_as(world: &mut MemoryWorld<'_>, path: &str, text: &str) -> bool {
    let mut bytes = [0; 3];
    match world.open(path) {
        Ok(mut source) => {
            source.size() == Ok(3)
                && source.fill_at(0, &mut bytes).is_ok()
                && bytes.as_slice() == text.as_bytes()
        }
        Err(_) => text.is_empty(),
    }
}

fn reads_as(world: &mut MemoryWorld<'_>, path: &str, text: &str) -> bool {
    let mut bytes = [0; 4];
    match world.read(path) {
        Ok(mut file) => { matches!(file.read(&mut bytes), Ok(3)) && &bytes[..3] == text.as_bytes() }
        Err(_) => text.is_empty(),
    }
}

#[test]
fn files_in_memory(rt: HostRuntime) -> Result<(), Fail> {
    let mut world = MemoryWorld::new(rt.alloc(), &FILES);
    for (path, text) in &ROWS {
        assert!(rt; opens_as(&mut world, path, text), "{path}: opened");
        assert!(rt; reads_as(&mut world, path, text), "{path}: read");
    }
    assert!(rt; world.create("a").is_ok());
    assert!(rt; world.remove_file("a").is_err());
    assert!(rt; opens_as(&mut world, "a", "abc"));
    Ok(())
}

// Calls on new files, in order, and their answers: `ok`, `exists` or `fails`. The files above
// exist, too.
const CALLS: [(&str, &str, &str, &str); 20] = [
    ("create", "new", "", "ok"),
    ("create", "new", "", "exists"),
    ("create", "a", "", "exists"),
    ("link", "none", "other", "fails"),
    ("link", "new", "a", "exists"),
    ("link", "new", "other", "ok"),
    ("link", "new", "other", "exists"),
    ("rename", "other", "a", "fails"),
    ("rename", "other", "moved", "ok"),
    ("remove", "other", "", "fails"),
    ("folder", "made", "", "ok"),
    ("folder", "made", "", "exists"),
    ("folder", "a", "", "exists"),
    ("create", "made/x", "", "ok"),
    ("remove folder", "made", "", "fails"),
    ("remove", "made/x", "", "ok"),
    ("remove", "made", "", "fails"),
    ("remove folder", "made", "", "ok"),
    ("remove folder", "made", "", "fails"),
    ("remove", "a", "", "fails"),
];

// Makes a call, which closes a file with the bytes `abc` if it created one. Returns the answer.
fn answer(world: &mut MemoryWorld<'_>, call: &str, path: &str, other: &str) -> &'static str {
    let done = match call {
        "create" => world.create_new(path).and_then(|mut file| {
            file.write_all(b"abc")?;
            world.close(path, file, true)
        }),
        "link" => world.hard_link(path, other),
        "rename" => world.rename(path, other),
        "remove" => world.remove_file(path),
        "folder" => world.create_dir(path),
        _ => world.remove_dir(path),
    };
    match done {
        Ok(()) => "ok",
        Err(error) if error.kind() == ErrorKind::AlreadyExists => "exists",
        Err(_) => "fails",
    }
}

#[test]
fn new_files_in_memory(rt: HostRuntime) -> Result<(), Fail> {
    let mut world = MemoryWorld::new(rt.alloc(), &FILES);
    for (call, path, other, expected) in &CALLS {
        let answered = answer(&mut world, call, path, other);
        assert!(rt; answered == *expected, "{call} {path} {other}: {answered}");
    }
    assert!(rt; world.kind_at("moved") == Kind::File);
    assert!(rt; world.kind_at("made") == Kind::Nothing);
    assert!(rt; world.open("new").is_err());
    assert!(rt; world.read_dir("made").is_err());
    let made = world.into_new_files();
    assert!(rt; made.bytes_at("new") == Some(b"abc".as_slice()));
    assert!(rt; made.bytes_at("moved") == Some(b"abc".as_slice()));
    assert!(rt; made.bytes_at("a").is_none());
    assert!(rt; made.bytes_at("made/x").is_none());
    Ok(())
}

const IMAGES: [(&[u8], &[u8]); 3] = [
    (b"abc", &ABC_KERNEL),
    (b"data", b"abc"),
    (b"list", b"abc\ndata\n"),
];

const MAKES: &str = "uimg mkimage -A arm64 -O linux -T kernel -C none -a 80000 -n demo -d data new";

const LISTING: &str = "Image Name:   demo
Created:      Tue Nov 14 22:13:20 2023
Image Type:   AArch64 Linux Kernel Image (uncompressed)
Data Size:    3 Bytes = 0.00 KiB = 0.00 MiB
Load Address: 00080000
Entry Point:  00080000
";

// A command line over these files, the exit status, standard output, and standard error.
const COMMANDS: [(&str, u8, &str, &str); 12] = [
    ("uimg verify abc", 0, "header crc32 ok\ndata crc32 ok\n", ""),
    ("uimg verify data", 1, "", "uimg: L1 too short\n"),
    ("uimg verify none", 3, "", "uimg: cannot read none\n"),
    ("uimg check", 2, "", "uimg: no image\n"),
    (
        "uimg check --files-from list",
        1,
        "abc: ok 2 checksums\ndata: refused L1 too short\n",
        "",
    ),
    (
        "uimg check --recursive abc data",
        1,
        "abc: ok 2 checksums\ndata: refused L1 too short\n",
        "",
    ),
    ("uimg diff abc abc", 0, "", ""),
    ("uimg diff abc data", 1, "", "uimg: data: L1 too short\n"),
    (MAKES, 0, LISTING, ""),
    (
        "uimg mkimage -f data new",
        1,
        "",
        "uimg: I2 bad syntax at line 1\n",
    ),
    ("uimg dumpimage -o new abc", 0, "", ""),
    ("uimg dumpimage -o new data", 1, "", "uimg: L1 too short\n"),
];

#[test]
fn commands_over_files_in_memory(rt: HostRuntime) -> Result<(), Fail> {
    for (line, status, printed, told) in &COMMANDS {
        let mut words = Vec::new(rt.alloc());
        for word in line.split(' ') {
            words.push(word)?;
        }
        let mut err = Vec::new(rt.alloc());
        let answered = answer_in_memory(rt.alloc(), &words, None, 1700000000, &IMAGES, &mut err);
        assert!(rt; answered.status == *status, "{line}: {}", answered.status);
        assert!(rt;
            shown(&answered.printed) == *printed,
            "{line}: {}",
            shown(&answered.printed)
        );
        assert!(rt; shown(&err) == *told, "{line}: {}", shown(&err));
    }
    Ok(())
}

// A command line that unpacks, the exit status, a path, and the bytes of the new file there: an empty
// text if there is none.
const UNPACKS: [(&str, u8, &str, &str); 8] = [
    ("uimg unpack -C out fit", 0, "out/kernel", "abc"),
    (
        "uimg unpack -C out --need sha256 fit",
        0,
        "out/kernel",
        "abc",
    ),
    ("uimg unpack -C out fit", 0, "out/.uimg-new1/new-0", ""),
    (
        "uimg unpack -C out --only kernel fit",
        0,
        "out/kernel",
        "abc",
    ),
    ("uimg unpack -C out bad", 1, "out/kernel", ""),
    ("uimg unpack -C out abc", 0, "out/image-0", "abc"),
    ("uimg unpack -C out data", 1, "out/image-0", ""),
    ("uimg unpack -C out none", 3, "out/image-0", ""),
];

#[test]
fn images_unpacked_in_memory(rt: HostRuntime) -> Result<(), Fail> {
    let fit = four_hash_fit(rt.alloc())?;
    let mut bad = four_hash_fit(rt.alloc())?;
    set_cell(&mut bad, 168, 0);
    let files: [(&[u8], &[u8]); 4] = [
        (b"abc", &ABC_KERNEL),
        (b"data", b"abc"),
        (b"fit", &fit),
        (b"bad", &bad),
    ];
    for (line, status, path, bytes) in &UNPACKS {
        let mut words = Vec::new(rt.alloc());
        for word in line.split(' ') {
            words.push(word)?;
        }
        let mut err = Vec::new(rt.alloc());
        let answered = answer_in_memory(rt.alloc(), &words, None, 1700000000, &files, &mut err);
        assert!(rt; answered.status == *status, "{line}: {}", answered.status);
        let found = answered.new_files.bytes_at(path).unwrap_or(b"");
        assert!(rt; found == bytes.as_bytes(), "{line}: {path}");
    }
    Ok(())
}

#[test]
fn picture_in_memory(rt: HostRuntime) -> Result<(), Fail> {
    let words = ["uimg", "map", "--svg", "drawn", "abc"];
    let mut err = Vec::new(rt.alloc());
    let answered = answer_in_memory(rt.alloc(), &words, None, 0, &IMAGES, &mut err);
    let drawn = answered.new_files.bytes_at("drawn").unwrap_or(b"");
    assert_eq!(rt; answered.status, 0);
    assert!(rt; drawn.starts_with(b"<?xml ") && drawn.ends_with(b"</svg>\n"));
    Ok(())
}

// A command line by the old names over files in memory, the exit status, standard output, and standard
// error.
const OLD_COMMANDS: [(&str, u8, &str, &str); 3] = [
    (
        "mkimage -A arm64 -O linux -T kernel -C none -a 80000 -n demo -d data new",
        0,
        LISTING,
        "",
    ),
    ("mkimage -l data", 1, "", "mkimage: data: L1 too short\n"),
    (
        "dumpimage -V",
        0,
        "dumpimage version 2023.01\n",
        "uimg 0.1.0\n",
    ),
];

#[test]
fn old_commands_over_files_in_memory(rt: HostRuntime) -> Result<(), Fail> {
    for (text, status, printed, told) in &OLD_COMMANDS {
        let mut words = Vec::new(rt.alloc());
        for word in text.split(' ') {
            words.push(word)?;
        }
        let line = CommandLine {
            words: &words,
            epoch: None,
            time: 1700000000,
        };
        let tool = Tool::of_words(&words).unwrap_or(Tool::Mkimage);
        let mut world = MemoryWorld::new(rt.alloc(), &IMAGES);
        let mut err = Vec::new(rt.alloc());
        let complaints = &mut Complaints::new(words[0], &mut err);
        let (ended, out) = run_as_tool(&mut world, tool, line, Vec::new(rt.alloc()), complaints);
        let out = out.unwrap_or(Vec::new(rt.alloc()));
        assert!(rt; ended == *status, "{text}: {ended}");
        assert!(rt; shown(&out) == *printed, "{text}: {}", shown(&out));
        assert!(rt; shown(&err) == *told, "{text}: {}", shown(&err));
    }
    Ok(())
}
