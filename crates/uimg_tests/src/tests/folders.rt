//! The files of a folder, by their names.
use std::process::Abort;
use std::test::Fail;
use std::{fs, rt};
use uimg_base::{Files, Source};
use uimg_engine::DiskFiles;

// The folder, the name, and the three bytes of the opened file: an empty text if none is opened,
// `-` if they are not compared. A name with a leading slash is not looked for in the folder.
const ROWS: [(&str, &str, &str); 21] = [
    ("", "disk_folder/name", "abc"),
    (".", "disk_folder/name", "abc"),
    ("disk_folder", "name", "abc"),
    ("disk_folder/", "name", "abc"),
    ("disk_folder", "./name", "abc"),
    ("disk_folder", "../disk_name", "def"),
    ("", "disk_name", "def"),
    ("", "/dev/null", "-"),
    ("none", "/dev/null", "-"),
    ("/none", "/dev/null", "-"),
    ("/dev", "null", "-"),
    ("/", "dev/null", "-"),
    ("", "/none/null", ""),
    ("none", "/none/null", ""),
    ("/none", "/none/null", ""),
    ("", "", ""),
    ("", ".", ""),
    ("", "no/file", ""),
    ("", "disk_\0", ""),
    ("", "/", ""),
    ("none", "disk_name", ""),
];

// `-` if the source does not have three bytes.
fn text_of<'a, S: Source>(source: &mut S, bytes: &'a mut [u8; 3]) -> &'a [u8] {
    if source.size() == Ok(3) && source.fill_at(0, bytes).is_ok() {
        bytes
    } else {
        b"-"
    }
}

fn opens_as<R: rt::Files + AllocGlobal>(rt: &R, folder: &str, name: &str, text: &str) -> bool {
    match DiskFiles::new(rt, folder).open(name.as_bytes()) {
        Ok(mut source) => text_of(&mut source, &mut [0; 3]) == text.as_bytes(),
        Err(_) => text.is_empty(),
    }
}

#[test]
fn names_of_a_folder(rt: HostRuntime) -> Result<(), Fail> {
    fs::create_dir(&rt, "disk_folder")?;
    fs::write(&rt, "disk_folder/name", "abc")?;
    fs::write(&rt, "disk_name", "def")?;
    for (folder, name, text) in &ROWS {
        assert!(rt; opens_as(&rt, folder, name, text), "{folder}: {name}");
    }
    assert!(rt; DiskFiles::new(&rt, "").open(b"\xff").is_err());
    fs::remove_file(&rt, "disk_folder/name")?;
    fs::remove_file(&rt, "disk_name")?;
    fs::remove_dir(&rt, "disk_folder")?;
    Ok(())
}
