//! The time of a new image.
use std::env::Env;
use std::fs;
use std::process::Abort;
use std::rt::Files;
use std::test::Fail;
use uimg_tool::program;

// SOURCE_DATE_EPOCH, an empty text if not set; the clock's time; and the time in the header.
const ROWS: [(&str, u32, u32); 7] = [
    ("", 0, 0),
    ("", 7, 7),
    ("", 0x1234_5678, 0x1234_5678),
    ("", u32::MAX, u32::MAX),
    ("0", 9, 0),
    ("007", 9, 7),
    ("4294967295", 9, u32::MAX),
];

// Makes an image, and returns the exit status.
fn status_of<R: Files + Env + AllocGlobal>(rt: &R, epoch: &str, now: u32) -> u8 {
    let epoch = if epoch.is_empty() { None } else { Some(epoch) };
    let words = ["uimg", "mkimage", "-d", "times.bin", "times.img"];
    let mut out = Vec::new(rt.alloc());
    let mut err = Vec::new(rt.alloc());
    program(rt, &words, epoch, now, &mut out, &mut err)
}

fn has_time<R: Files + Env + AllocGlobal>(rt: &R, time: u32) -> bool {
    match fs::read(rt, "times.img") {
        Ok(image) => image.get(8..12) == Some(time.to_be_bytes().as_slice()),
        Err(_) => false,
    }
}

// SOURCE_DATE_EPOCH counts if it is set, else the clock.
#[test]
fn times(rt: HostRuntime) -> Result<(), Fail> {
    fs::write(&rt, "times.bin", "abc")?;
    for (epoch, now, time) in &ROWS {
        assert_eq!(rt; status_of(&rt, epoch, *now), 0, "{epoch} {now}");
        assert!(rt; has_time(&rt, *time), "{epoch} {now}");
    }
    fs::remove_file(&rt, "times.bin")?;
    fs::remove_file(&rt, "times.img")?;
    Ok(())
}
