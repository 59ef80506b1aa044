//! The program on streams that fail.
use super::images::image_named;
use super::runs::shown;
use std::env::Env;
use std::io::{ErrorKind, Write};
use std::process::Abort;
use std::rt::Files;
use std::test::Fail;
use std::{fs, io};
use uimg_tool::program;

/// A writer that takes a number of bytes in all, and a number in a call. It counts its calls, and
/// its flush succeeds or fails.
#[derive(Drop)]
pub(super) struct Meter {
    pub(super) taken: Vec<u8>,
    pub(super) calls: usize,
    pub(super) room: usize,
    pub(super) most: usize,
    pub(super) flushes: bool,
}

impl Write for Meter {
    fn write(&mut self, buf: &[u8]) -> io::Result<usize> {
        self.calls = self.calls.saturating_add(1);
        let count = buf.len().min(self.most).min(self.room);
        if count == 0 && !buf.is_empty() {
            return Err(io::Error::from(ErrorKind::Other));
        }
        self.room = self.room.saturating_sub(count);
        match self.taken.extend_from_slice(&buf[..count]) {
            Ok(()) => Ok(count),
            Err(_) => Err(io::Error::from(ErrorKind::OutOfMemory)),
        }
    }

    fn flush(&mut self) -> io::Result<()> {
        if self.flushes {
            Ok(())
        } else {
            Err(io::Error::from(ErrorKind::Other))
        }
    }
}

/// Returns a writer that takes `room` bytes, `most` in a call, and whose flush may fail.
pub(super) fn writer_of<R: AllocGlobal>(rt: &R, room: usize, most: usize, flushes: bool) -> Meter {
    Meter {
        taken: Vec::new(rt.alloc()),
        calls: 0,
        room,
        most,
        flushes,
    }
}

/// The arguments are those of a line. Returns the exit status.
pub(super) fn ran<R: Files + Env + AllocGlobal>(
    rt: &R,
    line: &str,
    out: &mut Meter,
    err: &mut Meter,
) -> u8 {
    let mut words = Vec::new(rt.alloc());
    for word in line.split(' ') {
        if words.push(word).is_err() {
            return u8::MAX;
        }
    }
    program(rt, &words, None, 0, out, err)
}

// The line, whose last word is the path of an image; the image; the bytes that standard output and
// standard error take; the exit status; and what they took.
const ROWS: [(&str, &str, usize, usize, u8, &str, &str); 9] = [
    (
        "uimg dumpimage -l s.img",
        "abc-kernel",
        20,
        100,
        3,
        "Image Name:   012345",
        "uimg: write failed\n",
    ),
    (
        "uimg dumpimage -l s.img",
        "abc-kernel",
        0,
        100,
        3,
        "",
        "uimg: write failed\n",
    ),
    (
        "uimg dumpimage -l s.img",
        "part-outside",
        20,
        100,
        3,
        "Image Name:   \nCreat",
        "uimg: write failed\n",
    ),
    (
        "uimg --version",
        "",
        4,
        100,
        3,
        "uimg",
        "uimg: write failed\n",
    ),
    ("uimg --version", "", 11, 100, 0, "uimg 0.1.0\n", ""),
    ("uimg verify none.img", "", 100, 0, 3, "", ""),
    ("uimg verify none.img", "", 100, 9, 3, "", "uimg: can"),
    ("uimg dumpimage none.img", "", 100, 0, 2, "", ""),
    (
        "uimg verify s.img",
        "abc-kernel",
        17,
        5,
        3,
        "header crc32 ok\nd",
        "uimg:",
    ),
];

// Returns whether the streams of a row take what it says, with its status.
fn takes<R: Files + Env + AllocGlobal>(
    rt: &R,
    row: (&str, &str, usize, usize, u8, &str, &str),
) -> bool {
    let (line, _, room, told, status, printed, fault) = row;
    let mut out = writer_of(rt, room, usize::MAX, true);
    let mut err = writer_of(rt, told, usize::MAX, true);
    let ended = ran(rt, line, &mut out, &mut err);
    ended == status && shown(&out.taken) == printed && shown(&err.taken) == fault
}

#[test]
fn streams_that_fail(rt: HostRuntime) -> Result<(), Fail> {
    for row in &ROWS {
        let (line, image, room, told, _, _, _) = *row;
        fs::write(&rt, "s.img", &image_named(rt.alloc(), image))?;
        assert!(rt; takes(&rt, *row), "{line} {room} {told}");
    }
    fs::remove_file(&rt, "s.img")?;
    Ok(())
}
