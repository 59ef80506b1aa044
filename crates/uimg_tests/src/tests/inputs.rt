//! Standard input as an image, over a system each of whose calls fails in turn.

use super::runs::shown;
use std::alloc::{Alloc, Allocator, Global};
use std::cell::Cell;
use std::env::{Env, FillError};
use std::fs::{Metadata, OpenFile, OpenOptions};
use std::io;
use std::io::{ErrorKind, Read, Seek, SeekFrom, Write};
use std::path::PathBuf;
use std::rt::Files;
use std::test::Fail;
use uimg_base::Source;
use uimg_base_tests::samples::legacy::ABC_KERNEL;
use uimg_tool::answer_in_memory;
use uimg_world::{DiskWorld, World};

/// How many calls succeed before the one that fails.
#[derive(Drop)]
struct Calls {
    left: Cell<u64>,
}

impl Calls {
    fn next(&self) -> io::Result<()> {
        match self.left.get().checked_sub(1) {
            Some(left) => {
                self.left.set(left);
                Ok(())
            }
            None => {
                self.left.set(u64::MAX);
                Err(io::Error::from_raw_os_error(5))
            }
        }
    }
}

/// A file in memory.
#[derive(Drop)]
struct Held<'a> {
    calls: &'a Calls,
    bytes: Vec<u8>,
    at: usize,
}

impl<'a> Read for Held<'a> {
    fn read(&mut self, buf: &mut [u8]) -> io::Result<usize> {
        self.calls.next()?;
        let rest = &self.bytes[self.at.min(self.bytes.len())..];
        let count = rest.len().min(buf.len());
        buf[..count].copy_from_slice(&rest[..count]);
        self.at = self.at.saturating_add(count);
        Ok(count)
    }
}

impl<'a> Write for Held<'a> {
    fn write(&mut self, buf: &[u8]) -> io::Result<usize> {
        self.calls.next()?;
        self.bytes.extend_from_slice(buf)?;
        Ok(buf.len())
    }

    fn flush(&mut self) -> io::Result<()> {
        Ok(())
    }
}

impl<'a> Seek for Held<'a> {
    fn seek(&mut self, to: SeekFrom) -> io::Result<u64> {
        self.calls.next()?;
        self.at = match to {
            SeekFrom::Start(at) => at as usize,
            _ => self.bytes.len(),
        };
        Ok(self.at as u64)
    }
}

impl<'a> OpenFile for Held<'a> {
    fn metadata(&self) -> io::Result<Metadata> {
        Err(unsupported())
    }

    fn set_len(&self, _size: u64) -> io::Result<()> {
        Err(unsupported())
    }

    fn sync_all(&self) -> io::Result<()> {
        Err(unsupported())
    }

    fn sync_data(&self) -> io::Result<()> {
        Err(unsupported())
    }
}

fn unsupported() -> io::Error {
    io::Error::from(ErrorKind::Unsupported)
}

/// A system with standard input, and new files.
#[derive(Drop)]
struct System<'a> {
    alloc: Global,
    calls: &'a Calls,
    input: &'a [u8],
    // The names that exist.
    names: Cell<u64>,
}

impl<'a> Alloc for System<'a> {
    type A = Global;

    fn alloc(&self) -> Global {
        self.alloc
    }
}

impl<'a> Env for System<'a> {
    fn arg(&self, _i: usize, _buf: &mut [u8]) -> Result<usize, FillError> {
        Err(FillError::NotPresent)
    }

    fn var(&self, _name: &str, _buf: &mut [u8]) -> Result<usize, FillError> {
        Err(FillError::NotPresent)
    }

    fn var_at(&self, _i: usize, _buf: &mut [u8]) -> Result<usize, FillError> {
        Err(FillError::NotPresent)
    }
}

impl<'a> Files for System<'a> {
    type File = Held<'a>;

    type Dir = Held<'a>;

    fn open_file(&self, how: &OpenOptions, path: &str) -> io::Result<Held<'a>> {
        self.calls.next()?;
        let mut bytes = Vec::new(self.alloc);
        if path == "/dev/stdin" {
            bytes.extend_from_slice(self.input)?;
        } else if how.asks_create_new() && path == "out/.uimg-new1" {
            self.names.set(self.names.get().saturating_add(1));
        } else {
            return Err(unsupported());
        }
        Ok(Held {
            calls: self.calls,
            bytes,
            at: 0,
        })
    }

    fn open_dir(&self, _path: &str) -> io::Result<Held<'a>> {
        Err(unsupported())
    }

    fn metadata(&self, _path: &str) -> io::Result<Metadata> {
        Err(unsupported())
    }

    fn symlink_metadata(&self, _path: &str) -> io::Result<Metadata> {
        Err(unsupported())
    }

    fn copy(&self, _from: &str, _to: &str) -> io::Result<u64> {
        Err(unsupported())
    }

    fn rename(&self, _from: &str, _to: &str) -> io::Result<()> {
        Err(unsupported())
    }

    fn remove_file(&self, _path: &str) -> io::Result<()> {
        self.calls.next()?;
        self.names.set(self.names.get().saturating_sub(1));
        Ok(())
    }

    fn create_dir(&self, _path: &str) -> io::Result<()> {
        Err(unsupported())
    }

    fn remove_dir(&self, _path: &str) -> io::Result<()> {
        Err(unsupported())
    }

    fn remove_dir_all<B: Allocator>(&self, _alloc: B, _path: &str) -> io::Result<()> {
        Err(unsupported())
    }

    fn canonicalize<B: Allocator>(&self, _alloc: B, _path: &str) -> io::Result<PathBuf<B>> {
        Err(unsupported())
    }
}

// The call that fails, what it does, and why there is no image then: an empty text if there is one. Of
// three bytes, two or more are allowed.
const ROWS: [(u64, u64, &str, &str); 9] = [
    (0, 3, "open", "Input/output error (os error 5)"),
    (
        1,
        3,
        "create",
        "its copy in the folder: Input/output error (os error 5)",
    ),
    (
        2,
        3,
        "remove",
        "its copy in the folder: Input/output error (os error 5)",
    ),
    (3, 3, "read", "Input/output error (os error 5)"),
    (
        4,
        3,
        "write",
        "its copy in the folder: Input/output error (os error 5)",
    ),
    (5, 3, "end", "Input/output error (os error 5)"),
    (6, 3, "seek", "its copy in the folder: other error"),
    (7, 3, "none", ""),
    (7, 2, "none", "more than 2 bytes; see --max-input"),
];

#[test]
fn each_call_for_standard_input_fails(rt: HostRuntime) -> Result<(), Fail> {
    for (number, most, call, expected) in &ROWS {
        let calls = Calls {
            left: Cell::new(*number),
        };
        let system = System {
            alloc: rt.alloc(),
            calls: &calls,
            input: b"abc",
            names: Cell::new(0),
        };
        let mut world = DiskWorld::new(&system);
        let opened = world.open_input("-", Some("out"), *most);
        assert!(rt; opened.is_ok() == expected.is_empty(), "{call}: opened");
        match opened {
            Ok(mut source) => {
                calls.left.set(u64::MAX);
                let mut bytes = [0; 3];
                assert!(rt;
                    source.fill_at(0, &mut bytes).is_ok() && &bytes == b"abc",
                    "{call}: read"
                );
            }
            Err(_) => {
                let told = match world.reason_unread("-") {
                    Some(reason) => format!(in rt.alloc(); "{reason}")?,
                    None => String::new(rt.alloc()),
                };
                assert!(rt; told.as_str() == *expected, "{call}: {told}");
            }
        }
        let stays = *call == "remove";
        assert!(rt; system.names.get() == stays as u64, "{call}: names");
    }
    Ok(())
}

const IMAGES: [(&[u8], &[u8]); 2] = [(b"-", &ABC_KERNEL), (b"list", b"-\n")];

// A command line over these files, the exit status, standard output, and standard error.
const COMMANDS: [(&str, u8, &str, &str); 5] = [
    ("uimg check -", 0, "-: ok 2 checksums\n", ""),
    ("uimg check --recursive -", 0, "-: ok 2 checksums\n", ""),
    ("uimg check --max-input 67 -", 0, "-: ok 2 checksums\n", ""),
    (
        "uimg map --max-input 66 -",
        3,
        "",
        "uimg: cannot read -: it can be opened now\n",
    ),
    (
        "uimg check - -",
        2,
        "",
        "uimg: - is given twice, but standard input is read once\n",
    ),
];

#[test]
fn standard_input_in_memory(rt: HostRuntime) -> Result<(), Fail> {
    for (line, status, printed, told) in &COMMANDS {
        let mut words = Vec::new(rt.alloc());
        for word in line.split(' ') {
            words.push(word)?;
        }
        let mut err = Vec::new(rt.alloc());
        let answered = answer_in_memory(rt.alloc(), &words, None, 0, &IMAGES, &mut err);
        assert!(rt; answered.status == *status, "{line}: {}", answered.status);
        assert!(rt; shown(&answered.printed) == *printed, "{line}: printed");
        assert!(rt; shown(&err) == *told, "{line}: {}", shown(&err));
    }
    Ok(())
}
