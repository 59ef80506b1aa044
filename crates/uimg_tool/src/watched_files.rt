//! Files of the system, and how far the reading of each is.

use crate::progress::Meter;
use std::alloc::{Alloc, Allocator, Global};
use std::env::{Env, FillError};
use std::fs::{Metadata, OpenFile, OpenOptions};
use std::io;
use std::io::{Read, Seek, SeekFrom, Write};
use std::path::PathBuf;
use std::rt::Files;
use std::time::Clock;

/// The least length of a file whose reading is shown: 4 MiB.
const LARGE: u64 = 4 << 20;

/// How many bytes are read between two looks at the clock: 1 MiB.
const STEP: u64 = 1 << 20;

/// A file that reports to a meter how many bytes of it were read.
#[derive(Drop)]
pub struct WatchedFile<'a, R: Files + Clock, V: Write + Copy> {
    file: R::File,
    meter: &'a Meter<'a, R, V>,
    length: u64,
    position: u64,
    // the position from which on the meter gets a report
    next: u64,
}

impl<'a, R: Files + Clock, V: Write + Copy> Read for WatchedFile<'a, R, V> {
    ghost remaining = { λ f. R.File.remaining f.file };

    fn read(&mut self, buf: &mut [u8]) -> io::Result<usize> {
        let count = self.file.read(buf)?;
        self.position = self.position.saturating_add(count as u64);
        if self.position >= self.next {
            self.next = self.position.saturating_add(STEP);
            self.meter.note(self.position, self.length);
        }
        Ok(count)
    }
}

impl<'a, R: Files + Clock, V: Write + Copy> Seek for WatchedFile<'a, R, V> {
    ghost stream_position = { λ f. R.File.stream_position f.file };

    ghost stream_bytes = { λ f. R.File.stream_bytes f.file };

    fn seek(&mut self, to: SeekFrom) -> io::Result<u64> {
        self.position = self.file.seek(to)?;
        if self.length >= LARGE {
            self.next = self.position.saturating_add(STEP);
        }
        Ok(self.position)
    }
}

impl<'a, R: Files + Clock, V: Write + Copy> Write for WatchedFile<'a, R, V> {
    ghost contents = { λ f. R.File.contents f.file };

    fn write(&mut self, buf: &[u8]) -> io::Result<usize> {
        self.file.write(buf)
    }

    fn flush(&mut self) -> io::Result<()> {
        self.file.flush()
    }
}

impl<'a, R: Files + Clock, V: Write + Copy> OpenFile for WatchedFile<'a, R, V> {
    fn metadata(&self) -> io::Result<Metadata> {
        self.file.metadata()
    }

    fn set_len(&self, size: u64) -> io::Result<()> {
        self.file.set_len(size)
    }

    fn sync_all(&self) -> io::Result<()> {
        self.file.sync_all()
    }

    fn sync_data(&self) -> io::Result<()> {
        self.file.sync_data()
    }

    fn try_clone(&self) -> io::Result<WatchedFile<'a, R, V>> {
        Ok(WatchedFile {
            file: self.file.try_clone()?,
            meter: self.meter,
            length: self.length,
            position: self.position,
            next: self.next,
        })
    }
}

/// The files of a runtime, watched by a meter.
#[derive(Drop)]
pub struct WatchedFiles<'a, R: Files + Clock, V: Write + Copy> {
    rt: &'a R,
    meter: &'a Meter<'a, R, V>,
}

impl<'a, R: Files + Clock, V: Write + Copy> WatchedFiles<'a, R, V> {
    /// Creates the files of a runtime, watched by `meter`.
    pub fn new(rt: &'a R, meter: &'a Meter<'a, R, V>) -> WatchedFiles<'a, R, V> {
        WatchedFiles { rt, meter }
    }
}

impl<'a, R: Files + Clock + Alloc<A = Global>, V: Write + Copy> Alloc for WatchedFiles<'a, R, V> {
    type A = Global;

    fn alloc(&self) -> Global {
        self.rt.alloc()
    }
}

impl<'a, R: Files + Clock + Env, V: Write + Copy> Env for WatchedFiles<'a, R, V> {
    fn arg(&self, i: usize, buf: &mut [u8]) -> Result<usize, FillError> {
        self.rt.arg(i, buf)
    }

    fn var(&self, name: &str, buf: &mut [u8]) -> Result<usize, FillError> {
        self.rt.var(name, buf)
    }

    fn var_at(&self, i: usize, buf: &mut [u8]) -> Result<usize, FillError> {
        self.rt.var_at(i, buf)
    }
}

impl<'a, R: Files + Clock, V: Write + Copy> Files for WatchedFiles<'a, R, V> {
    type File = WatchedFile<'a, R, V>;

    type Dir = R::Dir;

    fn open_file(&self, how: &OpenOptions, path: &str) -> io::Result<WatchedFile<'a, R, V>> {
        let file = self.rt.open_file(how, path)?;
        let length = if self.meter.is_shown() {
            file.metadata().map_or(0, |found| found.len())
        } else {
            0
        };
        Ok(WatchedFile {
            file,
            meter: self.meter,
            length,
            position: 0,
            next: if length >= LARGE { STEP } else { u64::MAX },
        })
    }

    fn open_dir(&self, path: &str) -> io::Result<R::Dir> {
        self.rt.open_dir(path)
    }

    fn metadata(&self, path: &str) -> io::Result<Metadata> {
        self.rt.metadata(path)
    }

    fn symlink_metadata(&self, path: &str) -> io::Result<Metadata> {
        self.rt.symlink_metadata(path)
    }

    fn copy(&self, from: &str, to: &str) -> io::Result<u64> {
        self.rt.copy(from, to)
    }

    fn rename(&self, from: &str, to: &str) -> io::Result<()> {
        self.rt.rename(from, to)
    }

    fn remove_file(&self, path: &str) -> io::Result<()> {
        self.rt.remove_file(path)
    }

    fn create_dir(&self, path: &str) -> io::Result<()> {
        self.rt.create_dir(path)
    }

    fn remove_dir(&self, path: &str) -> io::Result<()> {
        self.rt.remove_dir(path)
    }

    fn remove_dir_all<B: Allocator>(&self, alloc: B, path: &str) -> io::Result<()> {
        self.rt.remove_dir_all(alloc, path)
    }

    fn canonicalize<B: Allocator>(&self, alloc: B, path: &str) -> io::Result<PathBuf<B>> {
        self.rt.canonicalize(alloc, path)
    }

    fn hard_link(&self, original: &str, link: &str) -> io::Result<()> {
        self.rt.hard_link(original, link)
    }
}
