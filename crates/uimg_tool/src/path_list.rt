//! A file with paths, each of a limited length.

ghost use Rattle.std.specs.{Io.Iter.split_byte, Prelude.{◌≡◌, IfOk}};
ghost use Rattle.uimg_tool.specs.Paths.{bytes_left};

use std::alloc::Global;
use std::io;
use std::io::{BufRead, BufReader, Read, Split};

/// The most bytes of a path. Those of the system have at most 4096.
const LONGEST: usize = 65536;

/// A file with paths. To read on fails once a path has more bytes than `LONGEST`.
#[derive(Drop)]
pub(crate) struct PathList<F: Read> {
    file: F,
    // The byte after each path.
    end: u8,
    // How many bytes were read since the last one.
    length: usize,
}

impl<F: Read> PathList<F> {
    // Counts the bytes since the last end.
    fn count(&mut self, bytes: &[u8])
        ensures { self.new.file ≡ self.old.file }
    {
        for byte in bytes {
            if *byte == self.end {
                self.length = 0;
            } else {
                self.length = self.length.saturating_add(1);
            }
        }
    }
}

impl<F: Read> Read for PathList<F> {
    ghost remaining = { λ list. F.remaining list.file };

    fn read(&mut self, buf: &mut [u8]) -> io::Result<usize> {
        if self.length > LONGEST {
            return Err(io::Error::other("a path in it has more than 65536 bytes"));
        }
        let most = usize::min(buf.len(), LONGEST + 1 - self.length);
        let count = self.file.read(&mut buf[..most])?;
        self.count(&buf[..count]);
        Ok(count)
    }
}

/// Nothing of the file was read. `end` is after each path.
#[tactic(auto, using(crate::proofs::PathLaws::unbuffered_left))]
pub(crate) fn paths_in<F: Read + Drop>(
    alloc: Global,
    file: F,
    end: u8,
) -> io::Result<Split<BufReader<PathList<F>>, Global>>
    ensures end { IfOk result (λ paths. split_byte paths ≡ end) }
    ensures bytes { IfOk result (λ paths. bytes_left F.remaining paths ≡ F.remaining file) }
{
    let file = PathList {
        file,
        end,
        length: 0,
    };
    let reader = BufReader::new(alloc, file)?;
    Ok(reader.split(alloc, end))
}
