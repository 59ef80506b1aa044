//! Built images, compared with bytes from elsewhere.

use super::commands::says;
use super::images::{PLACE, make};
use std::alloc::Global;
use std::io::Write;
use uimg_base::{FuseSource, FuseWriter, MemSource, Out, Source};
use uimg_legacy::{Fault, Options, build, has_parts, name_field};

// The name, the options, the parts, how building ends, and the image; none if it is refused.
const BUILDS: [(&str, &str, &str, &str, &str); 9] = [
    ("abc-kernel", "kernel", "abc", "done", "abc-kernel"),
    (
        "three-part-multi",
        "multi",
        "abc|defg|hijkl",
        "done",
        "three-part-multi",
    ),
    ("empty-parts: multi", "multi", "abc|", "L9 empty part", ""),
    ("empty-parts: script", "script", "abc|", "L9 empty part", ""),
    (
        "empty-parts: the first",
        "multi",
        "|abc",
        "L9 empty part",
        "",
    ),
    ("empty-parts: the one", "script", "", "L9 empty part", ""),
    (
        "empty-parts: the second of three",
        "multi",
        "abc||hijkl",
        "L9 empty part",
        "",
    ),
    ("empty-parts: all", "multi", "||", "L9 empty part", ""),
    (
        "empty-parts: a kernel",
        "kernel",
        "",
        "done",
        "abc-kernel to=64 4=94 5=0c 6=1c 7=8d 15=00 24=00 25=00 26=00 27=00",
    ),
];

/// Returns the options of a kernel, or of an image with parts: multi or script.
pub(super) fn options_of(kind: &str) -> Options {
    if kind == "kernel" {
        return Options {
            time: 1_700_000_000,
            load: 0x80000,
            ep: 0x80000,
            os: 5,
            arch: 22,
            kind: 2,
            comp: 0,
            name: name_field(b"0123456789012345678901234567890123456789"),
        };
    }
    Options {
        time: 0,
        load: 0,
        ep: 0,
        os: 5,
        arch: 7,
        kind: if kind == "script" { 6 } else { 4 },
        comp: 1,
        name: [0; 32],
    }
}

/// `None` if the type does not allow the number of parts.
pub(super) fn try_build<S: Source, W: Write>(
    options: &Options,
    parts: &mut [S],
    out: &mut Out<W>,
) -> Option<Result<(), Fault>> {
    if parts.is_empty() || (!has_parts(options.kind) && parts.len() != 1) {
        return None;
    }
    Some(build(options, parts, out))
}

/// Building ends with `done`, or with the line of a fault.
pub(super) fn ends_as(alloc: Global, end: Option<Result<(), Fault>>, wanted: &str) -> bool {
    match end {
        Some(Ok(())) => wanted == "done",
        Some(Err(fault)) => says(alloc, fault, wanted),
        None => false,
    }
}

// The result of building.
#[derive(Drop)]
struct Outcome {
    end: Option<Result<(), Fault>>,
    image: Vec<u8>,
    failures: u64,
}

// The part that fails, after how many calls, and how many bytes the writer accepts.
#[derive(Clone, Copy)]
struct Fuses {
    turn: usize,
    calls: u64,
    taken: u64,
}

impl Fuses {
    fn calls_of(self, part: usize) -> u64 {
        if part == self.turn {
            self.calls
        } else {
            u64::MAX
        }
    }
}

fn built(alloc: Global, options: &str, parts: &str, fuses: Fuses) -> Outcome {
    let count = usize::min(parts.split('|').count(), 3);
    let (first, rest) = parts.split_once('|').unwrap_or((parts, ""));
    let (second, third) = rest.split_once('|').unwrap_or((rest, ""));
    let mut sources = [
        FuseSource::new(MemSource::new(first.as_bytes()), fuses.calls_of(0)),
        FuseSource::new(MemSource::new(second.as_bytes()), fuses.calls_of(1)),
        FuseSource::new(MemSource::new(third.as_bytes()), fuses.calls_of(2)),
    ];
    let mut out = Out::new(FuseWriter::new(Vec::new(alloc), fuses.taken));
    let end = try_build(&options_of(options), &mut sources[..count], &mut out);
    Outcome {
        end,
        image: out.into_inner().into_inner(),
        failures: sources[fuses.turn % 3].failures(),
    }
}

// Checks that a writer that accepts `taken` bytes has that prefix of the image.
fn takes(alloc: Global, options: &str, parts: &str, end: &str, image: &[u8], taken: usize) -> bool {
    let fuses = Fuses {
        turn: 0,
        calls: u64::MAX,
        taken: taken as u64,
    };
    let left = built(alloc, options, parts, fuses);
    let end = if taken < image.len() {
        "write failed"
    } else {
        end
    };
    ends_as(alloc, left.end, end)
        && left.failures == 0
        && Some(left.image.as_slice()) == image.get(..usize::min(taken, image.len()))
}

// Checks this for each writer, up to one that accepts more than the image.
fn takes_each(alloc: Global, options: &str, parts: &str, end: &str, image: &[u8]) -> bool {
    let mut same = true;
    for taken in 0..=PLACE {
        same = same && takes(alloc, options, parts, end, image, taken);
    }
    same
}

// Checks that a failing call is reported, with a prefix written. Returns the count of failures.
fn fails(
    alloc: Global,
    options: &str,
    parts: &str,
    end: &str,
    image: &[u8],
    fuses: Fuses,
) -> Option<u64> {
    let left = built(alloc, options, parts, fuses);
    let is_whole = left.failures == 0 && left.image.len() == image.len();
    let end = if left.failures == 0 {
        end
    } else {
        "read failed"
    };
    if ends_as(alloc, left.end, end)
        && (is_whole || left.failures == 1)
        && image.starts_with(&left.image)
    {
        Some(left.failures)
    } else {
        None
    }
}

// Checks this for each call of a part, up to a part that does not fail.
fn fails_each(
    alloc: Global,
    options: &str,
    parts: &str,
    end: &str,
    image: &[u8],
    turn: usize,
) -> bool {
    for calls in 0..40u64 {
        let fuses = Fuses {
            turn,
            calls,
            taken: u64::MAX,
        };
        match fails(alloc, options, parts, end, image, fuses) {
            Some(0) => return true,
            Some(_) => {}
            None => return false,
        }
    }
    false
}

#[test]
fn buildings(rt: HostRuntime) {
    let alloc = rt.alloc();
    for (name, options, parts, end, description) in &BUILDS {
        let mut bytes = [0; PLACE];
        let length = make(description, &mut bytes);
        let image = bytes.get(..length).unwrap_or(b"");
        assert!(rt; takes_each(alloc, options, parts, end, image), "{name}");
        for turn in 0..3usize {
            assert!(rt;
                fails_each(alloc, options, parts, end, image, turn),
                "{name}: part {turn} fails"
            );
        }
    }
}
