//! Parts that are too large for an image.

use super::building::{ends_as, options_of, try_build};
use super::zeros::ZeroSource;
use std::alloc::Global;
use uimg_base::{Out, Source};

// Parts of zeros: the options, the number of parts, their lengths, and how building ends. Nothing
// is requested or written.
const LARGE: [(&str, &str, usize, u64, u64, &str); 6] = [
    (
        "too-large-parts: one",
        "kernel",
        1,
        4_294_967_296,
        0,
        "L10 too large",
    ),
    (
        "too-large-parts: a sum",
        "multi",
        2,
        4,
        4_294_967_280,
        "L10 too large",
    ),
    (
        "too-large-parts: a script",
        "script",
        2,
        4,
        4_294_967_280,
        "L10 too large",
    ),
    (
        "too-large-parts: the largest",
        "multi",
        2,
        u64::MAX,
        u64::MAX,
        "L10 too large",
    ),
    (
        "an empty part is told first",
        "multi",
        2,
        u64::MAX,
        0,
        "L9 empty part",
    ),
    ("also the first", "multi", 2, 0, u64::MAX, "L9 empty part"),
];

fn refuses(alloc: Global, options: &str, count: usize, lengths: (u64, u64), end: &str) -> bool {
    let mut parts = [ZeroSource::new(lengths.0), ZeroSource::new(lengths.1)];
    let mut out = Out::new(Vec::new(alloc));
    let answer = try_build(
        &options_of(options),
        &mut parts[..usize::min(count, 2)],
        &mut out,
    );
    let image = out.into_inner();
    ends_as(alloc, answer, end)
        && image.is_empty()
        && parts[0].asked() == 0
        && parts[1].asked() == 0
}

#[test]
fn large_parts(rt: HostRuntime) {
    for (name, options, count, first, second, end) in &LARGE {
        assert!(rt;
            refuses(rt.alloc(), options, *count, (*first, *second), end),
            "{name}"
        );
    }
}
