//! Numbers, sizes and times.

use std::alloc::{AllocError, Global};
use uimg_base::{
    FuseWriter, Out, PutFault, be32_at, before_nul, first_nul, size_text, time_text, up4,
};

// The output of GNU `date -u -d @SECONDS '+%a %b %e %H:%M:%S %Y'`.
const TIME_TEXTS: [(u32, &str); 14] = [
    (0, "Thu Jan  1 00:00:00 1970"),
    (68_169_599, "Mon Feb 28 23:59:59 1972"),
    (68_169_600, "Tue Feb 29 00:00:00 1972"),
    (68_255_999, "Tue Feb 29 23:59:59 1972"),
    (68_256_000, "Wed Mar  1 00:00:00 1972"),
    (946_684_799, "Fri Dec 31 23:59:59 1999"),
    (951_782_399, "Mon Feb 28 23:59:59 2000"),
    (951_827_696, "Tue Feb 29 12:34:56 2000"),
    (951_868_800, "Wed Mar  1 00:00:00 2000"),
    (1_700_000_000, "Tue Nov 14 22:13:20 2023"),
    (4_107_542_399, "Sun Feb 28 23:59:59 2100"),
    (4_107_542_400, "Mon Mar  1 00:00:00 2100"),
    (4_291_747_199, "Thu Dec 31 23:59:59 2105"),
    (4_294_967_295, "Sun Feb  7 06:28:15 2106"),
];

// A size, how many bytes the writer accepts, and what it has then: the text of the size, or a
// prefix of it.
const SIZE_TEXTS: [(u32, u64, &str); 8] = [
    (0, 99, "0 Bytes = 0.00 KiB = 0.00 MiB"),
    (128, 99, "128 Bytes = 0.12 KiB = 0.00 MiB"),
    (384, 99, "384 Bytes = 0.38 KiB = 0.00 MiB"),
    (1024, 99, "1024 Bytes = 1.00 KiB = 0.00 MiB"),
    (
        4_294_967_295,
        99,
        "4294967295 Bytes = 4194304.00 KiB = 4096.00 MiB",
    ),
    (128, 0, ""),
    (128, 11, "128 Bytes ="),
    (128, 31, "128 Bytes = 0.12 KiB = 0.00 MiB"),
];

// A text, the index of its first NUL (its length, if it has none), and the text before it.
const NULS: [(&str, usize, &str); 4] = [
    ("", 0, ""),
    ("abc", 3, "abc"),
    ("ab\0c\0", 2, "ab"),
    ("\0", 0, ""),
];

const ROUNDED: [(u64, u64); 5] = [(0, 0), (1, 4), (4, 4), (5, 8), (0xFFFF_FFFD, 0x1_0000_0000)];

#[test]
fn time_texts(rt: HostRuntime) {
    for (seconds, text) in &TIME_TEXTS {
        assert!(rt;
            time_text(*seconds).as_slice() == text.as_bytes(),
            "{seconds}"
        );
    }
}

fn writes_size(alloc: Global, size: u32, taken: u64, text: &str) -> bool {
    let mut out = Out::new(FuseWriter::new(Vec::new(alloc), taken));
    let end = size_text(size, &mut out);
    let written = out.into_inner().into_inner();
    let whole = text.ends_with("MiB");
    end == (if whole { Ok(()) } else { Err(PutFault) }) && written.as_slice() == text.as_bytes()
}

#[test]
fn size_texts(rt: HostRuntime) {
    for (size, taken, text) in &SIZE_TEXTS {
        assert!(rt;
            writes_size(rt.alloc(), *size, *taken, text),
            "{size} to {taken}"
        );
    }
}

#[test]
fn the_first_nul_ends_a_text(rt: HostRuntime) {
    for (bytes, place, text) in &NULS {
        let bytes = bytes.as_bytes();
        let found = if *place < bytes.len() {
            Some(*place)
        } else {
            None
        };
        assert_eq!(rt; first_nul(bytes), found);
        assert_eq!(rt; before_nul(bytes), text.as_bytes());
    }
}

#[test]
fn sizes_are_rounded_up(rt: HostRuntime) {
    for (size, rounded) in &ROUNDED {
        assert_eq!(rt; up4(*size), *rounded);
    }
    assert_eq!(rt; be32_at(&[9, 0x27, 0x05, 0x19, 0x56, 9], 1), 0x2705_1956);
}
