//! How commands end and what they write, over failing sources and writers.

use super::case_rows::{CASES, DEVICES};
use super::commands::{ends_as, ran};
use super::images::{PLACE, make};
use std::alloc::Global;

// Checks the result of a command, which holds no more than the window.
fn gives(alloc: Global, command: &str, image: &[u8], end: &str, text: &str, most: u64) -> bool {
    let left = ran(alloc, command, image, u64::MAX, u64::MAX);
    ends_as(alloc, left.end, end)
        && left.text.as_slice() == text.as_bytes()
        && left.asked <= most as u128
        && left.failures == 0
        && left.held == 8192
}

// Checks that a writer that accepts `taken` bytes has that prefix of the text, and ends the
// command.
fn takes(alloc: Global, command: &str, image: &[u8], end: &str, text: &[u8], taken: usize) -> bool {
    let left = ran(alloc, command, image, u64::MAX, taken as u64);
    let end = if taken < text.len() {
        "write failed"
    } else {
        end
    };
    ends_as(alloc, left.end, end) && Some(left.text.as_slice()) == text.get(..taken)
}

fn takes_each(alloc: Global, command: &str, image: &[u8], end: &str, text: &[u8]) -> bool {
    let mut same = true;
    for taken in 0..=text.len() {
        same = same && takes(alloc, command, image, end, text, taken);
    }
    same
}

// Checks that a failing call is reported, with a prefix written. Returns the count of failures.
fn fails(
    alloc: Global,
    command: &str,
    image: &[u8],
    end: &str,
    text: &[u8],
    calls: u64,
) -> Option<u64> {
    let left = ran(alloc, command, image, calls, u64::MAX);
    let is_whole = left.failures == 0 && left.text.len() == text.len();
    let end = if left.failures == 0 {
        end
    } else {
        "read failed"
    };
    if ends_as(alloc, left.end, end)
        && (is_whole || left.failures == 1)
        && text.starts_with(&left.text)
    {
        Some(left.failures)
    } else {
        None
    }
}

// Checks this for each call of the source, up to a source that does not fail.
fn fails_each(alloc: Global, command: &str, image: &[u8], end: &str, text: &[u8]) -> bool {
    for calls in 0..40u64 {
        match fails(alloc, command, image, end, text, calls) {
            Some(0) => return true,
            Some(_) => {}
            None => return false,
        }
    }
    false
}

#[test]
fn cases(rt: HostRuntime) {
    let alloc = rt.alloc();
    for (name, description, command, end, text, most) in &CASES {
        let mut bytes = [0; PLACE];
        let length = make(description, &mut bytes);
        let image = bytes.get(..length).unwrap_or(b"");
        assert!(rt;
            gives(alloc, command, image, end, text, *most),
            "{name}: {command}"
        );
        assert!(rt;
            takes_each(alloc, command, image, end, text.as_bytes()),
            "writer-takes-n: {name}: {command}"
        );
        assert!(rt;
            fails_each(alloc, command, image, end, text.as_bytes()),
            "read-fails-k: {name}: {command}"
        );
    }
}

fn leaves(
    alloc: Global,
    command: &str,
    image: &[u8],
    fuses: (u64, u64),
    end: &str,
    text: &str,
) -> bool {
    let left = ran(alloc, command, image, fuses.0, fuses.1);
    ends_as(alloc, left.end, end)
        && left.text.as_slice() == text.as_bytes()
        && left.failures == (end == "read failed") as u64
}

#[test]
fn failing_devices(rt: HostRuntime) {
    for (name, description, command, calls, taken, end, text) in &DEVICES {
        let mut bytes = [0; PLACE];
        let length = make(description, &mut bytes);
        let image = bytes.get(..length).unwrap_or(b"");
        let same = leaves(rt.alloc(), command, image, (*calls, *taken), end, text);
        assert!(rt; same, "{name}");
    }
}
