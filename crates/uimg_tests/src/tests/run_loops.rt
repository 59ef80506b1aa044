//! Commands on images while each read and each write fails in turn, and on each prefix of an image.
use super::images::image_named;
use super::runs::{ALL, Left, action_named, ran, shown, told};
use linked_list_allocator::LocalHeap;
use std::alloc::{AllocError, Global};
use std::process::Abort;
use uimg_base::{MemSource, Out, Room};
use uimg_engine::{Command, Fault, Form, run};
use uimg_fit_tests::samples::set_cell;

const ACTIONS: [&str; 3] = ["list", "verify", "0"];

const IMAGES: [&str; 4] = [
    "abc-kernel",
    "three-part-multi",
    "four-hash-fit",
    "external-fit",
];

fn is_same(left: &Left, whole: &Left) -> bool {
    left.end == whole.end && left.text == whole.text
}

// Returns whether each writer that is full too early has its prefix of the text.
fn takes_each(alloc: Global, action: &str, image: &[u8]) -> bool {
    let whole = ran(alloc, action, image, ALL, ALL);
    for bytes in 0..2000u64 {
        let left = ran(alloc, action, image, ALL, bytes);
        if bytes >= whole.text.len() as u64 {
            return is_same(&left, &whole);
        }
        let length = left.text.len() as u64;
        if left.end != Err(Fault::Put) || length != bytes || !whole.text.starts_with(&left.text) {
            return false;
        }
    }
    false
}

// Returns whether each failed read is reported, up to a source that does not fail.
fn fails_each(alloc: Global, action: &str, image: &[u8]) -> bool {
    let whole = ran(alloc, action, image, ALL, ALL);
    for calls in 0..2000u64 {
        let left = ran(alloc, action, image, calls, ALL);
        if left.failures == 0 {
            return calls > 0 && is_same(&left, &whole);
        }
        let read = left.failures == 1 && left.end == Err(Fault::Read);
        if !read || !whole.text.starts_with(&left.text) {
            return false;
        }
    }
    false
}

#[test]
fn reads_and_writes_fail_in_turn(rt: HostRuntime) {
    for name in IMAGES {
        let image = image_named(rt.alloc(), name);
        for action in ACTIONS {
            assert!(rt; takes_each(rt.alloc(), action, &image), "{name}: {action}");
            assert!(rt; fails_each(rt.alloc(), action, &image), "{name}: {action}");
        }
    }
}

// Returns the end for a FIT image that is cut to `length` bytes.
fn cut_end(length: usize) -> &'static str {
    match length {
        0..=3 => "L1 too short",
        4..=39 => "B1 too short at 0",
        _ => "B4 block outside at 4",
    }
}

// Returns how many prefixes of an image end as expected, from the empty one on.
fn right_cuts(alloc: Global, action: &str, image: &[u8]) -> usize {
    for length in 0..image.len() {
        let left = ran(alloc, action, &image[..length], ALL, ALL);
        let end = told(alloc, &left.end);
        if end.as_slice() != cut_end(length).as_bytes() || left.asked > 64 || left.text.len() != 0 {
            return length;
        }
    }
    image.len()
}

#[test]
fn every_cut_is_refused(rt: HostRuntime) {
    let image = image_named(rt.alloc(), "four-hash-fit");
    for action in ACTIONS {
        assert_eq!(rt; right_cuts(rt.alloc(), action, &image), 760, "{action}");
    }
}

// Sizes of the structure block, and where it is truncated.
const KNOWN_SIZES: [(u32, &str); 7] = [
    (0, "B6 truncated at 56"),
    (4, "B6 truncated at 56"),
    (8, "B6 truncated at 64"),
    (20, "B6 truncated at 64"),
    (25, "B6 truncated at 84"),
    (592, "B6 truncated at 648"),
    (599, "B6 truncated at 652"),
];

// Returns what a listing leaves if the structure block has this size in the header.
fn listed_with_size(alloc: Global, image: &mut [u8], size: u32) -> Left {
    set_cell(image, 36, size);
    ran(alloc, "list", image, ALL, ALL)
}

// Every size of the structure block, which has 600 bytes.
#[test]
fn every_structure_size_is_truncated(rt: HostRuntime) {
    let mut image = image_named(rt.alloc(), "four-hash-fit");
    for size in 0..600u32 {
        let left = listed_with_size(rt.alloc(), &mut image, size);
        let end = told(rt.alloc(), &left.end);
        assert!(rt; end.starts_with(b"B6 truncated at "), "{size}");
        assert!(rt; left.text.len() == 0 && left.asked <= 32364, "{size}");
    }
    for (size, known) in &KNOWN_SIZES {
        let left = listed_with_size(rt.alloc(), &mut image, *size);
        assert_eq!(rt; shown(&told(rt.alloc(), &left.end)), *known, "{size}");
    }
}

// A payload of 20000 bytes: a writer that takes nothing makes it request a window only.
#[test]
fn a_writer_takes_none_of_20000(rt: HostRuntime) {
    let image = image_named(rt.alloc(), "20000-bytes");
    let none = ran(rt.alloc(), "0", &image, ALL, 0);
    assert!(rt; none.end == Err(Fault::Put) && none.text.len() == 0);
    assert!(rt; none.asked <= 12352);
    let whole = ran(rt.alloc(), "0", &image, ALL, 20000);
    assert_eq!(rt; shown(&told(rt.alloc(), &whole.end)), "done");
    assert!(rt; whole.text.as_slice() == [0; 20000].as_slice());
}

// Returns a few bytes after a hole of `hole` bytes.
fn wall_behind(heap: &LocalHeap, hole: usize) -> Result<Vec<u8, &LocalHeap>, AllocError> {
    let _hole: Vec<u8, &LocalHeap> = Vec::with_capacity(heap, hole)?;
    Vec::with_capacity(heap, 16)
}

// Returns the text of a command's end over a heap with two holes, each with room for three entries,
// if three are held and nothing is written.
fn end_in_holes(alloc: Global, action: &str, image: &[u8]) -> Option<Vec<u8>> {
    let Ok(heap) = LocalHeap::new(alloc, 256 * 3 + 96) else {
        return None;
    };
    let Ok(_wall) = wall_behind(&heap, 128 * 3) else {
        return None;
    };
    let mut room = Room::new(&heap);
    let mut out = Out::new(Vec::new(alloc));
    let command = Command {
        action: action_named(action),
        form: Form::Guess,
    };
    let end = run(&command, &mut MemSource::new(image), &mut room, &mut out);
    if room.count() == 3 && out.into_inner().is_empty() {
        Some(told(alloc, &end))
    } else {
        None
    }
}

// fourth-growth-refused: the fourth growth is refused.
#[test]
fn the_fourth_growth_is_refused(rt: HostRuntime) {
    let image = image_named(rt.alloc(), "four-hash-fit");
    for action in ACTIONS {
        let end = end_in_holes(rt.alloc(), action, &image).unwrap_or(Vec::new(rt.alloc()));
        assert_eq!(rt; shown(&end), "B11 out of memory at 284", "{action}");
    }
}
