//! Builds while memory is refused.
use super::listings::DEMO_LISTING;
use super::makings::{Fuses, Outcome, making};
use super::runs::{shown, told};
use linked_list_allocator::LocalHeap;
use std::process::Abort;
use std::rt::Files;
use std::test::Fail;
use uimg_base::Status;
use uimg_engine::Fault;
use uimg_fit_base::FitFault;
use uimg_its::FaultKind;

const NO_FUSE: Fuses = Fuses {
    from: u64::MAX,
    turn: u64::MAX,
    calls: u64::MAX,
    bytes: u64::MAX,
    keeps: true,
};

const MANY: &str =
    "a:a:a:a:a:a:a:a:a:a:a:a:a:a:a:a:a:a:a:a:a:a:a:a:a:a:a:a:a:a:a:a:a:a:a:a:a:a:a:a";

// A build of several parts grows once, for the opened files, before the first open. A heap of 1024
// bytes has room for three of them, but not for 40. The columns: the image, from which open on they
// are refused, and the resulting file.
const PARTS: [(&str, u64, &str); 3] = [
    (MANY, 0, "no file"),
    (MANY, 100, "no file"),
    ("three-part-multi", 3, "all"),
];

#[test]
fn growths_for_parts(rt: HostRuntime) -> Result<(), Fail> {
    let heap = LocalHeap::new(rt.alloc(), 1024)?;
    for (name, from, file) in &PARTS {
        let fuses = Fuses {
            from: *from,
            ..NO_FUSE
        };
        let made = making(&rt, (&heap, rt.alloc()), name, "parts.img", fuses)?;
        let refused = made.end == Err(Fault::OutOfMemory) && made.listed.is_empty();
        assert_eq!(rt; made.file, *file, "{name}");
        assert!(rt; refused == (*file == "no file"), "{name}");
    }
    Ok(())
}

// Returns the step whose memory is refused: the text, the tree, or the filled or built tree.
fn step_of(fault: Fault) -> u8 {
    match fault {
        Fault::OutOfMemory => 0,
        Fault::Its(fault) if fault.kind == FaultKind::OutOfMemory => 1,
        Fault::Fit(FitFault::OutOfMemory) => 2,
        _ => 9,
    }
}

// 3 if the image is made. `step_of` counts only if nothing is listed or left.
fn step_left(made: &Outcome) -> u8 {
    match made.end {
        Ok(Status::Done) if made.file == "all" => 3,
        Err(fault) if made.listed.is_empty() && made.file == "no file" => step_of(fault),
        _ => 9,
    }
}

// Returns how a build of a FIT image ends on a heap of `size` bytes: 0 to 2 for the step whose
// memory is refused, 3 if the image is made, and 9 for anything else.
fn made_on<R: Files + AllocGlobal>(rt: &R, size: usize) -> u8 {
    let Ok(heap) = LocalHeap::new(rt.alloc(), size) else {
        return 9;
    };
    let memory = (&heap, rt.alloc());
    match making(rt, memory, "four-hash-fit", "heap.itb", NO_FUSE) {
        Ok(made) => step_left(&made),
        Err(_) => 9,
    }
}

// From a heap with hardly any room to an ample one, 16 bytes at a time: only refused memory is
// reported, at each step, and no file is made; once an image is made, all larger heaps make it.
#[test]
fn growths_for_trees(rt: HostRuntime) {
    let mut met = [false; 4];
    for step in 1..1024usize {
        let number = made_on(&rt, step * 16);
        assert!(rt; number < 4 && (number == 3 || !met[3]), "{step}");
        met[number as usize] = true;
    }
    assert_eq!(rt; met, [true; 4]);
}

// The size in bytes of the heap for the room, and the end: the image is made, and with a fault
// nothing is listed.
const ROOMS: [(usize, &str); 3] = [
    (64, "B11 out of memory at 56"),
    (1024, "B11 out of memory at 284"),
    (8192, "done"),
];

fn plays<R: Files + AllocGlobal + Abort>(rt: &R, size: usize, end: &str) -> Result<(), Fail> {
    let heap = LocalHeap::new(rt.alloc(), size)?;
    let made = making(
        rt,
        (rt.alloc(), &heap),
        "four-hash-fit",
        "rooms.itb",
        NO_FUSE,
    )?;
    let told = told(rt.alloc(), &made.end);
    let listing = if end == "done" { DEMO_LISTING } else { "" };
    assert_eq!(rt; shown(&told), end, "{size}");
    assert_eq!(rt; made.file, "all", "{size}");
    assert!(rt; made.listed.as_slice() == listing.as_bytes(), "{size}");
    Ok(())
}

#[test]
fn rooms_without_place(rt: HostRuntime) -> Result<(), Fail> {
    for (size, end) in &ROOMS {
        plays(&rt, *size, end)?;
    }
    Ok(())
}
