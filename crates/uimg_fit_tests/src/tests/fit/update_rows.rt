//! Updates of images.
use super::super::answers::is_said;
use super::making::built;
use std::alloc::{AllocError, Global};
use std::test::Fail;
use uimg_base::{FuseSource, MemFiles, MemSource, Out, Room};
use uimg_blob_writing::{ByteList, Node, Nodes, Props, Reservation, Tree};
use uimg_fit::{AlignedPlacement, Fault};
use uimg_fit_building::{Frame, build_with};
use uimg_fit_updating::{UpdateFault, update};
use uimg_its::compile;

// Returns the unfilled image of a source, with zeros after it.
fn image(alloc: Global, body: &str, zeros: usize) -> Result<Vec<u8>, AllocError> {
    let text = format!(in alloc; "/dts-v1/; / {{ {body} }};")?;
    let Ok(tree) = compile(alloc, text.as_bytes(), &mut MemFiles::new(&[])) else {
        return Ok(Vec::new(alloc));
    };
    let (_, mut image) = built(alloc, &tree, "inside", &mut MemFiles::new(&[]));
    for _ in 0..zeros {
        image.push(0)?;
    }
    Ok(image)
}

fn answer(alloc: Global, image: &[u8]) -> Result<String, AllocError> {
    match update(
        alloc,
        &mut MemSource::new(image),
        &mut Room::new(alloc),
        None,
    ) {
        Ok(_) => format!(in alloc; "updated"),
        Err(fault) => format!(in alloc; "{fault}"),
    }
}

fn answer_to(alloc: Global, body: &str, zeros: usize) -> Result<String, AllocError> {
    let image = image(alloc, body, zeros)?;
    answer(alloc, &image)
}

// What is in the root, how many zeros are after the blob, and the result.
const ROWS: [(&str, usize, &str); 12] = [
    ("images { a { data = [00]; }; };", 0, "updated"),
    ("images { };", 0, "updated"),
    ("", 0, "F1 no images"),
    ("images { a { }; };", 0, "F2 no data"),
    (
        "images { a { data = [00]; hash { algo = \"md4\"; }; }; };",
        0,
        "F5 unknown algorithm",
    ),
    (
        "images { a { data-offset = <0>; data-size = <4>; }; };",
        4,
        "updated",
    ),
    (
        "images { a { data-offset = <0>; data-size = <4>; }; };",
        3,
        "F3 data outside",
    ),
    (
        "images { a { data-offset = <0xffffffff>; data-size = <0xffffffff>; }; };",
        4,
        "F3 data outside",
    ),
    (
        "images { a { data-offset = [00]; data-size = <4>; }; };",
        4,
        "F2 no data",
    ),
    (
        "images { a { data-position = <0>; data-size = <4>; }; };",
        4,
        "F2 no data",
    ),
    (
        "images { a { data-offset = <0>; data-size = <400>; }; b { data-offset = <0>; data-size = <400>; }; };",
        400,
        "F7 too large",
    ),
    (
        "images { a { data-offset = <0>; data-size = <40>; }; b { data-offset = <0>; data-size = <40>; }; };",
        40,
        "updated",
    ),
];

#[test]
fn update_rows(rt: HostRuntime) {
    for (number, (body, zeros, wanted)) in ROWS.iter().enumerate() {
        let found = answer_to(rt.alloc(), body, *zeros);
        is_said(&rt, found, wanted, body, number as u64);
    }
}

// Returns a tree of this many levels, none of them named `images`.
fn deep(alloc: Global, levels: usize) -> Result<Tree<Global>, AllocError> {
    let mut below = Vec::new(alloc);
    for _ in 1..levels {
        let children = Nodes::of(below);
        below = Vec::new(alloc);
        below.push(Node {
            name: ByteList::of(Vec::from_slice(alloc, b"a")?),
            props: Props::of(Vec::new(alloc)),
            children,
        })?;
    }
    Ok(Tree {
        root: Node {
            name: ByteList::of(Vec::new(alloc)),
            props: Props::of(Vec::new(alloc)),
            children: Nodes::of(below),
        },
    })
}

fn answer_to_deep(alloc: Global, levels: usize) -> Result<String, AllocError> {
    let tree = deep(alloc, levels)?;
    let (_, image) = built(alloc, &tree, "inside", &mut MemFiles::new(&[]));
    answer(alloc, &image)
}

// A tree has at most 64 levels; the root is at the first.
#[test]
fn levels(rt: HostRuntime) {
    let found = answer_to_deep(rt.alloc(), 64);
    is_said(&rt, found, "F1 no images", "64 levels", 0);
    let found = answer_to_deep(rt.alloc(), 65);
    is_said(
        &rt,
        found,
        "the tree has more than 64 levels",
        "65 levels",
        0,
    );
}

// Returns whether a source whose calls fail after some ends an update with a failed read; `None` if
// they suffice.
fn fails_to_read(alloc: Global, image: &[u8], calls: u64) -> Option<bool> {
    let mut source = FuseSource::new(MemSource::new(image), calls);
    match update(alloc, &mut source, &mut Room::new(alloc), None) {
        Ok(_) => None,
        Err(fault) => Some(fault == UpdateFault::Fit(Fault::Read)),
    }
}

// Each call in turn fails, and only that is reported.
#[test]
fn failing_calls(rt: HostRuntime) -> Result<(), Fail> {
    let body = "images { a { data-offset = <0>; data-size = <4>; hash { algo = \"md5\"; }; }; };";
    let image = image(rt.alloc(), body, 4)?;
    let mut calls = 0;
    while calls < 200 && fails_to_read(rt.alloc(), &image, calls) == Some(true) {
        calls += 1;
    }
    assert!(rt; calls > 20 && calls < 200, "{calls} calls");
    assert!(rt; fails_to_read(rt.alloc(), &image, calls).is_none());
    Ok(())
}

// The reservations of an image.
const RESERVED: [Reservation; 2] = [
    Reservation {
        address: 0x1000,
        size: 0x1234_5678_9abc_def0,
    },
    Reservation {
        address: 0xfedc_ba98_7654_3210,
        size: 1,
    },
];

fn reserved_image(alloc: Global) -> Option<Vec<u8>> {
    let text = b"/dts-v1/; / { images { a { data = [00]; }; }; };";
    let tree = compile(alloc, text, &mut MemFiles::new(&[])).ok()?;
    let frame = Frame {
        placement: AlignedPlacement::Inside { least: 0 },
        reservations: &RESERVED,
    };
    let mut out = Out::new(Vec::new(alloc));
    build_with(alloc, &tree, &mut MemFiles::new(&[]), frame, &mut out).ok()?;
    Some(out.into_inner())
}

// An update keeps the reservations, up to one of no memory. A block that begins within the header,
// ends where the structure block begins, or begins at the blob's end is refused.
#[test]
fn reservations(rt: HostRuntime) -> Result<(), Fail> {
    let alloc = rt.alloc();
    let Some(mut image) = reserved_image(alloc) else {
        panic!(rt; "the image is not built");
    };
    let mut room = Room::new(alloc);
    match update(alloc, &mut MemSource::new(&image), &mut room, None) {
        Ok(updated) => assert_eq!(rt; updated.reservations.as_slice(), RESERVED.as_slice()),
        Err(fault) => panic!(rt; "{fault}"),
    }
    image[87] = 2;
    let found = answer(alloc, &image);
    is_said(
        &rt,
        found,
        "the reservation block has no end",
        "a last entry",
        0,
    );
    image[87] = 0;
    for place in [8, 39, image.len() as u32] {
        image[16..20].copy_from_slice(&place.to_be_bytes());
        let found = answer(alloc, &image);
        is_said(&rt, found, "the reservation block has no end", "outside", 0);
    }
    image[16..20].copy_from_slice(&40u32.to_be_bytes());
    image[48..56].copy_from_slice(&[0; 8]);
    match update(alloc, &mut MemSource::new(&image), &mut room, None) {
        Ok(updated) => assert!(rt; updated.reservations.is_empty()),
        Err(fault) => panic!(rt; "{fault}"),
    }
    Ok(())
}
