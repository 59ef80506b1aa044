//! Blobs with memory reservations.
use super::sources::{NAMED, WORDS, blob_of, blob_with, tree_of};
use super::trees::root_in_file;
use std::test::Fail;
use uimg_base::{MemSource, Room};
use uimg_blob_reading::index;
use uimg_blob_writing::{Reservation, measure_with};

const BOTH: [Reservation; 2] = [
    Reservation {
        address: 0x1000,
        size: 0x200,
    },
    Reservation {
        address: 0x1234_5678_9abc_def0,
        size: 0xfedc_ba98_7654_3210,
    },
];

// The reservation block of these.
const BLOCK: [u8; 48] = [
    0, 0, 0, 0, 0, 0, 0x10, 0, 0, 0, 0, 0, 0, 0, 2, 0, 0x12, 0x34, 0x56, 0x78, 0x9a, 0xbc, 0xde,
    0xf0, 0xfe, 0xdc, 0xba, 0x98, 0x76, 0x54, 0x32, 0x10, 0, 0, 0, 0, 0, 0, 0, 0, 0, 0, 0, 0, 0, 0,
    0, 0,
];

// A blob with reservations is the one without, but for its size, the offsets of its blocks, and the
// reservation block.
#[test]
fn reserved_blobs(rt: HostRuntime) {
    let alloc = rt.alloc();
    let Some(tree) = tree_of(alloc, "family") else {
        panic!(rt; "the source is refused");
    };
    let Some(plain) = blob_of(alloc, &tree, &NAMED) else {
        panic!(rt; "the blob is not written");
    };
    let Some(blob) = blob_with(alloc, &tree, &BOTH, &NAMED) else {
        panic!(rt; "the blob is not written with reservations");
    };
    assert_eq!(rt; blob.len(), plain.len() + 32);
    assert_eq!(rt;
        blob.get(4..12),
        Some([0, 0, 0, 224, 0, 0, 0, 88].as_slice())
    );
    assert_eq!(rt; blob.get(16..40), plain.get(16..40));
    assert_eq!(rt; blob.get(40..88), Some(BLOCK.as_slice()));
    assert_eq!(rt; blob.get(88..), plain.get(56..));
    let mut room = Room::new(alloc);
    assert!(rt; index(&mut MemSource::new(&blob), &mut room).is_ok());
    assert_eq!(rt; room.count(), 3);
    assert_eq!(rt; blob_with(alloc, &tree, &[], &NAMED), Some(plain));
}

// A reservation takes 16 bytes of the largest blob.
#[test]
fn largest_blobs(rt: HostRuntime) -> Result<(), Fail> {
    let alloc = rt.alloc();
    for (size, fits) in [(4_294_967_184, true), (4_294_967_185, false)] {
        let tree = root_in_file(alloc, b"data", size)?;
        let layout = measure_with(alloc, &tree, WORDS, &BOTH[..1]);
        assert_eq!(rt; layout.is_ok(), fits, "{size}");
    }
    Ok(())
}
