//! Results of `index`, and the bytes that it requests.
use super::super::answers::is_said;
use super::made::{made, shown};
use std::alloc::{AllocError, Global};
use std::process::Abort;
use std::test::Fail;
use uimg_base::{MemSource, Room, Source};
use uimg_blob_reading::{Blob, IndexFault, index};

fn told(
    alloc: Global,
    room: &Room<Global>,
    found: Result<Blob, IndexFault>,
) -> Result<String, AllocError> {
    let count = room.count();
    match found {
        Ok(blob) => {
            let images = shown(blob.images());
            let configurations = shown(blob.configurations());
            let size = blob.totalsize();
            let held = room.held();
            format!(in alloc;
                "{size} bytes, {count} nodes, {held} held, {images}, {configurations}"
            )
        }
        Err(fault) => format!(in alloc; "{fault}, {count} nodes"),
    }
}

pub(super) fn plays_rows<R: AllocGlobal + Abort>(
    rt: &R,
    rows: &[(&str, &str, &str, u128)],
) -> Result<(), Fail> {
    let alloc = rt.alloc();
    let mut room = Room::new(alloc);
    for (name, blob, wanted, most) in rows {
        let bytes = made(alloc, blob)?;
        let mut source = MemSource::new(&bytes);
        let found = index(&mut source, &mut room);
        assert!(rt; source.asked() <= *most, "{name}: {blob}");
        is_said(rt, told(alloc, &room, found), wanted, blob, 0);
    }
    Ok(())
}

// A name, a blob, the result, and the most bytes requested. The result for an indexed blob has its
// size, its nodes, the bytes held, and the numbers of `images` and `configurations`.
const ROWS: [(&str, &str, &str, u128); 43] = [
    (
        "no token",
        "mixed 56=00000000",
        "B5 bad token at 56, 0 nodes",
        844,
    ),
    (
        "no token",
        "mixed 56=00000005",
        "B5 bad token at 56, 0 nodes",
        844,
    ),
    (
        "no token",
        "mixed 56=01000000",
        "B5 bad token at 56, 0 nodes",
        844,
    ),
    (
        "a word that is cut",
        "mixed 36=00000031",
        "B6 truncated at 104, 1 nodes",
        844,
    ),
    (
        "a structure without its end",
        "mixed 36=00000030",
        "B6 truncated at 104, 1 nodes",
        844,
    ),
    (
        "a value up to the end",
        "mixed 68=00000020",
        "B6 truncated at 108, 1 nodes",
        844,
    ),
    (
        "a value behind the end",
        "mixed 68=00000021",
        "B6 truncated at 64, 1 nodes",
        844,
    ),
    (
        "a value of ffffffff",
        "mixed 68=ffffffff",
        "B6 truncated at 64, 1 nodes",
        844,
    ),
    (
        "a property that is cut",
        "mixed 100=00000003",
        "B6 truncated at 100, 1 nodes",
        844,
    ),
    (
        "an empty property name",
        "mixed 72=00000003",
        "112 bytes, 1 nodes, 8320 held, -, -",
        844,
    ),
    (
        "a property name behind the strings",
        "mixed 72=00000004",
        "B9 bad property name at 64, 1 nodes",
        844,
    ),
    (
        "a property name at ffffffff",
        "mixed 72=ffffffff",
        "B9 bad property name at 64, 1 nodes",
        844,
    ),
    (
        "a property name without NUL",
        "mixed 108=76007878",
        "B9 bad property name at 88, 1 nodes",
        844,
    ),
    (
        "an end for a root",
        "mixed 56=00000002",
        "B8 bad nesting at 56, 0 nodes",
        844,
    ),
    (
        "a property before the root",
        "mixed 56=00000003 60=00000000 64=00000000",
        "B8 bad nesting at 56, 0 nodes",
        844,
    ),
    (
        "the end in the root",
        "mixed 100=00000009",
        "B8 bad nesting at 100, 1 nodes",
        844,
    ),
    (
        "a second root",
        "+,-,+,-",
        "B8 bad nesting at 68, 1 nodes",
        580,
    ),
    (
        "a second end",
        "+,-,-",
        "B8 bad nesting at 68, 1 nodes",
        316,
    ),
    ("no root", ".", "B8 bad nesting at 60, 0 nodes", 48),
    (
        "a name of 255 bytes",
        "+,+images,+~,-,-,-",
        "352 bytes, 3 nodes, 8576 held, 1, -",
        836,
    ),
    (
        "a name of 256 bytes",
        "+,+images,+~n,-,-,-",
        "B7 bad node name at 76, 2 nodes",
        836,
    ),
    (
        "a name of 255 bytes up to the end",
        "+~ 36=00000104",
        "B6 truncated at 316, 1 nodes",
        308,
    ),
    (
        "a name of 255 bytes, and a word",
        "+~,- 36=00000108",
        "B6 truncated at 320, 1 nodes",
        308,
    ),
    (
        "a name whose NUL is cut",
        "+~ 36=00000103",
        "B6 truncated at 56, 0 nodes",
        308,
    ),
    (
        "a name of 256 bytes in a longer block",
        "+~n",
        "B7 bad node name at 56, 0 nodes",
        308,
    ),
    (
        "a property name of 255 bytes",
        "+,0=,-/~;",
        "340 bytes, 1 nodes, 8320 held, -, -",
        576,
    ),
    (
        "a property name of 256 bytes",
        "+,0=,-/~n;",
        "B9 bad property name at 64, 1 nodes",
        576,
    ),
    (
        "no value is read",
        "+,0=~~~~~~~~~~~~~~~~~~~~,-/v;",
        "5188 bytes, 1 nodes, 8320 held, -, -",
        576,
    ),
    (
        "NOPs in all places",
        ".,+,.,0=first,.,0=again,.,+images,.,-,.,-,./description;",
        "168 bytes, 2 nodes, 8448 held, 1, -",
        1136,
    ),
    (
        "strings before the structure",
        "hex:d00dfeed000000600000002c00000028000000280000001100000010000000000000000400000034760065000000000100000000000000030000000c000000006100000000010000000200ff0000000300000000000000020000000200000009",
        "96 bytes, 1 nodes, 8320 held, -, -",
        844,
    ),
    (
        "blocks that overlap",
        "+,0=timestamp;,-/0123456789 12=0000004c",
        "108 bytes, 1 nodes, 8320 held, -, -",
        576,
    ),
    (
        "bytes after the end",
        "+,-,#00000009,#ffffffff,- >more",
        "84 bytes, 1 nodes, 8320 held, -, -",
        308,
    ),
    (
        "thousand deep",
        "1000*+,1000*-",
        "12060 bytes, 1000 nodes, 136192 held, -, -",
        264044,
    ),
    (
        "many siblings",
        "+,1000*|n,-",
        "12072 bytes, 1001 nodes, 136320 held, -, -",
        26400308,
    ),
    (
        "shared property name",
        "+,1000*0=,-/~;",
        "12328 bytes, 1 nodes, 8320 held, -, -",
        268308,
    ),
    (
        "a child of the root",
        "+,|images,-",
        "88 bytes, 2 nodes, 8448 held, 1, -",
        572,
    ),
    (
        "a child of the root",
        "+,|configurations,-",
        "96 bytes, 2 nodes, 8448 held, -, 1",
        572,
    ),
    (
        "a child of the root",
        "+,|,-",
        "84 bytes, 2 nodes, 8448 held, -, -",
        572,
    ),
    (
        "a child of the root",
        "+,|image,-",
        "88 bytes, 2 nodes, 8448 held, -, -",
        572,
    ),
    (
        "a child of the root",
        "+,|images-1,-",
        "92 bytes, 2 nodes, 8448 held, -, -",
        572,
    ),
    (
        "a child of the root",
        "+,|Images,-",
        "88 bytes, 2 nodes, 8448 held, -, -",
        572,
    ),
    (
        "a child of the root",
        "+,|configuration,-",
        "96 bytes, 2 nodes, 8448 held, -, -",
        572,
    ),
    (
        "the first of a name counts",
        "+,|configurations,|images,|images,|configurations,-",
        "152 bytes, 5 nodes, 8832 held, 2, 1",
        1364,
    ),
];

#[test]
fn index_rows(rt: HostRuntime) -> Result<(), Fail> {
    plays_rows(&rt, &ROWS)
}
