//! Results of `index` for headers, cut blobs, and cells with wrong numbers.
use super::index_rows::plays_rows;
use std::test::Fail;

// The rows are as those of `index_rows`.
const ROWS: [(&str, &str, &str, u128); 41] = [
    (
        "mixed-values-index",
        "mixed",
        "112 bytes, 1 nodes, 8320 held, -, -",
        844,
    ),
    (
        "four-hash-fit",
        "demo",
        "760 bytes, 9 nodes, 9344 held, 1, 7",
        8316,
    ),
    (
        "property after child",
        "late",
        "B8 bad nesting at 76, 2 nodes",
        580,
    ),
    (
        "a NOP after a child",
        "late 76=00000004 80=00000002 84=00000009",
        "101 bytes, 2 nodes, 8448 held, -, -",
        576,
    ),
    (
        "an empty file",
        "mixed <0",
        "B1 too short at 0, 0 nodes",
        40,
    ),
    (
        "cut in the header",
        "mixed <39",
        "B1 too short at 0, 0 nodes",
        40,
    ),
    (
        "cut after the header",
        "mixed <40",
        "B4 block outside at 4, 0 nodes",
        40,
    ),
    (
        "cut by a byte",
        "mixed <111",
        "B4 block outside at 4, 0 nodes",
        40,
    ),
    (
        "far blocks",
        "mixed 4=ffffffff",
        "B4 block outside at 4, 0 nodes",
        40,
    ),
    (
        "far blocks",
        "mixed 8=fffffffc",
        "B4 block outside at 8, 0 nodes",
        40,
    ),
    (
        "far blocks",
        "mixed 12=ffffffff",
        "B4 block outside at 12, 0 nodes",
        40,
    ),
    (
        "another magic",
        "mixed 0=d00dfeee",
        "B2 bad magic at 0, 0 nodes",
        40,
    ),
    (
        "version 16",
        "mixed 20=00000010",
        "B3 bad version at 20, 0 nodes",
        40,
    ),
    (
        "compatible with 18",
        "mixed 24=00000012",
        "B3 bad version at 24, 0 nodes",
        40,
    ),
    (
        "version 18, compatible with 18",
        "mixed 20=00000012 24=00000012",
        "B3 bad version at 24, 0 nodes",
        40,
    ),
    (
        "a size of 39",
        "mixed 4=00000027",
        "B4 block outside at 4, 0 nodes",
        40,
    ),
    (
        "a structure at 54",
        "mixed 8=00000036",
        "B4 block outside at 8, 0 nodes",
        40,
    ),
    (
        "a structure of 57",
        "mixed 36=00000039",
        "B4 block outside at 8, 0 nodes",
        40,
    ),
    (
        "strings of 5",
        "mixed 32=00000005",
        "B4 block outside at 12, 0 nodes",
        40,
    ),
    (
        "version ffffffff",
        "mixed 20=ffffffff",
        "112 bytes, 1 nodes, 8320 held, -, -",
        844,
    ),
    (
        "compatible with 17",
        "mixed 24=00000011",
        "112 bytes, 1 nodes, 8320 held, -, -",
        844,
    ),
    (
        "version 18, compatible with 17",
        "mixed 20=00000012 24=00000011",
        "112 bytes, 1 nodes, 8320 held, -, -",
        844,
    ),
    (
        "a structure of 56",
        "mixed 36=00000038",
        "112 bytes, 1 nodes, 8320 held, -, -",
        844,
    ),
    (
        "strings at 0",
        "mixed 12=00000000",
        "B9 bad property name at 64, 1 nodes",
        844,
    ),
    (
        "a reservation block at ffffffff",
        "mixed 16=ffffffff",
        "112 bytes, 1 nodes, 8320 held, -, -",
        844,
    ),
    (
        "cut files",
        "demo <759",
        "B4 block outside at 4, 0 nodes",
        8316,
    ),
    ("cut files", "demo <39", "B1 too short at 0, 0 nodes", 8316),
    ("cut files", "demo <3", "B1 too short at 0, 0 nodes", 8316),
    (
        "every struct size",
        "demo 36=00000000",
        "B6 truncated at 56, 0 nodes",
        8316,
    ),
    (
        "every struct size",
        "demo 36=00000004",
        "B6 truncated at 56, 0 nodes",
        8316,
    ),
    (
        "every struct size",
        "demo 36=00000008",
        "B6 truncated at 64, 1 nodes",
        8316,
    ),
    (
        "every struct size",
        "demo 36=00000014",
        "B6 truncated at 64, 1 nodes",
        8316,
    ),
    (
        "every struct size",
        "demo 36=00000019",
        "B6 truncated at 84, 1 nodes",
        8316,
    ),
    (
        "every struct size",
        "demo 36=00000250",
        "B6 truncated at 648, 9 nodes",
        8316,
    ),
    (
        "every struct size",
        "demo 36=00000257",
        "B6 truncated at 652, 9 nodes",
        8316,
    ),
    (
        "far cells",
        "demo 68=ffffffff",
        "B6 truncated at 64, 1 nodes",
        8316,
    ),
    (
        "far cells",
        "demo 72=00000068",
        "B9 bad property name at 64, 1 nodes",
        8316,
    ),
    (
        "far cells",
        "demo 72=00000067",
        "760 bytes, 9 nodes, 9344 held, 1, 7",
        8316,
    ),
    (
        "far blocks",
        "demo 4=ffffffff",
        "B4 block outside at 4, 0 nodes",
        8316,
    ),
    (
        "far blocks",
        "demo 8=fffffffc",
        "B4 block outside at 8, 0 nodes",
        8316,
    ),
    (
        "far blocks",
        "demo 12=ffffffff",
        "B4 block outside at 12, 0 nodes",
        8316,
    ),
];

#[test]
fn header_rows(rt: HostRuntime) -> Result<(), Fail> {
    plays_rows(&rt, &ROWS)
}
