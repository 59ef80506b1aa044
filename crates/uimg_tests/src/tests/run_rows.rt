//! Commands on images: how they end, how many bytes they request at most, and how many they hold.
use super::images::image_named;
use super::runs::{ALL, ran, shown, told};
use std::alloc::Global;
use std::process::Abort;

// The image, the action, the most requested bytes, the held bytes, and the end.
const ROWS: [(&str, &str, u128, u128, &str); 47] = [
    ("abc-kernel", "list", 83, 8192, "done"),
    ("abc-kernel", "verify", 83, 8192, "done"),
    ("abc-kernel", "0", 86, 8192, "done"),
    ("part-outside", "list", 129, 8192, "L7 part outside"),
    ("part-outside", "0", 132, 8192, "done"),
    ("four-hash-fit", "list", 32364, 9344, "done"),
    ("four-hash-fit", "verify", 32376, 9344, "done"),
    ("four-hash-fit", "0", 32367, 9344, "done"),
    ("four-hash-fit", "1", 32364, 9344, "F4 no such image"),
    ("external-fit", "list", 33388, 9344, "done"),
    ("external-fit", "verify", 33400, 9344, "done"),
    ("external-fit", "0", 33391, 9344, "done"),
    ("external-fit", "1", 33388, 9344, "F4 no such image"),
    ("position-fit", "list", 33388, 9344, "done"),
    ("position-fit", "verify", 33400, 9344, "done"),
    ("position-fit", "0", 33391, 9344, "done"),
    ("position-fit", "1", 33388, 9344, "F4 no such image"),
    ("five-hash-fit", "list", 35720, 9472, "done"),
    ("five-hash-fit", "verify", 35723, 9472, "done"),
    (
        "five-hash-fit 168=62626300",
        "verify",
        35723,
        9472,
        "not right",
    ),
    ("four-hash-fit 168=62626300", "list", 32364, 9344, "done"),
    (
        "four-hash-fit 168=62626300",
        "verify",
        32376,
        9344,
        "not right",
    ),
    ("four-hash-fit 168=62626300", "0", 32367, 9344, "done"),
    ("external-fit 184=00000005", "list", 33388, 9344, "done"),
    (
        "external-fit 184=00000005",
        "verify",
        33388,
        9344,
        "F3 data outside",
    ),
    (
        "external-fit 184=00000005",
        "0",
        33388,
        9344,
        "F3 data outside",
    ),
    (
        "external-fit 168=ffffffff 184=ffffffff",
        "list",
        33388,
        9344,
        "done",
    ),
    (
        "external-fit 168=ffffffff 184=ffffffff",
        "verify",
        33388,
        9344,
        "F3 data outside",
    ),
    (
        "external-fit 168=ffffffff 184=ffffffff",
        "0",
        33388,
        9344,
        "F3 data outside",
    ),
    ("eight-crc-nodes", "verify", 49056, 9600, "done"),
    ("nine-crc-nodes", "verify", 52168, 9728, "done"),
    ("seventeen-crc-nodes", "verify", 77064, 10752, "done"),
    ("last-window", "verify", 20000, 8704, "done"),
    ("last-short-window", "verify", 20000, 8704, "not right"),
    ("no-images", "list", 1088, 8320, "F1 no images"),
    ("no-images", "verify", 1088, 8320, "F1 no images"),
    ("no-images", "0", 1088, 8320, "F1 no images"),
    ("thousand-deep", "list", 1024064, 136192, "F1 no images"),
    ("shared-payload", "verify", 14486, 8960, "done"),
    (
        "shared-property-name",
        "list",
        1025088,
        8320,
        "F1 no images",
    ),
    (
        "four-hash-fit 4=ffffffff",
        "list",
        2112,
        8192,
        "B4 block outside at 4",
    ),
    (
        "four-hash-fit 8=fffffffc",
        "list",
        2112,
        8192,
        "B4 block outside at 8",
    ),
    (
        "four-hash-fit 12=ffffffff",
        "list",
        2112,
        8192,
        "B4 block outside at 12",
    ),
    (
        "four-hash-fit 68=ffffffff",
        "list",
        2112,
        8320,
        "B6 truncated at 64",
    ),
    (
        "four-hash-fit 72=00000068",
        "list",
        2112,
        8320,
        "B9 bad property name at 64",
    ),
    ("four-hash-fit 72=00000067", "list", 32364, 9344, "done"),
    (
        "four-hash-fit 36=00000000",
        "list",
        1088,
        8192,
        "B6 truncated at 56",
    ),
];

// Returns whether the command of a row ends, requests and holds as it says.
fn is_left(alloc: Global, row: (&str, &str, u128, u128, &str)) -> bool {
    let (name, action, asked, held, end) = row;
    let image = image_named(alloc, name);
    let left = ran(alloc, action, &image, ALL, ALL);
    shown(&told(alloc, &left.end)) == end && left.asked <= asked && left.held == held
}

#[test]
fn runs_ask_and_hold(rt: HostRuntime) {
    for row in &ROWS {
        let (name, action, _, _, end) = *row;
        assert!(rt; is_left(rt.alloc(), *row), "{name}: {action}: {end}");
    }
}
