//! The images that configurations name.

use super::signed::SIGNED;
use std::alloc::Global;
use uimg_base::{MemSource, Room};
use uimg_fit_reading::read_tree;
use uimg_strict::Loose;
use uimg_verifying::find_uncovered;

// An offset in the signed image where a byte is changed, and the image that is then named by none.
const CHANGED: [(usize, Option<&'static [u8]>); 4] = [
    // a byte of a payload
    (148, None),
    // an image's name, which is that of a machine, too
    (740, Some(b"kernel")),
    (760, Some(b"fdt")),
    // an image's name, which is a description, too
    (1328, Some(b"spare")),
];

fn is_found(alloc: Global, file: &[u8], wanted: Option<&[u8]>) -> bool {
    let (mut source, mut room) = (MemSource::new(file), Room::new(alloc));
    let Ok(blob) = read_tree(&mut source, &mut room) else {
        return false;
    };
    match find_uncovered(alloc, &mut source, &blob, &mut room) {
        Ok(Some(Loose { node, .. })) => node.as_ref().map(|name| name.as_slice()) == wanted,
        Ok(None) => wanted.is_none(),
        Err(_) => false,
    }
}

#[test]
fn by_configurations(rt: HostRuntime) {
    for (at, wanted) in CHANGED {
        let mut file = SIGNED;
        file[at] = b'x';
        assert!(rt; is_found(rt.alloc(), &file, wanted));
    }
}
