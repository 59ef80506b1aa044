//! The calls of `uimg_its`.

use super::samples::{FILES, SOURCE};
use uimg_base::MemFiles;
use uimg_its::{FaultKind, ItsFault};
use uimg_surface::its::compile;

#[test]
fn sources(rt: HostRuntime) {
    let compiled = compile(rt.alloc(), SOURCE, &mut MemFiles::new(&FILES));
    let Ok(tree) = compiled else {
        panic!(rt; "no tree");
    };
    assert_eq!(rt; tree.root.children.items().len(), 1);
}

fn number(kind: FaultKind) -> u8 {
    match kind {
        FaultKind::BadToken => 1,
        FaultKind::BadSyntax => 2,
        FaultKind::OutOfProfile(_name) => 3,
        FaultKind::BadNumber => 4,
        FaultKind::NoFile => 5,
        FaultKind::ReadFailed => 6,
        FaultKind::OutOfMemory => 7,
    }
}

fn number_at(fault: ItsFault) -> (u8, u64) {
    let ItsFault { kind, line } = fault;
    (number(kind), line)
}

#[test]
fn faults(rt: HostRuntime) {
    let found = match compile(rt.alloc(), SOURCE, &mut MemFiles::new(&[])) {
        Ok(_) => None,
        Err(fault) => Some(number_at(fault)),
    };
    assert_eq!(rt; found, Some((5, 6)));
}
