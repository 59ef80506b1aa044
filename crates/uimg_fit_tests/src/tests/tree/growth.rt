//! Refused memory during compilation.
use super::sources::NAMED;
use crate::sources::FOUR_HASH;
use linked_list_allocator::LocalHeap;
use std::alloc::Global;
use std::test::Fail;
use uimg_base::MemFiles;
use uimg_its::{FaultKind, ItsFault, compile};

const ALL_VALUES: &str = "/dts-v1/; / {
\ta = <1 2 3>, [00 11], \"text\", /incbin/(\"a\");
\tb;
\tdata = /incbin/(\"abc.bin\");
\tn { c; m { d = <4>; }; };
\to { };
};";

const LONG_TEXT: &str = "/dts-v1/;
/ {
a =
\"a text that asks for more than the heap has, and so is refused\";
};";

// Compiles a source over a heap of this size. Returns the line of the word for which memory was
// refused, `None` if it is compiled, and line 0 for anything else.
fn line_of_want(alloc: Global, text: &str, bytes: usize) -> Option<u64> {
    let Ok(heap) = LocalHeap::new(alloc, bytes) else {
        return Some(0);
    };
    match compile(&heap, text.as_bytes(), &mut MemFiles::new(&NAMED)) {
        Ok(_) => None,
        Err(fault) if fault.kind == FaultKind::OutOfMemory => Some(fault.line),
        Err(_) => Some(0),
    }
}

// From a tiny heap to an ample one, in steps of 16 bytes, each growth is refused in turn: only
// refused memory is reported.
#[test]
fn growth_fails(rt: HostRuntime) {
    for text in [ALL_VALUES, FOUR_HASH] {
        let mut compiled = false;
        for step in 1..1024usize {
            let line = line_of_want(rt.alloc(), text, step * 16);
            let is_next = line.is_none() || (line != Some(0) && !compiled);
            assert!(rt; is_next, "{step} times 16 bytes");
            compiled = line.is_none();
        }
        assert!(rt; compiled);
    }
}

// The line is that of the word for which memory was refused.
#[test]
fn the_line_of_a_refused_growth(rt: HostRuntime) -> Result<(), Fail> {
    assert_eq!(rt; line_of_want(rt.alloc(), LONG_TEXT, 48), Some(4));
    let fault = ItsFault {
        kind: FaultKind::OutOfMemory,
        line: 4,
    };
    let line = format!(in rt.alloc(); "{fault}")?;
    assert_eq!(rt; line.as_str(), "I7 out of memory at line 4");
    Ok(())
}
