//! The texts of faults.

use std::alloc::Global;
use std::fmt::Display;
use uimg_base::{MoveFault, PutFault, SourceFault};

fn says<F: Display + Drop>(alloc: Global, fault: F, line: &str) -> bool {
    match format!(in alloc; "{fault}") {
        Ok(text) => text.as_str() == line,
        Err(_) => false,
    }
}

#[test]
fn faults_have_their_lines(rt: HostRuntime) {
    let alloc = rt.alloc();
    assert!(rt; says(alloc, SourceFault, "read failed"));
    assert!(rt; says(alloc, PutFault, "write failed"));
    assert!(rt; says(alloc, MoveFault::Read, "read failed"));
    assert!(rt; says(alloc, MoveFault::Put, "write failed"));
}
