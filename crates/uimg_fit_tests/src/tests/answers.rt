//! Results in words.
use std::alloc::AllocError;
use std::process::Abort;

/// Asserts that a result is the expected one; a text and a number name the row.
pub(super) fn is_said<R: Abort>(
    rt: &R,
    answer: Result<String, AllocError>,
    wanted: &str,
    row: &str,
    number: u64,
) {
    match answer {
        Ok(found) => assert_eq!(rt; found.as_str(), wanted, "{row}, {number}"),
        Err(_) => panic!(rt; "no memory for the answer of {row}, {number}"),
    }
}
