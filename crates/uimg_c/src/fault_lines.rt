//! The lines of faults, by their numbers.

ghost use Rattle.std.specs.Prelude.{◌≡◌, ◌≢◌, ◌≤◌, ℕ, List, Some};
ghost use Rattle.uimg_c.specs.{Lines.{PutsFront, PutsLine, line_of}, Numbers.IsNoFault};

use crate::fronts::copy_front;
use crate::numbered_faults::{blob_of, fit_of, legacy_of, loose_of, number_of_loose};
use arrayvec::ArrayString;
use std::fmt::{Display, Write};

/// The most bytes of a line.
const MOST: usize = 64;

// Returns the length of the whole line in bytes; 0 if it is too long.
fn put_line<F: Display>(fault: &F, text: &mut [u8]) -> usize
    ensures length { result ≤ 64 }
    ensures front { (line : List ℕ) → F.output fault.now ≡ Some line → result ≢ 0 →
        PutsFront line result text.old text.new }
    ensures nothing { result ≡ 0 → text.new ≡ text.old }
{
    let mut line = ArrayString::<MOST>::new();
    if write!(line, "{fault}").is_err() {
        return 0;
    }
    copy_front(line.as_str().as_bytes(), text);
    line.len()
}

/// Returns the length of the whole line in bytes; 0 if no fault has the number.
pub(crate) fn put_fault_line(fault: u32, text: &mut [u8]) -> usize
    ensures length { result ≤ 64 }
    ensures none { IsNoFault fault → (result ≡ 0) × (text.new ≡ text.old) }
    ensures line { PutsLine (line_of fault) result text.old text.new }
{
    if let Some(own) = legacy_of(fault) {
        return put_line(&own, text);
    }
    if let Some(own) = blob_of(fault) {
        return put_line(&own, text);
    }
    if let Some(own) = fit_of(fault) {
        return put_line(&own, text);
    }
    match loose_of(fault) {
        Some(why) => put_line(
            &format_args!("S{} {}", number_of_loose(why), why.word()),
            text,
        ),
        None => 0,
    }
}
