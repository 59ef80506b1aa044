//! The lines of warnings.

use crate::dtc_words::Silenced;
use crate::warnings::warning::{NodePath, Warning};
use std::io::Write;

/// The most warnings with a line of their own.
const MOST_LINES: u64 = 20;

/// Writes warnings to an output, a line each, and goes on after a failed write.
#[derive(Drop)]
pub(crate) struct Teller<'a, W: Write> {
    err: &'a mut W,
    silenced: Silenced,
    count: u64,
}

impl<'a, W: Write> Teller<'a, W> {
    pub(crate) fn new(silenced: Silenced, err: &'a mut W) -> Teller<'a, W> {
        Teller {
            err,
            silenced,
            count: 0,
        }
    }

    /// Writes a warning about a node, unless it is silenced.
    pub(crate) fn tell(&mut self, path: NodePath<'_>, warning: Warning<'_>) {
        if is_silenced(self.silenced, warning) {
            return;
        }
        if self.count < MOST_LINES {
            let _ = writeln!(self.err, "mkimage: warning: {path}: {warning}");
        }
        self.count = self.count.saturating_add(1);
    }

    /// Writes the number of warnings without a line of their own.
    pub(crate) fn end(&mut self) {
        let left = self.count.saturating_sub(MOST_LINES);
        if left > 0 {
            let _ = writeln!(self.err, "mkimage: warning: {left} more");
        }
    }
}

fn is_silenced(silenced: Silenced, warning: Warning<'_>) -> bool {
    match warning {
        Warning::EqualNodes(_) => silenced.equal_nodes,
        Warning::EqualProperties(_) => silenced.equal_properties,
        _ => false,
    }
}
