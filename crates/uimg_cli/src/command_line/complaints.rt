//! The error text for arguments that are no command.
use std::alloc::{AllocError, Global};

// How the tip begins to put an argument with a leading `-` after a `--`.
const TIP: &str = "\n\n  tip: to pass '";

// How the usage begins, which comes after the tip.
const USAGE: &str = "\n\nUsage: ";

/// Leaves out the library's tip to put an argument with a leading `-` after a `--`: there it is the
/// image, never the value of an option.
pub(super) fn complaint(alloc: Global, error: &clap::Error) -> Result<String, AllocError> {
    let text = format!(in alloc; "{error}")?;
    match (text.split_once(TIP), text.rsplit_once(USAGE)) {
        (Some((before, _)), Some((_, usage))) => format!(in alloc; "{before}{USAGE}{usage}"),
        _ => Ok(text),
    }
}
