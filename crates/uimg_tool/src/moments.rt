//! The time of an image, SOURCE_DATE_EPOCH or else the clock; and the terminal.

use std::alloc::Alloc;
use std::env::{Env, VarError};
use std::time::{Clock, SystemTime};
use std::{env, io};

/// Returns the text of SOURCE_DATE_EPOCH, or `None` if it is not set. Returns the empty text, which
/// is a wrong one, if it is not UTF-8. Fails if memory was refused.
pub fn epoch<R: Env + Alloc>(rt: &R) -> io::Result<Option<String<R::A>>> {
    match env::var(rt, "SOURCE_DATE_EPOCH") {
        Ok(text) => Ok(Some(text)),
        Err(VarError::NotPresent) => Ok(None),
        Err(VarError::NotUnicode) => Ok(Some(String::new(rt.alloc()))),
        Err(VarError::OutOfMemory) => Err(io::Error::from(io::ErrorKind::OutOfMemory)),
    }
}

/// Returns whether a terminal can erase a line: the variable TERM is set, and not to `dumb`.
pub fn can_erase<R: Env + Alloc>(rt: &R) -> bool {
    match env::var(rt, "TERM") {
        Ok(text) => text.as_str() != "dumb" && !text.is_empty(),
        Err(_) => false,
    }
}

/// Returns the clock's time in whole seconds since 1970, at most 4294967295, or `None` if the clock
/// cannot be read or is before 1970.
pub fn now<C: Clock>(clock: &C) -> Option<u32> {
    let moment = SystemTime::now(clock).ok()?;
    let since_1970 = moment.duration_since(SystemTime::UNIX_EPOCH).ok()?;
    Some(u64::min(since_1970.as_secs(), u32::MAX as u64) as u32)
}
