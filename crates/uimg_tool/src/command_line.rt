//! Command lines.

/// A command line, and what gives the time of a new image.
#[derive(Clone, Copy)]
pub struct CommandLine<'a> {
    /// Its arguments, the program's name first.
    pub words: &'a [&'a str],

    /// The text of SOURCE_DATE_EPOCH, if it is set.
    pub epoch: Option<&'a str>,

    /// The current time in seconds since 1970.
    pub time: u32,
}
