//! An action on an image, and the format that it is read as.

/// What is done with an image.
#[derive(Clone, Copy, Debug, PartialEq, Eq)]
pub enum Action {
    /// Its listing is written.
    List,

    /// Its verification report is written.
    Verify,

    /// The part of a legacy image, or the payload of a FIT image's image, at this position, counted
    /// from 0, is written.
    Extract(u32),
}

/// The format that an image is read in.
#[derive(Clone, Copy, Debug, PartialEq, Eq)]
pub enum Form {
    /// A guess by the first four bytes: a FIT image if they are `0xd00dfeed`, else a legacy image,
    /// also if the file has fewer.
    Guess,

    /// A legacy image.
    Legacy,

    /// A FIT image.
    Fit,
}

/// A command on an image.
#[derive(Clone, Copy, Debug, PartialEq, Eq)]
pub struct Command {
    /// What is done.
    pub action: Action,

    /// The format that it is read in.
    pub form: Form,
}
