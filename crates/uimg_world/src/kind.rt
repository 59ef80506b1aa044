//! What is at a path, and what it leads to.

/// What is at a path; links are not followed.
#[derive(Clone, Copy, Debug, PartialEq, Eq)]
pub enum Kind {
    /// Nothing, or nothing that can be looked at.
    Nothing,

    /// A file, or anything else that is neither a folder nor a symbolic link.
    File,

    /// A folder.
    Folder,

    /// A symbolic link.
    Link,
}

/// What a path leads to; links are followed.
#[derive(Clone, Copy, Debug)]
pub enum Target {
    /// Nothing, or nothing that can be looked at.
    Nothing,

    /// A regular file.
    File,

    /// A pipe; to open one waits for a writer.
    Pipe,

    /// Anything else, as a folder or a device.
    Other,
}

impl Kind {
    ghost use Rattle.std.specs.Prelude.{◌≡◌};
    ghost use Rattle.uimg_world.specs.Kinds.{is_something};

    /// Returns whether anything exists, even a symbolic link without a target.
    pub fn is_something(self) -> bool
        ensures { result ≡ is_something self }
    {
        match self {
            Kind::Nothing => false,
            Kind::File => true,
            Kind::Folder => true,
            Kind::Link => true,
        }
    }
}
