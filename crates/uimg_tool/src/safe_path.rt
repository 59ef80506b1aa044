//! What is written for a path, and how a file gets its name.

ghost use Rattle.std.specs.Prelude.{◌≡◌, true, string_bytes};
ghost use Rattle.uimg_tool.specs.BesidePaths.{Finishes, is_beside};
ghost use Rattle.uimg_world.specs.Deeds.{answer_of};

use std::io;
use uimg_world::World;

/// Where the file for a path is written.
#[derive(Drop)]
pub(crate) enum Writing<F: Drop> {
    /// At the path, where something exists that is not a regular file, as a device, or a symbolic
    /// link without a target.
    InPlace,

    /// At the path, where a pipe is.
    Pipe,

    /// To a new file beside the one that the path leads to, through symbolic links too.
    Beside(F, SafePath),

    /// Nowhere: a file cannot be created beside it, for this reason.
    Nowhere(io::Error),
}

/// The paths of a file that is written beside its name.
#[derive(Drop)]
pub(crate) struct SafePath {
    /// The path of the new file.
    pub(crate) new: String,

    /// The path that it gets when it is complete.
    pub(crate) whole: String,
    ghost beside: { is_beside (string_bytes whole) (string_bytes new) ≡ true },
}

impl SafePath {
    /// Gives the file its path if it is complete. An incomplete file, or one that cannot get its
    /// path, is removed. Returns the answer of the naming, or of the removal of an incomplete file.
    pub(crate) fn finish<W: World>(&self, world: &mut W, is_complete: bool) -> io::Result<()>
        ensures { Finishes (string_bytes self.now.new) (string_bytes self.now.whole) is_complete
            (answer_of result) (W.trace world.old) (W.trace world.new) }
    {
        let (new, whole) = (self.new.as_str(), self.whole.as_str());
        if !is_complete {
            return world.remove_file(new);
        }
        match world.rename(new, whole) {
            Ok(()) => Ok(()),
            Err(reason) => {
                let _ = world.remove_file(new);
                Err(reason)
            }
        }
    }
}

/// A new file beside a path, with its own path.
#[derive(Drop)]
pub(crate) struct NewBeside<F: Drop> {
    pub(crate) file: F,
    pub(crate) path: String,
}
