//! Shelves: images are written to them and then reopened as sources.

ghost use Rattle.std.specs.Prelude.{◌≡◌, Bool, false, Some, IsOk, IfOk, IsTrue};
ghost use Rattle.uimg_base.specs.Device.{IsFresh};

use crate::source::{Source, SourceFault};
use std::io::Write;

/// What an image is written to, to be read afterwards.
pub trait Shelf: Write + Drop {
    /// The source that `keep` returns.
    type Kept: Source;

    /// Whether the kept source is honest and has exactly the bytes that were written.
    ghost honest: { Bool };

    /// Whether `keep` never fails. It is a fact of the type; a shelf in memory is steady.
    ghost steady: { Bool } = { false };

    /// Ends the writing and returns what was written as a source; nothing was requested of it yet.
    /// An honest shelf returns an honest source of exactly the written bytes.
    ///
    /// Returns `SourceFault` if what was written cannot be read; never over a steady shelf.
    fn keep(self) -> Result<Self::Kept, SourceFault>
        ensures bytes { IsTrue honest → IfOk result (λ kept.
            Self.contents self ≡ Some (Self.Kept.device kept).bytes) }
        ensures honest { IsTrue honest → IfOk result (λ kept. IsTrue (Self.Kept.device kept).honest) }
        ensures steady { IsTrue steady → IsOk result }
        ensures fresh { IfOk result (λ kept. IsFresh (Self.Kept.device kept)) };
}
