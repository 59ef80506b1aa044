//! Files that are opened by name.

ghost use Rattle.std.specs.Prelude.{◌≡◌, ◌≤◌, ◌+◌, ◌∷◌, None, OnErr, IfOk, IsTrue, is_err};
ghost use Rattle.uimg_base.specs.{Device.RisesIf, Named.{FileMap, SameFiles, Opens}};

use crate::source::{Source, SourceFault};

/// Named files, each opened as a source.
///
/// Contracts see them as a `FileMap`: the bytes at each name, whether they are honest and complete,
/// the count of refused opens, and the names that were requested, the newest first. Honest files
/// open honest sources of those bytes; complete files refuse no name that has bytes. No call changes
/// any of these, so a name opened twice has the same bytes.
pub trait Files {
    /// The source that an open returns.
    type Opened: Source;

    /// What contracts see of the files. The count of refused opens saturates.
    ghost map: { Self → FileMap };

    /// Opens the file with this name as a source; nothing was requested of it yet.
    ///
    /// Returns `SourceFault` only if the open was refused: then the count of refused opens rose by
    /// 1, or was at its greatest value.
    fn open(&mut self, name: &[u8]) -> Result<Self::Opened, SourceFault>
        ensures same { SameFiles (map self.old) (map self.new) }
        ensures missing { IsTrue (map self.old).complete →
            OnErr result ((map self.old).bytes name.now ≡ None) }
        ensures refusals { RisesIf (is_err result) (map self.old).refusals (map self.new).refusals }
        ensures counted { (map self.new).refusals ≤ (map self.old).refusals + 1 }
        ensures noted { (map self.new).opened ≡ name.now ∷ (map self.old).opened }
        ensures opened { IfOk result (λ opened.
            Opens (map self.old) name.now (Self.Opened.device opened)) };
}
