//! The trait of takers, which receive unpacked parts.

ghost use Rattle.std.specs.Prelude.{◌≡◌, ℕ, [], ◌∷◌, ◌++◌, List, Bool, false, Some, IfOk, OnOk, OnErr, IsTrue};
ghost use Rattle.std.specs.Prelude.{◌⊎◌};
ghost use Rattle.uimg_legacy.specs.Unpacking.{Part, AreRight, part_if};
ghost use Rattle.std.specs.Prelude.{true};
ghost use Rattle.uimg_legacy.specs.Told.{Deed};
ghost use Rattle.uimg_legacy.specs.Told.Deed.{Claimed, Shelved, Given, Kept, Refused};

use std::io::Write;
use uimg_base::PutFault;

/// Receives the unpacked parts of an image one after another, by their numbers. A written part is
/// held until all of them are kept or refused. Parts that are still held at the end are discarded.
///
/// Contracts see an honest taker as two lists: the parts that it holds, and those that it keeps. Of
/// a taker that notes its calls they see all calls, in order, whether it is honest or not.
pub trait PartTaker {
    /// What a part is written to.
    type Shelf: Write + Drop;

    /// Where parts go. No call changes it.
    ghost place: { Self → List ℕ } = { λ _. [] };

    /// Whether shelves hold what is written to them, and the lists have all parts that were given.
    ghost honest: { Bool } = { false };

    /// The parts that are held, and neither kept nor refused yet.
    ghost held: { Self → List Part };

    /// The parts that are kept.
    ghost kept: { Self → List Part };

    /// Whether the list of its calls has each call.
    ghost notes: { Bool } = { false };

    /// Its calls, in order.
    ghost told: { Self → List Deed } = { λ _. [] };

    /// Announces a part, before any is unpacked. Nothing is unpacked if it refuses.
    fn claim(&mut self, number: u32) -> Result<(), PutFault>
        ensures stays { place self.new ≡ place self.old }
        ensures told { IsTrue notes → told self.new ≡ told self.old ++ Claimed number ∷ [] }
        ensures held { IsTrue honest → held self.new ≡ held self.old }
        ensures kept { IsTrue honest → kept self.new ≡ kept self.old };

    /// Returns an empty shelf to write a part to.
    fn shelf(&mut self, number: u32) -> Result<Self::Shelf, PutFault>
        ensures stays { place self.new ≡ place self.old }
        ensures told { IsTrue notes → told self.new ≡ told self.old ++ Shelved number ∷ [] }
        ensures held { IsTrue honest → held self.new ≡ held self.old }
        ensures kept { IsTrue honest → kept self.new ≡ kept self.old }
        ensures empty { IsTrue honest → IfOk result (λ shelf. Self.Shelf.contents shelf ≡ Some []) };

    /// Takes a written part, to hold it.
    fn hold(&mut self, number: u32, shelf: Self::Shelf) -> Result<(), PutFault>
        ensures stays { place self.new ≡ place self.old }
        ensures told { IsTrue notes → told self.new ≡ told self.old ++ Given number ∷ [] }
        ensures held { IsTrue honest → (bytes : List ℕ) → Self.Shelf.contents shelf ≡ Some bytes →
            OnOk result (held self.new ≡ held self.old ++ part_if true number bytes) }
        ensures kept { IsTrue honest → kept self.new ≡ kept self.old };

    /// Keeps the held parts: all, or if it fails, all or none. For an honest taker the caller has
    /// shown that they are the parts, all or one, of some image with right checksums. That image's
    /// data have this CRC, whatever source they were read from.
    fn keep(&mut self, dcrc: u32) -> Result<(), PutFault>
        requires { IsTrue honest → AreRight dcrc (held self.old) }
        ensures stays { place self.new ≡ place self.old }
        ensures told { IsTrue notes → told self.new ≡ told self.old ++ Kept dcrc ∷ [] }
        ensures ok { IsTrue honest → OnOk result (kept self.new ≡ kept self.old ++ held self.old) }
        ensures err { IsTrue honest → OnErr result ((kept self.new ≡ kept self.old)
            ⊎ (kept self.new ≡ kept self.old ++ held self.old)) };

    /// Discards the held parts, because the data's CRC is not that in the header.
    fn refuse(&mut self) -> Result<(), PutFault>
        ensures stays { place self.new ≡ place self.old }
        ensures told { IsTrue notes → told self.new ≡ told self.old ++ Refused ∷ [] }
        ensures kept { IsTrue honest → kept self.new ≡ kept self.old };
}
