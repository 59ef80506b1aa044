//! The trait of takers, which receive unpacked payloads.

ghost use Rattle.std.specs.Prelude.{◌≡◌, ℕ, [], ◌∷◌, ◌++◌, List, Bool, true, false, Some, IfOk, IsTrue, OnOk};
ghost use Rattle.uimg_fit_checking.specs.Unpacking.{Take, kept, refused, told_of, as_bytes, AddsIf, IsVouched};
ghost use Rattle.uimg_fit_checking.specs.Claiming.{Claim, claim};

use crate::unpacking::node_names::NodeName;
use std::io::Write;
use uimg_base::{Algo, PutFault};
use uimg_fit_base::Verdict;

/// What vouches for a payload: the strongest algorithm that its hash nodes are compared by.
#[derive(Clone, Copy, Debug, PartialEq, Eq)]
pub struct Vouched {
    /// The algorithm.
    pub algo: Algo,
    /// The payload's digest by it, padded with zeros to 64 bytes.
    pub digest: [u8; 64],
}

/// Why a payload is not kept.
#[derive(Clone, Copy, Debug)]
pub enum Refusal {
    /// A hash node of its image is not right.
    Wrong {
        /// The name of the hash node, the first of the image that is not right.
        hash: NodeName,
        /// The word that a report prints for it.
        word: Verdict,
    },
    /// No hash node of its image is compared by an algorithm at least as strong as the needed one.
    Weak,
}

/// Receives the unpacked payloads of an image one after another, by the names of their images,
/// which may come more than once.
///
/// Contracts see an honest taker as the list of what it was given, as far as `seen` shows it. If it
/// notes them, they also see what was claimed, and for which image a shelf was returned last.
pub trait Taker {
    /// What a payload is written to before anything vouches for it. Only `keep` gives it its name.
    type Shelf: Write + Drop;

    /// Where payloads go. No call changes it.
    ghost place: { Self → List ℕ } = { λ _. [] };

    /// Whether shelves hold what is written to them, and the list has all that was given.
    ghost honest: { Bool } = { false };

    /// What the list shows of a payload that was given.
    ghost seen: { Take → List Take } = { λ one. one ∷ [] };

    /// What was given so far, as far as the list shows it.
    ghost takes: { Self → List Take };

    /// Whether contracts see what was claimed, and for which image a shelf was returned.
    ghost notes: { Bool } = { false };

    /// What was claimed so far.
    ghost claimed: { Self → List Claim } = { λ _. [] };

    /// The name of the image for which a shelf was returned last.
    ghost shelved: { Self → List ℕ } = { λ _. [] };

    /// Whether a shelf was ever returned; true for a taker that does not say.
    ghost begun: { Self → Bool } = { λ _. true };

    /// Announces a payload and its length in bytes, before any is unpacked. Nothing is unpacked if
    /// it refuses.
    fn claim(&mut self, name: &NodeName, length: u64) -> Result<(), PutFault>
        ensures place { place self.new ≡ place self.old }
        ensures begun { begun self.new ≡ begun self.old }
        ensures told { IsTrue notes → claimed self.new ≡ claimed self.old
            ++ claim (as_bytes name.now) length ∷ [] }
        ensures same { IsTrue honest → takes self.new ≡ takes self.old };

    /// Returns an empty shelf to write the payload of an image to.
    fn shelf(&mut self, name: &NodeName) -> Result<Self::Shelf, PutFault>
        ensures place { place self.new ≡ place self.old }
        ensures begun { OnOk result (begun self.new ≡ true) }
        ensures its { IsTrue notes → OnOk result (shelved self.new ≡ as_bytes name.now) }
        ensures none { IsTrue notes → claimed self.new ≡ claimed self.old }
        ensures same { IsTrue honest → takes self.new ≡ takes self.old }
        ensures empty { IsTrue honest → IfOk result (λ shelf. Self.Shelf.contents shelf ≡ Some []) };

    /// Takes a payload to keep, with what vouches for it; at a failure it may be kept or not. The
    /// last shelf that was returned was requested by this name. For an honest taker the caller has
    /// shown that the digest is that of what the shelf holds, whatever source it was read from.
    fn keep(
        &mut self,
        name: &NodeName,
        shelf: Self::Shelf,
        vouched: Option<Vouched>,
    ) -> Result<(), PutFault>
        requires its { IsTrue notes → shelved self.old ≡ as_bytes name.now }
        requires vouched { IsTrue honest → (bytes : List ℕ) →
            Self.Shelf.contents shelf ≡ Some bytes → IsVouched bytes vouched }
        ensures place { place self.new ≡ place self.old }
        ensures begun { begun self.new ≡ begun self.old }
        ensures none { IsTrue notes → claimed self.new ≡ claimed self.old }
        ensures given { IsTrue honest → (bytes : List ℕ) → Self.Shelf.contents shelf ≡ Some bytes →
            AddsIf seen result (takes self.old) (takes self.new)
            (kept (as_bytes name.now) bytes vouched) };

    /// Takes a payload that is not kept, to discard it. The last shelf was requested by its name.
    fn refuse(
        &mut self,
        name: &NodeName,
        shelf: Self::Shelf,
        refusal: Refusal,
    ) -> Result<(), PutFault>
        requires { IsTrue notes → shelved self.old ≡ as_bytes name.now }
        ensures place { place self.new ≡ place self.old }
        ensures begun { begun self.new ≡ begun self.old }
        ensures none { IsTrue notes → claimed self.new ≡ claimed self.old }
        ensures given { IsTrue honest → AddsIf seen result (takes self.old) (takes self.new)
            (refused (as_bytes name.now) (told_of (as_bytes name.now) refusal)) };
}
