//! Up to eight sums over the same bytes.

ghost use Rattle.std.specs.Prelude.{◌≡◌, ◌==◌, ◌<◌, ℕ, List, [], ◌∷◌, ◌++◌, length, false, IsTrue, ◌↔◌};
ghost use Rattle.std.specs.Option.{option_map};
ghost use Rattle.uimg_sums.specs.{Adding.{Adds, adds_nothing, adds_more}, declared.algo.Algo.Algo};
ghost use Rattle.uimg_sums.specs.AnySum.{algo_of, padded_digest};
ghost use Rattle.uimg_sums.specs.Bundle.{Holds, SlotHolds, digest_at, padded_digests};

use crate::algo::Algo;
use crate::any_sum::AnySum;
use crate::sums::Sums;

/// Up to eight sums over the same bytes, each with its own algorithm.
///
/// Sums are added first, then all are fed at once. An algorithm may be added more than once. No
/// call takes memory, and only `add` can refuse.
#[derive(Drop)]
pub struct Bundle {
    sums: [Option<AnySum>; 8],
    count: usize,
    has_fed: bool,
}

impl Bundle {
    /// Creates a bundle of no sums.
    pub fn new() -> Bundle
        ensures { Holds result [] [] }
    {
        Bundle {
            sums: [None, None, None, None, None, None, None, None],
            count: 0,
            has_fed: false,
        }
    }

    /// Adds a sum after the existing ones. All sums are added before the first byte is fed.
    ///
    /// Returns `false`, and changes nothing, if there are eight sums or a byte was fed.
    pub fn add(&mut self, algo: Algo) -> bool
        ensures room { (algos : List Algo) (fed : List ℕ) → Holds self.old algos fed →
            (IsTrue result ↔ (length algos < 8) × (fed ≡ [])) }
        ensures added { (algos : List Algo) → Holds self.old algos [] → length algos < 8 →
            Holds self.new (algos ++ algo ∷ []) [] }
        ensures full { result ≡ false → self.new ≡ self.old }
    {
        if self.has_fed {
            return false;
        }
        if self.count >= 8 {
            return false;
        }
        self.sums[self.count] = Some(AnySum::start(algo));
        self.count += 1;
        true
    }

    /// Returns the number of sums.
    pub fn len(&self) -> usize
        ensures { (algos : List Algo) (fed : List ℕ) → Holds self.now algos fed →
            result ≡ length algos }
    {
        self.count
    }

    /// Returns whether the bundle has no sums.
    pub fn is_empty(&self) -> bool
        ensures { (algos : List Algo) (fed : List ℕ) → Holds self.now algos fed →
            result ≡ (length algos == 0) }
    {
        self.len() == 0
    }

    /// Feeds the bytes to each sum, after those fed so far.
    pub fn feed(&mut self, bytes: &[u8])
        ensures { (algos : List Algo) (fed : List ℕ) → Holds self.old algos fed →
            Holds self.new algos (fed ++ bytes.now) }
    {
        if !bytes.is_empty() {
            self.has_fed = true;
        }
        for slot in self.sums.iter_mut() {
            feed_slot(slot, bytes);
        }
    }

    /// Returns the digest of all fed bytes for each sum, in the order of addition.
    ///
    /// A digest is at the start of its 64 bytes, padded with zeros; its length in bytes is beside
    /// it. Slots from `len` on have zeros and length 0.
    pub fn finish(self) -> [([u8; 64], usize); 8]
        ensures { (algos : List Algo) (fed : List ℕ) → Holds self algos fed →
            result ≡ padded_digests algos fed }
    {
        self.sums.map(digest_of)
    }
}

impl Sums for Bundle {
    ghost fed = { λ old new bytes.
        (algos : List Algo) → Adds (λ bundle. Holds bundle algos) old new bytes };

    ghost fed_nothing = { λ bundle algos. adds_nothing (λ b. Holds b algos) bundle };

    ghost fed_more = { λ first between last xs ys p q algos.
        adds_more (λ b. Holds b algos) first between last xs ys (p algos) (q algos) };

    fn feed_all(&mut self, bytes: &[u8]) {
        self.feed(bytes);
    }
}

fn feed_slot(slot: &mut Option<AnySum>, bytes: &[u8])
    ensures algo { option_map algo_of slot.new ≡ option_map algo_of slot.old }
    ensures fed { (fed : List ℕ) → SlotHolds fed slot.old → SlotHolds (fed ++ bytes.now) slot.new }
{
    if let Some(sum) = slot {
        sum.feed(bytes);
    }
}

// Zeros and length 0 if the slot has no sum.
fn digest_of(slot: Option<AnySum>) -> ([u8; 64], usize)
    ensures { (fed : List ℕ) → SlotHolds fed slot →
        result ≡ padded_digest (digest_at fed (option_map algo_of slot)) }
{
    match slot {
        Some(sum) => sum.finish(),
        None => ([0; 64], 0),
    }
}
