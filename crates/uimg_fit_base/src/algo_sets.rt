//! Sets of algorithms, and the digests by them of one pass over some bytes.
ghost use Rattle.std.specs.Prelude.{◌≡◌, ◌<◌, ◌≤◌, ◌++◌, ◌∷◌, ℕ, [], List, length, take, true, Some, slice_get, if◌then◌else◌};
ghost use Rattle.std.specs.List.{count_by};
ghost use Rattle.uimg_sums.specs.{Algorithms.{all_algos, number, digest_by}, AnySum.padded_digest};
ghost use Rattle.uimg_sums.specs.{declared.algo.Algo.Algo, Bundle.{Holds, padded_digests}};
ghost use Rattle.uimg_fit_base.specs.AlgoSets.{is_empty, has, marked, no_algos, chosen, set_of, AreDigests};

use uimg_base::{ALGOS, Algo, Bundle};

/// A set of algorithms: the bit of an algorithm's number says whether it is in it.
#[derive(Clone, Copy, Debug, PartialEq, Eq)]
pub struct AlgoSet {
    bits: u8,
}

impl AlgoSet {
    /// Returns the empty set.
    pub fn none() -> AlgoSet
        ensures { result ≡ no_algos }
    {
        AlgoSet { bits: 0 }
    }

    /// Returns whether the set is empty.
    #[tactic(auto, unfolding(crate::specs::AlgoSets::is_empty))]
    pub fn is_empty(self) -> bool
        ensures { result ≡ is_empty self }
    {
        self.bits == 0
    }

    /// Returns whether an algorithm is in the set.
    #[tactic(auto, unfolding(crate::specs::AlgoSets::has))]
    pub fn has(self, algo: Algo) -> bool
        ensures { result ≡ has self algo }
    {
        (self.bits >> algo as u8) % 2 == 1
    }

    /// Returns the set with one more algorithm.
    #[tactic(auto, unfolding(crate::specs::AlgoSets::marked))]
    pub fn marked(self, algo: Algo) -> AlgoSet
        ensures { result ≡ marked self algo }
    {
        AlgoSet {
            bits: self.bits | 1 << algo as u8,
        }
    }

    /// Returns an empty sum by each algorithm of the set.
    pub fn sums(self) -> Bundle
        ensures { Holds result (chosen self) [] }
    {
        let mut bundle = Bundle::new();
        for algo in ALGOS {
            add_chosen(&mut bundle, self, algo);
        }
        bundle
    }
}

fn add_chosen(bundle: &mut Bundle, set: AlgoSet, algo: Algo)
    ensures { (algos : List Algo) → Holds bundle.old algos [] → length algos < 8 →
        Holds bundle.new (algos ++ (if has set algo then algo ∷ [] else [])) [] }
{
    if set.has(algo) {
        bundle.add(algo);
    }
}

// Returns the number of an algorithm's sum in the bundle of a set.
fn place(set: AlgoSet, algo: Algo) -> usize
    ensures { result ≡ count_by (has set) (take (number algo) all_algos) }
{
    let mut place = 0;
    for known in &ALGOS[..algo as usize] {
        if set.has(*known) {
            place += 1;
        }
    }
    place
}

// Returns digest number `i` of eight, or zeros if `i` is not below 8.
fn digest_at(digests: &[([u8; 64], usize); 8], i: usize) -> [u8; 64]
    ensures { (algos : List Algo) (message : List ℕ) → digests.now ≡ padded_digests algos message →
        (algo : Algo) → slice_get algos i ≡ Some algo → length algos ≤ 8 →
        result ≡ (padded_digest (digest_by algo message)).0 }
{
    if i < 8 { digests[i].0 } else { [0; 64] }
}

/// The digests of the same bytes by the algorithms of a set.
#[derive(Drop)]
pub struct Digests {
    set: AlgoSet,
    digests: [([u8; 64], usize); 8],
}

impl Digests {
    /// Finishes the sums of a set.
    pub fn of(set: AlgoSet, sums: Bundle) -> Digests
        ensures set { set_of result ≡ set }
        ensures digests { (message : List ℕ) → Holds sums (chosen set) message →
            AreDigests result message }
    {
        Digests {
            set,
            digests: sums.finish(),
        }
    }

    /// Returns the set of the algorithms.
    pub fn set(&self) -> AlgoSet
        ensures { result ≡ set_of self.now }
    {
        self.set
    }

    /// Returns the digest by an algorithm of the set, followed by zeros up to 64 bytes. For other
    /// algorithms nothing is claimed.
    pub fn by(&self, algo: Algo) -> [u8; 64]
        ensures { (message : List ℕ) → AreDigests self.now message → has (set_of self.now) algo ≡ true →
            result ≡ (padded_digest (digest_by algo message)).0 }
    {
        digest_at(&self.digests, place(self.set, algo))
    }
}
