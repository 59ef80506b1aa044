//! The interfaces of sums over bytes that come in pieces: of one sum, and of one or several.

ghost use Rattle.std.specs.Prelude.{ℕ, ◌≤◌, List, [], ◌++◌};
ghost use Rattle.uimg_sums.specs.{Adding.{Adds, adds_nothing, adds_more}, Digest.PutsDigest};

/// A checksum or hash over bytes that come in pieces.
///
/// Create a sum with `start`, feed it pieces of bytes, and end it with `finish`. How the bytes are
/// cut into pieces does not matter. No call fails.
pub trait Summer: Drop {
    /// Whether these bytes may have been fed so far.
    ghost holds: { Self → List ℕ → Type 0 };

    /// The digest of a list of bytes.
    ghost digest: { List ℕ → List ℕ };

    /// Starts a sum over no bytes.
    fn start() -> Self
        ensures { holds result [] };

    /// Adds the bytes after those fed so far.
    fn feed(&mut self, bytes: &[u8])
        ensures { (fed : List ℕ) → holds self.old fed → holds self.new (fed ++ bytes.now) };

    /// Writes the digest of all fed bytes to the start of `to` and returns its length in bytes, at
    /// most 64. The rest of `to` is unchanged.
    fn finish(self, to: &mut [u8; 64]) -> usize
        ensures digest { (fed : List ℕ) → holds self fed →
            PutsDigest (digest fed) to.old to.new result }
        ensures bound { result ≤ 64 };
}

/// Sums over the same bytes: one, several or none.
///
/// Every `Summer` is one, and a `Bundle`. How the bytes are cut into pieces does not matter.
pub trait Sums: Drop {
    /// Whether these bytes may have been fed between two moments.
    ghost fed: { Self → Self → List ℕ → Type 0 };

    /// Between a moment and itself nothing was fed.
    ghost fed_nothing: { (sums : Self) → fed sums sums [] };

    /// What was fed in two pieces was fed as one.
    ghost fed_more: { (first between last : Self) (xs ys : List ℕ) →
        fed first between xs → fed between last ys → fed first last (xs ++ ys) };

    /// Feeds the bytes to each sum, after those fed so far.
    fn feed_all(&mut self, bytes: &[u8])
        ensures { fed self.old self.new bytes.now };
}

impl<M: Summer> Sums for M {
    ghost fed = { Adds M.holds };

    ghost fed_nothing = { adds_nothing M.holds };

    ghost fed_more = { adds_more M.holds };

    fn feed_all(&mut self, bytes: &[u8]) {
        self.feed(bytes);
    }
}
