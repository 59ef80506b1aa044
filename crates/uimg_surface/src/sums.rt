//! The calls of `uimg_base` on the room, sums and ranges.

ghost use Rattle.std.specs.Prelude.{◌≡◌, ◌+◌, ◌<◌, ◌≤◌, ◌↔◌, ℕ, List, [], ◌∷◌, ◌++◌, length, max, Some, false, is_ok, is_err, if◌then◌else◌, IsTrue, IfOk, OnErr, slice_get, slice_set};
ghost use Rattle.std.specs.Borrow.{sem};
ghost use Rattle.uimg_sums.specs.Algorithms.{algo_named, digest_size, digest_by};
ghost use Rattle.uimg_sums.specs.declared.algo.Algo.{Algo};
ghost use Rattle.uimg_sums.specs.declared.algo.Algo.TheVariants.{Crc32, Md5, Sha1, Sha256, Sha384, Sha512};
ghost use Rattle.uimg_sums.specs.Bundle.{Holds, padded_digests};
ghost use Rattle.uimg_sums.specs.CrcSteps.{bit_steps};
ghost use Rattle.uimg_sums.specs.Digest.{PutsDigest};
ghost use Rattle.uimg_texts.specs.Slices.{slice};
ghost use Rattle.uimg_base.specs.Device.{RisesIf};
ghost use Rattle.uimg_base.specs.Honest.{HonestSource};
ghost use Rattle.uimg_base.specs.Held.{held_bytes};
ghost use Rattle.uimg_base.specs.Window.{LendsWindow};
ghost use Rattle.uimg_base.specs.Ranges.{is_read, is_put, Copies};
ghost use Rattle.uimg_base.specs.Using.{Asks, AsksAll};

use std::alloc::{AllocError, Allocator};
use std::io::Write;
use uimg_base::{
    Algo, Bundle, Crc, Md5Sum, MoveFault, Out, Room, Sha1Sum, Sha256Sum, Sha384Sum, Sha512Sum,
    Source, SourceFault, Summer,
};

// The room.

/// Creates a room: a window of 8192 bytes, and no entries of 128 bytes.
pub fn room_of<A: Allocator>(alloc: A) -> Room<A>
    ensures { result ≡ record { entries = []; peak = 8192; refused = 0 } }
{
    Room::new(alloc)
}

/// Drops all entries of a room.
pub fn clear<A: Allocator>(room: &mut Room<A>)
    ensures { room.new ≡ record room.old { entries = [] } }
{
    room.clear();
}

/// Appends an entry to a room, taking memory for just that one.
///
/// Returns `AllocError` if and only if the memory was refused. Then the entries are unchanged.
pub fn add<A: Allocator>(room: &mut Room<A>, words: [u64; 16]) -> Result<(), AllocError>
    ensures entries { room.new.entries ≡ (if is_ok result then room.old.entries ++ words ∷ []
        else room.old.entries) }
    ensures peak { room.new.peak ≡ (if is_ok result
        then max room.old.peak (held_bytes (length room.old.entries + 1)) else room.old.peak) }
    ensures refused { RisesIf (is_err result) room.old.refused room.new.refused }
{
    room.add(words)
}

/// Returns the entry of a number, from 0 and below `count`.
pub fn entry<A: Allocator>(room: &Room<A>, number: usize) -> [u64; 16]
    requires { number < length room.now.entries }
    ensures { slice_get room.now.entries number ≡ Some result }
{
    room.entry(number)
}

/// Replaces the entry of a number, from 0 and below `count`.
pub fn set<A: Allocator>(room: &mut Room<A>, number: usize, words: [u64; 16])
    requires { number < length room.old.entries }
    ensures { room.new ≡ record room.old { entries = slice_set room.old.entries number words } }
{
    room.set(number, words);
}

/// Returns the number of entries.
pub fn count<A: Allocator>(room: &Room<A>) -> usize
    ensures { result ≡ length room.now.entries }
{
    room.count()
}

/// Returns the bytes that a room holds: 8192, and 128 for each entry.
pub fn held<A: Allocator>(room: &Room<A>) -> u128
    ensures { result ≡ held_bytes (length room.now.entries) }
{
    room.held()
}

/// Lends the window of a room, to write to. The rest of the room is unchanged.
pub fn window<A: Allocator>(room: &mut Room<A>) -> &mut [u8; 8192]
    ensures* { sem 𝓛 (LendsWindow A.row A.Allocator room.entry result) }
{
    room.window()
}

// Sums.

/// Starts a sum over no bytes.
pub fn start<M: Summer>() -> M
    ensures { M.holds result [] }
{
    M::start()
}

/// Adds bytes to a sum, after those fed so far.
pub fn feed<M: Summer>(sum: &mut M, bytes: &[u8])
    ensures { (fed : List ℕ) → M.holds sum.old fed → M.holds sum.new (fed ++ bytes.now) }
{
    sum.feed(bytes);
}

/// Writes the digest of all fed bytes to the start of `to` and returns its length in bytes. The
/// rest of `to` is unchanged.
pub fn finish<M: Summer>(sum: M, to: &mut [u8; 64]) -> usize
    ensures { (fed : List ℕ) → M.holds sum fed → PutsDigest (M.digest fed) to.old to.new result }
{
    sum.finish(to)
}

/// Ends a sum as `finish`: CRC-32 (ITU-T V.42) as 4 bytes, the highest first.
pub fn finish_crc(sum: Crc, to: &mut [u8; 64]) -> usize
    ensures { (fed : List ℕ) → ⟦<Crc as Summer>⟧.holds sum fed →
        PutsDigest (digest_by Crc32 fed) to.old to.new result }
{
    sum.finish(to)
}

/// Ends a sum as `finish`: the 16 bytes of MD5 (RFC 1321).
pub fn finish_md5(sum: Md5Sum, to: &mut [u8; 64]) -> usize
    ensures { (fed : List ℕ) → ⟦<Md5Sum as Summer>⟧.holds sum fed →
        PutsDigest (digest_by Md5 fed) to.old to.new result }
{
    sum.finish(to)
}

/// Ends a sum as `finish`: the 20 bytes of SHA-1 (FIPS 180-4).
pub fn finish_sha1(sum: Sha1Sum, to: &mut [u8; 64]) -> usize
    ensures { (fed : List ℕ) → ⟦<Sha1Sum as Summer>⟧.holds sum fed →
        PutsDigest (digest_by Sha1 fed) to.old to.new result }
{
    sum.finish(to)
}

/// Ends a sum as `finish`: the 32 bytes of SHA-256 (FIPS 180-4).
pub fn finish_sha256(sum: Sha256Sum, to: &mut [u8; 64]) -> usize
    ensures { (fed : List ℕ) → ⟦<Sha256Sum as Summer>⟧.holds sum fed →
        PutsDigest (digest_by Sha256 fed) to.old to.new result }
{
    sum.finish(to)
}

/// Ends a sum as `finish`: the 48 bytes of SHA-384 (FIPS 180-4).
pub fn finish_sha384(sum: Sha384Sum, to: &mut [u8; 64]) -> usize
    ensures { (fed : List ℕ) → ⟦<Sha384Sum as Summer>⟧.holds sum fed →
        PutsDigest (digest_by Sha384 fed) to.old to.new result }
{
    sum.finish(to)
}

/// Ends a sum as `finish`: the 64 bytes of SHA-512 (FIPS 180-4).
pub fn finish_sha512(sum: Sha512Sum, to: &mut [u8; 64]) -> usize
    ensures { (fed : List ℕ) → ⟦<Sha512Sum as Summer>⟧.holds sum fed →
        PutsDigest (digest_by Sha512 fed) to.old to.new result }
{
    sum.finish(to)
}

/// Looks up an algorithm by its name in hash nodes: crc32, md5, sha1, sha256, sha384 or sha512.
pub fn algo(name: &[u8]) -> Option<Algo>
    ensures { result ≡ algo_named name.now }
{
    Algo::named(name)
}

/// Returns the length of an algorithm's digest in bytes.
pub fn digest_len(algo: Algo) -> usize
    ensures { result ≡ digest_size algo }
{
    algo.len()
}

/// Returns an entry of the CRC-32 table: eight bit steps from the index.
pub fn crc_entry(index: u8) -> u32
    ensures { result ≡ bit_steps 8 index }
{
    uimg_base::crc_entry(index)
}

/// Creates a bundle of no sums.
pub fn bundle() -> Bundle
    ensures { Holds result [] [] }
{
    Bundle::new()
}

/// Adds a sum to a bundle, after the existing ones.
///
/// Returns `false`, and changes nothing, if there are eight sums or a byte was fed.
pub fn add_sum(bundle: &mut Bundle, algo: Algo) -> bool
    ensures room { (algos : List Algo) (fed : List ℕ) → Holds bundle.old algos fed →
        (IsTrue result ↔ (length algos < 8) × (fed ≡ [])) }
    ensures added { (algos : List Algo) → Holds bundle.old algos [] → length algos < 8 →
        Holds bundle.new (algos ++ algo ∷ []) [] }
    ensures full { result ≡ false → bundle.new ≡ bundle.old }
{
    bundle.add(algo)
}

/// Returns the number of sums of a bundle.
pub fn sum_count(bundle: &Bundle) -> usize
    ensures { (algos : List Algo) (fed : List ℕ) → Holds bundle.now algos fed →
        result ≡ length algos }
{
    bundle.len()
}

/// Feeds bytes to each sum of a bundle, after those fed so far.
pub fn feed_sums(bundle: &mut Bundle, bytes: &[u8])
    ensures { (algos : List Algo) (fed : List ℕ) → Holds bundle.old algos fed →
        Holds bundle.new algos (fed ++ bytes.now) }
{
    bundle.feed(bytes);
}

/// Returns the digest of all fed bytes by each algorithm of a bundle, padded with zeros to 64
/// bytes, with its length. The other slots have zeros and length 0.
pub fn digests(bundle: Bundle) -> [([u8; 64], usize); 8]
    ensures { (algos : List Algo) (fed : List ℕ) → Holds bundle algos fed →
        result ≡ padded_digests algos fed }
{
    bundle.finish()
}

// Ranges.

/// Copies `len` bytes at offset `at` of a source to an output, through the room's window. The range
/// must be inside the source.
///
/// At most `len` bytes are requested. Over an honest source, at every exit, a prefix of the range
/// was written and at most 8192 bytes more were requested; at `Ok` all of it was written.
///
/// - `MoveFault::Read`: if and only if a read failed.
/// - `MoveFault::Put`: if and only if a write failed.
pub fn copy_range<S: Source, W: Write, A: Allocator>(
    source: &mut S,
    room: &mut Room<A>,
    at: u64,
    len: u64,
    out: &mut Out<W>,
) -> Result<(), MoveFault>
    requires { at + len ≤ length (S.device source.old).bytes }
    ensures uses { Asks len (is_read result) (S.device source.old) (S.device source.new) }
    ensures faults { RisesIf (is_put result) out.old.faults out.new.faults }
    ensures copied { HonestSource S.device source →
        Copies (is_err result) (S.device source.old) (S.device source.new) out.old out.new
        (slice (S.device source.old).bytes at len) }
    ensures room { room.new ≡ room.old }
{
    uimg_base::copy_range(source, room, at, len, out)
}

/// Sums `len` bytes at offset `at` of a source through the room's window. Writes the digest to the
/// start of `to` and returns its length. The range must be inside the source.
///
/// At most `len` bytes are requested, and exactly `len` at `Ok`. Returns `SourceFault` if and only
/// if a read failed; then `to` is unchanged.
pub fn sum_range<M: Summer, S: Source, A: Allocator>(
    source: &mut S,
    room: &mut Room<A>,
    at: u64,
    len: u64,
    to: &mut [u8; 64],
) -> Result<usize, SourceFault>
    requires { at + len ≤ length (S.device source.old).bytes }
    ensures uses { AsksAll len (is_err result) (S.device source.old) (S.device source.new) }
    ensures digest { HonestSource S.device source →
        IfOk result (PutsDigest (M.digest (slice (S.device source.old).bytes at len))
        to.old to.new) }
    ensures kept { OnErr result (to.new ≡ to.old) }
    ensures room { room.new ≡ room.old }
{
    uimg_base::sum_range::<M, S, A>(source, room, at, len, to)
}
