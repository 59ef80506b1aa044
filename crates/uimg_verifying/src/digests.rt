//! The digest of what a signature signs.

ghost use Rattle.std.specs.Prelude.{◌≡◌, Ok, IfOk};
ghost use Rattle.uimg_base.specs.{Honest.IfHonest, Using.Uses};
ghost use Rattle.uimg_signing.specs.{Covering.is_marked, Faults.{is_unread, Refuses}, Message.{message, refusal}};
ghost use Rattle.uimg_sums.specs.{Algorithms.digest_by, AnySum.padded_digest};
ghost use Rattle.uimg_blob_reading.specs.{Blob.tree, Grammar.Siblings};
ghost use Rattle.uimg_texts.specs.Numbers.{be32};

use std::alloc::Allocator;
use uimg_base::{Room, Source};
use uimg_blob_reading::Blob;
use uimg_fit_base::{AlgoSet, Digests};
use uimg_signing::{SigningFault, feed_message};
use uimg_sums::Algo;

/// Returns the digest of the message of the nodes at these offsets, padded with zeros to 64 bytes.
/// The message ends with so many bytes of the strings block.
pub(crate) fn message_digest<S: Source, A: Allocator>(
    source: &mut S,
    blob: &Blob,
    room: &mut Room<A>,
    marks: &[u64],
    strings: u64,
    algo: Algo,
) -> Result<[u8; 64], SigningFault>
    ensures uses { Uses (is_unread result) (S.device source.old) (S.device source.new) }
    ensures room { room.new ≡ room.old }
    ensures refused { IfHonest S.device source (λ file. (t : Siblings) → tree file ≡ Ok t →
        blob.now.totalsize ≡ be32 file 4 → Refuses (refusal (is_marked marks.now) file strings)
        result) }
    ensures digest { IfHonest S.device source (λ file. (t : Siblings) → tree file ≡ Ok t →
        blob.now.totalsize ≡ be32 file 4 → IfOk result (λ digest. digest
        ≡ (padded_digest (digest_by algo (message (is_marked marks.now) file strings))).0)) }
{
    let set = AlgoSet::none().marked(algo);
    let mut sums = set.sums();
    match feed_message(source, blob, room, marks, strings, &mut sums) {
        Ok(()) => Ok(Digests::of(set, sums).by(algo)),
        Err(fault) => Err(fault),
    }
}
