//! Whether the hash nodes of an image vouch for what was written of its payload.

ghost use Rattle.std.specs.Prelude.{◌≡◌, ◌≤◌, ◌+◌, ℕ, List, length, is_err, IfOk};
ghost use Rattle.uimg_texts.specs.declared.naming.Naming.TheVariants as naming;
ghost use Rattle.uimg_base.specs.Honest.{HonestSource};
ghost use Rattle.uimg_base.specs.Using.{Asks, Uses};
ghost use Rattle.uimg_blob_reading.specs.LookUps.{hashes};
ghost use Rattle.uimg_blob_reading.specs.Roles.{in_images};
ghost use Rattle.uimg_fit_base.specs.AlgoSets.{set_of, no_algos, AreDigests};
ghost use Rattle.uimg_fit_reading.specs.Nodes.{OfNode, HasNode};
ghost use Rattle.uimg_fit_reading.specs.Plans.{with_all};
ghost use Rattle.uimg_fit_checking.specs.CheckParts.{wrong_told};
ghost use Rattle.uimg_fit_checking.specs.UnpackingParts.{FindsRefusal};
ghost use Rattle.uimg_fit_checking.specs.Unpacking.{strongest, vouched_by, told_of};

use crate::unpacking::node_names::read_name;
use crate::unpacking::taker::{Refusal, Vouched};
use crate::vouching::lacks;
use crate::wrong_hashes::{WrongHash, first_wrong};
use std::alloc::Allocator;
use uimg_base::{ALGOS, Algo, Room, Source, SourceFault};
use uimg_blob_reading::Blob;
use uimg_fit_base::{AlgoSet, Digests};
use uimg_fit_reading::nodes::first_hash;

#[tactic(auto, unfolding(crate::specs::Unpacking::strongest))]
fn strongest(set: AlgoSet) -> Option<Algo>
    ensures { result ≡ strongest set }
{
    let mut strongest = None;
    for algo in ALGOS {
        if set.has(algo) {
            strongest = Some(algo);
        }
    }
    strongest
}

pub(super) fn vouched_by(digests: &Digests) -> Option<Vouched>
    ensures { (message : List ℕ) → AreDigests digests.now message →
        result ≡ vouched_by (set_of digests.now) message }
{
    match strongest(digests.set()) {
        Some(algo) => Some(Vouched {
            algo,
            digest: digests.by(algo),
        }),
        None => None,
    }
}

fn refusal<S: Source>(source: &mut S, wrong: WrongHash) -> Result<Refusal, SourceFault>
    requires { wrong.hash.place + wrong.hash.length ≤ length (S.device source.old).bytes }
    ensures uses { Asks 255 (is_err result) (S.device source.old) (S.device source.new) }
    ensures told { HonestSource S.device source → wrong.hash.length ≤ 255 → (name : List ℕ) →
        IfOk result (λ found. told_of name found ≡ wrong_told (S.device source.old).bytes name wrong) }
{
    Ok(Refusal::Wrong {
        hash: read_name(source, wrong.hash)?,
        word: wrong.word,
    })
}

// Returns why a payload is refused by its digests, if it is: a hash node that is not right, or else
// none as strong as needed.
pub(super) fn refusal_of<S: Source, A: Allocator>(
    source: &mut S,
    blob: &Blob,
    room: &Room<A>,
    image: usize,
    digests: &Digests,
    need: Option<Algo>,
) -> Result<Option<Refusal>, SourceFault>
    requires { HasNode (S.device source.old) blob.now room.now image }
    ensures uses { Uses (is_err result) (S.device source.old) (S.device source.new) }
    ensures told { OfNode (S.device source.old) blob.now room.now in_images image
        (λ found. (message : List ℕ) → AreDigests digests.now message →
        set_of digests.now ≡ with_all naming.All no_algos (hashes found) →
        FindsRefusal need found message result S.device source) }
{
    let first = first_hash(blob, room, image);
    if let Some(wrong) = first_wrong(source, blob, room, first, digests)? {
        return Ok(Some(refusal(source, wrong)?));
    }
    if lacks(digests.set(), need) {
        return Ok(Some(Refusal::Weak));
    }
    Ok(None)
}
