//! The hash nodes of one image, with their digests.

ghost use Rattle.std.specs.{Prelude.{◌≡◌, ℕ, List, map, true, IsOkUnless, IfOk}, List.filter};
ghost use Rattle.uimg_sums.specs.Algorithms.{digest_by};
ghost use Rattle.uimg_blob_reading.specs.Roles.{is_hash};
ghost use Rattle.uimg_blob_writing.specs.{Content.bytes, Properties.content};
ghost use Rattle.uimg_fit_building.specs.{Filling.hash_algo, Behind.entry, DigestBytes.zeroed};
ghost use Rattle.uimg_fit_building.specs.HashSteps.{SetsHash, SetsChild, SetsChildren};
ghost use Rattle.uimg_fit_building.specs.PayloadSums.{in_memory, all_marked};
ghost use Rattle.uimg_fit_base.specs.AlgoSets.{has, no_algos, set_of, AreDigests};
ghost use Rattle.uimg_fit_base.specs.declared.fault.FitFault.TheVariants.{OutOfMemory};

use crate::setting::{copied, first_value, with_value};
use std::alloc::Allocator;
use std::mem;
use uimg_base::{Algo, before_nul};
use uimg_blob_writing::{ByteList, Node, Props, Value};
use uimg_fit_base::{AlgoSet, Digests, FitFault, algo_by};
use uimg_texts::Naming;

fn is_hash(name: &[u8]) -> bool
    ensures { result ≡ is_hash name.now }
{
    name.starts_with(b"hash")
}

// Returns `None` if the name is not known.
#[tactic(auto, using(crate::proofs::FilledHashLaws::no_name))]
fn algo_of<A: Allocator>(naming: Naming, props: &Props<A>) -> Option<Algo>
    ensures { result ≡ hash_algo naming in_memory props.now }
{
    match first_value(props, b"algo") {
        Some(Value::Bytes(name)) => algo_by(naming, before_nul(name.items())),
        Some(Value::File { name: _, size: _ }) => None,
        None => None,
    }
}

/// Returns `None` unless all names are known.
#[tactic(auto, unfolding(crate::specs::PayloadSums::all_marked))]
pub(crate) fn algos_of<A: Allocator>(naming: Naming, nodes: &[Node<A>]) -> Option<AlgoSet>
    ensures { result
        ≡ all_marked naming no_algos (filter (λ h. is_hash h.name) (map entry nodes.now)) }
{
    let mut set = AlgoSet::none();
    for node in nodes {
        if is_hash(node.name.items()) {
            let Some(algo) = algo_of(naming, &node.props) else {
                return None;
            };
            set = set.marked(algo);
        }
    }
    Some(set)
}

fn digest_value<A: Allocator>(alloc: A, digests: &Digests, algo: Algo) -> Result<Value<A>, FitFault>
    ensures digest { (message : List ℕ) → AreDigests digests.now message →
        has (set_of digests.now) algo ≡ true → IfOk result (λ v. content v ≡ bytes (digest_by algo message)) }
    ensures rest { (message : List ℕ) → IfOk result (λ v. zeroed (content v) ≡ zeroed (bytes (digest_by algo message))) }
    ensures memory { IsOkUnless result OutOfMemory }
{
    let digest = digests.by(algo);
    Ok(Value::Bytes(copied(alloc, &digest[..algo.len()])?))
}

fn fill_hash<A: Allocator + Copy>(
    alloc: A,
    node: &mut Node<A>,
    naming: Naming,
    digests: &Digests,
) -> Result<(), FitFault>
    ensures { SetsHash naming digests.now result node }
{
    let Some(algo) = algo_of(naming, &node.props) else {
        return Ok(());
    };
    let value = digest_value(alloc, digests, algo)?;
    let props = mem::replace(&mut node.props, Props::of(Vec::new(alloc)));
    node.props = with_value(alloc, props, b"value", value)?;
    Ok(())
}

fn fill_child<A: Allocator + Copy>(
    alloc: A,
    node: &mut Node<A>,
    naming: Naming,
    digests: &Digests,
) -> Result<(), FitFault>
    ensures { SetsChild naming digests.now result node }
{
    if is_hash(node.name.items()) {
        return fill_hash(alloc, node, naming, digests);
    }
    Ok(())
}

pub(crate) fn fill_children<A: Allocator + Copy>(
    alloc: A,
    nodes: &mut [Node<A>],
    naming: Naming,
    digests: &Digests,
) -> Result<(), FitFault>
    ensures { SetsChildren naming digests.now result nodes }
{
    for node in nodes.iter_mut() {
        fill_child(alloc, node, naming, digests)?;
    }
    Ok(())
}
