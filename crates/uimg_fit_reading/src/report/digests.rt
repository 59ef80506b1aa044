//! The digests that the hash nodes of an image are compared with, from one pass over its payload.
ghost use Rattle.std.specs.Prelude.{◌≡◌, ◌+◌, ◌≤◌, length, is_err, IfOk, if◌then◌else◌};
ghost use Rattle.uimg_base.specs.{Honest.HonestSource, Using.{Asks, Uses}};
ghost use Rattle.uimg_fit_base.specs.AlgoSets.{is_empty, set_of, AreDigests};
ghost use Rattle.uimg_fit_reading.specs.{HashReports.{FindsAlgos, FindsDigests}, Plans.with_plan};
ghost use Rattle.uimg_fit_reading.specs.Nodes.{OfHashes, HasNodes};
ghost use Rattle.uimg_fit_reading.specs.{OpenFits.{file_of, InFit, Keeps}, Values.in_span};

use crate::nodes::next_hash;
use crate::open_fit::OpenFit;
use crate::report::plans::{Plan, plan_at};
use std::alloc::Allocator;
use uimg_base::{Room, Source, SourceFault, Span, feed_through};
use uimg_blob_reading::Blob;
use uimg_fit_base::{AlgoSet, Digests};
use uimg_texts::Naming;

// Adds the algorithm of a plan that compares to a set.
fn with_plan(set: AlgoSet, plan: Plan) -> AlgoSet
    ensures { result ≡ with_plan set plan }
{
    match plan {
        Plan::Compared(algo, _) => set.marked(algo),
        _ => set,
    }
}

/// Returns the algorithms of the compared hash nodes, from one on, among those of a set of names.
pub fn compared_algos<S: Source, A: Allocator>(
    source: &mut S,
    blob: &Blob,
    room: &Room<A>,
    naming: Naming,
    first: Option<usize>,
) -> Result<AlgoSet, SourceFault>
    requires { HasNodes (S.device source.old) blob.now room.now first }
    ensures uses { Uses (is_err result) (S.device source.old) (S.device source.new) }
    ensures found { OfHashes (S.device source.old) blob.now room.now first
        (λ hs. FindsAlgos naming hs result S.device source) }
{
    let mut set = AlgoSet::none();
    let mut next = first;
    while let Some(hash) = next {
        let plan = plan_at(source, blob, room, naming, hash)?;
        set = with_plan(set, plan);
        next = next_hash(blob, room, hash);
    }
    Ok(set)
}

/// Returns the digests of a payload by a set of algorithms. Reads it once, or not for an empty set.
pub fn payload_digests<S: Source, A: Allocator>(
    source: &mut S,
    room: &mut Room<A>,
    set: AlgoSet,
    span: Span,
) -> Result<Digests, SourceFault>
    requires { span.place + span.length ≤ length (S.device source.old).bytes }
    ensures uses { Asks (if is_empty set then 0 else span.length) (is_err result)
        (S.device source.old) (S.device source.new) }
    ensures room { room.new ≡ room.old }
    ensures set { IfOk result (λ found. set_of found ≡ set) }
    ensures digests { HonestSource S.device source →
        IfOk result (λ found. AreDigests found (in_span (S.device source.old).bytes span)) }
{
    let mut sums = set.sums();
    if set.is_empty() {
        return Ok(Digests::of(set, sums));
    }
    feed_through(&mut sums, source, room.window(), span.place, span.length)?;
    Ok(Digests::of(set, sums))
}

pub(crate) fn compared_digests<S: Source, A: Allocator>(
    fit: &mut OpenFit<'_, S, A>,
    first: Option<usize>,
    span: Span,
) -> Result<Digests, SourceFault>
    requires node { InFit S.device fit.old HasNodes first }
    requires payload { span.place + span.length ≤ length (file_of S.device fit.old) }
    ensures keeps { Keeps (is_err result) S.device fit }
    ensures found { FindsDigests span first result S.device fit }
{
    let set = compared_algos(fit.source, &fit.blob, fit.room, Naming::Profile, first)?;
    payload_digests(fit.source, fit.room, set, span)
}
