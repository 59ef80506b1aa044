//! The plan for a hash node before its payload is read, and its word afterwards.
ghost use Rattle.std.specs.Prelude.{◌≡◌, ◌+◌, ◌≤◌, ℕ, List, length, take, is_err, IfOk};
ghost use Rattle.std.specs.Str.{bytes_eq};
ghost use Rattle.uimg_base.specs.{Honest.HonestSource, Using.Asks};
ghost use Rattle.uimg_fit_base.specs.{AlgoNames.algo_by, AlgoSets.{set_of, AreDigests}};
ghost use Rattle.uimg_fit_base.specs.Report.{named_word};
ghost use Rattle.uimg_fit_reading.specs.{Nodes.{OfHash, HasNode}, Values.in_span};
ghost use Rattle.uimg_fit_reading.specs.PayloadPlaces.{Ends};
ghost use Rattle.uimg_fit_reading.specs.Plans.{plan_by_value, plan_by_algo, plan_by_name, hash_plan, text_in, IsOf, EndsIn, IsCovered, IsCompared, word_by};

use crate::nodes::value_of;
use std::alloc::Allocator;
use uimg_base::{Algo, Room, Source, SourceFault, Span};
use uimg_blob_reading::{Blob, Key, short_text};
use uimg_fit_base::{Digests, Verdict, algo_by};
use uimg_texts::Naming;

/// The plan for a hash node, made before any payload is read.
#[derive(Clone, Copy)]
pub(crate) enum Plan {
    Malformed,
    Unsupported,
    Compared(Algo, Span),
}

#[tactic(auto, unfolding(crate::specs::Plans::plan_for))]
fn plan_by(algo: Algo, value: Option<Span>) -> Plan
    ensures plan { result ≡ plan_by_value algo value }
    ensures value { IsOf value result }
{
    match value {
        Some(span) if span.length == algo.len() as u64 => Plan::Compared(algo, span),
        _ => Plan::Malformed,
    }
}

fn plan_named(naming: Naming, name: &[u8], value: Option<Span>) -> Plan
    ensures plan { result ≡ plan_by_algo (algo_by naming name.now) value }
    ensures value { IsOf value result }
{
    match algo_by(naming, name) {
        Some(algo) => plan_by(algo, value),
        None => Plan::Unsupported,
    }
}

fn planned<S: Source>(
    source: &mut S,
    naming: Naming,
    algo: Option<Span>,
    value: Option<Span>,
) -> Result<Plan, SourceFault>
    requires { Ends (length (S.device source.old).bytes) algo }
    ensures uses { Asks 32 (is_err result) (S.device source.old) (S.device source.new) }
    ensures plan { HonestSource S.device source → IfOk result (λ plan.
        plan ≡ plan_by_name naming (text_in (S.device source.old).bytes algo) value) }
    ensures value { IfOk result (IsOf value) }
{
    let Some(span) = algo else {
        return Ok(Plan::Malformed);
    };
    let mut bytes = [0; 32];
    match short_text(source, span, &mut bytes)? {
        Some(length) => Ok(plan_named(naming, &bytes[..length], value)),
        None => Ok(Plan::Unsupported),
    }
}

pub(crate) fn plan_at<S: Source, A: Allocator>(
    source: &mut S,
    blob: &Blob,
    room: &Room<A>,
    naming: Naming,
    hash: usize,
) -> Result<Plan, SourceFault>
    requires { HasNode (S.device source.old) blob.now room.now hash }
    ensures uses { Asks 32 (is_err result) (S.device source.old) (S.device source.new) }
    ensures ends { IfOk result (EndsIn (length (S.device source.old).bytes)) }
    ensures plan { OfHash (S.device source.old) blob.now room.now hash (λ found.
        IfOk result (λ plan. plan ≡ hash_plan naming found)) }
    ensures word { OfHash (S.device source.old) blob.now room.now hash (λ found.
        (message : List ℕ) → IfOk result (λ plan.
        word_by (S.device source.old).bytes message plan ≡ named_word naming message found)) }
{
    let algo = value_of(blob, room, hash, Key::Algo);
    let value = value_of(blob, room, hash, Key::Value);
    planned(source, naming, algo, value)
}

// Returns whether the value at a span equals the beginning of a digest.
fn is_digest<S: Source>(source: &mut S, span: Span, digest: &[u8; 64]) -> Result<bool, SourceFault>
    requires range { span.place + span.length ≤ length (S.device source.old).bytes }
    requires few { span.length ≤ 64 }
    ensures uses { Asks span.length (is_err result) (S.device source.old) (S.device source.new) }
    ensures same { HonestSource S.device source → IfOk result (λ same.
        same ≡ bytes_eq (in_span (S.device source.old).bytes span) (take span.length digest.now)) }
{
    let length = span.length as usize;
    let mut bytes = [0; 64];
    let value = &mut bytes[..length];
    source.fill_at(span.place, value)?;
    Ok(bytes[..length] == digest[..length])
}

pub(crate) fn judged<S: Source>(
    source: &mut S,
    plan: Plan,
    digests: &Digests,
) -> Result<Verdict, SourceFault>
    requires { EndsIn (length (S.device source.old).bytes) plan }
    ensures uses { Asks 64 (is_err result) (S.device source.old) (S.device source.new) }
    ensures word { HonestSource S.device source → (message : List ℕ) →
        AreDigests digests.now message → IsCovered (set_of digests.now) plan →
        IfOk result (λ word. word ≡ word_by (S.device source.old).bytes message plan) }
    ensures compared { IfOk result (IsCompared (set_of digests.now) plan) }
{
    match plan {
        Plan::Malformed => Ok(Verdict::Malformed),
        Plan::Unsupported => Ok(Verdict::Unsupported),
        Plan::Compared(algo, span) => {
            if !digests.set().has(algo) {
                return Ok(Verdict::Wrong);
            }
            if is_digest(source, span, &digests.by(algo))? {
                Ok(Verdict::Right)
            } else {
                Ok(Verdict::Wrong)
            }
        }
    }
}
