//! Takes payloads one after the other: each is written while it is summed, then kept or refused.

ghost use Rattle.std.specs.Prelude.{◌≡◌, ◌≤◌, ◌+◌, ◌*◌, true, Some, Ok, length, IfOk, IsTrue};
ghost use Rattle.std.specs.List.{sum_by};
ghost use Rattle.uimg_blob_reading.specs.LookUps.{hashes};
ghost use Rattle.uimg_blob_reading.specs.Roles.{in_images};
ghost use Rattle.uimg_fit_base.specs.Places.{payload};
ghost use Rattle.uimg_fit_reading.specs.Nodes.{OfNode, OfNodes, HasNode, HasNodes};
ghost use Rattle.uimg_fit_checking.specs.Unpacking.{GivesBy, take_of, takes, bytes_or_none, is_asked, which};
ghost use Rattle.uimg_fit_checking.specs.UnpackingParts.{LeavesImage, TakesTo, TakesRequested, TakesAll, EndsImage, EndsAll, Fitting, size_if, take_allowance};
ghost use Rattle.uimg_fit_reading.specs.Puts.{Pays};
ghost use Rattle.uimg_fit_reading.specs.Values.{in_span};

use crate::unpacking::copies::take_payload;
use crate::unpacking::refusals::{refusal_of, vouched_by};
use crate::unpacking::requested::{Request, Requested, find_requested};
use crate::unpacking::taker::Taker;
use std::alloc::Allocator;
use uimg_base::{Algo, Out, Room, Source};
use uimg_blob_reading::Blob;
use uimg_fit_base::Fault;
use uimg_fit_reading::compared_algos;
use uimg_fit_reading::nodes::{first_hash, next_of};
use uimg_texts::Naming;

// Returns whether the payload is kept.
fn take_requested<S: Source, A: Allocator, T: Taker>(
    source: &mut S,
    blob: &Blob,
    room: &mut Room<A>,
    payload: Requested,
    need: Option<Algo>,
    taker: &mut T,
) -> Result<bool, Fault>
    requires node { HasNode (S.device source.old) blob.now room.old payload.image }
    requires inside { payload.span.place + payload.span.length
        ≤ length (S.device source.old).bytes }
    ensures leaves { LeavesImage result S.device source room }
    ensures place { T.place taker.new ≡ T.place taker.old }
    ensures none_claimed { IsTrue T.notes → T.claimed taker.new ≡ T.claimed taker.old }
    ensures paid { OfNode (S.device source.old) blob.now room.old in_images payload.image
        (λ found. Pays (payload.span.length + 383 * length (hashes found)) S.device source) }
    ensures told { IsTrue T.honest →
        OfNode (S.device source.old) blob.now room.old in_images payload.image (λ found.
        TakesRequested T.seen need found payload (S.device source.old).bytes result
        (T.takes taker.old) (T.takes taker.new)) }
    ensures given { IsTrue T.honest → IfOk result
        (λ all. GivesBy T.seen all (T.takes taker.old) (T.takes taker.new)) }
    ensures ended { OfNode (S.device source.old) blob.now room.old in_images payload.image
        (λ found. EndsImage true
        (take_of need found (in_span (S.device source.old).bytes payload.span))
        result (Ok (in_span (S.device source.old).bytes payload.span))
        (T.begun taker.old) (T.begun taker.new)) }
{
    let shelf = taker.shelf(&payload.name)?;
    let first = first_hash(blob, room, payload.image);
    let set = compared_algos(source, blob, room, Naming::All, first)?;
    let mut out = Out::new(shelf);
    let digests = take_payload(source, room, set, payload.span, &mut out)?;
    let shelf = out.into_inner();
    if let Some(refusal) = refusal_of(source, blob, room, payload.image, &digests, need)? {
        taker.refuse(&payload.name, shelf, refusal)?;
        return Ok(false);
    }
    taker.keep(&payload.name, shelf, vouched_by(&digests))?;
    Ok(true)
}

// Returns false if the payload is refused.
fn take_image<S: Source, A: Allocator, T: Taker>(
    source: &mut S,
    blob: &Blob,
    room: &mut Room<A>,
    image: usize,
    request: Request<'_>,
    taker: &mut T,
) -> Result<bool, Fault>
    requires { HasNode (S.device source.old) blob.now room.old image }
    ensures leaves { LeavesImage result S.device source room }
    ensures place { T.place taker.new ≡ T.place taker.old }
    ensures none_claimed { IsTrue T.notes → T.claimed taker.new ≡ T.claimed taker.old }
    ensures paid { OfNode (S.device source.old) blob.now room.old in_images image
        (λ found. Pays (size_if (is_asked (which request.entry.only) found.name)
        (payload (S.device source.old).bytes found) + take_allowance found) S.device source) }
    ensures told { IsTrue T.honest → OfNode (S.device source.old) blob.now room.old in_images image
        (λ found. TakesTo T.seen (is_asked (which request.entry.only) found.name)
        (take_of request.entry.need found (bytes_or_none (payload (S.device source.old).bytes found)))
        result (payload (S.device source.old).bytes found)
        (T.takes taker.old) (T.takes taker.new)) }
    ensures given { IsTrue T.honest → IfOk result
        (λ all. GivesBy T.seen all (T.takes taker.old) (T.takes taker.new)) }
    ensures ended { OfNode (S.device source.old) blob.now room.old in_images image
        (λ found. EndsImage (is_asked (which request.entry.only) found.name)
        (take_of request.entry.need found (bytes_or_none (payload (S.device source.old).bytes found)))
        result (payload (S.device source.old).bytes found)
        (T.begun taker.old) (T.begun taker.new)) }
{
    match find_requested(source, blob, room, image, request.only)? {
        Some(payload) => take_requested(source, blob, room, payload, request.need, taker),
        None => Ok(true),
    }
}

// Returns whether no payload is refused.
pub(super) fn take_images<S: Source, A: Allocator, T: Taker>(
    source: &mut S,
    blob: &Blob,
    room: &mut Room<A>,
    first: Option<usize>,
    request: Request<'_>,
    taker: &mut T,
) -> Result<bool, Fault>
    requires { HasNodes (S.device source.old) blob.now room.old first }
    ensures leaves { LeavesImage result S.device source room }
    ensures place { T.place taker.new ≡ T.place taker.old }
    ensures none_claimed { IsTrue T.notes → T.claimed taker.new ≡ T.claimed taker.old }
    ensures paid { OfNodes (S.device source.old) blob.now room.old in_images first
        (λ found. Fitting (which request.entry.only) (S.device source.old).bytes found
        (Pays (length (S.device source.old).bytes + sum_by take_allowance found) S.device source)) }
    ensures told { IsTrue T.honest → OfNodes (S.device source.old) blob.now room.old in_images first
        (λ found. Fitting (which request.entry.only) (S.device source.old).bytes found
        (TakesAll T.seen (takes request.entry.need (which request.entry.only)
        (S.device source.old).bytes found) result (T.takes taker.old) (T.takes taker.new))) }
    ensures given { IsTrue T.honest → IfOk result
        (λ all. GivesBy T.seen all (T.takes taker.old) (T.takes taker.new)) }
    ensures ended { OfNodes (S.device source.old) blob.now room.old in_images first
        (λ found. Fitting (which request.entry.only) (S.device source.old).bytes found
        (EndsAll (takes request.entry.need (which request.entry.only)
        (S.device source.old).bytes found) result
        (T.begun taker.old) (T.begun taker.new))) }
{
    let mut all = true;
    let mut next = first;
    while let Some(image) = next {
        all &= take_image(source, blob, room, image, request, taker)?;
        next = next_of(blob, room, image);
    }
    Ok(all)
}
