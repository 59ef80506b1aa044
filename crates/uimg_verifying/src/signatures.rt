//! Why the signature of a node is refused.

ghost use Rattle.std.specs.Prelude.{◌≡◌, ◌+◌, ◌≤◌, ◌<◌, List, ℕ, length, take, is_err, IfOk, IfSome, Some};
ghost use Rattle.uimg_base.specs.{Honest.{HonestSource, IfHonest}, Using.Uses};
ghost use Rattle.uimg_blob_reading.specs.{Grammar.Siblings, Rows.Row};
ghost use Rattle.uimg_fit_checking.specs.SurveyParts.{IsOwn, is_unread};
ghost use Rattle.uimg_fit_reading.specs.Nodes.{InFile};
ghost use Rattle.uimg_signing.specs.Listing.{OfTreeRead};
ghost use Rattle.uimg_sums.specs.Algorithms.{digest_by, digest_size};
ghost use Rattle.uimg_verifying.specs.Signatures.{OfPair, is_sum, is_weak, signature_of, signature_refusal, takes, value_refusal, verdict, why_judged};

use crate::digests::message_digest;
use crate::refusals::{stop, why_judged};
use crate::required::ByKey;
use std::alloc::{Allocator, Global};
use uimg_base::{Room, Source, SourceFault, Span};
use uimg_blob_reading::{Blob, Key};
use uimg_fit_checking::SurveyFault;
use uimg_keys::PublicKey;
use uimg_rsa::{Refusal, verify_pkcs1, verify_pss};
use uimg_signing::{
    RsaAlgo, RsaPadding, SignatureNode, list_nodes, read_rsa_algo, read_rsa_padding, strings_size,
};
use uimg_strict::Looseness;
use uimg_sums::Algo;

/// The longest value of a signature, in octets: that of a key of 4096 bits.
const LONGEST: u64 = 512;

/// What a signature node says.
#[derive(Clone, Copy)]
pub(crate) struct Signature {
    /// The hash function.
    pub(crate) algo: Algo,
    /// The padding.
    pub(crate) padding: RsaPadding,
    /// Where the value is.
    pub(crate) value: Span,
}

fn is_sum(named: Option<RsaAlgo>, sum: Algo) -> bool
    ensures { result ≡ is_sum named sum }
{
    match named {
        Some(named) => named.sum.name().as_bytes() == sum.name().as_bytes(),
        None => true,
    }
}

fn takes(key: &PublicKey, algo: RsaAlgo) -> bool
    ensures { result ≡ takes key.now algo }
{
    if algo.bits as usize / 8 != key.modulus.as_slice().len() {
        return false;
    }
    is_sum(key.algo, algo.sum)
}

// What a signature node says; `None` if that is not known, or not of the key.
fn read_signature<S: Source, A: Allocator>(
    source: &mut S,
    blob: &Blob,
    room: &Room<A>,
    node: usize,
    key: &PublicKey,
) -> Result<Option<Signature>, SourceFault>
    requires node { node < length room.now.entries }
    requires file { InFile (length (S.device source.old).bytes) blob.now room.now.entries }
    ensures uses { Uses (is_err result) (S.device source.old) (S.device source.new) }
    ensures inside { IfOk result (λ found. IfSome found (λ it.
        it.value.place + it.value.length ≤ length (S.device source.old).bytes)) }
    ensures told { OfTreeRead (S.device source.old) blob.now room.now.entries node (λ rows row.
        IfOk result (λ found. found ≡ signature_of key.now (S.device source.old).bytes row)) }
{
    let Some(named) = blob.value(room, node, Key::Algo) else {
        return Ok(None);
    };
    let Some(algo) = read_rsa_algo(source, named)? else {
        return Ok(None);
    };
    let Some(padding) = read_rsa_padding(source, blob.value(room, node, Key::Padding))? else {
        return Ok(None);
    };
    let Some(value) = blob.value(room, node, Key::Value) else {
        return Ok(None);
    };
    if !takes(key, algo) {
        return Ok(None);
    }
    let algo = algo.sum;
    Ok(Some(Signature {
        algo,
        padding,
        value,
    }))
}

fn verify(key: &PublicKey, it: Signature, value: &[u8], digest: &[u8]) -> Result<(), Refusal>
    ensures { result ≡ verdict it.padding key.now value.now it.algo digest.now }
{
    let modulus = key.modulus.as_slice();
    match it.padding {
        RsaPadding::Pkcs1 => verify_pkcs1(modulus, key.exponent, value, it.algo, digest),
        RsaPadding::Pss => verify_pss(modulus, key.exponent, value, it.algo, digest),
    }
}

// The digest begins with that of a message.
fn value_refusal<S: Source>(
    source: &mut S,
    key: &PublicKey,
    it: Signature,
    digest: &[u8; 64],
) -> Result<Option<Looseness>, SourceFault>
    requires { it.value.place + it.value.length ≤ length (S.device source.old).bytes }
    ensures uses { Uses (is_err result) (S.device source.old) (S.device source.new) }
    ensures told { IfHonest S.device source (λ file. (message : List ℕ) →
        take (digest_size it.algo) digest.now ≡ digest_by it.algo message →
        IfOk result (λ why. why ≡ value_refusal key.now file it message)) }
{
    if it.value.length > LONGEST {
        return Ok(Some(Looseness::SignatureLength));
    }
    let mut value = [0; 512];
    let value = &mut value[..it.value.length as usize];
    source.fill_at(it.value.place, value)?;
    Ok(why_judged(verify(key, it, value, &digest[..it.algo.len()])))
}

fn is_weak(takes_sha1: bool, algo: Algo) -> bool
    ensures { result ≡ is_weak takes_sha1 algo }
{
    match algo {
        Algo::Sha1 => !takes_sha1,
        _ => false,
    }
}

/// Returns why a signature node is refused, or `None` if its value is the key's signature of the
/// configuration. Its strings are judged first, whatever its algorithm.
pub(crate) fn signature_refusal<S: Source, A: Allocator>(
    alloc: Global,
    source: &mut S,
    blob: &Blob,
    room: &mut Room<A>,
    by: ByKey<'_>,
    at: SignatureNode,
) -> Result<Option<Looseness>, SurveyFault>
    requires configuration { at.configuration < length room.old.entries }
    requires node { at.node < length room.old.entries }
    requires file { InFile (length (S.device source.old).bytes) blob.now room.old.entries }
    ensures uses { Uses (is_unread result) (S.device source.old) (S.device source.new) }
    ensures room { room.new ≡ room.old }
    ensures own { IsOwn result }
    ensures told { OfPair (S.device source.old) blob.now room.old at.configuration at.node
        (λ file rows its node. IfOk result
        (λ why. why ≡ signature_refusal by.entry.takes_sha1 by.entry.key.now file rows
        at.configuration its node)) }
{
    let strings = match strings_size(alloc, source, blob, room, at.node) {
        Ok(strings) => strings,
        Err(fault) => return stop(fault),
    };
    let Some(it) = read_signature(source, blob, room, at.node, by.key)? else {
        return Ok(Some(Looseness::UnknownSignature));
    };
    if is_weak(by.takes_sha1, it.algo) {
        return Ok(Some(Looseness::WeakSignature));
    }
    let marks = match list_nodes(alloc, source, blob, room, at.configuration) {
        Ok(marks) => marks,
        Err(fault) => return stop(fault),
    };
    let digest = match message_digest(source, blob, room, &marks, strings, it.algo) {
        Ok(digest) => digest,
        Err(fault) => return stop(fault),
    };
    Ok(value_refusal(source, by.key, it, &digest)?)
}
