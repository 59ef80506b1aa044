//! The signature nodes of an image, each with its result.

ghost use Rattle.std.specs.Prelude.{◌≡◌, ◌<◌, flat_map, length, map, IfOk};
ghost use Rattle.std.specs.{List.All, Option.option_map};
ghost use Rattle.uimg_base.specs.{Honest.{HonestSource, IfHonest}, Using.Uses};
ghost use Rattle.uimg_blob_reading.specs.{Grammar.Siblings, Rows.table};
ghost use Rattle.uimg_fit_checking.specs.{Indexes.IndexedIn, SurveyParts.{IsOwn, LeavesSurvey, is_unread}};
ghost use Rattle.uimg_fit_reading.specs.Nodes.{InFile, Opened};
ghost use Rattle.uimg_signing.specs.SignatureNodes.{IsBelow};
ghost use Rattle.uimg_verifying.specs.Configurations.{OfNode};
ghost use Rattle.uimg_verifying.specs.Results.{node_refusal, read_result, result_at, TellsResults, result_of, text_of};
ghost use Rattle.uimg_verifying.specs.Signatures.{OfPair, span_of};

use crate::configurations::decides;
use crate::names::read_name;
use crate::required::{ByKey, Required};
use crate::signatures::signature_refusal;
use std::alloc::{Allocator, Global};
use uimg_base::{Room, Source};
use uimg_blob_reading::{Blob, Key};
use uimg_fit_checking::{SurveyFault, read_bytes};
use uimg_signing::{SignatureNode, signature_nodes};
use uimg_strict::Looseness;

/// The longest text of a signature node that is read, in bytes.
const LONGEST: u64 = 255;

/// A signature node of a configuration, and whether it is a signature by the keys.
#[derive(Drop, Debug, PartialEq, Eq)]
pub struct SignatureResult {
    /// The name of the configuration.
    pub configuration: Vec<u8>,

    /// Its own name.
    pub node: Vec<u8>,

    /// The value of `algo`, if it is there and has at most 255 bytes.
    pub algo: Option<Vec<u8>>,

    /// The value of `padding`, in the same way.
    pub padding: Option<Vec<u8>>,

    /// The value of `key-name-hint`, in the same way.
    pub key: Option<Vec<u8>>,

    /// Why it is refused, by the last key; `None` if it is a signature by one of the keys.
    pub refusal: Option<Looseness>,
}

fn node_refusal<S: Source, A: Allocator>(
    alloc: Global,
    source: &mut S,
    blob: &Blob,
    room: &mut Room<A>,
    required: &Required<'_>,
    at: SignatureNode,
) -> Result<Option<Looseness>, SurveyFault>
    requires below { IsBelow (length room.old.entries) at }
    requires file { InFile (length (S.device source.old).bytes) blob.now room.old.entries }
    ensures uses { Uses (is_unread result) (S.device source.old) (S.device source.new) }
    ensures room { room.new ≡ room.old }
    ensures own { IsOwn result }
    ensures told { OfPair (S.device source.old) blob.now room.old at.configuration at.node
        (λ file rows its node. IfOk result
        (λ why. why ≡ node_refusal required.now file rows at.configuration its node)) }
{
    let mut found = Some(Looseness::Unsigned);
    for key in required.keys.keys.as_slice() {
        let by = ByKey {
            key,
            takes_sha1: required.takes_sha1,
        };
        found = signature_refusal(alloc, source, blob, room, by, at)?;
        if decides(true, found) {
            return Ok(found);
        }
    }
    Ok(found)
}

fn read_text<S: Source, A: Allocator>(
    alloc: Global,
    source: &mut S,
    blob: &Blob,
    room: &Room<A>,
    node: usize,
    key: Key,
) -> Result<Option<Vec<u8>>, SurveyFault>
    requires node { node < length room.now.entries }
    requires file { InFile (length (S.device source.old).bytes) blob.now room.now.entries }
    ensures uses { Uses (is_unread result) (S.device source.old) (S.device source.new) }
    ensures own { IsOwn result }
    ensures told { HonestSource S.device source → OfNode blob.now room.now node (λ row. IfOk result
        (λ text. option_map (λ it. it.items) text ≡ text_of (S.device source.old).bytes
        (span_of row key))) }
{
    let Some(span) = blob.value(room, node, key) else {
        return Ok(None);
    };
    if span.length > LONGEST {
        return Ok(None);
    }
    let text = read_bytes(alloc, source, span)?;
    Ok(Some(text))
}

fn result_of<S: Source, A: Allocator>(
    alloc: Global,
    source: &mut S,
    blob: &Blob,
    room: &mut Room<A>,
    required: &Required<'_>,
    at: SignatureNode,
) -> Result<SignatureResult, SurveyFault>
    requires below { IsBelow (length room.old.entries) at }
    requires file { InFile (length (S.device source.old).bytes) blob.now room.old.entries }
    ensures uses { Uses (is_unread result) (S.device source.old) (S.device source.new) }
    ensures room { room.new ≡ room.old }
    ensures own { IsOwn result }
    ensures told { OfPair (S.device source.old) blob.now room.old at.configuration at.node
        (λ file rows its node. IfOk result
        (λ it. read_result it ≡ result_of required.now file rows at.configuration its node)) }
{
    let refusal = node_refusal(alloc, source, blob, room, required, at)?;
    let configuration = read_name(alloc, source, blob, room, at.configuration)?;
    let node = read_name(alloc, source, blob, room, at.node)?;
    let algo = read_text(alloc, source, blob, room, at.node, Key::Algo)?;
    let padding = read_text(alloc, source, blob, room, at.node, Key::Padding)?;
    let key = read_text(alloc, source, blob, room, at.node, Key::KeyName)?;
    Ok(SignatureResult {
        configuration,
        node,
        algo,
        padding,
        key,
        refusal,
    })
}

fn results_at<S: Source, A: Allocator>(
    alloc: Global,
    source: &mut S,
    blob: &Blob,
    room: &mut Room<A>,
    required: &Required<'_>,
    nodes: &[SignatureNode],
) -> Result<Vec<SignatureResult>, SurveyFault>
    requires below { All (IsBelow (length room.old.entries)) nodes.now }
    requires file { InFile (length (S.device source.old).bytes) blob.now room.old.entries }
    ensures uses { Uses (is_unread result) (S.device source.old) (S.device source.new) }
    ensures room { room.new ≡ room.old }
    ensures own { IsOwn result }
    ensures told { (t : Siblings) → Opened (S.device source.old) blob.now room.old t → IfOk result
        (λ all. map read_result all.items
        ≡ flat_map (result_at required.now (S.device source.old).bytes (table t)) nodes.now) }
{
    let mut all = Vec::new(alloc);
    for at in nodes {
        let result = result_of(alloc, source, blob, room, required, *at)?;
        if all.push(result).is_err() {
            return Err(SurveyFault::OutOfMemory);
        }
    }
    Ok(all)
}

/// Returns the signature nodes of all configurations of a FIT image whose blob was indexed, in reading
/// order, each with whether one of the keys signed its configuration by it.
///
/// The source is read once for each signature node and key, up to the end of its blob, without
/// payloads. Takes memory for the texts of the nodes, and for the offsets of at most 100 nodes.
///
/// - `Stopped` with `Read`: if and only if a read failed.
/// - `OutOfMemory`: memory was refused.
/// - `Changed`: only if the source does not have the blob that was indexed.
#[tactic(auto, unfolding(crate::specs::Results::results_of))]
pub fn signature_results<S: Source, A: Allocator>(
    alloc: Global,
    required: &Required<'_>,
    source: &mut S,
    blob: &Blob,
    room: &mut Room<A>,
) -> Result<Vec<SignatureResult>, SurveyFault>
    requires { IndexedIn (S.device source.old) blob.now room.old }
    ensures leaves { LeavesSurvey result S.device source room }
    ensures told { IfHonest S.device source (λ file. TellsResults required.now file result) }
{
    let nodes = signature_nodes(alloc, blob, room)?;
    let results = results_at(alloc, source, blob, room, required, nodes.as_slice())?;
    Ok(results)
}
