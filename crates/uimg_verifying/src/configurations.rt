//! Whether each configuration is signed.

ghost use Rattle.std.specs.Prelude.{◌≡◌, ◌+◌, ◌<◌, ◌≤◌, List, ℕ, length, IfOk, Some, false};
ghost use Rattle.std.specs.{List.slice_get, Option.option_map};
ghost use Rattle.uimg_base.specs.{Honest.{HonestSource, IfHonest}, Using.Uses};
ghost use Rattle.uimg_blob_reading.specs.{Grammar.Siblings, Rows.{Row, table}};
ghost use Rattle.uimg_fit_checking.specs.{Indexes.IndexedIn, SurveyParts.{IsOwn, LeavesSurvey, is_unread}};
ghost use Rattle.uimg_fit_reading.specs.Nodes.{InFile, Opened};
ghost use Rattle.uimg_verifying.specs.Configurations.{OfNode, TellsUnsigned, blob_refusal, configuration_refusal, decides, is_asked, is_configuration, is_parent, is_signature_of, judged_node, judged_of, keys_refusal, tried_node, tried_of, unsigned_from};
ghost use Rattle.uimg_signing.specs.Listing.{name_in};
ghost use Rattle.uimg_strict.specs.{Telling.read_loose, declared.loose.Looseness.TheVariants.Unsigned};
ghost use Rattle.uimg_texts.specs.Numbers.{be32};
ghost use Rattle.uimg_verifying.specs.Signatures.{OfPair};

use crate::names::read_name;
use crate::refusals::stop;
use crate::required::{ByKey, Required};
use crate::signatures::signature_refusal;
use std::alloc::{Allocator, Global};
use uimg_base::{Room, Source};
use uimg_blob_reading::{Blob, Role};
use uimg_fit_checking::SurveyFault;
use uimg_signing::{SignatureNode, is_closed, is_reached};
use uimg_strict::{Loose, Looseness};

/// The largest blob whose signatures U-Boot verifies (FIT_SIGNATURE_MAX_SIZE).
const LARGEST: u32 = 0x1000_0000;

/// What a node is as a signature of a configuration.
#[derive(Clone, Copy)]
enum Tried {
    // None of its signature nodes.
    Other,
    // A signature with strings that are not the first ones of their block, or outside of it. U-Boot
    // reads these, whatever its key.
    Outside,
    // A signature by the key.
    Valid,
    // A signature that is refused.
    Refused(Looseness),
}

/// What a node is as a configuration.
#[derive(Clone, Copy)]
enum Judged {
    // No configuration.
    Other,
    // A configuration that the keys sign.
    Signed,
    // A configuration that is refused.
    Refused(Looseness),
}

/// The most signature nodes of a configuration that are tried.
const MOST: usize = 16;

fn is_parent(parent: Option<usize>, number: usize) -> bool
    ensures { result ≡ is_parent number parent }
{
    match parent {
        Some(parent) => parent == number,
        None => false,
    }
}

fn is_signature_of<A: Allocator>(blob: &Blob, room: &Room<A>, at: SignatureNode) -> bool
    requires { at.node < length room.now.entries }
    ensures { OfNode blob.now room.now at.node
        (λ row. result ≡ is_signature_of at.configuration row) }
{
    match blob.role(room, at.node) {
        Role::Signature => is_parent(blob.parent(room, at.node), at.configuration),
        _ => false,
    }
}

fn tried_of(refusal: Option<Looseness>) -> Tried
    ensures { result ≡ tried_of refusal }
{
    match refusal {
        None => Tried::Valid,
        Some(Looseness::SignedStrings) => Tried::Outside,
        Some(why) => Tried::Refused(why),
    }
}

fn try_node<S: Source, A: Allocator>(
    alloc: Global,
    source: &mut S,
    blob: &Blob,
    room: &mut Room<A>,
    by: ByKey<'_>,
    at: SignatureNode,
) -> Result<Tried, SurveyFault>
    requires configuration { at.configuration < length room.old.entries }
    requires node { at.node < length room.old.entries }
    requires file { InFile (length (S.device source.old).bytes) blob.now room.old.entries }
    ensures uses { Uses (is_unread result) (S.device source.old) (S.device source.new) }
    ensures room { room.new ≡ room.old }
    ensures own { IsOwn result }
    ensures told { OfPair (S.device source.old) blob.now room.old at.configuration at.node
        (λ file rows its node. IfOk result
        (λ tried. tried ≡ tried_node by.entry.takes_sha1 by.entry.key.now file rows
        at.configuration its node)) }
{
    if !is_signature_of(blob, room, at) {
        return Ok(Tried::Other);
    }
    let refusal = signature_refusal(alloc, source, blob, room, by, at)?;
    Ok(tried_of(refusal))
}

// Returns why a configuration is refused: by its last signature, if none is the key's.
fn configuration_refusal<S: Source, A: Allocator>(
    alloc: Global,
    source: &mut S,
    blob: &Blob,
    room: &mut Room<A>,
    by: ByKey<'_>,
    configuration: usize,
) -> Result<Option<Looseness>, SurveyFault>
    requires configuration { configuration < length room.old.entries }
    requires file { InFile (length (S.device source.old).bytes) blob.now room.old.entries }
    ensures uses { Uses (is_unread result) (S.device source.old) (S.device source.new) }
    ensures room { room.new ≡ room.old }
    ensures own { IsOwn result }
    ensures told { (t : Siblings) → Opened (S.device source.old) blob.now room.old t →
        (its : Row) → slice_get (table t) configuration ≡ Some its → IfOk result
        (λ why. why ≡ configuration_refusal by.entry.takes_sha1 by.entry.key.now
        (S.device source.old).bytes (table t) configuration its) }
{
    let mut why = Looseness::Unsigned;
    let mut left = MOST;
    let mut node = 0;
    while node < room.count() {
        let at = SignatureNode {
            configuration,
            node,
        };
        match try_node(alloc, source, blob, room, by, at)? {
            Tried::Other => {}
            Tried::Outside => return Ok(Some(Looseness::SignedStrings)),
            Tried::Valid if left > 0 => return Ok(None),
            Tried::Refused(found) if left > 0 => {
                why = found;
                left -= 1;
            }
            _ => return Ok(Some(Looseness::SignedNodes)),
        }
        node += 1;
    }
    Ok(Some(why))
}

/// Returns whether what a key says of a configuration decides.
pub(crate) fn decides(is_any: bool, found: Option<Looseness>) -> bool
    ensures { result ≡ decides is_any found }
{
    match found {
        None => is_any,
        Some(Looseness::SignedStrings) => true,
        Some(_) => !is_any,
    }
}

// Returns why a configuration is refused by the keys that must sign it.
fn keys_refusal<S: Source, A: Allocator>(
    alloc: Global,
    source: &mut S,
    blob: &Blob,
    room: &mut Room<A>,
    required: &Required<'_>,
    configuration: usize,
) -> Result<Option<Looseness>, SurveyFault>
    requires configuration { configuration < length room.old.entries }
    requires file { InFile (length (S.device source.old).bytes) blob.now room.old.entries }
    ensures uses { Uses (is_unread result) (S.device source.old) (S.device source.new) }
    ensures room { room.new ≡ room.old }
    ensures own { IsOwn result }
    ensures told { (t : Siblings) → Opened (S.device source.old) blob.now room.old t →
        (its : Row) → slice_get (table t) configuration ≡ Some its → IfOk result
        (λ why. why ≡ keys_refusal required.now (S.device source.old).bytes (table t) configuration
        its) }
{
    let mut found = Some(Looseness::Unsigned);
    for key in required.keys.keys.as_slice() {
        let by = ByKey {
            key,
            takes_sha1: required.takes_sha1,
        };
        found = configuration_refusal(alloc, source, blob, room, by, configuration)?;
        if decides(required.keys.is_any, found) {
            return Ok(found);
        }
    }
    Ok(found)
}

fn is_configuration<A: Allocator>(blob: &Blob, room: &Room<A>, node: usize) -> bool
    requires { node < length room.now.entries }
    ensures { OfNode blob.now room.now node (λ row. result ≡ is_configuration row.role) }
{
    match blob.role(room, node) {
        Role::Configuration => true,
        _ => false,
    }
}

// Returns whether a configuration must be signed.
fn is_asked<S: Source, A: Allocator>(
    alloc: Global,
    source: &mut S,
    blob: &Blob,
    room: &Room<A>,
    only: Option<&[u8]>,
    node: usize,
) -> Result<bool, SurveyFault>
    requires node { node < length room.now.entries }
    requires file { InFile (length (S.device source.old).bytes) blob.now room.now.entries }
    ensures uses { Uses (is_unread result) (S.device source.old) (S.device source.new) }
    ensures own { IsOwn result }
    ensures told { HonestSource S.device source → OfNode blob.now room.now node (λ row. IfOk result
        (λ it. it ≡ is_asked (option_map (λ name. name.now) only.entry) (S.device source.old).bytes
        row)) }
{
    if !is_configuration(blob, room, node) {
        return Ok(false);
    }
    let Some(only) = only else {
        return Ok(true);
    };
    let name = read_name(alloc, source, blob, room, node)?;
    Ok(name.as_slice() == only)
}

// No configuration is signed.
fn none_signed(alloc: Global, only: Option<&[u8]>) -> Result<Loose, SurveyFault>
    ensures own { IsOwn result }
    ensures unread { is_unread result ≡ false }
    ensures told { IfOk result (λ loose. read_loose loose ≡ record {
      why = Unsigned;
      node = option_map (λ name. name.now) only.entry;
    }) }
{
    let why = Looseness::Unsigned;
    let Some(only) = only else {
        return Ok(Loose { why, node: None });
    };
    let name = Vec::from_slice(alloc, only)?;
    Ok(Loose {
        why,
        node: Some(name),
    })
}

fn judged_of(refusal: Option<Looseness>) -> Judged
    ensures { result ≡ judged_of refusal }
{
    match refusal {
        None => Judged::Signed,
        Some(why) => Judged::Refused(why),
    }
}

fn judge<S: Source, A: Allocator>(
    alloc: Global,
    source: &mut S,
    blob: &Blob,
    room: &mut Room<A>,
    required: &Required<'_>,
    node: usize,
) -> Result<Judged, SurveyFault>
    requires node { node < length room.old.entries }
    requires file { InFile (length (S.device source.old).bytes) blob.now room.old.entries }
    ensures uses { Uses (is_unread result) (S.device source.old) (S.device source.new) }
    ensures room { room.new ≡ room.old }
    ensures own { IsOwn result }
    ensures told { (t : Siblings) → Opened (S.device source.old) blob.now room.old t →
        (row : Row) → slice_get (table t) node ≡ Some row → IfOk result
        (λ it. it ≡ judged_node required.now (S.device source.old).bytes (table t) node row) }
{
    if !is_asked(alloc, source, blob, room, required.only, node)? {
        return Ok(Judged::Other);
    }
    let refusal = keys_refusal(alloc, source, blob, room, required, node)?;
    Ok(judged_of(refusal))
}

/// Returns why a node is refused, with its name.
pub(crate) fn refused<S: Source, A: Allocator>(
    alloc: Global,
    source: &mut S,
    blob: &Blob,
    room: &Room<A>,
    node: usize,
    why: Looseness,
) -> Result<Loose, SurveyFault>
    requires node { node < length room.now.entries }
    requires file { InFile (length (S.device source.old).bytes) blob.now room.now.entries }
    ensures uses { Uses (is_unread result) (S.device source.old) (S.device source.new) }
    ensures own { IsOwn result }
    ensures told { HonestSource S.device source → OfNode blob.now room.now node (λ row. IfOk result
        (λ loose. read_loose loose ≡ record {
          why = why;
          node = Some (name_in (S.device source.old).bytes row);
        })) }
{
    let name = read_name(alloc, source, blob, room, node)?;
    Ok(Loose {
        why,
        node: Some(name),
    })
}

// Returns the first configuration that is refused, or that there is none at all.
fn first_unsigned<S: Source, A: Allocator>(
    alloc: Global,
    source: &mut S,
    blob: &Blob,
    room: &mut Room<A>,
    required: &Required<'_>,
) -> Result<Option<Loose>, SurveyFault>
    requires { InFile (length (S.device source.old).bytes) blob.now room.old.entries }
    ensures uses { Uses (is_unread result) (S.device source.old) (S.device source.new) }
    ensures room { room.new ≡ room.old }
    ensures own { IsOwn result }
    ensures told { (t : Siblings) → Opened (S.device source.old) blob.now room.old t → IfOk result
        (λ found. option_map read_loose found ≡ unsigned_from required.now
        (S.device source.old).bytes (table t) 0 false (table t)) }
{
    let mut has_any = false;
    let mut node = 0;
    while node < room.count() {
        match judge(alloc, source, blob, room, required, node)? {
            Judged::Other => {}
            Judged::Signed => has_any = true,
            Judged::Refused(why) => {
                let found = refused(alloc, source, blob, room, node, why)?;
                return Ok(Some(found));
            }
        }
        node += 1;
    }
    if has_any {
        return Ok(None);
    }
    let found = none_signed(alloc, required.only)?;
    Ok(Some(found))
}

// Returns why U-Boot verifies no signature of a blob.
fn blob_refusal<S: Source, A: Allocator>(
    source: &mut S,
    blob: &Blob,
    room: &Room<A>,
) -> Result<Option<Looseness>, SurveyFault>
    requires { InFile (length (S.device source.old).bytes) blob.now room.now.entries }
    ensures uses { Uses (is_unread result) (S.device source.old) (S.device source.new) }
    ensures own { IsOwn result }
    ensures told { (t : Siblings) → Opened (S.device source.old) blob.now room.now t → IfOk result
        (λ why. why ≡ blob_refusal (S.device source.old).bytes (table t)
        (be32 (S.device source.old).bytes 4)) }
{
    if blob.totalsize() > LARGEST {
        return Ok(Some(Looseness::SignedNodes));
    }
    match is_closed(source, blob) {
        Ok(true) => {}
        Ok(false) => return Ok(Some(Looseness::SignedNodes)),
        Err(fault) => return stop(fault),
    }
    match is_reached(source, blob, room) {
        Ok(true) => Ok(None),
        Ok(false) => Ok(Some(Looseness::SignedNodes)),
        Err(fault) => stop(fault),
    }
}

/// Returns the first configuration of a FIT image, whose blob was indexed, that is not signed by the
/// keys, by each of them or by one if one is enough; or whether that of the name that is asked for
/// is. With it comes the word for its last signature node by the first key that did not sign it, or by
/// the last key if none of them did; or `SignedStrings`, if a node that is tried says strings that are
/// not the first ones of their block, since U-Boot reads what it says. At most sixteen signature nodes
/// of a configuration are tried for each key; if there are more, the word is `SignedNodes`. Without a
/// name: the image has no configuration (`Unsigned`; with the name that is asked for, if there is none
/// of it), or U-Boot verifies no signature of it, since it has more than 256 MiB, or `is_closed` or
/// `is_reached` is false (`SignedNodes`).
///
/// The source is read once for each signature node and key that are tried, up to the end of its blob,
/// without payloads. Takes memory for the offsets of at most 100 nodes.
///
/// - `Stopped` with `Read`: if and only if a read failed.
/// - `OutOfMemory`: memory was refused.
/// - `Changed`: only if the source does not have the blob that was indexed.
#[tactic(auto, unfolding(crate::specs::Configurations::unsigned_of))]
pub fn find_unsigned<S: Source, A: Allocator>(
    alloc: Global,
    required: &Required<'_>,
    source: &mut S,
    blob: &Blob,
    room: &mut Room<A>,
) -> Result<Option<Loose>, SurveyFault>
    requires { IndexedIn (S.device source.old) blob.now room.old }
    ensures leaves { LeavesSurvey result S.device source room }
    ensures told { IfHonest S.device source (λ file. TellsUnsigned required.now file result) }
{
    let refusal = blob_refusal(source, blob, room)?;
    if let Some(why) = refusal {
        return Ok(Some(Loose { why, node: None }));
    }
    let found = first_unsigned(alloc, source, blob, room, required)?;
    Ok(found)
}
