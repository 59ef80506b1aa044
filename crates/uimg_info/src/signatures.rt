//! The facts of the signature nodes of configurations, and their objects.

ghost use Rattle.std.specs.Prelude.{◌≡◌, length, map, false, IfOk, ℕ, List};
ghost use Rattle.std.specs.List.{All, sum_by};
ghost use Rattle.json.specs.Tree.{json_tokens};
ghost use Rattle.uimg_base.specs.{Honest.IfHonest, Using.UsesWithin};
ghost use Rattle.uimg_blob_reading.specs.{Counts.index_cost, Grammar.Siblings, Indexed.{IsIndexed, TakesNodes}, Rows.table};
ghost use Rattle.uimg_fit_checking.specs.SurveyParts.{AllInside, is_unread, lacks_room};
ghost use Rattle.uimg_fit_reading.specs.Nodes.{InAnyFile};
ghost use Rattle.uimg_info.specs.{Steps.PutsTokens, Work.signature_size};
ghost use Rattle.uimg_info.specs.Fit.{signature_json, signatures_members};
ghost use Rattle.uimg_info.specs.Signatures.{SignatureInside, TellsSignatures, read_signature, signature_said};
ghost use Rattle.uimg_printing.specs.Members.{array_of, tokens_of};
ghost use Rattle.uimg_signing.specs.SignatureNodes.{IsBelow};

use crate::facts::put_object;
use crate::forms::Form::Text;
use json::Writer;
use std::alloc::{AllocError, Allocator, Global};
use uimg_base::{Room, Source, Span};
use uimg_blob_reading::{Blob, Key};
use uimg_fit_checking::SurveyFault;
use uimg_fit_reading::read_tree;
use uimg_signing::{SignatureNode, signature_nodes};

/// The facts of a signature node of a configuration.
#[derive(Clone, Copy)]
pub(crate) struct SignatureFacts {
    // The configuration's name.
    configuration: Span,
    // The node's name.
    node: Span,
    // `algo`: a text.
    algo: Option<Span>,
    // `padding`: a text.
    padding: Option<Span>,
    // `key-name-hint`: a text.
    key: Option<Span>,
}

fn signature_facts<A: Allocator>(
    blob: &Blob,
    room: &Room<A>,
    signature: SignatureNode,
) -> SignatureFacts
    requires { IsBelow (length room.now.entries) signature }
    ensures inside { InAnyFile blob.now room.now (λ size. SignatureInside size result) }
    ensures said { (file : List ℕ) (t : Siblings) → IsIndexed t blob.now room.now.entries →
        read_signature file result ≡ signature_said file (table t) signature }
{
    let node = signature.node;
    SignatureFacts {
        configuration: blob.name(room, signature.configuration),
        node: blob.name(room, node),
        algo: blob.value(room, node, Key::Algo),
        padding: blob.value(room, node, Key::Padding),
        key: blob.value(room, node, Key::KeyName),
    }
}

fn facts_of<A: Allocator>(
    alloc: Global,
    blob: &Blob,
    room: &Room<A>,
    nodes: &[SignatureNode],
) -> Result<Vec<SignatureFacts>, AllocError>
    requires { All (IsBelow (length room.now.entries)) nodes.now }
    ensures inside { InAnyFile blob.now room.now (AllInside SignatureInside result) }
    ensures said { (file : List ℕ) (t : Siblings) → IsIndexed t blob.now room.now.entries →
        IfOk result (λ facts. map (read_signature file) facts.items
        ≡ map (signature_said file (table t)) nodes.now) }
{
    let mut facts = Vec::new(alloc);
    for node in nodes {
        facts.push(signature_facts(blob, room, *node))?;
    }
    Ok(facts)
}

/// Indexes the blob, and collects the facts of its signature nodes. The room holds the nodes
/// meanwhile.
///
/// - The faults of the blob.
/// - `OutOfMemory`: memory for the facts was refused, some 100 bytes for a signature node.
pub(crate) fn read_signatures<S: Source, A: Allocator>(
    alloc: Global,
    source: &mut S,
    room: &mut Room<A>,
) -> Result<Vec<SignatureFacts>, SurveyFault>
    ensures uses { UsesWithin index_cost (is_unread result) S.device source }
    ensures room { TakesNodes (S.device source.old) (lacks_room result) room.old room.new }
    ensures inside { AllInside SignatureInside result (length (S.device source.old).bytes) }
    ensures told { IfHonest S.device source (λ file. TellsSignatures file result) }
{
    let blob = read_tree(source, room)?;
    let nodes = signature_nodes(alloc, &blob, room)?;
    Ok(facts_of(alloc, &blob, room, nodes.as_slice())?)
}

fn put_signature<S: Source>(
    alloc: Global,
    source: &mut S,
    writer: &mut Writer,
    facts: &SignatureFacts,
) -> Result<(), SurveyFault>
    requires { SignatureInside (length (S.device source.old).bytes) facts.now }
    ensures { PutsTokens (signature_size facts.now) result S.device source writer
        (λ file. json_tokens (signature_json (read_signature file facts.now))) }
{
    let rows = [
        ("configuration", Text, Some(facts.configuration)),
        ("node", Text, Some(facts.node)),
        ("algo", Text, facts.algo),
        ("padding", Text, facts.padding),
        ("key", Text, facts.key),
    ];
    put_object(alloc, source, writer, &rows)
}

fn put_list<S: Source>(
    alloc: Global,
    source: &mut S,
    writer: &mut Writer,
    signatures: &[SignatureFacts],
) -> Result<(), SurveyFault>
    requires { All (SignatureInside (length (S.device source.old).bytes)) signatures.now }
    ensures { PutsTokens (sum_by signature_size signatures.now) result S.device source writer
        (λ file. json_tokens (array_of (map signature_json (map (read_signature file) signatures.now)))) }
{
    writer.begin_array()?;
    for signature in signatures {
        put_signature(alloc, source, writer, signature)?;
    }
    writer.end_array()?;
    Ok(())
}

pub(crate) fn put_signatures<S: Source>(
    alloc: Global,
    source: &mut S,
    writer: &mut Writer,
    signatures: &[SignatureFacts],
) -> Result<(), SurveyFault>
    requires { All (SignatureInside (length (S.device source.old).bytes)) signatures.now }
    ensures { PutsTokens (sum_by signature_size signatures.now) result S.device source writer
        (λ file. tokens_of (signatures_members (map (read_signature file) signatures.now))) }
{
    writer.key("signatures")?;
    put_list(alloc, source, writer, signatures)?;
    Ok(())
}
