//! What a FIT image states.

ghost use Rattle.std.specs.Prelude.{◌≡◌, ◌+◌, ◌<◌, ◌≤◌, ◌++◌, [], ◌∷◌, length, map, IfOk};
ghost use Rattle.std.specs.List.{All, flat_map};
ghost use Rattle.uimg_base.specs.{Honest.IfHonest, Using.Uses};
ghost use Rattle.uimg_blob_reading.specs.{Grammar.Siblings, Indexed.OfRow, Places.{EndsBy, read_place}};
ghost use Rattle.uimg_blob_reading.specs.{Properties.{OfRowRead, places_of}, Rows.table};
ghost use Rattle.uimg_fit_checking.specs.FullSurvey.{ReadsAs};
ghost use Rattle.uimg_fit_checking.specs.SurveyParts.{IsOwn, LeavesSurvey, is_unread};
ghost use Rattle.uimg_fit_reading.specs.Nodes.{HasNode, InAnyFile, InFile, Opened};
ghost use Rattle.uimg_fit_reading.specs.PayloadPlaces.{PayloadInside, place_said, read_payload};
ghost use Rattle.uimg_fit_reading.specs.Values.{in_span};
ghost use Rattle.uimg_info.specs.Statement.{all_stated, found_stated, stated};
ghost use Rattle.uimg_info.specs.Statements.{StatesFit, begins_at, is_image, node_alone, node_path, node_stated, nodes_stated, path_above, path_below, path_items, payload_facts_of, payload_if, payload_stated, payload_text, place_stated, places_payload, properties_stated, property_stated, shortened};
ghost use Rattle.uimg_info.specs.ValueTexts.{name_text};

use crate::placing::{find_place, first_fault};
use crate::statement::{Statement, push_found};
use crate::value_texts::{push_name, text_inside, value_text};
use std::alloc::{AllocError, Allocator, Global};
use uimg_base::{Room, Source, Span};
use uimg_blob_reading::{Blob, Key, PropertiesFault, PropertyPlace, Role, properties_of};
use uimg_fit_base::Fault;
use uimg_fit_checking::{SurveyFault, read_bytes, survey};
use uimg_fit_reading::{PayloadFacts, read_tree};
use uimg_sums::{Sha256Sum, Summer};

// The greatest length of a path, in bytes.
const PATH_LEN: usize = 255;

// Returns the key of the property with a name.
fn key_of(alloc: Global, path: &[u8], name: &[u8]) -> Result<Vec<u8>, AllocError>
    ensures { IfOk result (λ key. key.items ≡ path.now ++ name_text name.now) }
{
    let mut key = Vec::from_slice(alloc, path)?;
    push_name(alloc, &mut key, name)?;
    Ok(key)
}

fn property_statement<S: Source, A: Allocator>(
    alloc: Global,
    source: &mut S,
    room: &mut Room<A>,
    path: &[u8],
    place: &PropertyPlace,
) -> Result<Statement, SurveyFault>
    requires { EndsBy (length (S.device source.old).bytes) place.now }
    ensures leaves { LeavesSurvey result S.device source room }
    ensures own { IsOwn result }
    ensures told { IfHonest S.device source (λ file. IfOk result (λ statement.
        stated statement ≡ property_stated file path.now (read_place file place.now))) }
{
    let name = read_bytes(alloc, source, place.name)?;
    let text = value_text(alloc, source, room, place.value)?;
    let key = key_of(alloc, path, name.as_slice())?;
    Ok(Statement { key, text })
}

fn begins_at(place: u64, value: Option<Span>) -> bool
    ensures { result ≡ begins_at place value }
{
    match value {
        Some(value) => place == value.place,
        None => false,
    }
}

fn places_payload(facts: &PayloadFacts, place: u64) -> bool
    ensures { result ≡ places_payload facts.now place }
{
    begins_at(place, facts.embedded)
        || begins_at(place, facts.size)
        || begins_at(place, facts.offset)
        || begins_at(place, facts.position)
}

// States a property, unless it says where the payload is.
#[tactic(auto, unfolding(crate::specs::Statements::property_if))]
fn property_if<S: Source, A: Allocator>(
    alloc: Global,
    source: &mut S,
    room: &mut Room<A>,
    path: &[u8],
    place: &PropertyPlace,
    facts: &PayloadFacts,
) -> Result<Option<Statement>, SurveyFault>
    requires { EndsBy (length (S.device source.old).bytes) place.now }
    ensures leaves { LeavesSurvey result S.device source room }
    ensures own { IsOwn result }
    ensures told { IfHonest S.device source (λ file. IfOk result (λ found.
        found_stated found ≡ place_stated file path.now facts.now place.now)) }
{
    if places_payload(facts, place.value.place) {
        return Ok(None);
    }
    let statement = property_statement(alloc, source, room, path, place)?;
    Ok(Some(statement))
}

fn property_statements<S: Source, A: Allocator>(
    alloc: Global,
    source: &mut S,
    room: &mut Room<A>,
    path: &[u8],
    places: &[PropertyPlace],
    facts: &PayloadFacts,
) -> Result<Vec<Statement>, SurveyFault>
    requires { All (EndsBy (length (S.device source.old).bytes)) places.now }
    ensures leaves { LeavesSurvey result S.device source room }
    ensures own { IsOwn result }
    ensures told { IfHonest S.device source (λ file. IfOk result (λ all.
        all_stated all ≡ flat_map (place_stated file path.now facts.now) places.now)) }
{
    let mut all = Vec::new(alloc);
    for place in places {
        let found = property_if(alloc, source, room, path, place, facts)?;
        push_found(&mut all, found)?;
    }
    Ok(all)
}

fn payload_text<S: Source, A: Allocator>(
    alloc: Global,
    source: &mut S,
    room: &mut Room<A>,
    totalsize: u32,
    facts: &PayloadFacts,
) -> Result<Vec<u8>, SurveyFault>
    requires values { PayloadInside totalsize facts.now }
    requires blob { totalsize ≤ length (S.device source.old).bytes }
    ensures leaves { LeavesSurvey result S.device source room }
    ensures own { IsOwn result }
    ensures told { IfHonest S.device source (λ file. IfOk result (λ text.
        text.items ≡ payload_text file (place_said totalsize (read_payload file facts.now)))) }
{
    let found = find_place(source, totalsize, facts)?;
    match found {
        Ok(span) => text_inside(alloc, source, room, span),
        Err(_) => Ok(Vec::new(alloc)),
    }
}

fn payload_statement<S: Source, A: Allocator>(
    alloc: Global,
    source: &mut S,
    room: &mut Room<A>,
    totalsize: u32,
    facts: &PayloadFacts,
    path: &[u8],
) -> Result<Statement, SurveyFault>
    requires values { PayloadInside totalsize facts.now }
    requires blob { totalsize ≤ length (S.device source.old).bytes }
    ensures leaves { LeavesSurvey result S.device source room }
    ensures own { IsOwn result }
    ensures told { IfHonest S.device source (λ file. IfOk result (λ statement.
        stated statement ≡ payload_stated file totalsize path.now facts.now)) }
{
    let text = payload_text(alloc, source, room, totalsize, facts)?;
    let mut key = Vec::from_slice(alloc, path)?;
    key.extend_from_slice(b"data")?;
    Ok(Statement { key, text })
}

fn payload_facts_of<A: Allocator>(blob: &Blob, room: &Room<A>, node: usize) -> PayloadFacts
    requires { node < length room.now.entries }
    ensures inside { InAnyFile blob.now room.now (λ size. PayloadInside blob.now.totalsize result) }
    ensures said { OfRow blob.now room.now.entries node (λ row. result ≡ payload_facts_of row) }
{
    PayloadFacts {
        embedded: blob.value(room, node, Key::Data),
        size: blob.value(room, node, Key::DataSize),
        offset: blob.value(room, node, Key::DataOffset),
        position: blob.value(room, node, Key::DataPosition),
    }
}

fn is_image<A: Allocator>(blob: &Blob, room: &Room<A>, node: usize) -> bool
    requires { node < length room.now.entries }
    ensures { OfRow blob.now room.now.entries node (λ row. result ≡ is_image row.role) }
{
    match blob.role(room, node) {
        Role::Image => true,
        _ => false,
    }
}

fn node_alone(alloc: Global, path: &[u8]) -> Result<Statement, AllocError>
    ensures { IfOk result (λ statement. stated statement ≡ node_alone path.now) }
{
    let key = Vec::from_slice(alloc, path)?;
    let text = Vec::new(alloc);
    Ok(Statement { key, text })
}

// States the payload of a node if it is an image.
#[tactic(auto, unfolding(crate::specs::Statements::payload_if))]
fn payload_if<S: Source, A: Allocator>(
    alloc: Global,
    source: &mut S,
    blob: &Blob,
    room: &mut Room<A>,
    node: usize,
    path: &[u8],
) -> Result<Option<Statement>, SurveyFault>
    requires { HasNode (S.device source.old) blob.now room.old node }
    ensures leaves { LeavesSurvey result S.device source room }
    ensures own { IsOwn result }
    ensures told { IfHonest S.device source (λ file. OfRow blob.now room.old.entries node (λ row.
        IfOk result (λ found.
        found_stated found ≡ payload_if file blob.now.totalsize path.now row))) }
{
    if !is_image(blob, room, node) {
        return Ok(None);
    }
    let facts = payload_facts_of(blob, room, node);
    let payload = payload_statement(alloc, source, room, blob.totalsize(), &facts, path)?;
    Ok(Some(payload))
}

fn list_properties<S: Source, A: Allocator>(
    alloc: Global,
    source: &mut S,
    blob: &Blob,
    room: &mut Room<A>,
    node: usize,
) -> Result<Vec<PropertyPlace>, SurveyFault>
    requires { HasNode (S.device source.old) blob.now room.old node }
    ensures leaves { LeavesSurvey result S.device source room }
    ensures inside { IfOk result (λ places.
        All (EndsBy (length (S.device source.old).bytes)) places.items) }
    ensures told { OfRowRead (S.device source.old) blob.now room.old.entries node (λ row.
        ReadsAs (λ places. map (read_place (S.device source.old).bytes) places.items)
        (places_of row) result) }
{
    match properties_of(alloc, source, blob, room, node) {
        Ok(places) => Ok(places),
        Err(PropertiesFault::Read) => Err(SurveyFault::Stopped(Fault::Read)),
        Err(PropertiesFault::OutOfMemory) => Err(SurveyFault::OutOfMemory),
        Err(PropertiesFault::Changed) => Err(SurveyFault::Changed),
    }
}

// States the properties of a node that do not say where its payload is.
fn other_statements<S: Source, A: Allocator>(
    alloc: Global,
    source: &mut S,
    blob: &Blob,
    room: &mut Room<A>,
    node: usize,
    path: &[u8],
) -> Result<Vec<Statement>, SurveyFault>
    requires { HasNode (S.device source.old) blob.now room.old node }
    ensures leaves { LeavesSurvey result S.device source room }
    ensures told { OfRowRead (S.device source.old) blob.now room.old.entries node (λ row.
        ReadsAs all_stated (properties_stated (S.device source.old).bytes path.now
        (payload_facts_of row) (places_of row)) result) }
{
    let places = list_properties(alloc, source, blob, room, node)?;
    let facts = payload_facts_of(blob, room, node);
    let all = property_statements(alloc, source, room, path, places.as_slice(), &facts)?;
    Ok(all)
}

// Appends the statements after the first two.
fn all_of(
    alloc: Global,
    path: &[u8],
    payload: Option<Statement>,
    others: Vec<Statement>,
) -> Result<Vec<Statement>, AllocError>
    ensures { IfOk result (λ all. all_stated all
        ≡ (node_alone path.now ∷ found_stated payload) ++ all_stated others) }
{
    let mut all = Vec::new(alloc);
    let mut rest = others;
    let alone = node_alone(alloc, path)?;
    push_found(&mut all, Some(alone))?;
    push_found(&mut all, payload)?;
    all.append(&mut rest)?;
    Ok(all)
}

// States a node at a path.
#[tactic(auto, unfolding(crate::specs::Statements::node_stated))]
fn node_statements<S: Source, A: Allocator>(
    alloc: Global,
    source: &mut S,
    blob: &Blob,
    room: &mut Room<A>,
    node: usize,
    path: &[u8],
) -> Result<Vec<Statement>, SurveyFault>
    requires { HasNode (S.device source.old) blob.now room.old node }
    ensures leaves { LeavesSurvey result S.device source room }
    ensures told { OfRowRead (S.device source.old) blob.now room.old.entries node (λ row.
        ReadsAs all_stated (node_stated (S.device source.old).bytes blob.now.totalsize path.now row)
        result) }
{
    let payload = payload_if(alloc, source, blob, room, node, path)?;
    let others = other_statements(alloc, source, blob, room, node, path)?;
    let all = all_of(alloc, path, payload, others)?;
    Ok(all)
}

#[tactic(auto, unfolding(crate::specs::Statements::shortened))]
fn shortened(alloc: Global, path: Vec<u8>) -> Result<Vec<u8>, AllocError>
    ensures { IfOk result (λ short. short.items ≡ shortened path.items) }
{
    if path.len() <= PATH_LEN {
        return Ok(path);
    }
    let mut digest = [0; 64];
    let mut sum = Sha256Sum::start();
    sum.feed(path.as_slice());
    let count = sum.finish(&mut digest);
    let digits = hex::encode(alloc, &digest[..count])?;
    let text = format!(in alloc; "sha256:{digits}/")?;
    Ok(text.into_bytes())
}

fn path_above(
    alloc: Global,
    paths: &[Vec<u8>],
    parent: Option<usize>,
) -> Result<Vec<u8>, AllocError>
    ensures { IfOk result (λ path.
        path.items ≡ path_above (map path_items paths.now) parent) }
{
    let Some(parent) = parent else {
        return Ok(Vec::new(alloc));
    };
    match paths.get(parent) {
        Some(path) => Ok(Vec::from_slice(alloc, path.as_slice())?),
        None => Ok(Vec::new(alloc)),
    }
}

#[tactic(auto, unfolding(crate::specs::Statements::path_below))]
fn path_below(alloc: Global, above: Vec<u8>, name: &[u8]) -> Result<Vec<u8>, AllocError>
    ensures { IfOk result (λ path. path.items ≡ path_below above.items name.now) }
{
    let mut path = above;
    push_name(alloc, &mut path, name)?;
    path.push(b'/')?;
    shortened(alloc, path)
}

fn path_of<S: Source, A: Allocator>(
    alloc: Global,
    source: &mut S,
    blob: &Blob,
    room: &Room<A>,
    node: usize,
    paths: &[Vec<u8>],
) -> Result<Vec<u8>, SurveyFault>
    requires { HasNode (S.device source.old) blob.now room.now node }
    ensures uses { Uses (is_unread result) (S.device source.old) (S.device source.new) }
    ensures own { IsOwn result }
    ensures told { IfHonest S.device source (λ file. OfRow blob.now room.now.entries node (λ row.
        IfOk result (λ path. path.items
        ≡ node_path file (map path_items paths.now) row))) }
{
    let name = read_bytes(alloc, source, blob.name(room, node))?;
    let above = path_above(alloc, paths, blob.parent(room, node))?;
    let path = path_below(alloc, above, name.as_slice())?;
    Ok(path)
}

fn tree_statements<S: Source, A: Allocator>(
    alloc: Global,
    source: &mut S,
    blob: &Blob,
    room: &mut Room<A>,
) -> Result<Vec<Statement>, SurveyFault>
    requires { InFile (length (S.device source.old).bytes) blob.now room.old.entries }
    ensures leaves { LeavesSurvey result S.device source room }
    ensures told { (t : Siblings) → Opened (S.device source.old) blob.now room.old t →
        ReadsAs all_stated (nodes_stated (S.device source.old).bytes blob.now.totalsize []
        (table t)) result }
{
    let mut paths = Vec::new(alloc);
    let mut all = Vec::new(alloc);
    let most = room.count();
    let mut node = 0;
    while node < most {
        let path = path_of(alloc, source, blob, room, node, paths.as_slice())?;
        let mut found = node_statements(alloc, source, blob, room, node, path.as_slice())?;
        all.append(&mut found)?;
        if paths.push(path).is_err() {
            return Err(SurveyFault::OutOfMemory);
        }
        node += 1;
    }
    Ok(all)
}

/// Returns what a FIT image states: its nodes in reading order, each with its properties in their
/// order; of an image its payload in place of the properties that say where it is. A value or a
/// payload of more than 128 bytes is stated by its size and SHA-256, a path of more than 255 by its
/// SHA-256.
///
/// Reads each value and each payload once. The room holds the nodes meanwhile, and the statements
/// take at most 2 KiB for a node or a property.
///
/// - The faults of `survey`.
/// - `NoData`, `DataOutside`: of the first image whose payload is not in the file.
/// - `OutOfMemory`: memory for facts, a value or a statement was refused.
/// - `Changed`: only if the source does not have the blob that was indexed.
pub fn fit_statements<S: Source, A: Allocator>(
    alloc: Global,
    source: &mut S,
    room: &mut Room<A>,
) -> Result<Vec<Statement>, SurveyFault>
    ensures uses { Uses (is_unread result) (S.device source.old) (S.device source.new) }
    ensures told { IfHonest S.device source (λ file. StatesFit file result) }
{
    let blob = read_tree(source, room)?;
    let facts = survey(alloc, &blob, room)?;
    let size = source.size()?;
    match first_fault(source, size, facts.totalsize, facts.images.as_slice())? {
        Some(fault) => Err(SurveyFault::Stopped(Fault::Fit(fault))),
        None => tree_statements(alloc, source, &blob, room),
    }
}
