//! The names in a node.

ghost use Rattle.std.specs.Prelude.{◌≡◌, ◌≤◌, ◌<◌, length, map, IfOk};
ghost use Rattle.std.specs.List.{All};
ghost use Rattle.uimg_base.specs.Honest.{HonestSource};
ghost use Rattle.uimg_base.specs.Using.{Uses};
ghost use Rattle.uimg_fit_checking.specs.FullSurvey.{ReadsAs};
ghost use Rattle.uimg_fit_checking.specs.SurveyParts.{IsOwn, is_unread, LeavesSurvey};
ghost use Rattle.uimg_fit_reading.specs.Nodes.{HasNode, HasNodes, OfAnyNode};
ghost use Rattle.uimg_strict.specs.Looseness.{node_said};
ghost use Rattle.uimg_strict.specs.Telling.{OfAnyNodes, NameEnds, place_name, names_in, read_names};

use std::alloc::{Allocator, Global};
use uimg_base::{Room, Source};
use uimg_blob_reading::{Blob, PropertiesFault, PropertyPlace, properties_of};
use uimg_fit_base::Fault;
use uimg_fit_checking::{SurveyFault, read_bytes};
use uimg_fit_reading::nodes::{child_of, name_of, next_of};

#[derive(Drop)]
pub(crate) struct NodeNames {
    // Its own.
    pub(crate) name: Vec<u8>,
    // Those of its children, in their order.
    pub(crate) children: Vec<Vec<u8>>,
    // Those of its properties, in their order.
    pub(crate) properties: Vec<Vec<u8>>,
}

fn node_names<S: Source, A: Allocator>(
    alloc: Global,
    source: &mut S,
    blob: &Blob,
    room: &Room<A>,
    first: Option<usize>,
) -> Result<Vec<Vec<u8>>, SurveyFault>
    requires { HasNodes (S.device source.old) blob.now room.now first }
    ensures uses { Uses (is_unread result) (S.device source.old) (S.device source.new) }
    ensures own { IsOwn result }
    ensures told { OfAnyNodes (S.device source.old) blob.now room.now first (λ found.
        IfOk result (λ names. names_in names ≡ map (λ n. n.name) found)) }
{
    let mut names = Vec::new(alloc);
    let mut next = first;
    while let Some(node) = next {
        let name = read_bytes(alloc, source, name_of(blob, room, node))?;
        if names.push(name).is_err() {
            return Err(SurveyFault::OutOfMemory);
        }
        next = next_of(blob, room, node);
    }
    Ok(names)
}

fn property_names<S: Source>(
    alloc: Global,
    source: &mut S,
    places: &[PropertyPlace],
) -> Result<Vec<Vec<u8>>, SurveyFault>
    requires { All (NameEnds (length (S.device source.old).bytes)) places.now }
    ensures uses { Uses (is_unread result) (S.device source.old) (S.device source.new) }
    ensures own { IsOwn result }
    ensures told { HonestSource S.device source → IfOk result (λ names.
        names_in names ≡ map (place_name (S.device source.old).bytes) places.now) }
{
    let mut names = Vec::new(alloc);
    for place in places {
        let name = read_bytes(alloc, source, place.name)?;
        if names.push(name).is_err() {
            return Err(SurveyFault::OutOfMemory);
        }
    }
    Ok(names)
}

fn list_properties<S: Source, A: Allocator>(
    alloc: Global,
    source: &mut S,
    blob: &Blob,
    room: &mut Room<A>,
    node: usize,
) -> Result<Vec<PropertyPlace>, SurveyFault>
    requires { HasNode (S.device source.old) blob.now room.old node }
    ensures leaves { LeavesSurvey result S.device source room }
    ensures inside { IfOk result (λ places.
        All (NameEnds (length (S.device source.old).bytes)) places.items) }
    ensures told { OfAnyNode (S.device source.old) blob.now room.old node (λ level found.
        ReadsAs (λ places. map (place_name (S.device source.old).bytes) places.items)
        (map (λ p. p.name) found.own) result) }
{
    match properties_of(alloc, source, blob, room, node) {
        Ok(places) => Ok(places),
        Err(PropertiesFault::Read) => Err(SurveyFault::Stopped(Fault::Read)),
        Err(PropertiesFault::OutOfMemory) => Err(SurveyFault::OutOfMemory),
        Err(PropertiesFault::Changed) => Err(SurveyFault::Changed),
    }
}

fn own_names<S: Source, A: Allocator>(
    alloc: Global,
    source: &mut S,
    blob: &Blob,
    room: &mut Room<A>,
    node: usize,
) -> Result<Vec<Vec<u8>>, SurveyFault>
    requires { HasNode (S.device source.old) blob.now room.old node }
    ensures leaves { LeavesSurvey result S.device source room }
    ensures told { OfAnyNode (S.device source.old) blob.now room.old node (λ level found.
        ReadsAs names_in (map (λ p. p.name) found.own) result) }
{
    let places = list_properties(alloc, source, blob, room, node)?;
    let names = property_names(alloc, source, places.as_slice())?;
    Ok(names)
}

pub(crate) fn names_of<S: Source, A: Allocator>(
    alloc: Global,
    source: &mut S,
    blob: &Blob,
    room: &mut Room<A>,
    node: usize,
) -> Result<NodeNames, SurveyFault>
    requires { HasNode (S.device source.old) blob.now room.old node }
    ensures leaves { LeavesSurvey result S.device source room }
    ensures told { OfAnyNode (S.device source.old) blob.now room.old node (λ level found.
        ReadsAs read_names (node_said found) result) }
{
    let name = read_bytes(alloc, source, name_of(blob, room, node))?;
    let children = node_names(alloc, source, blob, room, child_of(blob, room, node))?;
    let properties = own_names(alloc, source, blob, room, node)?;
    Ok(NodeNames {
        name,
        children,
        properties,
    })
}
