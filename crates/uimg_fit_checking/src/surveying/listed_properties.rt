//! Lists the properties of configurations, with or without a known key.

ghost use Rattle.std.specs.Prelude.{◌<◌, length, map, IfOk};
ghost use Rattle.std.specs.List.{All};
ghost use Rattle.uimg_blob_reading.specs.Grammar.{Siblings};
ghost use Rattle.uimg_blob_reading.specs.LookUps.{configurations};
ghost use Rattle.uimg_blob_reading.specs.Roles.{in_configurations};
ghost use Rattle.uimg_blob_reading.specs.Spots.{spots};
ghost use Rattle.uimg_fit_reading.specs.Nodes.{Indexed, Opened, OfNode, OfNodes, IsEntryOrNone};
ghost use Rattle.uimg_fit_checking.specs.FullSurvey.{properties_said, properties_in, PlacesInside, TellsProperties, TellsLists};
ghost use Rattle.uimg_fit_checking.specs.SurveyParts.{LeavesSurvey};

use crate::surveying::fault::SurveyFault;
use std::alloc::{Allocator, Global};
use uimg_base::{Room, Source};
use uimg_blob_reading::{Blob, PropertiesFault, PropertyPlace, properties_of};
use uimg_fit_base::Fault;
use uimg_fit_reading::nodes::{child_of, configurations_of, next_of};

fn list_properties<S: Source, A: Allocator>(
    alloc: Global,
    source: &mut S,
    blob: &Blob,
    room: &mut Room<A>,
    node: usize,
) -> Result<Vec<PropertyPlace>, SurveyFault>
    requires { node < length room.old.entries }
    ensures leaves { LeavesSurvey result S.device source room }
    ensures inside { IfOk result (PlacesInside blob.now.totalsize) }
    ensures told { OfNode (S.device source.old) blob.now room.old in_configurations node (λ found.
        TellsProperties (S.device source.old) (S.device source.new) found result) }
{
    match properties_of(alloc, source, blob, room, node) {
        Ok(places) => Ok(places),
        Err(PropertiesFault::Read) => Err(SurveyFault::Stopped(Fault::Read)),
        Err(PropertiesFault::OutOfMemory) => Err(SurveyFault::OutOfMemory),
        Err(PropertiesFault::Changed) => Err(SurveyFault::Changed),
    }
}

fn gather_properties<S: Source, A: Allocator>(
    alloc: Global,
    source: &mut S,
    blob: &Blob,
    room: &mut Room<A>,
    first: Option<usize>,
) -> Result<Vec<Vec<PropertyPlace>>, SurveyFault>
    requires { IsEntryOrNone blob.now room.old first }
    ensures leaves { LeavesSurvey result S.device source room }
    ensures inside { IfOk result (λ lists. All (PlacesInside blob.now.totalsize) lists.items) }
    ensures told { OfNodes (S.device source.old) blob.now room.old in_configurations first (λ found.
        TellsLists (S.device source.old) (S.device source.new) (map properties_said found) result) }
{
    let mut lists = Vec::new(alloc);
    let mut next = first;
    while let Some(configuration) = next {
        match list_properties(alloc, source, blob, room, configuration) {
            Ok(places) => {
                if lists.push(places).is_err() {
                    return Err(SurveyFault::OutOfMemory);
                }
            }
            Err(fault) => return Err(fault),
        }
        next = next_of(blob, room, configuration);
    }
    Ok(lists)
}

pub(super) fn configuration_properties<S: Source, A: Allocator>(
    alloc: Global,
    source: &mut S,
    blob: &Blob,
    room: &mut Room<A>,
) -> Result<Vec<Vec<PropertyPlace>>, SurveyFault>
    requires { Indexed blob.now room.old.entries }
    ensures leaves { LeavesSurvey result S.device source room }
    ensures inside { IfOk result (λ lists. All (PlacesInside blob.now.totalsize) lists.items) }
    ensures told { (t : Siblings) → Opened (S.device source.old) blob.now room.old t →
        TellsLists (S.device source.old) (S.device source.new) (properties_in (configurations (spots t))) result }
{
    let Some(node) = configurations_of(blob, room) else {
        return Ok(Vec::new(alloc));
    };
    gather_properties(alloc, source, blob, room, child_of(blob, room, node))
}
