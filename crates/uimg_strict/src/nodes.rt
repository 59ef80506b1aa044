//! Strict checks of the names in nodes.

ghost use Rattle.std.specs.Prelude.{◌≡◌, Some, length, IfOk};
ghost use Rattle.std.specs.Option.{option_map};
ghost use Rattle.uimg_blob_reading.specs.Grammar.{Siblings};
ghost use Rattle.uimg_blob_reading.specs.Spots.{spots};
ghost use Rattle.uimg_fit_checking.specs.SurveyParts.{LeavesSurvey};
ghost use Rattle.uimg_fit_reading.specs.Nodes.{InFile, HasNode, Opened, OfAnyNode};
ghost use Rattle.uimg_strict.specs.Looseness.{all_nodes, first_found, in_node, loose_names, loose_node};
ghost use Rattle.uimg_strict.specs.Telling.{read_loose, read_names, TellsLoose};

use crate::loose::{Loose, Looseness};
use crate::names::{first_again, has_at, has_name};
use crate::node_names::{NodeNames, names_of};
use std::alloc::{AllocError, Allocator, Global};
use uimg_base::{Room, Source};
use uimg_blob_reading::Blob;
use uimg_fit_checking::SurveyFault;

/// The property by which U-Boot skips a hash node.
const IGNORE: &[u8] = b"uboot-ignore";

/// Fails if memory was refused.
pub(crate) fn in_node(
    alloc: Global,
    why: Looseness,
    name: &[u8],
) -> Result<Option<Loose>, AllocError>
    ensures { IfOk result (λ found. option_map read_loose found ≡ Some (in_node why name.now)) }
{
    let node = Vec::from_slice(alloc, name)?;
    Ok(Some(Loose {
        why,
        node: Some(node),
    }))
}

// Fails if memory was refused.
fn loose_names(alloc: Global, names: &NodeNames) -> Result<Option<Loose>, AllocError>
    ensures { IfOk result (λ found.
        option_map read_loose found ≡ loose_names (read_names names.now)) }
{
    let name = names.name.as_slice();
    if has_at(name) {
        return in_node(alloc, Looseness::UnitAddress, name);
    }
    if let Some(child) = first_again(alloc, names.children.as_slice())? {
        return in_node(alloc, Looseness::DoubledNode, child);
    }
    if first_again(alloc, names.properties.as_slice())?.is_some() {
        return in_node(alloc, Looseness::DoubledProperty, name);
    }
    if has_name(IGNORE, names.properties.as_slice()) {
        return in_node(alloc, Looseness::IgnoredHash, name);
    }
    Ok(None)
}

fn loose_node<S: Source, A: Allocator>(
    alloc: Global,
    source: &mut S,
    blob: &Blob,
    room: &mut Room<A>,
    node: usize,
) -> Result<Option<Loose>, SurveyFault>
    requires { HasNode (S.device source.old) blob.now room.old node }
    ensures leaves { LeavesSurvey result S.device source room }
    ensures told { OfAnyNode (S.device source.old) blob.now room.old node (λ level found.
        TellsLoose (loose_node found) result) }
{
    let names = names_of(alloc, source, blob, room, node)?;
    let found = loose_names(alloc, &names)?;
    Ok(found)
}

pub(crate) fn first_loose_node<S: Source, A: Allocator>(
    alloc: Global,
    source: &mut S,
    blob: &Blob,
    room: &mut Room<A>,
) -> Result<Option<Loose>, SurveyFault>
    requires { InFile (length (S.device source.old).bytes) blob.now room.old.entries }
    ensures leaves { LeavesSurvey result S.device source room }
    ensures told { (t : Siblings) → Opened (S.device source.old) blob.now room.old t →
        TellsLoose (first_found loose_node (all_nodes (spots t))) result }
{
    let most = room.count();
    let mut node = 0;
    while node < most {
        let found = loose_node(alloc, source, blob, room, node)?;
        if found.is_some() {
            return Ok(found);
        }
        node += 1;
    }
    Ok(None)
}
