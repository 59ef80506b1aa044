//! Finds the first reason for which a strict check refuses a FIT image.

ghost use Rattle.std.specs.Prelude.{◌≡◌, ℕ, List, length, false, IfOk};
ghost use Rattle.std.specs.Option.{option_map};
ghost use Rattle.uimg_base.specs.Honest.{IfHonest};
ghost use Rattle.uimg_blob_reading.specs.Grammar.{Siblings};
ghost use Rattle.uimg_blob_reading.specs.LookUps.{NodeOf};
ghost use Rattle.uimg_blob_reading.specs.Roles.{in_images};
ghost use Rattle.uimg_blob_reading.specs.Spots.{Spot, spots};
ghost use Rattle.uimg_fit_base.specs.Files.{root_own, value_bytes};
ghost use Rattle.uimg_fit_checking.specs.Indexes.{IndexedIn};
ghost use Rattle.uimg_fit_checking.specs.SurveyParts.{LeavesSurvey};
ghost use Rattle.uimg_fit_reading.specs.Nodes.{InFile, HasNodes, IsRead, Opened, AreFrom};
ghost use Rattle.uimg_strict.specs.Looseness.{in_root, is_nameless, loose_root, loose_in, loose_file};
ghost use Rattle.std.specs.Prelude.{codes};
ghost use Rattle.uimg_strict.specs.Telling.{read_loose, TellsLoose, TellsLooseness};

use crate::images::first_loose_image;
use crate::loose::{Loose, Looseness};
use crate::nodes::first_loose_node;
use crate::placement::first_misplaced;
use crate::soundness::is_sound;
use std::alloc::{Allocator, Global};
use uimg_base::{Room, Source};
use uimg_blob_reading::{Blob, Key};
use uimg_fit_checking::SurveyFault;
use uimg_fit_reading::images::first_image;
use uimg_fit_reading::nodes::root_value;

fn in_root(why: Looseness) -> Loose
    ensures { read_loose result ≡ in_root why }
{
    Loose { why, node: None }
}

fn loose_root<A: Allocator>(blob: &Blob, room: &Room<A>) -> Option<Loose>
    ensures { (file : List ℕ) (t : Siblings) → IsRead file blob.now room.now.entries t →
        option_map read_loose result ≡ loose_root
        (value_bytes (root_own (spots t)) (codes "description"))
        (value_bytes (root_own (spots t)) (codes "timestamp")) }
{
    if root_value(blob, room, Key::Description).is_none() {
        return Some(in_root(Looseness::NoDescription));
    }
    if root_value(blob, room, Key::Timestamp).is_none() {
        return Some(in_root(Looseness::NoTimestamp));
    }
    None
}

fn loose_in<S: Source, A: Allocator>(
    alloc: Global,
    source: &mut S,
    blob: &Blob,
    room: &mut Room<A>,
    first: Option<usize>,
) -> Result<Option<Loose>, SurveyFault>
    requires { HasNodes (S.device source.old) blob.now room.old first }
    ensures leaves { LeavesSurvey result S.device source room }
    ensures told { (t : Siblings) → Opened (S.device source.old) blob.now room.old t →
        (found : List (NodeOf Spot)) → AreFrom t in_images first found →
        TellsLoose (loose_in (S.device source.old).bytes (spots t) found) result }
{
    let root = loose_root(blob, room);
    if root.is_some() {
        return Ok(root);
    }
    let node = first_loose_node(alloc, source, blob, room)?;
    if node.is_some() {
        return Ok(node);
    }
    let image = first_loose_image(alloc, source, blob, room, first)?;
    if image.is_some() {
        return Ok(image);
    }
    let place = first_misplaced(alloc, source, blob, room, first)?;
    Ok(place)
}

fn is_nameless<A: Allocator>(blob: &Blob, room: &Room<A>) -> bool
    ensures { (file : List ℕ) (t : Siblings) → IsRead file blob.now room.now.entries t →
        result ≡ is_nameless (spots t) }
{
    if room.count() == 0 {
        return true;
    }
    blob.name(room, 0).length == 0
}

fn loose_file<S: Source, A: Allocator>(
    alloc: Global,
    source: &mut S,
    blob: &Blob,
    room: &mut Room<A>,
    first: Option<usize>,
) -> Result<Option<Loose>, SurveyFault>
    requires { HasNodes (S.device source.old) blob.now room.old first }
    ensures leaves { LeavesSurvey result S.device source room }
    ensures told { (t : Siblings) → Opened (S.device source.old) blob.now room.old t →
        (found : List (NodeOf Spot)) → AreFrom t in_images first found →
        TellsLoose (loose_file (S.device source.old).bytes (spots t) found) result }
{
    let sound = is_sound(source)?;
    if !sound {
        return Ok(Some(in_root(Looseness::UnsoundBlob)));
    }
    if !is_nameless(blob, room) {
        return Ok(Some(in_root(Looseness::UnsoundBlob)));
    }
    let found = loose_in(alloc, source, blob, room, first)?;
    Ok(found)
}

/// Returns the first thing that strictness refuses in a FIT image whose blob was indexed, with the
/// name of its node. The order is: the blob, the root, a node by the names in it, in reading order, an
/// image by where its payload is.
///
/// Reads the header, the reservation block, names, and the cells of payloads after the tree. Takes
/// memory for the names in one node.
///
/// - `NoImages`: there is no node `/images`.
/// - `Stopped` with `Read`: if and only if a read failed.
/// - `OutOfMemory`: memory for names was refused.
/// - `Changed`: only if the source does not have the blob that was indexed.
pub fn find_loose<S: Source, A: Allocator>(
    alloc: Global,
    source: &mut S,
    blob: &Blob,
    room: &mut Room<A>,
) -> Result<Option<Loose>, SurveyFault>
    requires { IndexedIn (S.device source.old) blob.now room.old }
    ensures leaves { LeavesSurvey result S.device source room }
    ensures told { IfHonest S.device source (λ file. TellsLooseness file result) }
{
    let first = first_image(blob, room)?;
    let found = loose_file(alloc, source, blob, room, first)?;
    Ok(found)
}
