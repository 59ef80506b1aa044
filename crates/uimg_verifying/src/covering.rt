//! Whether each image is named by a configuration.

ghost use Rattle.std.specs.Prelude.{◌≡◌, ◌<◌, length, IfOk, Some, true};
ghost use Rattle.std.specs.{List.slice_get, Option.option_map};
ghost use Rattle.uimg_base.specs.{Honest.IfHonest, Using.Uses};
ghost use Rattle.uimg_blob_reading.specs.{Grammar.Siblings, Rows.{Row, table}};
ghost use Rattle.uimg_fit_checking.specs.{Indexes.IndexedIn, SurveyParts.{LeavesSurvey, is_unread}};
ghost use Rattle.uimg_fit_reading.specs.Nodes.{InFile, Opened};
ghost use Rattle.uimg_strict.specs.Telling.{read_loose};
ghost use Rattle.uimg_verifying.specs.Configurations.{OfNode};
ghost use Rattle.uimg_verifying.specs.Covering.{IsOuter, TellsUncovered, covers, is_covered, is_outer, is_uncovered, stopped, uncovered_from};
ghost use Rattle.uimg_verifying.specs.Signatures.{OfPair};

use crate::configurations::refused;
use std::alloc::{Allocator, Global};
use uimg_base::{Room, Source};
use uimg_blob_reading::{Blob, Role};
use uimg_fit_base::Fault;
use uimg_fit_checking::SurveyFault;
use uimg_signing::{SigningFault, names_image};
use uimg_strict::{Loose, Looseness};

// Of the faults of a configuration's names.
fn stopped(fault: SigningFault) -> SurveyFault
    ensures fault { result ≡ stopped fault }
    ensures outer { is_outer result ≡ true }
{
    match fault {
        SigningFault::Read => SurveyFault::Stopped(Fault::Read),
        SigningFault::OutOfMemory => SurveyFault::OutOfMemory,
        _ => SurveyFault::Changed,
    }
}

// Returns whether a node is a configuration that names an image.
fn covers<S: Source, A: Allocator>(
    alloc: Global,
    source: &mut S,
    blob: &Blob,
    room: &mut Room<A>,
    image: usize,
    node: usize,
) -> Result<bool, SurveyFault>
    requires image { image < length room.old.entries }
    requires node { node < length room.old.entries }
    requires file { InFile (length (S.device source.old).bytes) blob.now room.old.entries }
    ensures uses { Uses (is_unread result) (S.device source.old) (S.device source.new) }
    ensures room { room.new ≡ room.old }
    ensures outer { IsOuter result }
    ensures told { OfPair (S.device source.old) blob.now room.old image node
        (λ file rows its row. IfOk result (λ it. it ≡ covers file its row)) }
{
    match blob.role(room, node) {
        Role::Configuration => match names_image(alloc, source, blob, room, node, image) {
            Ok(it) => Ok(it),
            Err(fault) => Err(stopped(fault)),
        },
        _ => Ok(false),
    }
}

fn is_covered<S: Source, A: Allocator>(
    alloc: Global,
    source: &mut S,
    blob: &Blob,
    room: &mut Room<A>,
    image: usize,
) -> Result<bool, SurveyFault>
    requires image { image < length room.old.entries }
    requires file { InFile (length (S.device source.old).bytes) blob.now room.old.entries }
    ensures uses { Uses (is_unread result) (S.device source.old) (S.device source.new) }
    ensures room { room.new ≡ room.old }
    ensures outer { IsOuter result }
    ensures told { (t : Siblings) → Opened (S.device source.old) blob.now room.old t →
        (row : Row) → slice_get (table t) image ≡ Some row → IfOk result
        (λ it. it ≡ is_covered (S.device source.old).bytes (table t) row) }
{
    let mut node = 0;
    while node < room.count() {
        let is_named = covers(alloc, source, blob, room, image, node)?;
        if is_named {
            return Ok(true);
        }
        node += 1;
    }
    Ok(false)
}

fn is_uncovered<S: Source, A: Allocator>(
    alloc: Global,
    source: &mut S,
    blob: &Blob,
    room: &mut Room<A>,
    node: usize,
) -> Result<bool, SurveyFault>
    requires node { node < length room.old.entries }
    requires file { InFile (length (S.device source.old).bytes) blob.now room.old.entries }
    ensures uses { Uses (is_unread result) (S.device source.old) (S.device source.new) }
    ensures room { room.new ≡ room.old }
    ensures outer { IsOuter result }
    ensures told { (t : Siblings) → Opened (S.device source.old) blob.now room.old t →
        (row : Row) → slice_get (table t) node ≡ Some row → IfOk result
        (λ it. it ≡ is_uncovered (S.device source.old).bytes (table t) row) }
{
    match blob.role(room, node) {
        Role::Image => {
            let is_covered = is_covered(alloc, source, blob, room, node)?;
            Ok(!is_covered)
        }
        _ => Ok(false),
    }
}

#[tactic(auto, using(crate::proofs::CoveringLaws::own_outer))]
fn first_uncovered<S: Source, A: Allocator>(
    alloc: Global,
    source: &mut S,
    blob: &Blob,
    room: &mut Room<A>,
) -> Result<Option<Loose>, SurveyFault>
    requires { InFile (length (S.device source.old).bytes) blob.now room.old.entries }
    ensures uses { Uses (is_unread result) (S.device source.old) (S.device source.new) }
    ensures room { room.new ≡ room.old }
    ensures outer { IsOuter result }
    ensures told { (t : Siblings) → Opened (S.device source.old) blob.now room.old t → IfOk result
        (λ found. option_map read_loose found ≡ uncovered_from (S.device source.old).bytes
        (table t) (table t)) }
{
    let mut node = 0;
    while node < room.count() {
        let is_it = is_uncovered(alloc, source, blob, room, node)?;
        if is_it {
            let found = refused(alloc, source, blob, room, node, Looseness::Unsigned)?;
            return Ok(Some(found));
        }
        node += 1;
    }
    Ok(None)
}

/// Returns the first image of a FIT image, whose blob was indexed, that no configuration names, by a property other than
/// `description`, `compatible` and `default`. No signature covers it.
///
/// The properties of each configuration are read once for each image. Takes memory for the properties
/// of one configuration.
///
/// - `Stopped` with `Read`: if and only if a read failed.
/// - `OutOfMemory`: memory was refused.
/// - `Changed`: only if the source does not have the blob that was indexed.
#[tactic(auto, unfolding(crate::specs::Covering::uncovered_of))]
pub fn find_uncovered<S: Source, A: Allocator>(
    alloc: Global,
    source: &mut S,
    blob: &Blob,
    room: &mut Room<A>,
) -> Result<Option<Loose>, SurveyFault>
    requires { IndexedIn (S.device source.old) blob.now room.old }
    ensures leaves { LeavesSurvey result S.device source room }
    ensures told { IfHonest S.device source (λ file. TellsUncovered file result) }
{
    let found = first_uncovered(alloc, source, blob, room)?;
    Ok(found)
}
