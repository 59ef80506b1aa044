//! Surveys a FIT image: collects where its facts are, without its payloads.

ghost use Rattle.std.specs.Prelude.{◌≡◌, ◌+◌, ◌<◌, ℕ, List, length, false, IfOk};
ghost use Rattle.uimg_base.specs.Honest.{HonestSource, IfHonest};
ghost use Rattle.uimg_blob_reading.specs.Counts.{index_cost};
ghost use Rattle.uimg_blob_reading.specs.Grammar.{Siblings};
ghost use Rattle.uimg_blob_reading.specs.LookUps.{NodeOf, images, configurations};
ghost use Rattle.uimg_blob_reading.specs.Roles.{in_images};
ghost use Rattle.uimg_blob_reading.specs.Spots.{Spot, spots};
ghost use Rattle.uimg_fit_reading.specs.Nodes.{Indexed, IsRead, AreFrom, HasTree, IsEntryOrNone, InAnyFile};
ghost use Rattle.uimg_fit_checking.specs.FullSurvey.{properties_of, properties_cost, read_properties, FullInside, survey_in};
ghost use Rattle.uimg_base.specs.Using.{UsesWithin};
ghost use Rattle.uimg_blob_reading.specs.Indexed.{TakesNodes};
ghost use Rattle.uimg_fit_checking.specs.Survey.{said_of, read_survey, preferred_in, configurations_in, read_configuration};
ghost use Rattle.uimg_fit_checking.specs.SurveyParts.{ConfigurationInside, SurveyInside, is_unread, lacks_room, is_changed, Surveys};
ghost use Rattle.uimg_fit_reading.specs.PayloadPlaces.{Ends};
ghost use Rattle.std.specs.List.{All};
ghost use Rattle.std.specs.Prelude.{map};
ghost use Rattle.uimg_fit_base.specs.Files.{bytes_in};

mod facts;
mod fault;
mod gathered_nodes;
mod listed_properties;
mod values;

use crate::surveying::gathered_nodes::{gather_configurations, gather_images};
use crate::surveying::listed_properties::configuration_properties;
pub use facts::{ConfigurationFacts, FullSurvey, HashFacts, ImageFacts, Survey};
pub use fault::SurveyFault;
use std::alloc::{AllocError, Allocator, Global};
use uimg_base::{Room, Source, Span};
use uimg_blob_reading::{Blob, Key};
use uimg_fit_reading::images::first_image;
use uimg_fit_reading::nodes::{child_of, configurations_of, root_value, value_of};
use uimg_fit_reading::read_tree;
pub use values::read_bytes;

fn configurations<A: Allocator>(
    alloc: Global,
    blob: &Blob,
    room: &Room<A>,
) -> Result<(Option<Span>, Vec<ConfigurationFacts>), AllocError>
    requires { Indexed blob.now room.now.entries }
    ensures inside { InAnyFile blob.now room.now (λ size.
        IfOk result (λ found. Ends size found.0 × All (ConfigurationInside size) found.1.items)) }
    ensures said { (file : List ℕ) (t : Siblings) → IsRead file blob.now room.now.entries t →
        IfOk result (λ found. (bytes_in file found.0 ≡ preferred_in (configurations (spots t)))
        × (map (read_configuration file) found.1.items ≡ configurations_in (configurations (spots t)))) }
{
    let Some(node) = configurations_of(blob, room) else {
        return Ok((None, Vec::new(alloc)));
    };
    let preferred = value_of(blob, room, node, Key::Default);
    let all = gather_configurations(alloc, blob, room, child_of(blob, room, node))?;
    Ok((preferred, all))
}

fn gather<A: Allocator>(
    alloc: Global,
    blob: &Blob,
    room: &Room<A>,
    first: Option<usize>,
) -> Result<Survey, AllocError>
    requires { IsEntryOrNone blob.now room.now first }
    ensures totalsize { IfOk result (λ survey. survey.totalsize ≡ blob.now.totalsize) }
    ensures inside { InAnyFile blob.now room.now (λ size. IfOk result (SurveyInside size)) }
    ensures said { (file : List ℕ) (t : Siblings) → IsRead file blob.now room.now.entries t →
        (found : List (NodeOf Spot)) → AreFrom t in_images first found →
        IfOk result (λ survey. read_survey file survey ≡ said_of file (spots t) found) }
{
    let images = gather_images(alloc, blob, room, first)?;
    let (preferred, configurations) = configurations(alloc, blob, room)?;
    Ok(Survey {
        totalsize: blob.totalsize(),
        description: root_value(blob, room, Key::Description),
        timestamp: root_value(blob, room, Key::Timestamp),
        images,
        preferred,
        configurations,
    })
}

/// Collects the facts of a FIT image whose blob was indexed, without its payloads: of its root, its
/// images with their hash nodes, and its configurations with the names of their child nodes. A fact
/// is the span of a value; it ends inside the blob, and the blob inside the source, whatever that
/// returns. Reads nothing.
///
/// - `NoImages`.
/// - `OutOfMemory`: memory for the facts was refused, some 300 bytes for an image or a
///   configuration, 80 for a hash node, 16 for a configuration's child node.
pub fn survey<A: Allocator>(
    alloc: Global,
    blob: &Blob,
    room: &Room<A>,
) -> Result<Survey, SurveyFault>
    requires { Indexed blob.now room.now.entries }
    ensures unread { is_unread result ≡ false }
    ensures no_table { lacks_room result ≡ false }
    ensures unchanged { is_changed result ≡ false }
    ensures totalsize { IfOk result (λ survey. survey.totalsize ≡ blob.now.totalsize) }
    ensures inside { InAnyFile blob.now room.now (λ size. IfOk result (SurveyInside size)) }
    ensures told { (file : List ℕ) → HasTree file blob.now room.now.entries → Surveys file result }
{
    let first = first_image(blob, room)?;
    Ok(gather(alloc, blob, room, first)?)
}

/// Indexes a FIT image's blob, collects the facts as `survey` does, and also lists the properties of
/// each configuration, in their order, with or without a known key. The room holds the nodes
/// meanwhile, and refuses memory as for a listing.
///
/// Reads the properties from the structure block again, after what the index requests: of an honest
/// source at most 44 bytes for each configuration, 268 for each of its properties and 4 for each
/// NOP of the blob. Reads no value.
///
/// - The faults of the blob, then those of `survey`.
/// - `Stopped` with `Read`: if and only if a read failed.
/// - `OutOfMemory`, also: memory for the properties was refused, 32 bytes for each.
/// - `Changed`: only if the blob is not the one that was indexed.
pub fn survey_with_properties<S: Source, A: Allocator>(
    alloc: Global,
    source: &mut S,
    room: &mut Room<A>,
) -> Result<FullSurvey, SurveyFault>
    ensures uses { UsesWithin (λ file. index_cost file + properties_cost file)
        (is_unread result) S.device source }
    ensures room { TakesNodes (S.device source.old) (lacks_room result) room.old room.new }
    ensures inside { IfOk result (FullInside (length (S.device source.old).bytes)) }
    ensures told { IfHonest S.device source (λ file. Surveys file (survey_in result)) }
    ensures properties { IfHonest S.device source (λ file. IfOk result
        (λ full. map (read_properties file) full.properties.items ≡ properties_of file)) }
{
    let blob = read_tree(source, room)?;
    let survey = survey(alloc, &blob, room)?;
    match configuration_properties(alloc, source, &blob, room) {
        Ok(properties) => Ok(FullSurvey { survey, properties }),
        Err(fault) => Err(fault),
    }
}
