//! The map of an image's file.

ghost use Rattle.std.specs.Prelude.{◌≡◌, length, IfOk, IfErr, IsTrue};
ghost use Rattle.uimg_base.specs.{Honest.HonestSource, Using.UsesAtMost};
ghost use Rattle.uimg_map.specs.{Contents.Gathers, Faults.{is_read, stops}, Work.map_work};
ghost use Rattle.uimg_map.specs.Labels.{label_of, standing_of};
ghost use Rattle.uimg_map.specs.Maps.{contents_of, IsMap, IsMapOf};

use crate::arranging::arrange;
use crate::contents::{Contents, Label};
use crate::fault::MapFault;
use crate::fit_contents::add_fit;
use crate::legacy_contents::add_legacy;
use crate::row::Row;
use crate::thing::Thing;
use std::alloc::Global;
use uimg_base::Source;
use uimg_fit_base::begins_as_blob;

/// The map of an image's file.
#[derive(Drop)]
pub struct Map {
    /// The length of the file in bytes.
    pub size: u64,

    /// Its rows. The number of a thing is that of its label.
    pub rows: Vec<Row>,

    /// What each thing is.
    pub labels: Vec<Label>,

    /// The first fault of the image, if it has one.
    pub fault: Option<MapFault>,
}

/// Whether a thing shares bytes with earlier ones.
#[derive(Clone, Copy, Debug, PartialEq, Eq)]
pub(crate) enum Standing {
    /// It shares no bytes with them.
    Alone,

    /// It is the value of a property in the structure block, as it should be.
    Nested,

    /// It shares bytes with this one.
    Overlapping(Label),
}

impl Map {
    pub(crate) fn label_of(&self, thing: Thing) -> Option<Label>
        ensures { result ≡ label_of self.now thing }
    {
        self.labels.get(thing.number).copied()
    }

    /// `over` is an earlier thing that shares bytes with this one.
    pub(crate) fn standing_of(&self, thing: Thing, over: Option<Thing>) -> Standing
        ensures { result ≡ standing_of self.now thing over }
    {
        match (
            self.label_of(thing),
            over.and_then(|over| self.label_of(over)),
        ) {
            (_, None) => Standing::Alone,
            (Some(Label::Embedded(_, _)), Some(Label::Structure)) => Standing::Nested,
            (_, Some(other)) => Standing::Overlapping(other),
        }
    }
}

/// Returns the map of a file: of a FIT image if it begins as a blob, else of a legacy image. A
/// refused image has a map too, with what its header says and its fault, at its offset if it has
/// one. A payload or part that ends after the file is a fault too. A payload is told with the first
/// configuration that has a signature node and names its image; no signature is verified.
///
/// Reads no payload and no part. Requests the four bytes of the format. Of a FIT image it requests
/// at most the header's numbers, the reservation block, which ends in the file, the index, 12 bytes
/// for each image, and for each image and each signature node of a configuration what `names_image`
/// does. Of a legacy image it requests the header, 8 bytes for each size in its
/// table and 4 for the word after them.
///
/// Returns a fault only if a read failed, or memory was refused for a FIT image's nodes or for the
/// map: some 500 bytes for an image, 300 for a part.
pub fn map_of<S: Source>(alloc: Global, source: &mut S) -> Result<Map, MapFault>
    ensures uses { UsesAtMost (map_work (S.device source.old).bytes) (is_read result)
        (S.device source.old) (S.device source.new) }
    ensures size { IfOk result (λ map. map.size ≡ length (S.device source.old).bytes) }
    ensures rows { IfOk result IsMap }
    ensures found { HonestSource S.device source →
        IfOk result (IsMapOf (S.device source.old).bytes) }
    ensures stops { HonestSource S.device source →
        IfErr result (λ fault. IsTrue (stops fault)) }
{
    let mut contents = Contents::new(alloc, source.size()?);
    add_contents(alloc, source, &mut contents)?;
    let Contents {
        size,
        things,
        labels,
        fault,
    } = contents;
    let rows = arrange(alloc, size, things)?;
    Ok(Map {
        size,
        rows,
        labels,
        fault,
    })
}

fn add_contents<S: Source>(
    alloc: Global,
    source: &mut S,
    contents: &mut Contents,
) -> Result<(), MapFault>
    requires { contents.old.size ≡ length (S.device source.old).bytes }
    ensures { Gathers map_work contents_of result (S.device source.old) (S.device source.new)
        contents.old contents.new }
{
    if begins_as_blob(source)? {
        add_fit(alloc, source, contents)?;
        return Ok(());
    }
    add_legacy(source, contents)?;
    Ok(())
}
