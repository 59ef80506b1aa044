//! Collects what is in the file of an image.

ghost use Rattle.std.specs.Prelude.{◌≡◌, [], None, List, ℕ};
ghost use Rattle.uimg_map.specs.Contents.{GrowsBy, AddsFound};
ghost use Rattle.uimg_map.specs.Found.{read_label, thing, refused, refused_at, refused_behind};

use crate::fault::MapFault;
use crate::thing::Thing;
use std::alloc::Global;
use uimg_base::Span;

/// What a thing is.
#[derive(Clone, Copy, Debug, PartialEq, Eq)]
pub enum Label {
    /// The header of a blob or of a legacy image.
    Header,

    /// The memory reservation block of a blob.
    Reservations,

    /// Its structure block, which has the nodes and the values of their properties.
    Structure,

    /// Its strings block, which has the names of properties.
    Strings,

    /// The payload of the image whose name is at this span. If a signature covers it, the name of
    /// the configuration is at the other.
    Payload(Span, Option<Span>),

    /// The same, as the value of a property.
    Embedded(Span, Option<Span>),

    /// The table of the sizes of a legacy image's parts.
    Table,

    /// The data of a legacy image without parts.
    Data,

    /// The part of this position.
    Part(u32),

    /// The bytes up to the next part.
    Padding,

    /// The offset of a fault.
    Fault(MapFault),
}

/// What is found in the file of an image.
#[derive(Drop)]
pub(crate) struct Contents {
    /// The length of the file in bytes.
    pub(crate) size: u64,

    /// The things in it. The number of a thing is that of its label.
    pub(crate) things: Vec<Thing>,

    /// What each thing is.
    pub(crate) labels: Vec<Label>,

    /// The first fault of the image, if it has one.
    pub(crate) fault: Option<MapFault>,
}

impl Contents {
    pub(crate) fn new(alloc: Global, size: u64) -> Contents
        ensures size { result.size ≡ size }
        ensures things { result.things.items ≡ [] }
        ensures labels { result.labels.items ≡ [] }
        ensures fault { result.fault ≡ None }
    {
        Contents {
            size,
            things: Vec::new(alloc),
            labels: Vec::new(alloc),
            fault: None,
        }
    }

    pub(crate) fn add(&mut self, place: u64, end: u64, label: Label) -> Result<(), MapFault>
        ensures { AddsFound
            (λ file. thing (read_label file label) place end) result self.old self.new }
    {
        let number = self.labels.len();
        self.labels.push(label)?;
        self.things.push(Thing { place, end, number })?;
        Ok(())
    }

    pub(crate) fn refuse_at(&mut self, place: u64, fault: MapFault) -> Result<(), MapFault>
        ensures { AddsFound (λ _. refused_at place fault) result self.old self.new }
    {
        self.add(place, place, Label::Fault(fault))?;
        self.refuse(fault);
        Ok(())
    }

    /// Keeps an earlier fault of the image.
    pub(crate) fn refuse(&mut self, fault: MapFault)
        ensures { (file : List ℕ) → GrowsBy file (refused fault) self.old self.new }
    {
        if self.fault.is_none() {
            self.fault = Some(fault);
        }
    }

    /// Sets the fault of the image, if something ends after the file.
    #[tactic(auto, unfolding(crate::specs::Found::refused_behind))]
    pub(crate) fn refuse_behind(&mut self, end: u64, fault: MapFault)
        ensures { (file : List ℕ) → GrowsBy file (refused_behind self.old.size end fault) self.old self.new }
    {
        if end > self.size {
            self.refuse(fault);
        }
    }
}
