//! Names and properties, read to memory.

ghost use Rattle.std.specs.Prelude.{◌≡◌, ◌+◌, ◌≤◌, ◌<◌, length, map, IfOk};
ghost use Rattle.std.specs.List.{All, AllByRecursion};
ghost use Rattle.uimg_texts.specs.Slices.{slice};
ghost use Rattle.uimg_base.specs.{Device.SameDevice, Honest.HonestSource};
ghost use Rattle.uimg_blob_reading.specs.Places.{EndsBy};
ghost use Rattle.uimg_blob_writing.specs.{Content.IsBytes, Properties.property};
ghost use Rattle.uimg_fit_reading.specs.Nodes.{HasNode, OfAnyNode};
ghost use Rattle.uimg_fit_updating.specs.Reading.{read_property, held_property};

use crate::fault::UpdateFault;
use std::alloc::{Allocator, Global};
use uimg_base::{Out, Room, Source, Span, copy_range};
use uimg_blob_reading::{Blob, PropertyPlace, properties_of};
use uimg_blob_writing::{ByteList, Prop, Props, Value};

pub(crate) fn read_span<S: Source, A: Allocator>(
    alloc: Global,
    source: &mut S,
    room: &mut Room<A>,
    span: Span,
) -> Result<ByteList<Global>, UpdateFault>
    requires { span.place + span.length ≤ length (S.device source.old).bytes }
    ensures same { SameDevice (S.device source.old) (S.device source.new) }
    ensures room { room.new ≡ room.old }
    ensures bytes { HonestSource S.device source → IfOk result (λ list.
        list ≡ slice (S.device source.old).bytes span.place span.length) }
{
    let mut bytes = Out::new(Vec::new(alloc));
    copy_range(source, room, span.place, span.length, &mut bytes)?;
    Ok(ByteList::of(bytes.into_inner()))
}

fn read_property<S: Source, A: Allocator>(
    alloc: Global,
    source: &mut S,
    room: &mut Room<A>,
    place: &PropertyPlace,
) -> Result<Prop<Global>, UpdateFault>
    requires { EndsBy (length (S.device source.old).bytes) place.now }
    ensures same { SameDevice (S.device source.old) (S.device source.new) }
    ensures room { room.new ≡ room.old }
    ensures in_memory { IfOk result (λ prop. IsBytes (property prop).value) }
    ensures told { HonestSource S.device source → IfOk result (λ prop.
        property prop ≡ read_property (S.device source.old).bytes place.now) }
{
    let name = read_span(alloc, source, room, place.name)?;
    let value = read_span(alloc, source, room, place.value)?;
    Ok(Prop {
        name,
        value: Value::Bytes(value),
    })
}

fn read_listed<S: Source, A: Allocator>(
    alloc: Global,
    source: &mut S,
    room: &mut Room<A>,
    places: &[PropertyPlace],
) -> Result<Props<Global>, UpdateFault>
    requires { All (EndsBy (length (S.device source.old).bytes)) places.now }
    ensures same { SameDevice (S.device source.old) (S.device source.new) }
    ensures room { room.new ≡ room.old }
    ensures in_memory { IfOk result (AllByRecursion (λ p. IsBytes p.value)) }
    ensures told { HonestSource S.device source → IfOk result (λ props.
        props ≡ map (read_property (S.device source.old).bytes) places.now) }
{
    let mut props = Vec::new(alloc);
    for place in places {
        let prop = read_property(alloc, source, room, place)?;
        if props.push(prop).is_err() {
            return Err(UpdateFault::OutOfMemory);
        }
    }
    Ok(Props::of(props))
}

pub(crate) fn read_properties<S: Source, A: Allocator>(
    alloc: Global,
    source: &mut S,
    blob: &Blob,
    room: &mut Room<A>,
    node: usize,
) -> Result<Props<Global>, UpdateFault>
    requires { HasNode (S.device source.old) blob.now room.old node }
    ensures same { SameDevice (S.device source.old) (S.device source.new) }
    ensures room { room.new ≡ room.old }
    ensures in_memory { IfOk result (AllByRecursion (λ p. IsBytes p.value)) }
    ensures told { OfAnyNode (S.device source.old) blob.now room.old node (λ level found.
        IfOk result (λ props. props ≡ map held_property found.own)) }
{
    let places = properties_of(alloc, source, blob, room, node)?;
    read_listed(alloc, source, room, &places)
}
