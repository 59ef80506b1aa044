//! Properties with their values.

ghost use Rattle.std.specs.Prelude.{◌≡◌, ◌<◌, ◌≤◌, ◌++◌, ◌∷◌, [], false, IfOk, OnOk, length, map};
ghost use Rattle.uimg_base.specs.Named.{FileMap};
ghost use Rattle.uimg_blob_writing.specs.{Properties.{property, content}, LentFiles.OfHonest};
ghost use Rattle.uimg_its.specs.{Words.words, Steps.step_front, Reader.{property_step, properties}};
ghost use Rattle.uimg_its.specs.{Answers.{Gives, OnlyMemory, OpensFiles}, Parts.props_in_full};
ghost use Rattle.uimg_its.specs.{FileValues.{IsSoundIn, AreSound}, Included.OpensIncluded};

use crate::growth::{copied, out_of_memory};
use crate::items::{Item, read_item};
use crate::stop::Stop;
use crate::values::assigned;
use std::alloc::Allocator;
use uimg_base::Files;
use uimg_blob_writing::{ByteList, Prop, Props, Value};

fn push_property<A: Allocator>(
    alloc: A,
    props: &mut Vec<Prop<A>, A>,
    name: &[u8],
    value: Value<A>,
    left: usize,
) -> Result<(), Stop>
    ensures pushed { OnOk result (map property props.new.items
        ≡ map property props.old.items ++ record { name = name.now; value = content value } ∷ []) }
    ensures sound { OnOk result ((files : FileMap) → AreSound files (map property props.old.items) →
        IsSoundIn files name.now (content value) → AreSound files (map property props.new.items)) }
    ensures memory { OnlyMemory result }
{
    let name = copied(alloc, name, left)?;
    let Ok(()) = props.push(Prop { name, value }) else {
        return Err(out_of_memory(left));
    };
    Ok(())
}

// Returns whether there was none, and the text after it.
#[tactic(auto, unfolding(crate::specs::Reader::property_step))]
fn property_step<'a, F: Files, A: Allocator + Copy>(
    alloc: A,
    files: &mut F,
    props: &mut Vec<Prop<A>, A>,
    text: &'a [u8],
) -> Result<(bool, &'a [u8]), Stop>
    ensures opens { OpensFiles F.Opened.steady F.map result files }
    ensures included { OpensIncluded F.map (λ x. words x.1.now) result files (words text.now) }
    ensures gives { OfHonest F.map files (λ there.
        Gives (λ x. (x.0, props_in_full there (map property props.new.items), words x.1.now)) result
        (step_front (props_in_full there (map property props.old.items))
        (property_step there (words text.now)))) }
    ensures sound { OnOk result (AreSound (F.map files.old) (map property props.old.items) →
        AreSound (F.map files.old) (map property props.new.items)) }
    ensures within { IfOk result (λ x. length x.1.now ≤ length text.now) }
    ensures shorter { IfOk result (λ x. x.0 ≡ false → length x.1.now < length text.now) }
{
    let head = read_item(text)?;
    match head.item {
        Item::Empty(name) => {
            let value = Value::Bytes(ByteList::of(Vec::new(alloc)));
            push_property(alloc, props, name, value, head.last.left)?;
            Ok((false, head.rest))
        }
        Item::Assigned(name) => {
            let (value, rest) = assigned(alloc, files, name, head.rest)?;
            push_property(alloc, props, name, value, head.last.left)?;
            Ok((false, rest))
        }
        Item::Opens(_) | Item::Closes => Ok((true, text)),
    }
}

pub(crate) fn properties<'a, F: Files, A: Allocator + Copy>(
    alloc: A,
    files: &mut F,
    text: &'a [u8],
) -> Result<(Props<A>, &'a [u8]), Stop>
    ensures opens { OpensFiles F.Opened.steady F.map result files }
    ensures included { OpensIncluded F.map (λ x. words x.1.now) result files (words text.now) }
    ensures gives { OfHonest F.map files (λ there.
        Gives (λ x. (props_in_full there x.0, words x.1.now)) result
        (properties there (words text.now))) }
    ensures sound { IfOk result (λ x. AreSound (F.map files.old) x.0) }
    ensures within { IfOk result (λ x. length x.1.now ≤ length text.now) }
{
    let mut props = Vec::new(alloc);
    let mut rest = text;
    loop {
        let (last, after) = property_step(alloc, files, &mut props, rest)?;
        if last {
            return Ok((Props::of(props), after));
        }
        rest = after;
    }
}
