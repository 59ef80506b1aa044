//! The texts of rows.

ghost use Rattle.std.specs.Prelude.{◌≡◌, IfOk, IfErr, IsTrue};
ghost use Rattle.std.specs.String.{string_bytes};
ghost use Rattle.uimg_base.specs.{Device.SameDevice, Honest.HonestSource};
ghost use Rattle.uimg_map.specs.{Faults.stops, Labels.{ReadsNames, name_text, outside_text, word_of, payload_text, Names, TellsThing, Tells}};

use crate::contents::Label;
use crate::fault::MapFault;
use crate::map::{Map, Standing};
use crate::row::Row;
use crate::thing::Thing;
use std::alloc::Global;
use uimg_base::{Source, Span};
use uimg_printing::PrintedWord;

// The longest name of a node, in bytes.
const NAME_LEN: usize = 255;

/// For a thing: its name, which is read from the source, then the earlier thing that it overlaps,
/// if any, and whether it ends after the file. Two spaces before a payload mark the value of a
/// property, which is in the structure block, as it should be.
pub(crate) fn text_of<S: Source>(
    alloc: Global,
    source: &mut S,
    map: &Map,
    row: &Row,
) -> Result<String, MapFault>
    ensures uses { ReadsNames 1020 result (S.device source.old) (S.device source.new) }
    ensures tells { HonestSource S.device source →
        IfOk result (λ text. Tells (S.device source.old).bytes map.now row.now (string_bytes text)) }
    ensures stops { IfErr result (λ fault. IsTrue (stops fault)) }
{
    match *row {
        Row::Taken(thing, over) => thing_text(alloc, source, map, thing, over),
        Row::Gap(_, _) => Ok(String::from_str(alloc, "gap")?),
        Row::Rest(_, _) => Ok(String::from_str(alloc, "rest")?),
    }
}

fn thing_text<S: Source>(
    alloc: Global,
    source: &mut S,
    map: &Map,
    thing: Thing,
    over: Option<Thing>,
) -> Result<String, MapFault>
    ensures uses { ReadsNames 1020 result (S.device source.old) (S.device source.new) }
    ensures tells { HonestSource S.device source → IfOk result
        (λ text. TellsThing (S.device source.old).bytes map.now thing over (string_bytes text)) }
    ensures stops { IfErr result (λ fault. IsTrue (stops fault)) }
{
    let name = label_text(alloc, source, map.label_of(thing))?;
    let outside = outside_text(map.size, thing);
    match map.standing_of(thing, over) {
        Standing::Alone => Ok(format!(in alloc; "{name}{outside}")?),
        Standing::Nested => Ok(format!(in alloc; "  {name}{outside}")?),
        Standing::Overlapping(other) => {
            let other = label_text(alloc, source, Some(other))?;
            Ok(format!(in alloc; "{name}, overlaps {other}{outside}")?)
        }
    }
}

#[tactic(auto, unfolding(crate::specs::Labels::outside_text))]
fn outside_text(size: u64, thing: Thing) -> &'static str
    ensures { result.now ≡ outside_text size thing }
{
    if thing.end > size {
        ", outside the file"
    } else {
        ""
    }
}

fn label_text<S: Source>(
    alloc: Global,
    source: &mut S,
    label: Option<Label>,
) -> Result<String, MapFault>
    ensures uses { ReadsNames 510 result (S.device source.old) (S.device source.new) }
    ensures tells { HonestSource S.device source →
        IfOk result (λ text. Names (S.device source.old).bytes label (string_bytes text)) }
    ensures stops { IfErr result (λ fault. IsTrue (stops fault)) }
{
    let text = match label {
        Some(Label::Payload(name, covered) | Label::Embedded(name, covered)) => {
            payload_text(alloc, source, name, covered)?
        }
        Some(Label::Part(number)) => format!(in alloc; "part {number}")?,
        Some(Label::Fault(fault)) => format!(in alloc; "fault {fault}")?,
        Some(label) => String::from_str(alloc, word_of(label))?,
        None => String::new(alloc),
    };
    Ok(text)
}

fn payload_text<S: Source>(
    alloc: Global,
    source: &mut S,
    name: Span,
    covered: Option<Span>,
) -> Result<String, MapFault>
    ensures uses { ReadsNames 510 result (S.device source.old) (S.device source.new) }
    ensures tells { HonestSource S.device source → IfOk result
        (λ text. string_bytes text ≡ payload_text (S.device source.old).bytes name covered) }
    ensures stops { IfErr result (λ fault. IsTrue (stops fault)) }
{
    let image = name_text(alloc, source, name)?;
    match covered {
        Some(covered) => {
            let configuration = name_text(alloc, source, covered)?;
            Ok(format!(in alloc; "payload of {image}, covered by {configuration}")?)
        }
        None => Ok(format!(in alloc; "payload of {image}")?),
    }
}

fn name_text<S: Source>(alloc: Global, source: &mut S, name: Span) -> Result<String, MapFault>
    ensures uses { ReadsNames 255 result (S.device source.old) (S.device source.new) }
    ensures tells { HonestSource S.device source →
        IfOk result (λ text. string_bytes text ≡ name_text (S.device source.old).bytes name) }
    ensures stops { IfErr result (λ fault. IsTrue (stops fault)) }
{
    let mut bytes = [0; NAME_LEN];
    let length = u64::min(name.length, NAME_LEN as u64) as usize;
    let size = source.size()?;
    if name.place > size || size - name.place < length as u64 {
        return Err(MapFault::Read);
    }
    source.fill_at(name.place, &mut bytes[..length])?;
    Ok(format!(in alloc; "{}", PrintedWord(&bytes[..length]))?)
}

fn word_of(label: Label) -> &'static str
    ensures { result.now ≡ word_of label }
{
    match label {
        Label::Header => "header",
        Label::Reservations => "reservation block",
        Label::Structure => "structure",
        Label::Strings => "strings",
        Label::Table => "table of sizes",
        Label::Data => "data",
        Label::Padding => "padding",
        Label::Payload(_, _) | Label::Embedded(_, _) => "payload",
        Label::Part(_) => "part",
        Label::Fault(_) => "fault",
    }
}
