//! Where a payload is in an image in memory.

ghost use Rattle.std.specs.Prelude.{◌≡◌, ◌≢◌, length, false, Some, None, Ok};
ghost use Rattle.uimg_requests.specs.declared.command.Action.TheVariants as action;
ghost use Rattle.uimg_requests.specs.declared.command.Form.TheVariants as form;
ghost use Rattle.uimg_engine.specs.{Headline.is_fit, Locating.IsSpanOf};
ghost use Rattle.uimg_fit_checking.specs.Named.{name_at, payload_named, place_named};
ghost use Rattle.uimg_c.specs.Answers.{HasBytes, FindsNamed, Located, outcome_by, span_in};
ghost use Rattle.uimg_c.specs.Codes.{code_of_fault};

use crate::codes::{DONE, NO_MEMORY, fault_code};
use crate::peaks::peak_of;
use crate::reports::UimgPayload;
use std::alloc::Global;
use uimg_base::{Room, Span};
use uimg_engine::{Fault, locate_in_memory};
use uimg_fit_checking::{locate_name, locate_named};
use uimg_requests::Form;

// `peak` is the memory that was taken.
fn unfound(fault: Fault, peak: u64) -> UimgPayload
    ensures code { result.status ≢ 3 → code_of_fault fault ≡ Some (record {
      status = result.status;
      fault = result.fault;
      place = result.place;
    }) }
    ensures memory { result.status ≡ 3 → code_of_fault fault ≡ None }
    ensures no_fault { result.status ≡ 3 → (result.fault ≡ 0) × (result.place ≡ 0) }
    ensures not_found { result.status ≢ 0 }
    ensures nowhere { (result.start ≡ 0) × (result.size ≡ 0) }
    ensures peak { result.peak ≡ peak }
{
    match fault_code(fault) {
        Some(code) => UimgPayload {
            status: code.status,
            fault: code.fault,
            place: code.place,
            start: 0,
            size: 0,
            peak,
        },
        None => UimgPayload {
            status: NO_MEMORY,
            fault: 0,
            place: 0,
            start: 0,
            size: 0,
            peak,
        },
    }
}

// `peak` is the memory that was taken.
fn found(span: Span, peak: u64) -> UimgPayload
    ensures { result ≡ record { status = 0; fault = 0; place = 0; start = span.place; size = span.length; peak = peak } }
{
    UimgPayload {
        status: DONE,
        fault: 0,
        place: 0,
        start: span.place as usize,
        size: span.length as usize,
        peak,
    }
}

pub(crate) fn payload_at(
    alloc: Global,
    image: &[u8],
    position: u32,
    payload: &mut UimgPayload,
) -> u32
    ensures located { Located (HasBytes (outcome_by (action.Extract position) image.now) image.now)
        form.Guess image.now result payload.new }
    ensures span { result ≡ 0 →
        IsSpanOf (is_fit form.Guess image.now) position image.now (span_in payload.new) }
    ensures legacy { is_fit form.Guess image.now ≡ false → result ≢ 3 }
{
    let mut room = Room::new(alloc);
    let located = locate_in_memory(Form::Guess, position, image, &mut room);
    let peak = peak_of(&room);
    *payload = match located {
        Ok(span) => found(span, peak),
        Err(fault) => unfound(fault, peak),
    };
    payload.status
}

/// The first image of the name counts.
pub(crate) fn payload_named(
    alloc: Global,
    image: &[u8],
    name: &[u8],
    payload: &mut UimgPayload,
) -> u32
    ensures located { Located (FindsNamed (payload_named image.now name.now) image.now)
        form.Fit image.now result payload.new }
    ensures span { result ≡ 0 → place_named image.now name.now ≡ Ok (span_in payload.new) }
{
    let mut room = Room::new(alloc);
    let located = locate_named(name, image, &mut room);
    let peak = peak_of(&room);
    *payload = match located {
        Ok(span) => found(span, peak),
        Err(fault) => unfound(Fault::from(fault), peak),
    };
    payload.status
}

pub(crate) fn payload_name(
    alloc: Global,
    image: &[u8],
    position: u32,
    name: &mut UimgPayload,
) -> u32
    ensures { Located (FindsNamed (name_at image.now position) image.now)
        form.Fit image.now result name.new }
{
    let mut room = Room::new(alloc);
    let located = locate_name(position, image, &mut room);
    let peak = peak_of(&room);
    *name = match located {
        Ok(span) => found(span, peak),
        Err(fault) => unfound(Fault::from(fault), peak),
    };
    name.status
}
