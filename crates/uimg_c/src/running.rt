//! A command on an image in memory, whose text goes to the caller's memory.

ghost use Rattle.uimg_engine.specs.Headline.{outcome_of};
ghost use Rattle.uimg_c.specs.Answers.{ReportsEnd, ReportsOn};
ghost use Rattle.uimg_c.specs.Codes.{code_of_answer};

use crate::codes::{NO_MEMORY, answer_code};
use crate::fronts::copy_front;
use crate::peaks::peak_of;
use crate::reports::UimgReport;
use std::alloc::Global;
use uimg_base::{Room, Status};
use uimg_engine::{Fault, run_in_memory};
use uimg_requests::Command;
use uimg_texts::Naming;

// Copies the text, truncated to `text`.
fn report_of_text(
    end: Result<Status, Fault>,
    whole: &[u8],
    text: &mut [u8],
    peak: u64,
) -> UimgReport
    ensures { ReportsEnd (code_of_answer end) whole.now text.old text.new peak result }
{
    let Some(code) = answer_code(end) else {
        return UimgReport {
            status: NO_MEMORY,
            fault: 0,
            place: 0,
            needed: 0,
            written: 0,
            peak: 0,
        };
    };
    let written = copy_front(whole, text);
    UimgReport {
        status: code.status,
        fault: code.fault,
        place: code.place,
        needed: whole.len(),
        written,
        peak,
    }
}

/// Copies the text, truncated to `text`.
pub(crate) fn report_on(
    alloc: Global,
    command: &Command,
    image: &[u8],
    text: &mut [u8],
    report: &mut UimgReport,
) -> u32
    ensures { ReportsOn (outcome_of Naming.Profile command.now image.now) command.now.form image.now
        result text.old text.new report.new }
{
    let mut room = Room::new(alloc);
    let (end, whole) = run_in_memory(alloc, Naming::Profile, command, image, &mut room);
    *report = report_of_text(end, whole.as_slice(), text, peak_of(&room));
    report.status
}
