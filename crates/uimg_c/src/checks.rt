//! Whether an image in memory has right checksums of a needed strength.

ghost use Rattle.std.specs.Prelude.{◌≡◌, ◌≢◌, ◌≤◌, Some, IfSome, false};
ghost use Rattle.uimg_requests.specs.declared.command.Form.TheVariants as form;
ghost use Rattle.uimg_engine.specs.{Faults.{is_put, is_no_memory, end_of}, Headline.InMemory};
ghost use Rattle.uimg_c.specs.Answers.{ReportsCheck, end_of_check, no_report, table_most};
ghost use Rattle.uimg_c.specs.Codes.{strength};

use crate::codes::{Code, NO_MEMORY, answer_code};
use crate::peaks::peak_of;
use crate::reports::UimgReport;
use std::alloc::{Allocator, Global};
use uimg_base::{ALGOS, Algo, MemSource, Room, Status};
use uimg_engine::Fault;

pub(crate) fn strength(need: u32) -> Option<Algo>
    ensures { result ≡ strength need }
{
    for algo in &ALGOS[1..] {
        if need == *algo as u32 {
            return Some(*algo);
        }
    }
    None
}

/// `peak` is the memory that was taken.
pub(crate) fn report_of(code: Option<Code>, peak: u64) -> UimgReport
    requires { IfSome code (λ c. c.status ≤ 1) }
    ensures code { result.status ≢ 3 → code ≡ Some (record {
      status = result.status;
      fault = result.fault;
      place = result.place;
    }) }
    ensures memory { result.status ≡ 3 → result ≡ no_report }
    ensures no_text { (result.needed ≡ 0) × (result.written ≡ 0) }
    ensures peak { result.peak ≤ peak }
    ensures taken { result.status ≢ 3 → result.peak ≡ peak }
{
    match code {
        Some(code) => UimgReport {
            status: code.status,
            fault: code.fault,
            place: code.place,
            needed: 0,
            written: 0,
            peak,
        },
        None => UimgReport {
            status: NO_MEMORY,
            fault: 0,
            place: 0,
            needed: 0,
            written: 0,
            peak: 0,
        },
    }
}

pub(crate) fn check_for<A: Allocator>(
    need: Algo,
    image: &[u8],
    room: &mut Room<A>,
) -> Result<Status, Fault>
    ensures end { is_no_memory result ≡ false → end_of result ≡ Some (end_of_check need image.now) }
    ensures no_put { is_put result ≡ false }
    ensures memory { InMemory form.Guess image.now result room }
{
    let found = uimg_checks::check(Some(need), &mut MemSource::new(image), room)?;
    Ok(found.status())
}

/// `need` is the number of the needed strength.
pub(crate) fn check(alloc: Global, image: &[u8], need: u32, report: &mut UimgReport) -> u32
    ensures told { result ≢ 3 → ReportsCheck need image.now report.new }
    ensures status { result ≡ report.new.status }
    ensures nothing { result ≡ 3 → report.new ≡ no_report }
    ensures peak { report.new.peak ≤ table_most form.Guess image.now }
{
    let mut room = Room::new(alloc);
    let end = match strength(need) {
        Some(algo) => check_for(algo, image, &mut room),
        None => Ok(Status::NotRight),
    };
    *report = report_of(answer_code(end), peak_of(&room));
    report.status
}
