//! Reports on images, one after the other.
ghost use Rattle.std.specs.Prelude.{◌≡◌, ◌+◌, ◌≤◌, length};
ghost use Rattle.uimg_fit_reading.specs.ImageReports.{ReportsFound, ReportsImage, ReportsImages, report_status};
ghost use Rattle.uimg_fit_reading.specs.{Nodes.{HasNode, HasNodes}, OpenFits.{file_of, InFit}};
ghost use Rattle.uimg_fit_reading.specs.Puts.{Leaves, LeavesOrRefuses};

use crate::nodes::{first_hash, name_of, next_of};
use crate::open_fit::OpenFit;
use crate::places::payload_place;
use crate::report::hash_lines::put_unhashed;
use crate::report::hash_reports::report_hashes;
use std::alloc::Allocator;
use std::io::Write;
use uimg_base::{MoveFault, Out, Source, Span, Status};
use uimg_fit_base::Fault;

// Returns whether all hash nodes of the image are right.
fn report_found<S: Source, A: Allocator, W: Write>(
    fit: &mut OpenFit<'_, S, A>,
    image: usize,
    span: Span,
    out: &mut Out<W>,
) -> Result<bool, MoveFault>
    requires node { InFit S.device fit.old HasNode image }
    requires payload { span.place + span.length ≤ length (file_of S.device fit.old) }
    ensures leaves { Leaves result S.device fit out }
    ensures told { ReportsFound image span result S.device fit out }
{
    let name = name_of(&fit.blob, fit.room, image);
    let first = first_hash(&fit.blob, fit.room, image);
    if first.is_none() {
        put_unhashed(fit.source, fit.room, name, out)?;
        return Ok(true);
    }
    report_hashes(fit, name, span, first, out)
}

// Returns whether all hash nodes of the image are right.
fn report_image<S: Source, A: Allocator, W: Write>(
    fit: &mut OpenFit<'_, S, A>,
    image: usize,
    out: &mut Out<W>,
) -> Result<bool, Fault>
    requires { InFit S.device fit.old HasNode image }
    ensures leaves { LeavesOrRefuses result S.device fit out }
    ensures told { ReportsImage image result S.device fit out }
{
    let span = payload_place(fit.source, &fit.blob, fit.room, image)?;
    Ok(report_found(fit, image, span, out)?)
}

fn status(are_right: bool) -> Status
    ensures { result ≡ report_status are_right }
{
    if are_right {
        Status::Done
    } else {
        Status::NotRight
    }
}

pub(crate) fn report_images<S: Source, A: Allocator, W: Write>(
    fit: &mut OpenFit<'_, S, A>,
    first: Option<usize>,
    out: &mut Out<W>,
) -> Result<Status, Fault>
    requires { InFit S.device fit.old HasNodes first }
    ensures leaves { LeavesOrRefuses result S.device fit out }
    ensures told { ReportsImages first result S.device fit out }
{
    let mut are_right = true;
    let mut next = first;
    while let Some(image) = next {
        let right = report_image(fit, image, out)?;
        are_right = are_right & right;
        next = next_of(&fit.blob, fit.room, image);
    }
    Ok(status(are_right))
}
