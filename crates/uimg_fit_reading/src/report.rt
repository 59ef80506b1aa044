//! The report on the hashes of images.

ghost use Rattle.uimg_fit_base.specs.Report.{verify_of};
ghost use Rattle.uimg_fit_reading.specs.{Work.verify_work, Rooms.{Delivers, TellsOf}};

mod digests;
mod hash_lines;
mod hash_reports;
mod image_reports;
mod judging;
mod plans;

use crate::images::first_image;
use crate::open_fit::OpenFit;
use crate::report::image_reports::report_images;
use crate::tree::read_tree;
pub use digests::{compared_algos, payload_digests};
pub use judging::judge;
use std::alloc::Allocator;
use std::io::Write;
use uimg_base::{Out, Room, Source, Status};
use uimg_fit_base::Fault;

/// Writes the report on the hashes of the images. Each hash node of each image has a line `<image>
/// <hash> <algo> <word>`, with one of the words `malformed`, `unsupported`, `ok` and `bad`. An
/// image without hash nodes has the line `<image> - none unhashed`. Returns `Done` if each line
/// ends with `ok` or `unhashed`, else `NotRight`.
///
/// Each payload is requested at most once, however many hash nodes it has, and not at all if none
/// of them is compared. Over an honest source a prefix of the report was written after `Read` or
/// `Put`. Beside these payloads no more was requested of it than for a listing.
///
/// - The faults of the blob and `NoImages`: without a line.
/// - `NoData`, `DataOutside`: of an image, before its lines.
/// - `OutOfMemory`: if and only if the room refused to grow.
pub fn verify<S: Source, A: Allocator, W: Write>(
    source: &mut S,
    room: &mut Room<A>,
    out: &mut Out<W>,
) -> Result<Status, Fault>
    ensures delivers { Delivers verify_work result S.device source room out }
    ensures told { TellsOf verify_of result S.device source out }
{
    let blob = read_tree(source, room)?;
    let first = first_image(&blob, room)?;
    let mut fit = OpenFit { source, blob, room };
    report_images(&mut fit, first, out)
}
