//! The report of a check, as a file.

ghost use Rattle.std.specs.Prelude.{◌≡◌, IfErr, IfOk, IsTrue, OnOk, true};
ghost use Rattle.uimg_base.specs.{Device.SameDevice, Named.SameFiles};
ghost use Rattle.uimg_checks.specs.TestReports.{report_text, reported};
ghost use Rattle.uimg_tool.specs.Drawing.{DrawsTo, Overwrites};
ghost use Rattle.uimg_tool.specs.Reports.{FillsReport, FindsReport, HoldsReport, OpensReport, begins_as_report};
ghost use Rattle.uimg_tool.specs.Statuses.{request_status};
ghost use Rattle.uimg_world.specs.Deeds.{changes};

use crate::complaints::unread;
use crate::pictures::{name_written, unwritten};
use crate::request_fault::RequestFault;
use crate::safe_path::Writing;
use crate::writing::writing_of;
use std::io;
use uimg_base::{Source, SourceFault};
use uimg_checks::TestReport;
use uimg_printing::Printed;
use uimg_world::{Target, World};

/// Looks at the path of a report before a check. What exists there and can be read is written over
/// only if it is empty or begins as a report does. So no image is.
pub(crate) fn find_report<'a, D: World>(
    world: &mut D,
    path: &'a str,
) -> Result<(), RequestFault<'a>>
    ensures fails { IfErr result (λ fault. request_status fault ≡ 3) }
    ensures finds { OnOk result (FindsReport (D.map world.old) path.now (D.trace world.old)
        (D.trace world.new)) }
    ensures same { SameFiles (D.map world.old) (D.map world.new) }
    ensures changes { changes (D.trace world.new) ≡ changes (D.trace world.old) }
{
    match world.target_of(path) {
        Target::Nothing => Ok(()),
        Target::Pipe => Ok(()),
        Target::File => spare(world, path, true),
        Target::Other => spare(world, path, false),
    }
}

// A file that cannot be read is not written over.
fn spare<'a, D: World>(world: &mut D, path: &'a str, is_file: bool) -> Result<(), RequestFault<'a>>
    ensures fails { IfErr result (λ fault. request_status fault ≡ 3) }
    ensures finds { OnOk result (OpensReport (D.map world.old) path.now is_file (D.trace world.old)
        (D.trace world.new)) }
    ensures same { SameFiles (D.map world.old) (D.map world.new) }
    ensures changes { changes (D.trace world.new) ≡ changes (D.trace world.old) }
{
    let Ok(mut source) = world.open(path) else {
        if is_file {
            return Err(unread(world, path));
        }
        return Ok(());
    };
    match begins_as_report(&mut source) {
        Ok(true) => Ok(()),
        Ok(false) => Err(RequestFault::IsNoReport(Printed(path.as_bytes()))),
        Err(_) => Err(unread(world, path)),
    }
}

#[tactic(auto, unfolding(crate::specs::Reports::begins_as_report))]
fn begins_as_report<S: Source>(source: &mut S) -> Result<bool, SourceFault>
    ensures same { SameDevice (S.device source.old) (S.device source.new) }
    ensures told { IsTrue (S.device source.old).honest →
        IfOk result (λ begins. begins ≡ begins_as_report (S.device source.old).bytes) }
{
    let size = source.size()?;
    if size == 0 {
        return Ok(true);
    }
    if size < 5 {
        return Ok(false);
    }
    let mut bytes = [0; 5];
    source.fill_at(0, &mut bytes)?;
    Ok(bytes.as_slice() == b"<?xml".as_slice())
}

/// Writes a report to the file at a path: to a new file beside it first, if that is possible. Nothing
/// is left of one that cannot be written whole.
pub(crate) fn write_report<'a, D: World>(
    world: &mut D,
    path: &'a str,
    report: &TestReport,
) -> Result<(), RequestFault<'a>>
    ensures fails { IfErr result (λ fault. request_status fault ≡ 3) }
    ensures asks { DrawsTo path.now true (D.trace world.old) (D.trace world.new) }
    ensures holds { IsTrue (D.map world.old).honest → OnOk result
        (HoldsReport (report_text (reported report.now)) (D.trace world.new)) }
{
    match writing_of(world, world.alloc(), path) {
        Ok(Writing::Beside(file, safe)) => match fill(world, safe.new.as_str(), file, report) {
            Ok(()) => name_written(world, path, &safe, true, Ok(())),
            Err(reason) => name_written(world, path, &safe, true, Err(unwritten(path, reason))),
        },
        Ok(Writing::InPlace) => write_in_place(world, path, report),
        Ok(Writing::Pipe) => write_in_place(world, path, report),
        Ok(Writing::Nowhere(reason)) => Err(unwritten(path, reason)),
        Err(_) => Err(RequestFault::OutOfMemory),
    }
}

// Something exists at the path.
fn write_in_place<'a, D: World>(
    world: &mut D,
    path: &'a str,
    report: &TestReport,
) -> Result<(), RequestFault<'a>>
    ensures fails { IfErr result (λ fault. request_status fault ≡ 3) }
    ensures asks { Overwrites path.now (D.trace world.old) (D.trace world.new) }
{
    match world.create(path) {
        Ok(file) => match fill(world, path, file, report) {
            Ok(()) => Ok(()),
            Err(reason) => Err(unwritten(path, reason)),
        },
        Err(reason) => Err(unwritten(path, reason)),
    }
}

// Writes a report to an empty file at a path, and closes it.
fn fill<D: World>(
    world: &mut D,
    path: &str,
    mut file: D::File,
    report: &TestReport,
) -> io::Result<()>
    ensures fills { FillsReport D.knows path.now (report_text (reported report.now))
        (D.File.contents file) result (D.trace world.old) (D.trace world.new) }
{
    let put = report.put(&mut file);
    let closed = world.close(path, file, false);
    match put {
        Ok(()) => closed,
        Err(reason) => Err(reason),
    }
}
