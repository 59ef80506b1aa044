//! Makes an image, over a world of files or on a disk.

ghost use Rattle.std.specs.Prelude.{◌≡◌, ◌∷◌, ◌⊎◌, [], Some, IsTrue, false, is_err, true};
ghost use Rattle.uimg_engine.specs.{Commands.{HonestFiles, MakesCommand, OpensToBuild}, OpenedFiles.OpensCommand};
ghost use Rattle.uimg_tool.specs.{LeavingOut.leads_to, Makings.MakesAt, Statuses.end_status};
ghost use Rattle.uimg_tool.specs.OldMakings.{IsNew, MakesIn, path_for};
ghost use Rattle.uimg_tool.specs.RequestEnds.{AsMade, IsFileAt, MakeEnds, StoppedAs};
ghost use Rattle.uimg_world.specs.Deeds.{Deed};

use crate::folder_files::{FolderFiles, LeftOut};
use crate::lookup::Folders;
use crate::old_files::Begun;
use crate::reasons::ReasonKeeper;
use crate::request_fault::RequestFault;
use std::alloc::Global;
use std::cell::Cell;
use std::io;
use std::io::Write;
use std::marker::Brand;
use uimg_base::{Files, Out, Room, Shelf, Status};
use uimg_engine::{Fault, make_by};
use uimg_requests::{MakeCommand, MakeRequest};
use uimg_world::{MakingWorld, Reader};

/// Makes the image on a shelf of its path, of the files in the folder of the request.
pub(crate) fn make_in<'a, 'p, D: MakingWorld<'p>, W: Write>(
    world: &mut D,
    request: &'a MakeRequest<'p>,
    out: &mut Out<W>,
) -> Result<Status, RequestFault<'a>>
    ensures ends { MakeEnds request.now result }
    ensures told { IsTrue (D.map world.old).honest → MakesAt D.Shelf.Kept.device
        (D.identities world.old) request.now (D.map world.old) result out.old out.new }
    ensures lent { D.trace world.new
        ≡ Deed.LendsShelf request.now.outfile.now ∷ Deed.LendsReader ∷ D.trace world.old }
{
    let alloc = world.alloc();
    let reader = world.reader();
    let code = Cell::new(None);
    let shelf = ReasonKeeper::new(world.shelf_at(request.outfile), &code);
    let end = make_among::<_, _, _, Brand>(alloc, request, false, reader, shelf, out);
    end_written(request, end, code.get())
}

// A reader opens the files in the folder of the request. The file that is written is left out.
fn make_among<'a, R: Reader, H: Shelf, W: Write, L: LeftOut>(
    alloc: Global,
    request: &'a MakeRequest<'_>,
    is_xip: bool,
    reader: R,
    shelf: H,
    out: &mut Out<W>,
) -> Result<Status, RequestFault<'a>>
    requires known { IsTrue L.known }
    requires leads { leads_to (R.identities reader) request.now.folder.now request.now.outfile.now
        ≡ L.leads }
    requires xip { is_xip ≡ true → request.now.is_xip ≡ true }
    ensures ends { MakeEnds request.now result }
    ensures told { IsTrue (R.map reader).honest → IsTrue H.honest → H.contents shelf ≡ Some [] →
        is_xip ≡ false → MakesAt H.Kept.device (R.identities reader) request.now (R.map reader)
        result out.old out.new }
{
    let folders = Folders::new(reader, alloc, request.folder, &[], request.outfile);
    let mut files = FolderFiles::<R, L>::new(folders, is_xip);
    let made = make_over(alloc, request, &mut files, shelf, out);
    let has_met_outfile = files.has_met_left_out();
    end_of(
        request,
        made,
        has_met_outfile,
        is_xip,
        files.has_met_no_room,
    )
}

/// Writes to a file that was begun, or else to one at the path of the image.
pub(crate) fn make_command<'a, 'p, D: MakingWorld<'p>, W: Write>(
    world: &mut D,
    request: &'a MakeRequest<'p>,
    reader: D::Reader,
    begun: Option<Begun<'_, D::File>>,
    out: &mut Out<W>,
) -> Result<Status, RequestFault<'a>>
    ensures ends { MakeEnds request.now result }
    ensures lent { D.trace world.new
        ≡ Deed.LendsShelf (path_for request.now.outfile.now begun.entry) ∷ D.trace world.old }
    ensures told { IsTrue D.knows → IsTrue (D.Reader.map reader).honest →
        IsNew D.File.contents begun.entry → request.now.is_xip ≡ false →
        MakesIn begun.entry D.Shelf.Kept.device D.NewShelf.Kept.device
        (D.Reader.identities reader) request.now (D.Reader.map reader) result out.old out.new }
{
    let alloc = world.alloc();
    let code = Cell::new(None);
    let made = match begun {
        Some(Begun { file, path }) => match world.shelf_in(path.new.as_str(), file) {
            Ok(shelf) => {
                let shelf = ReasonKeeper::new(shelf, &code);
                make_among::<_, _, _, Brand>(alloc, request, request.is_xip, reader, shelf, out)
            }
            Err(_) => Err(RequestFault::OutOfMemory),
        },
        None => {
            let shelf = ReasonKeeper::new(world.shelf_at(request.outfile), &code);
            make_among::<_, _, _, Brand>(alloc, request, request.is_xip, reader, shelf, out)
        }
    };
    end_written(request, made, code.get())
}

fn make_over<F: Files, H: Shelf, W: Write>(
    alloc: Global,
    request: &MakeRequest<'_>,
    files: &mut F,
    shelf: H,
    out: &mut Out<W>,
) -> Result<H::Kept, Fault>
    ensures made { HonestFiles F.map files → IsTrue H.honest → H.contents shelf ≡ Some [] →
        MakesCommand H.Kept.device request.now.manner.naming request.now.command
        request.now.manner.time request.now.manner.align (F.map files.old).bytes result out }
    ensures opens { OpensToBuild request.now.command result (F.map files.old) (F.map files.new) }
    ensures opened { OpensCommand request.now.command request.now.manner.time
        request.now.manner.align (is_err result) (F.map files.old) (F.map files.new) }
{
    let mut room = Room::new(alloc);
    make_by(
        alloc,
        &request.command,
        request.manner,
        files,
        shelf,
        &mut room,
        out,
    )
}

// The path is that of the command line.
fn end_of<'a, K: Drop>(
    request: &'a MakeRequest<'a>,
    made: Result<K, Fault>,
    has_met_outfile: bool,
    is_xip: bool,
    has_met_no_room: bool,
) -> Result<Status, RequestFault<'a>>
    requires { is_xip ≡ true → request.now.is_xip ≡ true }
    ensures ends { MakeEnds request.now result }
    ensures made { is_xip ≡ false → AsMade request.now made has_met_outfile result }
{
    match made {
        Ok(_) => Ok(Status::Done),
        Err(Fault::NoFile(number)) if is_xip && has_met_no_room => {
            Err(RequestFault::NoRoom(file_path(request, number)))
        }
        Err(_) if has_met_outfile => Err(RequestFault::WritesWhatIsRead(request.outfile)),
        Err(fault) => Err(stopped_making(request, fault)),
    }
}

// A failed write is reported with the image's path and the system's reason, if there is one.
fn end_written<'a>(
    request: &'a MakeRequest<'_>,
    made: Result<Status, RequestFault<'a>>,
    code: Option<i32>,
) -> Result<Status, RequestFault<'a>>
    requires { MakeEnds request.now made }
    ensures ends { MakeEnds request.now result }
    ensures status { end_status result ≡ end_status made.entry }
    ensures kept { (end_status made.entry ≡ 3) ⊎ (result ≡ made.entry) }
{
    match (made, code) {
        (Err(RequestFault::Stopped(Fault::Put)), Some(code)) => {
            let reason = io::Error::from_raw_os_error(code);
            Err(RequestFault::NotPut(request.outfile, reason))
        }
        (made, _) => made,
    }
}

// The path is that of the command line.
fn stopped_making<'a>(request: &'a MakeRequest<'_>, fault: Fault) -> RequestFault<'a>
    ensures { StoppedAs request.now fault result }
{
    match fault {
        Fault::NoFile(number) => RequestFault::CannotRead(file_path(request, number)),
        Fault::Keep => RequestFault::CannotRead(request.outfile),
        _ => RequestFault::Stopped(fault),
    }
}

// The path is that of the command line.
fn file_path<'a>(request: &'a MakeRequest<'_>, number: u64) -> &'a str
    ensures { IsFileAt request.now number result.now }
{
    match &request.command {
        MakeCommand::Parts { options: _, files } => match files.get(number as usize) {
            Some(name) => text_of(name),
            None => "",
        },
        MakeCommand::Tree { .. } => request.source,
    }
}

// An empty text if the name is not UTF-8.
fn text_of(name: &[u8]) -> &str
    ensures { (result.now ≡ []) ⊎ (result.now ≡ name.now) }
{
    match str::from_utf8(name) {
        Ok(name) => name,
        Err(_) => "",
    }
}
