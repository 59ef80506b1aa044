//! The images that mkimage makes: each is beside its name until it is complete.

ghost use Rattle.std.specs.Prelude.{◌≡◌, ◌∷◌, ◌⊎◌, [], Err, IsTrue, false, is_err, is_ok, true, if◌then◌else◌};
ghost use Rattle.std.specs.Io.Buffered.{writer_buffer, writer_contents};
ghost use Rattle.uimg_tool.specs.{Complaints.Ends, Finishing.FinishesBy, RequestEnds.{MakeEnds, is_about_source}};
ghost use Rattle.uimg_tool.specs.OldMakings.{AnswersOldMaking, IsNew, LendsAt, ListsIn, MakesFor, Named, path_for};
ghost use Rattle.uimg_tool.specs.Statuses.{end_status, request_status};
ghost use Rattle.uimg_world.specs.Deeds.{Deed, changes};

use crate::complaints::Complaints;
use crate::made::Made;
use crate::making::make_command;
use crate::request_fault::{DONE, REFUSED, RequestFault, status_of};
use crate::safe_path::SafePath;
use crate::writing::begin_image;
use std::alloc::Global;
use std::io;
use std::io::{BufWriter, Write};
use uimg_base::{Out, Status};
use uimg_checks::status_of_fault;
use uimg_engine::Fault;
use uimg_fit_base::FitFault;
use uimg_printing::Printed;
use uimg_requests::MakeRequest;
use uimg_world::{MakingWorld, World};

/// A file that is written beside its name, and its paths.
#[derive(Drop)]
pub(crate) struct Begun<'a, F: Drop> {
    pub(crate) file: F,
    pub(crate) path: &'a SafePath,
}

/// Makes an image beside its name, which it gets when it is complete, even if the end of its listing
/// could not be printed; a listing that fails before loses it. A quiet build prints nothing. Returns
/// `out`, too.
pub(crate) fn make_old<'a, 'p, D: MakingWorld<'p>, W: Write + Drop, V: Write>(
    world: &mut D,
    is_quiet: bool,
    request: &'a MakeRequest<'p>,
    out: BufWriter<W, Global>,
    complaints: &mut Complaints<'_, V>,
) -> (u8, BufWriter<W, Global>)
    ensures ends { Ends result.0 complaints.old.count complaints.new.count }
    ensures quiet { is_quiet ≡ true → result.1 ≡ out }
    ensures made { MakesFor request.now.outfile.now result.0
        (Deed.LendsReader ∷ D.trace world.old) (D.trace world.new) }
    ensures told { IsTrue (D.map world.old).honest → request.now.is_xip ≡ false →
        AnswersOldMaking is_quiet D.Shelf.Kept.device D.NewShelf.Kept.device
        (D.identities world.old) request.now (D.map world.old) result.0
        (writer_contents W.contents out) (writer_contents W.contents result.1) }
    ensures flushed { result.0 ≡ 0 → writer_buffer out ≡ [] → writer_buffer result.1 ≡ [] }
{
    let reader = world.reader();
    match begin_image(world, request.outfile, complaints) {
        Ok(Some((file, path))) => {
            let begun = Begun { file, path: &path };
            let (made, out) = make_by(world, is_quiet, request, reader, Some(begun), out);
            let about = about_end(&made.end, request.source, request.outfile);
            (tell_made(world, &path, &made, about, complaints), out)
        }
        Ok(None) => {
            let (made, out) = make_by(world, is_quiet, request, reader, None, out);
            let end = made.told();
            let about = about_end(&end, request.source, request.outfile);
            (tell_end(world, &end, about, complaints), out)
        }
        Err(status) => (status, out),
    }
}

// Makes an image in a new file or in place. A quiet build prints nothing.
fn make_by<'a, 'p, D: MakingWorld<'p>, W: Write + Drop>(
    world: &mut D,
    is_quiet: bool,
    request: &'a MakeRequest<'p>,
    reader: D::Reader,
    begun: Option<Begun<'_, D::File>>,
    out: BufWriter<W, Global>,
) -> (Made<'a>, BufWriter<W, Global>)
    ensures ends { MakeEnds request.now result.0.end }
    ensures quiet { is_quiet ≡ true → result.1 ≡ out }
    ensures lent { LendsAt (path_for request.now.outfile.now begun.entry) (is_err result.0.end)
        (D.trace world.old) (D.trace world.new) }
    ensures told { IsTrue D.knows → IsTrue (D.Reader.map reader).honest →
        IsNew D.File.contents begun.entry → request.now.is_xip ≡ false →
        ListsIn is_quiet begun.entry D.Shelf.Kept.device D.NewShelf.Kept.device
        (D.Reader.identities reader) request.now (D.Reader.map reader) result.0.end
        (writer_contents W.contents out) (writer_contents W.contents result.1) }
    ensures flushed { is_ok result.0.printed ≡ true → writer_buffer out ≡ [] →
        writer_buffer result.1 ≡ [] }
{
    if is_quiet {
        let mut sink = Out::new(io::sink());
        let end = make_command(world, request, reader, begun, &mut sink);
        let printed = Ok(());
        return (Made { end, printed }, out);
    }
    let mut listing = Out::new(out);
    let end = make_command(world, request, reader, begun, &mut listing);
    let mut out = listing.into_inner();
    let printed = out.flush();
    (Made { end, printed }, out)
}

/// Gives an image its name, even if the end of its listing could not be printed, or removes its file.
/// Reports the end with its path, and a listing that was not printed.
pub(crate) fn tell_made<D: World, V: Write>(
    world: &mut D,
    path: &SafePath,
    made: &Made<'_>,
    about: &str,
    complaints: &mut Complaints<'_, V>,
) -> u8
    ensures ends { Ends result complaints.old.count complaints.new.count }
    ensures named { FinishesBy path.now (is_ok made.now.end) (D.trace world.old)
        (D.trace world.new) }
    ensures done { result ≡ 0 → Named path.now (D.trace world.old) (D.trace world.new) }
    ensures status { (result ≡ 3) ⊎ (result ≡ end_status made.now.end) }
    ensures printed { result ≡ 0 → is_ok made.now.printed ≡ true }
{
    if let (Err(RequestFault::Stopped(Fault::Put)), Err(error)) = (&made.end, &made.printed) {
        let _ = path.finish(world, false);
        return complaints.tell_unprinted(error);
    }
    let status = tell_written(world, path, &made.end, about, complaints);
    match &made.printed {
        Err(error) if status == DONE => complaints.tell_unprinted(error),
        _ => status,
    }
}

/// The path is that of the source if its text or its tree is refused, else that of the image.
pub(crate) fn about_end<'a>(
    end: &Result<Status, RequestFault<'_>>,
    source: &'a str,
    image: &'a str,
) -> &'a str
    ensures { result ≡ (if is_about_source end.now then source.entry else image.entry) }
{
    match end {
        Err(fault) => about_fault(fault, source, image),
        Ok(_) => image,
    }
}

/// As `about_end`, of a fault.
pub(crate) fn about_fault<'a>(fault: &RequestFault<'_>, source: &'a str, image: &'a str) -> &'a str
    ensures { result ≡ (if is_about_source (Err fault.now) then source.entry else image.entry) }
{
    match fault {
        RequestFault::Stopped(Fault::Fit(FitFault::PositionTooLow)) => image,
        RequestFault::Stopped(Fault::Fit(FitFault::TooLarge)) => image,
        RequestFault::Stopped(Fault::Its(_)) => source,
        RequestFault::Stopped(Fault::Fit(_)) => source,
        _ => image,
    }
}

/// Gives the written file its name or removes it. Reports the end with its path.
pub(crate) fn tell_written<D: World, V: Write>(
    world: &mut D,
    path: &SafePath,
    end: &Result<Status, RequestFault<'_>>,
    about: &str,
    complaints: &mut Complaints<'_, V>,
) -> u8
    ensures ends { Ends result complaints.old.count complaints.new.count }
    ensures named { FinishesBy path.now (is_ok end.now) (D.trace world.old) (D.trace world.new) }
    ensures done { result ≡ 0 → Named path.now (D.trace world.old) (D.trace world.new) }
    ensures status { (result ≡ 3) ⊎ (result ≡ end_status end.now) }
{
    if end.is_err() {
        let _ = path.finish(world, false);
        return tell_end(world, end, about, complaints);
    }
    match path.finish(world, true) {
        Ok(()) => tell_end(world, end, about, complaints),
        Err(reason) => complaints.tell_unwritten(path.whole.as_str(), &reason),
    }
}

/// Returns the status of an end. Reports a fault with its path.
pub(crate) fn tell_end<D: World, V: Write>(
    world: &mut D,
    end: &Result<Status, RequestFault<'_>>,
    path: &str,
    complaints: &mut Complaints<'_, V>,
) -> u8
    ensures status { result ≡ end_status end.now }
    ensures ends { Ends result complaints.old.count complaints.new.count }
    ensures kept { changes (D.trace world.new) ≡ changes (D.trace world.old) }
{
    match end {
        Ok(Status::Done) => DONE,
        Ok(Status::NotRight) => REFUSED,
        Err(fault) => tell_fault(world, fault, path, complaints),
    }
}

/// Reports a fault with its path, and returns its status.
pub(crate) fn tell_fault<D: World, V: Write>(
    world: &mut D,
    fault: &RequestFault<'_>,
    path: &str,
    complaints: &mut Complaints<'_, V>,
) -> u8
    ensures status { result ≡ request_status fault.now }
    ensures ends { Ends result complaints.old.count complaints.new.count }
    ensures kept { changes (D.trace world.new) ≡ changes (D.trace world.old) }
{
    match fault {
        RequestFault::Stopped(fault) => {
            let path = Printed(path.as_bytes());
            let status = status_of_fault(*fault);
            complaints.tell(&format_args!("{path}: {fault}"), status)
        }
        RequestFault::CannotRead(path) => complaints.tell_unread(world, path),
        RequestFault::CannotWrite(path, reason) | RequestFault::NotPut(path, reason) => {
            complaints.tell_unwritten(path, reason)
        }
        RequestFault::NotPrinted(error) => complaints.tell_unprinted(error),
        RequestFault::WritesWhatIsRead(path) => {
            let fault = RequestFault::DrawsOverWhatIsRead(Printed(path.as_bytes()));
            complaints.tell(&fault, status_of(&fault))
        }
        fault => complaints.tell(fault, status_of(fault)),
    }
}
