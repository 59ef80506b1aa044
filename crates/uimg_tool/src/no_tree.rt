//! Why a source gives no tree, and how mkimage tells that.

ghost use Rattle.std.specs.Prelude.{◌≡◌, ◌≤◌, ◌+◌, ◌-◌, ◌^◌, min};
ghost use Rattle.uimg_tool.specs.{Complaints.Ends, SourceStatuses.refused_status};
ghost use Rattle.uimg_world.specs.Deeds.{changes};

use crate::complaints::Complaints;
use crate::old_files::{about_fault, tell_fault};
use crate::request_fault::{FAILED, REFUSED, RequestFault, WRONG_LINE};
use std::fmt::Display;
use std::io::Write;
use uimg_compat::OldFault;
use uimg_dts::{DtsFault, DtsKind, Refusal};
use uimg_printing::Printed;
use uimg_world::World;

/// Why a source gives no tree.
#[derive(Drop)]
pub(crate) enum NoTree<'a> {
    /// The command line requests what is not done.
    NotDone(OldFault<'a>),

    /// As other requests.
    Stopped(RequestFault<'a>),

    /// Standard input has more than 64 MiB.
    TooLong,

    /// A file that it includes is in several folders of -D -i.
    InSeveral,

    /// It includes, at this line, a file of this name, which cannot be opened.
    NotOpened(u64, Vec<u8>),

    /// It is refused in the whole language of dtc.
    Refused(DtsFault),
}

/// Tells why there is no tree of the source at a path. Returns the status.
pub(crate) fn tell_no_tree<D: World, V: Write>(
    world: &mut D,
    source: &str,
    image: &str,
    reason: &NoTree<'_>,
    complaints: &mut Complaints<'_, V>,
) -> u8
    ensures failed { 1 ≤ result }
    ensures ends { Ends result complaints.old.count complaints.new.count }
    ensures kept { changes (D.trace world.new) ≡ changes (D.trace world.old) }
{
    match reason {
        NoTree::NotDone(fault) => complaints.tell(fault, WRONG_LINE),
        NoTree::Stopped(fault) => {
            let about = about_fault(fault, source, image);
            tell_fault(world, fault, about, complaints)
        }
        NoTree::TooLong => {
            let reason = "a source of more than 64 MiB";
            tell_of(source, &reason, REFUSED, complaints)
        }
        NoTree::InSeveral => {
            let reason = "a file that it includes is in several folders of -D -i";
            tell_of(source, &reason, REFUSED, complaints)
        }
        NoTree::NotOpened(line, name) => tell_not_opened(source, *line, name, complaints),
        NoTree::Refused(fault) => { tell_of(source, fault, refused_status(fault.kind), complaints) }
    }
}

fn tell_not_opened<V: Write>(
    source: &str,
    line: u64,
    name: &[u8],
    complaints: &mut Complaints<'_, V>,
) -> u8
    ensures failed { 1 ≤ result }
    ensures ends { Ends result complaints.old.count complaints.new.count }
{
    let name = Printed(name);
    let reason = format_args!("cannot read {name}, which line {line} names");
    tell_of(source, &reason, FAILED, complaints)
}

// The reason lies in the source at this path.
fn tell_of<T: Display, V: Write>(
    source: &str,
    reason: &T,
    status: u8,
    complaints: &mut Complaints<'_, V>,
) -> u8
    ensures status { result ≡ status }
    ensures counted { complaints.new.count ≡ min (complaints.old.count + 1) (2 ^ 64 - 1) }
{
    let path = Printed(source.as_bytes());
    complaints.tell(&format_args!("{path}: {reason}"), status)
}

/// Returns the status where dtc's language refuses a source: that of a refusal, unless the reason is
/// memory or a file.
pub(crate) fn refused_status(kind: DtsKind) -> u8
    ensures { result ≡ refused_status kind }
{
    match kind {
        DtsKind::NoFile | DtsKind::ReadFailed | DtsKind::Source(Refusal::OutOfMemory) => FAILED,
        DtsKind::Source(_) => REFUSED,
    }
}
