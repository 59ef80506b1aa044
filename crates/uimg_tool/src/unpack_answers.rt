//! Turns the end of an unpacking into the result that a check would have.

ghost use Rattle.std.specs.Prelude.{◌≡◌};
ghost use Rattle.uimg_tool.specs.UnpackEnds.{AnswersEnding};
ghost use Rattle.uimg_world.specs.Deeds.{changes};

use crate::complaint::status_of_trouble;
use crate::request_fault::REFUSED;
use crate::unread::answer_of_unread;
use uimg_base::Status;
use uimg_checks::{Answer, Checked, Names, answer_of_fault, answer_of_line};
use uimg_engine::Fault;
use uimg_fit_checking::Finding;
use uimg_unpacking::{Ended, Trouble};
use uimg_world::World;

/// How the unpacking of an image ended.
#[derive(Drop)]
pub(crate) enum Ending<'a> {
    /// Lines have reported all. It is done if all is kept.
    Told(Status),

    /// The keys do not sign the image, or it lacks what is chosen, by this answer of a check.
    Unsigned(Answer<'a>),

    /// The image could not be opened.
    Unread,

    /// A legacy image has no stronger checksum than CRC-32, but one is needed.
    Weak,

    /// There is no image, but a strength is needed.
    NoImage,

    /// The image is refused, or a read of it failed.
    Stopped(Fault),

    /// A file or a line could not be written.
    Troubled(Trouble),
}

impl<'a> From<Ended> for Ending<'a> {
    ghost use Rattle.std.specs.Prelude.{◌≡◌};
    ghost use Rattle.uimg_tool.specs.UnpackEnds.{end_of};

    ghost from_gives = { λ ended ending. ending ≡ end_of ended };

    fn from(ended: Ended) -> Ending<'a> {
        match ended {
            Ended::Kept => Ending::Told(Status::Done),
            Ended::Refused => Ending::Told(Status::NotRight),
            Ended::NoImage => Ending::NoImage,
            Ended::Weak => Ending::Weak,
            Ended::Stopped(fault) => Ending::Stopped(Fault::from(fault)),
            Ended::StoppedLegacy(fault) => Ending::Stopped(Fault::from(fault)),
            Ended::Troubled(trouble) => Ending::Troubled(trouble),
        }
    }
}

/// The end is one that no line reports.
pub(crate) fn answer_of_ending<'a, D: World>(
    world: &mut D,
    path: &str,
    ending: Ending<'_>,
    names: &'a mut Names,
) -> Answer<'a>
    ensures answers { AnswersEnding ending.entry result }
    ensures kept { changes (D.trace world.new) ≡ changes (D.trace world.old) }
{
    match ending {
        Ending::Told(_) => answer_of_unread(world, path, names),
        Ending::Unsigned(_) => answer_of_unread(world, path, names),
        Ending::Unread => answer_of_unread(world, path, names),
        Ending::Weak => Answer::Found(Checked::Weak, None),
        Ending::NoImage => Answer::Found(Checked::Fit(Finding::NoImage), None),
        Ending::Stopped(fault) => answer_of_fault(fault, names),
        Ending::Troubled(trouble) => {
            let is_refused = status_of_trouble(&trouble) == REFUSED;
            answer_of_line(&trouble, is_refused, names)
        }
    }
}
