//! Why a file could not be opened.

ghost use Rattle.std.specs.Prelude.{◌≡◌, ◌∷◌, false};
ghost use Rattle.uimg_base.specs.Named.{SameFiles};
ghost use Rattle.uimg_checks.specs.CheckEnds.{AnswersLine};
ghost use Rattle.uimg_world.specs.Deeds.{Deed};

use std::io;
use thiserror::Error;
use uimg_checks::{Answer, Names, answer_of_line};
use uimg_world::World;

pub(crate) fn answer_of_unread<'a, D: World>(
    world: &mut D,
    path: &str,
    names: &'a mut Names,
) -> Answer<'a>
    ensures answers { AnswersLine false result }
    ensures same { SameFiles (D.map world.old) (D.map world.new) }
    ensures asked { D.trace world.new ≡ Deed.Explains path.now ∷ D.trace world.old }
{
    match world.reason_unread(path) {
        Some(reason) => answer_of_line(&Unread(reason), false, names),
        None => answer_of_line(&"cannot read: it can be opened now", false, names),
    }
}

/// Why a file or a folder could not be opened.
#[derive(Debug, Drop, Error)]
#[error("cannot read: {0}")]
pub(crate) struct Unread(pub(crate) io::Error);
