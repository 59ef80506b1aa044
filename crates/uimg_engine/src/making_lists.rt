//! The listing of an image that was made.
ghost use Rattle.uimg_engine.specs.Commands.{ListsMade};

use crate::engine::{run_by, run_legacy};
use crate::fault::Fault;
use std::alloc::Allocator;
use std::io::Write;
use uimg_base::{Out, Room, Source, Status};
use uimg_requests::{Action, Command, Form, MakeCommand};
use uimg_texts::Naming;

/// Writes the listing of what was kept, with the names of a set: of a legacy image, or of the
/// format of its first bytes.
pub(crate) fn list_kept<S: Source, A: Allocator, W: Write>(
    naming: Naming,
    command: &MakeCommand,
    kept: &mut S,
    room: &mut Room<A>,
    out: &mut Out<W>,
) -> Result<Status, Fault>
    ensures { ListsMade naming command.now result S.device kept room out }
{
    match command {
        MakeCommand::Parts { .. } => run_legacy(naming, Action::List, kept, room, out),
        MakeCommand::Tree { .. } => {
            let command = Command {
                action: Action::List,
                form: Form::Guess,
            };
            run_by(naming, &command, kept, room, out)
        },
    }
}
