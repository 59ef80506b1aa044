//! The arguments of `verify`.

ghost use Rattle.std.specs.Prelude.{◌≡◌, IfOk, false};
ghost use Rattle.clap.specs.Simple.{app_of};
ghost use Rattle.clap.specs.declared.builder.command.Command.TheViews.{out-Command as fields_of};
ghost use Rattle.uimg_cli.specs.Readings.{given};
ghost use Rattle.uimg_cli.specs.Runs.{run_of};
ghost use Rattle.uimg_cli.specs.Verify.{verify, verify_asked};

use super::arguments::{titled, with_image};
use super::help_notes::VERIFY_NOTES;
use super::readings::text_or;
use clap::ArgMatches;
use std::alloc::{AllocError, Global};
use uimg_requests::{Action, Command, Form, RunRequest};
use uimg_texts::Naming;

// What it is about.
const ABOUT: &str = "Verify the checksums and hashes of an image, and print a line for each";

#[tactic(auto, unfolding(crate::specs::Verify::verify))]
pub(super) fn command<'a>(alloc: Global) -> Result<clap::Command<'a>, AllocError>
    ensures app { IfOk result (λ command. app_of command ≡ verify) }
    ensures local { IfOk result (λ command. (fields_of command).has_globals ≡ false) }
{
    let command = titled(alloc, "verify", ABOUT, VERIFY_NOTES);
    with_image(command, alloc, "The image")
}

pub(super) fn request<'a>(matches: &ArgMatches<'a>) -> RunRequest<'a>
    ensures { run_of result ≡ verify_asked (given matches.now) }
{
    RunRequest {
        command: Command {
            action: Action::Verify,
            form: Form::Guess,
        },
        naming: Naming::Profile,
        image: text_or(matches, "image", ""),
        outfile: None,
    }
}
