//! The program over any world of files, and its unpacking.

ghost use Rattle.std.specs.Prelude.{◌≡◌, ◌+◌, ◌≤◌, None, IsTrue, true};
ghost use Rattle.uimg_base.specs.{Honest.IfHonest, Device.SameDevice};
ghost use Rattle.uimg_fit_checking.specs.Unpacking.{unpack_work};
ghost use Rattle.uimg_unpacking.specs.{Ends.{EndsByFile, FitsIf}, Filling.Fills, Places.{ChangesWithin, Obeys, terms_of}};
ghost use Rattle.uimg_tool.specs.{OldCommands.AnswersTool, WordAnswers.{AnswersLine, printed}};

use std::io::Write;
use uimg_base::Source;
use uimg_tool::{CommandLine, Complaints, Tool};
use uimg_unpacking::{Ended, Unpacking};
use uimg_world::{MakingWorld, World};

/// Carries out a command line of `uimg` over a world of files. Returns the exit status, and `out`
/// unless memory for its buffer was refused.
///
/// - `answers`: over an honest world, unless the status is 3, output, new files, status and the line on
///   standard error are those that the definition of command lines gives for the bytes at the paths,
///   as far as `AnswersLine` says. Whatever the status, files change only as the request allows. If
///   the definition refuses the arguments, nothing is done or printed, and that is told.
/// - `lost`: if `out` is not returned, the status is 3.
pub fn run_as_uimg<'a, D: MakingWorld<'a>, W: Write + Drop, V: Write>(
    world: &mut D,
    line: CommandLine<'a>,
    out: W,
    complaints: &mut Complaints<'_, V>,
) -> (u8, Option<W>)
    ensures answers { AnswersLine D.Shelf.Kept.device (D.identities world.old) V.contents line.entry
        (D.map world.old) result.0 (record {
          text = W.contents out;
          err = complaints.old;
          trace = D.trace world.old;
        }) (record {
          text = printed W.contents result.1;
          err = complaints.new;
          trace = D.trace world.new;
        }) }
    ensures lost { result.1 ≡ None → result.0 ≡ 3 }
{
    uimg_tool::run_as_uimg(world, line, out, complaints)
}

/// Carries out the arguments of a tool of U-Boot 2023.01 over a world of files. Returns the exit
/// status, and `out` unless memory for its buffer was refused.
///
/// - `answers`: over an honest world, unless the status is 3, output, new files and status are those
///   that the definition of the tool's arguments gives for the bytes at the paths, as far as
///   `AnswersTool` says. Whatever the status, an image is made for its path alone. If the definition
///   refuses the arguments, nothing is done or printed.
/// - `lost`: if `out` is not returned, the status is 3.
pub fn run_as_tool<'a, D: MakingWorld<'a>, W: Write + Drop, V: Write>(
    world: &mut D,
    tool: Tool,
    line: CommandLine<'a>,
    out: W,
    complaints: &mut Complaints<'_, V>,
) -> (u8, Option<W>)
    ensures answers { AnswersTool (record {
      there = D.Shelf.Kept.device;
      new = D.NewShelf.Kept.device;
      identities = D.identities world.old;
    }) tool line.entry (D.map world.old) result.0 (W.contents out) (printed W.contents result.1)
        (D.trace world.old) (D.trace world.new) }
    ensures lost { result.1 ≡ None → result.0 ≡ 3 }
{
    uimg_tool::run_as_tool(world, tool, line, out, complaints)
}

/// Writes the payloads of a FIT image to a folder, with a line for each on `out`.
///
/// Over any source:
///
/// - `within`: only what is at `.uimg-newN` in the folder, and at file names in it, changes.
/// - `obeys`: files are synced, and existing files replaced, as requested.
///
/// Over an honest source:
///
/// - `ended`: the end is that of the definition for the image's bytes, unless something failed.
/// - `fits`: where all is kept, the payloads are within the limits.
/// - `filled`: where payloads are kept, the file of each has the name that the definition gives, and
///   holds exactly its bytes, if contracts know what a closed file holds. No two have the same name.
/// - `asked`: at most the metadata and the length of the image were requested.
pub fn unpack<W: World, S: Source, O: Write + Drop>(
    world: &mut W,
    asked: &Unpacking<'_>,
    source: &mut S,
    out: O,
) -> Ended
    ensures within { ChangesWithin asked.now.folder.path.now true
        (W.trace world.old) (W.trace world.new) }
    ensures obeys { Obeys (terms_of asked.now.folder) true (W.trace world.old) (W.trace world.new) }
    ensures ended { IfHonest S.device source (λ file. EndsByFile asked.now file result) }
    ensures fits { IfHonest S.device source (λ file. FitsIf asked.now file result) }
    ensures filled { IfHonest S.device source (λ file. IsTrue W.knows →
        Fills asked.now file result (W.trace world.new)) }
    ensures asked { IfHonest S.device source (λ file. (S.device source.new).asked
        ≤ (S.device source.old).asked + unpack_work file) }
    ensures same { SameDevice (S.device source.old) (S.device source.new) }
{
    uimg_unpacking::unpack(world, asked, source, out)
}
