//! The arguments of dumpimage.

ghost use Rattle.std.specs.Prelude.{◌≡◌, map, option_map, Ok};
ghost use Rattle.uimg_compat.specs.Asked.{asked_of};
ghost use Rattle.uimg_compat.specs.Dumpimage.{action_asked, dumpimage_asked, dumping_of, flag_step};
ghost use Rattle.uimg_compat.specs.Dumpimage.{position_asked, request_asked, step, value_step};
ghost use Rattle.uimg_compat.specs.Getopt.{told_of};
ghost use Rattle.uimg_compat.specs.Steps.{Steps};
ghost use Rattle.uimg_compat.specs.Wrong.{Tells};

use crate::c_numbers::{low_half, unsigned_long};
use crate::fault::OldFault;
use crate::getopt::{Given, OptionRow, Words};
use crate::helps::DUMPIMAGE_HELP;
use crate::names::{Named, format_of, name_of};
use crate::request::{OldRequest, Show};
use std::alloc::Global;
use uimg_printing::Printed;
use uimg_requests::{Action, Command, RunRequest};
use uimg_texts::{Field, Naming};

/// The options by their letters; they have no long names.
const DUMPIMAGE_OPTIONS: [OptionRow; 6] = [
    ('h', "", false),
    ('l', "", false),
    ('o', "", true),
    ('p', "", true),
    ('T', "", true),
    ('V', "", false),
];

/// The options of a command line so far. Of a repeated one the last counts.
#[derive(Clone, Copy)]
struct Settings<'a> {
    kind: Option<u8>,
    kind_name: &'a str,
    position: u32,
    outfile: Option<&'a str>,
    image: Option<&'a str>,
    is_list: bool,
}

/// Reads the arguments after dumpimage's name.
pub fn read_dumpimage<'a>(
    alloc: Global,
    words: &'a [&'a str],
) -> Result<OldRequest<'a>, OldFault<'a>>
    ensures { Tells asked_of (dumpimage_asked (map (λ word. word.now) words.now)) result }
{
    let mut settings = Settings {
        kind: None,
        kind_name: "",
        position: 0,
        outfile: None,
        image: None,
        is_list: false,
    };
    let mut unread = Words::new(words);
    while let Some(given) = unread.take(&DUMPIMAGE_OPTIONS)? {
        if let Some(show) = settings.take(alloc, given)? {
            return Ok(OldRequest::Show(show));
        }
    }
    settings.request()
}

impl<'a> Settings<'a> {
    // Returns the requested text, if there is one.
    fn take(&mut self, alloc: Global, given: Given<'a>) -> Result<Option<Show>, OldFault<'a>>
        ensures { Steps (step (told_of given.entry) (dumping_of self.old)) (dumping_of self.new)
            result }
    {
        match given {
            Given::Operand(word) => {
                self.image = Some(self.image.unwrap_or(word));
                Ok(None)
            }
            Given::Flag(option) => Ok(self.take_flag(option)),
            Given::Value(option, word) => self.take_value(alloc, option, word),
        }
    }

    fn take_flag(&mut self, option: char) -> Option<Show>
        ensures { Steps (flag_step option (dumping_of self.old)) (dumping_of self.new) (Ok result) }
    {
        match option {
            'h' => return Some(Show::Help(DUMPIMAGE_HELP)),
            'V' => return Some(Show::Version),
            'l' => self.is_list = true,
            _ => {}
        }
        None
    }

    fn take_value(
        &mut self,
        alloc: Global,
        option: char,
        word: &'a str,
    ) -> Result<Option<Show>, OldFault<'a>>
        ensures { Steps (value_step option word.entry.now (dumping_of self.old))
            (dumping_of self.new) result }
    {
        match option {
            'o' => self.outfile = Some(word),
            'p' => self.position = position(word)?,
            'T' => match name_of(alloc, Field::Kind, word)? {
                Named::List => return Ok(Some(Show::Names(Field::Kind))),
                Named::Code(code) => {
                    self.kind = Some(code);
                    self.kind_name = word;
                }
            },
            _ => {}
        }
        Ok(None)
    }

    fn request(self) -> Result<OldRequest<'a>, OldFault<'a>>
        ensures { Tells asked_of (request_asked (dumping_of self.entry)) result }
    {
        let Some(image) = self.image else {
            return Err(OldFault::NoImage);
        };
        let (action, outfile) = self.action()?;
        let form = format_of(self.kind, self.kind_name)?;
        Ok(OldRequest::Run {
            request: RunRequest {
                command: Command { action, form },
                naming: Naming::All,
                image,
                outfile,
            },
            is_quiet: false,
        })
    }

    // The file is the one that the action writes.
    fn action(&self) -> Result<(Action, Option<&'a str>), OldFault<'a>>
        ensures { Tells (λ by. (by.0, option_map (λ path. path.now) by.1))
            (action_asked (dumping_of self.now)) result }
    {
        if self.is_list {
            return Ok((Action::List, None));
        }
        match self.outfile {
            None => Err(OldFault::NoOutfile),
            Some("-") => Err(OldFault::PartToOutput),
            Some(path) => Ok((Action::Extract(self.position), Some(path))),
        }
    }
}

// Reads the low 32 bits of a decimal number.
fn position(word: &str) -> Result<u32, OldFault<'_>>
    ensures { Tells (λ position. position) (position_asked word.now) result }
{
    match unsigned_long(word, 10) {
        Some(number) => Ok(low_half(number)),
        None => Err(OldFault::NoNumber {
            letter: 'p',
            title: "decimal",
            word: Printed(word.as_bytes()),
        }),
    }
}
