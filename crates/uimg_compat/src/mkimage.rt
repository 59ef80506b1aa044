//! The arguments of mkimage.

mod requests;

ghost use Rattle.std.specs.Prelude.{◌≡◌, map, option_map, Ok};
ghost use Rattle.uimg_compat.specs.Asked.{asked_of};
ghost use Rattle.uimg_compat.specs.Getopt.{told_of};
ghost use Rattle.uimg_compat.specs.Mkimage.{address_asked, flag_step, name_step, number_step};
ghost use Rattle.uimg_compat.specs.Mkimage.{setting_of, step, value_step, with_word};
ghost use Rattle.uimg_compat.specs.Requests.{mkimage_asked};
ghost use Rattle.uimg_compat.specs.Steps.{Steps, done};
ghost use Rattle.uimg_compat.specs.Wrong.{Tells};

use crate::c_numbers::{low_half, unsigned_long};
use crate::fault::OldFault;
use crate::getopt::{Given, Words};
use crate::helps::MKIMAGE_HELP;
use crate::mkimage_options::take_option;
use crate::names::{Named, name_of};
use crate::request::{OldRequest, Show};
use std::alloc::Global;
use uimg_printing::Printed;
use uimg_texts::Field;

/// The options of a command line so far. Of a repeated one the last counts.
#[derive(Clone, Copy)]
struct Settings<'a> {
    arch: u8,
    os: u8,
    kind: Option<u8>,
    kind_name: &'a str,
    comp: u8,
    load: u32,
    entry: Option<u32>,
    name: &'a str,
    data: Option<&'a str>,
    source: Option<&'a str>,
    ramdisk: Option<&'a str>,
    image: Option<&'a str>,
    position: u32,
    alignment: u32,
    alignment_word: &'a str,
    dtc_words: &'a str,
    key_name: Option<&'a str>,
    algorithm: Option<&'a str>,
    signing: Option<char>,
    is_external: bool,
    is_list: bool,
    is_quiet: bool,
    is_xip: bool,
    is_update: bool,
    sets_time: bool,
    has_no_data: bool,
}

/// Reads the arguments after mkimage's name. `epoch` is SOURCE_DATE_EPOCH if it is set, and `now`
/// the current time in seconds since 1970.
pub fn read_mkimage<'a>(
    alloc: Global,
    words: &'a [&'a str],
    epoch: Option<&str>,
    now: u32,
) -> Result<OldRequest<'a>, OldFault<'a>>
    ensures { Tells asked_of (mkimage_asked (map (λ word. word.now) words.now)
        (option_map (λ text. text.now) epoch.entry) now) result }
{
    let mut settings = Settings {
        arch: 7,
        os: 5,
        kind: None,
        kind_name: "",
        comp: 1,
        load: 0,
        entry: None,
        name: "",
        data: None,
        source: None,
        ramdisk: None,
        image: None,
        position: 0,
        alignment: 0,
        alignment_word: "",
        dtc_words: "",
        key_name: None,
        algorithm: None,
        signing: None,
        is_external: false,
        is_list: false,
        is_quiet: false,
        is_xip: false,
        is_update: false,
        sets_time: false,
        has_no_data: false,
    };
    let mut unread = Words::new(words);
    while let Some(given) = take_option(&mut unread)? {
        if let Some(show) = settings.take(alloc, given)? {
            return Ok(OldRequest::Show(show));
        }
    }
    settings.request(alloc, words, epoch, now)
}

impl<'a> Settings<'a> {
    // Returns the requested text, if there is one.
    fn take(&mut self, alloc: Global, given: Given<'a>) -> Result<Option<Show>, OldFault<'a>>
        ensures { Steps (step (told_of given.entry) (setting_of self.old)) (setting_of self.new)
            result }
    {
        match given {
            Given::Operand(word) => {
                self.image = Some(self.image.unwrap_or(word));
                Ok(None)
            }
            Given::Flag(option) => Ok(self.take_flag(option)),
            Given::Value(option, value) => self.take_value(alloc, option, value),
        }
    }

    fn take_flag(&mut self, option: char) -> Option<Show>
        ensures { Steps (flag_step option (setting_of self.old)) (setting_of self.new) (Ok result) }
    {
        match option {
            'h' => return Some(Show::Help(MKIMAGE_HELP)),
            'V' => return Some(Show::Version),
            'E' => self.is_external = true,
            'l' => self.is_list = true,
            'q' => self.is_quiet = true,
            's' => self.has_no_data = true,
            'F' => self.is_update = true,
            't' => self.sets_time = true,
            'x' => self.is_xip = true,
            _ => {}
        }
        None
    }

    fn take_value(
        &mut self,
        alloc: Global,
        option: char,
        value: &'a str,
    ) -> Result<Option<Show>, OldFault<'a>>
        ensures { Steps (value_step option value.entry.now (setting_of self.old))
            (setting_of self.new) result }
    {
        match option {
            'A' => return self.take_name(alloc, Field::Architecture, value),
            'O' => return self.take_name(alloc, Field::System, value),
            'T' => return self.take_name(alloc, Field::Kind, value),
            'C' => return self.take_name(alloc, Field::Compression, value),
            'a' => self.take_number('a', value)?,
            'e' => self.take_number('e', value)?,
            'p' => self.take_number('p', value)?,
            'B' => self.take_number('B', value)?,
            _ => self.take_word(option, value),
        }
        Ok(None)
    }

    fn take_number(&mut self, option: char, value: &'a str) -> Result<(), OldFault<'a>>
        ensures { Steps (number_step option value.entry.now (setting_of self.old))
            (setting_of self.new) (done result) }
    {
        match option {
            'a' => self.load = address('a', value)?,
            'e' => self.entry = Some(address('e', value)?),
            'p' => self.position = address('p', value)?,
            'B' => {
                self.alignment = address('B', value)?;
                self.alignment_word = value;
            }
            _ => {}
        }
        Ok(())
    }

    fn take_word(&mut self, option: char, value: &'a str)
        ensures { setting_of self.new ≡ with_word option value.entry.now (setting_of self.old) }
    {
        match option {
            'n' => self.name = value,
            'd' => self.data = Some(value),
            'f' => self.source = Some(value),
            'i' => self.ramdisk = Some(value),
            'D' => self.dtc_words = value,
            'g' => self.key_name = Some(value),
            'o' => self.algorithm = Some(value),
            'G' => self.signing = Some('G'),
            'k' => self.signing = Some('k'),
            'K' => self.signing = Some('K'),
            'N' => self.signing = Some('N'),
            _ => {}
        }
    }

    fn take_name(
        &mut self,
        alloc: Global,
        field: Field,
        word: &'a str,
    ) -> Result<Option<Show>, OldFault<'a>>
        ensures { Steps (name_step field word.entry.now (setting_of self.old))
            (setting_of self.new) result }
    {
        let code = match name_of(alloc, field, word)? {
            Named::List => return Ok(Some(Show::Names(field))),
            Named::Code(code) => code,
        };
        match field {
            Field::Architecture => self.arch = code,
            Field::System => self.os = code,
            Field::Kind => {
                self.kind = Some(code);
                self.kind_name = word;
            }
            Field::Compression => self.comp = code,
        }
        Ok(None)
    }
}

// Reads the low 32 bits of a hexadecimal number.
fn address(letter: char, word: &str) -> Result<u32, OldFault<'_>>
    ensures { Tells (λ number. number) (address_asked letter word.now) result }
{
    match unsigned_long(word, 16) {
        Some(number) => Ok(low_half(number)),
        None => Err(OldFault::NoNumber {
            letter,
            title: "hexadecimal",
            word: Printed(word.as_bytes()),
        }),
    }
}
