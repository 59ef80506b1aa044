//! The arguments of -D, which are dtc's.

ghost use Rattle.std.specs.Prelude.{◌≡◌, map, filter, find, length, nat_lt, option_map, ◌++◌};
ghost use Rattle.std.specs.{List.{list_any}};
ghost use Rattle.uimg_compat.specs.Dtc.{IsTaken, dtc_asked, dtc_of, dtc_rows, flag_taken, is_odd};
ghost use Rattle.uimg_compat.specs.Dtc.{is_special, number_taken, of_words, silencing, taken};
ghost use Rattle.uimg_compat.specs.Dtc.{dtc_after, if_so, no_options, value_taken, whole, words_in, wrong_by};
ghost use Rattle.uimg_compat.specs.DtcChecks.{is_check};
ghost use Rattle.uimg_compat.specs.Getopt.{reading, Takes, left, mistake_of, told_of, unread};
ghost use Rattle.uimg_compat.specs.Wrong.{dtc_word, or_wrong, Tells, wrong_of};
ghost use Rattle.std.specs.Prelude.{◌<◌, IfOk, IfSome};

use crate::c_numbers::c_int;
use crate::dtc_checks::is_check;
use crate::fault::OldFault;
use crate::getopt::{Given, Misuse, OptionRow, Words};
use std::alloc::{AllocError, Global};
use uimg_printing::Printed;

/// The options of dtc 1.6.1.
const DTC_OPTIONS: [OptionRow; 22] = [
    ('q', "quiet", false),
    ('I', "in-format", true),
    ('o', "out", true),
    ('O', "out-format", true),
    ('V', "out-version", true),
    ('d', "out-dependency", true),
    ('R', "reserve", true),
    ('S', "space", true),
    ('p', "pad", true),
    ('a', "align", true),
    ('b', "boot-cpu", true),
    ('f', "force", false),
    ('i', "include", true),
    ('s', "sort", false),
    ('H', "phandle", true),
    ('W', "warning", true),
    ('E', "error", true),
    ('@', "symbols", false),
    ('A', "auto-alias", false),
    ('T', "annotate", false),
    ('h', "help", false),
    ('v', "version", false),
];

/// What a shell, which mkimage calls, reads as more than itself, beside control characters.
const SPECIAL: &[u8] = b"\"#$&'()*;<>?[\\]`{|}~!";

/// What the arguments of -D change.
#[derive(Drop)]
pub struct DtcWords<'a> {
    /// The folders where a file is looked for that is not in the folder of the source, in order.
    pub folders: Vec<&'a str>,

    /// The warnings that are not printed.
    pub silenced: Silenced,

    /// Whether the image is to have the labels of the source.
    pub has_symbols: bool,

    pad: u32,
    space: u32,
}

/// The warnings that a command line silences by the names of dtc's checks.
#[derive(Clone, Copy)]
pub struct Silenced {
    /// Those of `duplicate_node_names`.
    pub equal_nodes: bool,

    /// Those of `duplicate_property_names`.
    pub equal_properties: bool,
}

/// Reads the arguments of -D, which blanks separate. Refuses those that a shell would change, and
/// those with which dtc would make another image or none.
pub(crate) fn read_dtc_words<'a>(alloc: Global, text: &'a str) -> Result<DtcWords<'a>, OldFault<'a>>
    ensures { Tells dtc_of (dtc_asked text.entry.now) result }
{
    let words = words_of(alloc, text)?;
    read_words(alloc, words.as_slice())
}

fn read_words<'w, 'a>(alloc: Global, words: &'w [&'a str]) -> Result<DtcWords<'a>, OldFault<'a>>
    ensures { Tells dtc_of (of_words (map (λ word. word.now) words.now)) result }
{
    if let Some(word) = odd_word(words) {
        return Err(OldFault::DtcWord(Printed(word.as_bytes())));
    }
    read_options(alloc, words)
}

fn read_options<'w, 'a>(alloc: Global, words: &'w [&'a str]) -> Result<DtcWords<'a>, OldFault<'a>>
    ensures { Tells dtc_of (dtc_after (reading dtc_rows (map (λ word. word.now) words.now))
        no_options) result }
{
    let mut read = DtcWords {
        folders: Vec::new(alloc),
        silenced: Silenced {
            equal_nodes: false,
            equal_properties: false,
        },
        has_symbols: false,
        pad: 0,
        space: 0,
    };
    let mut unread = Words::new(words);
    loop {
        match take_option(&mut unread) {
            Ok(Some(given)) => match read.take(given) {
                Ok(true) => {}
                Ok(false) => return Err(OldFault::DtcWord(Printed(unread.last().as_bytes()))),
                Err(_) => return Err(OldFault::OutOfMemory),
            },
            Ok(None) => return read.whole(),
            Err(misuse) => return Err(fault_of(misuse, unread.last())),
        }
    }
}

// Returns `None` at the end.
#[tactic(auto, unfolding(crate::specs::Dtc::dtc_rows))]
fn take_option<'w, 'a>(words: &mut Words<'w, 'a>) -> Result<Option<Given<'a>>, Misuse<'a>>
    ensures less { IfOk result (λ given. IfSome given (λ _. left words.new < left words.old)) }
    ensures next { Takes result (unread dtc_rows words.old) (unread dtc_rows words.new) }
{
    words.take(&DTC_OPTIONS)
}

// `word` is the argument at which getopt stopped.
fn fault_of<'a>(misuse: Misuse<'a>, word: &'a str) -> OldFault<'a>
    ensures { wrong_of result ≡ wrong_by (mistake_of misuse.entry) }
{
    match misuse {
        Misuse::NoValueOfLetter(_) => OldFault::DtcEnd,
        Misuse::NoValueOfName(_) => OldFault::DtcEnd,
        _ => OldFault::DtcWord(Printed(word.as_bytes())),
    }
}

impl<'a> DtcWords<'a> {
    // Returns whether the image is the same with it.
    fn take(&mut self, given: Given<'a>) -> Result<bool, AllocError>
        ensures { IfOk result (λ is_taken. IsTaken is_taken
            (taken (told_of given.entry) (dtc_of self.old)) (dtc_of self.new)) }
    {
        match given {
            Given::Operand(_) => Ok(false),
            Given::Flag(option) => Ok(self.take_flag(option)),
            Given::Value('i', folder) => {
                self.folders.push(folder)?;
                Ok(true)
            }
            Given::Value(option, value) => Ok(self.take_value(option, value)),
        }
    }

    // Returns whether the image is the same with it.
    fn take_flag(&mut self, option: char) -> bool
        ensures { IsTaken result (flag_taken option (dtc_of self.old)) (dtc_of self.new) }
    {
        match option {
            'q' => true,
            '@' => {
                self.has_symbols = true;
                true
            }
            _ => false,
        }
    }

    // The value is no folder. Returns whether the image is the same with it.
    fn take_value(&mut self, option: char, value: &str) -> bool
        ensures { IsTaken result (value_taken option value.now (dtc_of self.old))
            (dtc_of self.new) }
    {
        match option {
            'I' => value == "dts",
            'O' => value == "dtb",
            'W' => self.take_check(value),
            'E' => self.take_check(value),
            _ => self.take_number(option, c_int(value)),
        }
    }

    fn take_number(&mut self, option: char, number: Option<u32>) -> bool
        ensures { IsTaken result (number_taken option number (dtc_of self.old)) (dtc_of self.new) }
    {
        let Some(number) = number else {
            return false;
        };
        match option {
            'p' => {
                self.pad = number;
                true
            }
            'S' => {
                self.space = number;
                true
            }
            'a' => number.is_power_of_two(),
            'b' => number == 0,
            'R' => true,
            _ => false,
        }
    }

    // Returns whether dtc has the check.
    fn take_check(&mut self, name: &str) -> bool
        ensures { IsTaken result (if_so (is_check name.now) (silencing name.now (dtc_of self.old)))
            (dtc_of self.new) }
    {
        if !is_check(name) {
            return false;
        }
        let silenced = self.silenced;
        self.silenced = Silenced {
            equal_nodes: silenced.equal_nodes || name == "no-duplicate_node_names",
            equal_properties: silenced.equal_properties || name == "no-duplicate_property_names",
        };
        true
    }

    fn whole(self) -> Result<DtcWords<'a>, OldFault<'a>>
        ensures { Tells dtc_of (whole (dtc_of self.entry)) result }
    {
        if self.pad == 0 || self.space == 0 {
            Ok(self)
        } else {
            Err(OldFault::DtcPadAndSpace)
        }
    }
}

fn words_of<'a>(alloc: Global, text: &'a str) -> Result<Vec<&'a str>, AllocError>
    ensures { IfOk result (λ words. map (λ word. word.now) words.items ≡ words_in text.entry.now) }
{
    let mut words = Vec::new(alloc);
    for word in text.split(' ') {
        if !word.is_empty() {
            words.push(word)?;
        }
    }
    Ok(words)
}

// Returns the first argument that is not to be read.
fn odd_word<'a>(words: &[&'a str]) -> Option<&'a str>
    ensures { option_map (λ word. word.now) result ≡ find is_odd (map (λ word. word.now) words.now) }
{
    for word in words {
        if is_odd(word) {
            return Some(*word);
        }
    }
    None
}

fn is_odd(word: &str) -> bool
    ensures { result ≡ is_odd word.now }
{
    word == "--" || has_special(word.as_bytes())
}

fn has_special(word: &[u8]) -> bool
    ensures { result ≡ list_any is_special word.now }
{
    for byte in word {
        if is_special(*byte) {
            return true;
        }
    }
    false
}

fn is_special(byte: u8) -> bool
    ensures { result ≡ is_special byte }
{
    byte < 32 || byte == 127 || SPECIAL.contains(&byte)
}
