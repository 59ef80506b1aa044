//! Reads a command line as getopt_long of the GNU C library does.
//!
//! Options may come before and after operands. Letters may be joined. A value is joined to its
//! letter or is the next argument; the value of a long option comes after a `=` or is the next
//! argument. All arguments after `--` are operands. A long name may be cut to a beginning that no
//! other has.

ghost use Rattle.std.specs.Prelude.{List, ◌≡◌, ◌+◌, ◌<◌, ◌≤◌, [], ◌∷◌, length, map, find, IfOk};
ghost use Rattle.std.specs.Prelude.{IfSome, MatchOption, option_map, ◌==◌, ◌&&◌, nat_lt, filter};
ghost use Rattle.std.specs.Prelude.{false, true, None};
ghost use Rattle.std.specs.Result.{result_map_both};
ghost use Rattle.std.specs.List.{starts_with};
ghost use Rattle.uimg_compat.specs.Getopt.{Row, only, Takes, behind, behind_word, first_letter};
ghost use Rattle.uimg_compat.specs.Getopt.{left, lettered, long, name_in, joined_in, met};
ghost use Rattle.uimg_compat.specs.Getopt.{mistake_of, named, optioned, is_begun, called};
ghost use Rattle.uimg_compat.specs.Getopt.{continues, reading, row_of, unread, with_letter};
ghost use Rattle.uimg_compat.specs.Getopt.{last_word, words_left};

use thiserror::Error;
use uimg_printing::Printed;

/// An option: its letter, its long name (empty without one), and whether it has a value.
pub type OptionRow = (char, &'static str, bool);

/// What comes next on a command line.
#[derive(Clone, Copy)]
pub enum Given<'a> {
    /// The option of this letter, without a value.
    Flag(char),

    /// The option of this letter, with its value.
    Value(char, &'a str),

    /// An argument that is not an option.
    Operand(&'a str),
}

/// Why a command line cannot be read further.
#[derive(Clone, Copy, Debug, Error)]
pub enum Misuse<'a> {
    /// No option has this letter.
    #[error("unknown option '-{0}'")]
    UnknownLetter(Printed<'a>),

    /// No option has this long name.
    #[error("unknown option '--{0}'")]
    UnknownName(Printed<'a>),

    /// Several options have long names that begin so.
    #[error("option '--{0}' is ambiguous")]
    AmbiguousName(Printed<'a>),

    /// The option of this letter needs a value, and no argument is left.
    #[error("option '-{0}' needs a value")]
    NoValueOfLetter(Printed<'a>),

    /// The option of this long name needs a value, and no argument is left.
    #[error("option '--{0}' needs a value")]
    NoValueOfName(Printed<'a>),

    /// The option of this long name has no value, but one is joined to it.
    #[error("option '--{0}' takes no value")]
    ValueNotWanted(Printed<'a>),
}

/// The unread arguments of a command line.
#[derive(Clone, Copy)]
pub struct Words<'w, 'a> {
    words: &'w [&'a str],
    next: usize,
    letters: &'a str,
    has_operands_alone: bool,
}

impl<'w, 'a> Words<'w, 'a> {
    /// Returns the arguments after the program's name, all unread.
    #[tactic(auto, unfolding(crate::specs::Getopt::lettered))]
    pub fn new(words: &'w [&'a str]) -> Words<'w, 'a>
        ensures { (rows : List Row) → unread rows result ≡ reading rows
            (map (λ word. word.now) words.now) }
    {
        Words {
            words,
            next: 0,
            letters: "",
            has_operands_alone: false,
        }
    }

    /// Takes the next option of these rows, or operand. Returns `None` at the end.
    pub fn take(&mut self, rows: &[OptionRow]) -> Result<Option<Given<'a>>, Misuse<'a>>
        ensures less { IfOk result (λ given. IfSome given (λ _. left self.new < left self.old)) }
        ensures next { Takes result (unread (map row_of rows.now) self.old)
            (unread (map row_of rows.now) self.new) }
    {
        if !self.letters.is_empty() {
            return self.take_letter(rows);
        }
        let Some(word) = self.take_word() else {
            return Ok(None);
        };
        if self.has_operands_alone {
            return Ok(Some(Given::Operand(word)));
        }
        match behind(word, '-') {
            None => Ok(Some(Given::Operand(word))),
            Some("") => Ok(Some(Given::Operand(word))),
            Some("-") => {
                self.has_operands_alone = true;
                match self.take_word() {
                    Some(operand) => Ok(Some(Given::Operand(operand))),
                    None => Ok(None),
                }
            }
            Some(text) => self.take_option(rows, text),
        }
    }

    pub(crate) fn last(&self) -> &'a str
        ensures { result.now ≡ last_word self.now }
    {
        let Some(last) = self.next.checked_sub(1) else {
            return "";
        };
        match self.words.get(last) {
            Some(word) => *word,
            None => "",
        }
    }

    // Takes the option of what follows a hyphen.
    fn take_option(
        &mut self,
        rows: &[OptionRow],
        text: &'a str,
    ) -> Result<Option<Given<'a>>, Misuse<'a>>
        requires some { 0 < length text.now }
        requires between { self.now.letters.now ≡ [] }
        requires options { self.now.has_operands_alone ≡ false }
        ensures less { IfOk result
            (λ given. IfSome given (λ _. left self.new < left self.old + length text.now)) }
        ensures next { Takes result (optioned (map row_of rows.now) text.now
            (behind_word (map row_of rows.now) self.old)) (unread (map row_of rows.now) self.new) }
    {
        match behind(text, '-') {
            Some(name) => self.take_long(rows, name),
            None => {
                self.letters = text;
                self.take_letter(rows)
            }
        }
    }

    fn take_word(&mut self) -> Option<&'a str>
        ensures letters { self.new.letters ≡ self.old.letters }
        ensures alone { self.new.has_operands_alone ≡ self.old.has_operands_alone }
        ensures word { MatchOption result (words_left self.old ≡ [])
            (λ word. words_left self.old ≡ word.now ∷ words_left self.new) }
        ensures less { IfSome result (λ word. left self.new + length word.now < left self.old) }
    {
        let word = *self.words.get(self.next)?;
        self.next += 1;
        Some(word)
    }

    fn take_letter(&mut self, rows: &[OptionRow]) -> Result<Option<Given<'a>>, Misuse<'a>>
        requires some { 0 < length self.now.letters.now }
        ensures less { IfOk result (λ given. IfSome given (λ _. left self.new < left self.old)) }
        ensures next { Takes result (unread (map row_of rows.now) self.old)
            (unread (map row_of rows.now) self.new) }
    {
        let letters = self.letters;
        let Some(((option, _, has_value), rest)) = option_by_letter(rows, letters) else {
            return Err(Misuse::UnknownLetter(Printed(first_letter(letters))));
        };
        if !has_value {
            self.letters = rest;
            return Ok(Some(Given::Flag(option)));
        }
        self.letters = "";
        if !rest.is_empty() {
            return Ok(Some(Given::Value(option, rest)));
        }
        match self.take_word() {
            Some(value) => Ok(Some(Given::Value(option, value))),
            None => Err(Misuse::NoValueOfLetter(Printed(letters.as_bytes()))),
        }
    }
}

impl<'w, 'a> Words<'w, 'a> {
    // Takes the option whose text follows two dashes.
    fn take_long(
        &mut self,
        rows: &[OptionRow],
        text: &'a str,
    ) -> Result<Option<Given<'a>>, Misuse<'a>>
        ensures letters { self.new.letters ≡ self.old.letters }
        ensures more { IfOk result (λ given. IfSome given (λ _. left self.new ≤ left self.old)) }
        ensures next { Takes result (long (map row_of rows.now) text.now
            (behind_word (map row_of rows.now) self.old))
            (behind_word (map row_of rows.now) self.new None) }
    {
        let (name, joined) = name_and_value(text);
        let (option, _, has_value) = option_of(rows, name)?;
        match (has_value, joined) {
            (false, None) => Ok(Some(Given::Flag(option))),
            (false, Some(_)) => Err(Misuse::ValueNotWanted(Printed(name.as_bytes()))),
            (true, Some(value)) => Ok(Some(Given::Value(option, value))),
            (true, None) => match self.take_word() {
                Some(value) => Ok(Some(Given::Value(option, value))),
                None => Err(Misuse::NoValueOfName(Printed(name.as_bytes()))),
            },
        }
    }
}

// Splits the text of a long option at its first `=`, if it has one.
fn name_and_value(text: &str) -> (&str, Option<&str>)
    ensures name { result.0.now ≡ name_in text.now }
    ensures value { option_map (λ value. value.now) result.1 ≡ joined_in text.now }
{
    match text.split_once('=') {
        Some((name, value)) => (name, Some(value)),
        None => (text, None),
    }
}

fn first_letter(letters: &str) -> &[u8]
    ensures { result.now ≡ first_letter letters.now }
{
    let bytes = letters.as_bytes();
    let mut length = 1;
    while length < bytes.len() && continues(bytes[length]) {
        length += 1;
    }
    bytes.get(..length).unwrap_or(bytes)
}

// The byte is not the first of a letter in UTF-8.
fn continues(byte: u8) -> bool
    ensures { result ≡ continues byte }
{
    128 <= byte && byte < 192
}

fn option_by_letter<'a>(rows: &[OptionRow], letters: &'a str) -> Option<(OptionRow, &'a str)>
    ensures met { option_map (λ found. (row_of found.0, found.1.now)) result ≡ met
        (map row_of rows.now) letters.now }
    ensures letter { IfSome result (λ found. letters.now ≡ found.0.0 ∷ found.1.now) }
    ensures shorter { IfSome result (λ found. length found.1.now < length letters.now) }
{
    let letter = char::from(*letters.as_bytes().first()?);
    if !letter.is_ascii() {
        return None;
    }
    let row = row_with(rows, letter)?;
    let rest = behind(letters, letter)?;
    Some((row, rest))
}

fn row_with(rows: &[OptionRow], letter: char) -> Option<OptionRow>
    ensures { option_map row_of result ≡ find (λ row. row.letter == letter) (map row_of rows.now) }
{
    for row in rows {
        if row.0 == letter {
            return Some(*row);
        }
    }
    None
}

#[tactic(auto, using(crate::proofs::Strips::behind_is))]
pub(crate) fn behind(text: &str, letter: char) -> Option<&str>
    requires ascii { letter < 128 }
    ensures rest { option_map (λ rest. rest.now) result ≡ behind letter text.now }
{
    text.strip_prefix(letter)
}

// Returns the option whose long name is this or, if there is none, the only one whose long name
// begins so.
fn option_of<'a>(rows: &[OptionRow], name: &'a str) -> Result<OptionRow, Misuse<'a>>
    ensures { result_map_both row_of mistake_of result ≡ named (map row_of rows.now) name.now }
{
    match option_by_name(rows, name) {
        Some(row) => Ok(row),
        None => option_by_beginning(rows, name),
    }
}

pub(crate) fn option_by_name(rows: &[OptionRow], name: &str) -> Option<OptionRow>
    ensures { option_map row_of result ≡ called (map row_of rows.now) name.now }
{
    if name.is_empty() {
        return None;
    }
    for row in rows {
        if row.1 == name {
            return Some(*row);
        }
    }
    None
}

// Returns the only option whose long name begins so.
fn option_by_beginning<'a>(rows: &[OptionRow], text: &'a str) -> Result<OptionRow, Misuse<'a>>
    ensures { result_map_both row_of mistake_of result ≡ only text.now
        (filter (is_begun text.now) (map row_of rows.now)) }
{
    let mut found = None;
    for row in rows {
        if is_begun(row.1, text) {
            if found.is_some() {
                return Err(Misuse::AmbiguousName(Printed(text.as_bytes())));
            }
            found = Some(*row);
        }
    }
    match found {
        Some(row) => Ok(row),
        None => Err(Misuse::UnknownName(Printed(text.as_bytes()))),
    }
}

// Returns whether a name that is not empty begins with a text.
fn is_begun(name: &str, text: &str) -> bool
    ensures { result ≡
        (nat_lt 0 (length name.now) && starts_with (λ a b. a == b) name.now text.now) }
{
    !name.is_empty() && name.as_bytes().starts_with(text.as_bytes())
}
