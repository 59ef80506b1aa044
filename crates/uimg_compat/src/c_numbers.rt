//! Reads numbers as strtoull and strtol of the C library do.

ghost use Rattle.std.specs.Prelude.{true, ◌==◌, ◌-◌, if◌then◌else◌, ◌≡◌, ◌≤◌, ◌<◌, ◌^◌, ◌%◌};
ghost use Rattle.std.specs.Prelude.{option_map, length, IfSome};
ghost use Rattle.std.specs.Bool.{OnTrue};
ghost use Rattle.std.specs.Str.Parse.{digits_value};
ghost use Rattle.uimg_compat.specs.CNumbers.{base_of, c_int};
ghost use Rattle.uimg_compat.specs.CNumbers.{IsIn64Bits, at_most, leading_digits, long_prefix};
ghost use Rattle.uimg_compat.specs.CNumbers.{behind_blank, behind_mark, in_64_bits, is_blank};
ghost use Rattle.uimg_compat.specs.CNumbers.{is_numeral, opposite, unsigned_long, without_blanks};
ghost use Rattle.uimg_compat.specs.CNumbers.{without_mark, without_sign};

use crate::getopt::behind;

/// The most seconds after 1970 that gmtime has a year for, the end of year 2147485547.
const MOST_AFTER: u64 = 67_768_036_191_676_799;

/// The most seconds before 1970 that gmtime has a year for.
const MOST_BEFORE: u64 = 67_768_040_609_740_800;

/// The greatest int of C.
const MOST_INT: u64 = 2_147_483_647;

/// Reads a text to its end as strtoull does in a base: blanks, a sign, for base 16 `0x` or `0X`,
/// and digits. An empty text is 0. A number of more than 64 bits is 2^64 - 1, and a negative one
/// counts from 2^64 down. Returns `None` if anything is left.
pub fn unsigned_long(text: &str, base: u32) -> Option<u64>
    requires least { 2 ≤ base }
    requires most { base ≤ 36 }
    ensures number { result ≡ unsigned_long base text.now }
{
    if text.is_empty() {
        return Some(0);
    }
    let signed = without_blanks(text);
    let digits = without_mark(without_sign(signed), base);
    if !is_numeral(digits, base) {
        return None;
    }
    match (in_64_bits(digits, base), behind(signed, '-')) {
        (None, _) => Some(u64::MAX),
        (Some(number), None) => Some(number),
        (Some(number), Some(_)) => Some(opposite(number)),
    }
}

/// Reads the beginning of a text as strtol does in base 10: blanks, a sign and digits. Without a
/// digit it is 0. Returns the low 32 bits, or `None` for seconds since 1970 in no year of gmtime,
/// whose years have 32 bits.
pub fn long_prefix(text: &str) -> Option<u32>
    ensures { result ≡ long_prefix text.now }
{
    let signed = without_blanks(text);
    let number = leading_number(without_sign(signed).as_bytes())?;
    match behind(signed, '-') {
        Some(_) => Some(low_opposite(low_half(number))),
        None if number > MOST_AFTER => None,
        None => Some(low_half(number)),
    }
}

/// Reads a text to its end as strtol does in base 0: `0x` or `0X` is before hexadecimal digits, `0`
/// before octal ones. Returns `None` if anything is left, and for a number that is no int from 0
/// on.
pub(crate) fn c_int(text: &str) -> Option<u32>
    ensures { result ≡ c_int text.now }
{
    let base = base_of(without_sign(without_blanks(text)));
    let number = unsigned_long(text, base)?;
    if number > MOST_INT {
        None
    } else {
        Some(number as u32)
    }
}

// Returns the base of digits by what they begin with.
fn base_of(digits: &str) -> u32
    ensures base { result ≡ base_of digits.now }
    ensures least { 2 ≤ result }
    ensures most { result ≤ 36 }
{
    if !behind_mark(digits).is_empty() {
        return 16;
    }
    match behind(digits, '0') {
        Some(_) => 8,
        None => 10,
    }
}

// Returns the number of the digits that a text begins with, if it is at most `MOST_BEFORE`.
fn leading_number(text: &[u8]) -> Option<u64>
    ensures { result ≡ at_most 67768040609740800 (digits_value 10 (leading_digits text.now)) }
{
    let mut number = 0u64;
    for byte in text {
        if number > MOST_BEFORE {
            return None;
        }
        let Some(digit) = char::from(*byte).to_digit(10) else {
            return Some(number);
        };
        number = number * 10 + u64::from(digit);
    }
    small(number)
}

fn small(number: u64) -> Option<u64>
    ensures { result ≡ at_most 67768040609740800 number }
{
    if number > MOST_BEFORE {
        None
    } else {
        Some(number)
    }
}

// Returns a number counted from 2^32 down.
fn low_opposite(number: u32) -> u32
    ensures { result ≡ if number == 0 then 0 else 4294967296 - number }
{
    if number == 0 {
        0
    } else {
        u32::MAX - (number - 1)
    }
}

/// Returns the low 32 bits of a number.
pub fn low_half(number: u64) -> u32
    ensures { result ≡ number % 2 ^ 32 }
{
    (number % 4294967296) as u32
}

// Returns a number counted from 2^64 down.
fn opposite(number: u64) -> u64
    ensures { result ≡ opposite number }
{
    if number == 0 {
        0
    } else {
        u64::MAX - (number - 1)
    }
}

#[tactic(auto, using(crate::proofs::Numerals::in_64_bits_is))]
fn in_64_bits(digits: &str, base: u32) -> Option<u64>
    requires least { 2 ≤ base }
    requires most { base ≤ 36 }
    requires numeral { is_numeral base digits.now ≡ true }
    ensures number { result ≡ in_64_bits base digits.now }
{
    small_number(digits, base)
}

// The standard library would accept a plus before the digits.
fn small_number(digits: &str, base: u32) -> Option<u64>
    requires least { 2 ≤ base }
    requires most { base ≤ 36 }
    ensures number { IsIn64Bits base digits.now result }
{
    if digits.starts_with('+') {
        return None;
    }
    u64::from_str_radix(digits, base).ok()
}

fn is_numeral(text: &str, base: u32) -> bool
    requires least { 2 ≤ base }
    requires most { base ≤ 36 }
    ensures numeral { result ≡ is_numeral base text.now }
{
    if text.is_empty() {
        return false;
    }
    for byte in text.as_bytes() {
        if !char::from(*byte).is_digit(base) {
            return false;
        }
    }
    true
}

fn without_blanks(text: &str) -> &str
    ensures { result.now ≡ without_blanks text.now }
{
    let mut rest = text;
    while let Some(behind) = behind_blank(rest) {
        rest = behind;
    }
    rest
}

fn behind_blank(text: &str) -> Option<&str>
    ensures rest { option_map (λ rest. rest.now) result ≡ behind_blank text.now }
    ensures shorter { IfSome result (λ rest. length rest.now < length text.now) }
{
    let first = char::from(*text.as_bytes().first()?);
    if !is_blank(first) {
        return None;
    }
    behind(text, first)
}

fn without_sign(text: &str) -> &str
    ensures { result.now ≡ without_sign text.now }
{
    match behind(text, '-') {
        Some(rest) => rest,
        None => behind(text, '+').unwrap_or(text),
    }
}

// Returns a text without the mark of base 16, if something follows the mark.
fn without_mark(text: &str, base: u32) -> &str
    ensures { result.now ≡ without_mark base text.now }
{
    if base != 16 {
        return text;
    }
    let rest = behind_mark(text);
    if rest.is_empty() { text } else { rest }
}

// The mark is `0x` or `0X`.
fn behind_mark(text: &str) -> &str
    ensures { result.now ≡ behind_mark text.now }
{
    let Some(rest) = behind(text, '0') else {
        return "";
    };
    match behind(rest, 'x') {
        Some(digits) => digits,
        None => behind(rest, 'X').unwrap_or(""),
    }
}

// The blanks are those of isspace of the C library.
fn is_blank(letter: char) -> bool
    ensures blank { result ≡ is_blank letter }
    ensures ascii { OnTrue result (letter < 128) }
{
    letter == ' ' || ('\t' <= letter && letter <= '\r')
}
