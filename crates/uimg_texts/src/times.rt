//! Times as texts.

ghost use Rattle.std.specs.Prelude.{◌≡◌, ◌*◌, ◌/◌, ◌%◌, ◌<◌, ◌≤◌, pos};
ghost use Rattle.jiff_core.specs.DateTime.{civil_nanos};
ghost use Rattle.uimg_texts.specs.Calendar.{civil_date, weekday};
ghost use Rattle.uimg_texts.specs.Times.{weekday_name, month_name, day_text, moment_text, time_text};

use crate::digits::two_digits;
use jiff::Timestamp;
use jiff::tz::Offset;
use jiff_core::civil::DateTime;

// A date and a time of day in UTC.
#[derive(Clone, Copy)]
struct Moment {
    year: u16,
    month: u8,
    day: u8,
    weekday: u8,
    hour: u8,
    minute: u8,
    second: u8,
    ghost year_in: { year < 10000 },
    ghost month_first: { 1 ≤ month },
    ghost month_last: { month ≤ 12 },
    ghost day_in: { day ≤ 31 },
    ghost weekday_in: { weekday < 7 },
    ghost hour_in: { hour < 24 },
    ghost minute_in: { minute < 60 },
    ghost second_in: { second < 60 },
}

// UTC, that many seconds after 1 January 1970.
fn utc_datetime(seconds: u32) -> DateTime
    ensures { civil_nanos result ≡ pos (seconds * 1_000_000_000) }
{
    let Ok(instant) = Timestamp::from_second(seconds as i64) else {
        unreachable!();
    };
    Offset::UTC.to_datetime(instant).to_plain()
}

// 0 is Sunday. Day 0 was a Thursday.
fn weekday_of(seconds: u32) -> u8
    ensures { result ≡ weekday (seconds / 86400) }
{
    ((seconds / 86_400 + 4) % 7) as u8
}

fn moment_at(seconds: u32) -> Moment
    ensures year { result.year ≡ (civil_date (seconds / 86400)).year }
    ensures month { result.month ≡ (civil_date (seconds / 86400)).month }
    ensures day { result.day ≡ (civil_date (seconds / 86400)).day }
    ensures weekday { result.weekday ≡ weekday (seconds / 86400) }
    ensures hour { result.hour ≡ seconds % 86400 / 3600 }
    ensures minute { result.minute ≡ seconds % 3600 / 60 }
    ensures second { result.second ≡ seconds % 60 }
{
    let DateTime { date, time } = utc_datetime(seconds);
    Moment {
        year: date.year.unsigned_abs(),
        month: date.month,
        day: date.day,
        weekday: weekday_of(seconds),
        hour: time.hour,
        minute: time.minute,
        second: time.second,
    }
}

fn weekday_name(weekday: u8) -> [u8; 3]
    requires { weekday < 7 }
    ensures { result ≡ weekday_name weekday }
{
    match weekday {
        0 => *b"Sun",
        1 => *b"Mon",
        2 => *b"Tue",
        3 => *b"Wed",
        4 => *b"Thu",
        5 => *b"Fri",
        _ => *b"Sat",
    }
}

fn month_name(month: u8) -> [u8; 3]
    requires first { 1 ≤ month }
    requires last { month ≤ 12 }
    ensures { result ≡ month_name month }
{
    match month {
        1 => *b"Jan",
        2 => *b"Feb",
        3 => *b"Mar",
        4 => *b"Apr",
        5 => *b"May",
        6 => *b"Jun",
        7 => *b"Jul",
        8 => *b"Aug",
        9 => *b"Sep",
        10 => *b"Oct",
        11 => *b"Nov",
        _ => *b"Dec",
    }
}

// Returns a day of the month in two places, with a leading space below 10.
fn day_text(day: u8) -> [u8; 2]
    requires { day < 100 }
    ensures { result ≡ day_text day }
{
    if day < 10 {
        [b' ', b'0' + day]
    } else {
        two_digits(day)
    }
}

fn moment_text(moment: Moment) -> [u8; 24]
    ensures { result
        ≡ moment_text moment.year moment.month moment.day moment.weekday moment.hour moment.minute
        moment.second }
{
    let weekday = weekday_name(moment.weekday);
    let month = month_name(moment.month);
    let day = day_text(moment.day);
    let hour = two_digits(moment.hour);
    let minute = two_digits(moment.minute);
    let second = two_digits(moment.second);
    let century = two_digits((moment.year / 100) as u8);
    let year = two_digits((moment.year % 100) as u8);
    [
        weekday[0], weekday[1], weekday[2], b' ', month[0], month[1], month[2], b' ', day[0],
        day[1], b' ', hour[0], hour[1], b':', minute[0], minute[1], b':', second[0], second[1],
        b' ', century[0], century[1], year[0], year[1],
    ]
}

/// Returns a time, in seconds since 1 January 1970, 00:00:00 UTC, as `Www Mmm dd hh:mm:ss yyyy`.
///
/// The text is in UTC, with English names of three letters. The day has a leading space below 10;
/// hours, minutes and seconds have two digits. The date is in the Gregorian calendar (ISO 8601).
pub fn time_text(seconds: u32) -> [u8; 24]
    ensures { result ≡ time_text seconds }
{
    moment_text(moment_at(seconds))
}
