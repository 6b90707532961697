//! The moments of a SINEX text.
#![tactic(auto)]

ghost use Rattle.std.specs.Prelude.{◌≡◌, ◌≤◌, ◌<◌, ◌+◌, ◌-◌, ◌*◌, ◌/◌, ◌%◌, ◌≤ℤ◌, ◌<ℤ◌, ◌↔◌, ℕ, ℤ, pos, negsuc, ◌+ℤ◌, ◌-ℤ◌, true, Ok, Err, Some, None, length, IfSome, IfOk, IsSome, is_some, if◌then◌else◌, IsTrue};
ghost use Rattle.std.specs.List.{list_all};
ghost use Rattle.jiff_core.specs.Date.{epoch_day};
ghost use Rattle.snx_epoch.specs.Moments.{is_moment, IsMoment, full_year, day_number, has_day, at_second, moment, has_digit, digit_in, digit_places, is_time, year_in, day_in, second_in, epoch_in, byte_of, time_text, IsDayOf, IsTextOf, epoch_text, instant, IsMomentAt, IsMiddleOf};

use blanks::{is_all_blank, trim_front};
use jiff_core::civil::Date;
use thiserror::Error;

/// A moment of a SINEX text, or none. Moments go by time, and Never stands before them all.
#[derive(Clone, Copy, Debug, PartialEq, Eq, PartialOrd, Ord)]
pub enum Epoch {
    /// No moment, written `00:000:00000`.
    Never,
    /// A moment.
    At {
        /// The day, counted from 1970-01-01: from -6940 (1951-01-01) to 29584 (2050-12-31).
        day: i32,
        /// The second of the day, to 86399.
        second: u32,
    },
}

/// Why a text is no moment.
#[derive(Clone, Copy, Debug, PartialEq, Eq, Error)]
pub enum EpochFault {
    /// It is neither blank nor `YY:DDD:SSSSS`.
    #[error("not of the form YY:DDD:SSSSS")]
    Shape,
    /// The year has no such day.
    #[error("no such day")]
    Day,
    /// The day has no such second.
    #[error("no such second")]
    Second,
}

impl Epoch {
    /// The moment of a day, counted from 1970-01-01, and a second of it: none before 1951-01-01, after 2050-12-31, and from second 86400 on.
    pub fn at(day: i32, second: u32) -> Option<Epoch>
        ensures value { result ≡ (if is_moment (Epoch.At day second) then Some (Epoch.At day second) else None) }
        ensures range { IfSome result IsMoment }
    {
        if day < -6940 || day > 29584 || second > 86399 {
            return None;
        }
        Some(Epoch::At { day, second })
    }
}

/// Whether the bytes that are no colon are digits.
fn has_digits(text: &[u8]) -> bool
    requires { 12 ≤ length text.now }
    ensures { result ≡ list_all (has_digit text.now) digit_places }
{
    text[0].is_ascii_digit()
        && text[1].is_ascii_digit()
        && text[3].is_ascii_digit()
        && text[4].is_ascii_digit()
        && text[5].is_ascii_digit()
        && text[7].is_ascii_digit()
        && text[8].is_ascii_digit()
        && text[9].is_ascii_digit()
        && text[10].is_ascii_digit()
        && text[11].is_ascii_digit()
}

/// Whether a text begins with `YY:DDD:SSSSS`, and blanks alone follow.
fn has_time(text: &[u8]) -> bool
    ensures { result ≡ is_time text.now }
{
    text.len() >= 12
        && text[2] == b':'
        && text[6] == b':'
        && has_digits(text)
        && is_all_blank(&text[12..])
}

fn digit_at(text: &[u8], i: usize) -> u32
    requires length { i < length text.now }
    requires digit { has_digit text.now i ≡ true }
    ensures value { result ≡ digit_in text.now i }
    ensures below { result < 10 }
{
    (text[i] - b'0') as u32
}

fn year_of(text: &[u8]) -> u8
    requires { is_time text.now ≡ true }
    ensures value { result ≡ year_in text.now }
    ensures below { result < 100 }
{
    (10 * digit_at(text, 0) + digit_at(text, 1)) as u8
}

fn place_of(text: &[u8]) -> u16
    requires { is_time text.now ≡ true }
    ensures value { result ≡ day_in text.now }
    ensures below { result < 1000 }
{
    (100 * digit_at(text, 3) + 10 * digit_at(text, 4) + digit_at(text, 5)) as u16
}

fn second_of(text: &[u8]) -> u32
    requires { is_time text.now ≡ true }
    ensures value { result ≡ second_in text.now }
    ensures below { result < 100000 }
{
    10000 * digit_at(text, 7)
        + 1000 * digit_at(text, 8)
        + 100 * digit_at(text, 9)
        + 10 * digit_at(text, 10)
        + digit_at(text, 11)
}

/// The day number of a place in a year, if the year has that place.
fn day_at(year: u16, place: u16) -> Option<i32>
    requires year { 1951 ≤ year }
    requires end { year ≤ 2050 }
    requires place { place < 1000 }
    ensures value { IfSome result (λ n. n ≡ day_number year place) }
    ensures none { is_some result ≡ has_day year place }
{
    match Date::from_day_of_year(year as i16, place as i16) {
        Ok(date) => Some(date.to_unix_epoch_day()),
        Err(_) => None,
    }
}

/// The same, with the range in which it lies.
fn day_of(year: u16, place: u16) -> Option<i32>
    requires year { 1951 ≤ year }
    requires end { year ≤ 2050 }
    requires place { place < 1000 }
    ensures value { IfSome result (λ n. n ≡ day_number year place) }
    ensures none { is_some result ≡ has_day year place }
    ensures low { IfSome result (λ n. negsuc 6939 ≤ℤ n) }
    ensures high { IfSome result (λ n. n ≤ℤ pos 29584) }
    ensures last { IfSome result (λ n. (year ≡ 2050 → place ≡ 365 → ⊥) → n ≤ℤ pos 29583) }
{
    day_at(year, place)
}

fn in_full(year: u8) -> u16
    requires { year < 100 }
    ensures value { result ≡ full_year year }
    ensures low { 1951 ≤ result }
    ensures high { result ≤ 2050 }
{
    if year <= 50 {
        2000 + year as u16
    } else {
        1900 + year as u16
    }
}

/// The moment of a year of two digits, a day of the year and a second.
fn moment_of(year: u8, place: u16, second: u32) -> Result<Epoch, EpochFault>
    requires year { year < 100 }
    requires place { place < 1000 }
    requires second { second < 100000 }
    ensures value { result ≡ moment year place second }
    ensures range { IfOk result IsMoment }
{
    if year == 0 && place == 0 && second == 0 {
        return Ok(Epoch::Never);
    }
    let Some(day) = day_of(in_full(year), place) else {
        return Err(EpochFault::Day);
    };
    if second > 86400 {
        return Err(EpochFault::Second);
    }
    if second == 86400 {
        if year == 50 && place == 365 {
            return Err(EpochFault::Second);
        }
        return Ok(Epoch::At {
            day: day + 1,
            second: 0,
        });
    }
    Ok(Epoch::At { day, second })
}

/// The moment that a text writes as `YY:DDD:SSSSS`, with blanks around it or without. Blanks alone and `00:000:00000` are Never.
///
/// # Errors
///
/// Shape, Day and Second, tested in this order.
pub fn read_epoch(text: &[u8]) -> Result<Epoch, EpochFault>
    ensures value { result ≡ epoch_in text.now }
    ensures range { IfOk result IsMoment }
{
    let rest = trim_front(text);
    if rest.is_empty() {
        return Ok(Epoch::Never);
    }
    if has_time(rest) {
        return moment_of(year_of(rest), place_of(rest), second_of(rest));
    }
    Err(EpochFault::Shape)
}

fn digit_byte(n: u32, unit: u32) -> u8
    requires { 0 < unit }
    ensures { result ≡ byte_of (n / unit % 10) }
{
    b'0' + (n / unit % 10) as u8
}

fn last_digit(n: u32) -> u8
    ensures { result ≡ byte_of (n % 10) }
{
    b'0' + (n % 10) as u8
}

fn time_bytes(year: u32, place: u32, second: u32) -> [u8; 12]
    ensures { result ≡ time_text year place second }
{
    [
        digit_byte(year, 10),
        last_digit(year),
        b':',
        digit_byte(place, 100),
        digit_byte(place, 10),
        last_digit(place),
        b':',
        digit_byte(second, 10000),
        digit_byte(second, 1000),
        digit_byte(second, 100),
        digit_byte(second, 10),
        last_digit(second),
    ]
}

fn date_at(day: i32) -> Date
    requires low { negsuc 6939 ≤ℤ day }
    requires high { day ≤ℤ pos 29584 }
    ensures { epoch_day result ≡ day }
{
    match Date::from_unix_epoch_day(day as i64) {
        Ok(date) => date,
        Err(_) => unreachable!(),
    }
}

/// The date of a day, with the range of its year.
fn date_of(day: i32) -> Date
    requires low { negsuc 6939 ≤ℤ day }
    requires high { day ≤ℤ pos 29584 }
    ensures day { epoch_day result ≡ day }
    ensures low { pos 1951 ≤ℤ result.year }
    ensures high { result.year ≤ℤ pos 2050 }
{
    date_at(day)
}

fn year_number(year: i16) -> u32
    requires low { pos 1951 ≤ℤ year }
    requires high { year ≤ℤ pos 2050 }
    ensures value { pos result ≡ year }
    ensures low { 1951 ≤ result }
    ensures high { result ≤ 2050 }
{
    year as u32
}

/// The text of a day and a second of it.
fn text_of(day: i32, second: u32) -> [u8; 12]
    requires low { negsuc 6939 ≤ℤ day }
    requires high { day ≤ℤ pos 29584 }
    ensures text { result ≡ epoch_text (Epoch.At day second) }
    ensures calendar { IsTextOf (Epoch.At day second) result }
{
    let date = date_of(day);
    let year = year_number(date.year);
    let place = date.day_of_year();
    time_bytes(year % 100, place as u32, second)
}

/// The twelve bytes `YY:DDD:SSSSS` of a moment in the range of `Epoch::at`. `read_epoch` gives the moment back.
pub fn print_epoch(e: &Epoch) -> [u8; 12]
    requires { IsMoment e.now }
    ensures text { result ≡ epoch_text e.now }
    ensures calendar { IsTextOf e.now result }
    ensures read_back { epoch_in result ≡ Ok e.now }
{
    match *e {
        Epoch::Never => time_bytes(0, 0, 0),
        Epoch::At { day, second } => text_of(day, second),
    }
}

/// Seconds from 1951-01-01 on.
fn seconds_from_1951(day: i32, second: u32) -> u64
    requires low { negsuc 6939 ≤ℤ day }
    requires high { day ≤ℤ pos 29584 }
    requires second { second ≤ 86399 }
    ensures value { pos result ≡ instant day second +ℤ pos 599616000 }
    ensures below { result < 3155760000 }
{
    (day + 6940) as u64 * 86400 + second as u64
}

/// The moment so many seconds after 1951-01-01.
fn moment_from_1951(seconds: u64) -> Epoch
    requires { seconds < 3155760000 }
    ensures moment { IsMomentAt (pos seconds -ℤ pos 599616000) result }
    ensures range { IsMoment result }
{
    Epoch::At {
        day: (seconds / 86400) as i32 - 6940,
        second: (seconds % 86400) as u32,
    }
}

/// The moment half way between a moment and another.
fn middle_from(day: i32, second: u32, other: &Epoch) -> Epoch
    requires first { IsMoment (Epoch.At day second) }
    requires second { IsMoment other.now }
    ensures middle { IsMiddleOf (Epoch.At day second) other.now result }
    ensures range { IsMoment result }
{
    match *other {
        Epoch::Never => Epoch::Never,
        Epoch::At {
            day: last_day,
            second: last_second,
        } => {
            let first = seconds_from_1951(day, second);
            let last = seconds_from_1951(last_day, last_second);
            moment_from_1951((first + last) / 2)
        }
    }
}

/// The moment half way between two in the range of `Epoch::at`, floored to a second. Never where either is Never.
pub fn middle(a: &Epoch, b: &Epoch) -> Epoch
    requires first { IsMoment a.now }
    requires second { IsMoment b.now }
    ensures middle { IsMiddleOf a.now b.now result }
    ensures range { IsMoment result }
{
    match *a {
        Epoch::Never => Epoch::Never,
        Epoch::At { day, second } => middle_from(day, second, b),
    }
}

#[cfg(test)]
mod tests;
