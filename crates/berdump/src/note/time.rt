//! Times (X.680, 46 and 47; X.690, 11.7 and 11.8).
ghost use Rattle.std.specs.Prelude.{◌≡◌, ℕ, ◌<◌, ◌≤◌, List, ◌++◌, IfSome, IfNone};
ghost use Rattle.berdump.specs.Times.{two_digits, days_in};

use crate::note::{Manner, add_fault, hexadecimal};
use bcder::{Mode, NoMemory};
use cli::shown::Shown;
use std::fmt;

/// A date.
#[derive(Clone, Copy)]
struct Date {
    year: u16,
    month: u8,
    day: u8,
}

/// A time of day, up to its last part. The fraction is one of that part.
#[derive(Clone, Copy)]
struct Clock<'a> {
    hour: u8,
    minute: Option<u8>,
    second: Option<u8>,
    fraction: &'a [u8],
}

/// How a time differs from UTC.
#[derive(Clone, Copy)]
enum Zone {
    /// It is in UTC.
    Utc,

    /// It is ahead by hours, and by minutes if they are there.
    Ahead(u8, Option<u8>),

    /// It is behind by hours, and by minutes if they are there.
    Behind(u8, Option<u8>),

    /// It isn't known.
    Local,
}

/// A time.
#[derive(Clone, Copy)]
struct Time<'a> {
    date: Date,
    clock: Clock<'a>,
    zone: Zone,
}

/// Writes `2026-11-28`.
impl fmt::Display for Date {
    fn fmt<W: fmt::Write>(&self, f: &mut fmt::Formatter<W>) -> fmt::Result {
        let Date { year, month, day } = *self;
        write!(f, "{year:04}-{month:02}-{day:02}")
    }
}

/// Writes `12:00:00.5`, up to the last part.
impl fmt::Display for Clock<'_> {
    fn fmt<W: fmt::Write>(&self, f: &mut fmt::Formatter<W>) -> fmt::Result {
        let hour = self.hour;
        write!(f, "{hour:02}")?;
        if let Some(minute) = self.minute {
            write!(f, ":{minute:02}")?;
        }
        if let Some(second) = self.second {
            write!(f, ":{second:02}")?;
        }
        match str::from_utf8(self.fraction) {
            Ok(fraction) if !fraction.is_empty() => write!(f, ".{fraction}"),
            _ => Ok(()),
        }
    }
}

/// Writes `UTC`, `+01:00` or `local time`.
impl fmt::Display for Zone {
    fn fmt<W: fmt::Write>(&self, f: &mut fmt::Formatter<W>) -> fmt::Result {
        match *self {
            Zone::Utc => write!(f, "UTC"),
            Zone::Ahead(hours, minutes) => {
                let minutes = minutes.unwrap_or(0);
                write!(f, "+{hours:02}:{minutes:02}")
            }
            Zone::Behind(hours, minutes) => {
                let minutes = minutes.unwrap_or(0);
                write!(f, "-{hours:02}:{minutes:02}")
            }
            Zone::Local => write!(f, "local time"),
        }
    }
}

/// Writes `2026-11-28 12:00:00 UTC`.
impl fmt::Display for Time<'_> {
    fn fmt<W: fmt::Write>(&self, f: &mut fmt::Formatter<W>) -> fmt::Result {
        write!(f, "{} {} {}", self.date, self.clock, self.zone)
    }
}

/// Returns whether an octet is a digit.
fn is_digit(octet: u8) -> bool {
    b'0' <= octet && octet <= b'9'
}

/// Returns the number that two digits are, if it is at most `most`, and the octets after them.
fn two_digits(octets: &[u8], most: u8) -> Option<(u8, &[u8])>
    ensures some { IfSome result (λ r. (octets.now ≡ two_digits r.0 ++ r.1.now) × (r.0 ≤ most)) }
    ensures none { IfNone result ((number : ℕ) (rest : List ℕ) → number < 100 → number ≤ most
        → octets.now ≡ two_digits number ++ rest → ⊥) }
{
    let [tens, ones, rest @ ..] = octets else {
        return None;
    };
    if *tens < b'0' || *tens > b'9' || *ones < b'0' || *ones > b'9' {
        return None;
    }
    let number = 10 * (*tens - b'0') + (*ones - b'0');
    if number > most {
        return None;
    }
    Some((number, rest))
}

/// Returns the number of two digits and the octets after them, or no number and all octets if the
/// first isn't a digit.
fn part_in(octets: &[u8], most: u8) -> Option<(Option<u8>, &[u8])> {
    match octets {
        [first, ..] if is_digit(*first) => match two_digits(octets, most) {
            Some((number, rest)) => Some((Some(number), rest)),
            None => None,
        },
        _ => Some((None, octets)),
    }
}

/// Returns the number of days of a month.
fn days_in(year: u16, month: u8) -> u8
    ensures { result ≡ days_in year month }
{
    match month {
        4 | 6 | 9 | 11 => 30,
        2 if year % 4 == 0 && (year % 100 != 0 || year % 400 == 0) => 29,
        2 => 28,
        _ => 31,
    }
}

/// Returns the date in a year, and the octets after it.
fn date_in(year: u16, octets: &[u8]) -> Option<(Date, &[u8])> {
    let Some((month, rest)) = two_digits(octets, 12) else {
        return None;
    };
    let Some((day, rest)) = two_digits(rest, days_in(year, month)) else {
        return None;
    };
    if month == 0 || day == 0 {
        return None;
    }
    Some((Date { year, month, day }, rest))
}

/// Returns the digits after a point or a comma, none if neither is first, and the octets after
/// them.
fn fraction_in(octets: &[u8]) -> Option<(&[u8], &[u8])> {
    match octets {
        [b'.' | b',', rest @ ..] => {
            let count = match rest.iter().position(|octet| !is_digit(*octet)) {
                Some(place) => place,
                None => rest.len(),
            };
            if count == 0 {
                return None;
            }
            Some(rest.split_at(count))
        }
        _ => Some(octets.split_at(0)),
    }
}

/// Returns the time of day, and the octets after it.
fn clock_in(octets: &[u8]) -> Option<(Clock<'_>, &[u8])> {
    let Some((hour, rest)) = two_digits(octets, 23) else {
        return None;
    };
    let Some((minute, rest)) = part_in(rest, 59) else {
        return None;
    };
    let Some((second, rest)) = part_in(rest, 60) else {
        return None;
    };
    let Some((fraction, rest)) = fraction_in(rest) else {
        return None;
    };
    let clock = Clock {
        hour,
        minute,
        second,
        fraction,
    };
    Some((clock, rest))
}

/// Returns the hours that octets are, and the minutes if they are there.
fn difference_in(octets: &[u8]) -> Option<(u8, Option<u8>)> {
    let Some((hours, rest)) = two_digits(octets, 23) else {
        return None;
    };
    let Some((minutes, rest)) = part_in(rest, 59) else {
        return None;
    };
    if !rest.is_empty() {
        return None;
    }
    Some((hours, minutes))
}

/// Returns the zone that octets are.
fn zone_in(octets: &[u8]) -> Option<Zone> {
    match octets {
        [] => Some(Zone::Local),
        [b'Z'] => Some(Zone::Utc),
        [b'+', rest @ ..] => match difference_in(rest) {
            Some((hours, minutes)) => Some(Zone::Ahead(hours, minutes)),
            None => None,
        },
        [b'-', rest @ ..] => match difference_in(rest) {
            Some((hours, minutes)) => Some(Zone::Behind(hours, minutes)),
            None => None,
        },
        _ => None,
    }
}

/// Returns the time in a year.
fn time_in(year: u16, octets: &[u8]) -> Option<Time<'_>> {
    let Some((date, rest)) = date_in(year, octets) else {
        return None;
    };
    let Some((clock, rest)) = clock_in(rest) else {
        return None;
    };
    let Some(zone) = zone_in(rest) else {
        return None;
    };
    Some(Time { date, clock, zone })
}

/// Returns the time that contents octets of a UTCTime are (X.680, 47). Its year is one of 1950 to
/// 2049, as in certificates (RFC 5280, 4.1.2.5.1).
fn utc_time_in(octets: &[u8]) -> Option<Time<'_>> {
    let Some((years, rest)) = two_digits(octets, 99) else {
        return None;
    };
    let century = if years < 50 { 2000 } else { 1900 };
    let Some(time) = time_in(century + u16::from(years), rest) else {
        return None;
    };
    if time.clock.minute.is_none() || !time.clock.fraction.is_empty() {
        return None;
    }
    if time.clock.second == Some(60) {
        return None;
    }
    match time.zone {
        Zone::Local | Zone::Ahead(_, None) | Zone::Behind(_, None) => None,
        _ => Some(time),
    }
}

/// Returns the time that contents octets of a GeneralizedTime are (X.680, 46).
fn generalized_time_in(octets: &[u8]) -> Option<Time<'_>> {
    let Some((centuries, rest)) = two_digits(octets, 99) else {
        return None;
    };
    let Some((years, rest)) = two_digits(rest, 99) else {
        return None;
    };
    time_in(100 * u16::from(centuries) + u16::from(years), rest)
}

/// Returns whether a time has seconds and is in UTC.
fn is_full(time: Time<'_>) -> bool {
    let utc = match time.zone {
        Zone::Utc => true,
        _ => false,
    };
    utc && time.clock.second.is_some()
}

/// Returns whether a fraction is one of CER and DER, if there is one: it has a point in front, and
/// its last digit isn't zero (11.7.3, 11.7.4).
fn is_short(fraction: &[u8], octets: &[u8]) -> bool {
    match fraction {
        [] => true,
        [.., last] => *last != b'0' && octets.contains(&b'.'),
    }
}

/// Returns why a UTCTime isn't as CER and DER have it (11.8).
fn utc_fault(mode: Mode, time: Time<'_>) -> Option<&'static str> {
    match mode {
        Mode::Ber => None,
        Mode::Cer | Mode::Der if is_full(time) => None,
        Mode::Cer | Mode::Der => Some("not YYMMDDHHMMSSZ"),
    }
}

/// Returns why a GeneralizedTime isn't as CER and DER have it (11.7).
fn generalized_fault(mode: Mode, time: Time<'_>, octets: &[u8]) -> Option<&'static str> {
    match mode {
        Mode::Ber => None,
        Mode::Cer | Mode::Der => {
            if !is_full(time) {
                Some("not YYYYMMDDHHMMSSZ")
            } else if !is_short(time.clock.fraction, octets) {
                Some("a fraction that isn't the shortest, or has a comma")
            } else {
                None
            }
        }
    }
}

/// Appends the octets of a time: as a text, if they are one.
fn add_octets(manner: Manner, text: &mut String, octets: &[u8]) -> Result<(), NoMemory> {
    match str::from_utf8(octets) {
        Ok(spelled) => {
            write!(text, " :{}", Shown(spelled))?;
            Ok(())
        }
        Err(_) => hexadecimal::add(manner, text, octets),
    }
}

/// Appends what contents octets of a UTCTime mean.
pub(crate) fn add_utc(manner: Manner, text: &mut String, octets: &[u8]) -> Result<(), NoMemory> {
    add_octets(manner, text, octets)?;
    match utc_time_in(octets) {
        Some(time) => {
            write!(text, ", {time}")?;
            add_fault(text, utc_fault(manner.mode, time))
        }
        None => add_fault(text, Some("not a time")),
    }
}

/// Appends what contents octets of a GeneralizedTime mean.
pub(crate) fn add_generalized(
    manner: Manner,
    text: &mut String,
    octets: &[u8],
) -> Result<(), NoMemory> {
    add_octets(manner, text, octets)?;
    match generalized_time_in(octets) {
        Some(time) => {
            write!(text, ", {time}")?;
            add_fault(text, generalized_fault(manner.mode, time, octets))
        }
        None => add_fault(text, Some("not a time")),
    }
}
