//! UTCTime (X.680, 47).
ghost use Rattle.std.specs.Prelude.{◌≡◌, ◌↔◌, ◌≤◌, ◌<◌, pos};
ghost use Rattle.std.specs.Prelude.{◌+ℤ◌, Option, Some, None, IfSome, MatchOption};
ghost use Rattle.civil.specs.Time.{Time, IsWhole, IsUtcTime, seconds};
ghost use Rattle.civil.specs.Octets.{utc_octets};

use crate::date_time::DateTime;
use crate::digits::number;
use std::marker::Model;

/// A UTCTime (X.680, 47): a date in the years 1950 to 2049 and a time of day, to the second, in
/// Coordinated Universal Time.
///
/// Its year has two digits. From 50 on they stand for one of the twentieth century, and below for
/// one of the twenty-first (RFC 5280, section 4.1.2.5.1).
#[derive(Clone, Copy, PartialEq, Eq, PartialOrd, Ord)]
pub struct UtcTime {
    time: DateTime,
}

impl Model for UtcTime {
    ghost use Rattle.civil.specs.Time.{Time, IsUtcTime};

    ghost Value = { Time };

    ghost view = { λ a. a.time };

    ghost invariant = { λ a. IsUtcTime a.time };

    ghost inverse = { λ t. record { time = t } };
}

impl UtcTime {
    /// Returns the time with these parts, or `None` if there is none, or its year isn't one of 1950
    /// to 2049.
    pub fn new(year: u16, month: u8, day: u8, hour: u8, minute: u8, second: u8) -> Option<UtcTime>
        ensures { let t : Time = record {
          year = year;
          month = month;
          day = day;
          hour = hour;
          minute = minute;
          second = second;
          nanosecond = 0;
        }
            in MatchOption result (IsUtcTime t → ⊥) (λ x. (x ≡ t) × IsUtcTime t) }
    {
        match DateTime::new(year, month, day, hour, minute, second, 0) {
            Some(time) => UtcTime::from_date_time(time),
            None => None,
        }
    }

    /// Returns the time at which so many seconds have passed since 1970-01-01T00:00:00Z, or `None`
    /// if its year isn't one of 1950 to 2049.
    pub fn from_unix_seconds(number: i64) -> Option<UtcTime>
        ensures value { IfSome result (λ t. pos (seconds t) ≡ number +ℤ pos 62167219200) }
        ensures back { (t : Time) → IsUtcTime t → pos (seconds t) ≡ number +ℤ pos 62167219200
            → result ≡ Some t }
    {
        match DateTime::from_unix_seconds(number) {
            Some(time) => UtcTime::from_date_time(time),
            None => None,
        }
    }

    /// Returns this time as a UTCTime, or `None` if its year, a leap second or a fraction keeps it
    /// from being one.
    pub fn from_date_time(time: DateTime) -> Option<UtcTime>
        ensures { MatchOption result (IsUtcTime time → ⊥) (λ x. (x ≡ time) × IsUtcTime time) }
    {
        if 1950 <= time.year()
            && time.year() < 2050
            && time.second() < 60
            && time.nanosecond() == 0
        {
            Some(UtcTime { time })
        } else {
            None
        }
    }

    /// Returns the date and time of day.
    pub fn date_time(&self) -> DateTime
        ensures { (result ≡ self.now) × IsUtcTime self.now }
    {
        self.time
    }

    /// Returns the contents octets, in the one form of CER and DER (X.690, 11.8).
    #[tactic(auto, unfolding(crate::specs::Octets::utc_octets))]
    pub fn to_octets(&self) -> [u8; 13]
        ensures { result ≡ utc_octets self.now }
    {
        let [a, b, c, d, e, f, g, h, i, j] = self.time.digits_from_month();
        let year = (self.time.year() % 100) as u8;
        [
            b'0' + year / 10,
            b'0' + year % 10,
            a,
            b,
            c,
            d,
            e,
            f,
            g,
            h,
            i,
            j,
            b'Z',
        ]
    }

    /// Returns the time that contents octets mean, or perhaps another if they aren't in that form.
    #[tactic(auto, unfolding(crate::specs::Octets::utc_octets))]
    fn candidate(octets: &[u8]) -> Option<UtcTime>
        ensures { (t : Time) → IsUtcTime t → octets.now ≡ utc_octets t → result ≡ Some t }
    {
        let [a, b, c, d, e, f, g, h, i, j, k, l, _] = octets else {
            return None;
        };
        let year = u16::from(number(*a, *b));
        let century = if year < 50 { 2000 } else { 1900 };
        let time = DateTime::new(
            century + year,
            number(*c, *d),
            number(*e, *f),
            number(*g, *h),
            number(*i, *j),
            number(*k, *l),
            0,
        )?;
        UtcTime::from_date_time(time)
    }

    /// Returns the time whose contents octets these are in CER and DER (X.690, 11.8), if there is
    /// one.
    pub fn from_octets(octets: &[u8]) -> Option<UtcTime>
        ensures { MatchOption result
            ((t : Time) → IsUtcTime t → octets.now ≡ utc_octets t → ⊥)
            (λ t. octets.now ≡ utc_octets t) }
    {
        let time = UtcTime::candidate(octets)?;
        if time.to_octets().as_slice() == octets {
            Some(time)
        } else {
            None
        }
    }
}
