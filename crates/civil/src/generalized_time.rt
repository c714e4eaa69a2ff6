//! GeneralizedTime (X.680, 46).
ghost use Rattle.std.specs.Prelude.{◌≡◌, ℕ, ◌^◌, ◌<◌, ◌≤◌};
ghost use Rattle.std.specs.Prelude.{◌++◌, codes, length, Option, Some, MatchOption};
ghost use Rattle.civil.specs.Time.{Time, IsTime};
ghost use Rattle.civil.specs.Octets.{fraction, generalized_octets};

use crate::date_time::DateTime;
use crate::digits::{leading, number, put_leading};
use crate::octets::Octets;
use std::marker::Model;

/// A GeneralizedTime (X.680, 46): a date in the years 0 to 9999 and a time of day, to the
/// nanosecond, in Coordinated Universal Time.
#[derive(Clone, Copy, PartialEq, Eq, PartialOrd, Ord)]
pub struct GeneralizedTime {
    time: DateTime,
}

impl Model for GeneralizedTime {
    ghost use Rattle.civil.specs.Time.{Time, IsTime};

    ghost Value = { Time };

    ghost view = { λ a. a.time };

    ghost invariant = { λ a. IsTime a.time };

    ghost inverse = { λ t. record { time = t } };
}

/// Returns the nanoseconds of what stands behind the seconds, or any number if that isn't a
/// fraction.
fn nanosecond(octets: &[u8]) -> u32
    ensures { (n : ℕ) → n < 1000000000 → octets.now ≡ fraction n ++ codes "Z" → result ≡ n }
{
    match octets {
        [b'.', digits @ .., b'Z'] => leading(9, digits),
        _ => 0,
    }
}

/// Appends a full stop and the digits of a fraction of a second, if it isn't 0.
pub(crate) fn put_fraction(octets: &mut Octets, nanosecond: u32)
    requires fits { nanosecond < 1000000000 }
    requires room { length octets.old ≤ 14 }
    ensures appended { octets.new ≡ octets.old ++ fraction nanosecond }
    ensures few { length octets.new ≤ 24 }
{
    if nanosecond > 0 {
        octets.push(b'.');
        put_leading(octets, 9, nanosecond);
    }
}

impl GeneralizedTime {
    /// Returns the time with these parts, or `None` if there is none.
    pub fn new(
        year: u16,
        month: u8,
        day: u8,
        hour: u8,
        minute: u8,
        second: u8,
        nanosecond: u32,
    ) -> Option<GeneralizedTime>
        ensures { let t : Time = record {
          year = year;
          month = month;
          day = day;
          hour = hour;
          minute = minute;
          second = second;
          nanosecond = nanosecond;
        }
            in MatchOption result (IsTime t → ⊥) (λ x. (x ≡ t) × IsTime t) }
    {
        match DateTime::new(year, month, day, hour, minute, second, nanosecond) {
            Some(time) => Some(GeneralizedTime::from_date_time(time)),
            None => None,
        }
    }

    /// Returns this time as a GeneralizedTime.
    pub fn from_date_time(time: DateTime) -> GeneralizedTime
        ensures { (result ≡ time) × IsTime time }
    {
        let _year = time.year();
        GeneralizedTime { time }
    }

    /// Returns the date and time of day.
    pub fn date_time(&self) -> DateTime
        ensures { (result ≡ self.now) × IsTime self.now }
    {
        self.time
    }

    /// Returns the contents octets, in the one form of CER and DER (X.690, 11.7).
    #[tactic(auto, unfolding(crate::specs::Octets::generalized_octets))]
    pub fn to_octets(&self) -> Octets
        ensures { result ≡ generalized_octets self.now }
    {
        let [a, b, c, d, e, f, g, h, i, j] = self.time.digits_from_month();
        let century = (self.time.year() / 100) as u8;
        let year = (self.time.year() % 100) as u8;
        let first = b'0' + century / 10;
        let second = b'0' + century % 10;
        let third = b'0' + year / 10;
        let fourth = b'0' + year % 10;
        let mut octets = Octets::new(
            [
                first, second, third, fourth, a, b, c, d, e, f, g, h, i, j, 0, 0, 0, 0, 0, 0, 0, 0,
                0, 0, 0,
            ],
            14,
        );
        put_fraction(&mut octets, self.time.nanosecond());
        octets.push(b'Z');
        octets
    }

    /// Returns the time that contents octets mean, or perhaps another if they aren't in that form.
    #[tactic(auto, unfolding(crate::specs::Octets::generalized_octets))]
    fn candidate(octets: &[u8]) -> Option<GeneralizedTime>
        ensures { (t : Time) → IsTime t → octets.now ≡ generalized_octets t → result ≡ Some t }
    {
        let [a, b, c, d, e, f, g, h, i, j, k, l, m, n, rest @ ..] = octets else {
            return None;
        };
        let time = DateTime::new(
            100 * u16::from(number(*a, *b)) + u16::from(number(*c, *d)),
            number(*e, *f),
            number(*g, *h),
            number(*i, *j),
            number(*k, *l),
            number(*m, *n),
            nanosecond(rest),
        )?;
        Some(GeneralizedTime::from_date_time(time))
    }

    /// Returns the time whose contents octets these are in CER and DER (X.690, 11.7), if there is
    /// one.
    pub fn from_octets(octets: &[u8]) -> Option<GeneralizedTime>
        ensures { MatchOption result
            ((t : Time) → IsTime t → octets.now ≡ generalized_octets t → ⊥)
            (λ t. octets.now ≡ generalized_octets t) }
    {
        let time = GeneralizedTime::candidate(octets)?;
        if time.to_octets().as_slice() == octets {
            Some(time)
        } else {
            None
        }
    }
}
