//! Dates and times of day.
ghost use Rattle.std.specs.Prelude.{◌≡◌, ◌<◌, ◌≤◌, ◌/◌, ◌%◌, MatchOption};
ghost use Rattle.civil.specs.Time.{Time, IsTime, IsWhole};
ghost use Rattle.civil.specs.Calendar as calendar;
ghost use Rattle.civil.specs.Octets.{from_month};

mod unix;

use crate::calendar::days_in_month;
use std::marker::Model;

/// A date of the Gregorian calendar, in the years 0 to 9999, and a time of day.
#[derive(Clone, Copy, PartialEq, Eq, PartialOrd, Ord)]
pub struct DateTime {
    year: u16,
    month: u8,
    day: u8,
    hour: u8,
    minute: u8,
    second: u8,
    nanosecond: u32,
}

impl Model for DateTime {
    ghost use Rattle.civil.specs.Time.{Time, IsTime};

    ghost Value = { Time };

    ghost view = { λ a. record {
      year = a.year;
      month = a.month;
      day = a.day;
      hour = a.hour;
      minute = a.minute;
      second = a.second;
      nanosecond = a.nanosecond;
    } };

    ghost invariant = { λ a. IsTime (record {
      year = a.year;
      month = a.month;
      day = a.day;
      hour = a.hour;
      minute = a.minute;
      second = a.second;
      nanosecond = a.nanosecond;
    }) };

    ghost inverse = { λ t. record {
      year = t.year;
      month = t.month;
      day = t.day;
      hour = t.hour;
      minute = t.minute;
      second = t.second;
      nanosecond = t.nanosecond;
    } };
}

impl DateTime {
    /// Returns the time with these parts, or `None` if there is none.
    ///
    /// The second may be 60, as a leap second is (ISO 8601).
    pub fn new(
        year: u16,
        month: u8,
        day: u8,
        hour: u8,
        minute: u8,
        second: u8,
        nanosecond: u32,
    ) -> Option<DateTime>
        ensures { let t : Time = record {
          year = year;
          month = month;
          day = day;
          hour = hour;
          minute = minute;
          second = second;
          nanosecond = nanosecond;
        }
            in MatchOption result (IsTime t → ⊥) (λ x. (x ≡ t) × IsTime t) }
    {
        let is_date = year < 10000
            && 1 <= month
            && month <= 12
            && 1 <= day
            && day <= days_in_month(year, month);
        let is_time = hour < 24 && minute < 60 && second <= 60 && nanosecond < 1_000_000_000;
        if is_date && is_time {
            Some(DateTime {
                year,
                month,
                day,
                hour,
                minute,
                second,
                nanosecond,
            })
        } else {
            None
        }
    }

    /// Returns the time of a day at which so many seconds of it have passed.
    pub(crate) fn on(year: u16, month: u8, day: u8, passed: u32) -> DateTime
        requires year { year < 10000 }
        requires month { (1 ≤ month) × (month ≤ 12) }
        requires day { (1 ≤ day) × (day ≤ calendar.days_in_month year month) }
        requires passed { passed < 86400 }
        ensures same { result ≡ (record {
          year = year;
          month = month;
          day = day;
          hour = passed / 3600;
          minute = passed / 60 % 60;
          second = passed % 60;
          nanosecond = 0;
        }) }
        ensures whole { IsWhole result }
    {
        DateTime {
            year,
            month,
            day,
            hour: (passed / 3600) as u8,
            minute: (passed / 60 % 60) as u8,
            second: (passed % 60) as u8,
            nanosecond: 0,
        }
    }

    /// Returns the year.
    pub fn year(&self) -> u16
        ensures { (result ≡ self.now.year) × IsTime self.now }
    {
        self.year
    }

    /// Returns the month, from 1.
    pub fn month(&self) -> u8
        ensures { (result ≡ self.now.month) × IsTime self.now }
    {
        self.month
    }

    /// Returns the day of the month, from 1.
    pub fn day(&self) -> u8
        ensures { (result ≡ self.now.day) × IsTime self.now }
    {
        self.day
    }

    /// Returns the hour.
    pub fn hour(&self) -> u8
        ensures { (result ≡ self.now.hour) × IsTime self.now }
    {
        self.hour
    }

    /// Returns the minute.
    pub fn minute(&self) -> u8
        ensures { (result ≡ self.now.minute) × IsTime self.now }
    {
        self.minute
    }

    /// Returns the second, which is 60 in a leap second.
    pub fn second(&self) -> u8
        ensures { (result ≡ self.now.second) × IsTime self.now }
    {
        self.second
    }

    /// Returns the nanosecond of the second.
    pub fn nanosecond(&self) -> u32
        ensures { (result ≡ self.now.nanosecond) × IsTime self.now }
    {
        self.nanosecond
    }

    /// Returns the digits of the month, the day, the hour, the minute and the second.
    pub(crate) fn digits_from_month(&self) -> [u8; 10]
        ensures { result ≡ from_month self.now }
    {
        [
            b'0' + self.month / 10,
            b'0' + self.month % 10,
            b'0' + self.day / 10,
            b'0' + self.day % 10,
            b'0' + self.hour / 10,
            b'0' + self.hour % 10,
            b'0' + self.minute / 10,
            b'0' + self.minute % 10,
            b'0' + self.second / 10,
            b'0' + self.second % 10,
        ]
    }
}
