//! Seconds since 1970-01-01T00:00:00Z.
ghost use Rattle.std.specs.Prelude.{◌≡◌, ◌<◌, pos, ◌+ℤ◌, IfSome, Some};
ghost use Rattle.civil.specs.Time.{Time, IsTime, IsWhole, seconds};

use crate::date_time::DateTime;
use crate::day_number::{days_before_year, days_of_months, month_and_day, year_of};

/// The number of seconds from the year 0 to the year 1970.
const EPOCH: i64 = 62_167_219_200;

/// The number of seconds from the year 0 to the year 10000.
const END: i64 = 315_569_520_000;

/// Returns the time at which so many seconds have passed since the year 0 began.
fn after(passed: u64) -> DateTime
    requires { passed < 315569520000 }
    ensures { (seconds result ≡ passed) × IsWhole result }
{
    let day = (passed / 86_400) as u32;
    let rest = (passed % 86_400) as u32;
    let year = year_of(day);
    let (month, day) = month_and_day(year, (day - days_before_year(year)) as u16);
    DateTime::on(year, month, day, rest)
}

impl DateTime {
    /// Returns the number of seconds since 1970-01-01T00:00:00Z, for a time in Coordinated
    /// Universal Time.
    ///
    /// Leap seconds aren't counted: second 60 is the first second of the next minute.
    pub fn unix_seconds(&self) -> i64
        ensures { result +ℤ pos 62167219200 ≡ pos (seconds self.now) }
    {
        let days = days_before_year(self.year())
            + u32::from(days_of_months(self.year(), self.month() - 1))
            + u32::from(self.day() - 1);
        let rest = 3600 * u32::from(self.hour())
            + 60 * u32::from(self.minute())
            + u32::from(self.second());
        (86_400 * u64::from(days) + u64::from(rest)) as i64 - EPOCH
    }

    /// Returns the time at which so many seconds have passed since 1970-01-01T00:00:00Z, or `None`
    /// if it isn't in the years 0 to 9999.
    ///
    /// ```text
    /// DateTime::from_unix_seconds(1_795_947_829)    2026-11-29T10:23:49
    /// ```
    pub fn from_unix_seconds(number: i64) -> Option<DateTime>
        ensures value { IfSome result (λ t.
            (pos (seconds t) ≡ number +ℤ pos 62167219200) × IsWhole t) }
        ensures back { (t : Time) → IsWhole t → pos (seconds t) ≡ number +ℤ pos 62167219200
            → result ≡ Some t }
    {
        if number < -EPOCH || number >= END - EPOCH {
            return None;
        }
        Some(after((number + EPOCH) as u64))
    }
}
