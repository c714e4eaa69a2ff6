//! Dates as numbers of days, from 1 January of the year 0 on.
ghost use Rattle.std.specs.Prelude.{◌≡◌, ◌+◌, ◌-◌, ◌<◌, ◌≤◌};
ghost use Rattle.civil.specs.Calendar.{days_before_year, days_in_month, days_in_year};
ghost use Rattle.civil.specs.Calendar.{days_of_months};

use crate::calendar::days_in_month;

/// Returns the number of days before a year.
#[tactic(auto, using(crate::proofs::Days::years_closed))]
pub(crate) fn days_before_year(year: u16) -> u32
    requires { year ≤ 10000 }
    ensures sum { result ≡ days_before_year year }
    ensures few { result ≤ 3652425 }
{
    let year = u32::from(year);
    365 * year + (year + 3) / 4 - (year + 99) / 100 + (year + 399) / 400
}

/// Returns the number of days of the first months of a year.
pub(crate) fn days_of_months(year: u16, count: u8) -> u16
    requires { count ≤ 12 }
    ensures sum { result ≡ days_of_months year count }
    ensures few { result ≤ 372 }
{
    let mut days = 0;
    for month in 0..count {
        days += u16::from(days_in_month(year, month + 1));
    }
    days
}

/// Returns the year in which a day lies.
pub(crate) fn year_of(day: u32) -> u16
    requires { day < 3652425 }
    ensures below { result < 10000 }
    ensures from { days_before_year result ≤ day }
    ensures until { day < days_before_year (result + 1) }
{
    let year = ((400 * u64::from(day) + 396) / 146_097) as u16;
    if day < days_before_year(year) {
        year - 1
    } else {
        year
    }
}

/// Returns the month and the day of the month of a day of a year, which is counted from 0.
pub(crate) fn month_and_day(year: u16, day: u16) -> (u8, u8)
    requires { day < days_in_year year }
    ensures same { days_of_months year (result.0 - 1) + (result.1 - 1) ≡ day }
    ensures month { (1 ≤ result.0) × (result.0 ≤ 12) }
    ensures day { (1 ≤ result.1) × (result.1 ≤ days_in_month year result.0) }
{
    let mut rest = day;
    for month in 1..12u8 {
        let days = u16::from(days_in_month(year, month));
        if rest < days {
            return (month, rest as u8 + 1);
        }
        rest -= days;
    }
    (12, rest as u8 + 1)
}
