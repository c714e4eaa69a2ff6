//! Times as CER and DER have them (X.690, 11.7, 11.8), and as BER has them (X.680, 46, 47).
ghost use Rattle.std.specs.Prelude.{◌≡◌, ◌↔◌, ◌+◌, ◌<◌, ◌≤◌, length, IsTrue};
ghost use Rattle.rules.specs.Times.{AreDigits, IsHour};
ghost use Rattle.rules.specs.Times.{is_day, is_minute, is_month, is_second};
ghost use Rattle.rules.specs.Times.{EndsTime, HasFraction, IsGeneralizedTime, IsUtcTime};
ghost use Rattle.rules.specs.Times.{EndsUtcTime, HasDifference, HasZ, IsUtcMinute, IsUtcTimeOf};
ghost use Rattle.rules.specs.Times.{IsUtcTimeInBer};
ghost use Rattle.rules.specs.Times.{EndsInMinutes, EndsInSeconds, IsDateAndHour, IsFraction};
ghost use Rattle.rules.specs.Times.{IsLocalTime, IsLocalTimeOf, IsTimeWithDifference};
ghost use Rattle.rules.specs.Times.{IsTimeWithZ, IsGeneralizedTimeInBer};

/// Returns whether these octets are digits.
fn are_digits(octets: &[u8], from: usize, to: usize) -> bool
    requires { to ≤ length octets.now }
    ensures { IsTrue result ↔ AreDigits octets.now from to }
{
    for place in from..to {
        if octets[place] < b'0' || octets[place] > b'9' {
            return false;
        }
    }
    true
}

/// Returns whether two digits are an hour, of which the last is 23 (11.7.5, 11.8.3).
fn is_hour(octets: &[u8], at: usize) -> bool
    requires { at + 1 < length octets.now }
    ensures { IsTrue result ↔ IsHour octets.now at }
{
    octets[at] < b'2' || (octets[at] == b'2' && octets[at + 1] < b'4')
}

/// Returns whether two digits are a month (X.680, 46.2, 47.3).
#[tactic(auto, unfolding(crate::specs::Times::is_month))]
fn is_month(octets: &[u8], at: usize) -> bool
    requires { at + 1 < length octets.now }
    ensures { result ≡ is_month octets.now at }
{
    (octets[at] == b'0' && octets[at + 1] > b'0') || (octets[at] == b'1' && octets[at + 1] < b'3')
}

/// Returns whether two digits are a day of some month (X.680, 46.2, 47.3).
#[tactic(auto, unfolding(crate::specs::Times::is_day))]
fn is_day(octets: &[u8], at: usize) -> bool
    requires { at + 1 < length octets.now }
    ensures { result ≡ is_day octets.now at }
{
    (octets[at] == b'0' && octets[at + 1] > b'0')
        || octets[at] == b'1'
        || octets[at] == b'2'
        || (octets[at] == b'3' && octets[at + 1] < b'2')
}

/// Returns whether two digits are a minute, or a second, up to 59.
#[tactic(auto, unfolding(crate::specs::Times::is_minute))]
fn is_minute(octets: &[u8], at: usize) -> bool
    requires { at < length octets.now }
    ensures { result ≡ is_minute octets.now at }
{
    octets[at] < b'6'
}

/// Returns whether two digits are a second, of which the last is 60, a leap second.
#[tactic(auto, unfolding(crate::specs::Times::is_second))]
fn is_second(octets: &[u8], at: usize) -> bool
    requires { at + 1 < length octets.now }
    ensures { result ≡ is_second octets.now at }
{
    is_minute(octets, at) || (octets[at] == b'6' && octets[at + 1] == b'0')
}

/// Returns whether the octets are contents octets of a UTCTime in CER and DER (11.8).
pub(crate) fn is_utc_time(octets: &[u8]) -> bool
    ensures { IsTrue result ↔ IsUtcTime octets.now }
{
    octets.len() == 13
        && are_digits(octets, 0, 12)
        && is_month(octets, 2)
        && is_day(octets, 4)
        && is_hour(octets, 6)
        && is_minute(octets, 8)
        && is_minute(octets, 10)
        && octets[12] == b'Z'
}

/// Returns whether a fraction of a second and `Z` follow the first 14 octets (11.7.3, 11.7.4).
fn has_fraction(octets: &[u8]) -> bool
    ensures { IsTrue result ↔ HasFraction octets.now }
{
    let size = octets.len();
    size >= 17
        && octets[14] == b'.'
        && are_digits(octets, 15, size - 1)
        && octets[size - 2] != b'0'
        && octets[size - 1] == b'Z'
}

/// Returns whether the first 14 octets are followed as the seconds of a time are.
fn ends_time(octets: &[u8]) -> bool
    ensures { IsTrue result ↔ EndsTime octets.now }
{
    if octets.len() == 15 {
        octets[14] == b'Z'
    } else {
        has_fraction(octets)
    }
}

/// Returns whether the octets are contents octets of a GeneralizedTime in CER and DER (11.7).
pub(crate) fn is_generalized_time(octets: &[u8]) -> bool
    ensures { IsTrue result ↔ IsGeneralizedTime octets.now }
{
    octets.len() >= 15
        && are_digits(octets, 0, 14)
        && is_month(octets, 4)
        && is_day(octets, 6)
        && is_hour(octets, 8)
        && is_minute(octets, 10)
        && is_second(octets, 12)
        && ends_time(octets)
}

/// Returns whether `Z` is behind the first octets, and ends them.
fn has_z(octets: &[u8], at: usize) -> bool
    ensures { IsTrue result ↔ HasZ octets.now at }
{
    at < octets.len() && octets.len() - at == 1 && octets[at] == b'Z'
}

/// Returns whether a sign and so many digits of an hour and minutes are behind the first octets,
/// and end them.
fn has_difference(octets: &[u8], at: usize, digits: usize) -> bool
    requires { 2 ≤ digits }
    ensures { IsTrue result ↔ HasDifference octets.now at digits }
{
    if at >= octets.len() || octets.len() - at - 1 != digits {
        return false;
    }
    (octets[at] == b'+' || octets[at] == b'-')
        && are_digits(octets, at + 1, octets.len())
        && is_hour(octets, at + 1)
        && (digits == 2 || is_minute(octets, at + 3))
}

/// Returns whether `Z` or a difference is behind the first octets, and ends them.
fn ends_utc_time(octets: &[u8], at: usize) -> bool
    ensures { IsTrue result ↔ EndsUtcTime octets.now at }
{
    has_z(octets, at) || has_difference(octets, at, 4)
}

/// Returns whether ten digits are a date, an hour and a minute (X.680, 47.3 a, b).
fn is_utc_minute(octets: &[u8]) -> bool
    requires { 10 ≤ length octets.now }
    ensures { IsTrue result ↔ IsUtcMinute octets.now }
{
    is_month(octets, 2) && is_day(octets, 4) && is_hour(octets, 6) && is_minute(octets, 8)
}

/// Returns whether the octets are so many digits of a UTCTime and what may follow them.
fn is_utc_time_of(octets: &[u8], digits: usize) -> bool
    requires { 10 ≤ digits }
    ensures { IsTrue result ↔ IsUtcTimeOf octets.now digits }
{
    if digits > octets.len() {
        return false;
    }
    are_digits(octets, 0, digits) && is_utc_minute(octets) && ends_utc_time(octets, digits)
}

/// Returns whether the octets are contents octets of a UTCTime in BER (X.680, 47.3).
pub(crate) fn is_utc_time_in_ber(octets: &[u8]) -> bool
    ensures { IsTrue result ↔ IsUtcTimeInBer octets.now }
{
    is_utc_time_of(octets, 10)
        || (is_utc_time_of(octets, 12) && octets.len() > 12 && is_minute(octets, 10))
}

/// Returns whether a decimal mark and digits are at a place, up to another.
fn is_fraction(octets: &[u8], from: usize, to: usize) -> bool
    requires { to ≤ length octets.now }
    ensures { IsTrue result ↔ IsFraction octets.now from to }
{
    from < to
        && to - from >= 2
        && (octets[from] == b',' || octets[from] == b'.')
        && are_digits(octets, from + 1, to)
}

/// Returns whether the first octets are so many digits, with a fraction of the last unit or
/// without.
fn is_local_time_of(octets: &[u8], digits: usize, to: usize) -> bool
    requires { to ≤ length octets.now }
    ensures { IsTrue result ↔ IsLocalTimeOf octets.now digits to }
{
    digits <= to
        && are_digits(octets, 0, digits)
        && (digits == to || is_fraction(octets, digits, to))
}

/// Returns whether ten digits are a date and an hour (X.680, 46.2).
fn is_date_and_hour(octets: &[u8]) -> bool
    requires { 10 ≤ length octets.now }
    ensures { IsTrue result ↔ IsDateAndHour octets.now }
{
    is_month(octets, 4) && is_day(octets, 6) && is_hour(octets, 8)
}

/// Returns whether the first octets are a local time up to minutes (X.680, 46.2).
fn ends_in_minutes(octets: &[u8], to: usize) -> bool
    requires { to ≤ length octets.now }
    ensures { IsTrue result ↔ EndsInMinutes octets.now to }
{
    is_local_time_of(octets, 12, to) && is_minute(octets, 10)
}

/// Returns whether the first octets are a local time up to seconds (X.680, 46.2).
fn ends_in_seconds(octets: &[u8], to: usize) -> bool
    requires { to ≤ length octets.now }
    ensures { IsTrue result ↔ EndsInSeconds octets.now to }
{
    is_local_time_of(octets, 14, to) && is_minute(octets, 10) && is_second(octets, 12)
}

/// Returns whether the first octets are a local time (X.680, 46.3 a).
fn is_local_time(octets: &[u8], to: usize) -> bool
    requires { to ≤ length octets.now }
    ensures { IsTrue result ↔ IsLocalTime octets.now to }
{
    to >= 10
        && is_date_and_hour(octets)
        && (is_local_time_of(octets, 10, to)
            || ends_in_minutes(octets, to)
            || ends_in_seconds(octets, to))
}

/// Returns whether the octets are a local time and `Z` (X.680, 46.3 b).
fn is_time_with_z(octets: &[u8]) -> bool
    ensures { IsTrue result ↔ IsTimeWithZ octets.now }
{
    if octets.is_empty() {
        return false;
    }
    let before = octets.len() - 1;
    is_local_time(octets, before) && has_z(octets, before)
}

/// Returns whether the octets are a local time and a difference of so many digits (X.680, 46.3 c).
fn is_time_with_difference(octets: &[u8], digits: usize) -> bool
    requires { 2 ≤ digits }
    ensures { IsTrue result ↔ IsTimeWithDifference octets.now digits }
{
    if octets.len() <= digits {
        return false;
    }
    let before = octets.len() - (digits + 1);
    is_local_time(octets, before) && has_difference(octets, before, digits)
}

/// Returns whether the octets are contents octets of a GeneralizedTime in BER (X.680, 46.3).
pub(crate) fn is_generalized_time_in_ber(octets: &[u8]) -> bool
    ensures { IsTrue result ↔ IsGeneralizedTimeInBer octets.now }
{
    if is_local_time(octets, octets.len()) {
        return true;
    }
    if is_time_with_z(octets) {
        return true;
    }
    if is_time_with_difference(octets, 4) {
        return true;
    }
    is_time_with_difference(octets, 2)
}
