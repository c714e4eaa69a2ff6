//! Numbers in digits.
ghost use Rattle.std.specs.Prelude.{◌≡◌, ℕ, ◌+◌, ◌/◌, ◌%◌, ◌^◌, ◌<◌, ◌≤◌, ◌++◌, length};
ghost use Rattle.civil.specs.Octets.{digits};

use crate::octets::Octets;

/// Returns the number below 100 that two digits are, or any number if they aren't digits.
pub(crate) fn number(tens: u8, ones: u8) -> u8
    ensures { (n : ℕ) → n < 100 → tens ≡ 48 + n / 10 → ones ≡ 48 + n % 10 → result ≡ n }
{
    if tens < b'0' || tens > b'9' || ones < b'0' || ones > b'9' {
        return u8::MAX;
    }
    10 * (tens - b'0') + (ones - b'0')
}

/// Returns the number of so many digits, of which those behind the last that isn't 0 are left out,
/// or any number if they aren't that.
pub(crate) fn leading(count: u32, octets: &[u8]) -> u32
    requires { count ≤ 9 }
    ensures { (n : ℕ) → n < 10 ^ count → octets.now ≡ digits count n → result ≡ n }
{
    match octets {
        [first, rest @ ..] if count > 0 => {
            let unit = 10u32.pow(count - 1);
            let digit = u32::from(first.saturating_sub(b'0'));
            let behind = leading(count - 1, rest);
            digit.saturating_mul(unit).saturating_add(behind)
        }
        _ => 0,
    }
}

/// Appends the number in so many digits, up to the last that isn't 0.
pub(crate) fn put_leading(octets: &mut Octets, count: u32, number: u32)
    requires fits { number < 10 ^ count }
    requires few { count ≤ 9 }
    requires room { length octets.old + count ≤ 25 }
    ensures appended { octets.new ≡ octets.old ++ digits count number }
    ensures few { length octets.new ≤ length octets.old + count }
{
    if number == 0 {
        return;
    }
    let unit = 10u32.pow(count - 1);
    octets.push(b'0' + (number / unit) as u8);
    put_leading(octets, count - 1, number % unit);
}
