//! What the octets of decimal numbers mean.
ghost use Rattle.std.specs.Prelude.{◌≡◌, ℕ, ℤ, pos, ◌+◌, ◌*◌, ◌^◌, ◌<◌, ◌≤◌, ◌⊎◌, List, ◌++◌};
ghost use Rattle.std.specs.Prelude.{length, negsuc, ◌≤ℤ◌, ◌+ℤ◌, MatchOption, IfSome};
ghost use Rattle.std.specs.Bool.{Decides};
ghost use Rattle.std.specs.Int.{w32};
ghost use Rattle.std.specs.Int.RustNames.{FitsSigned};
ghost use Rattle.std.specs.List.{prefix_len};
ghost use Rattle.real.specs.Number.{DecimalNumber};
ghost use Rattle.real.specs.Decimal.{is_digit, AreDigits, number, number_from, with_sign};
ghost use Rattle.real.specs.Decimal.{IsExponent, IsScale, IsMarked, IsTail, IsDecimal};
ghost use Rattle.real.specs.Scan.{is_space, is_minus, behind_sign, unspaced, whole_of, tail_of};
ghost use Rattle.real.specs.Scan.{IsStripped, IsTooLarge, IsMantissa};

use crate::decimal::Decimal;

/// Returns how many spaces stand first.
fn spaces(octets: &[u8]) -> usize
    ensures same { result ≡ prefix_len is_space octets.now }
    ensures few { result ≤ length octets.now }
{
    for (count, octet) in octets.iter().enumerate() {
        if *octet != b' ' {
            return count;
        }
    }
    octets.len()
}

/// Returns how many digits stand first.
fn digits(octets: &[u8]) -> usize
    ensures same { result ≡ prefix_len is_digit octets.now }
    ensures few { result ≤ length octets.now }
{
    for (count, octet) in octets.iter().enumerate() {
        if *octet < b'0' || *octet > b'9' {
            return count;
        }
    }
    octets.len()
}

/// Returns whether a minus sign stands first, and what stands behind a sign, if there is one.
fn sign(octets: &[u8]) -> (bool, &[u8])
    ensures sign { result.0 ≡ is_minus octets.now }
    ensures rest { result.1.now ≡ behind_sign octets.now }
{
    match octets {
        [b'+', rest @ ..] => (false, rest),
        [b'-', rest @ ..] => (true, rest),
        _ => (false, octets),
    }
}

/// Returns the number that digits are, if it has at most 32 bits.
fn number(octets: &[u8]) -> Option<u32>
    ensures { MatchOption result (2 ^ 32 ≤ number octets.now)
        (λ r. (r ≡ number octets.now) × (r < 2 ^ 32)) }
{
    let mut number = 0u64;
    for octet in octets {
        number = number * 10 + u64::from(octet.saturating_sub(b'0'));
        if number > 0xFFFF_FFFF {
            return None;
        }
    }
    Some(number as u32)
}

/// Returns the number that octets are, if they are digits and it has at most 32 bits.
fn exponent(octets: &[u8]) -> Option<u32>
    ensures { MatchOption result ((n : ℕ) → IsExponent octets.now n → ⊥)
        (λ n. IsExponent octets.now n) }
{
    if octets.is_empty() {
        return None;
    }
    if digits(octets) < octets.len() {
        return None;
    }
    number(octets)
}

/// Returns whether an octet is "E" or "e".
fn is_letter(octet: u8) -> bool
    ensures { Decides result ((octet ≡ 0x45) ⊎ (octet ≡ 0x65)) }
{
    octet == b'E' || octet == b'e'
}

/// Returns whether an octet is a decimal mark.
fn is_mark(octet: u8) -> bool
    ensures { Decides result ((octet ≡ 0x2E) ⊎ (octet ≡ 0x2C)) }
{
    octet == b'.' || octet == b','
}

/// Returns a number, or its negative.
fn with_sign(negative: bool, number: u32) -> i64
    ensures same { result ≡ with_sign negative number }
    ensures low { negsuc 4294967295 ≤ℤ result }
    ensures high { result ≤ℤ pos 4294967295 }
{
    if negative {
        -i64::from(number)
    } else {
        i64::from(number)
    }
}

/// Returns the exponent that a scale is.
fn scale(octets: &[u8]) -> Option<i64>
    ensures same { MatchOption result ((z : ℤ) → IsScale octets.now z → ⊥)
        (λ z. IsScale octets.now z) }
    ensures low { IfSome result (λ z. negsuc 4294967295 ≤ℤ z) }
    ensures high { IfSome result (λ z. z ≤ℤ pos 4294967295) }
{
    let [letter, rest @ ..] = octets else {
        return None;
    };
    if !is_letter(*letter) {
        return None;
    }
    let (negative, rest) = sign(rest);
    let Some(number) = exponent(rest) else {
        return None;
    };
    Some(with_sign(negative, number))
}

/// Returns the digits behind a decimal mark, and the exponent that the scale behind them is.
fn marked(form: u8, octets: &[u8]) -> Option<(&[u8], i64)>
    ensures same { MatchOption result
        ((w : List ℕ) (z : ℤ) → IsMarked form octets.now w z → ⊥)
        (λ r. IsMarked form octets.now r.0.now r.1) }
    ensures low { IfSome result (λ r. negsuc 4294967295 ≤ℤ r.1) }
    ensures high { IfSome result (λ r. r.1 ≤ℤ pos 4294967295) }
{
    let [mark, rest @ ..] = octets else {
        return None;
    };
    if !is_mark(*mark) {
        return None;
    }
    let count = digits(rest);
    if form == 3 {
        let Some(exponent) = scale(&rest[count..]) else {
            return None;
        };
        return Some((&rest[..count], exponent));
    }
    if form != 2 {
        return None;
    }
    if count < rest.len() {
        return None;
    }
    Some((rest, 0))
}

/// Returns the digits behind the mark and the exponent of the scale, as far as the form has them.
fn tail(form: u8, octets: &[u8]) -> Option<(&[u8], i64)>
    ensures same { MatchOption result
        ((w : List ℕ) (z : ℤ) → IsTail form octets.now w z → ⊥)
        (λ r. IsTail form octets.now r.0.now r.1) }
    ensures low { IfSome result (λ r. negsuc 4294967295 ≤ℤ r.1) }
    ensures high { IfSome result (λ r. r.1 ≤ℤ pos 4294967295) }
{
    if form != 1 {
        return marked(form, octets);
    }
    if octets.is_empty() {
        Some((octets, 0))
    } else {
        None
    }
}

/// Returns a number times ten to the power of a count, if it has at most 64 bits.
fn raised(number: u64, count: usize) -> Option<u64>
    requires { 0 < number }
    ensures { MatchOption result (2 ^ 64 ≤ number * 10 ^ count)
        (λ r. r ≡ number * 10 ^ count) }
{
    if count == 0 {
        return Some(number);
    }
    if number > 0x1999_9999_9999_9999 {
        return None;
    }
    raised(number * 10, count - 1)
}

/// Returns a number with a digit behind it, if it has at most 64 bits without the zeros at its
/// end. Both numbers are given without these, and with how many they are.
fn with_digit(number: u64, zeros: usize, digit: u8) -> Option<(u64, usize)>
    requires stripped { IsStripped (number * 10 ^ zeros) number zeros }
    requires digit { digit < 10 }
    requires room { zeros + 1 < 2 ^ 64 }
    ensures same { MatchOption result (IsTooLarge (number * 10 ^ zeros * 10 + digit))
        (λ r. IsStripped (number * 10 ^ zeros * 10 + digit) r.0 r.1) }
    ensures few { IfSome result (λ r. r.1 ≤ zeros + 1) }
{
    if number == 0 {
        return Some((u64::from(digit), 0));
    }
    if digit == 0 {
        return Some((number, zeros + 1));
    }
    let Some(front) = raised(number, zeros + 1) else {
        return None;
    };
    if front > 0xFFFF_FFFF_FFFF_FFFF - u64::from(digit) {
        return None;
    }
    Some((front + u64::from(digit), 0))
}

/// Returns a number with digits behind it, if it has at most 64 bits without the zeros at its
/// end. Both numbers are given without these, and with how many they are.
fn with_digits(number: u64, zeros: usize, octets: &[u8]) -> Option<(u64, usize)>
    requires stripped { IsStripped (number * 10 ^ zeros) number zeros }
    requires digits { AreDigits octets.now }
    requires room { zeros + length octets.now < 2 ^ 64 }
    ensures same { MatchOption result (IsTooLarge (number_from (number * 10 ^ zeros) octets.now))
        (λ r. IsStripped (number_from (number * 10 ^ zeros) octets.now) r.0 r.1) }
    ensures few { IfSome result (λ r. r.1 ≤ zeros + length octets.now) }
{
    let mut number = number;
    let mut zeros = zeros;
    for octet in octets {
        let Some(more) = with_digit(number, zeros, *octet - b'0') else {
            return None;
        };
        number = more.0;
        zeros = more.1;
    }
    Some((number, zeros))
}

/// Returns the number of the digits before and behind a mark without the zeros at its end, and
/// how many these are, if it isn't zero and has at most 64 bits.
fn mantissa(whole: &[u8], fraction: &[u8]) -> Option<(u64, usize)>
    requires whole { AreDigits whole.now }
    requires fraction { AreDigits fraction.now }
    ensures { MatchOption result
        ((m power : ℕ) → IsMantissa (whole.now ++ fraction.now) m power → ⊥)
        (λ r. IsMantissa (whole.now ++ fraction.now) r.0 r.1) }
{
    let Some((number, zeros)) = with_digits(0, 0, whole) else {
        return None;
    };
    let Some((number, zeros)) = with_digits(number, zeros, fraction) else {
        return None;
    };
    if number == 0 {
        return None;
    }
    Some((number, zeros))
}

/// Returns the exponent with the power of ten that is taken out of the digits' number, and
/// without the digits behind the mark, if it has 32 bits.
pub(crate) fn shifted(scale: i64, power: u64, places: u64) -> Option<i32>
    requires low { negsuc 4294967295 ≤ℤ scale }
    requires high { scale ≤ℤ pos 4294967295 }
    ensures { MatchOption result
        ((z : ℤ) → FitsSigned w32 z → z +ℤ pos places ≡ scale +ℤ pos power → ⊥)
        (λ r. r +ℤ pos places ≡ scale +ℤ pos power) }
{
    let exponent = i128::from(scale) + i128::from(power) - i128::from(places);
    if exponent < -0x8000_0000 || exponent > 0x7FFF_FFFF {
        return None;
    }
    Some(exponent as i32)
}

/// Returns whether the number is negative, the digits in front, and what stands behind them.
fn front(octets: &[u8]) -> (bool, &[u8], &[u8])
    ensures negative { result.0 ≡ is_minus (unspaced octets.now) }
    ensures whole { result.1.now ≡ whole_of octets.now }
    ensures tail { result.2.now ≡ tail_of octets.now }
{
    let (negative, body) = sign(&octets[spaces(octets)..]);
    let count = digits(body);
    (negative, &body[..count], &body[count..])
}

/// Returns the decimal number that octets mean in a form.
pub(crate) fn decimal(form: u8, octets: &[u8]) -> Option<Decimal>
    ensures { MatchOption result ((x : DecimalNumber) → IsDecimal form octets.now x → ⊥)
        (λ x. IsDecimal form octets.now x) }
{
    let (negative, whole, rest) = front(octets);
    let Some((fraction, scale)) = tail(form, rest) else {
        return None;
    };
    let Some((mantissa, power)) = mantissa(whole, fraction) else {
        return None;
    };
    let Some(exponent) = shifted(scale, power as u64, fraction.len() as u64) else {
        return None;
    };
    Some(Decimal::of_parts(negative, mantissa, exponent))
}
