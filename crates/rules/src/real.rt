//! Contents octets of a REAL (X.690, 8.5, 11.3).
ghost use Rattle.std.specs.Prelude.{◌≡◌, ◌≢◌, ◌↔◌, ℕ, ◌+◌, ◌<◌, ◌≤◌, length, slice_index, IsTrue};
ghost use Rattle.rules.specs.Reals.{AreDigits, Begins, BeginsAboveZero, HasDigits, IsBinary};
ghost use Rattle.rules.specs.Reals.{IsDecimal, IsExponent, IsNumber, IsReal, IsShort, IsSpecial};
ghost use Rattle.rules.specs.Reals.{IsStrictBinary, IsStrictDecimal, IsStrictExponent};
ghost use Rattle.rules.specs.Reals.{IsStrictNumber, IsStrictReal, exponent_at, exponent_len};
ghost use Rattle.rules.specs.Reals.{number_at, past as past_meant, past_one as past_one_meant};
ghost use Rattle.rules.specs.Reals.{test_of};

/// A set of characters of a decimal encoding.
#[derive(Clone, Copy)]
pub(crate) enum Set {
    /// SPACE.
    Spaces,

    /// The digits.
    Digits,

    /// The digit 0 and the decimal marks.
    Zeros,

    /// PLUS SIGN and MINUS SIGN.
    Signs,

    /// MINUS SIGN.
    Minus,

    /// The decimal marks, FULL STOP and COMMA.
    Points,

    /// The exponent marks, E and e.
    Exponents,
}

/// Returns whether a set has an octet.
fn has(set: Set, octet: u8) -> bool
    ensures { result ≡ test_of set octet }
{
    match set {
        Set::Spaces => octet == b' ',
        Set::Digits => octet.is_ascii_digit(),
        Set::Zeros => octet == b'0' || octet == b'.' || octet == b',',
        Set::Signs => octet == b'+' || octet == b'-',
        Set::Minus => octet == b'-',
        Set::Points => octet == b'.' || octet == b',',
        Set::Exponents => octet == b'E' || octet == b'e',
    }
}

/// Returns the octets behind all of a set that come first.
fn past(set: Set, octets: &[u8]) -> &[u8]
    ensures { result.now ≡ past_meant set octets.now }
{
    let mut rest = octets;
    while let [first, behind @ ..] = rest {
        if !has(set, *first) {
            return rest;
        }
        rest = behind;
    }
    rest
}

/// Returns the octets behind one of a set, if it comes first.
fn past_one(set: Set, octets: &[u8]) -> &[u8]
    ensures { result.now ≡ past_one_meant set octets.now }
{
    match octets {
        [first, behind @ ..] => { if has(set, *first) { behind } else { octets } }
        [] => octets,
    }
}

/// Returns whether one of a set comes first.
fn begins(set: Set, octets: &[u8]) -> bool
    ensures { IsTrue result ↔ Begins set octets.now }
{
    past_one(set, octets).len() < octets.len()
}

/// Returns whether a digit other than 0 comes first.
fn begins_above_zero(octets: &[u8]) -> bool
    ensures { IsTrue result ↔ BeginsAboveZero octets.now }
{
    match octets {
        [first, ..] => *first >= b'1' && *first <= b'9',
        [] => false,
    }
}

/// Returns whether the octets are digits, and nothing else.
fn are_digits(octets: &[u8]) -> bool
    ensures { IsTrue result ↔ AreDigits octets.now }
{
    begins(Set::Digits, octets) && past(Set::Digits, octets).is_empty()
}

/// Returns whether there are digits before a decimal mark or behind it.
fn has_digits(octets: &[u8]) -> bool
    ensures { IsTrue result ↔ HasDigits octets.now }
{
    let fraction = past_one(Set::Points, past(Set::Digits, octets));
    begins(Set::Digits, octets) || begins(Set::Digits, fraction)
}

/// Returns whether the octets are an exponent.
fn is_exponent(octets: &[u8]) -> bool
    ensures { IsTrue result ↔ IsExponent octets.now }
{
    let exponent = past_one(Set::Signs, past_one(Set::Exponents, octets));
    begins(Set::Exponents, octets) && are_digits(exponent)
}

/// Returns whether the octets are an unsigned number in a form of ISO 6093.
fn is_number(form: u8, octets: &[u8]) -> bool
    ensures { IsTrue result ↔ IsNumber form octets.now }
{
    let point = past(Set::Digits, octets);
    let behind = past(Set::Digits, past_one(Set::Points, point));
    match form {
        1 => are_digits(octets),
        2 => has_digits(octets) && begins(Set::Points, point) && behind.is_empty(),
        3 => has_digits(octets) && is_exponent(behind),
        _ => false,
    }
}

/// Returns whether the octets are a decimal encoding (8.5.8).
fn is_decimal(octets: &[u8]) -> bool
    ensures { IsTrue result ↔ IsDecimal octets.now }
{
    let [form, field @ ..] = octets else {
        return false;
    };
    let number = past_one(Set::Signs, past(Set::Spaces, field));
    is_number(*form, number) && begins_above_zero(past(Set::Zeros, number))
}

/// Returns whether the octets are an exponent in CER and DER (11.3.2.6).
fn is_strict_exponent(octets: &[u8]) -> bool
    ensures { IsTrue result ↔ IsStrictExponent octets.now }
{
    if let [b'+', b'0'] = octets {
        return true;
    }
    let digits = past_one(Set::Minus, octets);
    begins_above_zero(digits) && past(Set::Digits, digits).is_empty()
}

/// Returns whether the octets are an unsigned number in CER and DER (11.3.2).
fn is_strict_number(octets: &[u8]) -> bool
    ensures { IsTrue result ↔ IsStrictNumber octets.now }
{
    if !begins_above_zero(octets) {
        return false;
    }
    let behind = past(Set::Digits, octets);
    let [point, mark, exponent @ ..] = behind else {
        return false;
    };
    if octets[octets.len() - behind.len() - 1] == b'0' || *point != b'.' || *mark != b'E' {
        return false;
    }
    is_strict_exponent(exponent)
}

/// Returns whether the octets are a decimal encoding in CER and DER (11.3.2).
fn is_strict_decimal(octets: &[u8]) -> bool
    ensures { IsTrue result ↔ IsStrictDecimal octets.now }
{
    let [form, field @ ..] = octets else {
        return false;
    };
    *form == 3 && is_strict_number(past_one(Set::Minus, field))
}

/// Returns whether the octets are a special value (8.5.9).
fn is_special(octets: &[u8]) -> bool
    ensures { IsTrue result ↔ IsSpecial octets.now }
{
    match octets {
        [value] => *value >= 0x40 && *value <= 0x43,
        _ => false,
    }
}

/// The octets of the exponent of a binary encoding: how many are before them, and their number.
#[derive(Clone, Copy)]
struct Exponent {
    at: usize,
    len: usize,
}

/// Returns where the exponent of a binary encoding is (8.5.7.4).
fn exponent_of(octets: &[u8]) -> Exponent
    requires { 0 < length octets.now }
    ensures at { result.at ≡ exponent_at octets.now }
    ensures len { result.len ≡ exponent_len octets.now }
    ensures few { result.at + result.len ≤ 257 }
{
    let format = octets[0] % 4;
    if format < 3 {
        return Exponent {
            at: 1,
            len: format as usize + 1,
        };
    }
    match octets {
        [_, len, ..] => Exponent {
            at: 2,
            len: *len as usize,
        },
        _ => Exponent { at: 2, len: 0 },
    }
}

/// Returns whether an exponent is of one octet, or its first nine bits aren't all equal.
fn is_short(octets: &[u8], exponent: Exponent) -> bool
    requires at { exponent.at ≡ exponent_at octets.now }
    requires len { exponent.len ≡ exponent_len octets.now }
    requires inside { exponent.at + exponent.len ≤ length octets.now }
    ensures { IsTrue result ↔ IsShort octets.now }
{
    if exponent.len < 2 {
        return true;
    }
    let first = octets[exponent.at];
    let second = octets[exponent.at + 1];
    !(first == 0x00 && second < 0x80) && !(first == 0xFF && second >= 0x80)
}

/// Returns whether an octet from a place on isn't zero.
fn is_positive(octets: &[u8], from: usize) -> bool
    ensures { IsTrue result ↔ ((i : ℕ) × (from ≤ i) × (i < length octets.now)
        × (slice_index octets.now i ≢ 0)) }
{
    for place in from..octets.len() {
        if octets[place] != 0 {
            return true;
        }
    }
    false
}

/// Returns whether the octets are a binary encoding (8.5.7).
fn is_binary(octets: &[u8]) -> bool
    ensures { IsTrue result ↔ IsBinary octets.now }
{
    if octets.is_empty() {
        return false;
    }
    let first = octets[0];
    let exponent = exponent_of(octets);
    if !is_positive(octets, exponent.at + exponent.len) {
        return false;
    }
    first >= 0x80
        && first / 16 % 4 != 3
        && exponent.len > 0
        && (first % 4 != 3 || is_short(octets, exponent))
}

/// Returns whether the octets are a binary encoding in CER and DER (11.3.1).
fn is_strict_binary(octets: &[u8]) -> bool
    ensures { IsTrue result ↔ IsStrictBinary octets.now }
{
    if !is_binary(octets) {
        return false;
    }
    let first = octets[0];
    let exponent = exponent_of(octets);
    first / 16 % 4 == 0
        && first / 4 % 4 == 0
        && is_short(octets, exponent)
        && (first % 4 != 3 || exponent.len >= 4)
        && octets[exponent.at + exponent.len] != 0
        && octets[octets.len() - 1] % 2 == 1
}

/// Returns whether the octets are contents octets of a REAL (8.5).
pub(crate) fn is_real(octets: &[u8]) -> bool
    ensures { IsTrue result ↔ IsReal octets.now }
{
    octets.is_empty() || is_special(octets) || is_binary(octets) || is_decimal(octets)
}

/// Returns whether the octets are contents octets of a REAL in CER and DER (11.3).
pub(crate) fn is_strict_real(octets: &[u8]) -> bool
    ensures { IsTrue result ↔ IsStrictReal octets.now }
{
    octets.is_empty() || is_special(octets) || is_strict_binary(octets) || is_strict_decimal(octets)
}
