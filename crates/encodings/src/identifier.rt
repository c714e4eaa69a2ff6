//! The text of object identifiers (X.690, 8.19).
ghost use Rattle.std.specs.Prelude.{◌≡◌, ◌+◌, ◌^◌, ◌<◌, ◌≤◌, ◌++◌, [], ◌∷◌, List, ℕ, map};
ghost use Rattle.std.specs.Prelude.{MatchOption, codes, decimal};
ghost use Rattle.bcder.specs.calls.Identifiers.{dotted};
ghost use Rattle.bcder.specs.x690.ObjectIdentifier.{components_of};
ghost use Rattle.encodings.specs.Buffers.{IsAtFront, Stores};
ghost use Rattle.encodings.specs.Identifiers.{BeginsWithNoNumber, BeginsWithNumber, HasText};

use crate::buffer::append;
use crate::status::{ABSENT, DONE, TOO_SMALL};

/// More octets than any identifier has, so that a `usize` can count the characters of its text.
const TOO_MANY: usize = 1 << 58;

/// A number that is too large if an octet follows.
const LARGE: u128 = 1 << 121;

/// Returns the number of the first subidentifier, and the octets after it, if it is below 2^128.
fn first_number(octets: &[u8]) -> Option<(u128, &[u8])>
    ensures { MatchOption result
        (BeginsWithNoNumber octets.now)
        (λ r. BeginsWithNumber octets.now r.0 r.1.now) }
{
    let mut high = 0u128;
    let mut rest = octets;
    while let [octet, after @ ..] = rest {
        if high >= LARGE {
            return None;
        }
        high = 128 * high + u128::from(*octet % 128);
        rest = after;
        if *octet < 0x80 {
            return Some((high, rest));
        }
    }
    None
}

/// Appends a number in decimal.
fn append_decimal(buffer: &mut [u8], at: &mut usize, number: u128)
    requires { at.old + 39 < 2 ^ 64 }
    ensures text { (first w : List ℕ) → IsAtFront w first buffer.old at.old
        → IsAtFront (w ++ decimal number) first buffer.new at.new }
    ensures bound { at.new ≤ at.old + 39 }
{
    let mut digits = [0u8; 39];
    let mut start = 39;
    let mut rest = number;
    while rest >= 10 {
        start -= 1;
        digits[start] = 48 + (rest % 10) as u8;
        rest /= 10;
    }
    start -= 1;
    digits[start] = 48 + rest as u8;
    append(buffer, at, &digits[start..]);
}

/// Appends a dot and a number in decimal.
fn append_component(buffer: &mut [u8], at: &mut usize, number: u128)
    requires { at.old + 40 < 2 ^ 64 }
    ensures text { (first w : List ℕ) → IsAtFront w first buffer.old at.old
        → IsAtFront ((w ++ codes ".") ++ decimal number) first buffer.new at.new }
    ensures bound { at.new ≤ at.old + 40 }
{
    append(buffer, at, &[b'.']);
    append_decimal(buffer, at, number);
}

/// Appends the two components that the first subidentifier holds (X.690, 8.19.4).
fn append_two(buffer: &mut [u8], number: u128) -> usize
    ensures text { IsAtFront (dotted (map decimal (components_of (number ∷ []))))
        buffer.old buffer.new result }
    ensures bound { result ≤ 79 }
{
    let mut at = 0;
    if number < 40 {
        append_decimal(buffer, &mut at, 0);
        append_component(buffer, &mut at, number);
    } else if number < 80 {
        append_decimal(buffer, &mut at, 1);
        append_component(buffer, &mut at, number - 40);
    } else {
        append_decimal(buffer, &mut at, 2);
        append_component(buffer, &mut at, number - 80);
    }
    at
}

/// Appends the text of an identifier, and returns the number of its characters.
fn write_text(octets: &[u8], buffer: &mut [u8]) -> Option<usize>
    ensures { MatchOption result
        ((t : List ℕ) → HasText octets.now t → ⊥)
        (λ n. (t : List ℕ) × HasText octets.now t × IsAtFront t buffer.old buffer.new n) }
{
    if octets.len() >= TOO_MANY {
        return None;
    }
    let Some((number, after)) = first_number(octets) else {
        return None;
    };
    let mut at = append_two(buffer, number);
    let mut rest = after;
    while !rest.is_empty() {
        match first_number(rest) {
            Some((number, after)) => {
                append_component(buffer, &mut at, number);
                rest = after;
            }
            None => return None,
        }
    }
    Some(at)
}

/// Stores the text of an OBJECT IDENTIFIER (X.690, 8.19) with these contents octets: its components
/// in decimal, joined by dots. It is stored at the front of a buffer that has room for it. `size`
/// is the number of its characters, also if there is no room.
///
/// A subidentifier has to be below 2^128. The status is `DONE`, `TOO_SMALL` or `ABSENT`.
///
/// ```text
/// store_text(&[0x55, 0x04, 0x03], &mut buffer, &mut size)   // 2.5.4.3
/// ```
pub fn store_text(octets: &[u8], buffer: &mut [u8], size: &mut usize) -> u8
    ensures { Stores (HasText octets.now) result buffer.old buffer.new size.old size.new }
{
    let mut nowhere = [0u8; 0];
    match write_text(octets, &mut nowhere) {
        Some(len) => {
            *size = len;
            if len > buffer.len() {
                return TOO_SMALL;
            }
            match write_text(octets, buffer) {
                Some(_) => DONE,
                None => ABSENT,
            }
        }
        None => ABSENT,
    }
}
