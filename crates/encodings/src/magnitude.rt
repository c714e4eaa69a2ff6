//! The octets of an integer without its sign.
ghost use Rattle.std.specs.Prelude.{◌≡◌, ◌≤◌, ◌++◌, length, drop, take};
ghost use Rattle.encodings.specs.Buffers.{Stores};
ghost use Rattle.encodings.specs.Contents.{IsMagnitude};
ghost use Rattle.encodings.specs.Negated.{all_zero, negated, signless};
ghost use Rattle.encodings.specs.Negated.{negated_octet as other_octet, without_lead as digits_of};

use crate::contents::sign_of;
use crate::status::{ABSENT, DONE, TOO_SMALL};

/// Returns whether all octets are zero.
fn are_zero(octets: &[u8]) -> bool
    ensures { result ≡ all_zero octets.now }
{
    let mut rest = octets;
    while let [first, after @ ..] = rest {
        if *first != 0 {
            return false;
        }
        rest = after;
    }
    true
}

/// Returns an octet of the number with the other sign. `zeros` is whether all after it are zero.
fn negated_octet(zeros: bool, octet: u8) -> u8
    ensures { result ≡ other_octet zeros octet }
{
    if !zeros {
        return 255 - octet;
    }
    if octet == 0 { 0 } else { 255 - (octet - 1) }
}

/// Replaces the octets at the front by those of the number with the other sign.
fn negate(octets: &mut [u8], len: usize)
    requires { len ≤ length octets.old }
    ensures { octets.new ≡ negated (take len octets.old) ++ drop len octets.old }
{
    let mut zeros = true;
    let mut at = len;
    while at > 0 {
        at -= 1;
        let octet = octets[at];
        octets[at] = negated_octet(zeros, octet);
        zeros = zeros && octet == 0;
    }
}

/// Returns contents octets of an integer, without a leading one that only tells the sign.
fn without_lead(negative: bool, octets: &[u8]) -> &[u8]
    ensures { result.now ≡ digits_of negative octets.now }
{
    let [lead, rest @ ..] = octets else {
        return octets;
    };
    if negative {
        if *lead == 0xFF && !are_zero(rest) {
            rest
        } else {
            octets
        }
    } else if *lead == 0 {
        rest
    } else {
        octets
    }
}

/// Stores digits at the front of a buffer, of the number with the other sign if it is negative.
fn put(negative: bool, digits: &[u8], buffer: &mut [u8])
    requires { length digits.now ≤ length buffer.old }
    ensures { buffer.new ≡ signless negative digits.now ++ drop (length digits.now) buffer.old }
{
    let len = digits.len();
    buffer[..len].copy_from_slice(digits);
    if negative {
        negate(buffer, len);
    }
}

/// Stores the magnitude of an INTEGER of any size (X.690, 8.3) with these contents octets: the
/// octets of the number without its sign, the most significant first, as few as there can be, none
/// for 0. They are stored at the front of a buffer that has room for them. `size` is their number,
/// also if it has no room. The status is `DONE`, `TOO_SMALL` or `ABSENT`.
///
/// ```text
/// store_magnitude(&[0xFF, 0x7F], &mut buffer, &mut size)   // 81: the number is -129
/// ```
pub fn store_magnitude(octets: &[u8], buffer: &mut [u8], size: &mut usize) -> u8
    ensures { Stores (IsMagnitude octets.now) result buffer.old buffer.new size.old size.new }
{
    let Some(negative) = sign_of(octets) else {
        return ABSENT;
    };
    let digits = without_lead(negative, octets);
    *size = digits.len();
    if digits.len() > buffer.len() {
        return TOO_SMALL;
    }
    put(negative, digits, buffer);
    DONE
}
