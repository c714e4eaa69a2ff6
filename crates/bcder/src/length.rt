//! Length octets and end-of-contents octets (X.690, 8.1.3, 8.1.5, 9.1, 10.1).
ghost use Rattle.std.specs.Prelude.{◌≡◌, ℕ, ◌<◌, ◌≤◌, Bool, List, ◌++◌, length};
ghost use Rattle.std.specs.Prelude.{Some, None, IsSome, IsNone, IfSome, MatchOption};
ghost use Rattle.bcder.specs.x690.Broken.{EndsInLength};
ghost use Rattle.bcder.specs.x690.Identifier.{Tag as TagValue, IsTag, identifier};
ghost use Rattle.bcder.specs.calls.Violations.{ViolatesFront};
ghost use Rattle.bcder.specs.steps.Answers.{Answers};
ghost use Rattle.bcder.specs.x690.Length.{big_endian};
ghost use Rattle.bcder.specs.steps.Reading.{least, may_tell, read_length, read_long, read_end};

use crate::decode::Violation;
use crate::mode::Mode;

pub(crate) mod write;

/// The meaning of length octets.
#[derive(Clone, Copy, PartialEq, Eq)]
pub(crate) enum Length {
    /// The number of contents octets (8.1.3.3).
    Definite(usize),

    /// The contents octets end with end-of-contents octets (8.1.3.6).
    Indefinite,
}

/// Returns the big-endian number of at most four octets.
fn number_of(octets: &[u8]) -> usize
    requires { length octets.now ≤ 4 }
    ensures value { result ≡ big_endian octets.now }
{
    match octets {
        [] => 0,
        [a] => usize::from(*a),
        [a, b] => usize::from(*a) * 0x100 + usize::from(*b),
        [a, b, c] => usize::from(*a) * 0x10000 + usize::from(*b) * 0x100 + usize::from(*c),
        [a, b, c, d, ..] => usize::from(*a) * 0x1000000
            + usize::from(*b) * 0x10000
            + usize::from(*c) * 0x100
            + usize::from(*d),
    }
}

/// Returns whether a length may have `count` octets: in CER and DER only if no fewer suffice (9.1,
/// 10.1).
#[tactic(auto, using(crate::proofs::nat_tests), unfolding(crate::specs::steps::Reading::may_tell))]
fn may_tell(mode: Mode, count: usize, len: usize) -> bool
    requires some { 1 ≤ count }
    requires limit { count ≤ 4 }
    ensures { result ≡ may_tell mode count len }
{
    if mode == Mode::Ber {
        return true;
    }
    match count {
        1 => len >= 0x80,
        2 => len >= 0x100,
        3 => len >= 0x10000,
        _ => len >= 0x1000000,
    }
}

/// Returns the length that the first `count` octets mean, and the octets that follow (8.1.3.5).
#[tactic(auto, using(crate::proofs::nat_tests), unfolding(crate::specs::steps::Reading::read_long))]
fn long_at(mode: Mode, count: usize, octets: &[u8]) -> Option<(Length, &[u8])>
    requires { 1 ≤ count }
    ensures { Answers result (read_long mode count octets.now) }
{
    if count > 4 {
        return None;
    }
    if octets.len() < count {
        return None;
    }
    let (digits, rest) = octets.split_at(count);
    let len = number_of(digits);
    if may_tell(mode, count, len) {
        Some((Length::Definite(len), rest))
    } else {
        None
    }
}

/// Reads length octets, and returns the length and the octets that follow.
#[tactic(auto, using(crate::proofs::nat_tests), unfolding(crate::specs::steps::Reading::read_length))]
#[inline(always)]
pub(crate) fn length_at(mode: Mode, octets: &[u8]) -> Option<(Length, &[u8])>
    ensures { Answers result (read_length mode octets.now) }
{
    match octets {
        [] => None,
        [first, rest @ ..] => {
            if *first < 0x80 {
                Some((Length::Definite(usize::from(*first)), rest))
            } else if *first == 0x80 {
                Some((Length::Indefinite, rest))
            } else {
                long_at(mode, usize::from(*first - 0x80), rest)
            }
        }
    }
}

/// Returns what octets violate that don't begin with length octets, or `None` if they may be the
/// beginning of some. This holds whatever identifier octets come before them.
#[tactic(auto, using(crate::proofs::Violations::length_violated))]
pub(crate) fn length_violation(mode: Mode, octets: &[u8]) -> Option<Violation>
    requires { read_length mode octets.now ≡ None }
    ensures short { IsNone result → length octets.now < 5 }
    ensures ends { IsNone result → EndsInLength octets.now }
    ensures refused { IsSome result
        → (x : List ℕ) → read_length mode (octets.now ++ x) ≡ None }
    ensures violates { IfSome result (λ v. (t : TagValue) (f : Bool) (w x : List ℕ)
        → IsTag t → w ≡ identifier t f ++ (octets.now ++ x) → ViolatesFront mode w v) }
{
    match octets {
        [] => None,
        [first, digits @ ..] => {
            if *first == 0xFF {
                Some(Violation::ReservedLength)
            } else if *first > 0x84 {
                Some(Violation::LengthTooLarge)
            } else if digits.len() + 0x80 < usize::from(*first) {
                None
            } else {
                Some(Violation::LengthNotFewest)
            }
        }
    }
}

/// Returns the octets after the end-of-contents octets that come first.
#[tactic(auto, unfolding(crate::specs::steps::Reading::read_end))]
pub(crate) fn after_end(mode: Mode, octets: &[u8]) -> Option<&[u8]>
    ensures { MatchOption result
        (read_end mode octets.now ≡ None)
        (λ r. read_end mode octets.now ≡ Some r.now) }
{
    match octets {
        [0, rest @ ..] => match length_at(mode, rest) {
            Some((Length::Definite(0), rest)) => Some(rest),
            _ => None,
        },
        _ => None,
    }
}
