//! What the contents octets of primitive values mean.
ghost use Rattle.std.specs.Prelude.{◌↔◌, IsTrue, MatchOption};
ghost use Rattle.std.specs.Int.{w64};
ghost use Rattle.bcder.specs.calls.Readers.{IsSigned, IsTruth, IsUnsigned};
ghost use Rattle.bcder.specs.x690.ObjectIdentifier.{IsComplete};
ghost use Rattle.encodings.specs.Contents.{HasSign};

use bcder::decode::{DecodeError, Primitive};
use bcder::{Mode, Oid};

/// Returns the value of a BOOLEAN with these contents octets, if they are such (X.690, 8.2, 11.1).
#[tactic(auto, using(bcder::specs::laws::Moved::steps))]
pub fn boolean_of(mode: Mode, octets: &[u8]) -> Option<bool>
    ensures { MatchOption result
        ((x : _) → IsTruth mode octets.now x → ⊥)
        (λ x. IsTruth mode octets.now x) }
{
    match Primitive::decode_slice(octets, mode, |octets| octets.to_bool()) {
        Ok(truth) => Some(truth),
        Err(DecodeError::Source(never)) => match never {},
        Err(_) => None,
    }
}

/// Returns the number of an INTEGER with these contents octets, if they are such (X.690, 8.3), and
/// an `i64` holds it.
#[tactic(auto, using(bcder::specs::laws::Moved::steps))]
pub fn i64_of(octets: &[u8]) -> Option<i64>
    ensures { MatchOption result
        ((x : _) → IsSigned w64 octets.now x → ⊥)
        (λ x. IsSigned w64 octets.now x) }
{
    match Primitive::decode_slice(octets, Mode::Der, |octets| octets.to_i64()) {
        Ok(number) => Some(number),
        Err(DecodeError::Source(never)) => match never {},
        Err(_) => None,
    }
}

/// Returns the number of an INTEGER with these contents octets, if they are such (X.690, 8.3), and
/// a `u64` holds it.
#[tactic(auto, using(bcder::specs::laws::Moved::steps))]
pub fn u64_of(octets: &[u8]) -> Option<u64>
    ensures { MatchOption result
        ((x : _) → IsUnsigned 64 octets.now x → ⊥)
        (λ x. IsUnsigned 64 octets.now x) }
{
    match Primitive::decode_slice(octets, Mode::Der, |octets| octets.to_u64()) {
        Ok(number) => Some(number),
        Err(DecodeError::Source(never)) => match never {},
        Err(_) => None,
    }
}

/// Returns whether the octets end with a subidentifier.
#[tactic(auto, using(bcder::specs::laws::Moved::steps))]
fn identifier_of(octets: &[u8]) -> Option<()>
    ensures { MatchOption result (IsComplete octets.now → ⊥) (λ x. IsComplete octets.now) }
{
    match Primitive::decode_slice(octets, Mode::Der, |octets| Oid::skip_primitive(octets)) {
        Ok(()) => Some(()),
        Err(DecodeError::Source(never)) => match never {},
        Err(_) => None,
    }
}

/// Returns whether the octets are contents octets of an OBJECT IDENTIFIER (X.690, 8.19).
pub fn is_object_identifier(octets: &[u8]) -> bool
    ensures { IsTrue result ↔ IsComplete octets.now }
{
    match identifier_of(octets) {
        Some(()) => true,
        None => false,
    }
}

/// Returns whether an INTEGER of any size with these contents octets is negative, if they are such
/// (X.690, 8.3).
///
/// ```text
/// sign_of(&[0xFF, 0x7F])   // Some(true): -129
/// sign_of(&[0x00, 0x7F])   // None: not in the fewest octets
/// ```
pub fn sign_of(octets: &[u8]) -> Option<bool>
    ensures { MatchOption result
        ((negative : _) → HasSign octets.now negative → ⊥)
        (λ negative. HasSign octets.now negative) }
{
    match octets {
        [] => None,
        [first] => Some(*first >= 0x80),
        [first, second, ..] => {
            if *first == 0x00 && *second < 0x80 {
                return None;
            }
            if *first == 0xFF && *second >= 0x80 {
                return None;
            }
            Some(*first >= 0x80)
        }
    }
}
