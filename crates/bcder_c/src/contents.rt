//! What the contents octets of primitive values mean.
ghost use Rattle.std.specs.Prelude.{◌≡◌, []};
ghost use Rattle.std.specs.Int.{w64};
ghost use Rattle.bcder.specs.calls.Readers.{IsSigned, IsTruth, IsUnsigned};
ghost use Rattle.bcder.specs.declared.mode.Mode.{Mode as ModeValue};
ghost use Rattle.bcder.specs.x690.ObjectIdentifier.{IsComplete};
ghost use Rattle.bcder_c.specs.Results.{Found, Holds, unknown_rules};
ghost use Rattle.bcder_c.specs.Rules.{AreRules, AreUnknown};
ghost use Rattle.encodings.specs.Contents.{HasSign};

use crate::rules::{UNKNOWN_RULES, mode_of};
use encodings::contents::{boolean_of, i64_of, is_object_identifier, sign_of, u64_of};
use encodings::status::{ABSENT, DONE};

/// Reads the contents octets of a BOOLEAN (X.690, 8.2, 11.1).
#[unsafe(no_mangle)]
pub extern "C" fn bcder_bool(rules: u8, octets: &[u8], truth: &mut bool) -> u8
    ensures unknown { AreUnknown rules → (result ≡ unknown_rules) × (truth.new ≡ truth.old) }
    ensures read { (mode : ModeValue) → AreRules rules mode
        → Found (IsTruth mode octets.now) result truth.old truth.new }
{
    let Some(mode) = mode_of(rules) else {
        return UNKNOWN_RULES;
    };
    match boolean_of(mode, octets) {
        Some(read) => {
            *truth = read;
            DONE
        }
        None => ABSENT,
    }
}

/// Checks the contents octets of a NULL, which has none (X.690, 8.8.2).
#[unsafe(no_mangle)]
pub extern "C" fn bcder_null(octets: &[u8]) -> u8
    ensures { Holds (octets.now ≡ []) result }
{
    if octets.is_empty() { DONE } else { ABSENT }
}

/// Reads the contents octets of an INTEGER (X.690, 8.3) that an `i64` holds.
#[unsafe(no_mangle)]
pub extern "C" fn bcder_i64(octets: &[u8], number: &mut i64) -> u8
    ensures { Found (IsSigned w64 octets.now) result number.old number.new }
{
    match i64_of(octets) {
        Some(read) => {
            *number = read;
            DONE
        }
        None => ABSENT,
    }
}

/// Reads the contents octets of an INTEGER (X.690, 8.3) that a `u64` holds.
#[unsafe(no_mangle)]
pub extern "C" fn bcder_u64(octets: &[u8], number: &mut u64) -> u8
    ensures { Found (IsUnsigned 64 octets.now) result number.old number.new }
{
    match u64_of(octets) {
        Some(read) => {
            *number = read;
            DONE
        }
        None => ABSENT,
    }
}

/// Checks the contents octets of an OBJECT IDENTIFIER (X.690, 8.19).
#[unsafe(no_mangle)]
pub extern "C" fn bcder_oid(octets: &[u8]) -> u8
    ensures { Holds (IsComplete octets.now) result }
{
    if is_object_identifier(octets) {
        DONE
    } else {
        ABSENT
    }
}

/// Checks the contents octets of an INTEGER of any size (X.690, 8.3), and stores whether it is
/// negative.
#[unsafe(no_mangle)]
pub extern "C" fn bcder_integer(octets: &[u8], negative: &mut bool) -> u8
    ensures { Found (HasSign octets.now) result negative.old negative.new }
{
    match sign_of(octets) {
        Some(read) => {
            *negative = read;
            DONE
        }
        None => ABSENT,
    }
}
