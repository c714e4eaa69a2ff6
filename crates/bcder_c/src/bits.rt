//! The contents octets of bit strings.
ghost use Rattle.std.specs.Prelude.{◌≡◌};
ghost use Rattle.bcder.specs.declared.mode.Mode.{Mode as ModeValue};
ghost use Rattle.bcder_c.specs.Results.{Found, unknown_rules};
ghost use Rattle.bcder_c.specs.Rules.{AreRules, AreUnknown};
ghost use Rattle.encodings.specs.Contents.{HasUnused};

use crate::rules::{UNKNOWN_RULES, mode_of};
use encodings::bits::unused_bits;
use encodings::status::{ABSENT, DONE};

/// Reads the contents octets of a BIT STRING (X.690, 8.6.2, 9.2, 11.2.1), and stores how many bits
/// of the last octet are unused. The bits are in the octets after the first.
#[unsafe(no_mangle)]
pub extern "C" fn bcder_bits(rules: u8, octets: &[u8], unused: &mut u8) -> u8
    ensures unknown { AreUnknown rules → (result ≡ unknown_rules) × (unused.new ≡ unused.old) }
    ensures read { (mode : ModeValue) → AreRules rules mode
        → Found (HasUnused mode octets.now) result unused.old unused.new }
{
    let Some(mode) = mode_of(rules) else {
        return UNKNOWN_RULES;
    };
    match unused_bits(mode, octets) {
        Some(read) => {
            *unused = read;
            DONE
        }
        None => ABSENT,
    }
}
