//! The header of a value and the end-of-contents octets, at the front of octets.
ghost use Rattle.std.specs.Prelude.{◌≡◌};
ghost use Rattle.bcder.specs.declared.mode.Mode.{Mode as ModeValue};
ghost use Rattle.bcder_c.specs.Results.{Found, unknown_rules};
ghost use Rattle.bcder_c.specs.Rules.{AreRules, AreUnknown};
ghost use Rattle.encodings.specs.Headings.{BeginsWith, BeginsWithEnd};

use crate::rules::{UNKNOWN_RULES, mode_of};
use encodings::heading::{Heading, end_of_contents_at, heading_at};
use encodings::status::{ABSENT, DONE};

/// Reads the header of the value at the front of the octets (X.690, 8.1.2, 8.1.3).
#[unsafe(no_mangle)]
pub extern "C" fn bcder_heading(rules: u8, octets: &[u8], heading: &mut Heading) -> u8
    ensures unknown { AreUnknown rules
        → (result ≡ unknown_rules) × (heading.new ≡ heading.old) }
    ensures read { (mode : ModeValue) → AreRules rules mode
        → Found (BeginsWith mode octets.now) result heading.old heading.new }
{
    let Some(mode) = mode_of(rules) else {
        return UNKNOWN_RULES;
    };
    match heading_at(mode, octets) {
        Some(read) => {
            *heading = read;
            DONE
        }
        None => ABSENT,
    }
}

/// Reads the end-of-contents octets at the front of the octets (X.690, 8.1.5), and stores their
/// number.
#[unsafe(no_mangle)]
pub extern "C" fn bcder_end(rules: u8, octets: &[u8], size: &mut usize) -> u8
    ensures unknown { AreUnknown rules → (result ≡ unknown_rules) × (size.new ≡ size.old) }
    ensures read { (mode : ModeValue) → AreRules rules mode
        → Found (BeginsWithEnd mode octets.now) result size.old size.new }
{
    let Some(mode) = mode_of(rules) else {
        return UNKNOWN_RULES;
    };
    match end_of_contents_at(mode, octets) {
        Some(read) => {
            *size = read;
            DONE
        }
        None => ABSENT,
    }
}
