//! Checking values with a stack of the caller's. No memory is allocated.
ghost use Rattle.std.specs.Prelude.{◌≡◌, length};
ghost use Rattle.bcder.specs.declared.mode.Mode.{Mode as ModeValue};
ghost use Rattle.bcder_c.specs.Results.{unknown_rules};
ghost use Rattle.bcder_c.specs.Rules.{AreRules, AreUnknown};
ghost use Rattle.encodings.specs.Values.{PassesAllOn};

use crate::rules::{UNKNOWN_RULES, mode_of};
use encodings::check::check_on;
use encodings::checked::Checked;

/// Does what `bcder_check` does, with a stack of the caller's in place of memory: a number for each
/// open value. A constructed value inside as many others is refused. What the numbers are before
/// and after doesn't matter.
#[unsafe(no_mangle)]
pub extern "C" fn bcder_check_on(
    rules: u8,
    octets: &[u8],
    stack: &mut [usize],
    checked: &mut Checked,
) -> u8
    ensures unknown { AreUnknown rules → (result ≡ unknown_rules)
        × (stack.new ≡ stack.old) × (checked.new ≡ checked.old) }
    ensures passed { (mode : ModeValue) → AreRules rules mode
        → PassesAllOn mode (length stack.old) octets.now result checked.new }
{
    let Some(mode) = mode_of(rules) else {
        return UNKNOWN_RULES;
    };
    check_on(mode, octets, stack, checked)
}
