//! Whole values: the first of octets, or all that they are.
ghost use Rattle.std.specs.Prelude.{◌≡◌};
ghost use Rattle.bcder.specs.declared.mode.Mode.{Mode as ModeValue};
ghost use Rattle.bcder_c.specs.Results.{unknown_rules};
ghost use Rattle.bcder_c.specs.Rules.{AreRules, AreUnknown};
ghost use Rattle.encodings.specs.Values.{PassesAll, PassesAllWithin, PassesFirst};

use crate::rules::{UNKNOWN_RULES, mode_of};
use encodings::checked::Checked;
use encodings::values::{check, check_first, check_within};
use std::alloc::Global;

/// Passes over the first value (X.690, 8.1.1).
#[unsafe(no_mangle)]
pub extern "C" fn bcder_value(alloc: Global, rules: u8, octets: &[u8], checked: &mut Checked) -> u8
    ensures unknown { AreUnknown rules → (result ≡ unknown_rules) × (checked.new ≡ checked.old) }
    ensures passed { (mode : ModeValue) → AreRules rules mode
        → PassesFirst mode octets.now result checked.new }
{
    let Some(mode) = mode_of(rules) else {
        return UNKNOWN_RULES;
    };
    check_first(alloc, mode, octets, checked)
}

/// Passes over all octets as values, one after the other (X.690, 8.1.1).
#[unsafe(no_mangle)]
pub extern "C" fn bcder_check(alloc: Global, rules: u8, octets: &[u8], checked: &mut Checked) -> u8
    ensures unknown { AreUnknown rules → (result ≡ unknown_rules) × (checked.new ≡ checked.old) }
    ensures passed { (mode : ModeValue) → AreRules rules mode
        → PassesAll mode octets.now result checked.new }
{
    let Some(mode) = mode_of(rules) else {
        return UNKNOWN_RULES;
    };
    check(alloc, mode, octets, checked)
}

/// Does what `bcder_check` does, but refuses a value inside `levels` others or more.
#[unsafe(no_mangle)]
pub extern "C" fn bcder_check_within(
    alloc: Global,
    rules: u8,
    octets: &[u8],
    levels: usize,
    checked: &mut Checked,
) -> u8
    ensures unknown { AreUnknown rules → (result ≡ unknown_rules) × (checked.new ≡ checked.old) }
    ensures passed { (mode : ModeValue) → AreRules rules mode
        → PassesAllWithin mode levels octets.now result checked.new }
{
    let Some(mode) = mode_of(rules) else {
        return UNKNOWN_RULES;
    };
    check_within(alloc, mode, octets, levels, checked)
}
