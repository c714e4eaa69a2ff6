//! Values in other rules (X.690, 9, 10, 11).
ghost use Rattle.std.specs.Prelude.{◌≡◌, ◌⊎◌};
ghost use Rattle.bcder.specs.declared.mode.Mode.{Mode as ModeValue};
ghost use Rattle.bcder_c.specs.Results.{unknown_rules};
ghost use Rattle.bcder_c.specs.Rules.{AreRules, AreUnknown};
ghost use Rattle.encodings.specs.Conversion.{Converts};

use crate::rules::{UNKNOWN_RULES, mode_of};
use encodings::convert::convert;
use std::alloc::Global;

/// Stores values that are in some rules, in other rules (X.690, 9, 10, 11). They are stored at the
/// front of a buffer that has room for them. `size` is the number of their octets, also if it has
/// no room.
#[unsafe(no_mangle)]
pub extern "C" fn bcder_convert(
    alloc: Global,
    from: u8,
    to: u8,
    octets: &[u8],
    buffer: &mut [u8],
    size: &mut usize,
) -> u8
    ensures unknown { AreUnknown from ⊎ AreUnknown to
        → (result ≡ unknown_rules) × (buffer.new ≡ buffer.old) × (size.new ≡ size.old) }
    ensures converts { (mode other : ModeValue) → AreRules from mode → AreRules to other
        → Converts mode other octets.now result buffer.old buffer.new size.old size.new }
{
    let Some(from) = mode_of(from) else {
        return UNKNOWN_RULES;
    };
    let Some(to) = mode_of(to) else {
        return UNKNOWN_RULES;
    };
    convert(alloc, from, to, octets, buffer, size)
}
