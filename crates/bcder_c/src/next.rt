//! Values one after the other, with a state that the caller keeps. No memory is allocated.
ghost use Rattle.std.specs.Prelude.{◌≡◌, ◌≢◌, ◌↔◌, List, ℕ, [], length};
ghost use Rattle.bcder.specs.declared.mode.Mode.{Mode as ModeValue};
ghost use Rattle.bcder.specs.x690.Preorder.{Heading as HeadingMet};
ghost use Rattle.bcder_c.specs.Results.{unknown_rules};
ghost use Rattle.bcder_c.specs.Rules.{AreRules, AreUnknown};
ghost use Rattle.encodings.specs.Next.{Advances, Decides, StandsFor, StandsForNone, Walked};
ghost use Rattle.encodings.specs.Status.{done, misused};

use crate::rules::{UNKNOWN_RULES, mode_of};
use encodings::next::{Event, Walk, next_event};

/// Goes to the next value or end, and stores it (X.690, 8.1.1, 8.1.5).
///
/// A constructed value is an event where it begins, and one where it ends. What it contains comes
/// between them.
#[unsafe(no_mangle)]
pub extern "C" fn bcder_next(
    rules: u8,
    octets: &[u8],
    stack: &mut [usize],
    walk: &mut Walk,
    event: &mut Event,
) -> u8
    ensures unknown { AreUnknown rules → result ≡ unknown_rules }
    ensures misused { (mode : ModeValue) → AreRules rules mode
        → (result ≡ misused ↔ StandsForNone octets.now stack.old walk.old) }
    ensures advances { (mode : ModeValue) → AreRules rules mode
        → (os : _) (x : _) → StandsFor octets.now stack.old walk.old os x
        → Advances mode octets.now os x stack.old stack.new
        walk.old walk.new event.new result }
    ensures start { (mode : ModeValue)
        → walk.old ≡ record { at = 0; end = length octets.now; depth = 0 }
        → Walked mode octets.now stack.old walk.old [] [] }
    ensures decides { (mode : ModeValue) → AreRules rules mode
        → (passed : List ℕ) (met : List HeadingMet)
        → Walked mode octets.now stack.old walk.old passed met
        → Decides mode octets.now passed met stack.new walk.new result }
    ensures kept { result ≢ done
        → (stack.new ≡ stack.old) × (walk.new ≡ walk.old) × (event.new ≡ event.old) }
{
    let Some(mode) = mode_of(rules) else {
        return UNKNOWN_RULES;
    };
    next_event(mode, octets, stack, walk, event)
}
