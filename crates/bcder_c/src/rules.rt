//! The number that stands for a set of rules.
ghost use Rattle.std.specs.Prelude.{◌≡◌, MatchOption};
ghost use Rattle.bcder.specs.declared.mode.Mode.{Mode as ModeValue};
ghost use Rattle.bcder_c.specs.Rules.{AreRules, AreUnknown};

use bcder::Mode;

/// The status that says that a number stands for no rules.
pub(crate) const UNKNOWN_RULES: u8 = 1;

/// Returns the set of rules that the number stands for: 0 for BER, 1 for CER, 2 for DER.
pub(crate) fn mode_of(rules: u8) -> Option<Mode>
    ensures known { MatchOption result
        (AreUnknown rules)
        (λ mode. AreRules rules mode × ((m : ModeValue) → AreRules rules m → m ≡ mode)) }
{
    match rules {
        0 => Some(Mode::Ber),
        1 => Some(Mode::Cer),
        2 => Some(Mode::Der),
        _ => None,
    }
}
