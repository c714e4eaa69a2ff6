//! Laws that follow from the laws of encoders.
ghost use Rattle.bcder.specs.x690.Grammar.{SameWhereEncodingsAre};
ghost use Rattle.bcder.specs.calls.Meaning.{IsOne};
ghost use Rattle.bcder.specs.calls.Written.{WritesEncodings, WritesTheOnlyOne};

use crate::encode::Values;
use crate::mode::Mode;

/// An encoder means at most one thing in a mode. Unless that is a refusal, what it writes is an
/// encoding of its values, and in CER and DER the only one (X.690, 9.1, 10.1).
pub fn what_is_written_is_an_encoding<V: Values>(values: &V, mode: Mode)
    requires { V.can_encode values.now }
    ensures one { IsOne (V.means values.now mode) }
    ensures encoding { WritesEncodings mode (V.means values.now mode) }
    ensures only { WritesTheOnlyOne mode (V.means values.now mode) }
{
    let _values = values;
    let _mode = mode;
}

/// In CER and DER two lists of values that have encodings are the same exactly if their encodings
/// are.
pub fn values_are_the_same_where_encodings_are()
    ensures { SameWhereEncodingsAre }
{}
