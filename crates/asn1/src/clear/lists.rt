//! SEQUENCE OF and SET OF (X.680, 26, 28).
ghost use Rattle.std.specs.Prelude.{All, Decides, IsTrue, true};
ghost use Rattle.bcder.specs.x690.Identifier.{sequence_tag, set_tag};
ghost use Rattle.asn1.specs.TagSets.{one_tag, only_in};

use crate::clear::{Clear, ClearFields};
use crate::writers::{ByRef, Encode, EncodeFields};
use crate::{Sequence, SequenceOf, SetOf, Type};
use bcder::Mode;

/// Returns whether each item is read back in a mode.
fn all_clear<T: Clear>(items: &[T], mode: Mode) -> bool
    ensures exact { IsTrue T.distinct
        → Decides result (All (λ v. T.is_clear v mode) items.now) }
    ensures always { IsTrue T.distinct → IsTrue (T.always_clear mode) → IsTrue result }
{
    for item in items {
        if !item.is_clear_in(mode) {
            return false;
        }
    }
    true
}

/// As many values as there are: none with one of the type's tags may follow.
impl<T: Clear> ClearFields for Vec<T> {
    ghost first_tags = { T.tag_set };

    ghost may_be_none = { true };

    ghost barred_tags = { T.tag_set };

    ghost distinct = { T.distinct };

    ghost always_clear = { T.always_clear };

    fn are_clear_in(&self, mode: Mode) -> bool {
        all_clear(self.as_slice(), mode)
    }

    fn are_told_apart(mode: Mode) {
        <Vec<T> as EncodeFields>::are_read_back(mode);
    }
}

impl<T: Clear> Clear for SequenceOf<T> {
    ghost tag_set = { one_tag sequence_tag };

    ghost distinct = { T.distinct };

    ghost always_clear = { T.always_clear };

    fn is_clear_in(&self, mode: Mode) -> bool {
        Sequence(ByRef(&self.0)).is_clear_in(mode)
    }

    ghost in_set = { only_in };
}

impl<T: Clear> Clear for SetOf<T> {
    ghost tag_set = { one_tag set_tag };

    ghost distinct = { T.distinct };

    ghost always_clear = { T.always_clear };

    fn is_clear_in(&self, mode: Mode) -> bool {
        all_clear(self.0.as_slice(), mode)
    }

    ghost in_set = { only_in };
}
