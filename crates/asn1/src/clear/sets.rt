//! SET, whose fields have distinct tags that ascend (X.680, 27; X.690, 9.3, 10.3).
ghost use Rattle.std.specs.Prelude.{◌&&◌};
ghost use Rattle.bcder.specs.x690.Identifier.{set_tag};
ghost use Rattle.asn1.specs.TagSets.{one_tag, only_in};

use crate::clear::{Clear, ClearFields};
use crate::{Set, SetOrder};
use bcder::Mode;

/// Its tags are distinct if those of its fields are, and if all tags of each field come before all
/// those of the next one. So an untagged CHOICE stands at the same place whatever its value is,
/// which is the place that CER (X.690, 9.3) and DER (10.3) give it.
impl<F: ClearFields + SetOrder> Clear for Set<F> {
    ghost tag_set = { one_tag set_tag };

    ghost distinct = { F.distinct && (F.ascend F.place && F.ascend (λ n. n)) };

    ghost always_clear = { F.always_clear };

    fn is_clear_in(&self, mode: Mode) -> bool {
        F::are_told_apart(mode);
        self.0.are_clear_in(mode)
    }

    ghost in_set = { only_in };
}
