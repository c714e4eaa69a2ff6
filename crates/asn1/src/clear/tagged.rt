//! Tagged types (X.680, 31).
ghost use Rattle.asn1.specs.TagSets.{one_tag, only_in};

use crate::clear::Clear;
use crate::{Explicit, FixedTag, Implicit, TagMarker};
use bcder::Mode;

impl<M: TagMarker, T: Clear> Clear for Explicit<M, T> {
    ghost tag_set = { one_tag M.TAG };

    ghost distinct = { T.distinct };

    ghost always_clear = { T.always_clear };

    fn is_clear_in(&self, mode: Mode) -> bool {
        self.value.is_clear_in(mode)
    }

    ghost in_set = { only_in };
}

impl<M: TagMarker, T: FixedTag + Clear> Clear for Implicit<M, T> {
    ghost tag_set = { one_tag M.TAG };

    ghost distinct = { T.distinct };

    ghost always_clear = { T.always_clear };

    fn is_clear_in(&self, mode: Mode) -> bool {
        self.value.is_clear_in(mode)
    }

    ghost in_set = { only_in };
}
