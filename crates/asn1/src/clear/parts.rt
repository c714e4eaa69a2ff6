//! A user's own type that stands for itself.
ghost use Rattle.std.specs.Prelude.{Decides, IsTrue};
ghost use Rattle.bcder.specs.x690.Identifier.{Tag as TagValue};
ghost use Rattle.asn1.specs.TagSets.{IsIn};
ghost use Rattle.asn1.specs.ClearOf.{ClearOf};

use crate::clear::Clear;
use crate::{EncodeParts, Parts};
use bcder::Mode;

/// [`Parts`] that are read back as the type behind the `::=` is (X.680, 16.1).
pub trait ClearParts: EncodeParts {
    /// When that type is read back: `⟦<A as Clear>⟧`, if it is `A`.
    ghost cleared: { ClearOf Self.As };

    /// Returns whether the value's parts are read back in a mode.
    fn parts_are_clear_in(&self, mode: Mode) -> bool
        ensures exact { IsTrue cleared.distinct
            → Decides result (Self.written.is_clear (Self.parts self.now) mode) }
        ensures always { IsTrue cleared.distinct → IsTrue (cleared.always_clear mode)
            → IsTrue result };

    /// Its values have no other tags: `only_in` of a SEQUENCE.
    ghost in_its_set: { (t : TagValue) → Self.Tags.tags Self.Tags.TAG t → IsIn cleared.tag_set t };
}

impl<D: Parts + EncodeParts + ClearParts> Clear for D {
    ghost tag_set = { D.cleared.tag_set };

    ghost distinct = { D.cleared.distinct };

    ghost always_clear = { D.cleared.always_clear };

    fn is_clear_in(&self, mode: Mode) -> bool {
        self.parts_are_clear_in(mode)
    }

    ghost in_set = { D.in_its_set };
}
