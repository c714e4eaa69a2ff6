//! A user's own type.
ghost use Rattle.std.specs.Prelude.{Decides, IsTrue};

use crate::clear::{Clear, ClearParts};
use crate::{Definition, EncodeDefinition};
use bcder::Mode;

/// A type that is read back as the type behind its `::=` is (X.680, 16.1).
pub trait ClearDefinition: EncodeDefinition + Definition<As: Clear> {
    /// Returns whether the value's parts are read back in a mode.
    fn parts_are_clear_in(&self, mode: Mode) -> bool
        ensures exact { IsTrue Self.As.distinct
            → Decides result (Self.As.is_clear (Self.parts self.now) mode) }
        ensures always { IsTrue Self.As.distinct → IsTrue (Self.As.always_clear mode)
            → IsTrue result };
}

impl<D: Definition + EncodeDefinition + ClearDefinition> ClearParts for D {
    ghost cleared = { ⟦<D::As as Clear>⟧ };

    fn parts_are_clear_in(&self, mode: Mode) -> bool {
        <D as ClearDefinition>::parts_are_clear_in(self, mode)
    }

    ghost in_its_set = { D.As.in_set };
}
