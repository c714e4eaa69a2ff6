//! A user's own type, written.
ghost use Rattle.std.specs.Prelude.{◌≡◌};
ghost use Rattle.asn1.specs.Lawfully.{Lawfully};

use crate::definition::Definition;
use crate::parts_written::{EncodeParts, UseParts};
use crate::writers::Encode;
use bcder::{Mode, Tag};

/// A type that writes itself as the type behind its `::=` (X.680, 16.1).
pub trait EncodeDefinition: Definition<As: Encode> {
    /// Gives the value's parts to what is done with them, in one line.
    fn give_parts<T, U: UseParts<T>>(&self, tag: Tag, to: U, target: &mut T) -> U::Out
        ensures { U.does to
            (Lawfully (U.mode to) (Self.As.writes tag (Self.parts self.now) (U.mode to)))
            (Self.As.may_lack (Self.parts self.now) (U.mode to)) target.old target.new result };

    /// The value that has these parts.
    ghost made: { (value : Self.As) → ((x : Self) × (Self.Definition.parts x ≡ value)) };
}

impl<D: Definition + EncodeDefinition> EncodeParts for D {
    ghost written = { ⟦<D::As as Encode>⟧ };

    fn give_parts<T, U: UseParts<T>>(&self, tag: Tag, to: U, target: &mut T) -> U::Out {
        <D as EncodeDefinition>::give_parts(self, tag, to, target)
    }

    fn are_read_back(tag: Tag, mode: Mode) {
        <D::As>::is_read_back(tag, mode);
    }

    ghost made = { D.EncodeDefinition.made };
}
