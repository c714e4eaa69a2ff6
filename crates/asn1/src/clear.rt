//! Types whose values are read back as they were written.
ghost use Rattle.std.specs.Prelude.{ℕ, Bool, true, false, Decides, IsTrue, Ok};
ghost use Rattle.bcder.specs.declared.mode.Mode.{Mode as Rules};
ghost use Rattle.bcder.specs.x690.Identifier.{Tag as TagValue};
ghost use Rattle.bcder.specs.x690.Tree.{Trees};
ghost use Rattle.bcder.specs.calls.Meaning.{Encoded};
ghost use Rattle.asn1.specs.Types.{BeginWithout};
ghost use Rattle.asn1.specs.Sets.{Rise, each, place_in};
ghost use Rattle.asn1.specs.TagSets.{TagSet, IsIn, AreIn, BeginIn, no_tag, every_tag};

mod any;
mod bit_strings;
mod boxed;
mod choice;
mod definition;
mod enumerated;
mod fields;
mod identifiers;
mod leaf;
mod lent;
mod lists;
mod named_bits;
mod numbers;
mod parts;
mod plain;
mod reals;
mod sets;
mod strings;
mod tagged;
mod times;
mod tuples;

use crate::writers::{Encode, EncodeFields};
use bcder::Mode;
pub(crate) use bit_strings::see_bits;
pub use definition::ClearDefinition;
pub(crate) use identifiers::is_complete;
pub use leaf::ClearContents;
pub use parts::ClearParts;

/// A type whose values are read back as they were written, if its tags are distinct.
///
/// Whether they are is known of the type alone, and the checker finds it out by itself.
pub trait Clear: Encode {
    /// The tags that its values have.
    ghost tag_set: { TagSet };

    /// Whether tags are distinct where a value could be taken for another: those of the
    /// alternatives of a CHOICE (X.680, 29.3), those of a field that may be left out and of what
    /// can follow it (25.6), and those of the fields of a SET (27), which have to ascend too. By
    /// default they are.
    ghost distinct: { Bool } = { true };

    /// Whether each value is read back in a mode. By default it is, in each mode.
    ghost always_clear: { Rules → Bool } = { λ _. true };

    /// Returns whether the value is read back in a mode.
    fn is_clear_in(&self, mode: Mode) -> bool
        ensures exact { IsTrue distinct → Decides result (Self.is_clear self.now mode) }
        ensures always { IsTrue distinct → IsTrue (always_clear mode) → IsTrue result };

    /// Its values have no other tags.
    ghost in_set: { (t : TagValue) → Self.tags Self.TAG t → IsIn tag_set t };
}

/// Fields that are read back as they were written, if their tags are distinct.
pub trait ClearFields: EncodeFields {
    /// The tags of the first value that is written of them.
    ghost first_tags: { TagSet };

    /// Whether there may be no value. By default there is one.
    ghost may_be_none: { Bool } = { false };

    /// The tags that the next value behind them must not have. By default it may have any.
    ghost barred_tags: { TagSet } = { no_tag };

    /// The tags of all values that are written of them. By default they may be any.
    ghost tag_set: { TagSet } = { every_tag };

    /// Whether these values ascend by the places of their tags, as those of a SET have to
    /// (X.690, 9.3, 10.3). By default nothing is known of it.
    ghost ascend: { (ℕ → ℕ) → Bool } = { λ _. false };

    /// Whether tags are distinct where a value could be taken for another. By default they are.
    ghost distinct: { Bool } = { true };

    /// Whether all are read back in a mode. By default they are, in each mode.
    ghost always_clear: { Rules → Bool } = { λ _. true };

    /// Returns whether they are read back in a mode.
    fn are_clear_in(&self, mode: Mode) -> bool
        ensures exact { IsTrue distinct → Decides result (Self.is_clear self.now mode) }
        ensures always { IsTrue distinct → IsTrue (always_clear mode) → IsTrue result };

    /// A law: what is written of them begins with one of the first tags, and they are read back in
    /// front of values that have none of the barred tags. All tags are in the set, and ascend if
    /// they are said to.
    fn are_told_apart(mode: Mode)
        ensures begin { IsTrue distinct → (x : Self) → Self.is_clear x mode → (e : Encoded)
            → Self.lays x mode (Ok e) → BeginIn first_tags may_be_none e.values }
        ensures follow { IsTrue distinct → (x : Self) → Self.is_clear x mode → (us : Trees)
            → BeginWithout (IsIn barred_tags) us → Self.may_precede x mode us }
        ensures within { IsTrue distinct → (x : Self) → Self.is_clear x mode → (e : Encoded)
            → Self.lays x mode (Ok e) → AreIn tag_set e.values }
        ensures rise { IsTrue distinct → (place : ℕ → ℕ) → IsTrue (ascend place) → (x : Self)
            → Self.is_clear x mode → (e : Encoded) → Self.lays x mode (Ok e)
            → Rise (place_in place) (each e.values) };
}
