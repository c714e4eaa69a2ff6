//! Fields of a SEQUENCE (X.680, 25).
ghost use Rattle.std.specs.Prelude.{true, ◌&&◌};
ghost use Rattle.bcder.specs.x690.Identifier.{sequence_tag};
ghost use Rattle.asn1.specs.TagSets.{both_sets, set_if, are_distinct, are_before};
ghost use Rattle.asn1.specs.TagSets.{every_tag, no_tag};
ghost use Rattle.asn1.specs.TagSets.{one_tag, only_in};

use crate::clear::{Clear, ClearFields};
use crate::writers::{ByRef, Encode, EncodeFields};
use crate::{DefaultValue, ExtensionAdditions, OrDefault, Sequence, Type};
use bcder::Mode;

impl<F: ClearFields> Clear for Sequence<F> {
    ghost tag_set = { one_tag sequence_tag };

    ghost distinct = { F.distinct };

    ghost always_clear = { F.always_clear };

    fn is_clear_in(&self, mode: Mode) -> bool {
        F::are_told_apart(mode);
        self.0.are_clear_in(mode)
    }

    ghost in_set = { only_in };
}

/// A value.
impl<T: Clear> ClearFields for T {
    ghost first_tags = { T.tag_set };

    ghost tag_set = { T.tag_set };

    ghost ascend = { λ _. true };

    ghost distinct = { T.distinct };

    ghost always_clear = { T.always_clear };

    fn are_clear_in(&self, mode: Mode) -> bool {
        self.is_clear_in(mode)
    }

    fn are_told_apart(mode: Mode) {
        T::is_read_back(T::tag(), mode);
    }
}

/// A value that may be left out: none with one of its tags may follow.
impl<T: Clear> ClearFields for Option<T> {
    ghost first_tags = { T.tag_set };

    ghost may_be_none = { true };

    ghost barred_tags = { T.tag_set };

    ghost tag_set = { T.tag_set };

    ghost ascend = { λ _. true };

    ghost distinct = { T.distinct };

    ghost always_clear = { T.always_clear };

    fn are_clear_in(&self, mode: Mode) -> bool {
        match self {
            Some(value) => value.is_clear_in(mode),
            None => true,
        }
    }

    fn are_told_apart(mode: Mode) {
        T::is_read_back(T::tag(), mode);
    }
}

/// A value that may be left out: none with one of its tags may follow.
impl<T: Clear, D: DefaultValue<T>> ClearFields for OrDefault<T, D> {
    ghost first_tags = { T.tag_set };

    ghost may_be_none = { true };

    ghost barred_tags = { T.tag_set };

    ghost tag_set = { T.tag_set };

    ghost ascend = { λ _. true };

    ghost distinct = { T.distinct };

    ghost always_clear = { T.always_clear };

    fn are_clear_in(&self, mode: Mode) -> bool {
        self.value.is_clear_in(mode)
    }

    fn are_told_apart(mode: Mode) {
        T::is_read_back(T::tag(), mode);
    }
}

/// None are written, and no value may follow.
impl ClearFields for ExtensionAdditions {
    ghost first_tags = { no_tag };

    ghost may_be_none = { true };

    ghost barred_tags = { every_tag };

    ghost tag_set = { no_tag };

    ghost ascend = { λ _. true };

    fn are_clear_in(&self, _mode: Mode) -> bool {
        true
    }

    fn are_told_apart(_mode: Mode) {
        let _known = _mode;
    }
}

/// One behind the other.
impl<A: ClearFields, B: ClearFields> ClearFields for (A, B) {
    ghost first_tags = { both_sets A.first_tags (set_if A.may_be_none B.first_tags) };

    ghost may_be_none = { A.may_be_none && B.may_be_none };

    ghost barred_tags = { both_sets B.barred_tags (set_if B.may_be_none A.barred_tags) };

    ghost tag_set = { both_sets A.tag_set B.tag_set };

    ghost ascend = { λ place. A.ascend place
        && (B.ascend place && are_before place A.tag_set B.tag_set) };

    ghost distinct = { A.distinct && (B.distinct && are_distinct A.barred_tags B.first_tags) };

    ghost always_clear = { λ mode. A.always_clear mode && B.always_clear mode };

    fn are_clear_in(&self, mode: Mode) -> bool {
        self.0.are_clear_in(mode) && self.1.are_clear_in(mode)
    }

    fn are_told_apart(mode: Mode) {
        A::are_told_apart(mode);
        B::are_told_apart(mode);
    }
}

/// Fields behind a reference.
impl<F: ClearFields> ClearFields for ByRef<'_, F> {
    ghost first_tags = { F.first_tags };

    ghost may_be_none = { F.may_be_none };

    ghost barred_tags = { F.barred_tags };

    ghost tag_set = { F.tag_set };

    ghost ascend = { F.ascend };

    ghost distinct = { F.distinct };

    ghost always_clear = { F.always_clear };

    fn are_clear_in(&self, mode: Mode) -> bool {
        self.0.are_clear_in(mode)
    }

    fn are_told_apart(mode: Mode) {
        F::are_told_apart(mode);
    }
}
