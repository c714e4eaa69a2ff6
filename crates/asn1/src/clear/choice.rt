//! CHOICE, whose alternatives have distinct tags (X.680, 29.3).
ghost use Rattle.std.specs.Prelude.{◌&&◌};
ghost use Rattle.asn1.specs.TagSets.{both_sets, are_distinct, either_in};

use crate::clear::{Clear, ClearParts};
use crate::{Choice2, Choice3, Choice4};
use bcder::Mode;

impl<A: Clear, B: Clear> Clear for Choice2<A, B> {
    ghost tag_set = { both_sets A.tag_set B.tag_set };

    ghost distinct = { A.distinct && (B.distinct && are_distinct A.tag_set B.tag_set) };

    ghost always_clear = { λ mode. A.always_clear mode && B.always_clear mode };

    fn is_clear_in(&self, mode: Mode) -> bool {
        match self {
            Choice2::One(one) => one.is_clear_in(mode),
            Choice2::Two(two) => two.is_clear_in(mode),
        }
    }

    ghost in_set = { either_in A.tag_set B.tag_set A.in_set B.in_set };
}

impl<A: Clear, B: Clear, C: Clear> ClearParts for Choice3<A, B, C> {
    ghost cleared = { ⟦<Choice2<A, Choice2<B, C>> as Clear>⟧ };

    fn parts_are_clear_in(&self, mode: Mode) -> bool {
        match self {
            Choice3::One(one) => one.is_clear_in(mode),
            Choice3::Two(two) => two.is_clear_in(mode),
            Choice3::Three(three) => three.is_clear_in(mode),
        }
    }

    ghost in_its_set = { either_in A.tag_set (both_sets B.tag_set C.tag_set) A.in_set
        (either_in B.tag_set C.tag_set B.in_set C.in_set) };
}

impl<A: Clear, B: Clear, C: Clear, D: Clear> ClearParts for Choice4<A, B, C, D> {
    ghost cleared = { ⟦<Choice2<A, Choice2<B, Choice2<C, D>>> as Clear>⟧ };

    fn parts_are_clear_in(&self, mode: Mode) -> bool {
        match self {
            Choice4::One(one) => one.is_clear_in(mode),
            Choice4::Two(two) => two.is_clear_in(mode),
            Choice4::Three(three) => three.is_clear_in(mode),
            Choice4::Four(four) => four.is_clear_in(mode),
        }
    }

    ghost in_its_set = { either_in A.tag_set (both_sets B.tag_set (both_sets C.tag_set D.tag_set))
        A.in_set (either_in B.tag_set (both_sets C.tag_set D.tag_set) B.in_set
        (either_in C.tag_set D.tag_set C.in_set D.in_set)) };
}
