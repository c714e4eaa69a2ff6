//! CHOICE, written (X.690, 8.13).
ghost use Rattle.asn1.specs.ChoicesWritten.{WritesEither, EitherLacks, IsClearEither};
ghost use Rattle.asn1.specs.ChoicesWritten.{either_lawful, made_of_three, made_of_four};

use crate::parts_written::{EncodeParts, UseParts};
use crate::writers::Encode;
use crate::{Choice2, Choice3, Choice4, Type};
use bcder::encode::{EncodeError, WriteError};
use bcder::{Mode, Tag};
use std::io;

/// A value of the second type is read back if it has none of the first type's tags, as X.680,
/// 29.3, demands.
impl<A: Encode, B: Encode> Encode for Choice2<A, B> {
    ghost writes = { λ _ x mode.
        WritesEither (λ a. A.writes A.TAG a mode) (λ b. B.writes B.TAG b mode) x };

    ghost may_lack = { λ x mode. EitherLacks (λ a. A.may_lack a mode) (λ b. B.may_lack b mode) x };

    ghost is_clear = { λ x mode. IsClearEither (A.tags A.TAG) (B.tags B.TAG)
        (λ a. A.is_clear a mode) (λ b. B.is_clear b mode) x };

    fn encoded_len_as(&self, _tag: Tag, mode: Mode) -> Result<usize, EncodeError> {
        match self {
            Choice2::One(one) => one.encoded_len_as(A::tag(), mode),
            Choice2::Two(two) => two.encoded_len_as(B::tag(), mode),
        }
    }

    fn write_encoded_as<W: io::Write>(
        &self,
        _tag: Tag,
        mode: Mode,
        target: &mut W,
    ) -> Result<(), WriteError> {
        match self {
            Choice2::One(one) => one.write_encoded_as(A::tag(), mode, target),
            Choice2::Two(two) => two.write_encoded_as(B::tag(), mode, target),
        }
    }

    fn is_read_back(_tag: Tag, mode: Mode) {
        A::is_read_back(A::tag(), mode);
        B::is_read_back(B::tag(), mode);
    }

    ghost lawful = { λ _ x mode. either_lawful (λ a. A.writes A.TAG a mode)
        (λ b. B.writes B.TAG b mode) (λ a. A.lawful A.TAG a mode)
        (λ b. B.lawful B.TAG b mode) x };
}

/// The value that it holds (X.690, 8.13).
impl<A: Encode, B: Encode, C: Encode> EncodeParts for Choice3<A, B, C> {
    ghost written = { ⟦<Choice2<A, Choice2<B, C>> as Encode>⟧ };

    fn give_parts<T, U: UseParts<T>>(&self, _tag: Tag, to: U, target: &mut T) -> U::Out {
        match self {
            Choice3::One(one) => to.use_alternative(one, target),
            Choice3::Two(two) => to.use_alternative(two, target),
            Choice3::Three(three) => to.use_alternative(three, target),
        }
    }

    fn are_read_back(tag: Tag, mode: Mode) {
        <Choice2<A, Choice2<B, C>>>::is_read_back(tag, mode);
    }

    ghost made = { made_of_three };
}

/// The value that it holds.
impl<A: Encode, B: Encode, C: Encode, D: Encode> EncodeParts for Choice4<A, B, C, D> {
    ghost written = { ⟦<Choice2<A, Choice2<B, Choice2<C, D>>> as Encode>⟧ };

    fn give_parts<T, U: UseParts<T>>(&self, _tag: Tag, to: U, target: &mut T) -> U::Out {
        match self {
            Choice4::One(one) => to.use_alternative(one, target),
            Choice4::Two(two) => to.use_alternative(two, target),
            Choice4::Three(three) => to.use_alternative(three, target),
            Choice4::Four(four) => to.use_alternative(four, target),
        }
    }

    fn are_read_back(tag: Tag, mode: Mode) {
        <Choice2<A, Choice2<B, Choice2<C, D>>>>::is_read_back(tag, mode);
    }

    ghost made = { made_of_four };
}
