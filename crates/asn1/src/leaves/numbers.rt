//! INTEGER, as the integers of Rust (X.680, 19; X.690, 8.3).
//!
//! A number that the type can't hold is refused.
ghost use Rattle.std.specs.Int.{w8, w16, w32, w64, w128};
ghost use Rattle.std.specs.Prelude.{ℕ, ℤ, List, false, refl};
ghost use Rattle.bcder.specs.calls.Readers.{IsSigned, IsUnsigned, ReadOctets};
ghost use Rattle.bcder.specs.calls.Views.{Moved, MovedOctets};
ghost use Rattle.bcder.specs.x690.Identifier.{integer_tag};
ghost use Rattle.asn1.specs.Types.{IsLeaf, Only, TookNextTyped};
ghost use Rattle.asn1.specs.Tags.{integer_tagged, only_tagged};

use crate::{Decode, Part, Trace, Type};
use bcder::Tag;
use bcder::decode::{Constructed, DecodeError, Primitive, Source};
use std::alloc::Global;

/// A number that is read from contents octets.
trait ReadNumber: Copy + Drop {
    /// Which contents octets mean which number.
    ghost read: { List ℕ → Self → Type 0 };

    /// Reads all octets as a number, and takes them.
    ///
    /// # Errors
    ///
    /// Returns an error if the octets mean no number of the type, or if the source fails.
    fn read_number<S: Source>(octets: &mut Primitive<'_, S>) -> Result<Self, DecodeError<S::Error>>
        ensures moves { MovedOctets S.stream octets }
        ensures read { ReadOctets S.stream octets read result };
}

/// Takes the next value as a number, if it has this tag.
#[inline(always)]
fn take_number<N: ReadNumber, S: Source>(
    cons: &mut Constructed<'_, S>,
    tag: Tag,
) -> Result<Option<N>, DecodeError<S::Error>>
    ensures moves { Moved S.stream cons }
    ensures took { TookNextTyped S.stream cons (Only tag) (λ _. IsLeaf N.read) false result }
{
    cons.take_opt_primitive_if(tag, |octets| N::read_number(octets))
}

impl ReadNumber for u8 {
    ghost read = { IsUnsigned 8 };

    #[inline(always)]
    fn read_number<S: Source>(octets: &mut Primitive<'_, S>) -> Result<u8, DecodeError<S::Error>> {
        octets.to_u8()
    }
}

impl Type for u8 {
    ghost TAG = { integer_tag };

    #[inline(always)]
    fn tag() -> Tag {
        Tag::INTEGER
    }

    fn expect<P: Trace>(path: &mut P) {
        path.note(Part::Expected(Self::tag()));
    }

    ghost tags = { Only };

    ghost Key = { ℕ };

    ghost key = { λ x. x };

    ghost means = { λ _ t x. IsLeaf (IsUnsigned 8) t x };

    fn values_are_one() {}

    ghost tagged = { refl };

    ghost value_tags = { only_tagged integer_tagged };
}

impl<S: Source> Decode<S> for u8 {
    #[inline(always)]
    fn trace_opt_if<P: Trace>(
        _alloc: Global,
        cons: &mut Constructed<'_, S>,
        tag: Tag,
        _path: &mut P,
    ) -> Result<Option<u8>, DecodeError<S::Error>> {
        take_number(cons, tag)
    }
}

impl ReadNumber for u16 {
    ghost read = { IsUnsigned 16 };

    #[inline(always)]
    fn read_number<S: Source>(octets: &mut Primitive<'_, S>) -> Result<u16, DecodeError<S::Error>> {
        octets.to_u16()
    }
}

impl Type for u16 {
    ghost TAG = { integer_tag };

    #[inline(always)]
    fn tag() -> Tag {
        Tag::INTEGER
    }

    fn expect<P: Trace>(path: &mut P) {
        path.note(Part::Expected(Self::tag()));
    }

    ghost tags = { Only };

    ghost Key = { ℕ };

    ghost key = { λ x. x };

    ghost means = { λ _ t x. IsLeaf (IsUnsigned 16) t x };

    fn values_are_one() {}

    ghost tagged = { refl };

    ghost value_tags = { only_tagged integer_tagged };
}

impl<S: Source> Decode<S> for u16 {
    #[inline(always)]
    fn trace_opt_if<P: Trace>(
        _alloc: Global,
        cons: &mut Constructed<'_, S>,
        tag: Tag,
        _path: &mut P,
    ) -> Result<Option<u16>, DecodeError<S::Error>> {
        take_number(cons, tag)
    }
}

impl ReadNumber for u32 {
    ghost read = { IsUnsigned 32 };

    #[inline(always)]
    fn read_number<S: Source>(octets: &mut Primitive<'_, S>) -> Result<u32, DecodeError<S::Error>> {
        octets.to_u32()
    }
}

impl Type for u32 {
    ghost TAG = { integer_tag };

    #[inline(always)]
    fn tag() -> Tag {
        Tag::INTEGER
    }

    fn expect<P: Trace>(path: &mut P) {
        path.note(Part::Expected(Self::tag()));
    }

    ghost tags = { Only };

    ghost Key = { ℕ };

    ghost key = { λ x. x };

    ghost means = { λ _ t x. IsLeaf (IsUnsigned 32) t x };

    fn values_are_one() {}

    ghost tagged = { refl };

    ghost value_tags = { only_tagged integer_tagged };
}

impl<S: Source> Decode<S> for u32 {
    #[inline(always)]
    fn trace_opt_if<P: Trace>(
        _alloc: Global,
        cons: &mut Constructed<'_, S>,
        tag: Tag,
        _path: &mut P,
    ) -> Result<Option<u32>, DecodeError<S::Error>> {
        take_number(cons, tag)
    }
}

impl ReadNumber for u64 {
    ghost read = { IsUnsigned 64 };

    #[inline(always)]
    fn read_number<S: Source>(octets: &mut Primitive<'_, S>) -> Result<u64, DecodeError<S::Error>> {
        octets.to_u64()
    }
}

impl Type for u64 {
    ghost TAG = { integer_tag };

    #[inline(always)]
    fn tag() -> Tag {
        Tag::INTEGER
    }

    fn expect<P: Trace>(path: &mut P) {
        path.note(Part::Expected(Self::tag()));
    }

    ghost tags = { Only };

    ghost Key = { ℕ };

    ghost key = { λ x. x };

    ghost means = { λ _ t x. IsLeaf (IsUnsigned 64) t x };

    fn values_are_one() {}

    ghost tagged = { refl };

    ghost value_tags = { only_tagged integer_tagged };
}

impl<S: Source> Decode<S> for u64 {
    #[inline(always)]
    fn trace_opt_if<P: Trace>(
        _alloc: Global,
        cons: &mut Constructed<'_, S>,
        tag: Tag,
        _path: &mut P,
    ) -> Result<Option<u64>, DecodeError<S::Error>> {
        take_number(cons, tag)
    }
}

impl ReadNumber for u128 {
    ghost read = { IsUnsigned 128 };

    #[inline(always)]
    fn read_number<S: Source>(
        octets: &mut Primitive<'_, S>,
    ) -> Result<u128, DecodeError<S::Error>> {
        octets.to_u128()
    }
}

impl Type for u128 {
    ghost TAG = { integer_tag };

    #[inline(always)]
    fn tag() -> Tag {
        Tag::INTEGER
    }

    fn expect<P: Trace>(path: &mut P) {
        path.note(Part::Expected(Self::tag()));
    }

    ghost tags = { Only };

    ghost Key = { ℕ };

    ghost key = { λ x. x };

    ghost means = { λ _ t x. IsLeaf (IsUnsigned 128) t x };

    fn values_are_one() {}

    ghost tagged = { refl };

    ghost value_tags = { only_tagged integer_tagged };
}

impl<S: Source> Decode<S> for u128 {
    #[inline(always)]
    fn trace_opt_if<P: Trace>(
        _alloc: Global,
        cons: &mut Constructed<'_, S>,
        tag: Tag,
        _path: &mut P,
    ) -> Result<Option<u128>, DecodeError<S::Error>> {
        take_number(cons, tag)
    }
}

impl ReadNumber for i8 {
    ghost read = { IsSigned w8 };

    #[inline(always)]
    fn read_number<S: Source>(octets: &mut Primitive<'_, S>) -> Result<i8, DecodeError<S::Error>> {
        octets.to_i8()
    }
}

impl Type for i8 {
    ghost TAG = { integer_tag };

    #[inline(always)]
    fn tag() -> Tag {
        Tag::INTEGER
    }

    fn expect<P: Trace>(path: &mut P) {
        path.note(Part::Expected(Self::tag()));
    }

    ghost tags = { Only };

    ghost Key = { ℤ };

    ghost key = { λ x. x };

    ghost means = { λ _ t x. IsLeaf (IsSigned w8) t x };

    fn values_are_one() {}

    ghost tagged = { refl };

    ghost value_tags = { only_tagged integer_tagged };
}

impl<S: Source> Decode<S> for i8 {
    #[inline(always)]
    fn trace_opt_if<P: Trace>(
        _alloc: Global,
        cons: &mut Constructed<'_, S>,
        tag: Tag,
        _path: &mut P,
    ) -> Result<Option<i8>, DecodeError<S::Error>> {
        take_number(cons, tag)
    }
}

impl ReadNumber for i16 {
    ghost read = { IsSigned w16 };

    #[inline(always)]
    fn read_number<S: Source>(octets: &mut Primitive<'_, S>) -> Result<i16, DecodeError<S::Error>> {
        octets.to_i16()
    }
}

impl Type for i16 {
    ghost TAG = { integer_tag };

    #[inline(always)]
    fn tag() -> Tag {
        Tag::INTEGER
    }

    fn expect<P: Trace>(path: &mut P) {
        path.note(Part::Expected(Self::tag()));
    }

    ghost tags = { Only };

    ghost Key = { ℤ };

    ghost key = { λ x. x };

    ghost means = { λ _ t x. IsLeaf (IsSigned w16) t x };

    fn values_are_one() {}

    ghost tagged = { refl };

    ghost value_tags = { only_tagged integer_tagged };
}

impl<S: Source> Decode<S> for i16 {
    #[inline(always)]
    fn trace_opt_if<P: Trace>(
        _alloc: Global,
        cons: &mut Constructed<'_, S>,
        tag: Tag,
        _path: &mut P,
    ) -> Result<Option<i16>, DecodeError<S::Error>> {
        take_number(cons, tag)
    }
}

impl ReadNumber for i32 {
    ghost read = { IsSigned w32 };

    #[inline(always)]
    fn read_number<S: Source>(octets: &mut Primitive<'_, S>) -> Result<i32, DecodeError<S::Error>> {
        octets.to_i32()
    }
}

impl Type for i32 {
    ghost TAG = { integer_tag };

    #[inline(always)]
    fn tag() -> Tag {
        Tag::INTEGER
    }

    fn expect<P: Trace>(path: &mut P) {
        path.note(Part::Expected(Self::tag()));
    }

    ghost tags = { Only };

    ghost Key = { ℤ };

    ghost key = { λ x. x };

    ghost means = { λ _ t x. IsLeaf (IsSigned w32) t x };

    fn values_are_one() {}

    ghost tagged = { refl };

    ghost value_tags = { only_tagged integer_tagged };
}

impl<S: Source> Decode<S> for i32 {
    #[inline(always)]
    fn trace_opt_if<P: Trace>(
        _alloc: Global,
        cons: &mut Constructed<'_, S>,
        tag: Tag,
        _path: &mut P,
    ) -> Result<Option<i32>, DecodeError<S::Error>> {
        take_number(cons, tag)
    }
}

impl ReadNumber for i64 {
    ghost read = { IsSigned w64 };

    #[inline(always)]
    fn read_number<S: Source>(octets: &mut Primitive<'_, S>) -> Result<i64, DecodeError<S::Error>> {
        octets.to_i64()
    }
}

impl Type for i64 {
    ghost TAG = { integer_tag };

    #[inline(always)]
    fn tag() -> Tag {
        Tag::INTEGER
    }

    fn expect<P: Trace>(path: &mut P) {
        path.note(Part::Expected(Self::tag()));
    }

    ghost tags = { Only };

    ghost Key = { ℤ };

    ghost key = { λ x. x };

    ghost means = { λ _ t x. IsLeaf (IsSigned w64) t x };

    fn values_are_one() {}

    ghost tagged = { refl };

    ghost value_tags = { only_tagged integer_tagged };
}

impl<S: Source> Decode<S> for i64 {
    #[inline(always)]
    fn trace_opt_if<P: Trace>(
        _alloc: Global,
        cons: &mut Constructed<'_, S>,
        tag: Tag,
        _path: &mut P,
    ) -> Result<Option<i64>, DecodeError<S::Error>> {
        take_number(cons, tag)
    }
}

impl ReadNumber for i128 {
    ghost read = { IsSigned w128 };

    #[inline(always)]
    fn read_number<S: Source>(
        octets: &mut Primitive<'_, S>,
    ) -> Result<i128, DecodeError<S::Error>> {
        octets.to_i128()
    }
}

impl Type for i128 {
    ghost TAG = { integer_tag };

    #[inline(always)]
    fn tag() -> Tag {
        Tag::INTEGER
    }

    fn expect<P: Trace>(path: &mut P) {
        path.note(Part::Expected(Self::tag()));
    }

    ghost tags = { Only };

    ghost Key = { ℤ };

    ghost key = { λ x. x };

    ghost means = { λ _ t x. IsLeaf (IsSigned w128) t x };

    fn values_are_one() {}

    ghost tagged = { refl };

    ghost value_tags = { only_tagged integer_tagged };
}

impl<S: Source> Decode<S> for i128 {
    #[inline(always)]
    fn trace_opt_if<P: Trace>(
        _alloc: Global,
        cons: &mut Constructed<'_, S>,
        tag: Tag,
        _path: &mut P,
    ) -> Result<Option<i128>, DecodeError<S::Error>> {
        take_number(cons, tag)
    }
}
