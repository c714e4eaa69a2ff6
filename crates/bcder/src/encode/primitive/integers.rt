//! Contents octets of Rust's integers (X.690, 8.3).
ghost use Rattle.std.specs.Prelude.{pos};
ghost use Rattle.bcder.specs.x690.Identifier.{universal};
ghost use Rattle.bcder.specs.x690.Integer.{integer_octets};
ghost use Rattle.bcder.specs.calls.Encoders.{SizeOfContents, WritesContents};
ghost use Rattle.bcder.specs.calls.Encoders.{WritesPrimitive, into_result};
ghost use Rattle.bcder.specs.calls.Meaning.{Exactly};
ghost use Rattle.bcder.specs.laws.Integers.{integer_octets_are};
ghost use Rattle.bcder.specs.laws.Meanings.{Exactly_lawful};

use super::PrimitiveContent;
use crate::encode::short::{put_five, put_short};
use crate::encode::slot::Failed;
use crate::encode::target::write_all;
use crate::encode::{EncodeError, WriteError};
use crate::int::octets::Octets;
use crate::mode::Mode;
use crate::tag::Tag;
use std::io;

/// Returns the number of contents octets of an unsigned integer.
#[inline(always)]
fn unsigned_len(x: u128) -> Result<usize, EncodeError>
    ensures { SizeOfContents (Exactly (integer_octets (pos x))) ⊥ result }
{
    Ok(Octets::of(false, x).len())
}

/// Writes the contents octets of an unsigned integer.
#[inline(always)]
fn write_unsigned<W: io::Write>(x: u128, target: &mut W) -> Result<(), WriteError>
    ensures { WritesContents W.contents target (Exactly (integer_octets (pos x))) ⊥ result }
{
    write_all(target, Octets::of(false, x).as_slice())
}

/// Returns the number of contents octets of a signed integer.
#[inline(always)]
fn signed_len(x: i128) -> Result<usize, EncodeError>
    ensures { SizeOfContents (Exactly (integer_octets x)) ⊥ result }
{
    Ok(Octets::of_signed(x).len())
}

/// Writes the contents octets of a signed integer.
#[inline(always)]
fn write_signed<W: io::Write>(x: i128, target: &mut W) -> Result<(), WriteError>
    ensures { WritesContents W.contents target (Exactly (integer_octets x)) ⊥ result }
{
    write_all(target, Octets::of_signed(x).as_slice())
}

/// Writes an unsigned integer of any size as a value.
fn put_any_unsigned<W: io::Write>(
    x: u128,
    tag: Tag,
    target: &mut W,
    why: &mut WriteError,
) -> Result<(), Failed>
    ensures { WritesPrimitive W.contents target tag (Exactly (integer_octets (pos x))) ⊥
        (into_result result why.new) }
{
    put_short(tag, Octets::of(false, x), target, why)
}

/// Writes an unsigned integer as a value. The octets of a larger one are made anew, so that those
/// of a small one need not be in memory.
#[inline(always)]
fn put_unsigned<W: io::Write>(
    x: u128,
    tag: Tag,
    target: &mut W,
    why: &mut WriteError,
) -> Result<(), Failed>
    ensures { WritesPrimitive W.contents target tag (Exactly (integer_octets (pos x))) ⊥
        (into_result result why.new) }
{
    let contents = Octets::of(false, x);
    let len = contents.len();
    if len > 5 {
        return put_any_unsigned(x, tag, target, why);
    }
    let Some(identifier) = tag.single_octet(false) else {
        return put_any_unsigned(x, tag, target, why);
    };
    put_five(identifier, contents, target, why)
}

/// Writes a signed integer of any size as a value.
fn put_any_signed<W: io::Write>(
    x: i128,
    tag: Tag,
    target: &mut W,
    why: &mut WriteError,
) -> Result<(), Failed>
    ensures { WritesPrimitive W.contents target tag (Exactly (integer_octets x)) ⊥
        (into_result result why.new) }
{
    put_short(tag, Octets::of_signed(x), target, why)
}

/// Writes a signed integer as a value, like `put_unsigned`.
#[inline(always)]
fn put_signed<W: io::Write>(
    x: i128,
    tag: Tag,
    target: &mut W,
    why: &mut WriteError,
) -> Result<(), Failed>
    ensures { WritesPrimitive W.contents target tag (Exactly (integer_octets x)) ⊥
        (into_result result why.new) }
{
    let contents = Octets::of_signed(x);
    let len = contents.len();
    if len > 5 {
        return put_any_signed(x, tag, target, why);
    }
    let Some(identifier) = tag.single_octet(false) else {
        return put_any_signed(x, tag, target, why);
    };
    put_five(identifier, contents, target, why)
}

impl PrimitiveContent for u8 {
    ghost own_tag = { record { class = universal; number = 2 } };

    ghost means = { λ x _. Exactly (integer_octets (pos x)) };

    fn tag() -> Tag {
        Tag::INTEGER
    }

    #[inline(always)]
    fn encoded_len(&self, _mode: Mode) -> Result<usize, EncodeError> {
        unsigned_len(u128::from(*self))
    }

    #[inline(always)]
    fn write_encoded<W: io::Write>(&self, _mode: Mode, target: &mut W) -> Result<(), WriteError> {
        write_unsigned(u128::from(*self), target)
    }

    #[inline(always)]
    fn write_value<W: io::Write>(
        &self,
        tag: Tag,
        _len: usize,
        _mode: Mode,
        target: &mut W,
        why: &mut WriteError,
    ) -> Result<(), Failed> {
        put_unsigned(u128::from(*self), tag, target, why)
    }

    ghost lawful = { λ x _. Exactly_lawful (integer_octets (pos x)) (integer_octets_are (pos x)) };
}

impl PrimitiveContent for u16 {
    ghost own_tag = { record { class = universal; number = 2 } };

    ghost means = { λ x _. Exactly (integer_octets (pos x)) };

    fn tag() -> Tag {
        Tag::INTEGER
    }

    #[inline(always)]
    fn encoded_len(&self, _mode: Mode) -> Result<usize, EncodeError> {
        unsigned_len(u128::from(*self))
    }

    #[inline(always)]
    fn write_encoded<W: io::Write>(&self, _mode: Mode, target: &mut W) -> Result<(), WriteError> {
        write_unsigned(u128::from(*self), target)
    }

    #[inline(always)]
    fn write_value<W: io::Write>(
        &self,
        tag: Tag,
        _len: usize,
        _mode: Mode,
        target: &mut W,
        why: &mut WriteError,
    ) -> Result<(), Failed> {
        put_unsigned(u128::from(*self), tag, target, why)
    }

    ghost lawful = { λ x _. Exactly_lawful (integer_octets (pos x)) (integer_octets_are (pos x)) };
}

impl PrimitiveContent for u32 {
    ghost own_tag = { record { class = universal; number = 2 } };

    ghost means = { λ x _. Exactly (integer_octets (pos x)) };

    fn tag() -> Tag {
        Tag::INTEGER
    }

    #[inline(always)]
    fn encoded_len(&self, _mode: Mode) -> Result<usize, EncodeError> {
        unsigned_len(u128::from(*self))
    }

    #[inline(always)]
    fn write_encoded<W: io::Write>(&self, _mode: Mode, target: &mut W) -> Result<(), WriteError> {
        write_unsigned(u128::from(*self), target)
    }

    #[inline(always)]
    fn write_value<W: io::Write>(
        &self,
        tag: Tag,
        _len: usize,
        _mode: Mode,
        target: &mut W,
        why: &mut WriteError,
    ) -> Result<(), Failed> {
        put_unsigned(u128::from(*self), tag, target, why)
    }

    ghost lawful = { λ x _. Exactly_lawful (integer_octets (pos x)) (integer_octets_are (pos x)) };
}

impl PrimitiveContent for u64 {
    ghost own_tag = { record { class = universal; number = 2 } };

    ghost means = { λ x _. Exactly (integer_octets (pos x)) };

    fn tag() -> Tag {
        Tag::INTEGER
    }

    #[inline(always)]
    fn encoded_len(&self, _mode: Mode) -> Result<usize, EncodeError> {
        unsigned_len(u128::from(*self))
    }

    #[inline(always)]
    fn write_encoded<W: io::Write>(&self, _mode: Mode, target: &mut W) -> Result<(), WriteError> {
        write_unsigned(u128::from(*self), target)
    }

    #[inline(always)]
    fn write_value<W: io::Write>(
        &self,
        tag: Tag,
        _len: usize,
        _mode: Mode,
        target: &mut W,
        why: &mut WriteError,
    ) -> Result<(), Failed> {
        put_unsigned(u128::from(*self), tag, target, why)
    }

    ghost lawful = { λ x _. Exactly_lawful (integer_octets (pos x)) (integer_octets_are (pos x)) };
}

impl PrimitiveContent for u128 {
    ghost own_tag = { record { class = universal; number = 2 } };

    ghost means = { λ x _. Exactly (integer_octets (pos x)) };

    fn tag() -> Tag {
        Tag::INTEGER
    }

    #[inline(always)]
    fn encoded_len(&self, _mode: Mode) -> Result<usize, EncodeError> {
        unsigned_len(*self)
    }

    #[inline(always)]
    fn write_encoded<W: io::Write>(&self, _mode: Mode, target: &mut W) -> Result<(), WriteError> {
        write_unsigned(*self, target)
    }

    #[inline(always)]
    fn write_value<W: io::Write>(
        &self,
        tag: Tag,
        _len: usize,
        _mode: Mode,
        target: &mut W,
        why: &mut WriteError,
    ) -> Result<(), Failed> {
        put_unsigned(*self, tag, target, why)
    }

    ghost lawful = { λ x _. Exactly_lawful (integer_octets (pos x)) (integer_octets_are (pos x)) };
}

impl PrimitiveContent for i8 {
    ghost own_tag = { record { class = universal; number = 2 } };

    ghost means = { λ x _. Exactly (integer_octets x) };

    fn tag() -> Tag {
        Tag::INTEGER
    }

    #[inline(always)]
    fn encoded_len(&self, _mode: Mode) -> Result<usize, EncodeError> {
        signed_len(i128::from(*self))
    }

    #[inline(always)]
    fn write_encoded<W: io::Write>(&self, _mode: Mode, target: &mut W) -> Result<(), WriteError> {
        write_signed(i128::from(*self), target)
    }

    #[inline(always)]
    fn write_value<W: io::Write>(
        &self,
        tag: Tag,
        _len: usize,
        _mode: Mode,
        target: &mut W,
        why: &mut WriteError,
    ) -> Result<(), Failed> {
        put_signed(i128::from(*self), tag, target, why)
    }

    ghost lawful = { λ x _. Exactly_lawful (integer_octets x) (integer_octets_are x) };
}

impl PrimitiveContent for i16 {
    ghost own_tag = { record { class = universal; number = 2 } };

    ghost means = { λ x _. Exactly (integer_octets x) };

    fn tag() -> Tag {
        Tag::INTEGER
    }

    #[inline(always)]
    fn encoded_len(&self, _mode: Mode) -> Result<usize, EncodeError> {
        signed_len(i128::from(*self))
    }

    #[inline(always)]
    fn write_encoded<W: io::Write>(&self, _mode: Mode, target: &mut W) -> Result<(), WriteError> {
        write_signed(i128::from(*self), target)
    }

    #[inline(always)]
    fn write_value<W: io::Write>(
        &self,
        tag: Tag,
        _len: usize,
        _mode: Mode,
        target: &mut W,
        why: &mut WriteError,
    ) -> Result<(), Failed> {
        put_signed(i128::from(*self), tag, target, why)
    }

    ghost lawful = { λ x _. Exactly_lawful (integer_octets x) (integer_octets_are x) };
}

impl PrimitiveContent for i32 {
    ghost own_tag = { record { class = universal; number = 2 } };

    ghost means = { λ x _. Exactly (integer_octets x) };

    fn tag() -> Tag {
        Tag::INTEGER
    }

    #[inline(always)]
    fn encoded_len(&self, _mode: Mode) -> Result<usize, EncodeError> {
        signed_len(i128::from(*self))
    }

    #[inline(always)]
    fn write_encoded<W: io::Write>(&self, _mode: Mode, target: &mut W) -> Result<(), WriteError> {
        write_signed(i128::from(*self), target)
    }

    #[inline(always)]
    fn write_value<W: io::Write>(
        &self,
        tag: Tag,
        _len: usize,
        _mode: Mode,
        target: &mut W,
        why: &mut WriteError,
    ) -> Result<(), Failed> {
        put_signed(i128::from(*self), tag, target, why)
    }

    ghost lawful = { λ x _. Exactly_lawful (integer_octets x) (integer_octets_are x) };
}

impl PrimitiveContent for i64 {
    ghost own_tag = { record { class = universal; number = 2 } };

    ghost means = { λ x _. Exactly (integer_octets x) };

    fn tag() -> Tag {
        Tag::INTEGER
    }

    #[inline(always)]
    fn encoded_len(&self, _mode: Mode) -> Result<usize, EncodeError> {
        signed_len(i128::from(*self))
    }

    #[inline(always)]
    fn write_encoded<W: io::Write>(&self, _mode: Mode, target: &mut W) -> Result<(), WriteError> {
        write_signed(i128::from(*self), target)
    }

    #[inline(always)]
    fn write_value<W: io::Write>(
        &self,
        tag: Tag,
        _len: usize,
        _mode: Mode,
        target: &mut W,
        why: &mut WriteError,
    ) -> Result<(), Failed> {
        put_signed(i128::from(*self), tag, target, why)
    }

    ghost lawful = { λ x _. Exactly_lawful (integer_octets x) (integer_octets_are x) };
}

impl PrimitiveContent for i128 {
    ghost own_tag = { record { class = universal; number = 2 } };

    ghost means = { λ x _. Exactly (integer_octets x) };

    fn tag() -> Tag {
        Tag::INTEGER
    }

    #[inline(always)]
    fn encoded_len(&self, _mode: Mode) -> Result<usize, EncodeError> {
        signed_len(*self)
    }

    #[inline(always)]
    fn write_encoded<W: io::Write>(&self, _mode: Mode, target: &mut W) -> Result<(), WriteError> {
        write_signed(*self, target)
    }

    #[inline(always)]
    fn write_value<W: io::Write>(
        &self,
        tag: Tag,
        _len: usize,
        _mode: Mode,
        target: &mut W,
        why: &mut WriteError,
    ) -> Result<(), Failed> {
        put_signed(*self, tag, target, why)
    }

    ghost lawful = { λ x _. Exactly_lawful (integer_octets x) (integer_octets_are x) };
}
