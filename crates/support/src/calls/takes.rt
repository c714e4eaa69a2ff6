//! The calls that take a value by a closure.
ghost use Rattle.bcder.specs.calls.Views.{Moved, MovedContent, MovedOctets};

use super::answer::{Answer, number};
use bcder::Tag;
use bcder::decode::{Constructed, Content, DecodeError, Primitive, Source};

/// A call that takes a value by a closure.
#[derive(Clone, Copy)]
pub enum Take {
    Value,
    OptValue,
    ValueIf,
    OptValueIf,
    Primitive,
    OptPrimitive,
    PrimitiveIf,
    OptPrimitiveIf,
    Constructed,
    OptConstructed,
    ConstructedIf,
    OptConstructedIf,
    Sequence,
    OptSequence,
    Set,
    OptSet,
}

/// What the closure of a take does with the content that it gets. Each function gets the value's
/// tag, or the one that was asked for, and returns a number.
pub trait Inside {
    /// Reads content of either form.
    fn of_content<S: Source>(
        &mut self,
        tag: Tag,
        content: &mut Content<'_, S>,
    ) -> Result<u8, DecodeError<S::Error>>
        ensures { MovedContent S.stream content };

    /// Reads the octets of a primitive value.
    fn of_octets<S: Source>(
        &mut self,
        tag: Tag,
        octets: &mut Primitive<'_, S>,
    ) -> Result<u8, DecodeError<S::Error>>
        ensures { MovedOctets S.stream octets };

    /// Reads the values inside a constructed value.
    fn of_values<S: Source>(
        &mut self,
        tag: Tag,
        values: &mut Constructed<'_, S>,
    ) -> Result<u8, DecodeError<S::Error>>
        ensures { Moved S.stream values };
}

/// Takes a value of either form, or a primitive one.
fn take_octets<S: Source, I: Inside>(
    cons: &mut Constructed<'_, S>,
    take: Take,
    tag: Tag,
    inside: &mut I,
) -> Result<u8, DecodeError<S::Error>>
    ensures { Moved S.stream cons }
{
    match take {
        Take::ValueIf => cons.take_value_if(tag, |content| inside.of_content(tag, content)),
        Take::Primitive => cons.take_primitive(|found, octets| inside.of_octets(found, octets)),
        Take::PrimitiveIf => cons.take_primitive_if(tag, |octets| inside.of_octets(tag, octets)),
        _ => cons.take_value(|found, content| inside.of_content(found, content)),
    }
}

/// Takes a constructed value.
fn take_values<S: Source, I: Inside>(
    cons: &mut Constructed<'_, S>,
    take: Take,
    tag: Tag,
    inside: &mut I,
) -> Result<u8, DecodeError<S::Error>>
    ensures { Moved S.stream cons }
{
    match take {
        Take::ConstructedIf => {
            cons.take_constructed_if(tag, |values| inside.of_values(tag, values))
        }
        Take::Sequence => cons.take_sequence(|values| inside.of_values(tag, values)),
        Take::Set => cons.take_set(|values| inside.of_values(tag, values)),
        _ => cons.take_constructed(|found, values| inside.of_values(found, values)),
    }
}

/// Takes a value of either form, or a primitive one, if there is one.
fn take_opt_octets<S: Source, I: Inside>(
    cons: &mut Constructed<'_, S>,
    take: Take,
    tag: Tag,
    inside: &mut I,
) -> Result<Option<u8>, DecodeError<S::Error>>
    ensures { Moved S.stream cons }
{
    match take {
        Take::OptValueIf => cons.take_opt_value_if(tag, |content| inside.of_content(tag, content)),
        Take::OptPrimitive => {
            cons.take_opt_primitive(|found, octets| inside.of_octets(found, octets))
        }
        Take::OptPrimitiveIf => {
            cons.take_opt_primitive_if(tag, |octets| inside.of_octets(tag, octets))
        }
        _ => cons.take_opt_value(|found, content| inside.of_content(found, content)),
    }
}

/// Takes a constructed value, if there is one.
fn take_opt_values<S: Source, I: Inside>(
    cons: &mut Constructed<'_, S>,
    take: Take,
    tag: Tag,
    inside: &mut I,
) -> Result<Option<u8>, DecodeError<S::Error>>
    ensures { Moved S.stream cons }
{
    match take {
        Take::OptConstructedIf => {
            cons.take_opt_constructed_if(tag, |values| inside.of_values(tag, values))
        }
        Take::OptSequence => cons.take_opt_sequence(|values| inside.of_values(tag, values)),
        Take::OptSet => cons.take_opt_set(|values| inside.of_values(tag, values)),
        _ => cons.take_opt_constructed(|found, values| inside.of_values(found, values)),
    }
}

/// Makes the call, with a closure that does what `inside` does. A call that asks for a tag asks for
/// this one, unless it is that of SEQUENCEs or SETs.
pub fn take_by<S: Source, I: Inside>(
    cons: &mut Constructed<'_, S>,
    take: Take,
    tag: Tag,
    inside: &mut I,
) -> Result<Option<u8>, DecodeError<S::Error>>
    ensures { Moved S.stream cons }
{
    match take {
        Take::Value | Take::ValueIf | Take::Primitive | Take::PrimitiveIf => {
            Ok(Some(take_octets(cons, take, tag, inside)?))
        }
        Take::Constructed | Take::ConstructedIf | Take::Sequence | Take::Set => {
            Ok(Some(take_values(cons, take, tag, inside)?))
        }
        Take::OptValue | Take::OptValueIf | Take::OptPrimitive | Take::OptPrimitiveIf => {
            take_opt_octets(cons, take, tag, inside)
        }
        _ => take_opt_values(cons, take, tag, inside),
    }
}

/// Reads the number that the content is, or that it begins with.
#[derive(Clone, Copy)]
pub struct Number;

impl Inside for Number {
    fn of_content<S: Source>(
        &mut self,
        _tag: Tag,
        content: &mut Content<'_, S>,
    ) -> Result<u8, DecodeError<S::Error>> {
        if content.is_primitive() {
            content.to_u8()
        } else {
            content.as_constructed(|values| values.take_u8())
        }
    }

    fn of_octets<S: Source>(
        &mut self,
        _tag: Tag,
        octets: &mut Primitive<'_, S>,
    ) -> Result<u8, DecodeError<S::Error>> {
        octets.to_u8()
    }

    fn of_values<S: Source>(
        &mut self,
        _tag: Tag,
        values: &mut Constructed<'_, S>,
    ) -> Result<u8, DecodeError<S::Error>> {
        values.take_u8()
    }
}

/// Makes the call, and returns its answer.
pub fn ask<S: Source>(
    cons: &mut Constructed<'_, S>,
    take: Take,
) -> Result<Answer, DecodeError<S::Error>>
    ensures { Moved S.stream cons }
{
    let tag = match take {
        Take::ConstructedIf | Take::OptConstructedIf => Tag::SEQUENCE,
        _ => Tag::INTEGER,
    };
    Ok(number(take_by(cons, take, tag, &mut Number)?))
}
