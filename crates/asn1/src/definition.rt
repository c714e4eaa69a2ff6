//! A user's own type, defined by another (X.680, 16.1).
ghost use Rattle.std.specs.Prelude.{◌≡◌};

use crate::{Decode, DecodeParts, Parts, Trace, Type};
use bcder::Tag;
use bcder::decode::{Constructed, DecodeError, Source};
use std::alloc::Global;

/// A struct or enum that is defined by a type of ASN.1, as by `Validity ::= SEQUENCE { .. }`
/// (X.680, 16.1).
///
/// It then is a [`Type`] of its own, with the tags and the values of that type.
pub trait Definition: Drop + Sized {
    /// The type behind the `::=`.
    type As: Type;

    /// Its name, for errors. It may be left out.
    const NAME: &'static str = "";

    /// The names of its fields or alternatives, for errors. Without them, fields are shown by
    /// their number, from 0.
    const PARTS: &'static [&'static str] = &[];

    /// The value as one of that type.
    ghost parts: { Self → Self.As };

    /// Makes the value.
    fn from_parts(value: Self::As) -> Self
        ensures { parts result ≡ value };
}

impl<D: Definition> Parts for D {
    type As = D::As;

    type Tags = D::As;

    const NAME: &'static str = <D as Definition>::NAME;

    const PARTS: &'static [&'static str] = <D as Definition>::PARTS;

    ghost parts = { D.Definition.parts };

    ghost typed = { ⟦<D::As as Type>⟧ };

    #[inline(always)]
    fn from_parts(value: D::As) -> D {
        <D as Definition>::from_parts(value)
    }

    fn parts_are_one() {
        <D::As>::values_are_one();
    }
}

/// A [`Definition`] that is read from a source, because the type behind its `::=` is.
///
/// It is one line: `impl<S: Source> DecodeDefinition<S> for Validity {}`. By it the compiler knows
/// that the type is read without a look at its parts, so types can be nested to any depth.
pub trait DecodeDefinition<S: Source>: Definition<As: Decode<S>> {}

impl<S: Source, D: Definition + DecodeDefinition<S>> DecodeParts<S> for D {
    ghost may_lack = { D.As.may_lack };

    #[inline(always)]
    fn trace_parts<P: Trace>(
        alloc: Global,
        cons: &mut Constructed<'_, S>,
        tag: Tag,
        path: &mut P,
    ) -> Result<Option<D::As>, DecodeError<S::Error>> {
        <D::As>::trace_opt_if(alloc, cons, tag, path)
    }
}
