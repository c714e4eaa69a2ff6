//! Names of issuers and subjects.
ghost use Rattle.std.specs.Prelude.{refl};

use asn1::{
    Any, ByRef, Decode, DecodeDefinition, DecodeParts, Definition, Encode, EncodeDefinition,
    EncodeParts, ObjectIdentifier, Parts, Sequence, SequenceOf, SequenceTag, SetOf, Trace, Type,
    UseParts,
};
use bcder::decode::{Constructed, DecodeError, Source};
use bcder::{Mode, Tag};
use std::alloc::Global;

/// A name (RFC 5280, section 4.1.2.4).
///
///     Name ::= CHOICE { -- only one possibility for now --
///         rdnSequence  RDNSequence }
///
///     RDNSequence ::= SEQUENCE OF RelativeDistinguishedName
///
/// A CHOICE of one type has that type's encodings.
#[derive(Debug, Drop)]
pub struct Name {
    /// The parts of the name, from the root of the directory down.
    pub rdn_sequence: SequenceOf<RelativeDistinguishedName>,
}

/// What defines [`Name`].
type NameParts = SequenceOf<RelativeDistinguishedName>;

impl Parts for Name {
    type As = NameParts;

    type Tags = SequenceTag;

    const NAME: &'static str = "Name";

    ghost parts = { λ x. x.rdn_sequence };

    ghost typed = { ⟦<NameParts as Type>⟧ };

    fn from_parts(value: NameParts) -> Name {
        Name {
            rdn_sequence: value,
        }
    }

    fn parts_are_one() {
        <NameParts>::values_are_one();
    }
}

impl<S: Source> DecodeParts<S> for Name {
    fn trace_parts<P: Trace>(
        alloc: Global,
        cons: &mut Constructed<'_, S>,
        tag: Tag,
        path: &mut P,
    ) -> Result<Option<NameParts>, DecodeError<S::Error>> {
        <NameParts>::trace_opt_if(alloc, cons, tag, path)
    }
}

impl EncodeParts for Name {
    ghost written = { ⟦<NameParts as Encode>⟧ };

    fn give_parts<T, U: UseParts<T>>(&self, tag: Tag, to: U, target: &mut T) -> U::Out {
        to.use_parts(&self.rdn_sequence, tag, target)
    }

    fn are_read_back(tag: Tag, mode: Mode) {
        <NameParts>::is_read_back(tag, mode);
    }

    ghost made = { λ v. (record { rdn_sequence = v }, refl) };
}

/// One part of a name. It has one attribute or several.
///
///     RelativeDistinguishedName ::= SET SIZE (1..MAX) OF AttributeTypeAndValue
///
/// An empty one is read too.
pub type RelativeDistinguishedName = SetOf<AttributeTypeAndValue>;

/// An attribute.
///
///     AttributeTypeAndValue ::= SEQUENCE {
///         type   AttributeType,
///         value  AttributeValue }
///
///     AttributeType ::= OBJECT IDENTIFIER
///
///     AttributeValue ::= ANY -- DEFINED BY AttributeType
#[derive(Debug, Drop)]
pub struct AttributeTypeAndValue {
    /// Which attribute it is: the `type`, which is a word of Rust.
    pub attribute_type: ObjectIdentifier,

    /// Its value, of a type that depends on the attribute.
    pub value: Any,
}

impl Definition for AttributeTypeAndValue {
    type As = Sequence<(ObjectIdentifier, Any)>;

    const NAME: &'static str = "AttributeTypeAndValue";

    const PARTS: &'static [&'static str] = &["attribute_type", "value"];

    ghost parts = { λ x. (x.attribute_type, x.value) };

    fn from_parts(value: Sequence<(ObjectIdentifier, Any)>) -> AttributeTypeAndValue {
        let Sequence((attribute_type, value)) = value;
        AttributeTypeAndValue {
            attribute_type,
            value,
        }
    }
}

impl<S: Source> DecodeDefinition<S> for AttributeTypeAndValue {}

impl EncodeDefinition for AttributeTypeAndValue {
    fn give_parts<T, U: UseParts<T>>(&self, tag: Tag, to: U, target: &mut T) -> U::Out {
        to.use_parts(
            &Sequence((ByRef(&self.attribute_type), ByRef(&self.value))),
            tag,
            target,
        )
    }

    ghost made = { λ v. (record { attribute_type = v.0; value = v.1 }, refl) };
}
