//! Where there is more about an issuer or a subject.
ghost use Rattle.std.specs.Prelude.{refl};

use asn1::{
    ByRef, Decode, DecodeParts, Encode, EncodeParts, ObjectIdentifier, Parts, Sequence, SequenceOf,
    SequenceTag, Trace, Type, UseParts,
};
use bcder::decode::{Constructed, DecodeError, Source};
use bcder::{Mode, Tag};
use general_names::GeneralName;
use std::alloc::Global;

/// Where there is more about the issuer (RFC 5280, section 4.2.2.1).
///
///     AuthorityInfoAccessSyntax ::= SEQUENCE SIZE (1..MAX) OF AccessDescription
///
/// An empty list is read too.
pub type AuthorityInfoAccess = SequenceOf<AccessDescription>;

/// Where there is more about the subject (RFC 5280, section 4.2.2.2).
///
///     SubjectInfoAccessSyntax ::= SEQUENCE SIZE (1..MAX) OF AccessDescription
///
/// An empty list is read too.
pub type SubjectInfoAccess = SequenceOf<AccessDescription>;

/// What there is, and where (RFC 5280, section 4.2.2.1).
///
///     AccessDescription ::= SEQUENCE {
///         accessMethod    OBJECT IDENTIFIER,
///         accessLocation  GeneralName }
#[derive(Debug, Drop)]
pub struct AccessDescription {
    /// What there is, and in which form.
    pub access_method: ObjectIdentifier,

    /// Where it is.
    pub access_location: GeneralName,
}

/// What defines [`AccessDescription`].
type AccessDescriptionParts = Sequence<(ObjectIdentifier, GeneralName)>;

impl Parts for AccessDescription {
    type As = AccessDescriptionParts;

    type Tags = SequenceTag;

    const NAME: &'static str = "AccessDescription";

    const PARTS: &'static [&'static str] = &["access_method", "access_location"];

    ghost parts = { λ x. (x.access_method, x.access_location) };

    ghost typed = { ⟦<AccessDescriptionParts as Type>⟧ };

    fn from_parts(value: AccessDescriptionParts) -> AccessDescription {
        let Sequence((access_method, access_location)) = value;
        AccessDescription {
            access_method,
            access_location,
        }
    }

    fn parts_are_one() {
        <AccessDescriptionParts>::values_are_one();
    }
}

impl<S: Source> DecodeParts<S> for AccessDescription {
    fn trace_parts<P: Trace>(
        alloc: Global,
        cons: &mut Constructed<'_, S>,
        tag: Tag,
        path: &mut P,
    ) -> Result<Option<AccessDescriptionParts>, DecodeError<S::Error>> {
        <AccessDescriptionParts>::trace_opt_if(alloc, cons, tag, path)
    }
}

impl EncodeParts for AccessDescription {
    ghost written = { ⟦<AccessDescriptionParts as Encode>⟧ };

    fn give_parts<T, U: UseParts<T>>(&self, tag: Tag, to: U, target: &mut T) -> U::Out {
        to.use_parts(
            &Sequence((ByRef(&self.access_method), ByRef(&self.access_location))),
            tag,
            target,
        )
    }

    fn are_read_back(tag: Tag, mode: Mode) {
        <AccessDescriptionParts>::is_read_back(tag, mode);
    }

    ghost made = { λ v. (record { access_method = v.0; access_location = v.1 }, refl) };
}
