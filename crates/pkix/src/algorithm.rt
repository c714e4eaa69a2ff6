//! Algorithms, and the keys that belong to them.
ghost use Rattle.std.specs.Prelude.{refl};

use asn1::{
    Any, ByRef, Decode, DecodeParts, Encode, EncodeParts, ObjectIdentifier, Parts, Sequence,
    SequenceTag, Trace, Type, UseParts,
};
use bcder::decode::{Constructed, DecodeError, Source};
use bcder::{BitString, Mode, Tag};
use std::alloc::Global;

/// An algorithm, with what it is used with (RFC 5280, section 4.1.1.2).
///
///     AlgorithmIdentifier ::= SEQUENCE {
///         algorithm   OBJECT IDENTIFIER,
///         parameters  ANY DEFINED BY algorithm OPTIONAL }
#[derive(Debug, Drop)]
pub struct AlgorithmIdentifier {
    /// Which algorithm it is.
    pub algorithm: ObjectIdentifier,

    /// Its parameters, of a type that depends on the algorithm.
    pub parameters: Option<Any>,
}

/// What defines [`AlgorithmIdentifier`].
type AlgorithmIdentifierParts = Sequence<(ObjectIdentifier, Option<Any>)>;

impl Parts for AlgorithmIdentifier {
    type As = AlgorithmIdentifierParts;

    type Tags = SequenceTag;

    const NAME: &'static str = "AlgorithmIdentifier";

    const PARTS: &'static [&'static str] = &["algorithm", "parameters"];

    ghost parts = { λ x. (x.algorithm, x.parameters) };

    ghost typed = { ⟦<AlgorithmIdentifierParts as Type>⟧ };

    fn from_parts(value: AlgorithmIdentifierParts) -> AlgorithmIdentifier {
        let Sequence((algorithm, parameters)) = value;
        AlgorithmIdentifier {
            algorithm,
            parameters,
        }
    }

    fn parts_are_one() {
        <AlgorithmIdentifierParts>::values_are_one();
    }
}

impl<S: Source> DecodeParts<S> for AlgorithmIdentifier {
    fn trace_parts<P: Trace>(
        alloc: Global,
        cons: &mut Constructed<'_, S>,
        tag: Tag,
        path: &mut P,
    ) -> Result<Option<AlgorithmIdentifierParts>, DecodeError<S::Error>> {
        <AlgorithmIdentifierParts>::trace_opt_if(alloc, cons, tag, path)
    }
}

impl EncodeParts for AlgorithmIdentifier {
    ghost written = { ⟦<AlgorithmIdentifierParts as Encode>⟧ };

    fn give_parts<T, U: UseParts<T>>(&self, tag: Tag, to: U, target: &mut T) -> U::Out {
        to.use_parts(
            &Sequence((ByRef(&self.algorithm), ByRef(&self.parameters))),
            tag,
            target,
        )
    }

    fn are_read_back(tag: Tag, mode: Mode) {
        <AlgorithmIdentifierParts>::is_read_back(tag, mode);
    }

    ghost made = { λ v. (record { algorithm = v.0; parameters = v.1 }, refl) };
}

/// A public key, and the algorithm that it is of (RFC 5280, section 4.1.2.7).
///
///     SubjectPublicKeyInfo ::= SEQUENCE {
///         algorithm         AlgorithmIdentifier,
///         subjectPublicKey  BIT STRING }
#[derive(Debug, Drop)]
pub struct SubjectPublicKeyInfo {
    /// The algorithm.
    pub algorithm: AlgorithmIdentifier,

    /// The key, in an encoding that depends on the algorithm.
    pub subject_public_key: BitString,
}

/// What defines [`SubjectPublicKeyInfo`].
type SubjectPublicKeyInfoParts = Sequence<(AlgorithmIdentifier, BitString)>;

impl Parts for SubjectPublicKeyInfo {
    type As = SubjectPublicKeyInfoParts;

    type Tags = SequenceTag;

    const NAME: &'static str = "SubjectPublicKeyInfo";

    const PARTS: &'static [&'static str] = &["algorithm", "subject_public_key"];

    ghost parts = { λ x. (x.algorithm, x.subject_public_key) };

    ghost typed = { ⟦<SubjectPublicKeyInfoParts as Type>⟧ };

    fn from_parts(value: SubjectPublicKeyInfoParts) -> SubjectPublicKeyInfo {
        let Sequence((algorithm, subject_public_key)) = value;
        SubjectPublicKeyInfo {
            algorithm,
            subject_public_key,
        }
    }

    fn parts_are_one() {
        <SubjectPublicKeyInfoParts>::values_are_one();
    }
}

impl<S: Source> DecodeParts<S> for SubjectPublicKeyInfo {
    fn trace_parts<P: Trace>(
        alloc: Global,
        cons: &mut Constructed<'_, S>,
        tag: Tag,
        path: &mut P,
    ) -> Result<Option<SubjectPublicKeyInfoParts>, DecodeError<S::Error>> {
        <SubjectPublicKeyInfoParts>::trace_opt_if(alloc, cons, tag, path)
    }
}

impl EncodeParts for SubjectPublicKeyInfo {
    ghost written = { ⟦<SubjectPublicKeyInfoParts as Encode>⟧ };

    fn give_parts<T, U: UseParts<T>>(&self, tag: Tag, to: U, target: &mut T) -> U::Out {
        to.use_parts(
            &Sequence((ByRef(&self.algorithm), ByRef(&self.subject_public_key))),
            tag,
            target,
        )
    }

    fn are_read_back(tag: Tag, mode: Mode) {
        <SubjectPublicKeyInfoParts>::is_read_back(tag, mode);
    }

    ghost made = { λ v. (record { algorithm = v.0; subject_public_key = v.1 }, refl) };
}
