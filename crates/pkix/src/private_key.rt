//! Private keys of any algorithm.
ghost use Rattle.std.specs.Prelude.{refl};

use crate::{AlgorithmIdentifier, Attribute};
use asn1::{
    ByRef, Context, Decode, DecodeParts, Encode, EncodeParts, Implicit, Parts, Sequence,
    SequenceTag, SetOf, Trace, Type, UseParts,
};
use bcder::decode::{Constructed, DecodeError, Source};
use bcder::{BitString, Mode, OctetString, Tag};
use std::alloc::Global;

/// A private key, and maybe its public one (RFC 5958, section 2; RFC 5208, section 5).
///
///     OneAsymmetricKey ::= SEQUENCE {
///         version              Version,
///         privateKeyAlgorithm  PrivateKeyAlgorithmIdentifier,
///         privateKey           PrivateKey,
///         attributes           [0] Attributes OPTIONAL,
///         ...,
///         [[2: publicKey       [1] PublicKey OPTIONAL ]],
///         ... }
///
///     Version ::= INTEGER { v1(0), v2(1) }
///
///     PrivateKey ::= OCTET STRING
///
///     PublicKey ::= BIT STRING
///
///     Attributes ::= SET OF Attribute
///
/// Any version from 0 to 255 is read.
#[derive(Debug, Drop)]
pub struct PrivateKeyInfo {
    /// 0 is the first version, and 1 the second, which may have a public key.
    pub version: u8,

    /// The algorithm of the key.
    pub private_key_algorithm: AlgorithmIdentifier,

    /// The key, as an encoding of a type that depends on the algorithm.
    pub private_key: OctetString,

    /// What else is said of the key.
    pub attributes: Option<Implicit<Context<0>, SetOf<Attribute>>>,

    /// The public key.
    pub public_key: Option<Implicit<Context<1>, BitString>>,
}

/// What defines [`PrivateKeyInfo`].
type PrivateKeyInfoParts = Sequence<
    (
        u8,
        AlgorithmIdentifier,
        OctetString,
        Option<Implicit<Context<0>, SetOf<Attribute>>>,
        Option<Implicit<Context<1>, BitString>>,
    ),
>;

impl Parts for PrivateKeyInfo {
    type As = PrivateKeyInfoParts;

    type Tags = SequenceTag;

    const NAME: &'static str = "PrivateKeyInfo";

    const PARTS: &'static [&'static str] = &[
        "version",
        "private_key_algorithm",
        "private_key",
        "attributes",
        "public_key",
    ];

    ghost parts = { λ x. (
      x.version,
      x.private_key_algorithm,
      x.private_key,
      x.attributes,
      x.public_key,
    ) };

    ghost typed = { ⟦<PrivateKeyInfoParts as Type>⟧ };

    fn from_parts(value: PrivateKeyInfoParts) -> PrivateKeyInfo {
        let Sequence((version, private_key_algorithm, private_key, attributes, public_key)) = value;
        PrivateKeyInfo {
            version,
            private_key_algorithm,
            private_key,
            attributes,
            public_key,
        }
    }

    fn parts_are_one() {
        <PrivateKeyInfoParts>::values_are_one();
    }
}

impl<S: Source> DecodeParts<S> for PrivateKeyInfo {
    fn trace_parts<P: Trace>(
        alloc: Global,
        cons: &mut Constructed<'_, S>,
        tag: Tag,
        path: &mut P,
    ) -> Result<Option<PrivateKeyInfoParts>, DecodeError<S::Error>> {
        <PrivateKeyInfoParts>::trace_opt_if(alloc, cons, tag, path)
    }
}

impl EncodeParts for PrivateKeyInfo {
    ghost written = { ⟦<PrivateKeyInfoParts as Encode>⟧ };

    fn give_parts<T, U: UseParts<T>>(&self, tag: Tag, to: U, target: &mut T) -> U::Out {
        to.use_parts(
            &Sequence((
                ByRef(&self.version),
                ByRef(&self.private_key_algorithm),
                ByRef(&self.private_key),
                ByRef(&self.attributes),
                ByRef(&self.public_key),
            )),
            tag,
            target,
        )
    }

    fn are_read_back(tag: Tag, mode: Mode) {
        <PrivateKeyInfoParts>::is_read_back(tag, mode);
    }

    ghost made = { λ v. (
      record {
        version = v.0;
        private_key_algorithm = v.1;
        private_key = v.2;
        attributes = v.3;
        public_key = v.4;
      },
      refl,
    ) };
}

/// A private key that is encrypted (RFC 5958, section 3).
///
///     EncryptedPrivateKeyInfo ::= SEQUENCE {
///         encryptionAlgorithm  EncryptionAlgorithmIdentifier,
///         encryptedData        EncryptedData }
///
///     EncryptedData ::= OCTET STRING
#[derive(Debug, Drop)]
pub struct EncryptedPrivateKeyInfo {
    /// How it is encrypted.
    pub encryption_algorithm: AlgorithmIdentifier,

    /// The encryption of a [`PrivateKeyInfo`].
    pub encrypted_data: OctetString,
}

/// What defines [`EncryptedPrivateKeyInfo`].
type EncryptedPrivateKeyInfoParts = Sequence<(AlgorithmIdentifier, OctetString)>;

impl Parts for EncryptedPrivateKeyInfo {
    type As = EncryptedPrivateKeyInfoParts;

    type Tags = SequenceTag;

    const NAME: &'static str = "EncryptedPrivateKeyInfo";

    const PARTS: &'static [&'static str] = &["encryption_algorithm", "encrypted_data"];

    ghost parts = { λ x. (x.encryption_algorithm, x.encrypted_data) };

    ghost typed = { ⟦<EncryptedPrivateKeyInfoParts as Type>⟧ };

    fn from_parts(value: EncryptedPrivateKeyInfoParts) -> EncryptedPrivateKeyInfo {
        let Sequence((encryption_algorithm, encrypted_data)) = value;
        EncryptedPrivateKeyInfo {
            encryption_algorithm,
            encrypted_data,
        }
    }

    fn parts_are_one() {
        <EncryptedPrivateKeyInfoParts>::values_are_one();
    }
}

impl<S: Source> DecodeParts<S> for EncryptedPrivateKeyInfo {
    fn trace_parts<P: Trace>(
        alloc: Global,
        cons: &mut Constructed<'_, S>,
        tag: Tag,
        path: &mut P,
    ) -> Result<Option<EncryptedPrivateKeyInfoParts>, DecodeError<S::Error>> {
        <EncryptedPrivateKeyInfoParts>::trace_opt_if(alloc, cons, tag, path)
    }
}

impl EncodeParts for EncryptedPrivateKeyInfo {
    ghost written = { ⟦<EncryptedPrivateKeyInfoParts as Encode>⟧ };

    fn give_parts<T, U: UseParts<T>>(&self, tag: Tag, to: U, target: &mut T) -> U::Out {
        to.use_parts(
            &Sequence((
                ByRef(&self.encryption_algorithm),
                ByRef(&self.encrypted_data),
            )),
            tag,
            target,
        )
    }

    fn are_read_back(tag: Tag, mode: Mode) {
        <EncryptedPrivateKeyInfoParts>::is_read_back(tag, mode);
    }

    ghost made = { λ v. (record { encryption_algorithm = v.0; encrypted_data = v.1 }, refl) };
}
