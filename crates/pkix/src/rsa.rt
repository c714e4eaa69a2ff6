//! Keys of RSA.
ghost use Rattle.std.specs.Prelude.{refl};

use crate::AlgorithmIdentifier;
use asn1::{
    ByRef, Decode, DecodeParts, Encode, EncodeParts, Parts, Sequence, SequenceOf, SequenceTag,
    Trace, Type, UseParts,
};
use bcder::decode::{Constructed, DecodeError, Source};
use bcder::{Integer, Mode, OctetString, Tag};
use std::alloc::Global;

/// A public key of RSA (RFC 8017, A.1.1).
///
///     RSAPublicKey ::= SEQUENCE {
///         modulus         INTEGER,
///         publicExponent  INTEGER }
#[derive(Debug, Drop)]
pub struct RsaPublicKey {
    /// The modulus.
    pub modulus: Integer,

    /// The public exponent.
    pub public_exponent: Integer,
}

/// What defines [`RsaPublicKey`].
type RsaPublicKeyParts = Sequence<(Integer, Integer)>;

impl Parts for RsaPublicKey {
    type As = RsaPublicKeyParts;

    type Tags = SequenceTag;

    const NAME: &'static str = "RsaPublicKey";

    const PARTS: &'static [&'static str] = &["modulus", "public_exponent"];

    ghost parts = { λ x. (x.modulus, x.public_exponent) };

    ghost typed = { ⟦<RsaPublicKeyParts as Type>⟧ };

    fn from_parts(value: RsaPublicKeyParts) -> RsaPublicKey {
        let Sequence((modulus, public_exponent)) = value;
        RsaPublicKey {
            modulus,
            public_exponent,
        }
    }

    fn parts_are_one() {
        <RsaPublicKeyParts>::values_are_one();
    }
}

impl<S: Source> DecodeParts<S> for RsaPublicKey {
    fn trace_parts<P: Trace>(
        alloc: Global,
        cons: &mut Constructed<'_, S>,
        tag: Tag,
        path: &mut P,
    ) -> Result<Option<RsaPublicKeyParts>, DecodeError<S::Error>> {
        <RsaPublicKeyParts>::trace_opt_if(alloc, cons, tag, path)
    }
}

impl EncodeParts for RsaPublicKey {
    ghost written = { ⟦<RsaPublicKeyParts as Encode>⟧ };

    fn give_parts<T, U: UseParts<T>>(&self, tag: Tag, to: U, target: &mut T) -> U::Out {
        to.use_parts(
            &Sequence((ByRef(&self.modulus), ByRef(&self.public_exponent))),
            tag,
            target,
        )
    }

    fn are_read_back(tag: Tag, mode: Mode) {
        <RsaPublicKeyParts>::is_read_back(tag, mode);
    }

    ghost made = { λ v. (record { modulus = v.0; public_exponent = v.1 }, refl) };
}

/// A private key of RSA (RFC 8017, A.1.2).
///
///     RSAPrivateKey ::= SEQUENCE {
///         version          Version,
///         modulus          INTEGER,
///         publicExponent   INTEGER,
///         privateExponent  INTEGER,
///         prime1           INTEGER,
///         prime2           INTEGER,
///         exponent1        INTEGER,
///         exponent2        INTEGER,
///         coefficient      INTEGER,
///         otherPrimeInfos  OtherPrimeInfos OPTIONAL }
///
///     OtherPrimeInfos ::= SEQUENCE SIZE (1..MAX) OF OtherPrimeInfo
///
/// Any version from 0 to 255 is read, and an empty list of primes.
#[derive(Debug, Drop)]
pub struct RsaPrivateKey {
    /// 0 with two primes, and 1 with more.
    pub version: u8,

    /// The modulus, n.
    pub modulus: Integer,

    /// The public exponent, e.
    pub public_exponent: Integer,

    /// The private exponent, d.
    pub private_exponent: Integer,

    /// The first prime, p.
    pub prime1: Integer,

    /// The second prime, q.
    pub prime2: Integer,

    /// d modulo p - 1.
    pub exponent1: Integer,

    /// d modulo q - 1.
    pub exponent2: Integer,

    /// The inverse of q modulo p.
    pub coefficient: Integer,

    /// The other primes.
    pub other_prime_infos: Option<SequenceOf<OtherPrimeInfo>>,
}

/// What defines [`RsaPrivateKey`].
type RsaPrivateKeyParts = Sequence<
    (
        u8,
        Integer,
        Integer,
        Integer,
        Integer,
        Integer,
        Integer,
        Integer,
        Integer,
        Option<SequenceOf<OtherPrimeInfo>>,
    ),
>;

impl Parts for RsaPrivateKey {
    type As = RsaPrivateKeyParts;

    type Tags = SequenceTag;

    const NAME: &'static str = "RsaPrivateKey";

    const PARTS: &'static [&'static str] = &[
        "version",
        "modulus",
        "public_exponent",
        "private_exponent",
        "prime1",
        "prime2",
        "exponent1",
        "exponent2",
        "coefficient",
        "other_prime_infos",
    ];

    ghost parts = { λ x. (
      x.version,
      x.modulus,
      x.public_exponent,
      x.private_exponent,
      x.prime1,
      x.prime2,
      x.exponent1,
      x.exponent2,
      x.coefficient,
      x.other_prime_infos,
    ) };

    ghost typed = { ⟦<RsaPrivateKeyParts as Type>⟧ };

    fn from_parts(value: RsaPrivateKeyParts) -> RsaPrivateKey {
        let Sequence(
            (
                version,
                modulus,
                public_exponent,
                private_exponent,
                prime1,
                prime2,
                exponent1,
                exponent2,
                coefficient,
                other_prime_infos,
            ),
        ) = value;
        RsaPrivateKey {
            version,
            modulus,
            public_exponent,
            private_exponent,
            prime1,
            prime2,
            exponent1,
            exponent2,
            coefficient,
            other_prime_infos,
        }
    }

    fn parts_are_one() {
        <RsaPrivateKeyParts>::values_are_one();
    }
}

impl<S: Source> DecodeParts<S> for RsaPrivateKey {
    fn trace_parts<P: Trace>(
        alloc: Global,
        cons: &mut Constructed<'_, S>,
        tag: Tag,
        path: &mut P,
    ) -> Result<Option<RsaPrivateKeyParts>, DecodeError<S::Error>> {
        <RsaPrivateKeyParts>::trace_opt_if(alloc, cons, tag, path)
    }
}

impl EncodeParts for RsaPrivateKey {
    ghost written = { ⟦<RsaPrivateKeyParts as Encode>⟧ };

    fn give_parts<T, U: UseParts<T>>(&self, tag: Tag, to: U, target: &mut T) -> U::Out {
        to.use_parts(
            &Sequence((
                ByRef(&self.version),
                ByRef(&self.modulus),
                ByRef(&self.public_exponent),
                ByRef(&self.private_exponent),
                ByRef(&self.prime1),
                ByRef(&self.prime2),
                ByRef(&self.exponent1),
                ByRef(&self.exponent2),
                ByRef(&self.coefficient),
                ByRef(&self.other_prime_infos),
            )),
            tag,
            target,
        )
    }

    fn are_read_back(tag: Tag, mode: Mode) {
        <RsaPrivateKeyParts>::is_read_back(tag, mode);
    }

    ghost made = { λ v. (
      record {
        version = v.0;
        modulus = v.1;
        public_exponent = v.2;
        private_exponent = v.3;
        prime1 = v.4;
        prime2 = v.5;
        exponent1 = v.6;
        exponent2 = v.7;
        coefficient = v.8;
        other_prime_infos = v.9;
      },
      refl,
    ) };
}

/// Another prime of a key.
///
///     OtherPrimeInfo ::= SEQUENCE {
///         prime        INTEGER,
///         exponent     INTEGER,
///         coefficient  INTEGER }
#[derive(Debug, Drop)]
pub struct OtherPrimeInfo {
    /// The prime, r.
    pub prime: Integer,

    /// d modulo r - 1.
    pub exponent: Integer,

    /// The inverse of the product of the primes before it, modulo r.
    pub coefficient: Integer,
}

/// What defines [`OtherPrimeInfo`].
type OtherPrimeInfoParts = Sequence<(Integer, Integer, Integer)>;

impl Parts for OtherPrimeInfo {
    type As = OtherPrimeInfoParts;

    type Tags = SequenceTag;

    const NAME: &'static str = "OtherPrimeInfo";

    const PARTS: &'static [&'static str] = &["prime", "exponent", "coefficient"];

    ghost parts = { λ x. (x.prime, x.exponent, x.coefficient) };

    ghost typed = { ⟦<OtherPrimeInfoParts as Type>⟧ };

    fn from_parts(value: OtherPrimeInfoParts) -> OtherPrimeInfo {
        let Sequence((prime, exponent, coefficient)) = value;
        OtherPrimeInfo {
            prime,
            exponent,
            coefficient,
        }
    }

    fn parts_are_one() {
        <OtherPrimeInfoParts>::values_are_one();
    }
}

impl<S: Source> DecodeParts<S> for OtherPrimeInfo {
    fn trace_parts<P: Trace>(
        alloc: Global,
        cons: &mut Constructed<'_, S>,
        tag: Tag,
        path: &mut P,
    ) -> Result<Option<OtherPrimeInfoParts>, DecodeError<S::Error>> {
        <OtherPrimeInfoParts>::trace_opt_if(alloc, cons, tag, path)
    }
}

impl EncodeParts for OtherPrimeInfo {
    ghost written = { ⟦<OtherPrimeInfoParts as Encode>⟧ };

    fn give_parts<T, U: UseParts<T>>(&self, tag: Tag, to: U, target: &mut T) -> U::Out {
        to.use_parts(
            &Sequence((
                ByRef(&self.prime),
                ByRef(&self.exponent),
                ByRef(&self.coefficient),
            )),
            tag,
            target,
        )
    }

    fn are_read_back(tag: Tag, mode: Mode) {
        <OtherPrimeInfoParts>::is_read_back(tag, mode);
    }

    ghost made = { λ v. (record { prime = v.0; exponent = v.1; coefficient = v.2 }, refl) };
}

/// A digest, and how it was made (RFC 8017, section 9.2).
///
///     DigestInfo ::= SEQUENCE {
///         digestAlgorithm  DigestAlgorithm,
///         digest           OCTET STRING }
#[derive(Debug, Drop)]
pub struct DigestInfo {
    /// The algorithm of the digest.
    pub digest_algorithm: AlgorithmIdentifier,

    /// The digest.
    pub digest: OctetString,
}

/// What defines [`DigestInfo`].
type DigestInfoParts = Sequence<(AlgorithmIdentifier, OctetString)>;

impl Parts for DigestInfo {
    type As = DigestInfoParts;

    type Tags = SequenceTag;

    const NAME: &'static str = "DigestInfo";

    const PARTS: &'static [&'static str] = &["digest_algorithm", "digest"];

    ghost parts = { λ x. (x.digest_algorithm, x.digest) };

    ghost typed = { ⟦<DigestInfoParts as Type>⟧ };

    fn from_parts(value: DigestInfoParts) -> DigestInfo {
        let Sequence((digest_algorithm, digest)) = value;
        DigestInfo {
            digest_algorithm,
            digest,
        }
    }

    fn parts_are_one() {
        <DigestInfoParts>::values_are_one();
    }
}

impl<S: Source> DecodeParts<S> for DigestInfo {
    fn trace_parts<P: Trace>(
        alloc: Global,
        cons: &mut Constructed<'_, S>,
        tag: Tag,
        path: &mut P,
    ) -> Result<Option<DigestInfoParts>, DecodeError<S::Error>> {
        <DigestInfoParts>::trace_opt_if(alloc, cons, tag, path)
    }
}

impl EncodeParts for DigestInfo {
    ghost written = { ⟦<DigestInfoParts as Encode>⟧ };

    fn give_parts<T, U: UseParts<T>>(&self, tag: Tag, to: U, target: &mut T) -> U::Out {
        to.use_parts(
            &Sequence((ByRef(&self.digest_algorithm), ByRef(&self.digest))),
            tag,
            target,
        )
    }

    fn are_read_back(tag: Tag, mode: Mode) {
        <DigestInfoParts>::is_read_back(tag, mode);
    }

    ghost made = { λ v. (record { digest_algorithm = v.0; digest = v.1 }, refl) };
}
