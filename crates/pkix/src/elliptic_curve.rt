//! Keys and signatures of elliptic curves, and of DSA.
ghost use Rattle.std.specs.Prelude.{refl};

use asn1::{
    ByRef, Context, Decode, DecodeParts, Encode, EncodeParts, Explicit, ObjectIdentifier, Parts,
    Sequence, SequenceTag, Trace, Type, UseParts,
};
use bcder::decode::{Constructed, DecodeError, Source};
use bcder::{BitString, Integer, Mode, OctetString, Tag};
use std::alloc::Global;

/// A private key of an elliptic curve (RFC 5915, section 3).
///
///     ECPrivateKey ::= SEQUENCE {
///         version     INTEGER { ecPrivkeyVer1(1) },
///         privateKey  OCTET STRING,
///         parameters  [0] EXPLICIT ECParameters {{ NamedCurve }} OPTIONAL,
///         publicKey   [1] EXPLICIT BIT STRING OPTIONAL }
///
/// Any version from 0 to 255 is read.
#[derive(Debug, Drop)]
pub struct EcPrivateKey {
    /// The version, which is 1.
    pub version: u8,

    /// The key.
    pub private_key: OctetString,

    /// The curve.
    pub parameters: Option<Explicit<Context<0>, EcParameters>>,

    /// The public key.
    pub public_key: Option<Explicit<Context<1>, BitString>>,
}

/// What defines [`EcPrivateKey`].
type EcPrivateKeyParts = Sequence<
    (
        u8,
        OctetString,
        Option<Explicit<Context<0>, EcParameters>>,
        Option<Explicit<Context<1>, BitString>>,
    ),
>;

impl Parts for EcPrivateKey {
    type As = EcPrivateKeyParts;

    type Tags = SequenceTag;

    const NAME: &'static str = "EcPrivateKey";

    const PARTS: &'static [&'static str] = &["version", "private_key", "parameters", "public_key"];

    ghost parts = { λ x. (x.version, x.private_key, x.parameters, x.public_key) };

    ghost typed = { ⟦<EcPrivateKeyParts as Type>⟧ };

    fn from_parts(value: EcPrivateKeyParts) -> EcPrivateKey {
        let Sequence((version, private_key, parameters, public_key)) = value;
        EcPrivateKey {
            version,
            private_key,
            parameters,
            public_key,
        }
    }

    fn parts_are_one() {
        <EcPrivateKeyParts>::values_are_one();
    }
}

impl<S: Source> DecodeParts<S> for EcPrivateKey {
    fn trace_parts<P: Trace>(
        alloc: Global,
        cons: &mut Constructed<'_, S>,
        tag: Tag,
        path: &mut P,
    ) -> Result<Option<EcPrivateKeyParts>, DecodeError<S::Error>> {
        <EcPrivateKeyParts>::trace_opt_if(alloc, cons, tag, path)
    }
}

impl EncodeParts for EcPrivateKey {
    ghost written = { ⟦<EcPrivateKeyParts as Encode>⟧ };

    fn give_parts<T, U: UseParts<T>>(&self, tag: Tag, to: U, target: &mut T) -> U::Out {
        to.use_parts(
            &Sequence((
                ByRef(&self.version),
                ByRef(&self.private_key),
                ByRef(&self.parameters),
                ByRef(&self.public_key),
            )),
            tag,
            target,
        )
    }

    fn are_read_back(tag: Tag, mode: Mode) {
        <EcPrivateKeyParts>::is_read_back(tag, mode);
    }

    ghost made = { λ v. (
      record {
        version = v.0;
        private_key = v.1;
        parameters = v.2;
        public_key = v.3;
      },
      refl,
    ) };
}

/// A curve (RFC 5480, section 2.1.1).
///
///     ECParameters ::= CHOICE {
///         namedCurve  OBJECT IDENTIFIER }
pub type EcParameters = ObjectIdentifier;

/// A signature by ECDSA (RFC 3279, section 2.2.3).
///
///     Ecdsa-Sig-Value ::= SEQUENCE {
///         r  INTEGER,
///         s  INTEGER }
#[derive(Debug, Drop)]
pub struct EcdsaSigValue {
    /// The number `r`.
    pub r: Integer,

    /// The number `s`.
    pub s: Integer,
}

/// What defines [`EcdsaSigValue`].
type EcdsaSigValueParts = Sequence<(Integer, Integer)>;

impl Parts for EcdsaSigValue {
    type As = EcdsaSigValueParts;

    type Tags = SequenceTag;

    const NAME: &'static str = "EcdsaSigValue";

    const PARTS: &'static [&'static str] = &["r", "s"];

    ghost parts = { λ x. (x.r, x.s) };

    ghost typed = { ⟦<EcdsaSigValueParts as Type>⟧ };

    fn from_parts(value: EcdsaSigValueParts) -> EcdsaSigValue {
        let Sequence((r, s)) = value;
        EcdsaSigValue { r, s }
    }

    fn parts_are_one() {
        <EcdsaSigValueParts>::values_are_one();
    }
}

impl<S: Source> DecodeParts<S> for EcdsaSigValue {
    fn trace_parts<P: Trace>(
        alloc: Global,
        cons: &mut Constructed<'_, S>,
        tag: Tag,
        path: &mut P,
    ) -> Result<Option<EcdsaSigValueParts>, DecodeError<S::Error>> {
        <EcdsaSigValueParts>::trace_opt_if(alloc, cons, tag, path)
    }
}

impl EncodeParts for EcdsaSigValue {
    ghost written = { ⟦<EcdsaSigValueParts as Encode>⟧ };

    fn give_parts<T, U: UseParts<T>>(&self, tag: Tag, to: U, target: &mut T) -> U::Out {
        to.use_parts(&Sequence((ByRef(&self.r), ByRef(&self.s))), tag, target)
    }

    fn are_read_back(tag: Tag, mode: Mode) {
        <EcdsaSigValueParts>::is_read_back(tag, mode);
    }

    ghost made = { λ v. (record { r = v.0; s = v.1 }, refl) };
}

/// A signature by DSA (RFC 3279, section 2.2.2).
///
///     Dss-Sig-Value ::= SEQUENCE {
///         r  INTEGER,
///         s  INTEGER }
pub type DssSigValue = EcdsaSigValue;

/// Parameters of DSA (RFC 3279, section 2.3.2).
///
///     Dss-Parms ::= SEQUENCE {
///         p  INTEGER,
///         q  INTEGER,
///         g  INTEGER }
#[derive(Debug, Drop)]
pub struct DssParms {
    /// The prime `p`.
    pub p: Integer,

    /// The prime `q`, which divides `p - 1`.
    pub q: Integer,

    /// The generator `g`.
    pub g: Integer,
}

/// What defines [`DssParms`].
type DssParmsParts = Sequence<(Integer, Integer, Integer)>;

impl Parts for DssParms {
    type As = DssParmsParts;

    type Tags = SequenceTag;

    const NAME: &'static str = "DssParms";

    const PARTS: &'static [&'static str] = &["p", "q", "g"];

    ghost parts = { λ x. (x.p, x.q, x.g) };

    ghost typed = { ⟦<DssParmsParts as Type>⟧ };

    fn from_parts(value: DssParmsParts) -> DssParms {
        let Sequence((p, q, g)) = value;
        DssParms { p, q, g }
    }

    fn parts_are_one() {
        <DssParmsParts>::values_are_one();
    }
}

impl<S: Source> DecodeParts<S> for DssParms {
    fn trace_parts<P: Trace>(
        alloc: Global,
        cons: &mut Constructed<'_, S>,
        tag: Tag,
        path: &mut P,
    ) -> Result<Option<DssParmsParts>, DecodeError<S::Error>> {
        <DssParmsParts>::trace_opt_if(alloc, cons, tag, path)
    }
}

impl EncodeParts for DssParms {
    ghost written = { ⟦<DssParmsParts as Encode>⟧ };

    fn give_parts<T, U: UseParts<T>>(&self, tag: Tag, to: U, target: &mut T) -> U::Out {
        to.use_parts(
            &Sequence((ByRef(&self.p), ByRef(&self.q), ByRef(&self.g))),
            tag,
            target,
        )
    }

    fn are_read_back(tag: Tag, mode: Mode) {
        <DssParmsParts>::is_read_back(tag, mode);
    }

    ghost made = { λ v. (record { p = v.0; q = v.1; g = v.2 }, refl) };
}
