//! Certificates.
ghost use Rattle.std.specs.Prelude.{refl};

use crate::{AlgorithmIdentifier, TbsCertificate};
use asn1::{
    ByRef, Decode, DecodeParts, Encode, EncodeParts, Parts, Sequence, SequenceTag, Trace, Type,
    UseParts,
};
use bcder::decode::{Constructed, DecodeError, Source};
use bcder::{BitString, Mode, Tag};
use std::alloc::Global;

/// A certificate (RFC 5280, section 4.1).
///
///     Certificate ::= SEQUENCE {
///         tbsCertificate      TBSCertificate,
///         signatureAlgorithm  AlgorithmIdentifier,
///         signatureValue      BIT STRING }
#[derive(Debug, Drop)]
pub struct Certificate {
    /// What is signed.
    pub tbs_certificate: TbsCertificate,

    /// The algorithm of the signature.
    pub signature_algorithm: AlgorithmIdentifier,

    /// The signature, in an encoding that depends on the algorithm.
    pub signature_value: BitString,
}

/// What defines [`Certificate`].
type CertificateParts = Sequence<(TbsCertificate, AlgorithmIdentifier, BitString)>;

impl Parts for Certificate {
    type As = CertificateParts;

    type Tags = SequenceTag;

    const NAME: &'static str = "Certificate";

    const PARTS: &'static [&'static str] = &[
        "tbs_certificate",
        "signature_algorithm",
        "signature_value",
    ];

    ghost parts = { λ x. (x.tbs_certificate, x.signature_algorithm, x.signature_value) };

    ghost typed = { ⟦<CertificateParts as Type>⟧ };

    fn from_parts(value: CertificateParts) -> Certificate {
        let Sequence((tbs_certificate, signature_algorithm, signature_value)) = value;
        Certificate {
            tbs_certificate,
            signature_algorithm,
            signature_value,
        }
    }

    fn parts_are_one() {
        <CertificateParts>::values_are_one();
    }
}

impl<S: Source> DecodeParts<S> for Certificate {
    fn trace_parts<P: Trace>(
        alloc: Global,
        cons: &mut Constructed<'_, S>,
        tag: Tag,
        path: &mut P,
    ) -> Result<Option<CertificateParts>, DecodeError<S::Error>> {
        <CertificateParts>::trace_opt_if(alloc, cons, tag, path)
    }
}

impl EncodeParts for Certificate {
    ghost written = { ⟦<CertificateParts as Encode>⟧ };

    fn give_parts<T, U: UseParts<T>>(&self, tag: Tag, to: U, target: &mut T) -> U::Out {
        to.use_parts(
            &Sequence((
                ByRef(&self.tbs_certificate),
                ByRef(&self.signature_algorithm),
                ByRef(&self.signature_value),
            )),
            tag,
            target,
        )
    }

    fn are_read_back(tag: Tag, mode: Mode) {
        <CertificateParts>::is_read_back(tag, mode);
    }

    ghost made = { λ v. (
      record {
        tbs_certificate = v.0;
        signature_algorithm = v.1;
        signature_value = v.2;
      },
      refl,
    ) };
}
