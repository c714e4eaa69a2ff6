//! Lists of certificates that are revoked.
ghost use Rattle.std.specs.Prelude.{refl};

use crate::{AlgorithmIdentifier, TbsCertList};
use asn1::{
    ByRef, Decode, DecodeParts, Encode, EncodeParts, Parts, Sequence, SequenceTag, Trace, Type,
    UseParts,
};
use bcder::decode::{Constructed, DecodeError, Source};
use bcder::{BitString, Mode, Tag};
use std::alloc::Global;

/// A list of certificates that are revoked: a CRL (RFC 5280, section 5.1).
///
///     CertificateList ::= SEQUENCE {
///         tbsCertList         TBSCertList,
///         signatureAlgorithm  AlgorithmIdentifier,
///         signatureValue      BIT STRING }
#[derive(Debug, Drop)]
pub struct CertificateList {
    /// What is signed.
    pub tbs_cert_list: TbsCertList,

    /// The algorithm of the signature.
    pub signature_algorithm: AlgorithmIdentifier,

    /// The signature, in an encoding that depends on the algorithm.
    pub signature_value: BitString,
}

/// What defines [`CertificateList`].
type CertificateListParts = Sequence<(TbsCertList, AlgorithmIdentifier, BitString)>;

impl Parts for CertificateList {
    type As = CertificateListParts;

    type Tags = SequenceTag;

    const NAME: &'static str = "CertificateList";

    const PARTS: &'static [&'static str] = &[
        "tbs_cert_list",
        "signature_algorithm",
        "signature_value",
    ];

    ghost parts = { λ x. (x.tbs_cert_list, x.signature_algorithm, x.signature_value) };

    ghost typed = { ⟦<CertificateListParts as Type>⟧ };

    fn from_parts(value: CertificateListParts) -> CertificateList {
        let Sequence((tbs_cert_list, signature_algorithm, signature_value)) = value;
        CertificateList {
            tbs_cert_list,
            signature_algorithm,
            signature_value,
        }
    }

    fn parts_are_one() {
        <CertificateListParts>::values_are_one();
    }
}

impl<S: Source> DecodeParts<S> for CertificateList {
    fn trace_parts<P: Trace>(
        alloc: Global,
        cons: &mut Constructed<'_, S>,
        tag: Tag,
        path: &mut P,
    ) -> Result<Option<CertificateListParts>, DecodeError<S::Error>> {
        <CertificateListParts>::trace_opt_if(alloc, cons, tag, path)
    }
}

impl EncodeParts for CertificateList {
    ghost written = { ⟦<CertificateListParts as Encode>⟧ };

    fn give_parts<T, U: UseParts<T>>(&self, tag: Tag, to: U, target: &mut T) -> U::Out {
        to.use_parts(
            &Sequence((
                ByRef(&self.tbs_cert_list),
                ByRef(&self.signature_algorithm),
                ByRef(&self.signature_value),
            )),
            tag,
            target,
        )
    }

    fn are_read_back(tag: Tag, mode: Mode) {
        <CertificateListParts>::is_read_back(tag, mode);
    }

    ghost made = { λ v. (
      record {
        tbs_cert_list = v.0;
        signature_algorithm = v.1;
        signature_value = v.2;
      },
      refl,
    ) };
}
