//! Which key signed.
ghost use Rattle.std.specs.Prelude.{refl};

use asn1::{
    ByRef, Context, Decode, DecodeParts, Encode, EncodeParts, Implicit, Parts, Sequence,
    SequenceTag, Trace, Type, UseParts,
};
use bcder::decode::{Constructed, DecodeError, Source};
use bcder::{Integer, Mode, Tag};
use general_names::GeneralNames;
use pkix::KeyIdentifier;
use std::alloc::Global;

/// Which key signed a certificate or a list (RFC 5280, sections 4.2.1.1 and 5.2.1).
///
///     AuthorityKeyIdentifier ::= SEQUENCE {
///         keyIdentifier              [0] KeyIdentifier            OPTIONAL,
///         authorityCertIssuer        [1] GeneralNames             OPTIONAL,
///         authorityCertSerialNumber  [2] CertificateSerialNumber  OPTIONAL }
///
///     CertificateSerialNumber ::= INTEGER
///
/// Tags are implicit. One of the last two without the other is read too.
#[derive(Debug, Drop)]
pub struct AuthorityKeyIdentifier {
    /// The identifier of the key.
    pub key_identifier: Option<Implicit<Context<0>, KeyIdentifier>>,

    /// Who issued the certificate of the authority.
    pub authority_cert_issuer: Option<Implicit<Context<1>, GeneralNames>>,

    /// The serial number of that certificate.
    pub authority_cert_serial_number: Option<Implicit<Context<2>, Integer>>,
}

/// What defines [`AuthorityKeyIdentifier`].
type AuthorityKeyIdentifierParts = Sequence<
    (
        Option<Implicit<Context<0>, KeyIdentifier>>,
        Option<Implicit<Context<1>, GeneralNames>>,
        Option<Implicit<Context<2>, Integer>>,
    ),
>;

impl Parts for AuthorityKeyIdentifier {
    type As = AuthorityKeyIdentifierParts;

    type Tags = SequenceTag;

    const NAME: &'static str = "AuthorityKeyIdentifier";

    const PARTS: &'static [&'static str] = &[
        "key_identifier",
        "authority_cert_issuer",
        "authority_cert_serial_number",
    ];

    ghost parts = { λ x. (
      x.key_identifier,
      x.authority_cert_issuer,
      x.authority_cert_serial_number,
    ) };

    ghost typed = { ⟦<AuthorityKeyIdentifierParts as Type>⟧ };

    fn from_parts(value: AuthorityKeyIdentifierParts) -> AuthorityKeyIdentifier {
        let Sequence((key_identifier, authority_cert_issuer, authority_cert_serial_number)) = value;
        AuthorityKeyIdentifier {
            key_identifier,
            authority_cert_issuer,
            authority_cert_serial_number,
        }
    }

    fn parts_are_one() {
        <AuthorityKeyIdentifierParts>::values_are_one();
    }
}

impl<S: Source> DecodeParts<S> for AuthorityKeyIdentifier {
    fn trace_parts<P: Trace>(
        alloc: Global,
        cons: &mut Constructed<'_, S>,
        tag: Tag,
        path: &mut P,
    ) -> Result<Option<AuthorityKeyIdentifierParts>, DecodeError<S::Error>> {
        <AuthorityKeyIdentifierParts>::trace_opt_if(alloc, cons, tag, path)
    }
}

impl EncodeParts for AuthorityKeyIdentifier {
    ghost written = { ⟦<AuthorityKeyIdentifierParts as Encode>⟧ };

    fn give_parts<T, U: UseParts<T>>(&self, tag: Tag, to: U, target: &mut T) -> U::Out {
        to.use_parts(
            &Sequence((
                ByRef(&self.key_identifier),
                ByRef(&self.authority_cert_issuer),
                ByRef(&self.authority_cert_serial_number),
            )),
            tag,
            target,
        )
    }

    fn are_read_back(tag: Tag, mode: Mode) {
        <AuthorityKeyIdentifierParts>::is_read_back(tag, mode);
    }

    ghost made = { λ v. (
      record {
        key_identifier = v.0;
        authority_cert_issuer = v.1;
        authority_cert_serial_number = v.2;
      },
      refl,
    ) };
}
