//! Time stamps (RFC 3161).
ghost use Rattle.std.specs.Prelude.{false, refl};

use asn1::{
    ByRef, Context, Decode, DecodeParts, DefaultValue, Encode, EncodeParts, Implicit,
    ObjectIdentifier, OrDefault, Parts, Sequence, SequenceTag, Trace, Type, UseParts,
};
use bcder::decode::{Constructed, DecodeError, Source};
use bcder::{Integer, Mode, NoMemory, OctetString, Tag};
use pkix::{AlgorithmIdentifier, Extensions};
use std::alloc::Global;

/// The digest of what gets a time stamp (RFC 3161, section 2.4.1).
///
///     MessageImprint ::= SEQUENCE {
///         hashAlgorithm  AlgorithmIdentifier,
///         hashedMessage  OCTET STRING }
#[derive(Debug, Drop)]
pub struct MessageImprint {
    /// The algorithm of the digest.
    pub hash_algorithm: AlgorithmIdentifier,

    /// The digest.
    pub hashed_message: OctetString,
}

/// What defines [`MessageImprint`].
type MessageImprintParts = Sequence<(AlgorithmIdentifier, OctetString)>;

impl Parts for MessageImprint {
    type As = MessageImprintParts;

    type Tags = SequenceTag;

    const NAME: &'static str = "MessageImprint";

    const PARTS: &'static [&'static str] = &["hash_algorithm", "hashed_message"];

    ghost parts = { λ x. (x.hash_algorithm, x.hashed_message) };

    ghost typed = { ⟦<MessageImprintParts as Type>⟧ };

    fn from_parts(value: MessageImprintParts) -> MessageImprint {
        let Sequence((hash_algorithm, hashed_message)) = value;
        MessageImprint {
            hash_algorithm,
            hashed_message,
        }
    }

    fn parts_are_one() {
        <MessageImprintParts>::values_are_one();
    }
}

impl<S: Source> DecodeParts<S> for MessageImprint {
    fn trace_parts<P: Trace>(
        alloc: Global,
        cons: &mut Constructed<'_, S>,
        tag: Tag,
        path: &mut P,
    ) -> Result<Option<MessageImprintParts>, DecodeError<S::Error>> {
        <MessageImprintParts>::trace_opt_if(alloc, cons, tag, path)
    }
}

impl EncodeParts for MessageImprint {
    ghost written = { ⟦<MessageImprintParts as Encode>⟧ };

    fn give_parts<T, U: UseParts<T>>(&self, tag: Tag, to: U, target: &mut T) -> U::Out {
        to.use_parts(
            &Sequence((ByRef(&self.hash_algorithm), ByRef(&self.hashed_message))),
            tag,
            target,
        )
    }

    fn are_read_back(tag: Tag, mode: Mode) {
        <MessageImprintParts>::is_read_back(tag, mode);
    }

    ghost made = { λ v. (record { hash_algorithm = v.0; hashed_message = v.1 }, refl) };
}

/// A request for a time stamp (RFC 3161, section 2.4.1).
///
///     TimeStampReq ::= SEQUENCE {
///         version         INTEGER { v1(1) },
///         messageImprint  MessageImprint,
///         reqPolicy       TSAPolicyId OPTIONAL,
///         nonce           INTEGER OPTIONAL,
///         certReq         BOOLEAN DEFAULT FALSE,
///         extensions      [0] IMPLICIT Extensions OPTIONAL }
///
/// Any version from 0 to 255 is read.
#[derive(Debug, Drop)]
pub struct TimeStampReq {
    /// The version, which is 1.
    pub version: u8,

    /// The digest.
    pub message_imprint: MessageImprint,

    /// Under which policy.
    pub req_policy: Option<ObjectIdentifier>,

    /// A number that the response repeats.
    pub nonce: Option<Integer>,

    /// Whether the response has to hold the certificate of the authority.
    pub cert_req: OrDefault<bool, NotRequired>,

    /// Extensions.
    pub extensions: Option<Implicit<Context<0>, Extensions>>,
}

/// What defines [`TimeStampReq`].
type TimeStampReqParts = Sequence<
    (
        u8,
        MessageImprint,
        Option<ObjectIdentifier>,
        Option<Integer>,
        OrDefault<bool, NotRequired>,
        Option<Implicit<Context<0>, Extensions>>,
    ),
>;

impl Parts for TimeStampReq {
    type As = TimeStampReqParts;

    type Tags = SequenceTag;

    const NAME: &'static str = "TimeStampReq";

    const PARTS: &'static [&'static str] = &[
        "version",
        "message_imprint",
        "req_policy",
        "nonce",
        "cert_req",
        "extensions",
    ];

    ghost parts = { λ x. (
      x.version,
      x.message_imprint,
      x.req_policy,
      x.nonce,
      x.cert_req,
      x.extensions,
    ) };

    ghost typed = { ⟦<TimeStampReqParts as Type>⟧ };

    fn from_parts(value: TimeStampReqParts) -> TimeStampReq {
        let Sequence((version, message_imprint, req_policy, nonce, cert_req, extensions)) = value;
        TimeStampReq {
            version,
            message_imprint,
            req_policy,
            nonce,
            cert_req,
            extensions,
        }
    }

    fn parts_are_one() {
        <TimeStampReqParts>::values_are_one();
    }
}

impl<S: Source> DecodeParts<S> for TimeStampReq {
    fn trace_parts<P: Trace>(
        alloc: Global,
        cons: &mut Constructed<'_, S>,
        tag: Tag,
        path: &mut P,
    ) -> Result<Option<TimeStampReqParts>, DecodeError<S::Error>> {
        <TimeStampReqParts>::trace_opt_if(alloc, cons, tag, path)
    }
}

impl EncodeParts for TimeStampReq {
    ghost written = { ⟦<TimeStampReqParts as Encode>⟧ };

    fn give_parts<T, U: UseParts<T>>(&self, tag: Tag, to: U, target: &mut T) -> U::Out {
        to.use_parts(
            &Sequence((
                ByRef(&self.version),
                ByRef(&self.message_imprint),
                ByRef(&self.req_policy),
                ByRef(&self.nonce),
                ByRef(&self.cert_req),
                ByRef(&self.extensions),
            )),
            tag,
            target,
        )
    }

    fn are_read_back(tag: Tag, mode: Mode) {
        <TimeStampReqParts>::is_read_back(tag, mode);
    }

    ghost made = { λ v. (
      record {
        version = v.0;
        message_imprint = v.1;
        req_policy = v.2;
        nonce = v.3;
        cert_req = v.4;
        extensions = v.5;
      },
      refl,
    ) };
}

/// `FALSE`: no certificate, if nothing is said.
#[derive(Clone, Copy, Debug, PartialEq, Eq)]
pub struct NotRequired;

impl DefaultValue<bool> for NotRequired {
    ghost default = { false };

    fn is_default(value: &bool) -> bool {
        !*value
    }

    fn make(_alloc: Global) -> Result<bool, NoMemory> {
        Ok(false)
    }
}
