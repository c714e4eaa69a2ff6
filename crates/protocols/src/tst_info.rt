//! What time stamps say (RFC 3161, section 2.4.2).
ghost use Rattle.std.specs.Prelude.{false, refl};

use crate::MessageImprint;
use asn1::{
    ByRef, Context, Decode, DecodeParts, DefaultValue, Encode, EncodeParts, Explicit,
    GeneralizedTime, Implicit, ObjectIdentifier, OrDefault, Parts, Sequence, SequenceTag, Trace,
    Type, UseParts,
};
use bcder::decode::{Constructed, DecodeError, Source};
use bcder::{Integer, Mode, NoMemory, Tag};
use general_names::GeneralName;
use pkix::Extensions;
use std::alloc::Global;

/// What a time stamp says (RFC 3161, section 2.4.2).
///
///     TSTInfo ::= SEQUENCE {
///         version         INTEGER { v1(1) },
///         policy          TSAPolicyId,
///         messageImprint  MessageImprint,
///         serialNumber    INTEGER,
///         genTime         GeneralizedTime,
///         accuracy        Accuracy OPTIONAL,
///         ordering        BOOLEAN DEFAULT FALSE,
///         nonce           INTEGER OPTIONAL,
///         tsa             [0] GeneralName OPTIONAL,
///         extensions      [1] IMPLICIT Extensions OPTIONAL }
///
///     TSAPolicyId ::= OBJECT IDENTIFIER
///
/// `GeneralName` is a CHOICE, so its tag is explicit. Any version from 0 to 255 is read.
#[derive(Debug, Drop)]
pub struct TstInfo {
    /// The version, which is 1.
    pub version: u8,

    /// Under which policy.
    pub policy: ObjectIdentifier,

    /// The digest.
    pub message_imprint: MessageImprint,

    /// The number of the time stamp.
    pub serial_number: Integer,

    /// The time.
    pub gen_time: GeneralizedTime,

    /// How far off the time may be.
    pub accuracy: Option<Accuracy>,

    /// Whether time stamps of the authority are in the order of their times.
    pub ordering: OrDefault<bool, NotOrdered>,

    /// The number of the request.
    pub nonce: Option<Integer>,

    /// The authority.
    pub tsa: Option<Explicit<Context<0>, GeneralName>>,

    /// Extensions.
    pub extensions: Option<Implicit<Context<1>, Extensions>>,
}

/// What defines [`TstInfo`].
type TstInfoParts = Sequence<
    (
        u8,
        ObjectIdentifier,
        MessageImprint,
        Integer,
        GeneralizedTime,
        Option<Accuracy>,
        OrDefault<bool, NotOrdered>,
        Option<Integer>,
        Option<Explicit<Context<0>, GeneralName>>,
        Option<Implicit<Context<1>, Extensions>>,
    ),
>;

impl Parts for TstInfo {
    type As = TstInfoParts;

    type Tags = SequenceTag;

    const NAME: &'static str = "TstInfo";

    const PARTS: &'static [&'static str] = &[
        "version",
        "policy",
        "message_imprint",
        "serial_number",
        "gen_time",
        "accuracy",
        "ordering",
        "nonce",
        "tsa",
        "extensions",
    ];

    ghost parts = { λ x. (
      x.version,
      x.policy,
      x.message_imprint,
      x.serial_number,
      x.gen_time,
      x.accuracy,
      x.ordering,
      x.nonce,
      x.tsa,
      x.extensions,
    ) };

    ghost typed = { ⟦<TstInfoParts as Type>⟧ };

    fn from_parts(value: TstInfoParts) -> TstInfo {
        let Sequence(
            (
                version,
                policy,
                message_imprint,
                serial_number,
                gen_time,
                accuracy,
                ordering,
                nonce,
                tsa,
                extensions,
            ),
        ) = value;
        TstInfo {
            version,
            policy,
            message_imprint,
            serial_number,
            gen_time,
            accuracy,
            ordering,
            nonce,
            tsa,
            extensions,
        }
    }

    fn parts_are_one() {
        <TstInfoParts>::values_are_one();
    }
}

impl<S: Source> DecodeParts<S> for TstInfo {
    fn trace_parts<P: Trace>(
        alloc: Global,
        cons: &mut Constructed<'_, S>,
        tag: Tag,
        path: &mut P,
    ) -> Result<Option<TstInfoParts>, DecodeError<S::Error>> {
        <TstInfoParts>::trace_opt_if(alloc, cons, tag, path)
    }
}

impl EncodeParts for TstInfo {
    ghost written = { ⟦<TstInfoParts as Encode>⟧ };

    fn give_parts<T, U: UseParts<T>>(&self, tag: Tag, to: U, target: &mut T) -> U::Out {
        to.use_parts(
            &Sequence((
                ByRef(&self.version),
                ByRef(&self.policy),
                ByRef(&self.message_imprint),
                ByRef(&self.serial_number),
                ByRef(&self.gen_time),
                ByRef(&self.accuracy),
                ByRef(&self.ordering),
                ByRef(&self.nonce),
                ByRef(&self.tsa),
                ByRef(&self.extensions),
            )),
            tag,
            target,
        )
    }

    fn are_read_back(tag: Tag, mode: Mode) {
        <TstInfoParts>::is_read_back(tag, mode);
    }

    ghost made = { λ v. (
      record {
        version = v.0;
        policy = v.1;
        message_imprint = v.2;
        serial_number = v.3;
        gen_time = v.4;
        accuracy = v.5;
        ordering = v.6;
        nonce = v.7;
        tsa = v.8;
        extensions = v.9;
      },
      refl,
    ) };
}

/// `FALSE`, if it isn't said whether time stamps are in order.
#[derive(Clone, Copy, Debug, PartialEq, Eq)]
pub struct NotOrdered;

impl DefaultValue<bool> for NotOrdered {
    ghost default = { false };

    fn is_default(value: &bool) -> bool {
        !*value
    }

    fn make(_alloc: Global) -> Result<bool, NoMemory> {
        Ok(false)
    }
}

/// How far off a time may be (RFC 3161, section 2.4.2).
///
///     Accuracy ::= SEQUENCE {
///         seconds  INTEGER OPTIONAL,
///         millis   [0] INTEGER (1..999) OPTIONAL,
///         micros   [1] INTEGER (1..999) OPTIONAL }
///
/// Seconds that take more than 32 bits are refused. The other two may be any number of 16 bits.
#[derive(Debug, Drop)]
pub struct Accuracy {
    /// Seconds.
    pub seconds: Option<u32>,

    /// Thousandths of a second.
    pub millis: Option<Implicit<Context<0>, u16>>,

    /// Millionths of a second.
    pub micros: Option<Implicit<Context<1>, u16>>,
}

/// What defines [`Accuracy`].
type AccuracyParts = Sequence<
    (
        Option<u32>,
        Option<Implicit<Context<0>, u16>>,
        Option<Implicit<Context<1>, u16>>,
    ),
>;

impl Parts for Accuracy {
    type As = AccuracyParts;

    type Tags = SequenceTag;

    const NAME: &'static str = "Accuracy";

    const PARTS: &'static [&'static str] = &["seconds", "millis", "micros"];

    ghost parts = { λ x. (x.seconds, x.millis, x.micros) };

    ghost typed = { ⟦<AccuracyParts as Type>⟧ };

    fn from_parts(value: AccuracyParts) -> Accuracy {
        let Sequence((seconds, millis, micros)) = value;
        Accuracy {
            seconds,
            millis,
            micros,
        }
    }

    fn parts_are_one() {
        <AccuracyParts>::values_are_one();
    }
}

impl<S: Source> DecodeParts<S> for Accuracy {
    ghost may_lack = { false };

    fn trace_parts<P: Trace>(
        alloc: Global,
        cons: &mut Constructed<'_, S>,
        tag: Tag,
        path: &mut P,
    ) -> Result<Option<AccuracyParts>, DecodeError<S::Error>> {
        <AccuracyParts>::trace_opt_if(alloc, cons, tag, path)
    }
}

impl EncodeParts for Accuracy {
    ghost written = { ⟦<AccuracyParts as Encode>⟧ };

    fn give_parts<T, U: UseParts<T>>(&self, tag: Tag, to: U, target: &mut T) -> U::Out {
        to.use_parts(
            &Sequence((
                ByRef(&self.seconds),
                ByRef(&self.millis),
                ByRef(&self.micros),
            )),
            tag,
            target,
        )
    }

    fn are_read_back(tag: Tag, mode: Mode) {
        <AccuracyParts>::is_read_back(tag, mode);
    }

    ghost made = { λ v. (record { seconds = v.0; millis = v.1; micros = v.2 }, refl) };
}
