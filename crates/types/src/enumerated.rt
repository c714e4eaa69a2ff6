//! ENUMERATED (X.680, 20; X.690, 8.4). A number is encoded as an INTEGER is (8.3).
ghost use Rattle.types.specs.declared.enumerated.CrlReason.TheVariants as reason;
ghost use Rattle.types.specs.declared.enumerated.Colour.TheVariants as colour;
ghost use Rattle.std.specs.Prelude.{pos, negsuc};

use crate::rows::{Again, Read, Written, reads, reads_and_come_back, reads_and_rewrites};
use asn1::{Context, Enumerated, Enumeration, Implicit};
use bcder::Mode;

/// Why a certificate was revoked (RFC 5280, section 5.3.1).
///
///     CRLReason ::= ENUMERATED {
///         unspecified (0), keyCompromise (1), cACompromise (2), affiliationChanged (3),
///         superseded (4), cessationOfOperation (5), certificateHold (6), removeFromCRL (8),
///         privilegeWithdrawn (9), aACompromise (10) }
#[derive(Debug, Drop)]
enum CrlReason {
    Unspecified,
    KeyCompromise,
    CaCompromise,
    AffiliationChanged,
    Superseded,
    CessationOfOperation,
    CertificateHold,
    RemoveFromCrl,
    PrivilegeWithdrawn,
    AaCompromise,
}

impl Enumeration for CrlReason {
    ghost number = { elim [
      | reason.Unspecified ↦ pos 0
      | reason.KeyCompromise ↦ pos 1
      | reason.CaCompromise ↦ pos 2
      | reason.AffiliationChanged ↦ pos 3
      | reason.Superseded ↦ pos 4
      | reason.CessationOfOperation ↦ pos 5
      | reason.CertificateHold ↦ pos 6
      | reason.RemoveFromCrl ↦ pos 8
      | reason.PrivilegeWithdrawn ↦ pos 9
      | reason.AaCompromise ↦ pos 10
    ] };

    fn number(&self) -> i64 {
        match self {
            CrlReason::Unspecified => 0,
            CrlReason::KeyCompromise => 1,
            CrlReason::CaCompromise => 2,
            CrlReason::AffiliationChanged => 3,
            CrlReason::Superseded => 4,
            CrlReason::CessationOfOperation => 5,
            CrlReason::CertificateHold => 6,
            CrlReason::RemoveFromCrl => 8,
            CrlReason::PrivilegeWithdrawn => 9,
            CrlReason::AaCompromise => 10,
        }
    }

    fn from_number(value: i64) -> Option<CrlReason> {
        match value {
            0 => Some(CrlReason::Unspecified),
            1 => Some(CrlReason::KeyCompromise),
            2 => Some(CrlReason::CaCompromise),
            3 => Some(CrlReason::AffiliationChanged),
            4 => Some(CrlReason::Superseded),
            5 => Some(CrlReason::CessationOfOperation),
            6 => Some(CrlReason::CertificateHold),
            8 => Some(CrlReason::RemoveFromCrl),
            9 => Some(CrlReason::PrivilegeWithdrawn),
            10 => Some(CrlReason::AaCompromise),
            _ => None,
        }
    }
}

/// `Colour ::= ENUMERATED { red (-1), blue (300), ... }`.
#[derive(Debug, Drop)]
enum Colour {
    Red,
    Blue,
    Other(i64),
}

impl Enumeration for Colour {
    ghost number = { elim [
      | colour.Red ↦ negsuc 0
      | colour.Blue ↦ pos 300
      | colour.Other n ↦ n
    ] };

    fn number(&self) -> i64 {
        match self {
            Colour::Red => -1,
            Colour::Blue => 300,
            Colour::Other(number) => *number,
        }
    }

    fn from_number(value: i64) -> Option<Colour> {
        match value {
            -1 => Some(Colour::Red),
            300 => Some(Colour::Blue),
            _ => Some(Colour::Other(value)),
        }
    }
}

const REASONS: [Read; 10] = [
    (Mode::Der, &[0x0A, 0x01, 0x01], "Enumerated(KeyCompromise)"),
    (Mode::Ber, &[0x0A, 0x01, 0x0A], "Enumerated(AaCompromise)"),
    (Mode::Cer, &[0x0A, 0x01, 0x08], "Enumerated(RemoveFromCrl)"),
    // in a long form of the length
    (
        Mode::Ber,
        &[0x0A, 0x81, 0x01, 0x00],
        "Enumerated(Unspecified)",
    ),
    // no item: 7, 11, -1
    (Mode::Der, &[0x0A, 0x01, 0x07], "refused"),
    (Mode::Der, &[0x0A, 0x01, 0x0B], "refused"),
    (Mode::Der, &[0x0A, 0x01, 0xFF], "refused"),
    // not the fewest octets; none; of another type
    (Mode::Ber, &[0x0A, 0x02, 0x00, 0x01], "refused"),
    (Mode::Ber, &[0x0A, 0x00], "refused"),
    (Mode::Ber, &[0x02, 0x01, 0x01], "refused"),
];

const REASONS_WRITTEN: [Written; 3] = [
    (&[0x0A, 0x01, 0x09], Mode::Ber, &[0x0A, 0x01, 0x09]),
    (&[0x0A, 0x01, 0x09], Mode::Cer, &[0x0A, 0x01, 0x09]),
    (&[0x0A, 0x81, 0x01, 0x09], Mode::Der, &[0x0A, 0x01, 0x09]),
];

#[test]
fn items_are_read_and_written(rt: HostRuntime) {
    reads_and_rewrites::<Enumerated<CrlReason>>(&rt, rt.alloc(), &REASONS, &REASONS_WRITTEN);
}

const COLOURS: [Read; 5] = [
    (Mode::Der, &[0x0A, 0x01, 0xFF], "Enumerated(Red)"),
    (Mode::Der, &[0x0A, 0x02, 0x01, 0x2C], "Enumerated(Blue)"),
    (Mode::Der, &[0x0A, 0x01, 0x07], "Enumerated(Other(7))"),
    (
        Mode::Der,
        &[0x0A, 0x08, 0x80, 0, 0, 0, 0, 0, 0, 0],
        "Enumerated(Other(-9223372036854775808))",
    ),
    // 2^63
    (
        Mode::Der,
        &[0x0A, 0x09, 0x00, 0x80, 0, 0, 0, 0, 0, 0, 0],
        "refused",
    ),
];

const AGAIN: [Again; 3] = [
    (
        Mode::Der,
        &[0x0A, 0x02, 0x01, 0x2C],
        Mode::Cer,
        &[0x0A, 0x02, 0x01, 0x2C],
    ),
    (
        Mode::Ber,
        &[0x0A, 0x01, 0x07],
        Mode::Der,
        &[0x0A, 0x01, 0x07],
    ),
    (
        Mode::Der,
        &[0x0A, 0x01, 0xFF],
        Mode::Ber,
        &[0x0A, 0x01, 0xFF],
    ),
];

#[test]
fn unknown_numbers_are_kept(rt: HostRuntime) {
    reads_and_come_back::<Enumerated<Colour>>(&rt, rt.alloc(), &COLOURS, &[], &AGAIN);
}

const TAGGED: [Read; 2] = [
    (
        Mode::Der,
        &[0x80, 0x01, 0x05],
        "Implicit { value: Enumerated(CessationOfOperation) }",
    ),
    (Mode::Der, &[0x0A, 0x01, 0x05], "refused"),
];

#[test]
fn items_are_tagged(rt: HostRuntime) {
    reads::<Implicit<Context<0>, Enumerated<CrlReason>>>(&rt, rt.alloc(), &TAGGED);
}
