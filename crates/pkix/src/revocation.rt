//! Values of extensions of lists of revoked certificates, and of their entries.
ghost use Rattle.std.specs.Prelude.{pos};

use asn1::{Enumerated, Enumeration, GeneralizedTime};
use bcder::Integer;

/// The number of a list (RFC 5280, section 5.2.3).
///
///     CRLNumber ::= INTEGER (0..MAX)
///
/// A negative number is read too.
pub type CrlNumber = Integer;

/// The number of the list that a list of changes starts from (RFC 5280, section 5.2.4).
///
///     BaseCRLNumber ::= CRLNumber
pub type BaseCrlNumber = CrlNumber;

/// Since when a key may have been known to others, or a certificate wasn't valid (RFC 5280, section
/// 5.3.2).
///
///     InvalidityDate ::= GeneralizedTime
///
/// A time with a fraction of a second is read too.
pub type InvalidityDate = GeneralizedTime;

/// Why the certificate of an entry is revoked (RFC 5280, section 5.3.1).
///
///     reasonCode ::= { CRLReason }
pub type ReasonCode = Enumerated<CrlReason>;

/// Why a certificate is revoked (RFC 5280, section 5.3.1).
///
///     CRLReason ::= ENUMERATED {
///         unspecified           (0),
///         keyCompromise         (1),
///         cACompromise          (2),
///         affiliationChanged    (3),
///         superseded            (4),
///         cessationOfOperation  (5),
///         certificateHold       (6),
///         removeFromCRL         (8),
///         privilegeWithdrawn    (9),
///         aACompromise          (10) }
///
/// The RFC leaves 7 out.
#[derive(Clone, Copy, Debug, PartialEq, Eq, Drop)]
pub enum CrlReason {
    /// No reason is given.
    Unspecified,
    /// Others may know the key.
    KeyCompromise,
    /// Others may know the key of an authority.
    CaCompromise,
    /// The name is no longer right.
    AffiliationChanged,
    /// There is a newer one.
    Superseded,
    /// It is no longer needed.
    CessationOfOperation,
    /// It is revoked for some time.
    CertificateHold,
    /// It is no longer revoked.
    RemoveFromCrl,
    /// A privilege was taken back.
    PrivilegeWithdrawn,
    /// Others may know the key of an authority of attributes.
    AaCompromise,
}

ghost use Rattle.pkix.specs.declared.revocation.CrlReason.TheVariants as reason;

impl Enumeration for CrlReason {
    ghost number = { elim [
      | reason.Unspecified ↦ pos 0
      | reason.KeyCompromise ↦ pos 1
      | reason.CaCompromise ↦ pos 2
      | reason.AffiliationChanged ↦ pos 3
      | reason.Superseded ↦ pos 4
      | reason.CessationOfOperation ↦ pos 5
      | reason.CertificateHold ↦ pos 6
      | reason.RemoveFromCrl ↦ pos 8
      | reason.PrivilegeWithdrawn ↦ pos 9
      | reason.AaCompromise ↦ pos 10
    ] };

    fn number(&self) -> i64 {
        match self {
            CrlReason::Unspecified => 0,
            CrlReason::KeyCompromise => 1,
            CrlReason::CaCompromise => 2,
            CrlReason::AffiliationChanged => 3,
            CrlReason::Superseded => 4,
            CrlReason::CessationOfOperation => 5,
            CrlReason::CertificateHold => 6,
            CrlReason::RemoveFromCrl => 8,
            CrlReason::PrivilegeWithdrawn => 9,
            CrlReason::AaCompromise => 10,
        }
    }

    fn from_number(value: i64) -> Option<CrlReason> {
        match value {
            0 => Some(CrlReason::Unspecified),
            1 => Some(CrlReason::KeyCompromise),
            2 => Some(CrlReason::CaCompromise),
            3 => Some(CrlReason::AffiliationChanged),
            4 => Some(CrlReason::Superseded),
            5 => Some(CrlReason::CessationOfOperation),
            6 => Some(CrlReason::CertificateHold),
            8 => Some(CrlReason::RemoveFromCrl),
            9 => Some(CrlReason::PrivilegeWithdrawn),
            10 => Some(CrlReason::AaCompromise),
            _ => None,
        }
    }
}
