//! What keys are used for.

use asn1::{NamedBits, ObjectIdentifier, SequenceOf};

/// What a key may be used for (RFC 5280, section 4.2.1.3).
///
///     KeyUsage ::= BIT STRING {
///         digitalSignature  (0),
///         nonRepudiation    (1),
///         keyEncipherment   (2),
///         dataEncipherment  (3),
///         keyAgreement      (4),
///         keyCertSign       (5),
///         cRLSign           (6),
///         encipherOnly      (7),
///         decipherOnly      (8) }
///
/// One without any use is read too.
pub type KeyUsage = NamedBits;

/// For which purposes a key may be used (RFC 5280, section 4.2.1.12).
///
///     ExtKeyUsageSyntax ::= SEQUENCE SIZE (1..MAX) OF KeyPurposeId
///
///     KeyPurposeId ::= OBJECT IDENTIFIER
///
/// An empty list is read too.
pub type ExtKeyUsage = SequenceOf<ObjectIdentifier>;
