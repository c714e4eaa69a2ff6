//! Which key signed, and which key a certificate has.

use bcder::OctetString;

/// Tells keys apart (RFC 5280, section 4.2.1.2).
///
///     KeyIdentifier ::= OCTET STRING
pub type KeyIdentifier = OctetString;

/// Which key a certificate has (RFC 5280, section 4.2.1.2).
///
///     SubjectKeyIdentifier ::= KeyIdentifier
pub type SubjectKeyIdentifier = KeyIdentifier;
