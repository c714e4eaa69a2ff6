//! What else is known of a subject.

use crate::Attribute;
use asn1::SequenceOf;

/// What else is known of a subject (RFC 5280, section 4.2.1.8).
///
///     SubjectDirectoryAttributes ::= SEQUENCE SIZE (1..MAX) OF Attribute
///
/// An empty list is read too.
pub type SubjectDirectoryAttributes = SequenceOf<Attribute>;
