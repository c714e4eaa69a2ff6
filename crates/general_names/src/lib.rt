//! Names of hosts, mailboxes and directories (RFC 5280, section 4.2.1.6) as types of `asn1`, and the
//! character strings that they consist of.
//!
//! Each reads and writes itself. Its reader is exact, because those of its parts are: it accepts
//! the encodings of the type, and no others. What a name says isn't looked at.
#![tactic(auto, using(bcder::specs::laws::Moved::untouched_is_moved))]

mod directory_string;
mod general_name;
mod text;

pub use directory_string::DirectoryString;
pub use general_name::{
    CertificateIssuer, EdiPartyName, GeneralName, GeneralNames, IssuerAltName, OtherName,
    SubjectAltName,
};
pub use text::{BmpText, Ia5Text, PrintableText, UniversalText, Utf8Text, VisibleText};
