//! Certificates, lists of revoked ones, requests and keys as types of `asn1`, by the names of their
//! RFCs. Messages are in `cms`.
//!
//! Each reads and writes itself. Its reader is exact, because those of its parts are: it accepts
//! the encodings of the type, and no others. Nothing is computed or verified: there is no
//! cryptography here, and no validation of paths.
#![tactic(auto, using(bcder::specs::laws::Moved::untouched_is_moved))]

mod algorithm;
mod certificate;
mod certificate_list;
mod certification_request;
mod constraints;
mod directory_attributes;
mod elliptic_curve;
mod extension;
mod key_identifiers;
mod key_usage;
mod name;
mod policies;
mod private_key;
mod revocation;
mod rsa;
mod tbs_cert_list;
mod tbs_certificate;
mod validity;

pub use algorithm::{AlgorithmIdentifier, SubjectPublicKeyInfo};
pub use asn1::{GeneralizedTime, UtcTime};
pub use certificate::Certificate;
pub use certificate_list::CertificateList;
pub use certification_request::{Attribute, CertificationRequest, CertificationRequestInfo};
pub use constraints::{BasicConstraints, NoCa};
pub use directory_attributes::SubjectDirectoryAttributes;
pub use elliptic_curve::{DssParms, DssSigValue, EcParameters, EcPrivateKey, EcdsaSigValue};
pub use extension::{Extension, Extensions, NotCritical};
pub use key_identifiers::{KeyIdentifier, SubjectKeyIdentifier};
pub use key_usage::{ExtKeyUsage, KeyUsage};
pub use name::{AttributeTypeAndValue, Name, RelativeDistinguishedName};
pub use policies::{
    CertPolicyId, CertificatePolicies, InhibitAnyPolicy, PolicyConstraints, PolicyInformation,
    PolicyMapping, PolicyMappings, PolicyQualifierInfo,
};
pub use private_key::{EncryptedPrivateKeyInfo, PrivateKeyInfo};
pub use revocation::{BaseCrlNumber, CrlNumber, CrlReason, InvalidityDate, ReasonCode};
pub use rsa::{DigestInfo, OtherPrimeInfo, RsaPrivateKey, RsaPublicKey};
pub use tbs_cert_list::{RevokedCertificate, TbsCertList};
pub use tbs_certificate::{TbsCertificate, UniqueIdentifier, Version, Version1};
pub use validity::{Time, Validity};
