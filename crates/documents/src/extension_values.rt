//! Values of extensions.
use crate::structures::{Tallies, compare};
use anyhow::Error;
use extensions::{
    AuthorityInfoAccess, AuthorityKeyIdentifier, CrlDistributionPoints, DisplayText,
    IssuingDistributionPoint, NameConstraints, UserNotice,
};
use pkix::{KeyUsage, ReasonCode, SubjectDirectoryAttributes};
use std::alloc::Global;

/// Compares a value of an extension, or a part of one, by the name of its type in its RFC.
pub fn compare_extension_value(
    alloc: Global,
    kind: &str,
    octets: &[u8],
    is_one: bool,
    tallies: &mut Tallies,
) -> Result<(), Error> {
    match kind {
        "AuthorityKeyIdentifier" => {
            compare::<AuthorityKeyIdentifier>(alloc, octets, is_one, tallies)
        }
        "UserNotice" => compare::<UserNotice>(alloc, octets, is_one, tallies),
        "DisplayText" => compare::<DisplayText>(alloc, octets, is_one, tallies),
        "CRLDistributionPoints" => compare::<CrlDistributionPoints>(alloc, octets, is_one, tallies),
        "IssuingDistributionPoint" => {
            compare::<IssuingDistributionPoint>(alloc, octets, is_one, tallies)
        }
        "AuthorityInfoAccessSyntax" => {
            compare::<AuthorityInfoAccess>(alloc, octets, is_one, tallies)
        }
        "NameConstraints" => compare::<NameConstraints>(alloc, octets, is_one, tallies),
        "KeyUsage" => compare::<KeyUsage>(alloc, octets, is_one, tallies),
        "CRLReason" => compare::<ReasonCode>(alloc, octets, is_one, tallies),
        "SubjectDirectoryAttributes" => {
            compare::<SubjectDirectoryAttributes>(alloc, octets, is_one, tallies)
        }
        _ => {
            tallies.read.count(false);
            Ok(())
        }
    }
}
