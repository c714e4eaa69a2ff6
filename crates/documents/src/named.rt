//! Structures that hold names of hosts and mailboxes, or character strings.
use crate::extension_values::compare_extension_value;
use crate::structures::{Tallies, compare};
use anyhow::Error;
use general_names::{DirectoryString, GeneralName, GeneralNames};
use protocols::{Manifest, OcspRequest, TimeStampResp, TstInfo};
use std::alloc::Global;

/// Compares a structure, by the name of its type in its RFC.
pub fn compare_named(
    alloc: Global,
    kind: &str,
    octets: &[u8],
    is_one: bool,
    tallies: &mut Tallies,
) -> Result<(), Error> {
    match kind {
        "GeneralName" => compare::<GeneralName>(alloc, octets, is_one, tallies),
        "GeneralNames" => compare::<GeneralNames>(alloc, octets, is_one, tallies),
        "DirectoryString" => compare::<DirectoryString>(alloc, octets, is_one, tallies),
        "OCSPRequest" => compare::<OcspRequest>(alloc, octets, is_one, tallies),
        "TSTInfo" => compare::<TstInfo>(alloc, octets, is_one, tallies),
        "TimeStampResp" => compare::<TimeStampResp>(alloc, octets, is_one, tallies),
        "Manifest" => compare::<Manifest>(alloc, octets, is_one, tallies),
        _ => compare_extension_value(alloc, kind, octets, is_one, tallies),
    }
}
