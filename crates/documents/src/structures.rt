//! Compares structures whose fields aren't shown: whether each is read, and written as it was.
use crate::named::compare_named;
use crate::values::{is_written, read};
use anyhow::Error;
use asn1::{Decode, Encode};
use bcder::Mode;
use bcder::decode::BytesSource;
use cms::{ContentInfo, EncryptedData, EnvelopedData, SignedData};
use lines::fields::{next, octets_of};
use lines::tally::{Differing, Tally, differ_in};
use pkix::{
    CertificatePolicies, DssParms, EcPrivateKey, EcdsaSigValue, EncryptedPrivateKeyInfo,
    ExtKeyUsage, PolicyConstraints, PolicyMappings, PrivateKeyInfo, RsaPrivateKey, RsaPublicKey,
};
use protocols::{
    BasicOcspResponse, MacData, OcspResponse, Pfx, RouteOriginAttestation, SafeBag, SingleRequest,
    TimeStampReq,
};
use std::alloc::Global;

/// What was compared.
#[derive(Default, Drop)]
pub struct Tallies {
    /// Structures that were read, or refused.
    pub read: Tally,

    /// Structures that were written.
    pub written: Tally,

    /// Structures that were cut.
    pub cut: Tally,
}

impl Differing for Tallies {
    fn differ(&self) -> u64 {
        differ_in(&[self.read, self.written, self.cut])
    }
}

/// Reads octets as a value of a type, which they are or not, and writes and cuts it if they are.
pub fn compare<T: Decode<BytesSource> + Encode>(
    alloc: Global,
    octets: &[u8],
    is_one: bool,
    tallies: &mut Tallies,
) -> Result<(), Error> {
    let value = read::<T>(alloc, Mode::Der, octets)?;
    tallies.read.count(value.is_some() == is_one);
    if let Some(value) = value {
        tallies
            .written
            .count(is_written(alloc, Mode::Der, &value, octets));
        for end in 0..octets.len() {
            let cut = read::<T>(alloc, Mode::Der, &octets[..end])?;
            tallies.cut.count(cut.is_none());
        }
    }
    Ok(())
}

/// Compares the structure of a line, by the name of its type in its RFC.
pub fn compare_line(alloc: Global, line: &str, tallies: &mut Tallies) -> Result<(), Error> {
    let mut fields = line.split('\t');
    let kind = next(&mut fields)?;
    let is_one = next(&mut fields)? == "read";
    next(&mut fields)?;
    let all = octets_of(alloc, next(&mut fields)?)?;
    let octets = all.as_slice();
    match kind {
        "RSAPublicKey" => compare::<RsaPublicKey>(alloc, octets, is_one, tallies),
        "RSAPrivateKey" => compare::<RsaPrivateKey>(alloc, octets, is_one, tallies),
        "ECPrivateKey" => compare::<EcPrivateKey>(alloc, octets, is_one, tallies),
        "Ecdsa-Sig-Value" => compare::<EcdsaSigValue>(alloc, octets, is_one, tallies),
        "Dss-Parms" => compare::<DssParms>(alloc, octets, is_one, tallies),
        "PrivateKeyInfo" => compare::<PrivateKeyInfo>(alloc, octets, is_one, tallies),
        "EncryptedPrivateKeyInfo" => {
            compare::<EncryptedPrivateKeyInfo>(alloc, octets, is_one, tallies)
        }
        "ContentInfo" => compare::<ContentInfo>(alloc, octets, is_one, tallies),
        "SignedData" => compare::<SignedData>(alloc, octets, is_one, tallies),
        "EncryptedData" => compare::<EncryptedData>(alloc, octets, is_one, tallies),
        "PFX" => compare::<Pfx>(alloc, octets, is_one, tallies),
        "MacData" => compare::<MacData>(alloc, octets, is_one, tallies),
        "SafeBag" => compare::<SafeBag>(alloc, octets, is_one, tallies),
        "TimeStampReq" => compare::<TimeStampReq>(alloc, octets, is_one, tallies),
        "Request" => compare::<SingleRequest>(alloc, octets, is_one, tallies),
        "RouteOriginAttestation" => {
            compare::<RouteOriginAttestation>(alloc, octets, is_one, tallies)
        }
        "CertificatePolicies" => compare::<CertificatePolicies>(alloc, octets, is_one, tallies),
        "PolicyConstraints" => compare::<PolicyConstraints>(alloc, octets, is_one, tallies),
        "PolicyMappings" => compare::<PolicyMappings>(alloc, octets, is_one, tallies),
        "ExtKeyUsageSyntax" => compare::<ExtKeyUsage>(alloc, octets, is_one, tallies),
        "EnvelopedData" => compare::<EnvelopedData>(alloc, octets, is_one, tallies),
        "OCSPResponse" => compare::<OcspResponse>(alloc, octets, is_one, tallies),
        "BasicOCSPResponse" => compare::<BasicOcspResponse>(alloc, octets, is_one, tallies),
        _ => compare_named(alloc, kind, octets, is_one, tallies),
    }
}
