//! Public keys.
use crate::certificate::bits;
use crate::decoded::{Unshown, read};
use crate::name::{number_of, title_of};
use crate::page::Page;
use crate::shown::{Number, bit_len};
use crate::structure::Structure;
use asn1::ObjectIdentifier;
use names::name_of;
use pkix::{AlgorithmIdentifier, EcParameters, RsaPublicKey, SubjectPublicKeyInfo};
use std::alloc::AllocError;

/// The identifier of RSA (RFC 8017, A.1).
pub(crate) const RSA: &str = "1.2.840.113549.1.1.1";

/// The identifier of RSA for signatures by PSS (RFC 8017, A.2.3).
pub(crate) const RSA_PSS: &str = "1.2.840.113549.1.1.10";

/// The identifier of keys of elliptic curves (RFC 5480, section 2.1.1).
pub(crate) const EC: &str = "1.2.840.10045.2.1";

/// Returns the bits of the order of a curve with a number, and the name that NIST gives the curve.
fn curve(number: &str) -> Option<(usize, &'static str)> {
    match number {
        "1.2.840.10045.3.1.1" => Some((192, "P-192")),
        "1.3.132.0.33" => Some((224, "P-224")),
        "1.2.840.10045.3.1.7" => Some((256, "P-256")),
        "1.3.132.0.34" => Some((384, "P-384")),
        "1.3.132.0.35" => Some((521, "P-521")),
        "1.3.132.0.10" => Some((256, "")),
        "1.3.36.3.3.2.8.1.1.7" => Some((256, "")),
        "1.3.36.3.3.2.8.1.1.11" => Some((384, "")),
        "1.3.36.3.3.2.8.1.1.13" => Some((512, "")),
        _ => None,
    }
}

/// Returns the number of bits of the curve that is named by parameters, if it is known.
pub(crate) fn curve_bits(page: &Page, id: &ObjectIdentifier) -> Result<Option<usize>, AllocError> {
    let number = number_of(page.alloc, id)?;
    match curve(number.as_str()) {
        Some((bits, _)) => Ok(Some(bits)),
        None => Ok(None),
    }
}

/// Shows the names of a curve.
pub(crate) fn show_curve(
    page: &mut Page,
    depth: usize,
    id: &ObjectIdentifier,
) -> Result<(), AllocError> {
    let number = number_of(page.alloc, id)?;
    let name = name_of(number.as_str()).unwrap_or(number.as_str());
    page.line(depth, format_args!("ASN1 OID: {name}"))?;
    match curve(number.as_str()) {
        Some((_, nist)) if !nist.is_empty() => {
            page.line(depth, format_args!("NIST CURVE: {nist}"))
        }
        _ => Ok(()),
    }
}

/// Shows how long a key is, if it is known.
pub(crate) fn show_size(
    page: &mut Page,
    depth: usize,
    title: &str,
    size: Option<usize>,
) -> Result<(), AllocError> {
    match size {
        Some(size) => page.line(depth, format_args!("{title}: ({size} bit)")),
        None => page.line(depth, format_args!("{title}:")),
    }
}

/// Shows a public key of RSA.
pub(crate) fn show_rsa(
    page: &mut Page,
    depth: usize,
    key: &RsaPublicKey,
) -> Result<(), AllocError> {
    show_size(page, depth, "Public-Key", Some(bit_len(&key.modulus)))?;
    page.block(depth, "Modulus", key.modulus.as_slice())?;
    page.line(
        depth,
        format_args!("Exponent: {}", Number(&key.public_exponent)),
    )
}

/// Returns the curve that parameters name.
pub(crate) fn curve_of(
    page: &Page,
    algorithm: &AlgorithmIdentifier,
) -> Result<Option<ObjectIdentifier>, Unshown> {
    match &algorithm.parameters {
        Some(parameters) => Ok(Some(read::<EcParameters>(page, parameters.as_slice())?)),
        None => Ok(None),
    }
}

/// Shows a key of an algorithm.
fn show_key_of(
    page: &mut Page,
    depth: usize,
    number: &str,
    info: &SubjectPublicKeyInfo,
) -> Result<(), Unshown> {
    let octets = bits(&info.subject_public_key);
    match number {
        RSA | RSA_PSS => {
            let key = read::<RsaPublicKey>(page, octets)?;
            show_rsa(page, depth, &key)?;
        }
        EC => {
            if let Some(id) = curve_of(page, &info.algorithm)? {
                let size = curve_bits(page, &id)?;
                show_size(page, depth, "Public-Key", size)?;
                page.block(depth, "pub", octets)?;
                show_curve(page, depth, &id)?;
            } else {
                page.block(depth, "pub", octets)?;
            }
        }
        _ => {
            page.line(depth, "Public-Key:")?;
            page.block(depth, "pub", octets)?;
        }
    }
    Ok(())
}

/// Shows a public key. If its octets aren't of the type of its algorithm, that is told, and they
/// are shown.
pub(crate) fn show_key(
    page: &mut Page,
    depth: usize,
    info: &SubjectPublicKeyInfo,
) -> Result<(), AllocError> {
    let number = number_of(page.alloc, &info.algorithm.algorithm)?;
    let title = title_of(page.alloc, &info.algorithm.algorithm)?;
    page.line(depth, "Subject Public Key Info:")?;
    let inner = depth.saturating_add(1);
    page.line(
        inner,
        format_args!("Public Key Algorithm: {}", title.as_str()),
    )?;
    let deep = inner.saturating_add(1);
    match show_key_of(page, deep, number.as_str(), info) {
        Ok(()) => Ok(()),
        Err(Unshown::NoMemory) => Err(AllocError),
        Err(Unshown::Refused(error)) => {
            page.refuse(format_args!("Public Key: {error}"))?;
            page.block(deep, "pub", bits(&info.subject_public_key))
        }
    }
}

impl Structure for SubjectPublicKeyInfo {
    fn show(&self, page: &mut Page) -> Result<(), AllocError> {
        show_key(page, 0, self)
    }
}

impl Structure for RsaPublicKey {
    fn show(&self, page: &mut Page) -> Result<(), AllocError> {
        page.line(0, "RSA Public Key:")?;
        show_rsa(page, 1, self)
    }
}

impl Structure for EcParameters {
    fn show(&self, page: &mut Page) -> Result<(), AllocError> {
        page.line(0, "EC Parameters:")?;
        show_curve(page, 1, self)
    }
}
