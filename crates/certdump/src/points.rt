//! Where lists of revoked certificates and other things about an issuer are found.
use crate::constraints::show_bits;
use crate::decoded::{Unshown, read, whole};
use crate::general_name::{show_each, show_names, text_of_general};
use crate::name::title_of;
use crate::page::Page;
use crate::shown::{Capitals, magnitude};
use extensions::{
    AuthorityInfoAccess, AuthorityKeyIdentifier, CrlDistributionPoints, DistributionPoint,
    DistributionPointName, IssuingDistributionPoint,
};
use std::alloc::AllocError;

/// Why certificates are revoked, by the position of the bit.
const REASONS: &[&str] = &[
    "Unused",
    "Key Compromise",
    "CA Compromise",
    "Affiliation Changed",
    "Superseded",
    "Cessation Of Operation",
    "Certificate Hold",
    "Privilege Withdrawn",
    "AA Compromise",
];

/// Shows the place of a list.
fn show_place(
    page: &mut Page,
    depth: usize,
    place: &DistributionPointName,
) -> Result<(), AllocError> {
    match place {
        DistributionPointName::FullName(names) => {
            page.line(depth, "Full Name:")?;
            show_each(page, depth.saturating_add(1), &names.value)
        }
        DistributionPointName::NameRelativeToCrlIssuer(_) => page.line(depth, "Relative Name"),
    }
}

/// Shows a place where a list is found.
fn show_point(page: &mut Page, depth: usize, point: &DistributionPoint) -> Result<(), AllocError> {
    let inner = depth.saturating_add(1);
    if let Some(place) = &point.distribution_point {
        show_place(page, depth, &place.value)?;
    }
    if let Some(reasons) = &point.reasons {
        page.line(depth, "Reasons:")?;
        show_bits(page, inner, &reasons.value, REASONS)?;
    }
    if let Some(issuer) = &point.crl_issuer {
        page.line(depth, "CRL Issuer:")?;
        show_each(page, inner, &issuer.value)?;
    }
    Ok(())
}

/// Shows where lists are found.
pub(crate) fn show_points(page: &mut Page, depth: usize, octets: &[u8]) -> Result<(), Unshown> {
    let points = read::<CrlDistributionPoints>(page, octets)?;
    for point in points.0.iter() {
        show_point(page, depth, point)?;
    }
    Ok(())
}

/// Shows which certificates a list is about.
pub(crate) fn show_issuing_point(
    page: &mut Page,
    depth: usize,
    octets: &[u8],
) -> Result<(), Unshown> {
    let point = read::<IssuingDistributionPoint>(page, octets)?;
    if let Some(place) = &point.distribution_point {
        show_place(page, depth, &place.value)?;
    }
    for (is_so, text) in [
        (
            point.only_contains_user_certs.value.value,
            "Only User Certificates",
        ),
        (
            point.only_contains_ca_certs.value.value,
            "Only CA Certificates",
        ),
        (point.indirect_crl.value.value, "Indirect CRL"),
    ] {
        if is_so {
            page.line(depth, text)?;
        }
    }
    if let Some(reasons) = &point.only_some_reasons {
        page.line(depth, "Only Some Reasons:")?;
        show_bits(page, depth.saturating_add(1), &reasons.value, REASONS)?;
    }
    if point.only_contains_attribute_certs.value.value {
        page.line(depth, "Only Attribute Certificates")?;
    }
    Ok(())
}

/// Shows where something about an issuer is found.
pub(crate) fn show_access(page: &mut Page, depth: usize, octets: &[u8]) -> Result<(), Unshown> {
    let places = read::<AuthorityInfoAccess>(page, octets)?;
    for place in places.0.iter() {
        let title = title_of(page.alloc, &place.access_method)?;
        let text = text_of_general(page, &place.access_location)?;
        page.line(
            depth,
            format_args!("{} - {}", title.as_str(), text.as_str()),
        )?;
    }
    Ok(())
}

/// Shows which key signed.
pub(crate) fn show_authority_key(
    page: &mut Page,
    depth: usize,
    octets: &[u8],
) -> Result<(), Unshown> {
    let key = read::<AuthorityKeyIdentifier>(page, octets)?;
    if let Some(id) = &key.key_identifier {
        let id = whole(page.alloc, &id.value)?;
        page.line(depth, Capitals(id.as_slice()))?;
    }
    if let Some(issuer) = &key.authority_cert_issuer {
        show_names(page, depth, &issuer.value)?;
    }
    if let Some(number) = &key.authority_cert_serial_number {
        let octets = magnitude(number.value.as_slice());
        page.line(depth, format_args!("serial:{}", Capitals(octets)))?;
    }
    Ok(())
}
