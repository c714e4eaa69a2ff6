//! Policies of certificates (RFC 5280, section 4.2.1.4).
use crate::decoded::{Unshown, read};
use crate::name::number_of;
use crate::page::Page;
use crate::shown::Number;
use crate::text::shown;
use asn1::ObjectIdentifier;
use extensions::{CpsUri, DisplayText, UserNotice};
use names::name_of;
use pkix::{CertificatePolicies, PolicyInformation, PolicyMappings, PolicyQualifierInfo};
use std::alloc::{AllocError, Global};

/// Returns the text that is shown to users.
fn text_to_show(alloc: Global, text: &DisplayText) -> Result<String, AllocError> {
    match text {
        DisplayText::Ia5String(string) => shown(alloc, &string.0),
        DisplayText::VisibleString(string) => shown(alloc, &string.0),
        DisplayText::BmpString(string) => shown(alloc, &string.0),
        DisplayText::Utf8String(string) => shown(alloc, &string.0),
    }
}

/// Shows a notice to users.
fn show_notice(page: &mut Page, depth: usize, notice: &UserNotice) -> Result<(), AllocError> {
    page.line(depth, "User Notice:")?;
    let inner = depth.saturating_add(1);
    if let Some(reference) = &notice.notice_ref {
        let text = text_to_show(page.alloc, &reference.organization)?;
        page.line(inner, format_args!("Organization: {}", text.as_str()))?;
        for number in reference.notice_numbers.0.iter() {
            match i64::try_from(number) {
                Ok(number) => page.line(inner, format_args!("Number: {number}"))?,
                Err(_) => page.line(inner, format_args!("Number: {}", Number(number)))?,
            }
        }
    }
    if let Some(text) = &notice.explicit_text {
        let text = text_to_show(page.alloc, text)?;
        page.line(inner, format_args!("Explicit Text: {}", text.as_str()))?;
    }
    Ok(())
}

/// Shows what is said about a policy.
fn show_qualifier(
    page: &mut Page,
    depth: usize,
    qualifier: &PolicyQualifierInfo,
) -> Result<(), Unshown> {
    let number = number_of(page.alloc, &qualifier.policy_qualifier_id)?;
    let octets = qualifier.qualifier.as_slice();
    match number.as_str() {
        "1.3.6.1.5.5.7.2.1" => {
            let place = read::<CpsUri>(page, octets)?;
            let text = shown(page.alloc, &place.0)?;
            page.line(depth, format_args!("CPS: {}", text.as_str()))?;
        }
        "1.3.6.1.5.5.7.2.2" => {
            let notice = read::<UserNotice>(page, octets)?;
            show_notice(page, depth, &notice)?;
        }
        number => {
            page.line(depth, format_args!("Qualifier: {number}"))?;
            page.octets(depth, octets)?;
        }
    }
    Ok(())
}

/// Returns the number of a policy, and its name if it has one.
fn text_of_policy(alloc: Global, id: &ObjectIdentifier) -> Result<String, AllocError> {
    let number = number_of(alloc, id)?;
    match name_of(number.as_str()) {
        Some(name) => format!(in alloc; "{} ({name})", number.as_str()),
        None => Ok(number),
    }
}

/// Shows a policy.
fn show_policy(page: &mut Page, depth: usize, policy: &PolicyInformation) -> Result<(), Unshown> {
    let text = text_of_policy(page.alloc, &policy.policy_identifier)?;
    page.line(depth, format_args!("Policy: {}", text.as_str()))?;
    if let Some(qualifiers) = &policy.policy_qualifiers {
        for qualifier in qualifiers.0.iter() {
            show_qualifier(page, depth.saturating_add(1), qualifier)?;
        }
    }
    Ok(())
}

/// Shows the policies under which a certificate was issued.
pub(crate) fn show_policies(page: &mut Page, depth: usize, octets: &[u8]) -> Result<(), Unshown> {
    let policies = read::<CertificatePolicies>(page, octets)?;
    for policy in policies.0.iter() {
        show_policy(page, depth, policy)?;
    }
    Ok(())
}

/// Shows which policies of others are as good.
pub(crate) fn show_mappings(page: &mut Page, depth: usize, octets: &[u8]) -> Result<(), Unshown> {
    let mappings = read::<PolicyMappings>(page, octets)?;
    for mapping in mappings.0.iter() {
        let issuer = text_of_policy(page.alloc, &mapping.issuer_domain_policy)?;
        let subject = text_of_policy(page.alloc, &mapping.subject_domain_policy)?;
        page.line(
            depth,
            format_args!("{}:{}", issuer.as_str(), subject.as_str()),
        )?;
    }
    Ok(())
}
