//! Extensions, and the values of those that are known.
use crate::certificate::Moment;
use crate::constraints::{
    show_basic_constraints, show_key_usage, show_name_constraints, show_policy_constraints,
};
use crate::decoded::{Unshown, read, whole};
use crate::general_name::show_names;
use crate::name::{number_of, title_of};
use crate::page::Page;
use crate::points::{show_access, show_authority_key, show_issuing_point, show_points};
use crate::policies::{show_mappings, show_policies};
use crate::shown::{Capitals, Number};
use crate::text::shown;
use asn1::SequenceOf;
use bcder::Mode;
use bcder::string::Ia5String;
use general_names::GeneralNames;
use names::name_of;
use pkix::{
    CrlNumber, CrlReason, ExtKeyUsage, Extension, Extensions, InvalidityDate, ReasonCode,
    SubjectKeyIdentifier, Time,
};
use std::alloc::AllocError;

/// Shows purposes of a key.
fn show_purposes(page: &mut Page, depth: usize, octets: &[u8]) -> Result<(), Unshown> {
    let purposes = read::<ExtKeyUsage>(page, octets)?;
    let mut line = String::new(page.alloc);
    for purpose in purposes.0.iter() {
        if !line.is_empty() {
            line.push_str(", ")?;
        }
        let title = title_of(page.alloc, purpose)?;
        line.push_str(title.as_str())?;
    }
    Ok(page.line(depth, line.as_str())?)
}

/// Shows which key a certificate has.
fn show_subject_key(page: &mut Page, depth: usize, octets: &[u8]) -> Result<(), Unshown> {
    let key = read::<SubjectKeyIdentifier>(page, octets)?;
    let key = whole(page.alloc, &key)?;
    Ok(page.line(depth, Capitals(key.as_slice()))?)
}

/// Shows names.
fn show_general_names(page: &mut Page, depth: usize, octets: &[u8]) -> Result<(), Unshown> {
    let names = read::<GeneralNames>(page, octets)?;
    Ok(show_names(page, depth, &names)?)
}

/// Shows a number.
fn show_number(page: &mut Page, depth: usize, octets: &[u8]) -> Result<(), Unshown> {
    let number = read::<CrlNumber>(page, octets)?;
    Ok(page.line(depth, Number(&number))?)
}

/// Shows a time.
fn show_time(page: &mut Page, depth: usize, octets: &[u8]) -> Result<(), Unshown> {
    let time = read::<InvalidityDate>(page, octets)?;
    Ok(page.line(depth, Moment(Time::GeneralTime(time)))?)
}

/// Shows a comment.
fn show_comment(page: &mut Page, depth: usize, octets: &[u8]) -> Result<(), Unshown> {
    let comment = read::<Ia5String>(page, octets)?;
    let text = shown(page.alloc, &comment)?;
    Ok(page.line(depth, text.as_str())?)
}

/// Shows features of TLS (RFC 7633).
fn show_features(page: &mut Page, depth: usize, octets: &[u8]) -> Result<(), Unshown> {
    let features = read::<SequenceOf<u32>>(page, octets)?;
    for feature in features.0.iter() {
        match feature {
            5 => page.line(depth, "status_request")?,
            17 => page.line(depth, "status_request_v2")?,
            other => page.line(depth, other)?,
        }
    }
    Ok(())
}

/// Returns the words for why a certificate is revoked.
fn words_of(reason: CrlReason) -> &'static str {
    match reason {
        CrlReason::Unspecified => "Unspecified",
        CrlReason::KeyCompromise => "Key Compromise",
        CrlReason::CaCompromise => "CA Compromise",
        CrlReason::AffiliationChanged => "Affiliation Changed",
        CrlReason::Superseded => "Superseded",
        CrlReason::CessationOfOperation => "Cessation Of Operation",
        CrlReason::CertificateHold => "Certificate Hold",
        CrlReason::RemoveFromCrl => "Remove From CRL",
        CrlReason::PrivilegeWithdrawn => "Privilege Withdrawn",
        CrlReason::AaCompromise => "AA Compromise",
    }
}

/// Shows why a certificate is revoked.
fn show_reason(page: &mut Page, depth: usize, octets: &[u8]) -> Result<(), Unshown> {
    let reason = read::<ReasonCode>(page, octets)?;
    Ok(page.line(depth, words_of(reason.0))?)
}

/// Shows the value of the extension with a number.
fn show_value(page: &mut Page, depth: usize, number: &str, octets: &[u8]) -> Result<(), Unshown> {
    match number {
        "2.5.29.14" => show_subject_key(page, depth, octets),
        "2.5.29.15" => show_key_usage(page, depth, octets),
        "2.5.29.17" | "2.5.29.18" | "2.5.29.29" => show_general_names(page, depth, octets),
        "2.5.29.19" => show_basic_constraints(page, depth, octets),
        "2.5.29.20" | "2.5.29.27" | "2.5.29.54" => show_number(page, depth, octets),
        "2.5.29.21" => show_reason(page, depth, octets),
        "2.5.29.24" => show_time(page, depth, octets),
        "2.5.29.28" => show_issuing_point(page, depth, octets),
        "2.5.29.30" => show_name_constraints(page, depth, octets),
        "2.5.29.31" | "2.5.29.46" => show_points(page, depth, octets),
        "2.5.29.32" => show_policies(page, depth, octets),
        "2.5.29.33" => show_mappings(page, depth, octets),
        "2.5.29.35" => show_authority_key(page, depth, octets),
        "2.5.29.36" => show_policy_constraints(page, depth, octets),
        "2.5.29.37" => show_purposes(page, depth, octets),
        "1.3.6.1.5.5.7.1.1" | "1.3.6.1.5.5.7.1.11" => show_access(page, depth, octets),
        "1.3.6.1.5.5.7.1.24" => show_features(page, depth, octets),
        "2.16.840.1.113730.1.13" => show_comment(page, depth, octets),
        _ => Ok(page.octets(depth, octets)?),
    }
}

/// Shows what can be shown of a value that isn't of its type: what it is by BER, or else its
/// octets.
fn show_refused(
    page: &mut Page,
    depth: usize,
    number: &str,
    octets: &[u8],
) -> Result<(), AllocError> {
    let mode = page.mode;
    page.mode = Mode::Ber;
    let shown = show_value(page, depth, number, octets);
    page.mode = mode;
    match shown {
        Ok(()) => Ok(()),
        Err(Unshown::NoMemory) => Err(AllocError),
        Err(Unshown::Refused(_)) => page.octets(depth, octets),
    }
}

/// Shows an extension. If its value isn't of its type, that is told, too.
fn show_extension(page: &mut Page, depth: usize, extension: &Extension) -> Result<(), AllocError> {
    let inner = depth.saturating_add(1);
    let number = number_of(page.alloc, &extension.id)?;
    let title = name_of(number.as_str()).unwrap_or(number.as_str());
    let critical = if extension.critical.value {
        " critical"
    } else {
        ""
    };
    page.line(depth, format_args!("{title}:{critical}"))?;
    let octets = whole(page.alloc, &extension.value)?;
    match show_value(page, inner, number.as_str(), octets.as_slice()) {
        Ok(()) => Ok(()),
        Err(Unshown::NoMemory) => Err(AllocError),
        Err(Unshown::Refused(error)) => {
            page.refuse(format_args!("{title}: {error}"))?;
            show_refused(page, inner, number.as_str(), octets.as_slice())
        }
    }
}

/// Shows extensions behind a title.
pub(crate) fn show_extensions(
    page: &mut Page,
    depth: usize,
    title: &str,
    extensions: &Extensions,
) -> Result<(), AllocError> {
    page.line(depth, format_args!("{title}:"))?;
    for extension in extensions.0.iter() {
        show_extension(page, depth.saturating_add(1), extension)?;
    }
    Ok(())
}
