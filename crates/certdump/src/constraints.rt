//! Constraints on keys, names and policies.
use crate::decoded::{Unshown, read};
use crate::general_name::text_of_general;
use crate::page::Page;
use asn1::NamedBits;
use extensions::{GeneralSubtrees, NameConstraints};
use pkix::{BasicConstraints, KeyUsage, PolicyConstraints};
use std::alloc::AllocError;

/// What a key may be used for, by the position of its bit (RFC 5280, section 4.2.1.3).
const KEY_USES: &[&str] = &[
    "Digital Signature",
    "Non Repudiation",
    "Key Encipherment",
    "Data Encipherment",
    "Key Agreement",
    "Certificate Sign",
    "CRL Sign",
    "Encipher Only",
    "Decipher Only",
];

/// Shows the names of the bits that are one, on a line.
pub(crate) fn show_bits(
    page: &mut Page,
    depth: usize,
    set: &NamedBits,
    names: &[&str],
) -> Result<(), AllocError> {
    let mut line = String::new(page.alloc);
    let mut position = 0usize;
    for name in names {
        if set.has(position) {
            if !line.is_empty() {
                line.push_str(", ")?;
            }
            line.push_str(name)?;
        }
        position = position.saturating_add(1);
    }
    page.line(depth, line.as_str())
}

/// Shows what a key may be used for.
pub(crate) fn show_key_usage(page: &mut Page, depth: usize, octets: &[u8]) -> Result<(), Unshown> {
    let usage = read::<KeyUsage>(page, octets)?;
    Ok(show_bits(page, depth, &usage, KEY_USES)?)
}

/// Shows whether a subject is an authority.
pub(crate) fn show_basic_constraints(
    page: &mut Page,
    depth: usize,
    octets: &[u8],
) -> Result<(), Unshown> {
    let constraints = read::<BasicConstraints>(page, octets)?;
    let ca = if constraints.ca.value {
        "TRUE"
    } else {
        "FALSE"
    };
    match constraints.path_len {
        Some(path_len) => page.line(depth, format_args!("CA:{ca}, pathlen:{path_len}"))?,
        None => page.line(depth, format_args!("CA:{ca}"))?,
    }
    Ok(())
}

/// Shows the demands on policies.
pub(crate) fn show_policy_constraints(
    page: &mut Page,
    depth: usize,
    octets: &[u8],
) -> Result<(), Unshown> {
    let constraints = read::<PolicyConstraints>(page, octets)?;
    if let Some(certificates) = constraints.require_explicit_policy {
        let count = certificates.value;
        page.line(depth, format_args!("Require Explicit Policy:{count}"))?;
    }
    if let Some(certificates) = constraints.inhibit_policy_mapping {
        let count = certificates.value;
        page.line(depth, format_args!("Inhibit Policy Mapping:{count}"))?;
    }
    Ok(())
}

/// Shows subtrees of names behind a title.
fn show_subtrees(
    page: &mut Page,
    depth: usize,
    title: &str,
    subtrees: &GeneralSubtrees,
) -> Result<(), AllocError> {
    page.line(depth, title)?;
    for subtree in subtrees.0.iter() {
        let text = text_of_general(page, &subtree.base)?;
        page.line(depth.saturating_add(1), text.as_str())?;
    }
    Ok(())
}

/// Shows which names may be certified below an authority.
pub(crate) fn show_name_constraints(
    page: &mut Page,
    depth: usize,
    octets: &[u8],
) -> Result<(), Unshown> {
    let constraints = read::<NameConstraints>(page, octets)?;
    if let Some(subtrees) = &constraints.permitted_subtrees {
        show_subtrees(page, depth, "Permitted:", &subtrees.value)?;
    }
    if let Some(subtrees) = &constraints.excluded_subtrees {
        show_subtrees(page, depth, "Excluded:", &subtrees.value)?;
    }
    Ok(())
}
