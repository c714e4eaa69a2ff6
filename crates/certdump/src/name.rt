//! Names, and object identifiers.
use crate::decoded::contents;
use crate::page::Page;
use crate::text::{escaped, text_of};
use asn1::{Any, ObjectIdentifier};
use cli::shown::Shown;
use names::name_of;
use pkix::{AttributeTypeAndValue, Name};
use std::alloc::{AllocError, Global};

/// Returns the number of an object identifier, such as `2.5.4.3`.
pub(crate) fn number_of(alloc: Global, id: &ObjectIdentifier) -> Result<String, AllocError> {
    format!(in alloc; "{}", id.0)
}

/// Returns the name that the tables have for an object identifier, or else its number.
pub(crate) fn title_of(alloc: Global, id: &ObjectIdentifier) -> Result<String, AllocError> {
    let number = number_of(alloc, id)?;
    match name_of(number.as_str()) {
        Some(name) => String::from_str(alloc, name),
        None => Ok(number),
    }
}

/// Returns the short name of an attribute, if it has one (RFC 4519; RFC 4514, section 3).
fn short_name(number: &str) -> Option<&'static str> {
    match number {
        "2.5.4.3" => Some("CN"),
        "2.5.4.4" => Some("SN"),
        "2.5.4.6" => Some("C"),
        "2.5.4.7" => Some("L"),
        "2.5.4.8" => Some("ST"),
        "2.5.4.9" => Some("street"),
        "2.5.4.10" => Some("O"),
        "2.5.4.11" => Some("OU"),
        "2.5.4.42" => Some("GN"),
        "0.9.2342.19200300.100.1.1" => Some("UID"),
        "0.9.2342.19200300.100.1.25" => Some("DC"),
        "1.3.6.1.4.1.311.60.2.1.1" => Some("jurisdictionL"),
        "1.3.6.1.4.1.311.60.2.1.2" => Some("jurisdictionST"),
        "1.3.6.1.4.1.311.60.2.1.3" => Some("jurisdictionC"),
        _ => name_of(number),
    }
}

/// Appends octets in hexadecimal, behind a number sign (RFC 4514, section 2.4).
fn add_octets(text: &mut String, octets: &[u8]) -> Result<(), AllocError> {
    text.push('#')?;
    for octet in octets {
        let code = *octet;
        write!(text, "{code:02x}")?;
    }
    Ok(())
}

/// Appends the value of an attribute: its characters, or else its octets.
pub(crate) fn add_value(page: &Page, text: &mut String, value: &Any) -> Result<(), AllocError> {
    if let Some((tag, octets)) = contents(page.mode, value) {
        if let Some(decoded) = text_of(page.alloc, tag, octets)? {
            let shown = escaped(page.alloc, decoded.as_str())?;
            write!(text, "{}", Shown(shown.as_str()))?;
            return Ok(());
        }
    }
    add_octets(text, value.as_slice())
}

/// Appends an attribute.
fn add_attribute(
    page: &Page,
    text: &mut String,
    attribute: &AttributeTypeAndValue,
) -> Result<(), AllocError> {
    let number = number_of(page.alloc, &attribute.attribute_type)?;
    match short_name(number.as_str()) {
        Some(name) => text.push_str(name)?,
        None => text.push_str(number.as_str())?,
    }
    text.push('=')?;
    add_value(page, text, &attribute.value)
}

/// Returns the text of a name, from the root of the directory down:
/// `C=DE, O=Example, CN=a + UID=b`.
pub(crate) fn text_of_name(page: &Page, name: &Name) -> Result<String, AllocError> {
    let mut text = String::new(page.alloc);
    for part in name.rdn_sequence.0.iter() {
        let mut between = if text.is_empty() { "" } else { ", " };
        for attribute in part.0.iter() {
            text.push_str(between)?;
            add_attribute(page, &mut text, attribute)?;
            between = " + ";
        }
    }
    Ok(text)
}
