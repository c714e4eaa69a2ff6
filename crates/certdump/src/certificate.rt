//! Certificates, and requests for them.
use crate::decoded::{Unshown, contents, read};
use crate::extension::show_extensions;
use crate::key::show_key;
use crate::name::{add_value, number_of, text_of_name, title_of};
use crate::page::Page;
use crate::shown::{Capitals, Number};
use crate::structure::Structure;
use asn1::{Any, ObjectIdentifier};
use bcder::{BitString, Integer, Tag};
use names::name_of;
use pkix::{
    AlgorithmIdentifier, Attribute, Certificate, CertificationRequest, Extensions, Name,
    TbsCertificate, Time,
};
use std::alloc::AllocError;
use std::fmt;

/// A time.
#[derive(Clone, Copy)]
pub(crate) struct Moment(pub(crate) Time);

impl fmt::Display for Moment {
    fn fmt<W: fmt::Write>(&self, f: &mut fmt::Formatter<W>) -> fmt::Result {
        match self.0 {
            Time::UtcTime(time) => write!(f, "{time}"),
            Time::GeneralTime(time) => write!(f, "{time}"),
        }
    }
}

/// Shows an algorithm behind a title.
pub(crate) fn show_algorithm(
    page: &mut Page,
    depth: usize,
    title: &str,
    algorithm: &AlgorithmIdentifier,
) -> Result<(), AllocError> {
    let name = title_of(page.alloc, &algorithm.algorithm)?;
    page.line(depth, format_args!("{title}: {}", name.as_str()))
}

/// Shows a name behind a title.
pub(crate) fn show_name(
    page: &mut Page,
    depth: usize,
    title: &str,
    name: &Name,
) -> Result<(), AllocError> {
    let text = text_of_name(page, name)?;
    page.line(depth, format_args!("{title}: {}", text.as_str()))
}

/// Shows the number of a certificate.
pub(crate) fn show_serial(
    page: &mut Page,
    depth: usize,
    number: &Integer,
) -> Result<(), AllocError> {
    page.line(depth, format_args!("Serial Number: {}", Number(number)))
}

/// Shows a signature, and the algorithm that made it.
pub(crate) fn show_signature(
    page: &mut Page,
    depth: usize,
    algorithm: &AlgorithmIdentifier,
    signature: &[u8],
) -> Result<(), AllocError> {
    show_algorithm(page, depth, "Signature Algorithm", algorithm)?;
    page.block(depth, "Signature Value", signature)
}

/// Returns the octets of a string of bits.
pub(crate) fn bits(string: &BitString) -> &[u8] {
    string.octet_slice().unwrap_or(&[])
}

/// Shows what is signed of a certificate.
fn show_signed(page: &mut Page, signed: &TbsCertificate) -> Result<(), AllocError> {
    let version = signed.version.value.value;
    let ordinal = u16::from(version).saturating_add(1);
    page.line(2, format_args!("Version: {ordinal} (0x{version:x})"))?;
    show_serial(page, 2, &signed.serial_number)?;
    show_algorithm(page, 2, "Signature Algorithm", &signed.signature)?;
    show_name(page, 2, "Issuer", &signed.issuer)?;
    page.line(2, "Validity")?;
    page.line(
        3,
        format_args!("Not Before: {}", Moment(signed.validity.not_before)),
    )?;
    page.line(
        3,
        format_args!("Not After : {}", Moment(signed.validity.not_after)),
    )?;
    show_name(page, 2, "Subject", &signed.subject)?;
    show_key(page, 2, &signed.subject_public_key_info)?;
    if let Some(id) = &signed.issuer_unique_id {
        page.block(2, "Issuer Unique ID", bits(&id.value))?;
    }
    if let Some(id) = &signed.subject_unique_id {
        page.block(2, "Subject Unique ID", bits(&id.value))?;
    }
    if let Some(extensions) = &signed.extensions {
        show_extensions(page, 2, "X509v3 extensions", &extensions.value)?;
    }
    Ok(())
}

impl Structure for Certificate {
    fn show(&self, page: &mut Page) -> Result<(), AllocError> {
        page.line(0, "Certificate:")?;
        page.line(1, "Data:")?;
        show_signed(page, &self.tbs_certificate)?;
        let signature = bits(&self.signature_value);
        show_signature(page, 1, &self.signature_algorithm, signature)
    }
}

/// Returns the text of a time or an object identifier.
fn text_of_plain(page: &Page, tag: Tag, octets: &[u8]) -> Result<String, Unshown> {
    if tag == Tag::OID {
        let id = read::<ObjectIdentifier>(page, octets)?;
        Ok(title_of(page.alloc, &id)?)
    } else {
        let time = read::<Time>(page, octets)?;
        Ok(format!(in page.alloc; "{}", Moment(time))?)
    }
}

/// Returns the text of a value of an attribute.
fn text_of_value(page: &Page, value: &Any) -> Result<String, AllocError> {
    let mut text = String::new(page.alloc);
    match contents(page.mode, value) {
        Some((tag, octets)) if tag == Tag::OCTET_STRING => write!(text, "{}", Capitals(octets))?,
        Some((tag, _)) if tag == Tag::OID || tag == Tag::UTC_TIME || tag == Tag::GENERALIZED_TIME =>
            {
                match text_of_plain(page, tag, value.as_slice()) {
                    Ok(plain) => return Ok(plain),
                    Err(Unshown::NoMemory) => return Err(AllocError),
                    Err(Unshown::Refused(_)) => add_value(page, &mut text, value)?,
                }
            }
        _ => add_value(page, &mut text, value)?,
    }
    Ok(text)
}

/// Shows extensions that are asked for (RFC 2985, section 5.4.2), or says why not, and returns
/// whether they are shown.
fn show_asked(page: &mut Page, depth: usize, octets: &[u8]) -> Result<bool, AllocError> {
    match read::<Extensions>(page, octets) {
        Ok(extensions) => {
            show_extensions(page, depth, "Requested Extensions", &extensions)?;
            Ok(true)
        }
        Err(Unshown::NoMemory) => Err(AllocError),
        Err(Unshown::Refused(error)) => {
            page.refuse(format_args!("Requested Extensions: {error}"))?;
            Ok(false)
        }
    }
}

/// Shows a value of the attribute with a number.
fn show_attribute_value(
    page: &mut Page,
    depth: usize,
    number: &str,
    value: &Any,
) -> Result<(), AllocError> {
    if number == "1.2.840.113549.1.9.14" && show_asked(page, depth, value.as_slice())? {
        return Ok(());
    }
    let title = name_of(number).unwrap_or(number);
    let text = text_of_value(page, value)?;
    page.line(depth, format_args!("{title}: {}", text.as_str()))
}

/// Shows attributes.
pub(crate) fn show_attributes(
    page: &mut Page,
    depth: usize,
    attributes: &[Attribute],
) -> Result<(), AllocError> {
    for attribute in attributes {
        let number = number_of(page.alloc, &attribute.attribute_type)?;
        for value in attribute.values.0.iter() {
            show_attribute_value(page, depth, number.as_str(), value)?;
        }
    }
    Ok(())
}

impl Structure for CertificationRequest {
    fn show(&self, page: &mut Page) -> Result<(), AllocError> {
        let info = &self.certification_request_info;
        let version = info.version;
        let ordinal = u16::from(version).saturating_add(1);
        page.line(0, "Certificate Request:")?;
        page.line(1, "Data:")?;
        page.line(2, format_args!("Version: {ordinal} (0x{version:x})"))?;
        show_name(page, 2, "Subject", &info.subject)?;
        show_key(page, 2, &info.subject_pk_info)?;
        page.line(2, "Attributes:")?;
        show_attributes(page, 3, info.attributes.value.0.as_slice())?;
        show_signature(page, 1, &self.signature_algorithm, bits(&self.signature))
    }
}
