//! Requests for certificates, by their fields.
use crate::document::Document;
use crate::fields::{add_key, add_line, add_signature, name_text};
use anyhow::Error;
use pkix::{Attribute, CertificationRequest, CertificationRequestInfo};
use std::alloc::Global;

/// Adds an attribute and its values.
fn add_attribute(alloc: Global, attribute: &Attribute, text: &mut String) -> Result<(), Error> {
    let mut line = format!(in alloc; "{}", attribute.attribute_type.0)?;
    for value in attribute.values.0.as_slice() {
        let octets = hex::encode(alloc, value.as_slice())?;
        line.push_str(format!(in alloc; " {octets}")?.as_str())?;
    }
    add_line(alloc, "attribute", line.as_str(), text)
}

/// Adds what is signed.
fn add_signed(
    alloc: Global,
    signed: &CertificationRequestInfo,
    text: &mut String,
) -> Result<(), Error> {
    let version = format!(in alloc; "{}", signed.version)?;
    add_line(alloc, "version", version.as_str(), text)?;
    let subject = name_text(alloc, &signed.subject)?;
    add_line(alloc, "subject", subject.as_str(), text)?;
    add_key(alloc, &signed.subject_pk_info, text)?;
    for attribute in signed.attributes.value.0.as_slice() {
        add_attribute(alloc, attribute, text)?;
    }
    Ok(())
}

impl Document for CertificationRequest {
    fn add_fields(&self, alloc: Global, text: &mut String) -> Result<(), Error> {
        add_signed(alloc, &self.certification_request_info, text)?;
        add_signature(alloc, &self.signature_algorithm, &self.signature, text)
    }
}
