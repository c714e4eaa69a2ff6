//! Certificates, by their fields.
use crate::document::Document;
use crate::fields::{
    add_extensions, add_key, add_line, add_signature, algorithm_text, bits_text, name_text,
    time_text,
};
use anyhow::Error;
use pkix::{Certificate, TbsCertificate};
use std::alloc::Global;

/// Adds the names and times.
fn add_names(alloc: Global, signed: &TbsCertificate, text: &mut String) -> Result<(), Error> {
    let issuer = name_text(alloc, &signed.issuer)?;
    add_line(alloc, "issuer", issuer.as_str(), text)?;
    let time = time_text(alloc, &signed.validity.not_before)?;
    add_line(alloc, "not before", time.as_str(), text)?;
    let time = time_text(alloc, &signed.validity.not_after)?;
    add_line(alloc, "not after", time.as_str(), text)?;
    let subject = name_text(alloc, &signed.subject)?;
    add_line(alloc, "subject", subject.as_str(), text)
}

/// Adds what may stand behind the key.
fn add_rest(alloc: Global, signed: &TbsCertificate, text: &mut String) -> Result<(), Error> {
    if let Some(id) = &signed.issuer_unique_id {
        let bits = bits_text(alloc, &id.value)?;
        add_line(alloc, "issuer unique id", bits.as_str(), text)?;
    }
    if let Some(id) = &signed.subject_unique_id {
        let bits = bits_text(alloc, &id.value)?;
        add_line(alloc, "subject unique id", bits.as_str(), text)?;
    }
    match &signed.extensions {
        Some(extensions) => {
            add_extensions(alloc, "extension", extensions.value.0.as_slice(), text)
        }
        None => Ok(()),
    }
}

/// Adds what is signed.
fn add_signed(alloc: Global, signed: &TbsCertificate, text: &mut String) -> Result<(), Error> {
    let version = format!(in alloc; "{}", signed.version.value.value)?;
    add_line(alloc, "version", version.as_str(), text)?;
    let number = hex::encode(alloc, signed.serial_number.as_slice())?;
    add_line(alloc, "serial number", number.as_str(), text)?;
    let algorithm = algorithm_text(alloc, &signed.signature)?;
    add_line(alloc, "signature", algorithm.as_str(), text)?;
    add_names(alloc, signed, text)?;
    add_key(alloc, &signed.subject_public_key_info, text)?;
    add_rest(alloc, signed, text)
}

impl Document for Certificate {
    fn add_fields(&self, alloc: Global, text: &mut String) -> Result<(), Error> {
        add_signed(alloc, &self.tbs_certificate, text)?;
        add_signature(
            alloc,
            &self.signature_algorithm,
            &self.signature_value,
            text,
        )
    }
}
