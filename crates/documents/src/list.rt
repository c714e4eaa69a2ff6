//! Lists of revoked certificates, by their fields.
use crate::document::Document;
use crate::fields::{
    add_extensions, add_line, add_signature, algorithm_text, name_text, time_text,
};
use anyhow::Error;
use pkix::{CertificateList, RevokedCertificate, TbsCertList};
use std::alloc::Global;

/// Adds a certificate that is revoked.
fn add_revoked(
    alloc: Global,
    revoked: &RevokedCertificate,
    text: &mut String,
) -> Result<(), Error> {
    let number = hex::encode(alloc, revoked.user_certificate.as_slice())?;
    let time = time_text(alloc, &revoked.revocation_date)?;
    let line = format!(in alloc; "{number} {time}")?;
    add_line(alloc, "revoked", line.as_str(), text)?;
    match &revoked.crl_entry_extensions {
        Some(extensions) => {
            add_extensions(alloc, "its extension", extensions.0.as_slice(), text)
        }
        None => Ok(()),
    }
}

/// Adds who signed, and when.
fn add_issued(alloc: Global, signed: &TbsCertList, text: &mut String) -> Result<(), Error> {
    if let Some(version) = signed.version {
        let version = format!(in alloc; "{version}")?;
        add_line(alloc, "version", version.as_str(), text)?;
    }
    let algorithm = algorithm_text(alloc, &signed.signature)?;
    add_line(alloc, "signature", algorithm.as_str(), text)?;
    let issuer = name_text(alloc, &signed.issuer)?;
    add_line(alloc, "issuer", issuer.as_str(), text)?;
    let time = time_text(alloc, &signed.this_update)?;
    add_line(alloc, "this update", time.as_str(), text)?;
    match &signed.next_update {
        Some(time) => {
            let time = time_text(alloc, time)?;
            add_line(alloc, "next update", time.as_str(), text)
        }
        None => Ok(()),
    }
}

/// Adds what is listed.
fn add_listed(alloc: Global, signed: &TbsCertList, text: &mut String) -> Result<(), Error> {
    if let Some(all) = &signed.revoked_certificates {
        for revoked in all.0.as_slice() {
            add_revoked(alloc, revoked, text)?;
        }
    }
    match &signed.crl_extensions {
        Some(extensions) => {
            add_extensions(alloc, "extension", extensions.value.0.as_slice(), text)
        }
        None => Ok(()),
    }
}

impl Document for CertificateList {
    fn add_fields(&self, alloc: Global, text: &mut String) -> Result<(), Error> {
        add_issued(alloc, &self.tbs_cert_list, text)?;
        add_listed(alloc, &self.tbs_cert_list, text)?;
        add_signature(
            alloc,
            &self.signature_algorithm,
            &self.signature_value,
            text,
        )
    }
}
