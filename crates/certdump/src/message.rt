//! Messages of CMS (RFC 5652), of which PKCS #7 is an older version.
use crate::certificate::{show_algorithm, show_attributes, show_name, show_serial};
use crate::decoded::{Unshown, read, whole};
use crate::name::{number_of, title_of};
use crate::page::Page;
use crate::shown::Capitals;
use crate::structure::{Structure, show_as};
use asn1::Any;
use cms::{
    ContentInfo, EncryptedContentInfo, EncryptedData, SignedData, SignerIdentifier, SignerInfo,
};
use pkix::{Certificate, CertificateList};
use std::alloc::AllocError;

/// Shows who signed.
fn show_signer(page: &mut Page, signer: &SignerInfo) -> Result<(), AllocError> {
    let version = signer.version;
    page.line(1, "Signer Info:")?;
    page.line(2, format_args!("Version: {version}"))?;
    match &signer.sid {
        SignerIdentifier::IssuerAndSerialNumber(id) => {
            show_name(page, 2, "Issuer", &id.issuer)?;
            show_serial(page, 2, &id.serial_number)?;
        }
        SignerIdentifier::SubjectKeyIdentifier(key) => {
            let key = whole(page.alloc, &key.value)?;
            page.line(
                2,
                format_args!("Subject Key Identifier: {}", Capitals(key.as_slice())),
            )?;
        }
    }
    show_algorithm(page, 2, "Digest Algorithm", &signer.digest_algorithm)?;
    if let Some(attributes) = &signer.signed_attrs {
        page.line(2, "Signed Attributes:")?;
        show_attributes(page, 3, attributes.value.0.as_slice())?;
    }
    show_algorithm(page, 2, "Signature Algorithm", &signer.signature_algorithm)?;
    let signature = whole(page.alloc, &signer.signature)?;
    page.block(2, "Signature Value", signature.as_slice())?;
    if let Some(attributes) = &signer.unsigned_attrs {
        page.line(2, "Unsigned Attributes:")?;
        show_attributes(page, 3, attributes.value.0.as_slice())?;
    }
    Ok(())
}

/// Shows what is signed, and who signed it.
fn show_signed_data(page: &mut Page, data: &SignedData) -> Result<(), Unshown> {
    let version = data.version;
    page.line(1, format_args!("Version: {version}"))?;
    for algorithm in data.digest_algorithms.0.iter() {
        show_algorithm(page, 1, "Digest Algorithm", algorithm)?;
    }
    let content = &data.encap_content_info;
    let title = title_of(page.alloc, &content.e_content_type)?;
    page.line(1, format_args!("Encapsulated Content: {}", title.as_str()))?;
    match &content.e_content {
        Some(octets) => page.line(2, format_args!("({} octets)", octets.value.len()))?,
        None => page.line(2, "(not in the message)")?,
    }
    if let Some(certificates) = &data.certificates {
        for certificate in certificates.value.0.iter() {
            show_as::<Certificate>(page, certificate.as_slice())?;
        }
    }
    if let Some(lists) = &data.crls {
        for list in lists.value.0.iter() {
            show_as::<CertificateList>(page, list.as_slice())?;
        }
    }
    for signer in data.signer_infos.0.iter() {
        show_signer(page, signer)?;
    }
    Ok(())
}

/// Shows what is encrypted.
fn show_encrypted_content(
    page: &mut Page,
    content: &EncryptedContentInfo,
) -> Result<(), AllocError> {
    let title = title_of(page.alloc, &content.content_type)?;
    page.line(1, format_args!("Encrypted Content: {}", title.as_str()))?;
    show_algorithm(
        page,
        2,
        "Encryption Algorithm",
        &content.content_encryption_algorithm,
    )?;
    match &content.encrypted_content {
        Some(octets) => page.line(2, format_args!("({} octets)", octets.value.len())),
        None => page.line(2, "(not in the message)"),
    }
}

/// Shows content of a type.
fn show_content(page: &mut Page, number: &str, content: &Any) -> Result<(), Unshown> {
    match number {
        "1.2.840.113549.1.7.2" => {
            let data = read::<SignedData>(page, content.as_slice())?;
            show_signed_data(page, &data)
        }
        "1.2.840.113549.1.7.6" => {
            let data = read::<EncryptedData>(page, content.as_slice())?;
            Ok(show_encrypted_content(page, &data.encrypted_content_info)?)
        }
        _ => {
            let count = content.as_slice().len();
            Ok(page.line(1, format_args!("Content: ({count} octets)"))?)
        }
    }
}

impl Structure for ContentInfo {
    fn show(&self, page: &mut Page) -> Result<(), AllocError> {
        let number = number_of(page.alloc, &self.content_type)?;
        let title = title_of(page.alloc, &self.content_type)?;
        page.line(0, "CMS Message:")?;
        page.line(1, format_args!("Content Type: {}", title.as_str()))?;
        match show_content(page, number.as_str(), &self.content.value) {
            Ok(()) => Ok(()),
            Err(Unshown::NoMemory) => Err(AllocError),
            Err(Unshown::Refused(error)) => page.refuse(format_args!("content: {error}")),
        }
    }
}
