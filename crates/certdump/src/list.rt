//! Lists of revoked certificates.
use crate::certificate::{Moment, bits, show_algorithm, show_name, show_serial, show_signature};
use crate::extension::show_extensions;
use crate::page::Page;
use crate::structure::Structure;
use pkix::{CertificateList, RevokedCertificate};
use std::alloc::AllocError;

/// Shows a certificate that is revoked.
fn show_revoked(page: &mut Page, revoked: &RevokedCertificate) -> Result<(), AllocError> {
    show_serial(page, 1, &revoked.user_certificate)?;
    let date = Moment(revoked.revocation_date);
    page.line(2, format_args!("Revocation Date: {date}"))?;
    if let Some(extensions) = &revoked.crl_entry_extensions {
        show_extensions(page, 2, "CRL entry extensions", extensions)?;
    }
    Ok(())
}

/// Shows the certificates that are revoked.
fn show_all_revoked(page: &mut Page, revoked: &[RevokedCertificate]) -> Result<(), AllocError> {
    if revoked.is_empty() {
        return page.line(0, "No Revoked Certificates.");
    }
    page.line(0, "Revoked Certificates:")?;
    for certificate in revoked {
        show_revoked(page, certificate)?;
    }
    Ok(())
}

impl Structure for CertificateList {
    fn show(&self, page: &mut Page) -> Result<(), AllocError> {
        let signed = &self.tbs_cert_list;
        page.line(0, "Certificate Revocation List (CRL):")?;
        let version = signed.version.unwrap_or(0);
        let ordinal = u16::from(version).saturating_add(1);
        page.line(2, format_args!("Version {ordinal} (0x{version:x})"))?;
        show_algorithm(page, 2, "Signature Algorithm", &signed.signature)?;
        show_name(page, 2, "Issuer", &signed.issuer)?;
        page.line(
            2,
            format_args!("Last Update: {}", Moment(signed.this_update)),
        )?;
        match signed.next_update {
            Some(time) => page.line(2, format_args!("Next Update: {}", Moment(time)))?,
            None => page.line(2, "Next Update: NONE")?,
        }
        if let Some(extensions) = &signed.crl_extensions {
            show_extensions(page, 2, "CRL extensions", &extensions.value)?;
        }
        match &signed.revoked_certificates {
            Some(revoked) => show_all_revoked(page, revoked.0.as_slice())?,
            None => show_all_revoked(page, &[])?,
        }
        show_signature(
            page,
            1,
            &self.signature_algorithm,
            bits(&self.signature_value),
        )
    }
}
