//! Private keys. Their octets are shown only if that is asked for.
use crate::certificate::{bits, show_algorithm, show_attributes};
use crate::decoded::{Unshown, read, whole};
use crate::key::{EC, RSA, RSA_PSS, curve_bits, curve_of, show_curve, show_size};
use crate::name::number_of;
use crate::page::Page;
use crate::shown::{Number, bit_len};
use crate::structure::Structure;
use asn1::ObjectIdentifier;
use bcder::OctetString;
use pkix::{EcPrivateKey, EncryptedPrivateKeyInfo, PrivateKeyInfo, RsaPrivateKey};
use std::alloc::AllocError;

/// Shows octets that are secret, or only how many they are.
fn show_secret(
    page: &mut Page,
    depth: usize,
    title: &str,
    octets: &[u8],
) -> Result<(), AllocError> {
    if page.private {
        page.block(depth, title, octets)
    } else {
        page.line(
            depth,
            format_args!("{title}: ({} octets, not shown)", octets.len()),
        )
    }
}

/// Shows a private key of RSA.
pub(crate) fn show_rsa_private(
    page: &mut Page,
    depth: usize,
    key: &RsaPrivateKey,
) -> Result<(), AllocError> {
    show_size(page, depth, "Private-Key", Some(bit_len(&key.modulus)))?;
    page.block(depth, "modulus", key.modulus.as_slice())?;
    page.line(
        depth,
        format_args!("publicExponent: {}", Number(&key.public_exponent)),
    )?;
    show_secret(
        page,
        depth,
        "privateExponent",
        key.private_exponent.as_slice(),
    )?;
    show_secret(page, depth, "prime1", key.prime1.as_slice())?;
    show_secret(page, depth, "prime2", key.prime2.as_slice())?;
    show_secret(page, depth, "exponent1", key.exponent1.as_slice())?;
    show_secret(page, depth, "exponent2", key.exponent2.as_slice())?;
    show_secret(page, depth, "coefficient", key.coefficient.as_slice())?;
    if let Some(others) = &key.other_prime_infos {
        for other in others.0.iter() {
            show_secret(page, depth, "prime", other.prime.as_slice())?;
            show_secret(page, depth, "exponent", other.exponent.as_slice())?;
            show_secret(page, depth, "coefficient", other.coefficient.as_slice())?;
        }
    }
    Ok(())
}

/// Shows a private key of a curve, which is known already or named by the key.
pub(crate) fn show_ec_private(
    page: &mut Page,
    depth: usize,
    known: Option<&ObjectIdentifier>,
    key: &EcPrivateKey,
) -> Result<(), AllocError> {
    let id = match &key.parameters {
        Some(parameters) => Some(&parameters.value),
        None => known,
    };
    let size = match id {
        Some(id) => curve_bits(page, id)?,
        None => None,
    };
    show_size(page, depth, "Private-Key", size)?;
    let octets = whole(page.alloc, &key.private_key)?;
    show_secret(page, depth, "priv", octets.as_slice())?;
    if let Some(public) = &key.public_key {
        page.block(depth, "pub", bits(&public.value))?;
    }
    if let Some(id) = id {
        show_curve(page, depth, id)?;
    }
    Ok(())
}

/// Shows the octets of a private key of an algorithm.
fn show_private_of(
    page: &mut Page,
    depth: usize,
    key: &PrivateKeyInfo,
    octets: &[u8],
) -> Result<(), Unshown> {
    let number = number_of(page.alloc, &key.private_key_algorithm.algorithm)?;
    match number.as_str() {
        RSA | RSA_PSS => {
            let key = read::<RsaPrivateKey>(page, octets)?;
            show_rsa_private(page, depth, &key)?;
        }
        EC => {
            let id = curve_of(page, &key.private_key_algorithm)?;
            let key = read::<EcPrivateKey>(page, octets)?;
            show_ec_private(page, depth, id.as_ref(), &key)?;
        }
        "1.3.101.110" | "1.3.101.111" | "1.3.101.112" | "1.3.101.113" => {
            let key = read::<OctetString>(page, octets)?;
            let octets = whole(page.alloc, &key)?;
            show_secret(page, depth, "priv", octets.as_slice())?;
        }
        _ => show_secret(page, depth, "priv", octets)?,
    }
    Ok(())
}

impl Structure for PrivateKeyInfo {
    fn show(&self, page: &mut Page) -> Result<(), AllocError> {
        page.line(0, "Private Key:")?;
        let version = self.version;
        page.line(1, format_args!("Version: {version}"))?;
        show_algorithm(
            page,
            1,
            "Private Key Algorithm",
            &self.private_key_algorithm,
        )?;
        let octets = whole(page.alloc, &self.private_key)?;
        match show_private_of(page, 2, self, octets.as_slice()) {
            Ok(()) => {}
            Err(Unshown::NoMemory) => return Err(AllocError),
            Err(Unshown::Refused(error)) => page.refuse(format_args!("Private Key: {error}"))?,
        }
        if let Some(attributes) = &self.attributes {
            page.line(1, "Attributes:")?;
            show_attributes(page, 2, attributes.value.0.as_slice())?;
        }
        if let Some(public) = &self.public_key {
            page.block(1, "pub", bits(&public.value))?;
        }
        Ok(())
    }
}

impl Structure for EncryptedPrivateKeyInfo {
    fn show(&self, page: &mut Page) -> Result<(), AllocError> {
        page.line(0, "Encrypted Private Key:")?;
        show_algorithm(page, 1, "Encryption Algorithm", &self.encryption_algorithm)?;
        page.line(
            1,
            format_args!("Encrypted Data: ({} octets)", self.encrypted_data.len()),
        )
    }
}

impl Structure for RsaPrivateKey {
    fn show(&self, page: &mut Page) -> Result<(), AllocError> {
        page.line(0, "RSA Private Key:")?;
        show_rsa_private(page, 1, self)
    }
}

impl Structure for EcPrivateKey {
    fn show(&self, page: &mut Page) -> Result<(), AllocError> {
        page.line(0, "EC Private Key:")?;
        show_ec_private(page, 1, None, self)
    }
}
