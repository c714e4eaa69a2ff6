//! The structures that are shown.

/// A structure that octets may be.
#[derive(Clone, Copy, Debug, PartialEq, Eq)]
pub(crate) enum Kind {
    /// A certificate (RFC 5280, section 4.1).
    Certificate,

    /// A list of revoked certificates (RFC 5280, section 5.1).
    CertificateList,

    /// A request for a certificate (RFC 2986, section 4).
    Request,

    /// A message (RFC 5652, section 3).
    Message,

    /// A public key (RFC 5280, section 4.1).
    PublicKey,

    /// A private key (RFC 5958, section 2).
    PrivateKey,

    /// A private key that is encrypted (RFC 5958, section 3).
    EncryptedPrivateKey,

    /// A private key of RSA (RFC 8017, A.1.2).
    RsaPrivateKey,

    /// A private key of an elliptic curve (RFC 5915, section 3).
    EcPrivateKey,

    /// A public key of RSA (RFC 8017, A.1.1).
    RsaPublicKey,

    /// A curve (RFC 5480, section 2.1.1).
    EcParameters,
}

/// All of them, in the order in which they are tried.
pub(crate) const KINDS: [Kind; 11] = [
    Kind::Certificate,
    Kind::CertificateList,
    Kind::Request,
    Kind::Message,
    Kind::PublicKey,
    Kind::PrivateKey,
    Kind::EncryptedPrivateKey,
    Kind::RsaPrivateKey,
    Kind::EcPrivateKey,
    Kind::RsaPublicKey,
    Kind::EcParameters,
];

impl Kind {
    /// Returns the kind with a name on the command line.
    pub(crate) fn named(name: &str) -> Option<Kind> {
        match name {
            "certificate" => Some(Kind::Certificate),
            "crl" => Some(Kind::CertificateList),
            "request" => Some(Kind::Request),
            "cms" => Some(Kind::Message),
            "public-key" => Some(Kind::PublicKey),
            "private-key" => Some(Kind::PrivateKey),
            "encrypted-private-key" => Some(Kind::EncryptedPrivateKey),
            "rsa-private-key" => Some(Kind::RsaPrivateKey),
            "ec-private-key" => Some(Kind::EcPrivateKey),
            "rsa-public-key" => Some(Kind::RsaPublicKey),
            "ec-parameters" => Some(Kind::EcParameters),
            _ => None,
        }
    }

    /// Returns the kind that a block with a label carries (RFC 7468, sections 5 to 13).
    pub(crate) fn labelled(label: &[u8]) -> Option<Kind> {
        match str::from_utf8(label) {
            Ok("CERTIFICATE" | "X509 CERTIFICATE" | "X.509 CERTIFICATE") => Some(Kind::Certificate),
            Ok("X509 CRL" | "CRL") => Some(Kind::CertificateList),
            Ok("CERTIFICATE REQUEST" | "NEW CERTIFICATE REQUEST") => Some(Kind::Request),
            Ok("CMS" | "PKCS7") => Some(Kind::Message),
            Ok("PUBLIC KEY") => Some(Kind::PublicKey),
            Ok("PRIVATE KEY") => Some(Kind::PrivateKey),
            Ok("ENCRYPTED PRIVATE KEY") => Some(Kind::EncryptedPrivateKey),
            Ok("RSA PRIVATE KEY") => Some(Kind::RsaPrivateKey),
            Ok("EC PRIVATE KEY") => Some(Kind::EcPrivateKey),
            Ok("RSA PUBLIC KEY") => Some(Kind::RsaPublicKey),
            Ok("EC PARAMETERS") => Some(Kind::EcParameters),
            _ => None,
        }
    }
}
