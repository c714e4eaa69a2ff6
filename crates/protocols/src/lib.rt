//! What is exchanged beside certificates and signed messages, as types of `asn1`: requests for the
//! status of certificates (OCSP) and for time stamps, with their responses, files of keys
//! (PKCS #12), and authorizations of routes with their manifests (RPKI).
//!
//! Each reads and writes itself. Its reader is exact, because those of its parts are: it accepts
//! the encodings of the type, and no others. Nothing is computed or verified: there is no
//! cryptography here.
#![tactic(auto, using(bcder::specs::laws::Moved::untouched_is_moved))]

mod cert_status;
mod manifest;
mod ocsp;
mod ocsp_request;
mod ocsp_response;
mod pkcs12;
mod rpki;
mod time_stamp;
mod time_stamp_response;
mod tst_info;

pub use cert_status::{CertStatus, RevokedInfo};
pub use manifest::{FileAndHash, Manifest};
pub use ocsp::{CertId, SingleRequest};
pub use ocsp_request::{OcspRequest, OcspSignature, TbsRequest};
pub use ocsp_response::{
    BasicOcspResponse, OcspResponse, OcspResponseStatus, ResponderId, ResponseBytes, ResponseData,
    SingleResponse,
};
pub use pkcs12::{AuthenticatedSafe, MacData, OneIteration, Pfx, SafeBag, SafeContents};
pub use rpki::{RoaIpAddress, RoaIpAddressFamily, RouteOriginAttestation};
pub use time_stamp::{MessageImprint, NotRequired, TimeStampReq};
pub use time_stamp_response::{PkiStatusInfo, TimeStampResp};
pub use tst_info::{Accuracy, NotOrdered, TstInfo};
