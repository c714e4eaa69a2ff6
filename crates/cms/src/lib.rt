//! The Cryptographic Message Syntax (RFC 5652) as types of `asn1`: signed and encrypted content.
//!
//! Each reads and writes itself. Its reader is exact, because those of its parts are: it accepts
//! the encodings of the type, and no others. Nothing is computed or verified: there is no
//! cryptography here.
#![tactic(auto, using(bcder::specs::laws::Moved::untouched_is_moved))]

mod content_info;
mod enveloped_data;
mod key_agreement;
mod recipient_info;
mod recipient_key;
mod shared_key;
mod signed_data;

pub use content_info::{ContentInfo, EncapsulatedContentInfo, EncryptedContentInfo, EncryptedData};
pub use enveloped_data::{EnvelopedData, OriginatorInfo};
pub use key_agreement::{
    KeyAgreeRecipientInfo, OriginatorIdentifierOrKey, OriginatorPublicKey, RecipientEncryptedKey,
};
pub use recipient_info::{
    KeyTransRecipientInfo, OtherRecipientInfo, PasswordRecipientInfo, RecipientIdentifier,
    RecipientInfo,
};
pub use recipient_key::{KeyAgreeRecipientIdentifier, RecipientKeyIdentifier};
pub use shared_key::{KekIdentifier, KekRecipientInfo, OtherKeyAttribute};
pub use signed_data::{IssuerAndSerialNumber, SignedData, SignerIdentifier, SignerInfo};
