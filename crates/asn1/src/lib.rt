//! Types of ASN.1 (X.680) that read and write themselves, in BER, CER and DER (X.690).
//!
//! A struct or enum of one's own names the type that defines it ([`Definition`]). Its reader is
//! exact, because those of its parts are, and so is its writer. [`decode`] reads all octets of a
//! source as one value, and [`encode`] returns the octets of a value.
#![tactic(auto, using(bcder::specs::laws::Moved::untouched_is_moved))]

mod additions;
mod any;
mod boxed;
mod char_sets;
mod choice;
mod clear;
mod default;
mod definition;
mod definition_written;
mod fields;
mod implicit;
pub mod laws;
mod leaf;
mod leaf_written;
mod leaves;
mod lent;
mod list;
mod object_identifier;
mod parts;
mod parts_written;
mod path;
mod relative_oid;
mod sequence;
mod set;
mod set_of;
mod set_order;
mod tagged;
mod trace;
mod tuples;
mod type_error;
mod types;
mod whole;
mod whole_written;
mod writers;
mod written;

pub use additions::ExtensionAdditions;
pub use any::Any;
pub use char_sets::{
    BmpCharSet, BmpString, BmpStringRef, GeneralString, GeneralStringRef, GeneralTag,
    RegisteredTag, TeletexString, TeletexStringRef, TeletexTag, UniversalCharSet, UniversalString,
    UniversalStringRef, VisibleCharSet, VisibleString, VisibleStringRef,
};
pub use choice::{Choice2, Choice3, Choice4};
pub use civil::{DateTime, GeneralizedTime, UtcTime};
pub use clear::{Clear, ClearContents, ClearDefinition, ClearFields, ClearParts};
pub use default::{DefaultValue, OrDefault};
pub use definition::{DecodeDefinition, Definition};
pub use definition_written::EncodeDefinition;
pub use fields::{DecodeFields, Fields};
pub use implicit::{FixedTag, Implicit};
pub use leaf::{FromContents, Leaf};
pub use leaf_written::ToContents;
pub use leaves::{Enumerated, Enumeration, NamedBits, TaggedCharSet};
pub use lent::{
    Ia5StringRef, NumericStringRef, OctetStringRef, PrintableStringRef, RestrictedStringRef,
    Utf8StringRef,
};
pub use list::SequenceOf;
pub use object_identifier::ObjectIdentifier;
pub use parts::{DecodeParts, Parts, SequenceTag};
pub use parts_written::{EncodeParts, UseParts};
pub use path::Path;
pub use real::{Binary, Decimal, Real};
pub use relative_oid::RelativeOid;
pub use sequence::Sequence;
pub use set::Set;
pub use set_of::SetOf;
pub use set_order::SetOrder;
pub use tagged::{Application, Context, Explicit, Private, TagMarker};
#[doc(hidden)]
pub use trace::{Part, Trace};
pub use type_error::TypeError;
pub use types::{Decode, Type};
pub use whole::{decode, decode_octets};
pub use whole_written::encode;
pub use writers::{ByRef, Encode, EncodeFields};
