//! Character sets and their strings (X.680, 41; X.690, 8.23).

mod bmp;
mod registered;
mod universal;
mod visible;

use crate::RestrictedStringRef;
use bcder::string::RestrictedString;
pub use bmp::BmpCharSet;
pub use registered::{
    GeneralString, GeneralStringRef, GeneralTag, RegisteredTag, TeletexString, TeletexStringRef,
    TeletexTag,
};
pub use universal::UniversalCharSet;
pub use visible::VisibleCharSet;

/// A string of the characters of ASCII that print, and spaces: VisibleString, also named
/// ISO646String (X.680, 41). Its text is its octets.
pub type VisibleString = RestrictedString<VisibleCharSet>;

/// A string of characters of the Basic Multilingual Plane, in two octets each: BMPString (X.680,
/// 41; X.690, 8.23.8).
pub type BmpString = RestrictedString<BmpCharSet>;

/// A string of characters of Unicode, in four octets each: UniversalString (X.680, 41; X.690,
/// 8.23.7).
pub type UniversalString = RestrictedString<UniversalCharSet>;

/// A VisibleString that is lent. Over a [`SliceSource<'a>`](bcder::decode::SliceSource) it is a
/// `VisibleStringRef<&'a [u8]>`, and so are the following.
pub type VisibleStringRef<L> = RestrictedStringRef<VisibleCharSet, L>;

/// A BMPString that is lent.
pub type BmpStringRef<L> = RestrictedStringRef<BmpCharSet, L>;

/// A UniversalString that is lent.
pub type UniversalStringRef<L> = RestrictedStringRef<UniversalCharSet, L>;
