//! Strings (X.690, 8.6, 8.7).
pub(crate) mod bit;
pub(crate) mod octet;
pub(crate) mod restricted;

pub use bit::{BitSliceEncoder, BitString, BitStringIter};
pub use octet::{
    OctetSliceEncoder, OctetString, OctetStringEncoder, OctetStringIter, OctetStringOctets,
    OctetStringSource, WrappingOctetStringEncoder,
};
pub use restricted::{
    CharSet, CharSetError, Ia5CharSet, Ia5String, NumericCharSet, NumericString, PrintableCharSet,
    PrintableString, RestrictedString, RestrictedStringChars, StringError, TextCharSet,
    Utf8CharSet, Utf8String,
};
