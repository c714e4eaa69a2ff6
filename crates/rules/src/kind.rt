//! The kinds of types, by their tags.
ghost use Rattle.std.specs.Prelude.{◌≡◌};
ghost use Rattle.rules.specs.Kinds.{kind_of as kind_meant};

use bcder::Tag;

/// What a universal tag says of the contents of a value (X.680, 8.4).
#[derive(Clone, Copy, Debug, PartialEq, Eq)]
pub enum Kind {
    /// BOOLEAN.
    Boolean,

    /// INTEGER and ENUMERATED.
    Integer,

    /// REAL.
    Real,

    /// BIT STRING.
    BitString,

    /// OCTET STRING, and the types of characters and times that are encoded as one and aren't named
    /// here.
    OctetString,

    /// UTF8String.
    Utf8String,

    /// NumericString.
    NumericString,

    /// PrintableString.
    PrintableString,

    /// IA5String.
    Ia5String,

    /// VisibleString.
    VisibleString,

    /// UniversalString.
    UniversalString,

    /// BMPString.
    BmpString,

    /// UTCTime.
    UtcTime,

    /// GeneralizedTime.
    GeneralizedTime,

    /// NULL.
    Null,

    /// OBJECT IDENTIFIER and RELATIVE-OID.
    Identifier,

    /// SEQUENCE, SET, EXTERNAL, EMBEDDED PDV and CHARACTER STRING.
    Structure,

    /// Any other type.
    Other,
}

/// Returns the kind of the type with a tag.
pub(crate) fn kind_of(tag: Tag) -> Kind
    ensures { result ≡ kind_meant tag }
{
    if !tag.is_universal() {
        return Kind::Other;
    }
    match tag.number() {
        1 => Kind::Boolean,
        2 | 10 => Kind::Integer,
        3 => Kind::BitString,
        5 => Kind::Null,
        6 | 13 => Kind::Identifier,
        9 => Kind::Real,
        8 | 11 | 16 | 17 | 29 => Kind::Structure,
        12 => Kind::Utf8String,
        18 => Kind::NumericString,
        19 => Kind::PrintableString,
        22 => Kind::Ia5String,
        23 => Kind::UtcTime,
        24 => Kind::GeneralizedTime,
        26 => Kind::VisibleString,
        28 => Kind::UniversalString,
        30 => Kind::BmpString,
        4 | 7 | 20 | 21 | 25 | 27 => Kind::OctetString,
        _ => Kind::Other,
    }
}
