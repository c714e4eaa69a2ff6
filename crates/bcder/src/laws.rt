//! Laws that follow from the definitions alone, each stated as the contract of a function without a
//! body; and the constants of `Tag` beside the numbers that they stand for.
ghost use Rattle.std.specs.Prelude.{◌≡◌, ◌++◌, map};
ghost use Rattle.std.specs.List.{range_with_len};
ghost use Rattle.bcder.specs.x690.Identifier.{universal, context_specific};
ghost use Rattle.bcder.specs.x690.Grammar.{OneIdentifier, OneLength, OneEnd, OneFront, OneList};
ghost use Rattle.bcder.specs.x690.Grammar.{OneEncoding, ValueInBer, ListInBer};
ghost use Rattle.bcder.specs.x690.Grammar.{ValueHasTwo, ListHasTwo, ValueIsOctets, ListIsOctets};

pub mod bit_strings;
pub mod char_sets;
pub mod encoders;
pub mod exactly;
pub mod identifiers;
pub mod integers;
pub mod next;
pub mod octet_strings;
pub mod read_back;
pub mod restricted_strings;
pub mod sources;
pub mod taken_back;
pub mod written_strings;

use crate::tag::Tag;

/// No identifier octets, length octets or end-of-contents octets are a proper prefix of others of
/// their kind (X.690, 8.1.2, 8.1.3, 8.1.5).
pub fn no_header_begins_another()
    ensures identifier { OneIdentifier }
    ensures length { OneLength }
    ensures end { OneEnd }
{}

/// At most one prefix of octets is an encoding in a mode, and it encodes one value only: no
/// encoding is a proper prefix of another.
pub fn a_front_is_one_value()
    ensures { OneFront }
{}

/// Octets are the encodings of at most one list of values.
pub fn octets_are_one_list()
    ensures { OneList }
{}

/// In CER and DER a list of values has at most one encoding (X.690, 9.1, 10.1).
pub fn values_have_one_encoding()
    ensures { OneEncoding }
{}

/// An encoding in CER or DER is also an encoding in BER, of the same value.
pub fn strict_encodings_are_basic()
    ensures value { ValueInBer }
    ensures list { ListInBer }
{}

/// An encoding has at least two octets for each heading of its value: one identifier octet and one
/// length octet.
pub fn each_heading_has_two_octets()
    ensures value { ValueHasTwo }
    ensures list { ListHasTwo }
{}

/// Encodings are octets: numbers below 256.
pub fn encodings_are_octets()
    ensures value { ValueIsOctets }
    ensures list { ListIsOctets }
{}

/// Returns each universal constant beside its number (X.680, 8.4): 0 to 14 and 16 to 36.
pub fn universal_constants() -> [(Tag, u32); 36]
    ensures { result ≡ map (λ n. (record { class = universal; number = n }, n))
        (range_with_len 0 15 ++ range_with_len 16 21) }
{
    [
        (Tag::END_OF_VALUE, 0),
        (Tag::BOOLEAN, 1),
        (Tag::INTEGER, 2),
        (Tag::BIT_STRING, 3),
        (Tag::OCTET_STRING, 4),
        (Tag::NULL, 5),
        (Tag::OID, 6),
        (Tag::OBJECT_DESCRIPTOR, 7),
        (Tag::EXTERNAL, 8),
        (Tag::REAL, 9),
        (Tag::ENUMERATED, 10),
        (Tag::EMBEDDED_PDV, 11),
        (Tag::UTF8_STRING, 12),
        (Tag::RELATIVE_OID, 13),
        (Tag::TIME, 14),
        (Tag::SEQUENCE, 16),
        (Tag::SET, 17),
        (Tag::NUMERIC_STRING, 18),
        (Tag::PRINTABLE_STRING, 19),
        (Tag::TELETEX_STRING, 20),
        (Tag::VIDEOTEX_STRING, 21),
        (Tag::IA5_STRING, 22),
        (Tag::UTC_TIME, 23),
        (Tag::GENERALIZED_TIME, 24),
        (Tag::GRAPHIC_STRING, 25),
        (Tag::VISIBLE_STRING, 26),
        (Tag::GENERAL_STRING, 27),
        (Tag::UNIVERSAL_STRING, 28),
        (Tag::CHARACTER_STRING, 29),
        (Tag::BMP_STRING, 30),
        (Tag::DATE, 31),
        (Tag::TIME_OF_DAY, 32),
        (Tag::DATE_TIME, 33),
        (Tag::DURATION, 34),
        (Tag::OID_IRI, 35),
        (Tag::RELATIVE_OID_IRI, 36),
    ]
}

/// Returns each context-specific constant beside its number: 0 to 6.
pub fn context_constants() -> [(Tag, u32); 7]
    ensures { result ≡ map (λ n. (record { class = context_specific; number = n }, n))
        (range_with_len 0 7) }
{
    [
        (Tag::CTX_0, 0),
        (Tag::CTX_1, 1),
        (Tag::CTX_2, 2),
        (Tag::CTX_3, 3),
        (Tag::CTX_4, 4),
        (Tag::CTX_5, 5),
        (Tag::CTX_6, 6),
    ]
}
