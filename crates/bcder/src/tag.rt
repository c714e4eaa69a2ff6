//! Tags and identifier octets (X.690, 8.1.2).
ghost use Rattle.std.specs.Prelude.{◌≡◌, ℕ, ◌<◌, ◌≤◌, ◌^◌, ◌%◌, ◌↔◌, Bool, false, IsTrue};
ghost use Rattle.std.specs.Prelude.{Some, None, IfSome, MatchOption};
ghost use Rattle.bcder.specs.steps.Answers.{Answers};
ghost use Rattle.bcder.specs.x690.Identifier.{universal as universal_class};
ghost use Rattle.bcder.specs.x690.Identifier.{application as application_class};
ghost use Rattle.bcder.specs.x690.Identifier.{context_specific as context_specific_class};
ghost use Rattle.bcder.specs.x690.Identifier.{private as private_class};
ghost use Rattle.bcder.specs.x690.Identifier.{is_value_tag};
ghost use Rattle.bcder.specs.steps.Reading.{class_of, is_marked, read_identifier};
ghost use Rattle.bcder.specs.steps.Reading.{read_number, second_digit, third_digit};
ghost use Rattle.bcder.specs.calls.TagText.{class_meant};

mod display;

use std::marker::Model;

pub(crate) mod take;
mod write;

/// The class of a tag (8.1.2.2, table 1).
#[derive(Clone, Copy, Debug, PartialEq, Eq)]
enum Class {
    Universal,
    Application,
    ContextSpecific,
    Private,
}

/// A tag: a class, and a number of at most 2097151 (8.1.2).
///
/// With this limit, at most four identifier octets spell a tag.
#[derive(Clone, Copy, Debug, PartialEq, Eq)]
pub struct Tag {
    class: Class,
    number: u64,
}

impl Model for Tag {
    ghost use Rattle.std.specs.Prelude.{◌<◌, ◌^◌};
    ghost use Rattle.bcder.specs.x690.Identifier.{Tag as TagValue};

    ghost Value = { TagValue };

    ghost use Rattle.bcder.specs.calls.TagText.{class_meant, class_kept};

    ghost view = { λ a. record { class = class_meant a.class; number = a.number } };

    ghost invariant = { λ a. a.number < 2 ^ 21 };

    ghost inverse = { λ t. record { class = class_kept t.class; number = t.number } };
}

/// A constant tag of the universal class.
macro_rules! universal {
    ($number:literal) => {
        Tag { class: Class::Universal, number: $number }
    };
}

/// A constant context-specific tag.
macro_rules! context {
    ($number:literal) => {
        Tag { class: Class::ContextSpecific, number: $number }
    };
}

impl Tag {
    /// The tag of the end-of-contents octets, which no value has (8.1.5).
    pub const END_OF_VALUE: Tag = universal!(0);

    /// The universal tag of BOOLEAN.
    pub const BOOLEAN: Tag = universal!(1);

    /// The universal tag of INTEGER.
    pub const INTEGER: Tag = universal!(2);

    /// The universal tag of BIT STRING.
    pub const BIT_STRING: Tag = universal!(3);

    /// The universal tag of OCTET STRING.
    pub const OCTET_STRING: Tag = universal!(4);

    /// The universal tag of NULL.
    pub const NULL: Tag = universal!(5);

    /// The universal tag of OBJECT IDENTIFIER.
    pub const OID: Tag = universal!(6);

    /// The universal tag of ObjectDescriptor.
    pub const OBJECT_DESCRIPTOR: Tag = universal!(7);

    /// The universal tag of EXTERNAL.
    pub const EXTERNAL: Tag = universal!(8);

    /// The universal tag of REAL.
    pub const REAL: Tag = universal!(9);

    /// The universal tag of ENUMERATED.
    pub const ENUMERATED: Tag = universal!(10);

    /// The universal tag of EMBEDDED PDV.
    pub const EMBEDDED_PDV: Tag = universal!(11);

    /// The universal tag of UTF8String.
    pub const UTF8_STRING: Tag = universal!(12);

    /// The universal tag of RELATIVE-OID.
    pub const RELATIVE_OID: Tag = universal!(13);

    /// The universal tag of TIME.
    pub const TIME: Tag = universal!(14);

    /// The universal tag of SEQUENCE and SEQUENCE OF.
    pub const SEQUENCE: Tag = universal!(16);

    /// The universal tag of SET and SET OF.
    pub const SET: Tag = universal!(17);

    /// The universal tag of NumericString.
    pub const NUMERIC_STRING: Tag = universal!(18);

    /// The universal tag of PrintableString.
    pub const PRINTABLE_STRING: Tag = universal!(19);

    /// The universal tag of TeletexString.
    pub const TELETEX_STRING: Tag = universal!(20);

    /// The universal tag of VideotexString.
    pub const VIDEOTEX_STRING: Tag = universal!(21);

    /// The universal tag of IA5String.
    pub const IA5_STRING: Tag = universal!(22);

    /// The universal tag of UTCTime.
    pub const UTC_TIME: Tag = universal!(23);

    /// The universal tag of GeneralizedTime.
    pub const GENERALIZED_TIME: Tag = universal!(24);

    /// The universal tag of GraphicString.
    pub const GRAPHIC_STRING: Tag = universal!(25);

    /// The universal tag of VisibleString.
    pub const VISIBLE_STRING: Tag = universal!(26);

    /// The universal tag of GeneralString.
    pub const GENERAL_STRING: Tag = universal!(27);

    /// The universal tag of UniversalString.
    pub const UNIVERSAL_STRING: Tag = universal!(28);

    /// The universal tag of CHARACTER STRING.
    pub const CHARACTER_STRING: Tag = universal!(29);

    /// The universal tag of BMPString.
    pub const BMP_STRING: Tag = universal!(30);

    /// The universal tag of DATE.
    pub const DATE: Tag = universal!(31);

    /// The universal tag of TIME-OF-DAY.
    pub const TIME_OF_DAY: Tag = universal!(32);

    /// The universal tag of DATE-TIME.
    pub const DATE_TIME: Tag = universal!(33);

    /// The universal tag of DURATION.
    pub const DURATION: Tag = universal!(34);

    /// The universal tag of OID-IRI.
    pub const OID_IRI: Tag = universal!(35);

    /// The universal tag of RELATIVE-OID-IRI.
    pub const RELATIVE_OID_IRI: Tag = universal!(36);

    /// The context-specific tag 0.
    pub const CTX_0: Tag = context!(0);

    /// The context-specific tag 1.
    pub const CTX_1: Tag = context!(1);

    /// The context-specific tag 2.
    pub const CTX_2: Tag = context!(2);

    /// The context-specific tag 3.
    pub const CTX_3: Tag = context!(3);

    /// The context-specific tag 4.
    pub const CTX_4: Tag = context!(4);

    /// The context-specific tag 5.
    pub const CTX_5: Tag = context!(5);

    /// The context-specific tag 6.
    pub const CTX_6: Tag = context!(6);

    /// Returns the universal tag with this number, which has to be at most 2097151.
    pub fn universal(number: u32) -> Self
        requires { number ≤ 2097151 }
        ensures { result ≡ record { class = universal_class; number = number } }
    {
        Tag {
            class: Class::Universal,
            number: u64::from(number),
        }
    }

    /// Returns the application tag with this number, which has to be at most 2097151.
    pub fn application(number: u32) -> Self
        requires { number ≤ 2097151 }
        ensures { result ≡ record { class = application_class; number = number } }
    {
        Tag {
            class: Class::Application,
            number: u64::from(number),
        }
    }

    /// Returns the context-specific tag with this number, which has to be at most 2097151.
    pub fn ctx(number: u32) -> Self
        requires { number ≤ 2097151 }
        ensures { result ≡ record { class = context_specific_class; number = number } }
    {
        Tag {
            class: Class::ContextSpecific,
            number: u64::from(number),
        }
    }

    /// Returns the private tag with this number, which has to be at most 2097151.
    pub fn private(number: u32) -> Self
        requires { number ≤ 2097151 }
        ensures { result ≡ record { class = private_class; number = number } }
    {
        Tag {
            class: Class::Private,
            number: u64::from(number),
        }
    }

    /// Returns whether this is a tag of the universal class.
    pub fn is_universal(self) -> bool
        ensures { IsTrue result ↔ (self.class ≡ universal_class) }
    {
        self.class == Class::Universal
    }

    /// Returns whether this is a tag of the application class.
    pub fn is_application(self) -> bool
        ensures { IsTrue result ↔ (self.class ≡ application_class) }
    {
        self.class == Class::Application
    }

    /// Returns whether this is a tag of the context-specific class.
    pub fn is_context_specific(self) -> bool
        ensures { IsTrue result ↔ (self.class ≡ context_specific_class) }
    {
        self.class == Class::ContextSpecific
    }

    /// Returns whether this is a tag of the private class.
    pub fn is_private(self) -> bool
        ensures { IsTrue result ↔ (self.class ≡ private_class) }
    {
        self.class == Class::Private
    }

    /// Returns the number of the tag within its class.
    pub fn number(self) -> u32
        ensures value { result ≡ self.number }
        ensures limit { result ≤ 2097151 }
    {
        self.number as u32
    }

    /// Returns whether a value may have this tag: every tag except that of the end-of-contents
    /// octets.
    #[inline(always)]
    pub(crate) fn is_value(self) -> bool
        ensures { result ≡ is_value_tag self }
    {
        self.class != Class::Universal || self.number != 0
    }
}

/// Returns the class that bits 8 and 7 of the leading octet mean (8.1.2.2, table 1).
#[tactic(auto, using(crate::proofs::nat_tests), unfolding(crate::specs::steps::Reading::class_of))]
#[inline(always)]
fn class_at(octet: u8) -> Class
    ensures { class_meant result ≡ class_of octet }
{
    if octet < 0x40 {
        Class::Universal
    } else if octet < 0x80 {
        Class::Application
    } else if octet < 0xC0 {
        Class::ContextSpecific
    } else {
        Class::Private
    }
}

/// Reads a number from 31 on in base 128, with the most significant digit first and not 0
/// (8.1.2.4).
///
/// Returns it with the octets that follow.
#[tactic(auto, using(crate::proofs::nat_tests), unfolding(crate::specs::steps::Reading::read_number))]
fn number_at(octets: &[u8]) -> Option<(u64, &[u8])>
    ensures limit { IfSome result (λ r. r.0 ≤ 2097151) }
    ensures read { Answers result (read_number octets.now) }
{
    match octets {
        [] => None,
        [first, rest @ ..] => {
            if *first < 31 || *first == 0x80 {
                None
            } else if *first < 0x80 {
                Some((u64::from(*first), rest))
            } else {
                second_digit(u64::from(*first - 0x80), rest)
            }
        }
    }
}

/// Reads the rest of a number whose digits so far are `high`, and returns it with the octets that
/// follow.
#[tactic(auto, using(crate::proofs::nat_tests), unfolding(crate::specs::steps::Reading::second_digit))]
fn second_digit(high: u64, octets: &[u8]) -> Option<(u64, &[u8])>
    requires { high < 128 }
    ensures limit { IfSome result (λ r. r.0 ≤ 2097151) }
    ensures read { Answers result (second_digit high octets.now) }
{
    match octets {
        [] => None,
        [digit, rest @ ..] => {
            if *digit < 0x80 {
                Some((0x80 * high + u64::from(*digit), rest))
            } else {
                third_digit(0x80 * high + u64::from(*digit - 0x80), rest)
            }
        }
    }
}

/// Reads the rest of a number whose digits so far are `high`, if it is one digit, and returns it
/// with the octets that follow.
#[tactic(auto, using(crate::proofs::nat_tests), unfolding(crate::specs::steps::Reading::third_digit))]
fn third_digit(high: u64, octets: &[u8]) -> Option<(u64, &[u8])>
    requires { high < 16384 }
    ensures limit { IfSome result (λ r. r.0 ≤ 2097151) }
    ensures read { Answers result (third_digit high octets.now) }
{
    match octets {
        [digit, rest @ ..] if *digit < 0x80 => Some((0x80 * high + u64::from(*digit), rest)),
        _ => None,
    }
}

/// Returns the tag of a leading octet that holds the whole tag: its number is below 31 (8.1.2.2).
#[inline(always)]
pub(crate) fn tag_of_leading(octet: u8) -> Tag
    requires { octet % 32 < 31 }
    ensures { result ≡ record { class = class_of octet; number = octet % 32 } }
{
    Tag {
        class: class_at(octet),
        number: u64::from(octet % 32),
    }
}

/// Returns the constructed bit of a leading octet, bit 6 (8.1.2.5).
#[tactic(auto, using(crate::proofs::nat_tests), unfolding(crate::specs::steps::Reading::is_marked))]
#[inline(always)]
pub(crate) fn mark_of_leading(octet: u8) -> bool
    ensures { result ≡ is_marked octet }
{
    octet % 64 >= 32
}

/// Returns whether an octet is the only identifier octet of a primitive value with a tag (8.1.2.2,
/// 8.1.2.5).
#[tactic(auto, using(crate::proofs::nat_tests))]
#[inline(always)]
pub(crate) fn leads_primitive(tag: Tag, octet: u8) -> bool
    ensures number { IsTrue result → octet % 32 < 31 }
    ensures tag { IsTrue result → tag ≡ record { class = class_of octet; number = octet % 32 } }
    ensures form { IsTrue result → is_marked octet ≡ false }
{
    tag.class == class_at(octet)
        && tag.number == u64::from(octet % 32)
        && octet % 32 < 31
        && !mark_of_leading(octet)
}

/// Reads identifier octets, and returns the tag, the constructed bit, and the octets that follow.
#[tactic(auto, using(crate::proofs::nat_tests), unfolding(crate::specs::steps::Reading::read_identifier))]
#[inline(always)]
pub(crate) fn identifier_at(octets: &[u8]) -> Option<(Tag, bool, &[u8])>
    ensures { MatchOption result
        (read_identifier octets.now ≡ None)
        (λ r. read_identifier octets.now ≡ Some (r.0, r.1, r.2.now)) }
{
    match octets {
        [] => None,
        [first, rest @ ..] => {
            let constructed = mark_of_leading(*first);
            if *first % 32 < 31 {
                Some((tag_of_leading(*first), constructed, rest))
            } else {
                let class = class_at(*first);
                let (number, rest) = number_at(rest)?;
                Some((Tag { class, number }, constructed, rest))
            }
        }
    }
}
