//! The rules that octets can break.

use crate::kind::Kind;
use bcder::decode::Violation;

/// A rule of X.690 that octets can break, or a limit of this crate.
#[derive(Clone, Copy, Debug, PartialEq, Eq)]
pub enum Rule {
    /// The octets begin with no header of a value: the rule of identifier octets or length octets
    /// that they break (8.1.2, 8.1.3, 9.1, 10.1).
    Header(Violation),

    /// The octets end before the contents of a value do (8.1.1.2).
    ContentsCut,

    /// A value ends behind the end of the value around it (8.1.3.3).
    ValueTooLong,

    /// End-of-contents octets stand where no value of indefinite length ends (8.1.5).
    StrayEnd,

    /// The contents of a value of indefinite length end without end-of-contents octets (8.1.1.3).
    MissingEnd,

    /// A value is constructed whose type has primitive values only.
    NotPrimitive(Kind),

    /// A value is primitive whose type has constructed values only (8.9.1, 8.11.1).
    NotConstructed,

    /// In DER, a string is constructed (10.2).
    StringCut,

    /// In CER or DER, a value inside a SET comes before the one in front of it, by their tags or,
    /// if these are the same, by their octets (9.3, 10.3, 11.6). Octets don't tell a SET from a SET
    /// OF.
    OutOfOrder,

    /// A value inside a constructed string has another tag than its segments: BIT STRING in a BIT
    /// STRING (8.6.4), and OCTET STRING in all others (8.7.3.2).
    SegmentTag(Kind),

    /// A segment of a BIT STRING comes behind one with unused bits (8.6.4).
    SegmentUnused,

    /// In CER, a segment is constructed or empty, or comes behind one of other than 1000 contents
    /// octets, or a string is constructed that has fewer than two segments (9.2).
    SegmentSize,

    /// A BOOLEAN has not exactly one contents octet (8.2.1).
    BooleanSize,

    /// In CER or DER, a BOOLEAN is neither 00 nor FF (11.1).
    BooleanValue,

    /// An INTEGER has no contents octets (8.3.1).
    IntegerEmpty,

    /// The first nine bits of an INTEGER are equal (8.3.2).
    IntegerNotFewest,

    /// A BIT STRING has no contents octets, so that none counts its unused bits (8.6.2.2).
    BitsEmpty,

    /// More than seven bits of a BIT STRING are unused (8.6.2.2).
    UnusedTooMany,

    /// Bits of an empty BIT STRING are unused (8.6.2.3).
    UnusedOfNone,

    /// In CER or DER, an unused bit isn't zero (11.2.1).
    UnusedNotZero,

    /// A BIT STRING has 2^61 octets or more. This is a limit of the crate. X.690 has none.
    BitsTooMany,

    /// In CER, a primitive string has more than 1000 contents octets (9.2).
    StringTooLong,

    /// The octets of a string, those of its segments one after the other, aren't characters of its
    /// type (8.23), or, in BER, those of a time in none of its forms (8.25).
    Characters(Kind),

    /// In CER or DER, a time isn't in its one form (11.7, 11.8).
    TimeForm(Kind),

    /// In BER, the contents octets of a REAL are in none of its forms (8.5).
    Real,

    /// In CER or DER, a REAL isn't in its one form (11.3).
    RealForm,

    /// A NULL has contents octets (8.8.2).
    NullNotEmpty,

    /// An OBJECT IDENTIFIER doesn't end with a subidentifier (8.19.2).
    IdentifierCut,

    /// A subidentifier isn't in the fewest octets: its first is 80 (8.19.2).
    IdentifierNotFewest,
}

/// A rule that is broken, and the octet at which it is.
#[derive(Clone, Copy, Debug, PartialEq, Eq)]
pub struct Breach {
    /// The number of octets before that octet.
    pub at: usize,

    /// The rule.
    pub rule: Rule,
}
