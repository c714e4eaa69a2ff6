//! What is said of rules.
ghost use Rattle.std.specs.Prelude.{◌≡◌};
ghost use Rattle.rules.specs.Texts.{characters_clause, characters_wanted, clause_of};
ghost use Rattle.rules.specs.Texts.{constructed_text};
ghost use Rattle.rules.specs.Texts.{header_clause, header_wanted, no_characters};
ghost use Rattle.rules.specs.Texts.{primitive_clause, time_clause, time_title, time_wanted};
ghost use Rattle.rules.specs.Texts.{segment_clause, segment_wanted, title_of, wanted_of};

use crate::kind::Kind;
use crate::rule::Rule;
use bcder::Mode;
use bcder::decode::Violation;

/// Returns what a constructed value of a kind is called.
fn constructed(kind: Kind) -> &'static str
    ensures { result.now ≡ constructed_text kind }
{
    match kind {
        Kind::Boolean => "constructed BOOLEAN",
        Kind::Integer => "constructed INTEGER or ENUMERATED",
        Kind::Real => "constructed REAL",
        Kind::Null => "constructed NULL",
        Kind::Identifier => "constructed OBJECT IDENTIFIER or RELATIVE-OID",
        _ => "constructed value",
    }
}

/// Returns the clause of the rule that a value of a kind is primitive.
fn primitive_clause(kind: Kind) -> &'static str
    ensures { result.now ≡ primitive_clause kind }
{
    match kind {
        Kind::Boolean => "8.2.1",
        Kind::Integer => "8.3.1",
        Kind::Real => "8.5.1",
        Kind::Null => "8.8.1",
        Kind::Identifier => "8.19.1",
        _ => "8.1.2.5",
    }
}

/// Returns what a string of a kind is called whose octets aren't characters of its type.
fn no_characters(kind: Kind) -> &'static str
    ensures { result.now ≡ no_characters kind }
{
    match kind {
        Kind::Utf8String => "UTF8String that isn't UTF-8",
        Kind::NumericString => "NumericString with other characters",
        Kind::PrintableString => "PrintableString with other characters",
        Kind::Ia5String => "IA5String with other characters",
        Kind::VisibleString => "VisibleString with other characters",
        Kind::UniversalString => "UniversalString with other characters",
        Kind::BmpString => "BMPString with other characters",
        Kind::UtcTime => "UTCTime that isn't a time",
        Kind::GeneralizedTime => "GeneralizedTime that isn't a time",
        _ => "string with other characters",
    }
}

/// Returns the clause of the rule that octets are characters of the type of a kind.
fn characters_clause(kind: Kind) -> &'static str
    ensures { result.now ≡ characters_clause kind }
{
    match kind {
        Kind::Utf8String => "8.23.10",
        Kind::UniversalString => "8.23.7",
        Kind::BmpString => "8.23.8",
        Kind::UtcTime | Kind::GeneralizedTime => "8.25",
        _ => "8.23.5",
    }
}

/// Returns which characters the type of a kind wants.
fn characters_wanted(kind: Kind) -> &'static str
    ensures { result.now ≡ characters_wanted kind }
{
    match kind {
        Kind::UtcTime => "YYMMDDhhmm[ss] with Z or +hhmm",
        Kind::GeneralizedTime => "YYYYMMDDhh[mm[ss]][.f] with Z, +hh[mm] or nothing",
        _ => "characters of the type",
    }
}

/// Returns what a time in CER or DER is called that isn't in its one form.
fn time_title(kind: Kind) -> &'static str
    ensures { result.now ≡ time_title kind }
{
    match kind {
        Kind::UtcTime => "UTCTime in another form",
        Kind::GeneralizedTime => "GeneralizedTime in another form",
        _ => "time in another form",
    }
}

/// Returns the clause of that form.
fn time_clause(kind: Kind) -> &'static str
    ensures { result.now ≡ time_clause kind }
{
    match kind {
        Kind::UtcTime => "11.8",
        _ => "11.7",
    }
}

/// Returns that form.
fn time_wanted(kind: Kind) -> &'static str
    ensures { result.now ≡ time_wanted kind }
{
    match kind {
        Kind::UtcTime => "YYMMDDhhmmssZ",
        _ => "YYYYMMDDhhmmssZ, with .f before Z if f isn't 0",
    }
}

/// Returns the clause of the rule that says the tag of segments.
fn segment_clause(kind: Kind) -> &'static str
    ensures { result.now ≡ segment_clause kind }
{
    match kind {
        Kind::BitString => "8.6.4",
        _ => "8.7.3.2",
    }
}

/// Returns the tag of segments.
fn segment_wanted(kind: Kind) -> &'static str
    ensures { result.now ≡ segment_wanted kind }
{
    match kind {
        Kind::BitString => "a BIT STRING",
        _ => "an OCTET STRING",
    }
}

/// Returns the clause of a rule of headers.
fn header_clause(violation: Violation, mode: Mode) -> &'static str
    ensures { result.now ≡ header_clause violation mode }
{
    match violation {
        Violation::TruncatedHeader => "8.1.1.1",
        Violation::TruncatedContents => "8.1.1.2",
        Violation::TagNotFewest => "8.1.2.2, 8.1.2.4.2 c",
        Violation::TagTooLarge => "8.1.2.4",
        Violation::ReservedTag | Violation::StrayEnd => "8.1.5",
        Violation::ReservedLength => "8.1.3.5 c",
        Violation::LengthTooLarge => "8.1.3.5",
        Violation::LengthNotFewest => match mode {
            Mode::Cer => "9.1",
            Mode::Ber | Mode::Der => "10.1",
        },
        Violation::PrimitiveIndefinite => "8.1.3.2",
        Violation::IndefiniteInDer => "10.1",
        Violation::DefiniteInCer => "9.1",
        Violation::ValueTooLong => "8.1.3.3",
    }
}

/// Returns what a rule of headers wants.
fn header_wanted(violation: Violation) -> &'static str
    ensures { result.now ≡ header_wanted violation }
{
    match violation {
        Violation::TruncatedHeader => "a whole header",
        Violation::TruncatedContents => "as many contents octets as the length says",
        Violation::TagNotFewest => "a number up to 30 in one octet, another with no leading 80",
        Violation::TagTooLarge => "a number up to 2097151, the limit here",
        Violation::ReservedTag => "another tag",
        Violation::ReservedLength => "another length octet than FF",
        Violation::LengthTooLarge => "up to four octets for a length, the limit here",
        Violation::LengthNotFewest => "the fewest octets for the length",
        Violation::PrimitiveIndefinite | Violation::IndefiniteInDer => "a definite length",
        Violation::DefiniteInCer => "an indefinite length",
        Violation::ValueTooLong => "an end in the value around it",
        Violation::StrayEnd => "a value",
    }
}

impl Rule {
    /// Returns what is wrong where the rule is broken.
    pub fn title(self) -> &'static str
        ensures { result.now ≡ title_of self }
    {
        match self {
            Rule::Header(violation) => violation.text(),
            Rule::ContentsCut => "contents cut short",
            Rule::ValueTooLong => "value longer than the value around it",
            Rule::StrayEnd => "end-of-contents octets where none belong",
            Rule::MissingEnd => "end-of-contents octets missing",
            Rule::NotPrimitive(kind) => constructed(kind),
            Rule::NotConstructed => "primitive SEQUENCE, SET or the like",
            Rule::StringCut => "constructed string in DER",
            Rule::OutOfOrder => "value in a SET out of order",
            Rule::SegmentTag(_) => "value in a string that isn't a segment",
            Rule::SegmentUnused => "segment behind unused bits",
            Rule::SegmentSize => "segments of another size",
            Rule::BooleanSize => "BOOLEAN not of one octet",
            Rule::BooleanValue => "BOOLEAN neither 00 nor FF",
            Rule::IntegerEmpty => "INTEGER of no octets",
            Rule::IntegerNotFewest => "INTEGER not in the fewest octets",
            Rule::BitsEmpty => "BIT STRING of no octets",
            Rule::UnusedTooMany => "more than seven unused bits",
            Rule::UnusedOfNone => "unused bits of an empty BIT STRING",
            Rule::UnusedNotZero => "unused bits not zero",
            Rule::BitsTooMany => "BIT STRING of 2^61 octets or more",
            Rule::StringTooLong => "primitive string of over 1000 octets in CER",
            Rule::Characters(kind) => no_characters(kind),
            Rule::TimeForm(kind) => time_title(kind),
            Rule::Real => "REAL that isn't one",
            Rule::RealForm => "REAL in another form",
            Rule::NullNotEmpty => "NULL with contents octets",
            Rule::IdentifierCut => "OBJECT IDENTIFIER without an end",
            Rule::IdentifierNotFewest => "subidentifier not in the fewest octets",
        }
    }

    /// Returns the clause of X.690 that states the rule in a mode.
    pub fn clause(self, mode: Mode) -> &'static str
        ensures { result.now ≡ clause_of self mode }
    {
        match self {
            Rule::Header(violation) => header_clause(violation, mode),
            Rule::ContentsCut => "8.1.1.2",
            Rule::ValueTooLong => "8.1.3.3",
            Rule::StrayEnd => "8.1.5",
            Rule::MissingEnd => "8.1.1.3",
            Rule::NotPrimitive(kind) => primitive_clause(kind),
            Rule::NotConstructed => "8.9.1",
            Rule::StringCut => "10.2",
            Rule::OutOfOrder => match mode {
                Mode::Cer => "9.3, 11.6",
                Mode::Ber | Mode::Der => "10.3, 11.6",
            },
            Rule::SegmentTag(kind) => segment_clause(kind),
            Rule::SegmentUnused => "8.6.4",
            Rule::SegmentSize => "9.2",
            Rule::BooleanSize => "8.2.1",
            Rule::BooleanValue => "11.1",
            Rule::IntegerEmpty => "8.3.1",
            Rule::IntegerNotFewest => "8.3.2",
            Rule::BitsEmpty | Rule::UnusedTooMany => "8.6.2.2",
            Rule::UnusedOfNone => "8.6.2.3",
            Rule::UnusedNotZero => "11.2.1",
            Rule::BitsTooMany => "8.6.2",
            Rule::StringTooLong => "9.2",
            Rule::Characters(kind) => characters_clause(kind),
            Rule::TimeForm(kind) => time_clause(kind),
            Rule::Real => "8.5",
            Rule::RealForm => "11.3",
            Rule::NullNotEmpty => "8.8.2",
            Rule::IdentifierCut | Rule::IdentifierNotFewest => "8.19.2",
        }
    }

    /// Returns what the rule wants in place of what stands there.
    pub fn wanted(self) -> &'static str
        ensures { result.now ≡ wanted_of self }
    {
        match self {
            Rule::Header(violation) => header_wanted(violation),
            Rule::ContentsCut => "as many contents octets as the length says",
            Rule::ValueTooLong => "an end in the value around it",
            Rule::StrayEnd => "a value",
            Rule::MissingEnd => "00 00",
            Rule::NotPrimitive(_) | Rule::StringCut => "a primitive encoding",
            Rule::NotConstructed => "a constructed encoding",
            Rule::OutOfOrder => "a value that comes behind the one in front of it",
            Rule::SegmentTag(kind) => segment_wanted(kind),
            Rule::SegmentUnused => "a segment behind one of whole octets",
            Rule::SegmentSize => {
                "primitive segments, of 1000 octets but for the last, and two at least"
            }
            Rule::BooleanSize => "one octet",
            Rule::BooleanValue => "00 or FF",
            Rule::IntegerEmpty => "an octet or more",
            Rule::IntegerNotFewest => "nine bits that aren't all equal",
            Rule::BitsEmpty => "an octet that counts the unused bits",
            Rule::UnusedTooMany => "a number up to 7",
            Rule::UnusedOfNone => "00",
            Rule::UnusedNotZero => "unused bits that are zero",
            Rule::BitsTooMany => "fewer octets, by the limit here",
            Rule::StringTooLong => "segments of 1000 octets",
            Rule::Characters(kind) => characters_wanted(kind),
            Rule::TimeForm(kind) => time_wanted(kind),
            Rule::Real => "no octets, 40 to 43, or a binary or decimal encoding",
            Rule::RealForm => "base 2 with an odd number, or NR3, in the fewest octets",
            Rule::NullNotEmpty => "no octets",
            Rule::IdentifierCut => "an octet below 80 at the end",
            Rule::IdentifierNotFewest => "another octet than 80",
        }
    }
}
