//! What a value breaks by its form and its contents octets.
ghost use Rattle.std.specs.Prelude.{◌≡◌, ◌≢◌, ◌↔◌, ◌⊎◌, ◌+◌, ◌-◌, ◌<◌, ◌≤◌, ◌^◌, length};
ghost use Rattle.std.specs.Prelude.{ℕ, Bool, IfSome, IfNone, IsTrue, MatchOption, slice_index};
ghost use Rattle.bcder.specs.declared.mode.Mode.TheVariants.{Ber, Cer};
ghost use Rattle.bcder.specs.calls.Readers.{IsTruth};
ghost use Rattle.bcder.specs.x690.OctetString.{MayBeWhole};
ghost use Rattle.rules.specs.Broken.{BreaksCharacters, BreaksContents, BreaksForm};
ghost use Rattle.rules.specs.Broken.{BreaksValue, IsPadded};
ghost use Rattle.rules.specs.Kinds.{IsString};
ghost use Rattle.rules.specs.declared.kind.Kind.TheVariants as k;
ghost use Rattle.rules.specs.Characters.{HasCharacters, IsGeneralizedTimeIn, IsUtcTimeIn};
ghost use Rattle.rules.specs.Means.{IsMeantAlone};
ghost use Rattle.rules.specs.Means.{MayBeConstructed, MeansOne};

use crate::characters::{is_bmp_string, is_universal_string, is_visible_string};
use crate::kind::{Kind, kind_of};
use crate::real::{is_real, is_strict_real};
use crate::rule::Rule;
use crate::time::{
    is_generalized_time, is_generalized_time_in_ber, is_utc_time, is_utc_time_in_ber,
};
use bcder::{Mode, Tag};
use encodings::bits::unused_bits;
use encodings::contents::{boolean_of, is_object_identifier};
use encodings::text::{is_ia5_string, is_numeric_string, is_printable_string, is_utf8_string};

/// Returns the rule that a constructed value of a kind breaks.
fn form_broken(mode: Mode, kind: Kind) -> Option<Rule>
    ensures broken { IfSome result (BreaksForm mode kind) }
    ensures unmeant { IfSome result (λ rule. MayBeConstructed mode kind → ⊥) }
    ensures meant { IfNone result (MayBeConstructed mode kind) }
{
    match kind {
        Kind::Boolean | Kind::Integer | Kind::Real | Kind::Null | Kind::Identifier => {
            Some(Rule::NotPrimitive(kind))
        }
        Kind::BitString
        | Kind::OctetString
        | Kind::Utf8String
        | Kind::NumericString
        | Kind::PrintableString
        | Kind::Ia5String
        | Kind::VisibleString
        | Kind::UniversalString
        | Kind::BmpString
        | Kind::UtcTime
        | Kind::GeneralizedTime => match mode {
            Mode::Der => Some(Rule::StringCut),
            Mode::Ber | Mode::Cer => None,
        },
        Kind::Structure | Kind::Other => None,
    }
}

/// Returns what contents octets of a BOOLEAN break, if they break a rule.
fn boolean_rule(mode: Mode, contents: &[u8]) -> Rule
    requires { (x : Bool) → IsTruth mode contents.now x → ⊥ }
    ensures { BreaksContents mode k.Boolean contents.now result 0 }
{
    if contents.len() == 1 {
        Rule::BooleanValue
    } else {
        Rule::BooleanSize
    }
}

/// Returns what contents octets of a BOOLEAN break.
fn boolean_broken(mode: Mode, contents: &[u8]) -> Option<Rule>
    ensures broken { IfSome result (λ rule. BreaksContents mode k.Boolean contents.now rule 0) }
    ensures unmeant { IfSome result (λ rule. MeansOne mode k.Boolean contents.now → ⊥) }
    ensures meant { IfNone result (MeansOne mode k.Boolean contents.now) }
{
    match boolean_of(mode, contents) {
        Some(_) => None,
        None => Some(boolean_rule(mode, contents)),
    }
}

/// Returns what contents octets of an INTEGER break.
fn integer_broken(mode: Mode, contents: &[u8]) -> Option<Rule>
    ensures broken { IfSome result (λ rule. BreaksContents mode k.Integer contents.now rule 0) }
    ensures unmeant { IfSome result (λ rule. MeansOne mode k.Integer contents.now → ⊥) }
    ensures meant { IfNone result (MeansOne mode k.Integer contents.now) }
{
    match contents {
        [] => Some(Rule::IntegerEmpty),
        [_] => None,
        [first, second, ..] => {
            if *first == 0x00 && *second < 0x80 {
                return Some(Rule::IntegerNotFewest);
            }
            if *first == 0xFF && *second >= 0x80 {
                return Some(Rule::IntegerNotFewest);
            }
            None
        }
    }
}

/// Returns whether a primitive string has more octets than CER allows.
fn is_too_long(mode: Mode, contents: &[u8]) -> bool
    ensures { IsTrue result ↔ (mode ≡ Cer) × (1000 < length contents.now) }
{
    match mode {
        Mode::Cer => contents.len() > 1000,
        Mode::Ber | Mode::Der => false,
    }
}

/// Returns what contents octets of a BIT STRING break, and at which octet, if they break a rule.
fn bits_rule(mode: Mode, contents: &[u8]) -> (Rule, usize)
    requires { MeansOne mode k.BitString contents.now → ⊥ }
    ensures broken { BreaksContents mode k.BitString contents.now result.0 result.1 }
    ensures place { result.1 ≤ length contents.now }
{
    let [unused, octets @ ..] = contents else {
        return (Rule::BitsEmpty, 0);
    };
    if *unused > 7 {
        return (Rule::UnusedTooMany, 0);
    }
    if *unused > 0 && octets.is_empty() {
        return (Rule::UnusedOfNone, 0);
    }
    if octets.len() >= 1 << 61 {
        return (Rule::BitsTooMany, 0);
    }
    if is_too_long(mode, contents) {
        return (Rule::StringTooLong, 0);
    }
    (Rule::UnusedNotZero, octets.len())
}

/// Returns what contents octets of a BIT STRING break, and at which octet.
fn bits_broken(mode: Mode, contents: &[u8]) -> Option<(Rule, usize)>
    ensures broken { IfSome result (λ r. BreaksContents mode k.BitString contents.now r.0 r.1) }
    ensures place { IfSome result (λ r. r.1 ≤ length contents.now) }
    ensures unmeant { IfSome result (λ r. MeansOne mode k.BitString contents.now → ⊥) }
    ensures meant { IfNone result (MeansOne mode k.BitString contents.now) }
{
    match unused_bits(mode, contents) {
        Some(_) => None,
        None => Some(bits_rule(mode, contents)),
    }
}

/// Returns whether the mode is CER or DER.
fn is_strict(mode: Mode) -> bool
    ensures { IsTrue result ↔ (mode ≢ Ber) }
{
    match mode {
        Mode::Ber => false,
        Mode::Cer | Mode::Der => true,
    }
}

/// Returns whether the octets are contents octets of a UTCTime in a mode.
fn is_utc_time_in(mode: Mode, contents: &[u8]) -> bool
    ensures { IsTrue result ↔ IsUtcTimeIn mode contents.now }
{
    match mode {
        Mode::Ber => is_utc_time_in_ber(contents),
        Mode::Cer | Mode::Der => is_utc_time(contents),
    }
}

/// Returns whether the octets are contents octets of a GeneralizedTime in a mode.
fn is_generalized_time_in(mode: Mode, contents: &[u8]) -> bool
    ensures { IsTrue result ↔ IsGeneralizedTimeIn mode contents.now }
{
    match mode {
        Mode::Ber => is_generalized_time_in_ber(contents),
        Mode::Cer | Mode::Der => is_generalized_time(contents),
    }
}

/// Returns what contents octets of a REAL break.
fn real_broken(mode: Mode, contents: &[u8]) -> Option<Rule>
    ensures broken { IfSome result (λ rule. BreaksContents mode k.Real contents.now rule 0) }
    ensures unmeant { IfSome result (λ rule. MeansOne mode k.Real contents.now → ⊥) }
    ensures meant { IfNone result (MeansOne mode k.Real contents.now) }
{
    match mode {
        Mode::Ber => {
            if is_real(contents) {
                None
            } else {
                Some(Rule::Real)
            }
        }
        Mode::Cer | Mode::Der => {
            if is_strict_real(contents) {
                None
            } else {
                Some(Rule::RealForm)
            }
        }
    }
}

/// Returns the rule that octets break which aren't characters of the type of a kind.
pub(crate) fn characters_rule(mode: Mode, kind: Kind, contents: &[u8]) -> Rule
    requires { HasCharacters mode kind contents.now → ⊥ }
    ensures contents { BreaksContents mode kind contents.now result 0 }
    ensures characters { BreaksCharacters mode kind contents.now result }
{
    match kind {
        Kind::UtcTime | Kind::GeneralizedTime => {
            if is_strict(mode) {
                Rule::TimeForm(kind)
            } else {
                Rule::Characters(kind)
            }
        }
        _ => Rule::Characters(kind),
    }
}

/// Returns whether octets are characters of the type of a kind, if it names any, and those of a
/// time in one of its forms.
pub(crate) fn has_characters(mode: Mode, kind: Kind, contents: &[u8]) -> bool
    ensures { IsTrue result ↔ HasCharacters mode kind contents.now }
{
    match kind {
        Kind::Utf8String => is_utf8_string(contents),
        Kind::NumericString => is_numeric_string(contents),
        Kind::PrintableString => is_printable_string(contents),
        Kind::Ia5String => is_ia5_string(contents),
        Kind::VisibleString => is_visible_string(contents),
        Kind::UniversalString => is_universal_string(contents),
        Kind::BmpString => is_bmp_string(contents),
        Kind::UtcTime => is_utc_time_in(mode, contents),
        Kind::GeneralizedTime => is_generalized_time_in(mode, contents),
        _ => true,
    }
}

/// Returns what contents octets of a string of octets or characters break.
fn string_broken(mode: Mode, kind: Kind, contents: &[u8]) -> Option<Rule>
    requires { IsString kind }
    ensures broken { IfSome result (λ rule. BreaksContents mode kind contents.now rule 0) }
    ensures unmeant { IfSome result
        (λ rule. MayBeWhole mode contents.now × HasCharacters mode kind contents.now → ⊥) }
    ensures meant { IfNone result
        (MayBeWhole mode contents.now × HasCharacters mode kind contents.now) }
{
    if is_too_long(mode, contents) {
        return Some(Rule::StringTooLong);
    }
    if !has_characters(mode, kind, contents) {
        return Some(characters_rule(mode, kind, contents));
    }
    None
}

/// Returns what contents octets of a NULL break.
fn null_broken(mode: Mode, contents: &[u8]) -> Option<Rule>
    ensures broken { IfSome result (λ rule. BreaksContents mode k.Null contents.now rule 0) }
    ensures unmeant { IfSome result (λ rule. MeansOne mode k.Null contents.now → ⊥) }
    ensures meant { IfNone result (MeansOne mode k.Null contents.now) }
{
    if contents.is_empty() {
        return None;
    }
    Some(Rule::NullNotEmpty)
}

/// Returns whether a subidentifier begins at an octet: whether the one before it ends one.
fn is_beginning(contents: &[u8], place: usize) -> bool
    requires { place < length contents.now }
    ensures { IsTrue result ↔ (0 < place → slice_index contents.now (place - 1) < 0x80) }
{
    place == 0 || contents[place - 1] < 0x80
}

/// Returns the first octet with which a subidentifier begins that isn't in the fewest octets.
fn padding_in(contents: &[u8]) -> Option<usize>
    ensures some { IfSome result (IsPadded contents.now) }
    ensures none { IfNone result ((place : ℕ) → IsPadded contents.now place → ⊥) }
{
    for place in 0..contents.len() {
        if contents[place] == 0x80 && is_beginning(contents, place) {
            return Some(place);
        }
    }
    None
}

/// Returns what contents octets of an OBJECT IDENTIFIER break, and at which octet.
fn identifier_broken(mode: Mode, contents: &[u8]) -> Option<(Rule, usize)>
    ensures broken { IfSome result (λ r. BreaksContents mode k.Identifier contents.now r.0 r.1) }
    ensures place { IfSome result (λ r. r.1 ≤ length contents.now) }
    ensures unmeant { IfSome result (λ r. MeansOne mode k.Identifier contents.now → ⊥) }
    ensures meant { IfNone result (MeansOne mode k.Identifier contents.now) }
{
    if !is_object_identifier(contents) {
        return Some((Rule::IdentifierCut, contents.len().saturating_sub(1)));
    }
    match padding_in(contents) {
        Some(place) => Some((Rule::IdentifierNotFewest, place)),
        None => None,
    }
}

/// Returns a rule that is broken at the first octet.
fn at_first(rule: Option<Rule>) -> Option<(Rule, usize)>
    ensures { MatchOption rule (result ≡ None) (λ r. result ≡ Some (r, 0)) }
{
    match rule {
        Some(rule) => Some((rule, 0)),
        None => None,
    }
}

/// Returns what contents octets of a primitive value of a kind break, and at which octet.
fn contents_broken(mode: Mode, kind: Kind, contents: &[u8]) -> Option<(Rule, usize)>
    requires { kind ≢ k.Structure }
    ensures broken { IfSome result (λ r. BreaksContents mode kind contents.now r.0 r.1) }
    ensures place { IfSome result (λ r. r.1 ≤ length contents.now) }
    ensures unmeant { IfSome result (λ r. MeansOne mode kind contents.now → ⊥) }
    ensures meant { IfNone result (MeansOne mode kind contents.now) }
{
    match kind {
        Kind::Boolean => at_first(boolean_broken(mode, contents)),
        Kind::Integer => at_first(integer_broken(mode, contents)),
        Kind::Real => at_first(real_broken(mode, contents)),
        Kind::BitString => bits_broken(mode, contents),
        Kind::OctetString => at_first(string_broken(mode, kind, contents)),
        Kind::Utf8String => at_first(string_broken(mode, kind, contents)),
        Kind::NumericString => at_first(string_broken(mode, kind, contents)),
        Kind::PrintableString => at_first(string_broken(mode, kind, contents)),
        Kind::Ia5String => at_first(string_broken(mode, kind, contents)),
        Kind::VisibleString => at_first(string_broken(mode, kind, contents)),
        Kind::UniversalString => at_first(string_broken(mode, kind, contents)),
        Kind::BmpString => at_first(string_broken(mode, kind, contents)),
        Kind::UtcTime => at_first(string_broken(mode, kind, contents)),
        Kind::GeneralizedTime => at_first(string_broken(mode, kind, contents)),
        Kind::Null => at_first(null_broken(mode, contents)),
        Kind::Identifier => identifier_broken(mode, contents),
        Kind::Structure => unreachable!(),
        Kind::Other => None,
    }
}

/// Returns the rule that a value without those inside it breaks, and at which of its octets. Its
/// header has `size` octets.
pub(crate) fn judge(
    mode: Mode,
    tag: Tag,
    constructed: bool,
    size: usize,
    contents: &[u8],
) -> Option<(Rule, usize)>
    requires { size + length contents.now < 2 ^ 64 }
    ensures broken { IfSome result
        (λ r. BreaksValue mode tag constructed size contents.now r.0 r.1) }
    ensures place { IfSome result (λ r. r.1 ≤ size + length contents.now) }
    ensures unmeant { IfSome result (λ r. IsMeantAlone mode tag constructed contents.now → ⊥) }
    ensures meant { IfNone result (IsMeantAlone mode tag constructed contents.now) }
{
    let kind = kind_of(tag);
    if constructed {
        return at_first(form_broken(mode, kind));
    }
    if kind == Kind::Structure {
        return Some((Rule::NotConstructed, 0));
    }
    match contents_broken(mode, kind, contents) {
        Some((rule, place)) => Some((rule, size + place)),
        None => None,
    }
}
