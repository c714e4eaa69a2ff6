//! Why octets are none of the contents octets that a type has (X.690, 8.2 to 8.23, 9 to 11).
ghost use Rattle.std.specs.Prelude.{◌≡◌, ◌≢◌, ℕ, ℤ, Bool, [], IfNone, IfSome};
ghost use Rattle.bcder.specs.calls.Readers.{IsTruth};
ghost use Rattle.encodings.specs.Contents.{HasUnused};
ghost use Rattle.bcder.specs.x690.Integer.{AreInteger};
ghost use Rattle.bcder.specs.x690.ObjectIdentifier.{IsComplete, IsMinimal};
ghost use Rattle.bcder.specs.x690.OctetString.{MayBeWhole};

use bcder::{Mode, Oid};
use encodings::bits::unused_bits;
use encodings::contents::{boolean_of, is_object_identifier};

/// The number of octets of the longest primitive string in CER (9.2).
const LONGEST: usize = 1000;

/// Returns why octets are none of a BOOLEAN (8.2, 11.1).
pub(crate) fn boolean(mode: Mode, octets: &[u8]) -> Option<&'static str>
    ensures none { IfNone result ((x : Bool) × IsTruth mode octets.now x) }
    ensures some { IfSome result (λ _. (x : Bool) → IsTruth mode octets.now x → ⊥) }
{
    match boolean_of(mode, octets) {
        Some(_) => None,
        None if octets.len() == 1 => Some("neither 00 nor FF"),
        None => Some("not one octet"),
    }
}

/// Returns why octets are none of an INTEGER or ENUMERATED (8.3, 8.4).
pub(crate) fn integer(octets: &[u8]) -> Option<&'static str>
    ensures none { IfNone result ((z : ℤ) × AreInteger z octets.now) }
    ensures some { IfSome result (λ _. (z : ℤ) → AreInteger z octets.now → ⊥) }
{
    match octets {
        [] => Some("no octets"),
        [_] => None,
        [first, second, ..] => {
            if *first == 0x00 && *second < 0x80 {
                return Some("not in the fewest octets");
            }
            if *first == 0xFF && *second >= 0x80 {
                return Some("not in the fewest octets");
            }
            None
        }
    }
}

/// Returns why octets that are none of a BIT STRING aren't.
fn no_bits(mode: Mode, octets: &[u8]) -> &'static str {
    let [unused, bits @ ..] = octets else {
        return "no octets";
    };
    if *unused > 7 {
        return "more than 7 unused bits";
    }
    if *unused > 0 && bits.is_empty() {
        return "unused bits of no octet";
    }
    match length(mode, octets) {
        Some(fault) => fault,
        None => "unused bits that aren't zero",
    }
}

/// Returns why octets are none of a BIT STRING (8.6.2, 9.2, 11.2).
pub(crate) fn bits(mode: Mode, octets: &[u8]) -> Option<&'static str>
    ensures none { IfNone result ((unused : ℕ) × HasUnused mode octets.now unused) }
    ensures some { IfSome result (λ _. (unused : ℕ) → HasUnused mode octets.now unused → ⊥) }
{
    match unused_bits(mode, octets) {
        Some(_) => None,
        None => Some(no_bits(mode, octets)),
    }
}

/// Returns why octets are none of a NULL (8.8).
pub(crate) fn null(octets: &[u8]) -> Option<&'static str>
    ensures none { IfNone result (octets.now ≡ []) }
    ensures some { IfSome result (λ _. octets.now ≢ []) }
{
    if octets.is_empty() {
        return None;
    }
    Some("not empty")
}

/// Returns why octets are none of an OBJECT IDENTIFIER or RELATIVE-OID (8.19.2, 8.20.2).
pub(crate) fn identifier(octets: &[u8]) -> Option<&'static str>
    ensures none { IfNone result (IsComplete octets.now × IsMinimal octets.now) }
    ensures some { IfSome result (λ _. IsComplete octets.now × IsMinimal octets.now → ⊥) }
{
    if octets.is_empty() {
        return Some("no octets");
    }
    if !is_object_identifier(octets) {
        return Some("the last subidentifier is cut short");
    }
    if !Oid(octets).is_minimal() {
        return Some("a subidentifier begins with 80");
    }
    None
}

/// Returns why octets are too many for a primitive string (9.2).
pub(crate) fn length(mode: Mode, octets: &[u8]) -> Option<&'static str>
    ensures none { IfNone result (MayBeWhole mode octets.now) }
    ensures some { IfSome result (λ _. MayBeWhole mode octets.now → ⊥) }
{
    match mode {
        Mode::Cer => {
            if octets.len() > LONGEST {
                return Some("more than 1000 octets");
            }
            None
        }
        Mode::Ber | Mode::Der => None,
    }
}
