//! The contents octets of bit strings.
ghost use Rattle.std.specs.Prelude.{◌≡◌, ◌↔◌, ◌*◌, ◌/◌, ◌^◌, ℕ, IsTrue, MatchOption};
ghost use Rattle.bcder.specs.x690.BitString.{AreCleared, BitShape, IsBits, MayHave};
ghost use Rattle.encodings.specs.Contents.{HasUnused};

use bcder::Mode;

/// More octets than any bit string has, so that a `usize` can count its bits.
const TOO_MANY: usize = 1 << 61;

/// Returns whether `unused` bits of these octets can be unused (X.690, 8.6.2.2, 8.6.2.3).
fn is_bits(unused: u8, octets: &[u8]) -> bool
    ensures { IsTrue result ↔ IsBits (record { unused = unused; octets = octets.now }) }
{
    unused <= 7 && (unused == 0 || !octets.is_empty()) && octets.len() < TOO_MANY
}

/// Returns the octet with its last `unused` bits set to zero.
fn cleared_octet(unused: u8, octet: u8) -> u8
    ensures { result ≡ octet / 2 ^ unused * 2 ^ unused }
{
    if unused < 8 {
        octet >> unused << unused
    } else {
        0
    }
}

/// Returns whether the unused bits are zero (X.690, 11.2.1).
fn is_cleared(unused: u8, octets: &[u8]) -> bool
    ensures { IsTrue result ↔ AreCleared unused octets.now }
{
    match octets {
        [] => true,
        [.., last] => cleared_octet(unused, *last) == *last,
    }
}

/// Returns whether the mode allows such a bit string in a primitive value (X.690, 9.2, 11.2.1).
fn may_have(mode: Mode, unused: u8, octets: &[u8]) -> bool
    ensures { IsTrue result ↔ MayHave mode (record { unused = unused; octets = octets.now }) }
{
    match mode {
        Mode::Ber => true,
        Mode::Cer => octets.len() < 1000 && is_cleared(unused, octets),
        Mode::Der => is_cleared(unused, octets),
    }
}

/// Returns whether the octets are contents octets of a bit string.
pub(crate) fn is_bit_string(mode: Mode, contents: &[u8]) -> bool
    ensures { IsTrue result ↔ BitShape mode contents.now }
{
    match contents {
        [] => false,
        [unused, octets @ ..] => is_bits(*unused, octets) && may_have(mode, *unused, octets),
    }
}

/// Returns how many bits of the last octet of a bit string are unused, if the octets are the
/// contents octets of a BIT STRING (X.690, 8.6.2, 9.2, 11.2.1). Its bits are in the octets after
/// the first.
///
/// ```text
/// unused_bits(Mode::Der, &[0x04, 0xA0])   // Some(4): the bits 1010
/// unused_bits(Mode::Der, &[0x04, 0xA1])   // None: an unused bit isn't zero
/// ```
pub fn unused_bits(mode: Mode, contents: &[u8]) -> Option<u8>
    ensures { MatchOption result
        ((unused : ℕ) → HasUnused mode contents.now unused → ⊥)
        (λ unused. HasUnused mode contents.now unused) }
{
    if !is_bit_string(mode, contents) {
        return None;
    }
    match contents {
        [first, ..] => Some(*first),
        [] => None,
    }
}
