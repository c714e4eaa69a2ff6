//! Which contents octets are a bit string (X.690, 8.6.2, 9.2, 11.2.1).
ghost use Rattle.std.specs.Prelude.{◌≡◌, ◌↔◌, ◌*◌, ◌/◌, ◌^◌, IsTrue};
ghost use Rattle.bcder.specs.x690.BitString.{AreCleared, BitShape, IsBits, MayHave};

use crate::mode::Mode;

/// More octets than any bit string has, so that a `usize` can count its bits.
const TOO_MANY: usize = 1 << 61;

/// Returns whether `unused` bits of these octets can be unused.
fn is_bits(unused: u8, octets: &[u8]) -> bool
    ensures { IsTrue result ↔ IsBits (record { unused = unused; octets = octets.now }) }
{
    unused <= 7 && (unused == 0 || !octets.is_empty()) && octets.len() < TOO_MANY
}

/// Returns the octet with its last `unused` bits set to zero.
pub(super) fn cleared_octet(unused: u8, octet: u8) -> u8
    ensures { result ≡ octet / 2 ^ unused * 2 ^ unused }
{
    if unused < 8 {
        octet >> unused << unused
    } else {
        0
    }
}

/// Returns whether the unused bits are zero.
pub(super) fn is_cleared(unused: u8, octets: &[u8]) -> bool
    ensures { IsTrue result ↔ AreCleared unused octets.now }
{
    match octets {
        [] => true,
        [.., last] => cleared_octet(unused, *last) == *last,
    }
}

/// Returns whether the mode allows such a bit string in a primitive value.
fn may_have(mode: Mode, unused: u8, octets: &[u8]) -> bool
    ensures { IsTrue result ↔ MayHave mode (record { unused = unused; octets = octets.now }) }
{
    match mode {
        Mode::Ber => true,
        Mode::Cer => octets.len() < 1000 && is_cleared(unused, octets),
        Mode::Der => is_cleared(unused, octets),
    }
}

/// Returns whether octets are contents octets of a bit string.
pub(crate) fn is_bit_string(mode: Mode, contents: &[u8]) -> bool
    ensures { IsTrue result ↔ BitShape mode contents.now }
{
    match contents {
        [] => false,
        [unused, octets @ ..] => is_bits(*unused, octets) && may_have(mode, *unused, octets),
    }
}
