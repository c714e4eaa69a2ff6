//! BIT STRING (X.690, 8.6, 9.2, 11.2.1).
ghost use Rattle.std.specs.Prelude.{◌↔◌, ◌≤◌, ◌≡◌, ◌^◌, ◌*◌, ◌/◌, IsTrue};
ghost use Rattle.bcder.specs.x690.BitString.{bit_string_tag, AreCleared, IsBits};
ghost use Rattle.asn1.specs.TagSets.{one_tag, only_in, is_basic};

use crate::clear::Clear;
use bcder::laws::read_back::a_bit_string_is_read_back;
use bcder::{BitString, Mode};

/// Returns the octet with its last `unused` bits set to zero.
fn cleared_octet(unused: u8, octet: u8) -> u8
    requires { unused ≤ 7 }
    ensures { result ≡ octet / 2 ^ unused * 2 ^ unused }
{
    octet >> unused << unused
}

/// Returns whether the last `unused` bits of octets are zero.
fn is_cleared(unused: u8, octets: &[u8]) -> bool
    requires { unused ≤ 7 }
    ensures { IsTrue result ↔ AreCleared unused octets.now }
{
    match octets {
        [] => true,
        [.., last] => cleared_octet(unused, *last) == *last,
    }
}

/// A bit string has seven unused bits at most, and none without octets.
pub(crate) fn see_bits(bits: &BitString)
    ensures { IsBits bits.now }
{
    a_bit_string_is_read_back(bits, Mode::Ber);
}

/// It is read back in BER. In CER and DER its unused bits have to be zero (X.690, 11.2.1), and in
/// CER it may have 999 octets at most (9.2).
impl Clear for BitString {
    ghost tag_set = { one_tag bit_string_tag };

    ghost always_clear = { is_basic };

    fn is_clear_in(&self, mode: Mode) -> bool {
        see_bits(self);
        let Some(octets) = self.octet_slice() else {
            return false;
        };
        match mode {
            Mode::Ber => true,
            Mode::Cer => octets.len() <= 999 && is_cleared(self.unused(), octets),
            Mode::Der => is_cleared(self.unused(), octets),
        }
    }

    ghost in_set = { only_in };
}
