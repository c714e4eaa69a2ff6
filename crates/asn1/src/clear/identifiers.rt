//! OBJECT IDENTIFIER (X.690, 8.19).
ghost use Rattle.std.specs.Prelude.{◌↔◌, IsTrue, false};
ghost use Rattle.bcder.specs.x690.ObjectIdentifier.{identifier_tag, IsComplete};
ghost use Rattle.asn1.specs.TagSets.{one_tag, only_in};

use crate::ObjectIdentifier;
use crate::clear::Clear;
use bcder::{Mode, Oid};
use std::convert::AsSlice;

/// Returns whether octets end with a subidentifier.
pub(crate) fn is_complete(octets: &[u8]) -> bool
    ensures { IsTrue result ↔ IsComplete octets.now }
{
    match octets {
        [] => false,
        [.., last] => *last < 0x80,
    }
}

/// An `Oid` holds any octets. It is read back if they end with a subidentifier.
impl<T: AsSlice<u8> + Drop> Clear for Oid<T> {
    ghost tag_set = { one_tag identifier_tag };

    ghost always_clear = { λ _. false };

    fn is_clear_in(&self, _mode: Mode) -> bool {
        is_complete(self.0.as_slice())
    }

    ghost in_set = { only_in };
}

/// It is read back if its octets end with a subidentifier.
impl Clear for ObjectIdentifier {
    ghost tag_set = { one_tag identifier_tag };

    ghost always_clear = { λ _. false };

    fn is_clear_in(&self, _mode: Mode) -> bool {
        is_complete(self.0.0.as_slice())
    }

    ghost in_set = { only_in };
}
