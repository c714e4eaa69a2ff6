//! Octets and characters that are lent (X.690, 8.7, 8.23, 9.2).
ghost use Rattle.bcder.specs.x690.OctetString.{octet_string_tag};
ghost use Rattle.asn1.specs.TagSets.{one_tag, only_in, is_not_cer};

use crate::clear::Clear;
use crate::lent::is_piece;
use crate::{OctetStringRef, RestrictedStringRef, TaggedCharSet};
use bcder::Mode;
use std::convert::AsSlice;

/// They are read back in BER and DER. In CER they may be 1000 octets at most (X.690, 9.2), since
/// more are cut.
impl<L: AsSlice<u8> + Copy + Drop> Clear for OctetStringRef<L> {
    ghost tag_set = { one_tag octet_string_tag };

    ghost always_clear = { is_not_cer };

    fn is_clear_in(&self, mode: Mode) -> bool {
        is_piece(mode, self.0.as_slice().len())
    }

    ghost in_set = { only_in };
}

/// They are read back as those of an [`OctetStringRef`] are.
impl<C: TaggedCharSet, L: AsSlice<u8> + Copy + Drop> Clear for RestrictedStringRef<C, L> {
    ghost tag_set = { one_tag C.TAG };

    ghost always_clear = { is_not_cer };

    fn is_clear_in(&self, mode: Mode) -> bool {
        is_piece(mode, self.octets().as_slice().len())
    }

    ghost in_set = { only_in };
}
