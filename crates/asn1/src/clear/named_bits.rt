//! BIT STRING with named bits.
ghost use Rattle.bcder.specs.x690.BitString.{bit_string_tag};
ghost use Rattle.asn1.specs.TagSets.{one_tag, only_in};

use crate::NamedBits;
use crate::clear::{Clear, see_bits};
use bcder::Mode;

/// It is read back, since zero bits at the end mean nothing.
impl Clear for NamedBits {
    ghost tag_set = { one_tag bit_string_tag };

    fn is_clear_in(&self, _mode: Mode) -> bool {
        see_bits(&self.0);
        true
    }

    ghost in_set = { only_in };
}
