//! REAL. Each value is read back.
ghost use Rattle.asn1.specs.Reals.{real_tag};
ghost use Rattle.asn1.specs.TagSets.{one_tag, only_in};

use crate::clear::Clear;
use bcder::Mode;
use real::Real;

impl Clear for Real {
    ghost tag_set = { one_tag real_tag };

    fn is_clear_in(&self, _mode: Mode) -> bool {
        match self {
            Real::Binary(number) => {
                let _held = number.exponent();
                true
            }
            Real::Decimal(number) => {
                let _held = number.exponent();
                true
            }
            Real::Zero | Real::MinusZero => true,
            Real::Infinity | Real::MinusInfinity | Real::NotANumber => true,
        }
    }

    ghost in_set = { only_in };
}
