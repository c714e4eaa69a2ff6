//! ENUMERATED.
ghost use Rattle.asn1.specs.Enumerations.{enumerated_tag};
ghost use Rattle.asn1.specs.TagSets.{one_tag, only_in};

use crate::clear::Clear;
use crate::{Enumerated, Enumeration};
use bcder::Mode;

impl<E: Enumeration> Clear for Enumerated<E> {
    ghost tag_set = { one_tag enumerated_tag };

    fn is_clear_in(&self, _mode: Mode) -> bool {
        let _number = self.0.number();
        true
    }

    ghost in_set = { only_in };
}
