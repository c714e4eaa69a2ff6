//! BOOLEAN and NULL.
ghost use Rattle.bcder.specs.x690.Identifier.{boolean_tag, null_tag};
ghost use Rattle.asn1.specs.TagSets.{one_tag, only_in};

use crate::clear::Clear;
use bcder::Mode;

impl Clear for bool {
    ghost tag_set = { one_tag boolean_tag };

    fn is_clear_in(&self, _mode: Mode) -> bool {
        true
    }

    ghost in_set = { only_in };
}

impl Clear for () {
    ghost tag_set = { one_tag null_tag };

    fn is_clear_in(&self, _mode: Mode) -> bool {
        true
    }

    ghost in_set = { only_in };
}
