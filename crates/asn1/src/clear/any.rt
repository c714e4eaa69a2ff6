//! A value of any type.
ghost use Rattle.asn1.specs.TagSets.{every_tag};

use crate::Any;
use crate::clear::Clear;
use bcder::Mode;

/// Its values have every tag, so none may follow where it can be left out.
impl Clear for Any {
    ghost tag_set = { every_tag };

    fn is_clear_in(&self, _mode: Mode) -> bool {
        let _octets = self.as_slice();
        true
    }

    ghost in_set = { λ _ _. tt };
}
