//! Values in memory of their own.
use crate::clear::Clear;
use bcder::Mode;

impl<T: Clear> Clear for Box<T> {
    ghost tag_set = { T.tag_set };

    ghost distinct = { T.distinct };

    ghost always_clear = { T.always_clear };

    fn is_clear_in(&self, mode: Mode) -> bool {
        (**self).is_clear_in(mode)
    }

    ghost in_set = { T.in_set };
}
