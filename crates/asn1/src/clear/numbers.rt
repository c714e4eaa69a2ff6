//! INTEGER. A number of a Rust type is in its range.
ghost use Rattle.bcder.specs.x690.Identifier.{integer_tag};
ghost use Rattle.asn1.specs.TagSets.{one_tag, only_in};

use crate::clear::Clear;
use bcder::{Integer, Mode, Unsigned};

impl Clear for u8 {
    ghost tag_set = { one_tag integer_tag };

    fn is_clear_in(&self, _mode: Mode) -> bool {
        let _number = *self;
        true
    }

    ghost in_set = { only_in };
}

impl Clear for u16 {
    ghost tag_set = { one_tag integer_tag };

    fn is_clear_in(&self, _mode: Mode) -> bool {
        let _number = *self;
        true
    }

    ghost in_set = { only_in };
}

impl Clear for u32 {
    ghost tag_set = { one_tag integer_tag };

    fn is_clear_in(&self, _mode: Mode) -> bool {
        let _number = *self;
        true
    }

    ghost in_set = { only_in };
}

impl Clear for u64 {
    ghost tag_set = { one_tag integer_tag };

    fn is_clear_in(&self, _mode: Mode) -> bool {
        let _number = *self;
        true
    }

    ghost in_set = { only_in };
}

impl Clear for u128 {
    ghost tag_set = { one_tag integer_tag };

    fn is_clear_in(&self, _mode: Mode) -> bool {
        let _number = *self;
        true
    }

    ghost in_set = { only_in };
}

impl Clear for i8 {
    ghost tag_set = { one_tag integer_tag };

    fn is_clear_in(&self, _mode: Mode) -> bool {
        let _number = *self;
        true
    }

    ghost in_set = { only_in };
}

impl Clear for i16 {
    ghost tag_set = { one_tag integer_tag };

    fn is_clear_in(&self, _mode: Mode) -> bool {
        let _number = *self;
        true
    }

    ghost in_set = { only_in };
}

impl Clear for i32 {
    ghost tag_set = { one_tag integer_tag };

    fn is_clear_in(&self, _mode: Mode) -> bool {
        let _number = *self;
        true
    }

    ghost in_set = { only_in };
}

impl Clear for i64 {
    ghost tag_set = { one_tag integer_tag };

    fn is_clear_in(&self, _mode: Mode) -> bool {
        let _number = *self;
        true
    }

    ghost in_set = { only_in };
}

impl Clear for i128 {
    ghost tag_set = { one_tag integer_tag };

    fn is_clear_in(&self, _mode: Mode) -> bool {
        let _number = *self;
        true
    }

    ghost in_set = { only_in };
}

impl Clear for Integer {
    ghost tag_set = { one_tag integer_tag };

    fn is_clear_in(&self, _mode: Mode) -> bool {
        true
    }

    ghost in_set = { only_in };
}

impl Clear for Unsigned {
    ghost tag_set = { one_tag integer_tag };

    fn is_clear_in(&self, _mode: Mode) -> bool {
        true
    }

    ghost in_set = { only_in };
}
