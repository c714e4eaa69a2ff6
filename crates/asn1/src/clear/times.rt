//! UTCTime and GeneralizedTime. Each value is read back.
ghost use Rattle.asn1.specs.Times.{utc_time_tag, generalized_time_tag};
ghost use Rattle.asn1.specs.TagSets.{one_tag, only_in};

use crate::clear::Clear;
use bcder::Mode;
use civil::{GeneralizedTime, UtcTime};

impl Clear for UtcTime {
    ghost tag_set = { one_tag utc_time_tag };

    fn is_clear_in(&self, _mode: Mode) -> bool {
        let _time = self.date_time();
        true
    }

    ghost in_set = { only_in };
}

impl Clear for GeneralizedTime {
    ghost tag_set = { one_tag generalized_time_tag };

    fn is_clear_in(&self, _mode: Mode) -> bool {
        let _time = self.date_time();
        true
    }

    ghost in_set = { only_in };
}
