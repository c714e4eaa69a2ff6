//! Exactly when a value is passed, skipped or captured. A call says what came next if it returns
//! `Some`, `None` or an error. It follows that it returns `Some` whenever the encoding of a value
//! comes next, and `None` whenever the end does, over every lawful source and in each mode. Each
//! law is the contract of a function without a body.
ghost use Rattle.bcder.specs.laws.Exactly.{WalksExactly, PassesOneExactly, PassesAllExactly};
ghost use Rattle.bcder.specs.laws.Exactly.{SkipsExactly, SkipsOneExactly};
ghost use Rattle.bcder.specs.laws.Exactly.{CapturesOneExactly, CapturesNextExactly};
ghost use Rattle.bcder.specs.laws.Exactly.{CapturesAllExactly};

use crate::decode::{ContentError, Source};
use crate::tag::Tag;

/// Unless the source fails, with errors of type `E`, a value is passed if its encoding comes next,
/// and `None` is returned at the end: by `decode::walk`, and, unless memory runs out, by
/// `Constructed::skip_one`.
pub fn a_value_is_passed<S: Source, E>()
    ensures walk { WalksExactly S.stream E }
    ensures skip_one { PassesOneExactly S.stream E }
{}

/// Unless the source fails or memory runs out, all values are passed by `Constructed::skip_all` if
/// the rest of open content, up to its end, is encodings.
pub fn all_values_are_passed<S: Source, E>()
    ensures { PassesAllExactly S.stream E }
{}

/// Unless the source fails, a value is skipped by `Constructed::skip_opt` and `skip` if its
/// encoding comes next, the closure returns `Ok` at each of its headings, and memory doesn't run
/// out, which it can only for values at a depth of four or more. `skip_opt` returns `None` at the
/// end.
pub fn a_value_is_skipped<S: Source, F, E>()
where
    F: FnMut(Tag, bool, usize) -> Result<(), ContentError>,
    ensures skip_opt { SkipsExactly S.stream F.step E }
    ensures skip { SkipsOneExactly S.stream F.step E }
{}

/// Unless the source fails or memory runs out, a value is captured by `Constructed::capture_one`
/// and `capture_opt_one` if its encoding comes next. `capture_opt_one` returns `None` at the end.
pub fn a_value_is_captured<S: Source, E>()
    ensures capture_one { CapturesOneExactly S.stream E }
    ensures capture_opt_one { CapturesNextExactly S.stream E }
{}

/// Unless the source fails or memory runs out, all values are captured by
/// `Constructed::capture_all` if the rest of open content, up to its end, is encodings; of ended
/// content none.
pub fn all_values_are_captured<S: Source, E>()
    ensures { CapturesAllExactly S.stream E }
{}
