//! What comes next in open content, and what a take returns then. There are four rows: the header
//! of a value that is asked for, the end, another tag (or no octets), or none of these. Each law is
//! the contract of a function without a body.
ghost use Rattle.bcder.specs.laws.Next.{OneFrontComes, TakesNextByFront, TakesByFront};

use crate::decode::{DecodeError, Source};
use crate::tag::Tag;

/// In open content one of the four rows comes next, and one only, over every lawful source and in
/// each mode, whether a value of any tag is asked for or one of a tag.
pub fn one_front_comes<S: Source>()
    ensures { OneFrontComes S.stream }
{}

/// Unless the source fails, the row says what a take of a value returns, whatever its closure and
/// the form that it refuses. A value that is asked for is taken, or refused for its form or its
/// content. At the end, or before another tag, a take returns `None`, or, if it needs a value, an
/// error, and content stays usable. Otherwise the error names the rule that is broken.
pub fn a_take_returns_by_front<S: Source, C, T, F, G>()
where
    F: FnOnce(Tag, &mut C) -> Result<T, DecodeError<S::Error>>,
    G: FnOnce(&mut C) -> Result<T, DecodeError<S::Error>>,
    ensures next { TakesNextByFront S.stream F.post }
    ensures next_of_tag { TakesNextByFront S.stream (λ op _. G.post op) }
    ensures one { TakesByFront S.stream F.post }
    ensures one_of_tag { TakesByFront S.stream (λ op _. G.post op) }
{}
