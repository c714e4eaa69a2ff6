//! Capturing the next value, or all values.
ghost use Rattle.bcder.specs.calls.Capturing.{CapturesBy, CapturesValue, CapturesNext};
ghost use Rattle.bcder.specs.calls.Capturing.{CapturesValues, HasValueOrDeep, HasOthers};
ghost use Rattle.bcder.specs.calls.Capturing.{HasValuesOrDeep};
ghost use Rattle.bcder.specs.steps.CaptureSteps.{PassesBy, PassesToEnd};
ghost use Rattle.bcder.specs.steps.CaptureSteps.{MetDeep};
ghost use Rattle.bcder.specs.calls.Capturing.{BeginsDeep};
ghost use Rattle.bcder.specs.calls.Sources.{capturing};
ghost use Rattle.bcder.specs.calls.Views.{of_constructed, Moved, limited_stream};
ghost use Rattle.bcder.specs.calls.Walking.{HasNoValue, PassesValue};

use super::{Constructed, State};
use crate::captured::Captured;
use crate::decode::error::DecodeError;
use crate::decode::source::Source;
use std::alloc::Global;

/// Passes over all values up to the end of the content, whose marker it takes.
#[tactic(auto, using(crate::specs::laws::Moved::untouched_is_moved, crate::specs::laws::Moved::moved_carries))]
fn pass_all<S: Source>(
    cons: &mut Constructed<'_, S>,
    alloc: Global,
) -> Result<(), DecodeError<S::Error>>
    ensures moves { Moved S.stream cons }
    ensures passed { PassesBy PassesToEnd HasOthers MetDeep
        (of_constructed S.stream cons.old) result (of_constructed S.stream cons.new) }
{
    while cons.skip_one(alloc)?.is_some() {}
    Ok(())
}

#[tactic(auto, using(crate::specs::laws::Moved::untouched_is_moved))]
impl<'a, S: Source> Constructed<'a, S> {
    /// Captures the next value, which has to be there.
    ///
    /// Unless the source fails or memory runs out, a value is captured exactly if its encoding
    /// comes next, in the content's mode (X.690, 8.1.1). That encoding is what is captured. All
    /// headers inside it are checked. Values may be nested to any depth, as for
    /// [`skip_one`](Self::skip_one).
    ///
    /// # Errors
    ///
    /// Returns an error if
    ///
    /// - no encoding of a value comes next, as at the end of the content;
    /// - an earlier value was refused;
    /// - the source fails;
    /// - memory runs out for the octets, or for a value that is open at a depth of four or more.
    ///
    /// The content is then as it was.
    pub fn capture_one(&mut self, alloc: Global) -> Result<Captured, DecodeError<S::Error>>
        ensures moves { Moved S.stream self }
        ensures captured { CapturesBy CapturesValue HasNoValue HasValueOrDeep
            (of_constructed S.stream self.old) result (of_constructed S.stream self.new) }
    {
        self.capture(
            alloc,
            |cons|
                ensures moves { Moved (capturing (limited_stream S.stream)) cons }
                ensures passed { PassesBy PassesValue HasNoValue BeginsDeep
                    (of_constructed (capturing (limited_stream S.stream)) cons.old) result
                    (of_constructed (capturing (limited_stream S.stream)) cons.new) }
            {
                match cons.skip_one(alloc) {
                    Ok(Some(())) => Ok(()),
                    Ok(None) => Err(cons.refusal("expected another value")),
                    Err(error) => Err(error),
                }
            },
        )
    }

    /// Captures the next value, or returns `None` at the end of the content, whose marker it takes.
    ///
    /// Unless the source fails or memory runs out, a value is captured exactly if its encoding
    /// comes next, in the content's mode (X.690, 8.1.1). That encoding is what is captured, as by
    /// [`capture_one`](Self::capture_one). End-of-contents octets aren't captured (8.1.5).
    ///
    /// These are the values of a list, of whatever type, each captured on its own:
    ///
    /// ```text
    /// let values = cons.collect_some(alloc, |cons| cons.capture_opt_one(alloc))?;
    /// ```
    ///
    /// # Errors
    ///
    /// Returns an error if
    ///
    /// - neither the encoding of a value nor the end comes next;
    /// - an earlier value was refused;
    /// - the source fails;
    /// - memory runs out for the octets of a value, or for a value that is open at a depth of four
    ///   or more.
    ///
    /// The content has then failed, and every later take refuses.
    pub fn capture_opt_one(
        &mut self,
        alloc: Global,
    ) -> Result<Option<Captured>, DecodeError<S::Error>>
        ensures moves { Moved S.stream self }
        ensures captured { CapturesNext (of_constructed S.stream self.old) result
            (of_constructed S.stream self.new) }
    {
        match self.find_next() {
            Ok(Some(())) => match self.capture_one(alloc) {
                Ok(captured) => Ok(Some(captured)),
                Err(error) => {
                    self.state = State::Failed;
                    Err(error)
                }
            },
            Ok(None) => Ok(None),
            Err(stop) => Err(self.stop_error(stop)),
        }
    }

    /// Captures all values up to the end of the content. There may be none.
    ///
    /// Unless the source fails or memory runs out, they are captured exactly if the rest up to the
    /// end is a list of encodings in the content's mode (X.690, 8.1.1). The content is then at its
    /// end. Its end-of-contents octets, if any, are taken, but aren't captured (8.1.5).
    ///
    /// # Errors
    ///
    /// Returns an error if
    ///
    /// - the rest up to the end isn't a list of encodings;
    /// - an earlier value was refused;
    /// - the source fails;
    /// - memory runs out for the octets, or for a value that is open at a depth of four or more.
    ///
    /// The content is then as it was.
    pub fn capture_all(&mut self, alloc: Global) -> Result<Captured, DecodeError<S::Error>>
        ensures moves { Moved S.stream self }
        ensures captured { CapturesBy CapturesValues HasOthers HasValuesOrDeep
            (of_constructed S.stream self.old) result (of_constructed S.stream self.new) }
    {
        self.capture(alloc, |cons| pass_all(cons, alloc))
    }
}
