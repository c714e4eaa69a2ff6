//! Loops over content.
ghost use Rattle.std.specs.Prelude.{◌≡◌, IsTrue, ◌↔◌};
ghost use Rattle.bcder.specs.calls.Cause.{cause_of};
ghost use Rattle.bcder.specs.calls.Repeating.{Collects, MayRepeat, OwesAsBefore, Repeats};
ghost use Rattle.bcder.specs.calls.Repeating.{RepeatsLawfully};
ghost use Rattle.bcder.specs.calls.Views.{Moved, of_constructed};

use super::Constructed;
use crate::decode::error::DecodeError;
use crate::decode::source::Source;
use std::alloc::Global;

/// Returns whether as many octets are owed as before. Without a limit that isn't known.
fn owes_as_before(before: Option<usize>, after: Option<usize>) -> bool
    ensures { IsTrue result ↔ OwesAsBefore before after }
{
    match before {
        Some(before) => match after {
            Some(after) => after == before,
            None => false,
        },
        None => false,
    }
}

impl<'a, S: Source> Constructed<'a, S> {
    /// Returns how many octets are owed up to the nearest limit, if there is one.
    #[tactic(auto, unfolding(crate::specs::calls::Views::of_constructed))]
    pub(super) fn owed(&self) -> Option<usize>
        ensures { result ≡ (of_constructed S.stream self.now).owed }
    {
        self.source.limit()
    }

    /// Calls the closure on the content again and again, until it returns `None`.
    ///
    /// This is the loop over a SEQUENCE OF or a SET OF:
    ///
    /// ```text
    /// let mut count = 0u64;
    /// cons.while_some(|cons| {
    ///     cons.take_opt_primitive_if(Tag::INTEGER, |number| {
    ///         count = count.saturating_add(1);
    ///         number.skip_all()
    ///     })
    /// })?;
    /// ```
    ///
    /// Each call gets the content as the call before left it. The content is left as the last call
    /// left it, even if this returns an error.
    ///
    /// # Errors
    ///
    /// Returns the closure's error, which ends the loop. Also returns an error if
    ///
    /// - the content is within a limit, as all content of a definite length is, and the closure
    ///   returns `Some` without taking an octet;
    /// - the closure returns `Some` 2^64 - 1 times. Without a limit this is the only check, since
    ///   it isn't known whether octets were taken.
    pub fn while_some<F>(&mut self, mut op: F) -> Result<(), DecodeError<S::Error>>
    where
        F: FnMut(&mut Constructed<'_, S>) -> Result<Option<()>, DecodeError<S::Error>>,
        requires callable { MayRepeat S.stream self F.pre }
        requires lawful { RepeatsLawfully S.stream self F.step }
        ensures moves { Moved S.stream self }
        ensures repeated { Repeats cause_of (of_constructed S.stream) F.step op
            (of_constructed S.stream self.old) result (of_constructed S.stream self.new) }
    {
        for turn in 0..u64::MAX {
            let owed = self.owed();
            match op(self) {
                Ok(Some(())) => {}
                Ok(None) => return Ok(()),
                Err(error) => return Err(error),
            }
            if owes_as_before(owed, self.owed()) {
                return Err(self.refusal("a repeated step took no octet"));
            }
        }
        Err(self.refusal("steps without an end"))
    }

    /// Calls the closure on the content again and again until it returns `None`, and returns the
    /// results in order.
    ///
    /// These are the values of a SEQUENCE OF or a SET OF:
    ///
    /// ```text
    /// let numbers = cons.take_sequence(|cons| {
    ///     cons.collect_some(alloc, |cons| cons.take_opt_u32())
    /// })?;
    /// ```
    ///
    /// The closure is called, and the content is left, as by [`while_some`](Self::while_some).
    ///
    /// # Errors
    ///
    /// Returns the closure's error. Also returns an error if the closure returns `Some` without
    /// taking an octet of content within a limit, or if memory runs out for one more result. Each
    /// error ends the loop, and the results that were collected are dropped.
    pub fn collect_some<F, T: Drop>(
        &mut self,
        alloc: Global,
        mut op: F,
    ) -> Result<Vec<T>, DecodeError<S::Error>>
    where
        F: FnMut(&mut Constructed<'_, S>) -> Result<Option<T>, DecodeError<S::Error>>,
        requires callable { MayRepeat S.stream self F.pre }
        requires lawful { RepeatsLawfully S.stream self F.step }
        ensures moves { Moved S.stream self }
        ensures collected { Collects cause_of (of_constructed S.stream) F.step op
            (of_constructed S.stream self.old) result (of_constructed S.stream self.new) }
    {
        let mut all = Vec::new(alloc);
        loop {
            let owed = self.owed();
            let value = match op(self) {
                Ok(Some(value)) => value,
                Ok(None) => return Ok(all),
                Err(error) => return Err(error),
            };
            if owes_as_before(owed, self.owed()) {
                return Err(self.refusal("a repeated step took no octet"));
            }
            if all.push(value).is_err() {
                return Err(DecodeError::no_memory());
            }
        }
    }
}
