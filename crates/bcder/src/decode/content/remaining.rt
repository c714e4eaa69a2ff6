//! The octets that remain of a primitive value.
ghost use Rattle.std.specs.Prelude.{◌≡◌, [], length, Some, IfErr, IsErrAnd, OnOk, OnErr};
ghost use Rattle.bcder.specs.calls.Cause.{IsRefusal};
ghost use Rattle.bcder.specs.calls.Stream.{limit_or};
ghost use Rattle.bcder.specs.calls.Readers.{AreNeverRefused, RefusesReading};
ghost use Rattle.bcder.specs.calls.Views.{of_primitive, octets_before, octets_after, MovedOctets};

use super::Primitive;
use crate::decode::error::DecodeError;
use crate::decode::source::Source;

impl<'a, S: Source> Primitive<'a, S> {
    /// Returns how many octets the length of the value still promises (X.690, 8.1.3.3).
    #[tactic(auto, unfolding(crate::specs::calls::Views::of_primitive))]
    pub fn remaining(&self) -> usize
        ensures { result ≡ limit_or (of_primitive S.stream self.now).owed 0 }
    {
        match self.source.limit() {
            Some(owed) => owed,
            None => 0,
        }
    }

    /// Passes over all octets that the length still promises.
    ///
    /// # Errors
    ///
    /// Returns an error if fewer octets come, or if the source fails. No octet is then passed.
    #[tactic(auto, using(crate::proofs::moves), unfolding(crate::specs::calls::Views::of_primitive))]
    #[inline(always)]
    pub fn skip_all(&mut self) -> Result<(), DecodeError<S::Error>>
        ensures moves { MovedOctets S.stream self }
        ensures all { OnOk result (
            (octets_before S.stream self).owed
            ≡ Some (length (octets_before S.stream self).stream.rest)) }
        ensures none_owed { OnOk result ((octets_after S.stream self).owed ≡ Some 0) }
        ensures none_left { OnOk result ((octets_after S.stream self).stream.rest ≡ []) }
        ensures no_fault { OnOk result (
            (octets_after S.stream self).stream.faults
            ≡ (octets_before S.stream self).stream.faults) }
        ensures refused { IfErr result (λ e.
            RefusesReading AreNeverRefused (octets_before S.stream self) e
            (octets_after S.stream self)) }
        ensures kept { OnErr result (
            (octets_after S.stream self).stream.rest
            ≡ (octets_before S.stream self).stream.rest) }
        ensures still_owed { OnErr result
            ((octets_after S.stream self).owed ≡ (octets_before S.stream self).owed) }
        ensures mode { (octets_after S.stream self).mode ≡ (octets_before S.stream self).mode }
        ensures marked { (octets_after S.stream self).marked
            ≡ (octets_before S.stream self).marked }
    {
        match self.source.limit() {
            Some(owed) => match self.source.request(owed) {
                Ok(found) => {
                    if found < owed {
                        return self.refuse_too_few();
                    }
                    self.source.advance(owed);
                    Ok(())
                }
                Err(error) => Err(DecodeError::Source(error)),
            },
            None => self.refuse_too_few(),
        }
    }

    /// Refuses the octets as too few, at the current position.
    #[inline(always)]
    pub(super) fn refuse_too_few<T>(&self) -> Result<T, DecodeError<S::Error>>
        ensures { IsErrAnd result IsRefusal }
    {
        self.refuse("unexpected end of data")
    }
}
