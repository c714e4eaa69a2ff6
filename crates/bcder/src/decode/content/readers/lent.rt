//! Contents octets that outlive the source.
ghost use Rattle.std.specs.Prelude.{◌≡◌, ◌≤◌};
ghost use Rattle.bcder.specs.calls.Readers.{ReadBy, AreNeverRefused};
ghost use Rattle.bcder.specs.calls.Views.{of_primitive, MovedOctets};
ghost use Rattle.bcder.specs.steps.Remaining.{HasAll};

use super::super::Primitive;
use crate::decode::error::DecodeError;
use crate::decode::source::LendingSource;

/// Lends the octets that the source lends, up to the end of the value.
impl<'a, S: LendingSource> LendingSource for Primitive<'a, S> {
    type Lent = S::Lent;

    fn lent(&self, start: usize, end: usize) -> S::Lent {
        self.source.lent(start, end)
    }
}

#[tactic(auto, using(crate::proofs::moves, crate::proofs::Reading::refuses_missing), unfolding(crate::specs::calls::Views::of_primitive))]
impl<'a, S: LendingSource> Primitive<'a, S> {
    /// Returns all octets that are owed, which have to be at hand.
    #[inline(always)]
    fn lent_all(&self, len: usize) -> S::Lent
        requires found { HasAll len (of_primitive S.stream self.now) }
        requires at_hand { len ≤ (of_primitive S.stream self.now).stream.avail }
        ensures { S.Lent.items result ≡ (of_primitive S.stream self.now).stream.rest }
    {
        self.source.lent(0, len)
    }

    /// Takes all octets, and returns them lent for as long as the octets of the source live.
    ///
    /// Over a [`SliceSource<'b>`](crate::decode::SliceSource) they are a `&'b [u8]`. Nothing is
    /// copied or allocated.
    ///
    /// # Errors
    ///
    /// Returns an error if fewer octets come than the length promises, or if the source fails. No
    /// octet is then taken.
    #[inline(always)]
    pub fn take_lent(&mut self) -> Result<S::Lent, DecodeError<S::Error>>
        ensures moves { MovedOctets S.stream self }
        ensures read { ReadBy S.stream self (λ w b. S.Lent.items b ≡ w) AreNeverRefused result }
    {
        let len = match self.request_all() {
            Ok(len) => len,
            Err(error) => return Err(error),
        };
        let octets = self.lent_all(len);
        self.pass_all(len);
        Ok(octets)
    }
}
