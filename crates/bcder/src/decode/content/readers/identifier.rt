//! Reading the contents octets of an object identifier (X.690, 8.19).
ghost use Rattle.std.specs.Prelude.{◌≡◌};
ghost use Rattle.bcder.specs.calls.Readers.{AreNot};
ghost use Rattle.bcder.specs.x690.ObjectIdentifier.{IsComplete};
ghost use Rattle.bcder.specs.calls.Readers.{ReadBy, ReadOctets};
ghost use Rattle.bcder.specs.calls.Readers.{HoldIdentifier, IsSame};
ghost use Rattle.bcder.specs.calls.Views.{MovedOctets};

use super::super::Primitive;
use crate::decode::error::DecodeError;
use crate::decode::source::Source;
use crate::oid::components::is_complete;
use bytes::Bytes;
use std::alloc::Global;

#[tactic(auto, using(crate::proofs::moves, crate::proofs::Reading::refuses_missing))]
impl<'a, S: Source> Primitive<'a, S> {
    /// Takes all octets if they end with a subidentifier.
    #[inline(always)]
    pub(crate) fn take_identifier(&mut self, alloc: Global) -> Result<Bytes, DecodeError<S::Error>>
        ensures moves { MovedOctets S.stream self }
        ensures read { ReadBy S.stream self (λ w b. (b ≡ w) × IsComplete w) (AreNot IsComplete) result }
    {
        let len = match self.request_all() {
            Ok(len) => len,
            Err(error) => return Err(error),
        };
        if !is_complete(self.all(len)) {
            return self.refuse("no object identifier");
        }
        match self.bytes_of_all(alloc, len) {
            Ok(octets) => {
                self.pass_all(len);
                Ok(octets)
            }
            Err(_) => Err(DecodeError::no_memory()),
        }
    }

    /// Passes over all octets if they end with a subidentifier.
    #[inline(always)]
    pub(crate) fn skip_identifier(&mut self) -> Result<(), DecodeError<S::Error>>
        ensures moves { MovedOctets S.stream self }
        ensures read { ReadOctets S.stream self HoldIdentifier result }
    {
        let len = match self.request_all() {
            Ok(len) => len,
            Err(error) => return Err(error),
        };
        if is_complete(self.all(len)) {
            self.pass_all(len);
            Ok(())
        } else {
            self.refuse("no object identifier")
        }
    }

    /// Passes over all octets if they are these.
    #[inline(always)]
    pub(crate) fn skip_same(&mut self, expected: &[u8]) -> Result<(), DecodeError<S::Error>>
        ensures moves { MovedOctets S.stream self }
        ensures read { ReadOctets S.stream self (IsSame expected.now) result }
    {
        let len = match self.request_all() {
            Ok(len) => len,
            Err(error) => return Err(error),
        };
        if self.all(len) == expected {
            self.pass_all(len);
            Ok(())
        } else {
            self.refuse("another object identifier")
        }
    }
}
