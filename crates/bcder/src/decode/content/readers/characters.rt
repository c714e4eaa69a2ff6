//! Reading the contents octets of a restricted string (X.690, 8.23).
ghost use Rattle.std.specs.Prelude.{◌≡◌};
ghost use Rattle.bcder.specs.calls.Readers.{AreNot};
ghost use Rattle.bcder.specs.x690.CharSet.{IsOfSet};
ghost use Rattle.bcder.specs.calls.Readers.{ReadBy};
ghost use Rattle.bcder.specs.calls.Views.{MovedOctets};

use super::super::Primitive;
use crate::decode::error::{ContentError, DecodeError};
use crate::decode::source::Source;
use crate::string::octet::OctetStringOctets;
use crate::string::restricted::CharSet;
use bytes::Bytes;
use std::alloc::Global;

#[tactic(auto, using(crate::proofs::moves, crate::proofs::Reading::refuses_missing))]
impl<'a, S: Source> Primitive<'a, S> {
    /// Takes all octets if they spell characters of the set. This is checked before the octets are
    /// copied.
    #[inline(always)]
    pub(crate) fn take_characters<L: CharSet>(
        &mut self,
        alloc: Global,
    ) -> Result<Bytes, DecodeError<S::Error>>
        ensures moves { MovedOctets S.stream self }
        ensures read { ReadBy S.stream self
            (λ w b. (b ≡ w) × IsOfSet L.step w) (AreNot (IsOfSet L.step)) result }
    {
        let len = match self.request_all() {
            Ok(len) => len,
            Err(error) => return Err(error),
        };
        match L::check(OctetStringOctets::new(self.all(len))) {
            Ok(()) => {}
            Err(_) => {
                return Err(Primitive::content_err(
                    self,
                    ContentError::from_static("invalid character"),
                ));
            }
        }
        match self.bytes_of_all(alloc, len) {
            Ok(octets) => {
                self.pass_all(len);
                Ok(octets)
            }
            Err(_) => Err(DecodeError::no_memory()),
        }
    }
}
