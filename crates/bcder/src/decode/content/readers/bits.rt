//! Reading the contents octets of a bit string (X.690, 8.6.2).
ghost use Rattle.std.specs.Prelude.{◌≡◌, ◌≤◌, IfOk};
ghost use Rattle.bcder.specs.calls.Readers.{NoBits};
ghost use Rattle.bcder.specs.x690.BitString.{contents_octets, BitShape, IsBitString};
ghost use Rattle.bcder.specs.calls.Readers.{HoldBits};
ghost use Rattle.bcder.specs.calls.Readers.{ReadBy, ReadOctets};
ghost use Rattle.bcder.specs.calls.Views.{of_primitive, octets_before, MovedOctets};
ghost use Rattle.bcder.specs.steps.Remaining.{HasAll};

use super::super::Primitive;
use crate::NoMemory;
use crate::decode::error::DecodeError;
use crate::decode::source::Source;
use crate::string::BitString;
use crate::string::bit::contents::is_bit_string;
use std::alloc::Global;

#[tactic(auto, using(crate::proofs::moves, crate::proofs::Reading::refuses_missing))]
impl<'a, S: Source> Primitive<'a, S> {
    /// Takes all octets if they are contents octets of a bit string.
    pub(crate) fn take_bits(&mut self, alloc: Global) -> Result<BitString, DecodeError<S::Error>>
        ensures moves { MovedOctets S.stream self }
        ensures read { ReadBy S.stream self
            (IsBitString (octets_before S.stream self).mode)
            (NoBits (octets_before S.stream self).mode) result }
    {
        let len = match self.request_all() {
            Ok(len) => len,
            Err(error) => return Err(error),
        };
        if !is_bit_string(self.mode(), self.all(len)) {
            return self.refuse("no bit string");
        }
        match self.bits_of_all(alloc, len) {
            Ok(bits) => {
                self.pass_all(len);
                Ok(bits)
            }
            Err(_) => Err(DecodeError::no_memory()),
        }
    }

    /// Passes over all octets if they are contents octets of a bit string.
    pub(crate) fn skip_bits(&mut self) -> Result<(), DecodeError<S::Error>>
        ensures moves { MovedOctets S.stream self }
        ensures read { ReadOctets S.stream self
            (HoldBits (octets_before S.stream self).mode) result }
    {
        let len = match self.request_all() {
            Ok(len) => len,
            Err(error) => return Err(error),
        };
        if is_bit_string(self.mode(), self.all(len)) {
            self.pass_all(len);
            Ok(())
        } else {
            self.refuse("no bit string")
        }
    }
}

#[tactic(auto, unfolding(crate::specs::calls::Views::of_primitive))]
impl<'a, S: Source> Primitive<'a, S> {
    /// Returns all octets that are owed, which have to be at hand, as a bit string.
    fn bits_of_all(&self, alloc: Global, len: usize) -> Result<BitString, NoMemory>
        requires found { HasAll len (of_primitive S.stream self.now) }
        requires at_hand { len ≤ (of_primitive S.stream self.now).stream.avail }
        requires bits { BitShape (of_primitive S.stream self.now).mode
            (of_primitive S.stream self.now).stream.rest }
        ensures { IfOk result (λ x. contents_octets x
            ≡ (of_primitive S.stream self.now).stream.rest) }
    {
        let unused = self.all(len)[0];
        let octets = self.source.bytes(alloc, 1, len)?;
        Ok(BitString::new(unused, octets))
    }
}
