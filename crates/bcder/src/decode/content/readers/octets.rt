//! Taking contents octets one by one, for readers that users write.
ghost use Rattle.bcder.specs.calls.Readers.{SkipsOctets, TakesNextOctet, TakesOctet};
ghost use Rattle.bcder.specs.calls.Views.{MovedOctets, of_primitive};

use super::super::Primitive;
use crate::decode::error::DecodeError;
use crate::decode::source::Source;

#[tactic(auto, unfolding(crate::specs::calls::Views::of_primitive))]
impl<'a, S: Source> Primitive<'a, S> {
    /// Takes the next octet.
    ///
    /// # Errors
    ///
    /// Returns an error if the value has no octets left, if none comes, or if the source fails. No
    /// octet is then taken.
    pub fn take_u8(&mut self) -> Result<u8, DecodeError<S::Error>>
        ensures moves { MovedOctets S.stream self }
        ensures took { TakesOctet (of_primitive S.stream self.old) result
            (of_primitive S.stream self.new) }
    {
        self.source.take_u8()
    }

    /// Takes the next octet, or returns `None` if the value has no octets left or none comes.
    ///
    /// # Errors
    ///
    /// Returns an error if the source fails. No octet is then taken.
    pub fn take_opt_u8(&mut self) -> Result<Option<u8>, S::Error>
        ensures moves { MovedOctets S.stream self }
        ensures took { TakesNextOctet (of_primitive S.stream self.old) result
            (of_primitive S.stream self.new) }
    {
        self.source.take_opt_u8()
    }

    /// Passes over `len` octets, or over all that are left of the value and come if these are
    /// fewer, and returns how many were passed.
    ///
    /// # Errors
    ///
    /// Returns an error if the source fails. No octet is then passed.
    pub fn skip(&mut self, len: usize) -> Result<usize, S::Error>
        ensures moves { MovedOctets S.stream self }
        ensures passed { SkipsOctets len (of_primitive S.stream self.old) result
            (of_primitive S.stream self.new) }
    {
        self.source.skip(len)
    }
}
