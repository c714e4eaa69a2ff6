//! Decoding all values of a source, and all values inside contents octets.
ghost use Rattle.std.specs.Prelude.{◌≡◌, IfOk, IfErr};
ghost use Rattle.bcder.specs.calls.Calls.{MayBeCalledOn, IsLawfulOn};
ghost use Rattle.bcder.specs.calls.Content.{Moves};
ghost use Rattle.bcder.specs.calls.Decoding.{IsAllOf};
ghost use Rattle.bcder.specs.calls.Decoding.{DecodesWhole, RefusesWhole};
ghost use Rattle.bcder.specs.calls.Decoding.{AnswersToEnd, RefusesToEnd};
ghost use Rattle.bcder.specs.calls.Decoding.{IsWithin};
ghost use Rattle.bcder.specs.calls.Decoding.{DecodesWithin, RefusesWithin};
ghost use Rattle.bcder.specs.calls.Views.{of_constructed, of_primitive, before, after, MovedOctets};
ghost use Rattle.bcder.specs.calls.Views.{octets_before, octets_after};

use super::decode::{run, run_over};
use super::{Constructed, Kind, Primitive, State};
use crate::decode::error::DecodeError;
use crate::decode::source::{IntoSource, LimitedSource, Source};
use crate::mode::Mode;

/// Calls the closure on content, and returns an error if octets are left.
#[tactic(auto, using(crate::proofs::moves_constructed_name), unfolding(crate::specs::calls::Views::views))]
fn run_to_end<S: Source, F, T: Drop>(
    cons: &mut Constructed<'_, S>,
    op: F,
) -> Result<T, DecodeError<S::Error>>
where
    F: FnOnce(&mut Constructed<'_, S>) -> Result<T, DecodeError<S::Error>>,
    requires callable { MayBeCalledOn (of_constructed S.stream)
        (λ i. i ≡ of_constructed S.stream cons.old) (F.pre op) }
    requires lawful { IsLawfulOn (of_constructed S.stream)
        (λ i. i ≡ of_constructed S.stream cons.old) (F.post op) }
    ensures moves { Moves (before S.stream cons) (after S.stream cons) }
    ensures name { cons.new.source.ghost_name ≡ cons.old.source.ghost_name }
    ensures ok { IfOk result (λ x. AnswersToEnd (of_constructed S.stream) (F.post op)
        (before S.stream cons) x (after S.stream cons)) }
    ensures refused { IfErr result (λ e. RefusesToEnd (of_constructed S.stream) (F.post op)
        (before S.stream cons) e (after S.stream cons)) }
{
    match run(cons, op) {
        Ok(value) => match cons.source.exhausted() {
            Ok(()) => Ok(value),
            Err(error) => Err(error),
        },
        Err(error) => Err(error),
    }
}

impl<'a, S: Source + Drop> Constructed<'a, S> {
    /// Decodes all values of a source, in a mode.
    ///
    /// This is [`decode`](Self::decode), but the closure has to take all values up to the end of
    /// the source.
    ///
    /// # Errors
    ///
    /// Returns the errors of `decode`. Also returns an error if octets follow the values, at the
    /// position of the first of them, or if the source fails when it is asked for more.
    pub fn decode_all<I, F, T: Drop>(
        source: I,
        mode: Mode,
        op: F,
    ) -> Result<T, DecodeError<S::Error>>
    where
        I: IntoSource<Source = S>,
        F: FnOnce(&mut Constructed<'_, S>) -> Result<T, DecodeError<S::Error>>,
        requires callable { MayBeCalledOn (of_constructed S.stream)
            (IsAllOf (I.gives source) mode) (F.pre op) }
        requires lawful { IsLawfulOn (of_constructed S.stream)
            (IsAllOf (I.gives source) mode) (F.post op) }
        ensures ok { IfOk result (λ x.
            DecodesWhole (of_constructed S.stream) (F.post op) (I.gives source) mode x) }
        ensures refused { IfErr result (λ e.
            RefusesWhole (of_constructed S.stream) (F.post op) (I.gives source) mode e) }
    {
        let mut limited = LimitedSource::new(source.into_source());
        match run_over(&mut limited, mode, op) {
            Ok(value) => match limited.exhausted() {
                Ok(()) => Ok(value),
                Err(error) => Err(error),
            },
            Err(error) => Err(error),
        }
    }
}

#[tactic(auto, unfolding(crate::specs::calls::Views::views))]
impl<'a, S: Source> Primitive<'a, S> {
    /// Decodes all contents octets as values in a mode, and takes them.
    ///
    /// An OCTET STRING often holds an encoding, for example in an extension of a certificate (RFC
    /// 5280, section 4.1). The closure gets the octets as values up to their end, over the same
    /// source: positions go on, and nothing is copied. The mode of the octets themselves stays as
    /// it is.
    ///
    /// ```text
    /// cons.take_primitive_if(
    ///     Tag::OCTET_STRING,
    ///     |octets| octets.decode_all(Mode::Der, |cons| Basic::take_from(cons)),
    /// )
    /// ```
    ///
    /// # Errors
    ///
    /// Returns the closure's error unchanged. Also returns an error if the closure leaves failed
    /// content, or if octets follow the values, at the position of the first of them. Some of the
    /// octets may then have been taken.
    pub fn decode_all<F, T: Drop>(&mut self, mode: Mode, op: F) -> Result<T, DecodeError<S::Error>>
    where
        F: FnOnce(&mut Constructed<'_, S>) -> Result<T, DecodeError<S::Error>>,
        requires callable { MayBeCalledOn (of_constructed S.stream)
            (IsWithin (of_primitive S.stream self.old) mode) (F.pre op) }
        requires lawful { IsLawfulOn (of_constructed S.stream)
            (IsWithin (of_primitive S.stream self.old) mode) (F.post op) }
        ensures moves { MovedOctets S.stream self }
        ensures ok { IfOk result (λ x. DecodesWithin (of_constructed S.stream) (F.post op)
            (octets_before S.stream self) mode x (octets_after S.stream self)) }
        ensures refused { IfErr result (λ e. RefusesWithin (of_constructed S.stream) (F.post op)
            (octets_before S.stream self) mode e (octets_after S.stream self)) }
        ensures mode { (octets_after S.stream self).mode ≡ (octets_before S.stream self).mode }
        ensures marked { (octets_after S.stream self).marked
            ≡ (octets_before S.stream self).marked }
    {
        let source = &mut *self.source;
        let mut cons = Constructed::over(&mut *source, Kind::Definite, State::Open, mode);
        run_to_end(&mut cons, op)
    }
}
