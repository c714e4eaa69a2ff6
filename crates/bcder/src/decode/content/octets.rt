//! Taking primitive values.
ghost use Rattle.std.specs.Prelude.{◌≡◌, true, Some};
ghost use Rattle.bcder.specs.calls.Calls.{Answered, IsInside, MayBeCalledOn, IsLawfulOn};
ghost use Rattle.bcder.specs.calls.Content.{any, tagged};
ghost use Rattle.bcder.specs.calls.Calls.{Takes, TakesNext};
ghost use Rattle.bcder.specs.calls.Views.{of_constructed, of_primitive, octets_before};
ghost use Rattle.bcder.specs.calls.Views.{octets_after, Moved};

use super::take::octets_header;
use super::{Constructed, Primitive};
use crate::decode::error::DecodeError;
use crate::decode::header::Wanted;
use crate::decode::source::Source;
use crate::tag::Tag;

impl<'a, S: Source> Constructed<'a, S> {
    /// Takes the next value, which has to be primitive, or returns `None` at the end of the
    /// content.
    ///
    /// The closure gets the value's tag and its contents octets. Otherwise this call works like
    /// [`take_opt_value`](Self::take_opt_value).
    ///
    /// # Errors
    ///
    /// Returns the errors of `take_opt_value`, and an error if the value is constructed. The
    /// content has then failed.
    #[inline(always)]
    pub fn take_opt_primitive<F, T: Drop>(
        &mut self,
        op: F,
    ) -> Result<Option<T>, DecodeError<S::Error>>
    where
        F: FnOnce(Tag, &mut Primitive<'_, S>) -> Result<T, DecodeError<S::Error>>,
        requires callable { (t : _) → MayBeCalledOn (of_primitive S.stream)
            (IsInside any (of_constructed S.stream self.old) t) (F.pre op t) }
        requires lawful { (t : _) → IsLawfulOn (of_primitive S.stream)
            (IsInside any (of_constructed S.stream self.old) t) (F.post op t) }
        ensures moves { Moved S.stream self }
        ensures took { TakesNext (of_primitive S.stream) (F.post op) (Some true) any
            (of_constructed S.stream self.old) result (of_constructed S.stream self.new) }
    {
        let header = match self.next_header(Wanted::Any) {
            Ok(Some(header)) => header,
            Ok(None) => return Ok(None),
            Err(stop) => return self.refuse_for(stop),
        };
        let tag = header.tag;
        self.take_primitive_body(
            header,
            |octets|
                requires { (p : _) → p.now ≡ octets.now → F.pre op tag p }
                ensures { Answered (of_primitive S.stream) (F.post op tag)
                    (octets_before S.stream octets) result (octets_after S.stream octets) }
            { op(tag, octets) },
        )
    }

    /// Takes the next value, which has to be there and to be primitive.
    ///
    /// # Errors
    ///
    /// Returns the errors of [`take_opt_primitive`](Self::take_opt_primitive), and an error at the
    /// end of the content, which then stays usable.
    #[inline(always)]
    pub fn take_primitive<F, T: Drop>(&mut self, op: F) -> Result<T, DecodeError<S::Error>>
    where
        F: FnOnce(Tag, &mut Primitive<'_, S>) -> Result<T, DecodeError<S::Error>>,
        requires callable { (t : _) → MayBeCalledOn (of_primitive S.stream)
            (IsInside any (of_constructed S.stream self.old) t) (F.pre op t) }
        requires lawful { (t : _) → IsLawfulOn (of_primitive S.stream)
            (IsInside any (of_constructed S.stream self.old) t) (F.post op t) }
        ensures moves { Moved S.stream self }
        ensures took { Takes (of_primitive S.stream) (F.post op) (Some true) any
            (of_constructed S.stream self.old) result (of_constructed S.stream self.new) }
    {
        match self.take_opt_primitive(op) {
            Ok(Some(value)) => Ok(value),
            Ok(None) => self.refuse("no value at the end of the content"),
            Err(error) => Err(error),
        }
    }

    /// Takes the next value if it has this tag, or returns `None`. A value with this tag has to be
    /// primitive.
    ///
    /// The closure gets the value's contents octets. Otherwise this call works like
    /// [`take_opt_value_if`](Self::take_opt_value_if).
    ///
    /// # Errors
    ///
    /// Returns the errors of `take_opt_value_if`, and an error if the value with this tag is
    /// constructed. The content has then failed.
    #[inline(always)]
    pub fn take_opt_primitive_if<F, T: Drop>(
        &mut self,
        tag: Tag,
        op: F,
    ) -> Result<Option<T>, DecodeError<S::Error>>
    where
        F: FnOnce(&mut Primitive<'_, S>) -> Result<T, DecodeError<S::Error>>,
        requires callable { (t : _) → MayBeCalledOn (of_primitive S.stream)
            (IsInside (tagged tag) (of_constructed S.stream self.old) t) (F.pre op) }
        requires lawful { (t : _) → IsLawfulOn (of_primitive S.stream)
            (IsInside (tagged tag) (of_constructed S.stream self.old) t) (F.post op) }
        ensures moves { Moved S.stream self }
        ensures took { TakesNext (of_primitive S.stream) (λ _. F.post op) (Some true) (tagged tag)
            (of_constructed S.stream self.old) result (of_constructed S.stream self.new) }
    {
        let len = match self.next_octets_if(tag) {
            Ok(Some(len)) => len,
            Ok(None) => return Ok(None),
            Err(stop) => return self.refuse_for(stop),
        };
        self.take_primitive_body(octets_header(tag, len), op)
    }

    /// Takes the next value, which has to have this tag and to be primitive.
    ///
    /// # Errors
    ///
    /// Returns the errors of [`take_opt_primitive_if`](Self::take_opt_primitive_if), and
    /// `ContentError::ExpectedTag` if that returns `None`. The content then stays usable.
    #[inline(always)]
    pub fn take_primitive_if<F, T: Drop>(
        &mut self,
        tag: Tag,
        op: F,
    ) -> Result<T, DecodeError<S::Error>>
    where
        F: FnOnce(&mut Primitive<'_, S>) -> Result<T, DecodeError<S::Error>>,
        requires callable { (t : _) → MayBeCalledOn (of_primitive S.stream)
            (IsInside (tagged tag) (of_constructed S.stream self.old) t) (F.pre op) }
        requires lawful { (t : _) → IsLawfulOn (of_primitive S.stream)
            (IsInside (tagged tag) (of_constructed S.stream self.old) t) (F.post op) }
        ensures moves { Moved S.stream self }
        ensures took { Takes (of_primitive S.stream) (λ _. F.post op) (Some true) (tagged tag)
            (of_constructed S.stream self.old) result (of_constructed S.stream self.new) }
    {
        match self.take_opt_primitive_if(tag, op) {
            Ok(Some(value)) => Ok(value),
            Ok(None) => self.refuse_without(tag),
            Err(error) => Err(error),
        }
    }
}
