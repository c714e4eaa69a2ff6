//! Taking constructed values.
ghost use Rattle.std.specs.Prelude.{◌≡◌, false, Some};
ghost use Rattle.bcder.specs.calls.Calls.{Answered, IsInside, MayBeCalledOn, IsLawfulOn};
ghost use Rattle.bcder.specs.calls.Content.{any, tagged};
ghost use Rattle.bcder.specs.x690.Identifier.{sequence_tag, set_tag};
ghost use Rattle.bcder.specs.calls.Calls.{Takes, TakesNext};
ghost use Rattle.bcder.specs.calls.Views.{of_constructed, Moved};

use super::Constructed;
use crate::decode::error::DecodeError;
use crate::decode::header::Wanted;
use crate::decode::source::Source;
use crate::tag::Tag;

impl<'a, S: Source> Constructed<'a, S> {
    /// Takes the next value, which has to be constructed, or returns `None` at the end of the
    /// content.
    ///
    /// The closure gets the value's tag and the values inside it. Otherwise this call works like
    /// [`take_opt_value`](Self::take_opt_value).
    ///
    /// # Errors
    ///
    /// Returns the errors of `take_opt_value`, and an error if the value is primitive. The content
    /// has then failed.
    #[inline(always)]
    pub fn take_opt_constructed<F, T: Drop>(
        &mut self,
        op: F,
    ) -> Result<Option<T>, DecodeError<S::Error>>
    where
        F: FnOnce(Tag, &mut Constructed<'_, S>) -> Result<T, DecodeError<S::Error>>,
        requires callable { (t : _) → MayBeCalledOn (of_constructed S.stream)
            (IsInside any (of_constructed S.stream self.old) t) (F.pre op t) }
        requires lawful { (t : _) → IsLawfulOn (of_constructed S.stream)
            (IsInside any (of_constructed S.stream self.old) t) (F.post op t) }
        ensures moves { Moved S.stream self }
        ensures took { TakesNext (of_constructed S.stream) (F.post op) (Some false) any
            (of_constructed S.stream self.old) result (of_constructed S.stream self.new) }
    {
        let header = match self.next_header(Wanted::Any) {
            Ok(Some(header)) => header,
            Ok(None) => return Ok(None),
            Err(stop) => return self.refuse_for(stop),
        };
        let tag = header.tag;
        self.take_constructed_body(
            header,
            |values|
                requires { (p : _) → p.now ≡ values.now → F.pre op tag p }
                ensures { Answered (of_constructed S.stream) (F.post op tag)
                    (of_constructed S.stream values.old) result
                    (of_constructed S.stream values.new) }
            { op(tag, values) },
        )
    }

    /// Takes the next value, which has to be there and to be constructed.
    ///
    /// # Errors
    ///
    /// Returns the errors of [`take_opt_constructed`](Self::take_opt_constructed), and an error at
    /// the end of the content, which then stays usable.
    #[inline(always)]
    pub fn take_constructed<F, T: Drop>(&mut self, op: F) -> Result<T, DecodeError<S::Error>>
    where
        F: FnOnce(Tag, &mut Constructed<'_, S>) -> Result<T, DecodeError<S::Error>>,
        requires callable { (t : _) → MayBeCalledOn (of_constructed S.stream)
            (IsInside any (of_constructed S.stream self.old) t) (F.pre op t) }
        requires lawful { (t : _) → IsLawfulOn (of_constructed S.stream)
            (IsInside any (of_constructed S.stream self.old) t) (F.post op t) }
        ensures moves { Moved S.stream self }
        ensures took { Takes (of_constructed S.stream) (F.post op) (Some false) any
            (of_constructed S.stream self.old) result (of_constructed S.stream self.new) }
    {
        match self.take_opt_constructed(op) {
            Ok(Some(value)) => Ok(value),
            Ok(None) => self.refuse("no value at the end of the content"),
            Err(error) => Err(error),
        }
    }

    /// Takes the next value if it has this tag, or returns `None`. A value with this tag has to be
    /// constructed.
    ///
    /// The closure gets the values inside it. Otherwise this call works like
    /// [`take_opt_value_if`](Self::take_opt_value_if).
    ///
    /// # Errors
    ///
    /// Returns the errors of `take_opt_value_if`, and an error if the value with this tag is
    /// primitive. The content has then failed.
    #[inline(always)]
    pub fn take_opt_constructed_if<F, T: Drop>(
        &mut self,
        tag: Tag,
        op: F,
    ) -> Result<Option<T>, DecodeError<S::Error>>
    where
        F: FnOnce(&mut Constructed<'_, S>) -> Result<T, DecodeError<S::Error>>,
        requires callable { (t : _) → MayBeCalledOn (of_constructed S.stream)
            (IsInside (tagged tag) (of_constructed S.stream self.old) t) (F.pre op) }
        requires lawful { (t : _) → IsLawfulOn (of_constructed S.stream)
            (IsInside (tagged tag) (of_constructed S.stream self.old) t) (F.post op) }
        ensures moves { Moved S.stream self }
        ensures took { TakesNext (of_constructed S.stream) (λ _. F.post op) (Some false)
            (tagged tag) (of_constructed S.stream self.old) result
            (of_constructed S.stream self.new) }
    {
        let header = match self.next_header(Wanted::Tagged(tag)) {
            Ok(Some(header)) => header,
            Ok(None) => return Ok(None),
            Err(stop) => return self.refuse_for(stop),
        };
        self.take_constructed_body(header, op)
    }

    /// Takes the next value, which has to have this tag and to be constructed.
    ///
    /// # Errors
    ///
    /// Returns the errors of [`take_opt_constructed_if`](Self::take_opt_constructed_if), and
    /// `ContentError::ExpectedTag` if that returns `None`. The content then stays usable.
    #[inline(always)]
    pub fn take_constructed_if<F, T: Drop>(
        &mut self,
        tag: Tag,
        op: F,
    ) -> Result<T, DecodeError<S::Error>>
    where
        F: FnOnce(&mut Constructed<'_, S>) -> Result<T, DecodeError<S::Error>>,
        requires callable { (t : _) → MayBeCalledOn (of_constructed S.stream)
            (IsInside (tagged tag) (of_constructed S.stream self.old) t) (F.pre op) }
        requires lawful { (t : _) → IsLawfulOn (of_constructed S.stream)
            (IsInside (tagged tag) (of_constructed S.stream self.old) t) (F.post op) }
        ensures moves { Moved S.stream self }
        ensures took { Takes (of_constructed S.stream) (λ _. F.post op) (Some false)
            (tagged tag) (of_constructed S.stream self.old) result
            (of_constructed S.stream self.new) }
    {
        match self.take_opt_constructed_if(tag, op) {
            Ok(Some(value)) => Ok(value),
            Ok(None) => self.refuse_without(tag),
            Err(error) => Err(error),
        }
    }

    /// Takes the next value, which has to be a SEQUENCE (X.690, 8.9, 8.10).
    ///
    /// This is [`take_constructed_if`](Self::take_constructed_if) with `Tag::SEQUENCE`.
    ///
    /// # Errors
    ///
    /// Returns the errors of `take_constructed_if`.
    #[inline(always)]
    pub fn take_sequence<F, T: Drop>(&mut self, op: F) -> Result<T, DecodeError<S::Error>>
    where
        F: FnOnce(&mut Constructed<'_, S>) -> Result<T, DecodeError<S::Error>>,
        requires callable { (t : _) → MayBeCalledOn (of_constructed S.stream)
            (IsInside (tagged sequence_tag) (of_constructed S.stream self.old) t) (F.pre op) }
        requires lawful { (t : _) → IsLawfulOn (of_constructed S.stream)
            (IsInside (tagged sequence_tag) (of_constructed S.stream self.old) t) (F.post op) }
        ensures moves { Moved S.stream self }
        ensures took { Takes (of_constructed S.stream) (λ _. F.post op) (Some false)
            (tagged sequence_tag) (of_constructed S.stream self.old) result
            (of_constructed S.stream self.new) }
    {
        match self.take_opt_constructed_if(Tag::SEQUENCE, op) {
            Ok(Some(value)) => Ok(value),
            Ok(None) => self.refuse_without(Tag::SEQUENCE),
            Err(error) => Err(error),
        }
    }

    /// Takes the next value if it is a SEQUENCE (X.690, 8.9, 8.10), or returns `None`.
    ///
    /// This is [`take_opt_constructed_if`](Self::take_opt_constructed_if) with `Tag::SEQUENCE`.
    ///
    /// # Errors
    ///
    /// Returns the errors of `take_opt_constructed_if`.
    #[inline(always)]
    pub fn take_opt_sequence<F, T: Drop>(
        &mut self,
        op: F,
    ) -> Result<Option<T>, DecodeError<S::Error>>
    where
        F: FnOnce(&mut Constructed<'_, S>) -> Result<T, DecodeError<S::Error>>,
        requires callable { (t : _) → MayBeCalledOn (of_constructed S.stream)
            (IsInside (tagged sequence_tag) (of_constructed S.stream self.old) t) (F.pre op) }
        requires lawful { (t : _) → IsLawfulOn (of_constructed S.stream)
            (IsInside (tagged sequence_tag) (of_constructed S.stream self.old) t) (F.post op) }
        ensures moves { Moved S.stream self }
        ensures took { TakesNext (of_constructed S.stream) (λ _. F.post op) (Some false)
            (tagged sequence_tag) (of_constructed S.stream self.old) result
            (of_constructed S.stream self.new) }
    {
        self.take_opt_constructed_if(Tag::SEQUENCE, op)
    }

    /// Takes the next value, which has to be a SET (X.690, 8.11, 8.12).
    ///
    /// This is [`take_constructed_if`](Self::take_constructed_if) with `Tag::SET`.
    ///
    /// # Errors
    ///
    /// Returns the errors of `take_constructed_if`.
    #[inline(always)]
    pub fn take_set<F, T: Drop>(&mut self, op: F) -> Result<T, DecodeError<S::Error>>
    where
        F: FnOnce(&mut Constructed<'_, S>) -> Result<T, DecodeError<S::Error>>,
        requires callable { (t : _) → MayBeCalledOn (of_constructed S.stream)
            (IsInside (tagged set_tag) (of_constructed S.stream self.old) t) (F.pre op) }
        requires lawful { (t : _) → IsLawfulOn (of_constructed S.stream)
            (IsInside (tagged set_tag) (of_constructed S.stream self.old) t) (F.post op) }
        ensures moves { Moved S.stream self }
        ensures took { Takes (of_constructed S.stream) (λ _. F.post op) (Some false)
            (tagged set_tag) (of_constructed S.stream self.old) result
            (of_constructed S.stream self.new) }
    {
        match self.take_opt_constructed_if(Tag::SET, op) {
            Ok(Some(value)) => Ok(value),
            Ok(None) => self.refuse_without(Tag::SET),
            Err(error) => Err(error),
        }
    }

    /// Takes the next value if it is a SET (X.690, 8.11, 8.12), or returns `None`.
    ///
    /// This is [`take_opt_constructed_if`](Self::take_opt_constructed_if) with `Tag::SET`.
    ///
    /// # Errors
    ///
    /// Returns the errors of `take_opt_constructed_if`.
    #[inline(always)]
    pub fn take_opt_set<F, T: Drop>(&mut self, op: F) -> Result<Option<T>, DecodeError<S::Error>>
    where
        F: FnOnce(&mut Constructed<'_, S>) -> Result<T, DecodeError<S::Error>>,
        requires callable { (t : _) → MayBeCalledOn (of_constructed S.stream)
            (IsInside (tagged set_tag) (of_constructed S.stream self.old) t) (F.pre op) }
        requires lawful { (t : _) → IsLawfulOn (of_constructed S.stream)
            (IsInside (tagged set_tag) (of_constructed S.stream self.old) t) (F.post op) }
        ensures moves { Moved S.stream self }
        ensures took { TakesNext (of_constructed S.stream) (λ _. F.post op) (Some false)
            (tagged set_tag) (of_constructed S.stream self.old) result
            (of_constructed S.stream self.new) }
    {
        self.take_opt_constructed_if(Tag::SET, op)
    }
}
