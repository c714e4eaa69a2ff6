//! Taking values of either form.
ghost use Rattle.std.specs.Prelude.{◌≡◌, None};
ghost use Rattle.bcder.specs.calls.Calls.{Answered, IsInside, MayBeCalledOn, IsLawfulOn};
ghost use Rattle.bcder.specs.calls.Content.{any, tagged};
ghost use Rattle.bcder.specs.calls.Calls.{Takes, TakesNext};
ghost use Rattle.bcder.specs.calls.Views.{of_constructed, of_content, content_before};
ghost use Rattle.bcder.specs.calls.Views.{content_after, Moved};

use super::{Constructed, Content};
use crate::decode::error::DecodeError;
use crate::decode::header::Wanted;
use crate::decode::source::Source;
use crate::tag::Tag;

impl<'a, S: Source> Constructed<'a, S> {
    /// Takes the next value, or returns `None` at the end of the content.
    ///
    /// The closure gets the value's tag and its content, open and in this content's mode. It has to
    /// take all of the content, and its result is returned. At the end, the end-of-contents octets,
    /// if any, are taken (X.690, 8.1.5).
    ///
    /// A closure with up to two `?` needs no clause. A closure with more steps, with a loop or with
    /// a choice by the form of content says that it moves the content. So does a function that
    /// takes from content:
    ///
    /// ```text
    /// |cons| ensures { Moved S.stream cons } { .. }
    /// |_tag, content| ensures { MovedContent S.stream content } { match content { .. } }
    /// ```
    ///
    /// # Errors
    ///
    /// Returns an error if
    ///
    /// - the next octets are neither the end of the content nor the header of a value that the mode
    ///   allows and that fits into what is left of the content (8.1.2, 8.1.3);
    /// - the closure refuses, or leaves octets, values or failed content;
    /// - an earlier value was refused;
    /// - the source fails.
    ///
    /// The content has then failed, and every later take refuses.
    #[inline(always)]
    pub fn take_opt_value<F, T: Drop>(&mut self, op: F) -> Result<Option<T>, DecodeError<S::Error>>
    where
        F: FnOnce(Tag, &mut Content<'_, S>) -> Result<T, DecodeError<S::Error>>,
        requires callable { (t : _) → MayBeCalledOn (of_content S.stream)
            (IsInside any (of_constructed S.stream self.old) t) (F.pre op t) }
        requires lawful { (t : _) → IsLawfulOn (of_content S.stream)
            (IsInside any (of_constructed S.stream self.old) t) (F.post op t) }
        ensures moves { Moved S.stream self }
        ensures took { TakesNext (of_content S.stream) (F.post op) None any
            (of_constructed S.stream self.old) result (of_constructed S.stream self.new) }
    {
        let header = match self.next_header(Wanted::Any) {
            Ok(Some(header)) => header,
            Ok(None) => return Ok(None),
            Err(stop) => return self.refuse_for(stop),
        };
        let tag = header.tag;
        self.take_body(
            header,
            |content|
                requires { (p : _) → p.now ≡ content.now → F.pre op tag p }
                ensures { Answered (of_content S.stream) (F.post op tag)
                    (content_before S.stream content) result (content_after S.stream content) }
            { op(tag, content) },
        )
    }

    /// Takes the next value, which has to be there.
    ///
    /// The closure is called as by [`take_opt_value`](Self::take_opt_value).
    ///
    /// # Errors
    ///
    /// Returns the errors of `take_opt_value`, and an error at the end of the content, which then
    /// stays usable.
    #[inline(always)]
    pub fn take_value<F, T: Drop>(&mut self, op: F) -> Result<T, DecodeError<S::Error>>
    where
        F: FnOnce(Tag, &mut Content<'_, S>) -> Result<T, DecodeError<S::Error>>,
        requires callable { (t : _) → MayBeCalledOn (of_content S.stream)
            (IsInside any (of_constructed S.stream self.old) t) (F.pre op t) }
        requires lawful { (t : _) → IsLawfulOn (of_content S.stream)
            (IsInside any (of_constructed S.stream self.old) t) (F.post op t) }
        ensures moves { Moved S.stream self }
        ensures took { Takes (of_content S.stream) (F.post op) None any
            (of_constructed S.stream self.old) result (of_constructed S.stream self.new) }
    {
        match self.take_opt_value(op) {
            Ok(Some(value)) => Ok(value),
            Ok(None) => self.refuse("no value at the end of the content"),
            Err(error) => Err(error),
        }
    }

    /// Takes the next value if it has this tag, or returns `None`.
    ///
    /// The result is `None` at the end of the content, if the source has no more octets, and if the
    /// next value has another tag. Nothing is taken then, so a later call can take what is there.
    /// Only a call with `Tag::END_OF_VALUE` takes end-of-contents octets (X.690, 8.1.5).
    ///
    /// The closure gets the value's content, open and in this content's mode. It has to take all of
    /// it, and its result is returned.
    ///
    /// # Errors
    ///
    /// Returns an error if
    ///
    /// - octets come next that aren't identifier octets;
    /// - identifier octets of this tag come next, but not the header of a value that the mode
    ///   allows and that fits into what is left of the content (8.1.2, 8.1.3);
    /// - the closure refuses, or leaves octets, values or failed content;
    /// - an earlier value was refused;
    /// - the source fails.
    ///
    /// The content has then failed, and every later take refuses.
    #[inline(always)]
    pub fn take_opt_value_if<F, T: Drop>(
        &mut self,
        tag: Tag,
        op: F,
    ) -> Result<Option<T>, DecodeError<S::Error>>
    where
        F: FnOnce(&mut Content<'_, S>) -> Result<T, DecodeError<S::Error>>,
        requires callable { (t : _) → MayBeCalledOn (of_content S.stream)
            (IsInside (tagged tag) (of_constructed S.stream self.old) t) (F.pre op) }
        requires lawful { (t : _) → IsLawfulOn (of_content S.stream)
            (IsInside (tagged tag) (of_constructed S.stream self.old) t) (F.post op) }
        ensures moves { Moved S.stream self }
        ensures took { TakesNext (of_content S.stream) (λ _. F.post op) None (tagged tag)
            (of_constructed S.stream self.old) result (of_constructed S.stream self.new) }
    {
        let header = match self.next_header(Wanted::Tagged(tag)) {
            Ok(Some(header)) => header,
            Ok(None) => return Ok(None),
            Err(stop) => return self.refuse_for(stop),
        };
        self.take_body(header, op)
    }

    /// Takes the next value, which has to have this tag.
    ///
    /// The closure is called as by [`take_opt_value_if`](Self::take_opt_value_if).
    ///
    /// # Errors
    ///
    /// Returns the errors of `take_opt_value_if`, and `ContentError::ExpectedTag` if that returns
    /// `None`. The content then stays usable.
    #[inline(always)]
    pub fn take_value_if<F, T: Drop>(&mut self, tag: Tag, op: F) -> Result<T, DecodeError<S::Error>>
    where
        F: FnOnce(&mut Content<'_, S>) -> Result<T, DecodeError<S::Error>>,
        requires callable { (t : _) → MayBeCalledOn (of_content S.stream)
            (IsInside (tagged tag) (of_constructed S.stream self.old) t) (F.pre op) }
        requires lawful { (t : _) → IsLawfulOn (of_content S.stream)
            (IsInside (tagged tag) (of_constructed S.stream self.old) t) (F.post op) }
        ensures moves { Moved S.stream self }
        ensures took { Takes (of_content S.stream) (λ _. F.post op) None (tagged tag)
            (of_constructed S.stream self.old) result (of_constructed S.stream self.new) }
    {
        match self.take_opt_value_if(tag, op) {
            Ok(Some(value)) => Ok(value),
            Ok(None) => self.refuse_without(tag),
            Err(error) => Err(error),
        }
    }
}
