//! Calling a closure on content of one form.
ghost use Rattle.std.specs.Prelude.{◌≡◌, ◌≢◌, ◌⊎◌, Ok, Err, IfOk, IfErr};
ghost use Rattle.bcder.specs.calls.Calls.{Answered, MayBeCalledOn, IsLawfulOn};
ghost use Rattle.bcder.specs.calls.Cause.{IsRefusal};
ghost use Rattle.bcder.specs.calls.Content.{Octets};
ghost use Rattle.bcder.specs.calls.Views.{of_constructed, of_primitive, of_content, content_before};
ghost use Rattle.bcder.specs.calls.Views.{content_after, MovedContent};

use super::{Constructed, Content, Primitive};
use crate::decode::error::DecodeError;
use crate::decode::source::Source;

#[tactic(auto, using(crate::proofs::moves))]
impl<'a, S: Source> Content<'a, S> {
    /// Calls the closure on the content of a primitive value, and returns its result.
    ///
    /// # Errors
    ///
    /// Returns the closure's error. Also returns an error if the value is constructed. Its content
    /// then stays as it is.
    pub fn as_primitive<F, T: Drop>(&mut self, op: F) -> Result<T, DecodeError<S::Error>>
    where
        F: FnOnce(&mut Primitive<'_, S>) -> Result<T, DecodeError<S::Error>>,
        requires callable { MayBeCalledOn (of_primitive S.stream)
            (λ i. i ≡ of_content S.stream self.old) (F.pre op) }
        requires lawful { IsLawfulOn (of_primitive S.stream)
            (λ i. i ≡ of_content S.stream self.old) (F.post op) }
        ensures moves { MovedContent S.stream self }
        ensures ok { IfOk result (λ x.
            Answered (of_primitive S.stream) (F.post op)
            (content_before S.stream self) (Ok x) (content_after S.stream self)) }
        ensures refused { IfErr result (λ e.
            ((content_before S.stream self).kind ≢ Octets)
            × (content_after S.stream self ≡ content_before S.stream self)
            × IsRefusal e
            ⊎ Answered (of_primitive S.stream) (F.post op)
            (content_before S.stream self) (Err e) (content_after S.stream self)) }
    {
        match self {
            Content::Primitive(primitive) => op(primitive),
            Content::Constructed(constructed) => Err(constructed.refusal(
                "expected a primitive value",
            )),
        }
    }

    /// Calls the closure on the content of a constructed value, and returns its result.
    ///
    /// # Errors
    ///
    /// Returns the closure's error. Also returns an error if the value is primitive. Its content
    /// then stays as it is.
    pub fn as_constructed<F, T: Drop>(&mut self, op: F) -> Result<T, DecodeError<S::Error>>
    where
        F: FnOnce(&mut Constructed<'_, S>) -> Result<T, DecodeError<S::Error>>,
        requires callable { MayBeCalledOn (of_constructed S.stream)
            (λ i. i ≡ of_content S.stream self.old) (F.pre op) }
        requires lawful { IsLawfulOn (of_constructed S.stream)
            (λ i. i ≡ of_content S.stream self.old) (F.post op) }
        ensures moves { MovedContent S.stream self }
        ensures ok { IfOk result (λ x.
            Answered (of_constructed S.stream) (F.post op)
            (content_before S.stream self) (Ok x) (content_after S.stream self)) }
        ensures refused { IfErr result (λ e.
            ((content_before S.stream self).kind ≡ Octets)
            × (content_after S.stream self ≡ content_before S.stream self)
            × IsRefusal e
            ⊎ Answered (of_constructed S.stream) (F.post op)
            (content_before S.stream self) (Err e) (content_after S.stream self)) }
    {
        match self {
            Content::Primitive(primitive) => Err(primitive.refusal("expected a constructed value")),
            Content::Constructed(constructed) => op(constructed),
        }
    }
}
