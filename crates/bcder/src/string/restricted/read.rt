//! Reading restricted strings (X.690, 8.23).
ghost use Rattle.std.specs.Prelude.{◌≡◌, IfOk, IfErr};
ghost use Rattle.bcder.specs.calls.Cause.{IsRefusal};
ghost use Rattle.bcder.specs.calls.RestrictedString.{MeansRestricted, MeansPiece};
ghost use Rattle.bcder.specs.calls.StringOctets.{octets_of};
ghost use Rattle.bcder.specs.x690.CharSet.{IsOfSet};
ghost use Rattle.bcder.specs.calls.Valued.{ReadsAny, TakesNextTree, TakesOneTree};
ghost use Rattle.bcder.specs.calls.Views.{of_constructed, octets_before, octets_after};
ghost use Rattle.bcder.specs.calls.Views.{Moved, MovedOctets, MovedContent, content_before};
ghost use Rattle.bcder.specs.calls.Views.{content_after};

use super::{CharSet, RestrictedString};
use crate::decode::header::Wanted;
use crate::decode::{Constructed, Content, ContentError, DecodeError, Primitive, Source};
use crate::string::octet::{OctetString, from_constructed, may_be_whole};
use bytes::Bytes;
use std::alloc::Global;

/// Takes all contents octets as those of a string of the set, in one piece.
#[tactic(auto, using(crate::proofs::moves))]
#[inline(always)]
fn take_accepted<L: CharSet, S: Source>(
    alloc: Global,
    octets: &mut Primitive<'_, S>,
) -> Result<Bytes, DecodeError<S::Error>>
    ensures moves { MovedOctets S.stream octets }
    ensures read { ReadsAny (MeansPiece L.step)
        (octets_before S.stream octets) result (octets_after S.stream octets) }
{
    if !may_be_whole(octets.mode(), octets.remaining()) {
        return Err(octets.refusal("a string that is to be cut"));
    }
    octets.take_characters::<L>(alloc)
}

#[tactic(auto, using(crate::specs::laws::Moved::untouched_is_moved))]
impl<L: CharSet> RestrictedString<L> {
    /// Returns a string that was read from values, if its octets spell characters of the set.
    #[inline(always)]
    fn accept<S: Source>(
        values: &Constructed<'_, S>,
        octets: OctetString,
    ) -> Result<Self, DecodeError<S::Error>>
        ensures accepted { IfOk result
            (λ s. (s ≡ octets) × IsOfSet L.step (octets_of octets)) }
        ensures refused { IfErr result
            (λ e. (IsOfSet L.step (octets_of octets) → ⊥) × IsRefusal e) }
    {
        match RestrictedString::new(octets) {
            Ok(string) => Ok(string),
            Err(_) => Err(values.content_err(ContentError::from_static("invalid character"))),
        }
    }

    /// Takes all values as the segments of a string of the set.
    #[cold]
    #[inline(never)]
    fn from_values<S: Source>(
        alloc: Global,
        values: &mut Constructed<'_, S>,
    ) -> Result<Self, DecodeError<S::Error>>
        ensures moves { Moved S.stream values }
        ensures read { ReadsAny (MeansRestricted L.step)
            (of_constructed S.stream values.old) result (of_constructed S.stream values.new) }
    {
        let octets = match from_constructed(alloc, values) {
            Ok(octets) => octets,
            Err(error) => return Err(error),
        };
        RestrictedString::<L>::accept(values, octets)
    }

    /// Takes the next value, which has to be a string of the set, with the set's tag.
    ///
    /// # Errors
    ///
    /// Returns the errors of [`take_opt_from`](Self::take_opt_from), and
    /// `ContentError::ExpectedTag` if that returns `None`. The content then stays usable.
    #[inline(always)]
    pub fn take_from<S: Source>(
        alloc: Global,
        cons: &mut Constructed<'_, S>,
    ) -> Result<Self, DecodeError<S::Error>>
        ensures moves { Moved S.stream cons }
        ensures took { TakesOneTree L.TAG (MeansRestricted L.step cons.old.mode)
            (of_constructed S.stream cons.old) result (of_constructed S.stream cons.new) }
    {
        match RestrictedString::<L>::take_opt_from(alloc, cons) {
            Ok(Some(string)) => Ok(string),
            Ok(None) => Err(cons.expected_tag_error(L::TAG)),
            Err(error) => Err(error),
        }
    }

    /// Takes the next value if it has the set's tag. Returns `None` at the end and at a value of
    /// another tag, which stays.
    ///
    /// The value is read like an OCTET STRING (X.690, 8.23.3): it may be cut into segments, which
    /// have the tag of OCTET STRING. Its octets spell characters of the set, and a character may
    /// continue from one segment to the next.
    ///
    /// # Errors
    ///
    /// Returns the errors of `OctetString::take_opt_from`, and an error if the octets spell no
    /// characters of the set. The content has then failed.
    #[inline(always)]
    pub fn take_opt_from<S: Source>(
        alloc: Global,
        cons: &mut Constructed<'_, S>,
    ) -> Result<Option<Self>, DecodeError<S::Error>>
        ensures moves { Moved S.stream cons }
        ensures took { TakesNextTree L.TAG (MeansRestricted L.step cons.old.mode)
            (of_constructed S.stream cons.old) result (of_constructed S.stream cons.new) }
    {
        match cons.next_header(Wanted::Tagged(L::TAG)) {
            Ok(Some(header)) => {
                if header.form.is_constructed() {
                    cons.take_constructed_body(
                        header,
                        |values| RestrictedString::<L>::from_values(alloc, values),
                    )
                } else {
                    match cons.take_primitive_body(
                        header,
                        |octets| take_accepted::<L, S>(alloc, octets),
                    ) {
                        Ok(Some(octets)) => Ok(Some(RestrictedString::of_bytes(octets))),
                        Ok(None) => Ok(None),
                        Err(error) => Err(error),
                    }
                }
            }
            Ok(None) => Ok(None),
            Err(stop) => Err(cons.stop_error(stop)),
        }
    }

    /// Takes all content of a value as a string of the set, whatever the tag of the value.
    ///
    /// # Errors
    ///
    /// Returns the errors of `OctetString::from_content`, and an error if the octets spell no
    /// characters of the set. Some of the content may then have been taken.
    pub fn from_content<S: Source>(
        alloc: Global,
        content: &mut Content<'_, S>,
    ) -> Result<Self, DecodeError<S::Error>>
        ensures moves { MovedContent S.stream content }
        ensures read { ReadsAny (MeansRestricted L.step) (content_before S.stream content) result
            (content_after S.stream content) }
    {
        match content {
            Content::Primitive(octets) => match take_accepted::<L, S>(alloc, octets) {
                Ok(octets) => Ok(RestrictedString::of_bytes(octets)),
                Err(error) => Err(error),
            },
            Content::Constructed(values) => RestrictedString::<L>::from_values(alloc, values),
        }
    }
}
