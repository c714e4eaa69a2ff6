//! Reading octet strings (X.690, 8.7, 9.2, 10.2).
ghost use Rattle.std.specs.Prelude.{◌≡◌, ◌≤◌, ◌↔◌, IsTrue};
ghost use Rattle.bcder.specs.x690.OctetString.{octet_string_tag};
ghost use Rattle.bcder.specs.calls.StringOctets.{whole, MeansString};
ghost use Rattle.bcder.specs.calls.Valued.{ReadsAny, TakesNextTree, TakesOneTree};
ghost use Rattle.bcder.specs.calls.Views.{of_constructed, octets_before, octets_after};
ghost use Rattle.bcder.specs.calls.Views.{Moved, MovedOctets, MovedContent, content_before};
ghost use Rattle.bcder.specs.calls.Views.{content_after};

use super::OctetString;
use super::segments::{FULL, table_of};
use crate::decode::header::Wanted;
use crate::decode::{Constructed, Content, DecodeError, Primitive, Source};
use crate::mode::Mode;
use crate::tag::Tag;
use bytes::Bytes;
use std::alloc::Global;

/// Returns whether a string in one piece may have `len` octets in a mode (9.2).
#[inline(always)]
pub(crate) fn may_be_whole(mode: Mode, len: usize) -> bool
    ensures { IsTrue result ↔ (mode ≡ Mode.Cer → len ≤ 1000) }
{
    match mode {
        Mode::Ber => true,
        Mode::Cer => len <= FULL,
        Mode::Der => true,
    }
}

/// Takes all contents octets as those of a string in one piece, which has at most 1000 in CER.
#[tactic(auto, using(crate::proofs::moves))]
#[inline(always)]
pub(crate) fn take_piece<S: Source>(
    alloc: Global,
    octets: &mut Primitive<'_, S>,
) -> Result<Bytes, DecodeError<S::Error>>
    ensures moves { MovedOctets S.stream octets }
    ensures read { ReadsAny (λ mode t w. MeansString mode t (whole w))
        (octets_before S.stream octets) result (octets_after S.stream octets) }
{
    if !may_be_whole(octets.mode(), octets.remaining()) {
        return Err(octets.refusal("an octet string that is to be cut"));
    }
    octets.take_all(alloc)
}

/// Takes all values as the segments of a string.
#[tactic(auto, using(crate::proofs::moves))]
#[cold]
#[inline(never)]
pub(crate) fn from_constructed<S: Source>(
    alloc: Global,
    values: &mut Constructed<'_, S>,
) -> Result<OctetString, DecodeError<S::Error>>
    ensures moves { Moved S.stream values }
    ensures read { ReadsAny MeansString
        (of_constructed S.stream values.old) result (of_constructed S.stream values.new) }
{
    let mode = values.mode();
    if mode == Mode::Der {
        return Err(values.refusal("a constructed octet string"));
    }
    let captured = match values.capture_all(alloc) {
        Ok(captured) => captured,
        Err(error) => return Err(error),
    };
    match table_of(alloc, mode, captured.as_slice()) {
        Ok(Some(table)) => Ok(OctetString::of_segments(captured, table)),
        Ok(None) => Err(values.refusal("no segments of an octet string")),
        Err(_) => Err(DecodeError::no_memory()),
    }
}

#[tactic(auto, using(crate::specs::laws::Moved::untouched_is_moved))]
impl OctetString {
    /// Takes the next value, which has to be an OCTET STRING.
    ///
    /// # Errors
    ///
    /// Returns the errors of [`take_opt_from`](Self::take_opt_from), and
    /// `ContentError::ExpectedTag` if that returns `None`. The content then stays usable.
    #[inline(always)]
    pub fn take_from<S: Source>(
        alloc: Global,
        cons: &mut Constructed<'_, S>,
    ) -> Result<Self, DecodeError<S::Error>>
        ensures moves { Moved S.stream cons }
        ensures took { TakesOneTree octet_string_tag (MeansString cons.old.mode)
            (of_constructed S.stream cons.old) result (of_constructed S.stream cons.new) }
    {
        match OctetString::take_opt_if(alloc, cons, Tag::OCTET_STRING) {
            Ok(Some(string)) => Ok(string),
            Ok(None) => Err(cons.expected_tag_error(Tag::OCTET_STRING)),
            Err(error) => Err(error),
        }
    }

    /// Takes the next value if it is an OCTET STRING. Returns `None` at the end and at a value of
    /// another tag, which stays.
    ///
    /// A string in one piece shares its octets with the source if the source shares them. If the
    /// string is cut into segments (X.690, 8.7.3), their encodings are captured, and a table says
    /// where each segment is. Segments may be nested to any depth.
    ///
    /// In CER a string in one piece has at most 1000 octets. A string that is cut has two segments
    /// or more, each of 1000 octets but the last, which has 1 to 1000 (9.2). In DER a string is in
    /// one piece (10.2).
    ///
    /// # Errors
    ///
    /// Returns an error, and the content has then failed, if
    ///
    /// - the next value has the tag but is no octet string in the content's mode, or the octets are
    ///   no value;
    /// - an earlier value was refused;
    /// - the source fails;
    /// - there is no memory for the octets, for the table, or for a segment that is open at a depth
    ///   of four or more.
    #[inline(always)]
    pub fn take_opt_from<S: Source>(
        alloc: Global,
        cons: &mut Constructed<'_, S>,
    ) -> Result<Option<Self>, DecodeError<S::Error>>
        ensures moves { Moved S.stream cons }
        ensures took { TakesNextTree octet_string_tag (MeansString cons.old.mode)
            (of_constructed S.stream cons.old) result (of_constructed S.stream cons.new) }
    {
        OctetString::take_opt_if(alloc, cons, Tag::OCTET_STRING)
    }

    /// Takes the next value as a string if it has this tag. Returns `None` at the end and at a
    /// value of another tag, which stays.
    ///
    /// This reads a string with an implicit tag, which stands in place of the tag of OCTET STRING
    /// (X.690, 8.14.4):
    ///
    /// ```text
    /// let key = OctetString::take_opt_if(alloc, cons, Tag::CTX_0)?;
    /// ```
    ///
    /// The value is otherwise read as by [`take_opt_from`](Self::take_opt_from). Whatever its tag,
    /// segments have the tag of OCTET STRING (8.7.3.2).
    ///
    /// # Errors
    ///
    /// Returns the errors of `take_opt_from`, of a value with this tag. The content has then
    /// failed.
    #[inline(always)]
    pub fn take_opt_if<S: Source>(
        alloc: Global,
        cons: &mut Constructed<'_, S>,
        tag: Tag,
    ) -> Result<Option<Self>, DecodeError<S::Error>>
        ensures moves { Moved S.stream cons }
        ensures took { TakesNextTree tag (MeansString cons.old.mode)
            (of_constructed S.stream cons.old) result (of_constructed S.stream cons.new) }
    {
        match cons.next_header(Wanted::Tagged(tag)) {
            // Each form has its own closure, so that a string in one piece is made where it is
            // returned.
            Ok(Some(header)) => {
                if header.form.is_constructed() {
                    cons.take_constructed_body(header, |values| from_constructed(alloc, values))
                } else {
                    match cons.take_primitive_body(header, |octets| take_piece(alloc, octets)) {
                        Ok(Some(octets)) => Ok(Some(OctetString::new(octets))),
                        Ok(None) => Ok(None),
                        Err(error) => Err(error),
                    }
                }
            }
            Ok(None) => Ok(None),
            Err(stop) => Err(cons.stop_error(stop)),
        }
    }

    /// Takes all content of a value as an octet string, whatever the tag of the value.
    ///
    /// # Errors
    ///
    /// Returns an error if the content is that of no octet string in its mode (see
    /// [`take_opt_from`]), if an earlier value was refused, if the source fails, or if memory runs
    /// out. Some of the content may then have been taken.
    ///
    /// [`take_opt_from`]: Self::take_opt_from
    pub fn from_content<S: Source>(
        alloc: Global,
        content: &mut Content<'_, S>,
    ) -> Result<Self, DecodeError<S::Error>>
        ensures moves { MovedContent S.stream content }
        ensures read { ReadsAny MeansString (content_before S.stream content) result
            (content_after S.stream content) }
    {
        match content {
            Content::Primitive(octets) => match take_piece(alloc, octets) {
                Ok(octets) => Ok(OctetString::new(octets)),
                Err(error) => Err(error),
            },
            Content::Constructed(values) => from_constructed(alloc, values),
        }
    }
}
