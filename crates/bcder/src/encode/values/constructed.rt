//! Encoders of constructed values.
ghost use Rattle.std.specs.Prelude.{◌≡◌, ◌<◌, [], length, true, IfOk};
ghost use Rattle.bcder.specs.declared.mode.Mode.TheVariants.{Cer};
ghost use Rattle.bcder.specs.x690.Identifier.{sequence_tag, set_tag, identifier as identifier_of};
ghost use Rattle.bcder.specs.x690.Octets.{fits_length, constructed_length};
ghost use Rattle.bcder.specs.calls.Meaning.{ValueMeans, constructed_meaning};
ghost use Rattle.bcder.specs.calls.Encoders.{HasEncoding, SizeOfValues, WroteOctets, WritesKnown};
ghost use Rattle.bcder.specs.calls.Encoders.{into_result};
ghost use Rattle.bcder.specs.calls.Noted.{noted, ReadsContents, Notes, MayRead, HasRead};
ghost use Rattle.bcder.specs.steps.Enclosing.{EnclosedSize, MeasuredInside, TakesContents};
ghost use Rattle.bcder.specs.steps.Enclosing.{TellsLength, WritesEnclosed};
ghost use Rattle.bcder.specs.steps.Places.{ReservesContents, FillsContents};
ghost use Rattle.bcder.specs.laws.Meanings.{constructed_lawful};

use crate::encode::header::put_header;
use crate::encode::sizes::{Again, Inside, Sizes, SizesLeft};
use crate::encode::slot::{Failed, into_result, slot, store_refusal};
use crate::encode::target::put_all;
use crate::encode::values::{Encoder, Values};
use crate::encode::{EncodeError, WriteError};
use crate::length::Length;
use crate::mode::Mode;
use crate::tag::Tag;
use std::io;

/// An encoder of one constructed value: a tag, and an encoder of the values inside.
#[derive(Clone, Copy, Debug, Drop)]
pub struct Constructed<V> {
    tag: Tag,
    inner: V,
}

impl<V> Constructed<V> {
    /// Creates an encoder of a value with the tag and the values of `inner` inside.
    pub fn new(tag: Tag, inner: V) -> Self
        ensures { result ≡ record { tag = tag; inner = inner } }
    {
        Constructed { tag, inner }
    }
}

/// Creates an encoder of a SEQUENCE of the values.
pub fn sequence<V>(inner: V) -> Constructed<V>
    ensures { result ≡ record { tag = sequence_tag; inner = inner } }
{
    Constructed::new(Tag::SEQUENCE, inner)
}

/// Creates an encoder of a SEQUENCE of the values with another tag.
pub fn sequence_as<V>(tag: Tag, inner: V) -> Constructed<V>
    ensures { result ≡ record { tag = tag; inner = inner } }
{
    Constructed::new(tag, inner)
}

/// Creates an encoder of a SET of the values, in the order that they have.
pub fn set<V>(inner: V) -> Constructed<V>
    ensures { result ≡ record { tag = set_tag; inner = inner } }
{
    Constructed::new(Tag::SET, inner)
}

/// Creates an encoder of a SET of the values with another tag.
pub fn set_as<V>(tag: Tag, inner: V) -> Constructed<V>
    ensures { result ≡ record { tag = tag; inner = inner } }
{
    Constructed::new(tag, inner)
}

/// Returns the size of a constructed value with `len` contents octets.
#[inline(always)]
pub(crate) fn enclosed_size(tag: Tag, mode: Mode, len: usize) -> Result<usize, EncodeError>
    ensures { EnclosedSize mode tag len result }
{
    size_behind(tag.encoded_len(), tag, mode, len)
}

/// Returns the size of a constructed value with `len` contents octets, if its identifier is known
/// to have `identifier` octets.
#[inline(always)]
#[tactic(auto, unfolding(crate::specs::x690::Octets::definite_length))]
fn size_behind(identifier: usize, _tag: Tag, mode: Mode, len: usize) -> Result<usize, EncodeError>
    requires small { identifier < 5 }
    requires known { identifier ≡ length (identifier_of _tag true) }
    ensures { EnclosedSize mode _tag len result }
{
    match mode {
        Mode::Cer => {
            if len > usize::MAX - 3 - identifier {
                return Err(EncodeError::SizeOverflow);
            }
            Ok(identifier + 1 + len + 2)
        }
        Mode::Ber | Mode::Der => {
            if len < 0x80 {
                return Ok(identifier + 1 + len);
            }
            if len > 0xFFFF_FFFF {
                return Err(EncodeError::LengthTooLarge);
            }
            Ok(identifier + Length::Definite(len).octet_count() + len)
        }
    }
}

/// Returns the number of contents octets of a constructed value. If length octets need it, it is
/// noted ahead of the sizes inside.
#[inline(always)]
fn note_contents<Pass, V: Values>(
    inner: &V,
    mode: Mode,
    sizes: &mut Sizes,
) -> Result<usize, EncodeError>
    requires { V.can_encode inner.now }
    ensures sized { SizeOfValues (V.means inner.now mode) (V.may_lack inner.now mode) result }
    ensures noted { IfOk result (λ _. Notes
        (ReadsContents mode (V.means inner.now mode) (V.reads inner.now mode))
        sizes.old sizes.new) }
{
    let place = reserve_contents(mode, sizes);
    let len = inner.note_sizes::<Pass>(mode, sizes)?;
    fill_contents(mode, place, len, sizes);
    Ok(len)
}

/// Reserves a place for the size of contents. In CER none is needed.
#[inline(always)]
fn reserve_contents(mode: Mode, sizes: &mut Sizes) -> usize
    ensures { ReservesContents mode sizes.old result sizes.new }
{
    match mode {
        Mode::Cer => 0,
        Mode::Ber | Mode::Der => sizes.reserve(),
    }
}

/// Puts the size of contents into the place that was reserved for it.
#[inline(always)]
fn fill_contents(mode: Mode, place: usize, size: usize, sizes: &mut Sizes)
    ensures { FillsContents mode sizes.old place size sizes.new }
{
    match mode {
        Mode::Cer => {}
        Mode::Ber | Mode::Der => sizes.fill(place, size),
    }
}

/// Returns the next size that is left, for the length octets of a value. In CER none is needed, and
/// it returns 0.
#[inline(always)]
fn next_size(mode: Mode, sizes: &mut SizesLeft<'_>) -> Option<usize>
    ensures { TakesContents mode sizes.old.sizes.now result sizes.new.sizes.now }
{
    match mode {
        Mode::Cer => Some(0),
        Mode::Ber | Mode::Der => sizes.next(),
    }
}

/// Writes the value in CER, with end-of-contents octets (X.690, 9.1).
fn put_indefinite<Pass, V: Values, W: io::Write>(
    value: &Constructed<V>,
    sizes: &mut SizesLeft<'_>,
    target: &mut W,
    why: &mut WriteError,
) -> Result<(), Failed>
    requires can { V.can_encode value.now.inner }
    requires known { HasEncoding (V.means value.now.inner Cer) }
    requires sized { MayRead (V.reads value.now.inner Cer) sizes.old.sizes.now }
    ensures written { WritesEnclosed W.contents target value.now.tag 0 Cer
        (V.means value.now.inner Cer) (V.may_lack value.now.inner Cer)
        (into_result result why.new) }
    ensures left { IfOk result (λ _.
        HasRead (V.reads value.now.inner Cer) sizes.old.sizes.now sizes.new.sizes.now) }
{
    put_header(target, value.tag, true, Length::Indefinite, why)?;
    value
        .inner
        .write_known::<Inside, _>(Mode::Cer, sizes, target, why)?;
    put_all(target, &[0x00, 0x00], why)
}

/// Writes the value in BER or DER, with a definite length (X.690, 10.1).
fn put_definite<Pass, V: Values, W: io::Write>(
    value: &Constructed<V>,
    size: usize,
    mode: Mode,
    sizes: &mut SizesLeft<'_>,
    target: &mut W,
    why: &mut WriteError,
) -> Result<(), Failed>
    requires told { TellsLength mode size }
    requires can { V.can_encode value.now.inner }
    requires known { HasEncoding (V.means value.now.inner mode) }
    requires sized { MayRead (V.reads value.now.inner mode) sizes.old.sizes.now }
    ensures written { WritesEnclosed W.contents target value.now.tag size mode
        (V.means value.now.inner mode) (V.may_lack value.now.inner mode)
        (into_result result why.new) }
    ensures left { IfOk result (λ _.
        HasRead (V.reads value.now.inner mode) sizes.old.sizes.now sizes.new.sizes.now) }
{
    put_header(target, value.tag, true, Length::Definite(size), why)?;
    value
        .inner
        .write_known::<Inside, _>(mode, sizes, target, why)
}

/// Writes the value. What is inside has `size` octets if the length octets need the size.
#[inline(always)]
fn put_enclosed<Pass, V: Values, W: io::Write>(
    value: &Constructed<V>,
    size: usize,
    mode: Mode,
    sizes: &mut SizesLeft<'_>,
    target: &mut W,
    why: &mut WriteError,
) -> Result<(), Failed>
    requires fits { fits_length (constructed_length mode size) ≡ true }
    requires can { V.can_encode value.now.inner }
    requires known { HasEncoding (V.means value.now.inner mode) }
    requires sized { MayRead (V.reads value.now.inner mode) sizes.old.sizes.now }
    ensures written { WritesEnclosed W.contents target value.now.tag size mode
        (V.means value.now.inner mode) (V.may_lack value.now.inner mode)
        (into_result result why.new) }
    ensures left { IfOk result (λ _.
        HasRead (V.reads value.now.inner mode) sizes.old.sizes.now sizes.new.sizes.now) }
{
    match mode {
        Mode::Cer => put_indefinite::<Pass, _, _>(value, sizes, target, why),
        Mode::Ber | Mode::Der => put_definite::<Pass, _, _>(value, size, mode, sizes, target, why),
    }
}

/// Writes a value that is known to have an encoding, but whose size isn't noted. It is measured
/// once more, and the sizes inside are noted anew.
fn put_measured<V: Values, W: io::Write>(
    value: &Constructed<V>,
    mode: Mode,
    target: &mut W,
    why: &mut WriteError,
) -> Result<(), Failed>
    requires can { V.can_encode value.now.inner }
    requires known { HasEncoding (ValueMeans value.now.tag
        (constructed_meaning value.now.tag mode) (V.means value.now.inner mode)) }
    ensures { WritesKnown W.contents target (ValueMeans value.now.tag
        (constructed_meaning value.now.tag mode) (V.means value.now.inner mode))
        (V.may_lack value.now.inner mode) (into_result result why.new) }
{
    let mut sizes = Sizes::new();
    match value.inner.note_sizes::<Again>(mode, &mut sizes) {
        Ok(size) => put_enclosed::<Again, _, _>(value, size, mode, &mut sizes.left(), target, why),
        Err(error) => Err(store_refusal(why, error)),
    }
}

impl<V: Values> Encoder for Constructed<V> {
    ghost all = { λ x mode.
        ValueMeans x.tag (constructed_meaning x.tag mode) (V.means x.inner mode) };

    ghost lacks = { λ x mode. V.may_lack x.inner mode };

    ghost takes = { λ x mode. ReadsContents mode (V.means x.inner mode) (V.reads x.inner mode) };

    ghost can = { λ x. V.can_encode x.inner };

    #[inline(always)]
    fn measured<Pass>(&self, mode: Mode, sizes: &mut Sizes) -> Result<usize, EncodeError> {
        let Some(identifier) = self.tag.value_len() else {
            return Err(EncodeError::EndOfValueTag);
        };
        let contents = note_contents::<Pass, _>(&self.inner, mode, sizes)?;
        let whole = size_behind(identifier, self.tag, mode, contents)?;
        Ok(whole)
    }

    #[inline(always)]
    fn put<Pass, W: io::Write>(
        &self,
        mode: Mode,
        sizes: &mut SizesLeft<'_>,
        target: &mut W,
        why: &mut WriteError,
    ) -> Result<(), Failed> {
        match next_size(mode, sizes) {
            Some(size) => put_enclosed::<Pass, _, _>(self, size, mode, sizes, target, why),
            None => put_measured(self, mode, target, why),
        }
    }

    ghost one = { λ x mode can. constructed_lawful x.tag (V.lawful x.inner mode can) };
}
