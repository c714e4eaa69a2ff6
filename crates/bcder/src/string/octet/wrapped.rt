//! Encodings inside an octet string (X.690, 8.7, 9.2, 10.2).
ghost use Rattle.std.specs.Prelude.{◌≡◌, ◌<◌, ◌^◌, ◌⊎◌, IfOk};
ghost use Rattle.bcder.specs.x690.OctetString.{octet_string_tag};
ghost use Rattle.bcder.specs.calls.Encoders.{HasEncoding, SizeOfValues, WritesParts};
ghost use Rattle.bcder.specs.calls.Encoders.{into_result};
ghost use Rattle.bcder.specs.calls.Noted.{HasSize, ReadsInside, MayRead, HasRead};
ghost use Rattle.bcder.specs.steps.Segmenting.{WritesInside};
ghost use Rattle.bcder.specs.calls.StringMeaning.{WrappedMeans, IsGathered};
ghost use Rattle.bcder.specs.laws.StringMeanings.{WrappedMeans_lawful};

use super::OctetString;
use super::write::{is_cut, put_octets, string_len};
use crate::encode::buffer::Buffer;
use crate::encode::header::put_header;
use crate::encode::sizes::{Again, Inside, Sizes, SizesLeft};
use crate::encode::slot::{Failed, store_refusal};
use crate::encode::target::put_all;
use crate::encode::values::{Encoder, note_inside};
use crate::encode::{EncodeError, Values, WriteError};
use crate::length::Length;
use crate::mode::Mode;
use crate::tag::Tag;
use std::alloc::Global;
use std::io;

/// An encoder of an OCTET STRING that contains the encoding of values.
///
/// The values have a mode of their own, and their encoding in it is the octets of the string. In
/// BER and DER the string is one primitive value. In CER it is one primitive value of at most 1000
/// octets. A longer string is a constructed value with segments of 1000 octets, the last with the
/// octets that are left (9.2). Only then are the octets gathered in memory before they are written;
/// otherwise they are written straight to the target.
#[derive(Clone, Debug, Drop)]
pub struct WrappingOctetStringEncoder<V> {
    values: V,
    mode: Mode,
    alloc: Global,
}

impl OctetString {
    /// Creates an encoder of an OCTET STRING that contains the encoding of values in a mode.
    pub fn encode_wrapped<V: Values>(
        alloc: Global,
        mode: Mode,
        values: V,
    ) -> WrappingOctetStringEncoder<V>
        ensures values { result.values ≡ values }
        ensures mode { result.mode ≡ mode }
    {
        WrappingOctetStringEncoder {
            values,
            mode,
            alloc,
        }
    }
}

/// Writes a primitive value with the encoding inside, which has `len` octets. Up to 64 octets are
/// written by one call of the target's `write`, if that takes all of it.
fn put_straight<V: Values, W: io::Write>(
    values: &V,
    inner: Mode,
    len: usize,
    sizes: &mut SizesLeft<'_>,
    target: &mut W,
    why: &mut WriteError,
) -> Result<(), Failed>
    requires can { V.can_encode values.now }
    requires known { HasEncoding (V.means values.now inner) }
    requires size { HasSize (V.means values.now inner) len }
    requires sized { MayRead (V.reads values.now inner) sizes.old.sizes.now }
    requires fits { len < 2 ^ 32 }
    ensures written { WritesInside W.contents target
        (V.means values.now inner) (V.may_lack values.now inner) (into_result result why.new) }
    ensures left { IfOk result (λ _.
        HasRead (V.reads values.now inner) sizes.old.sizes.now sizes.new.sizes.now) }
{
    if len > 64 {
        put_header(target, Tag::OCTET_STRING, false, Length::Definite(len), why)?;
        return values.write_known::<Inside, _>(inner, sizes, target, why);
    }
    let mut buffer = Buffer::new();
    Tag::OCTET_STRING.spell(false, &mut buffer);
    Length::Definite(len).spell(&mut buffer);
    values.write_known::<Inside, _>(inner, sizes, &mut buffer, why)?;
    put_all(target, buffer.as_slice(), why)
}

/// Writes the string from octets that are gathered first.
#[cold]
fn put_gathered<V: Values, W: io::Write>(
    values: &V,
    inner: Mode,
    alloc: Global,
    mode: Mode,
    target: &mut W,
    why: &mut WriteError,
) -> Result<(), Failed>
    requires can { V.can_encode values.now }
    requires known { HasEncoding
        (WrappedMeans octet_string_tag mode (V.means values.now inner)) }
    ensures { WritesParts W.contents target
        (WrappedMeans octet_string_tag mode (V.means values.now inner))
        (V.may_lack values.now inner ⊎ HasEncoding (V.means values.now inner))
        (into_result result why.new) }
{
    match values.to_captured(alloc, inner) {
        Ok(gathered) => put_octets(Tag::OCTET_STRING, gathered.as_slice(), mode, target, why),
        Err(error) => Err(store_refusal(why, error)),
    }
}

/// Writes the string, which is known to have an encoding, with `len` octets inside.
fn put_wrapped<V: Values, W: io::Write>(
    wrapped: &WrappingOctetStringEncoder<V>,
    len: usize,
    mode: Mode,
    sizes: &mut SizesLeft<'_>,
    target: &mut W,
    why: &mut WriteError,
) -> Result<(), Failed>
    requires can { V.can_encode wrapped.now.values }
    requires known { HasEncoding
        (WrappedMeans octet_string_tag mode (V.means wrapped.now.values wrapped.now.mode)) }
    requires size { HasSize (V.means wrapped.now.values wrapped.now.mode) len }
    requires sized { MayRead (V.reads wrapped.now.values wrapped.now.mode) sizes.old.sizes.now }
    ensures written { WritesParts W.contents target
        (WrappedMeans octet_string_tag mode (V.means wrapped.now.values wrapped.now.mode))
        (V.may_lack wrapped.now.values wrapped.now.mode
        ⊎ IsGathered mode (V.means wrapped.now.values wrapped.now.mode))
        (into_result result why.new) }
    ensures left { IfOk result (λ _. HasRead
        (V.reads wrapped.now.values wrapped.now.mode) sizes.old.sizes.now sizes.new.sizes.now) }
{
    if is_cut(mode, len) {
        sizes.clear();
        put_gathered(
            &wrapped.values,
            wrapped.mode,
            wrapped.alloc,
            mode,
            target,
            why,
        )
    } else {
        put_straight(&wrapped.values, wrapped.mode, len, sizes, target, why)
    }
}

/// Writes a string that is known to have an encoding, but whose size isn't noted. It is measured
/// once more, and the sizes inside are noted anew.
fn put_measured<V: Values, W: io::Write>(
    wrapped: &WrappingOctetStringEncoder<V>,
    mode: Mode,
    target: &mut W,
    why: &mut WriteError,
) -> Result<(), Failed>
    requires can { V.can_encode wrapped.now.values }
    requires known { HasEncoding
        (WrappedMeans octet_string_tag mode (V.means wrapped.now.values wrapped.now.mode)) }
    ensures { WritesParts W.contents target
        (WrappedMeans octet_string_tag mode (V.means wrapped.now.values wrapped.now.mode))
        (V.may_lack wrapped.now.values wrapped.now.mode
        ⊎ IsGathered mode (V.means wrapped.now.values wrapped.now.mode))
        (into_result result why.new) }
{
    let mut sizes = Sizes::new();
    match wrapped.values.note_sizes::<Again>(wrapped.mode, &mut sizes) {
        Ok(len) => put_wrapped(wrapped, len, mode, &mut sizes.left(), target, why),
        Err(error) => Err(store_refusal(why, error)),
    }
}

impl<V: Values> WrappingOctetStringEncoder<V> {
    /// Returns the number of octets, like any encoder. Nothing is gathered, so memory runs out only
    /// if it may for the values.
    pub fn encoded_len(&self, mode: Mode) -> Result<usize, EncodeError>
        requires { V.can_encode self.now.values }
        ensures sized { SizeOfValues
            (WrappedMeans octet_string_tag mode (V.means self.now.values self.now.mode))
            (V.may_lack self.now.values self.now.mode
            ⊎ IsGathered mode (V.means self.now.values self.now.mode)) result }
        ensures memory { SizeOfValues
            (WrappedMeans octet_string_tag mode (V.means self.now.values self.now.mode))
            (V.may_lack self.now.values self.now.mode) result }
    {
        let len = self.values.encoded_len(self.mode)?;
        string_len(Tag::OCTET_STRING, mode, len)
    }
}

impl<V: Values> Encoder for WrappingOctetStringEncoder<V> {
    ghost all = { λ x mode. WrappedMeans octet_string_tag mode (V.means x.values x.mode) };

    ghost lacks = { λ x mode.
        V.may_lack x.values x.mode ⊎ IsGathered mode (V.means x.values x.mode) };

    ghost takes = { λ x mode.
        ReadsInside (V.means x.values x.mode) (V.reads x.values x.mode) };

    ghost can = { λ x. V.can_encode x.values };

    fn measured<Pass>(&self, mode: Mode, sizes: &mut Sizes) -> Result<usize, EncodeError> {
        let len = note_inside::<Pass, _>(&self.values, self.mode, sizes)?;
        string_len(Tag::OCTET_STRING, mode, len)
    }

    fn put<Pass, W: io::Write>(
        &self,
        mode: Mode,
        sizes: &mut SizesLeft<'_>,
        target: &mut W,
        why: &mut WriteError,
    ) -> Result<(), Failed> {
        match sizes.next() {
            Some(len) => put_wrapped(self, len, mode, sizes, target, why),
            None => put_measured(self, mode, target, why),
        }
    }

    ghost one = { λ x mode can.
        WrappedMeans_lawful octet_string_tag mode x.mode (V.lawful x.values x.mode can) };
}
