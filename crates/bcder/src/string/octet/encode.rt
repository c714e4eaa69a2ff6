//! Octet strings as encoders (X.690, 8.7, 9.2, 10.2).
ghost use Rattle.std.specs.Prelude.{◌≡◌};
ghost use Rattle.bcder.specs.x690.OctetString.{octet_string_tag};
ghost use Rattle.bcder.specs.calls.Encoders.{HasEncoding, SizeOfValues, WritesParts};
ghost use Rattle.bcder.specs.calls.Encoders.{into_result};
ghost use Rattle.bcder.specs.calls.Noted.{ReadsNone};
ghost use Rattle.bcder.specs.calls.StringMeaning.{StringMeans};
ghost use Rattle.bcder.specs.calls.Written.{IsMadeUp};
ghost use Rattle.bcder.specs.laws.StringMeanings.{StringMeans_lawful};

use super::write::{octets_len, put_octets, put_string, string_len};
use super::{OctetString, Octets};
use crate::encode::sizes::{Inside, Sizes, SizesLeft};
use crate::encode::values::Encoder;
use crate::encode::{Constructed, EncodeError, Failed, Values, WriteError};
use crate::mode::Mode;
use crate::tag::Tag;
use std::io;

/// An encoder of an octet string. `T` is the string, or a reference to it.
///
/// - In BER the string is written as it came: as one primitive value, or, if it was cut into
///   segments, as a constructed value of definite length with these inside (8.7.3).
/// - In DER it is one primitive value (10.2).
/// - In CER it is one primitive value of at most 1000 octets. A longer string is a constructed
///   value with segments of 1000 octets, the last with the octets that are left (9.2).
#[derive(Clone, Debug, Drop)]
pub struct OctetStringEncoder<T> {
    value: T,
    tag: Tag,
}

impl OctetString {
    /// Creates an encoder of the string as an OCTET STRING.
    pub fn encode(self) -> OctetStringEncoder<OctetString>
        ensures { result ≡ record { value = self; tag = octet_string_tag } }
    {
        self.encode_as(Tag::OCTET_STRING)
    }

    /// Creates an encoder of the string with another tag.
    pub fn encode_as(self, tag: Tag) -> OctetStringEncoder<OctetString>
        ensures { result ≡ record { value = self; tag = tag } }
    {
        OctetStringEncoder { value: self, tag }
    }

    /// Creates an encoder of a reference to the string, as an OCTET STRING.
    pub fn encode_ref(&self) -> OctetStringEncoder<&OctetString>
        ensures { result ≡ record { value = self.entry; tag = octet_string_tag } }
    {
        self.encode_ref_as(Tag::OCTET_STRING)
    }

    /// Creates an encoder of a reference to the string, with another tag.
    pub fn encode_ref_as(&self, tag: Tag) -> OctetStringEncoder<&OctetString>
        ensures { result ≡ record { value = self.entry; tag = tag } }
    {
        OctetStringEncoder { value: self, tag }
    }
}

// What a string is made of, for proofs only.
pub(crate) fn see_string(string: &OctetString)
    ensures { IsMadeUp string.now }
{
    match &string.octets {
        Octets::Whole(octets) => {
            let slice = octets.as_slice();
            let _slice = slice;
        }
        Octets::Cut(..) => {}
    }
}

/// Returns the number of octets of the value, or its refusal.
fn size_of(string: &OctetString, tag: Tag, mode: Mode) -> Result<usize, EncodeError>
    ensures { SizeOfValues (StringMeans tag string.now mode) ⊥ result }
{
    match &string.octets {
        Octets::Whole(octets) => octets_len(tag, octets.as_slice(), mode),
        Octets::Cut(kept, _) => match mode {
            Mode::Ber => Constructed::new(tag, kept).encoded_len(mode),
            Mode::Cer | Mode::Der => string_len(tag, mode, string.len()),
        },
    }
}

/// Writes the string, which is known to have an encoding.
fn put<W: io::Write>(
    string: &OctetString,
    tag: Tag,
    mode: Mode,
    target: &mut W,
    why: &mut WriteError,
) -> Result<(), Failed>
    requires { HasEncoding (StringMeans tag string.now mode) }
    ensures { WritesParts W.contents target (StringMeans tag string.now mode) ⊥
        (into_result result why.new) }
{
    match &string.octets {
        Octets::Whole(octets) => put_octets(tag, octets.as_slice(), mode, target, why),
        Octets::Cut(kept, _) => match mode {
            Mode::Ber => Constructed::new(tag, kept).write_known::<Inside, _>(
                mode,
                &mut SizesLeft::none(),
                target,
                why,
            ),
            Mode::Cer | Mode::Der => {
                put_string(tag, mode, string.len(), string.iter(), target, why)
            }
        },
    }
}

impl Encoder for OctetStringEncoder<OctetString> {
    ghost all = { λ x mode. StringMeans x.tag x.value mode };

    ghost takes = { λ _ _. ReadsNone };

    #[inline(always)]
    #[tactic(auto, using(crate::proofs::Noting::nothing_noted))]
    fn measured<Pass>(&self, mode: Mode, _sizes: &mut Sizes) -> Result<usize, EncodeError> {
        size_of(&self.value, self.tag, mode)
    }

    #[tactic(auto, using(crate::proofs::Noting::none_read))]
    fn put<Pass, W: io::Write>(
        &self,
        mode: Mode,
        _sizes: &mut SizesLeft<'_>,
        target: &mut W,
        why: &mut WriteError,
    ) -> Result<(), Failed> {
        put(&self.value, self.tag, mode, target, why)
    }

    ghost one = { λ x mode can. StringMeans_lawful x.tag x.value mode };
}

impl Encoder for OctetStringEncoder<&'_ OctetString> {
    ghost all = { λ x mode. StringMeans x.tag x.value.now mode };

    ghost takes = { λ _ _. ReadsNone };

    #[inline(always)]
    #[tactic(auto, using(crate::proofs::Noting::nothing_noted))]
    fn measured<Pass>(&self, mode: Mode, _sizes: &mut Sizes) -> Result<usize, EncodeError> {
        size_of(self.value, self.tag, mode)
    }

    #[tactic(auto, using(crate::proofs::Noting::none_read))]
    fn put<Pass, W: io::Write>(
        &self,
        mode: Mode,
        _sizes: &mut SizesLeft<'_>,
        target: &mut W,
        why: &mut WriteError,
    ) -> Result<(), Failed> {
        put(self.value, self.tag, mode, target, why)
    }

    ghost one = { λ x mode can. StringMeans_lawful x.tag x.value.now mode };
}
