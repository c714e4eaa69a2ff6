//! Writing bit strings (X.690, 8.6.2, 9.2, 11.2.1).
ghost use Rattle.std.specs.Prelude.{◌≡◌, ◌≢◌, ◌+◌, ◌<◌, ◌≤◌, ◌^◌, ◌++◌, ◌∷◌, [], List, ℕ};
ghost use Rattle.std.specs.Prelude.{length, false};
ghost use Rattle.bcder.specs.declared.encode.error.EncodeError.TheVariants.{LongCerPrimitive};
ghost use Rattle.bcder.specs.declared.encode.error.EncodeError.TheVariants.{NoMemory};
ghost use Rattle.bcder.specs.x690.BitString.{as_written, contents_octets};
ghost use Rattle.bcder.specs.calls.Encoders.{HasContents, SizeOfContents, WritesContents};
ghost use Rattle.bcder.specs.calls.Encoders.{WritesPrimitive, WroteOctets, into_result};
ghost use Rattle.bcder.specs.steps.Buffer.{buffered};
ghost use Rattle.bcder.specs.x690.Identifier.{universal};
ghost use Rattle.bcder.specs.calls.Meaning.{BitsMean};
ghost use Rattle.bcder.specs.x690.Octets.{definite};
ghost use Rattle.bcder.specs.laws.Meanings.{BitsMean_lawful};

use super::BitString;
use super::contents::cleared_octet;
use crate::encode::buffer::Buffer;
use crate::encode::header::put_header_and;
use crate::encode::primitive::plain::fits_primitive;
use crate::encode::slot::{Failed, into_result, slot, store_refusal};
use crate::encode::target::put_all;
use crate::encode::{EncodeError, PrimitiveContent, WriteError};
use crate::length::Length;
use crate::mode::Mode;
use crate::tag::Tag;
use std::io;

/// Returns the last octet as the mode has it written, if `unused` of its bits are unused (11.2.1).
fn written_octet(mode: Mode, unused: u8, last: u8) -> u8
    ensures { (front : List ℕ) →
        (as_written mode (record { unused = unused; octets = front ++ last ∷ [] })).octets
        ≡ front ++ result ∷ [] }
{
    match mode {
        Mode::Ber => last,
        Mode::Cer | Mode::Der => cleared_octet(unused, last),
    }
}

/// Writes the octets of the bits. They are written at once if the unused bits already are as the
/// mode requires, otherwise the last octet is written separately.
fn put_octets<W: io::Write>(
    unused: u8,
    octets: &[u8],
    mode: Mode,
    target: &mut W,
    why: &mut WriteError,
) -> Result<(), Failed>
    ensures { WroteOctets W.contents target
        (as_written mode (record { unused = unused; octets = octets.now })).octets
        (into_result result why.new) }
{
    match octets {
        [] => put_all(target, octets, why),
        [front @ .., last] => {
            let written = written_octet(mode, unused, *last);
            if written == *last {
                return put_all(target, octets, why);
            }
            put_all(target, front, why)?;
            put_all(target, &[written], why)
        }
    }
}

/// Returns the number of contents octets of a bit string, if a primitive one may have that many in
/// the mode (9.2).
pub(super) fn bits_len(
    _unused: u8,
    octets: &[u8],
    mode: Mode,
    refusal: EncodeError,
) -> Result<usize, EncodeError>
    requires { refusal ≢ NoMemory }
    ensures { SizeOfContents (BitsMean refusal mode
        (record { unused = _unused; octets = octets.now })) ⊥ result }
{
    let len = 1 + octets.len();
    if fits_primitive(mode, len) {
        Ok(len)
    } else {
        Err(refusal)
    }
}

/// Writes the contents octets of a bit string, if a primitive one may have that many in the mode.
pub(super) fn write_bits<W: io::Write>(
    unused: u8,
    octets: &[u8],
    mode: Mode,
    refusal: EncodeError,
    target: &mut W,
) -> Result<(), WriteError>
    requires { refusal ≢ NoMemory }
    ensures { WritesContents W.contents target (BitsMean refusal mode
        (record { unused = unused; octets = octets.now })) ⊥ result }
{
    let mut why = slot();
    let outcome = put_bits(unused, octets, mode, refusal, target, &mut why);
    into_result(outcome, why)
}

/// Writes the contents octets of a bit string like `write_bits`, and stores the error in a slot.
fn put_bits<W: io::Write>(
    unused: u8,
    octets: &[u8],
    mode: Mode,
    refusal: EncodeError,
    target: &mut W,
    why: &mut WriteError,
) -> Result<(), Failed>
    requires { refusal ≢ NoMemory }
    ensures { WritesContents W.contents target (BitsMean refusal mode
        (record { unused = unused; octets = octets.now })) ⊥ (into_result result why.new) }
{
    if !fits_primitive(mode, 1 + octets.len()) {
        return Err(store_refusal(why, refusal));
    }
    put_contents(unused, octets, mode, target, why)
}

/// Writes the contents octets.
fn put_contents<W: io::Write>(
    unused: u8,
    octets: &[u8],
    mode: Mode,
    target: &mut W,
    why: &mut WriteError,
) -> Result<(), Failed>
    ensures { WroteOctets W.contents target
        (contents_octets (as_written mode (record { unused = unused; octets = octets.now })))
        (into_result result why.new) }
{
    put_all(target, &[unused], why)?;
    put_octets(unused, octets, mode, target, why)
}

/// Appends the octets of the bits to those of a value.
fn add_octets(unused: u8, octets: &[u8], mode: Mode, buffer: &mut Buffer)
    requires { buffer.old.len + length octets.now ≤ 73 }
    ensures { buffered buffer.new ≡ buffered buffer.old
        ++ (as_written mode (record { unused = unused; octets = octets.now })).octets }
{
    if let [before @ .., last] = octets {
        buffer.add(before);
        buffer.add(&[written_octet(mode, unused, *last)]);
    }
}

/// Writes a bit string with at most 64 contents octets as a primitive value, by one call of the
/// target's `write` if that takes all of it.
fn put_few<W: io::Write>(
    unused: u8,
    octets: &[u8],
    tag: Tag,
    mode: Mode,
    target: &mut W,
    why: &mut WriteError,
) -> Result<(), Failed>
    requires { length octets.now < 64 }
    ensures { WroteOctets W.contents target (definite tag false
        (contents_octets (as_written mode (record { unused = unused; octets = octets.now }))))
        (into_result result why.new) }
{
    let mut buffer = Buffer::new();
    tag.spell(false, &mut buffer);
    Length::Definite(octets.len() + 1).spell(&mut buffer);
    buffer.add(&[unused]);
    add_octets(unused, octets, mode, &mut buffer);
    put_all(target, buffer.as_slice(), why)
}

/// Writes a bit string as a primitive value, by one to three calls of the target's `write` if each
/// takes all it gets.
pub(super) fn put_value<W: io::Write>(
    unused: u8,
    octets: &[u8],
    tag: Tag,
    len: usize,
    mode: Mode,
    target: &mut W,
    why: &mut WriteError,
) -> Result<(), Failed>
    requires contents { len ≡ length octets.now + 1 }
    requires fits { len < 2 ^ 32 }
    ensures { WroteOctets W.contents target (definite tag false
        (contents_octets (as_written mode (record { unused = unused; octets = octets.now }))))
        (into_result result why.new) }
{
    if len <= 64 {
        return put_few(unused, octets, tag, mode, target, why);
    }
    put_header_and(target, tag, len, unused, why)?;
    put_octets(unused, octets, mode, target, why)
}

/// Writes a bit string like `put_value`, from what its encoder means.
pub(super) fn put_meant<W: io::Write>(
    unused: u8,
    octets: &[u8],
    tag: Tag,
    len: usize,
    mode: Mode,
    refusal: EncodeError,
    target: &mut W,
    why: &mut WriteError,
) -> Result<(), Failed>
    requires contents { HasContents (BitsMean refusal mode
        (record { unused = unused; octets = octets.now })) len }
    requires fits { len < 2 ^ 32 }
    ensures { WritesPrimitive W.contents target tag (BitsMean refusal mode
        (record { unused = unused; octets = octets.now })) ⊥ (into_result result why.new) }
{
    put_value(unused, octets, tag, len, mode, target, why)
}

/// Encodes the number of unused bits, and the octets. Unused bits are written as they are in BER,
/// and as zero in CER and DER (11.2.1). In CER there are at most 1000 contents octets (9.2).
impl PrimitiveContent for BitString {
    ghost own_tag = { record { class = universal; number = 3 } };

    ghost means = { λ x mode. BitsMean LongCerPrimitive mode x };

    fn tag() -> Tag {
        Tag::BIT_STRING
    }

    fn encoded_len(&self, mode: Mode) -> Result<usize, EncodeError> {
        bits_len(
            self.unused,
            self.octets.as_slice(),
            mode,
            EncodeError::LongCerPrimitive,
        )
    }

    fn write_encoded<W: io::Write>(&self, mode: Mode, target: &mut W) -> Result<(), WriteError> {
        write_bits(
            self.unused,
            self.octets.as_slice(),
            mode,
            EncodeError::LongCerPrimitive,
            target,
        )
    }

    fn write_value<W: io::Write>(
        &self,
        tag: Tag,
        len: usize,
        mode: Mode,
        target: &mut W,
        why: &mut WriteError,
    ) -> Result<(), Failed> {
        put_meant(
            self.unused,
            self.octets.as_slice(),
            tag,
            len,
            mode,
            EncodeError::LongCerPrimitive,
            target,
            why,
        )
    }

    ghost lawful = { λ x mode. BitsMean_lawful LongCerPrimitive mode x };
}
