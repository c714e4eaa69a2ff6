//! Headers: identifier octets and length octets (X.690, 8.1.2, 8.1.3).
ghost use Rattle.std.specs.Prelude.{◌≡◌, ◌+◌, ◌<◌, ◌^◌, [], ◌∷◌, ◌++◌, length, true, false};
ghost use Rattle.std.specs.Prelude.{IfOk, IfErr};
ghost use Rattle.bcder.specs.declared.length.Length.TheVariants.{Definite};
ghost use Rattle.bcder.specs.x690.Identifier.{IsValueTag, end_of_contents};
ghost use Rattle.bcder.specs.x690.Octets.{header, fits_length};
ghost use Rattle.bcder.specs.calls.Encoders.{MayHaveHeader, RefusesValueHeader, HeaderMeans};
ghost use Rattle.bcder.specs.calls.Encoders.{WroteOctets, WritesContents, into_result};

use crate::encode::buffer::Buffer;
use crate::encode::slot::{Failed, into_result, slot};
use crate::encode::target::put_all;
use crate::encode::{EncodeError, WriteError};
use crate::length::Length;
use crate::tag::Tag;
use std::io;

/// Returns the number of octets of a value with the tag and `len` contents octets, if its length is
/// definite and in the fewest octets (X.690, 10.1).
///
/// # Errors
///
/// Returns `EndOfValueTag` for `Tag::END_OF_VALUE`, and otherwise `LengthTooLarge` for 2^32 or more
/// octets.
pub fn total_encoded_len(tag: Tag, len: usize) -> Result<usize, EncodeError>
    ensures ok { IfOk result (λ n. MayHaveHeader tag len
        × (n ≡ length (header tag false (Definite len)) + len)) }
    ensures refused { IfErr result (RefusesValueHeader tag len) }
{
    if !tag.is_value() {
        return Err(EncodeError::EndOfValueTag);
    }
    let size = Length::Definite(len).encoded_len()?;
    Ok(tag.encoded_len() + size + len)
}

/// Writes the header of a value, constructed or primitive, with the tag and `len` contents octets.
/// The length is definite and in the fewest octets (X.690, 10.1).
///
/// # Errors
///
/// Returns one of these errors:
///
/// - `EndOfValueTag` for `Tag::END_OF_VALUE`, and otherwise `LengthTooLarge` for 2^32 or more
///   octets; nothing is written then;
/// - the target's error.
pub fn write_header<W: io::Write>(
    target: &mut W,
    tag: Tag,
    constructed: bool,
    len: usize,
) -> Result<(), WriteError>
    ensures { WritesContents W.contents target (HeaderMeans tag constructed len) ⊥ result }
{
    if !tag.is_value() {
        return Err(WriteError::Refused(EncodeError::EndOfValueTag));
    }
    if len > 0xFFFF_FFFF {
        return Err(WriteError::Refused(EncodeError::LengthTooLarge));
    }
    let mut why = slot();
    let outcome = put_header(target, tag, constructed, Length::Definite(len), &mut why);
    into_result(outcome, why)
}

/// Writes a header of any size, for `put_header`. One identifier octet and two length octets are
/// written as an array, as `put_header` does with one length octet.
#[tactic(auto, unfolding(crate::specs::x690::Octets::definite_length))]
fn put_any_header<W: io::Write>(
    target: &mut W,
    tag: Tag,
    constructed: bool,
    len: Length,
    why: &mut WriteError,
) -> Result<(), Failed>
    requires { fits_length len ≡ true }
    ensures { WroteOctets W.contents target (header tag constructed len)
        (into_result result why.new) }
{
    if let (Some(identifier), Length::Definite(size)) = (tag.single_octet(constructed), len) {
        if size >= 0x80 && size < 0x100 {
            return put_all(target, &[identifier, 0x81, size as u8], why);
        }
    }
    let mut buffer = Buffer::new();
    tag.spell(constructed, &mut buffer);
    len.spell(&mut buffer);
    put_all(target, buffer.as_slice(), why)
}

/// Writes a header whose length fits four octets, by one call of the target's `write` if that takes
/// all of it.
#[inline(always)]
pub(crate) fn put_header<W: io::Write>(
    target: &mut W,
    tag: Tag,
    constructed: bool,
    len: Length,
    why: &mut WriteError,
) -> Result<(), Failed>
    requires { fits_length len ≡ true }
    ensures { WroteOctets W.contents target (header tag constructed len)
        (into_result result why.new) }
{
    let Some(identifier) = tag.single_octet(constructed) else {
        return put_any_header(target, tag, constructed, len, why);
    };
    let Some(length) = len.single_octet() else {
        return put_any_header(target, tag, constructed, len, why);
    };
    put_all(target, &[identifier, length], why)
}

/// Writes the header of a primitive value and the first of its contents octets, by one call of the
/// target's `write` if that takes all of it.
pub(crate) fn put_header_and<W: io::Write>(
    target: &mut W,
    tag: Tag,
    len: usize,
    first: u8,
    why: &mut WriteError,
) -> Result<(), Failed>
    requires { len < 2 ^ 32 }
    ensures { WroteOctets W.contents target (header tag false (Definite len) ++ first ∷ [])
        (into_result result why.new) }
{
    let mut buffer = Buffer::new();
    tag.spell(false, &mut buffer);
    Length::Definite(len).spell(&mut buffer);
    buffer.add(&[first]);
    put_all(target, buffer.as_slice(), why)
}
