//! Octets written as an octet string (X.690, 8.7, 9.2, 10.2).
ghost use Rattle.std.specs.Prelude.{◌≡◌, ◌<◌, ◌≤◌, ◌+◌, ◌^◌, ◌++◌, ℕ, List, length, false};
ghost use Rattle.std.specs.List.{concat};
ghost use Rattle.bcder.specs.x690.Identifier.{AreOctets};
ghost use Rattle.bcder.specs.x690.Octets.{definite, enclosed};
ghost use Rattle.bcder.specs.declared.mode.Mode.TheVariants.{Cer};
ghost use Rattle.bcder.specs.calls.Encoders.{HasEncoding, SizeOfValues, WritesParts};
ghost use Rattle.bcder.specs.calls.Encoders.{WroteOctets, into_result};
ghost use Rattle.bcder.specs.steps.Buffer.{buffered};
ghost use Rattle.bcder.specs.calls.Meaning.{IsSum};
ghost use Rattle.bcder.specs.calls.StringMeaning.{is_cut, OctetsMean, segments_in_cer};
ghost use Rattle.bcder.specs.steps.Segmenting.{BeginsSegment, CutSize, segments_size, WritesPart};

use super::OctetStringIter;
use super::segments::FULL;
use crate::encode::buffer::Buffer;
use crate::encode::header::put_header;
use crate::encode::slot::{Failed, into_result, slot};
use crate::encode::target::put_all;
use crate::encode::values::constructed::enclosed_size;
use crate::encode::{EncodeError, WriteError, total_encoded_len};
use crate::length::Length;
use crate::mode::Mode;
use crate::tag::Tag;
use std::io;

/// Returns whether `len` octets are cut into segments (9.2).
#[inline(always)]
pub(super) fn is_cut(mode: Mode, len: usize) -> bool
    ensures { result ≡ is_cut mode len }
{
    match mode {
        Mode::Cer => len > FULL,
        Mode::Ber | Mode::Der => false,
    }
}

/// Returns the number of octets of the segments of `len` octets.
fn segments_len(len: usize) -> Option<usize>
    requires { 0 < len }
    ensures { IsSum result (segments_size len) }
{
    let full = (len - 1) / FULL;
    let last = len - FULL * full;
    len.checked_add(4 * full + 1 + Length::Definite(last).octet_count())
}

/// Returns the size of a value that is cut into segments.
#[cold]
fn cut_len(tag: Tag, len: usize) -> Result<usize, EncodeError>
    requires { 0 < len }
    ensures { CutSize tag len result }
{
    if !tag.is_value() {
        return Err(EncodeError::EndOfValueTag);
    }
    match segments_len(len) {
        Some(contents) => enclosed_size(tag, Mode::Cer, contents),
        None => Err(EncodeError::SizeOverflow),
    }
}

/// Returns the number of octets of the encoding of a string of `len` octets, or its refusal.
#[inline(always)]
pub(super) fn string_len(tag: Tag, mode: Mode, len: usize) -> Result<usize, EncodeError>
    ensures { (w : List ℕ) → AreOctets w → len ≡ length w
        → SizeOfValues (OctetsMean tag w mode) ⊥ result }
{
    if is_cut(mode, len) {
        cut_len(tag, len)
    } else {
        total_encoded_len(tag, len)
    }
}

/// How far octets are written in segments.
#[derive(Clone, Copy)]
struct Progress {
    /// The number of octets that are still to come in the segment that was begun.
    left: usize,

    /// The number of octets that are still to come after it.
    behind: usize,
}

/// Begins a segment of 1000 octets, or of those that there are, if none was begun.
fn begin_segment<W: io::Write>(
    progress: Progress,
    target: &mut W,
    why: &mut WriteError,
) -> Result<Progress, Failed>
    requires { 0 < progress.left + progress.behind }
    ensures { BeginsSegment W.contents target progress why.new result }
{
    if progress.left > 0 {
        return Ok(progress);
    }
    let left = progress.behind.min(FULL);
    put_header(
        target,
        Tag::OCTET_STRING,
        false,
        Length::Definite(left),
        why,
    )?;
    Ok(Progress {
        left,
        behind: progress.behind - left,
    })
}

/// Writes a part, in the segment that was begun and in those after it.
fn put_part<W: io::Write>(
    progress: Progress,
    part: &[u8],
    target: &mut W,
    why: &mut WriteError,
) -> Result<Progress, Failed>
    requires { length part.now ≤ progress.left + progress.behind }
    ensures { WritesPart W.contents target progress part.now why.new result }
{
    let mut reached = progress;
    let mut rest = part;
    while !rest.is_empty() {
        let begun = begin_segment(reached, target, why)?;
        let count = rest.len().min(begun.left);
        put_all(target, &rest[..count], why)?;
        reached = Progress {
            left: begun.left - count,
            behind: begun.behind,
        };
        rest = &rest[count..];
    }
    Ok(reached)
}

/// Writes the octets of the parts, in segments.
fn put_segments<W: io::Write>(
    len: usize,
    parts: OctetStringIter<'_>,
    target: &mut W,
    why: &mut WriteError,
) -> Result<(), Failed>
    requires some { 0 < len }
    requires all { len ≡ length (concat parts) }
    ensures { WroteOctets W.contents target (segments_in_cer (concat parts.entry)).octets
        (into_result result why.new) }
{
    let mut progress = Progress {
        left: 0,
        behind: len,
    };
    for part in parts {
        progress = put_part(progress, part, target, why)?;
    }
    Ok(())
}

/// Writes a value that is cut into segments.
fn put_cut<W: io::Write>(
    tag: Tag,
    len: usize,
    parts: OctetStringIter<'_>,
    target: &mut W,
    why: &mut WriteError,
) -> Result<(), Failed>
    requires some { 0 < len }
    requires all { len ≡ length (concat parts) }
    ensures { WroteOctets W.contents target
        (enclosed Cer tag (segments_in_cer (concat parts.entry)).octets)
        (into_result result why.new) }
{
    put_header(target, tag, true, Length::Indefinite, why)?;
    put_segments(len, parts, target, why)?;
    put_all(target, &[0x00, 0x00], why)
}

/// Writes the octets of the parts.
fn put_parts<W: io::Write>(
    parts: OctetStringIter<'_>,
    target: &mut W,
    why: &mut WriteError,
) -> Result<(), Failed>
    ensures { WroteOctets W.contents target (concat parts.entry) (into_result result why.new) }
{
    for part in parts {
        put_all(target, part, why)?;
    }
    Ok(())
}

/// Appends the octets of the parts to those of a value.
fn add_parts(parts: OctetStringIter<'_>, buffer: &mut Buffer)
    requires { buffer.old.len + length (concat parts) ≤ 73 }
    ensures { buffered buffer.new ≡ buffered buffer.old ++ concat parts.entry }
{
    for part in parts {
        buffer.add(part);
    }
}

/// Writes a primitive value with at most 64 contents octets, by one call of the target's `write` if
/// that takes all of it.
fn put_few<W: io::Write>(
    tag: Tag,
    len: usize,
    parts: OctetStringIter<'_>,
    target: &mut W,
    why: &mut WriteError,
) -> Result<(), Failed>
    requires few { len ≤ 64 }
    requires all { len ≡ length (concat parts) }
    ensures { WroteOctets W.contents target (definite tag false (concat parts.entry))
        (into_result result why.new) }
{
    let mut buffer = Buffer::new();
    tag.spell(false, &mut buffer);
    Length::Definite(len).spell(&mut buffer);
    add_parts(parts, &mut buffer);
    put_all(target, buffer.as_slice(), why)
}

/// Writes a primitive value. If it has more than 64 contents octets, each part is written by
/// itself.
fn put_whole<W: io::Write>(
    tag: Tag,
    len: usize,
    parts: OctetStringIter<'_>,
    target: &mut W,
    why: &mut WriteError,
) -> Result<(), Failed>
    requires fits { len < 2 ^ 32 }
    requires all { len ≡ length (concat parts) }
    ensures { WroteOctets W.contents target (definite tag false (concat parts.entry))
        (into_result result why.new) }
{
    if len <= 64 {
        return put_few(tag, len, parts, target, why);
    }
    put_header(target, tag, false, Length::Definite(len), why)?;
    put_parts(parts, target, why)
}

/// Writes the string of the octets of the parts, which is known to have an encoding.
pub(super) fn put_string<W: io::Write>(
    tag: Tag,
    mode: Mode,
    len: usize,
    parts: OctetStringIter<'_>,
    target: &mut W,
    why: &mut WriteError,
) -> Result<(), Failed>
    requires known { HasEncoding (OctetsMean tag (concat parts) mode) }
    requires all { len ≡ length (concat parts) }
    ensures { WritesParts W.contents target (OctetsMean tag (concat parts.entry) mode) ⊥
        (into_result result why.new) }
{
    if is_cut(mode, len) {
        put_cut(tag, len, parts, target, why)
    } else {
        put_whole(tag, len, parts, target, why)
    }
}

/// Returns the number of octets of these octets' encoding as a string.
pub(super) fn octets_len(tag: Tag, octets: &[u8], mode: Mode) -> Result<usize, EncodeError>
    ensures { SizeOfValues (OctetsMean tag octets.now mode) ⊥ result }
{
    string_len(tag, mode, octets.len())
}

/// Writes octets as a string that is known to have an encoding.
pub(super) fn put_octets<W: io::Write>(
    tag: Tag,
    octets: &[u8],
    mode: Mode,
    target: &mut W,
    why: &mut WriteError,
) -> Result<(), Failed>
    requires { HasEncoding (OctetsMean tag octets.now mode) }
    ensures { WritesParts W.contents target (OctetsMean tag octets.now mode) ⊥
        (into_result result why.new) }
{
    put_string(
        tag,
        mode,
        octets.len(),
        OctetStringIter::of_piece(octets),
        target,
        why,
    )
}
