//! Primitive values, written from their contents octets (X.690, 8.1.1.2, 10.1).
ghost use Rattle.std.specs.Prelude.{◌≡◌, ◌<◌, ◌≤◌, ◌+◌, ◌-◌, ◌^◌, ◌∷◌, [], length, take, drop};
ghost use Rattle.std.specs.Prelude.{false};
ghost use Rattle.bcder.specs.x690.Octets.{definite};
ghost use Rattle.bcder.specs.calls.Encoders.{WroteOctets, into_result};

use crate::encode::WriteError;
use crate::encode::buffer::Buffer;
use crate::encode::header::put_header;
use crate::encode::slot::{Failed, slot};
use crate::encode::target::put_all;
use crate::int::octets::Octets;
use crate::length::Length;
use crate::tag::Tag;
use std::io;

/// Writes a primitive value with at most 64 contents octets and any tag, by one call of the
/// target's `write` if that takes all of it.
fn put_any_few<W: io::Write>(
    tag: Tag,
    contents: &[u8],
    target: &mut W,
    why: &mut WriteError,
) -> Result<(), Failed>
    requires { length contents.now ≤ 64 }
    ensures { WroteOctets W.contents target (definite tag false contents.now)
        (into_result result why.new) }
{
    let mut buffer = Buffer::new();
    tag.spell(false, &mut buffer);
    Length::Definite(contents.len()).spell(&mut buffer);
    buffer.add(contents);
    put_all(target, buffer.as_slice(), why)
}

/// Writes a primitive value, its header first.
fn put_header_then_contents<W: io::Write>(
    tag: Tag,
    contents: &[u8],
    target: &mut W,
    why: &mut WriteError,
) -> Result<(), Failed>
    requires { length contents.now < 2 ^ 32 }
    ensures { WroteOctets W.contents target (definite tag false contents.now)
        (into_result result why.new) }
{
    put_header(target, tag, false, Length::Definite(contents.len()), why)?;
    put_all(target, contents, why)
}

/// Returns the octets of a primitive value with one identifier octet and at most eight contents
/// octets, followed by padding.
#[inline(always)]
fn few_together(identifier: u8, contents: &[u8]) -> [u8; 10]
    requires { length contents.now ≤ 8 }
    ensures { take (2 + length contents.now) result
        ≡ identifier ∷ length contents.now ∷ contents.now }
{
    match contents {
        [] => [identifier, 0, 0, 0, 0, 0, 0, 0, 0, 0],
        [a] => [identifier, 1, *a, 0, 0, 0, 0, 0, 0, 0],
        [a, b] => [identifier, 2, *a, *b, 0, 0, 0, 0, 0, 0],
        [a, b, c] => [identifier, 3, *a, *b, *c, 0, 0, 0, 0, 0],
        [a, b, c, d] => [identifier, 4, *a, *b, *c, *d, 0, 0, 0, 0],
        [a, b, c, d, e] => [identifier, 5, *a, *b, *c, *d, *e, 0, 0, 0],
        [a, b, c, d, e, f] => [identifier, 6, *a, *b, *c, *d, *e, *f, 0, 0],
        [a, b, c, d, e, f, g] => [identifier, 7, *a, *b, *c, *d, *e, *f, *g, 0],
        [a, b, c, d, e, f, g, h] => [identifier, 8, *a, *b, *c, *d, *e, *f, *g, *h],
        _ => [0; 10],
    }
}

/// Writes a primitive value with one identifier octet and at most eight contents octets. Three
/// contents octets are written as an array, so that the size of the copy is known.
#[inline(always)]
fn put_few<W: io::Write>(
    identifier: u8,
    contents: &[u8],
    target: &mut W,
    why: &mut WriteError,
) -> Result<(), Failed>
    requires { length contents.now ≤ 8 }
    ensures { WroteOctets W.contents target (identifier ∷ length contents.now ∷ contents.now)
        (into_result result why.new) }
{
    if let [a, b, c] = contents {
        return put_all(target, &[identifier, 3, *a, *b, *c], why);
    }
    let end = 2 + contents.len();
    put_all(target, &few_together(identifier, contents)[..end], why)
}

/// Writes a primitive value like `put_few`, but up to five contents octets as an array, so that the
/// size of the copy is known.
#[inline(always)]
fn put_array<W: io::Write>(
    identifier: u8,
    contents: &[u8],
    target: &mut W,
    why: &mut WriteError,
) -> Result<(), Failed>
    requires { length contents.now ≤ 8 }
    ensures { WroteOctets W.contents target (identifier ∷ length contents.now ∷ contents.now)
        (into_result result why.new) }
{
    match contents {
        [a] => put_all(target, &[identifier, 1, *a], why),
        [a, b] => put_all(target, &[identifier, 2, *a, *b], why),
        [a, b, c] => put_all(target, &[identifier, 3, *a, *b, *c], why),
        [a, b, c, d] => put_all(target, &[identifier, 4, *a, *b, *c, *d], why),
        [a, b, c, d, e] => put_all(target, &[identifier, 5, *a, *b, *c, *d, *e], why),
        _ => put_few(identifier, contents, target, why),
    }
}

/// Writes a primitive value with one identifier octet and at most 64 contents octets.
fn put_together<W: io::Write>(
    identifier: u8,
    contents: &[u8],
    target: &mut W,
    why: &mut WriteError,
) -> Result<(), Failed>
    requires { length contents.now ≤ 64 }
    ensures { WroteOctets W.contents target (identifier ∷ length contents.now ∷ contents.now)
        (into_result result why.new) }
{
    let mut buffer = Buffer::new();
    buffer.add(&[identifier, contents.len() as u8]);
    buffer.add(contents);
    put_all(target, buffer.as_slice(), why)
}

/// Writes a primitive value from its contents octets. If there are at most 64 of them and one
/// identifier octet, it makes one call of the target's `write`, if that takes all of it.
#[inline(always)]
pub(crate) fn put_contents<W: io::Write>(
    tag: Tag,
    contents: &[u8],
    target: &mut W,
    why: &mut WriteError,
) -> Result<(), Failed>
    requires { length contents.now < 2 ^ 32 }
    ensures { WroteOctets W.contents target (definite tag false contents.now)
        (into_result result why.new) }
{
    let len = contents.len();
    if len > 64 {
        return put_header_then_contents(tag, contents, target, why);
    }
    let Some(identifier) = tag.single_octet(false) else {
        return put_any_few(tag, contents, target, why);
    };
    if len > 8 {
        return put_together(identifier, contents, target, why);
    }
    put_few(identifier, contents, target, why)
}

/// Writes a primitive value like `put_contents`, with a slot of its own. The slot that it gets
/// isn't lent on then, and need not be cleared when a small number is written alone.
#[inline(always)]
fn put_with_own_slot<W: io::Write>(
    tag: Tag,
    contents: &[u8],
    target: &mut W,
    why: &mut WriteError,
) -> Result<(), Failed>
    requires { length contents.now < 2 ^ 32 }
    ensures { WroteOctets W.contents target (definite tag false contents.now)
        (into_result result why.new) }
{
    let mut own = slot();
    match put_contents(tag, contents, target, &mut own) {
        Ok(()) => Ok(()),
        Err(Failed) => {
            *why = own;
            Err(Failed)
        }
    }
}

/// Writes a number from its contents octets like `put_contents`, but few of them as an array.
#[inline(always)]
pub(crate) fn put_number<W: io::Write>(
    tag: Tag,
    contents: &[u8],
    target: &mut W,
    why: &mut WriteError,
) -> Result<(), Failed>
    requires { length contents.now < 2 ^ 32 }
    ensures { WroteOctets W.contents target (definite tag false contents.now)
        (into_result result why.new) }
{
    let len = contents.len();
    if len > 5 {
        return put_with_own_slot(tag, contents, target, why);
    }
    let Some(identifier) = tag.single_octet(false) else {
        return put_with_own_slot(tag, contents, target, why);
    };
    put_array(identifier, contents, target, why)
}

/// Writes a primitive value with few contents octets. With one identifier octet it makes one call
/// of the target's `write`, if that takes all of it.
pub(crate) fn put_short<W: io::Write>(
    tag: Tag,
    contents: Octets,
    target: &mut W,
    why: &mut WriteError,
) -> Result<(), Failed>
    requires { 7 ≤ contents.start }
    ensures { WroteOctets W.contents target
        (definite tag false (drop contents.start contents.buffer)) (into_result result why.new) }
{
    let Some(identifier) = tag.single_octet(false) else {
        return put_any_few(tag, contents.as_slice(), target, why);
    };
    let len = contents.len();
    let mut value = contents;
    value.put_before(len as u8);
    value.put_before(identifier);
    put_all(target, value.as_slice(), why)
}

/// Writes a primitive value with one identifier octet and the last `len` octets as its contents, as
/// an array of the size for each `len`.
#[inline(always)]
fn put_last<W: io::Write>(
    identifier: u8,
    octets: [u8; 5],
    len: usize,
    target: &mut W,
    why: &mut WriteError,
) -> Result<(), Failed>
    requires { len ≤ 5 }
    ensures { WroteOctets W.contents target (identifier ∷ len ∷ drop (5 - len) octets)
        (into_result result why.new) }
{
    let [a, b, c, d, e] = octets;
    match len {
        0 => put_all(target, &[identifier, 0], why),
        1 => put_all(target, &[identifier, 1, e], why),
        2 => put_all(target, &[identifier, 2, d, e], why),
        3 => put_all(target, &[identifier, 3, c, d, e], why),
        4 => put_all(target, &[identifier, 4, b, c, d, e], why),
        _ => put_all(target, &[identifier, 5, a, b, c, d, e], why),
    }
}

/// Writes a primitive value with one identifier octet and at most five contents octets, which need
/// not be in memory.
#[inline(always)]
pub(crate) fn put_five<W: io::Write>(
    identifier: u8,
    contents: Octets,
    target: &mut W,
    why: &mut WriteError,
) -> Result<(), Failed>
    requires { 19 ≤ contents.start }
    ensures { WroteOctets W.contents target (identifier
        ∷ length (drop contents.start contents.buffer) ∷ drop contents.start contents.buffer)
        (into_result result why.new) }
{
    let len = contents.len();
    put_last(identifier, contents.last_five(), len, target, why)
}

/// Writes a primitive value with one contents octet and any tag, out of line.
fn put_any_octet<W: io::Write>(
    tag: Tag,
    octet: u8,
    target: &mut W,
    why: &mut WriteError,
) -> Result<(), Failed>
    ensures { WroteOctets W.contents target (definite tag false (octet ∷ []))
        (into_result result why.new) }
{
    put_any_few(tag, &[octet], target, why)
}

/// Writes a primitive value with one contents octet, as an array if it has one identifier octet.
#[inline(always)]
pub(crate) fn put_octet<W: io::Write>(
    tag: Tag,
    octet: u8,
    target: &mut W,
    why: &mut WriteError,
) -> Result<(), Failed>
    ensures { WroteOctets W.contents target (definite tag false (octet ∷ []))
        (into_result result why.new) }
{
    let Some(identifier) = tag.single_octet(false) else {
        return put_any_octet(tag, octet, target, why);
    };
    put_all(target, &[identifier, 1, octet], why)
}

/// Writes a primitive value without contents octets, as an array if it has one identifier octet.
#[inline(always)]
pub(crate) fn put_empty<W: io::Write>(
    tag: Tag,
    target: &mut W,
    why: &mut WriteError,
) -> Result<(), Failed>
    ensures { WroteOctets W.contents target (definite tag false []) (into_result result why.new) }
{
    let Some(identifier) = tag.single_octet(false) else {
        return put_any_few(tag, &[], target, why);
    };
    put_all(target, &[identifier, 0], why)
}
