//! Items that are written from the last to the first, at the back of a buffer.
#![tactic(auto, unfolding(bcder::specs::x690::Identifier::identifier))]

ghost use Rattle.std.specs.Prelude.{◌≡◌, ◌≢◌, ◌+◌, ◌≤◌, ◌<◌, ◌^◌, ◌++◌, List, ℕ, length, Bool};
ghost use Rattle.std.specs.Prelude.{IfOk, IfErr, OnOk, IsSome, IsNone, Some, None, false, true};
ghost use Rattle.bcder.specs.calls.Content.{length_of};
ghost use Rattle.bcder.specs.x690.Identifier.{class_bits as class_octet, form_bit, identifier};
ghost use Rattle.bcder.specs.x690.Octets.{closing, constructed_length};
ghost use Rattle.bcder.specs.x690.Octets.{definite, definite_length, header};
ghost use Rattle.encodings.specs.Pieces.{Fit, FitsBefore, Frames, HoldsFrames, IsAtBack};
ghost use Rattle.encodings.specs.Pieces.{LengthFits, all_octets};
ghost use Rattle.encodings.specs.Pieces.{made_of, all_made, with_made, written};
ghost use Rattle.encodings.specs.Status.{no_memory};

use crate::convert::{Item, Sort};
use crate::status::{NO_MEMORY, NOT_CONVERTED};
use bcder::{Mode, Tag};
use std::alloc::Global;

/// The greatest length that four octets hold.
const MOST: usize = 0xFFFF_FFFF;

/// More octets than are in memory.
const TOO_MANY: usize = 1 << 62;

/// Stores octets in front of those at the back of a buffer if there is room for all of them. `at`
/// is the number of octets that were to be stored until now.
fn prepend(buffer: &mut [u8], at: &mut usize, octets: &[u8])
    requires { at.old + length octets.now < 2 ^ 64 }
    ensures stored { (first w : List ℕ) → IsAtBack w first buffer.old at.old
        → IsAtBack (octets.now ++ w) first buffer.new at.new }
    ensures at { at.new ≡ at.old + length octets.now }
{
    let after = *at;
    let all = after + octets.len();
    if all <= buffer.len() {
        let end = buffer.len() - after;
        let start = buffer.len() - all;
        buffer[start..end].copy_from_slice(octets);
    }
    *at = all;
}

/// Returns bits 8 and 7 of the leading identifier octet (X.690, 8.1.2.2).
fn class_bits(tag: Tag) -> u8
    ensures value { result ≡ class_octet tag.class }
    ensures limit { result < 193 }
{
    if tag.is_universal() {
        0x00
    } else if tag.is_application() {
        0x40
    } else if tag.is_context_specific() {
        0x80
    } else {
        0xC0
    }
}

/// Returns the leading identifier octet (X.690, 8.1.2.2, 8.1.2.5).
fn leading(tag: Tag, constructed: bool, low: u8) -> u8
    requires { low < 32 }
    ensures { result ≡ class_octet tag.class + form_bit constructed + low }
{
    let mark = if constructed { 0x20 } else { 0x00 };
    class_bits(tag) + mark + low
}

/// Stores identifier octets (X.690, 8.1.2).
fn put_identifier(buffer: &mut [u8], at: &mut usize, tag: Tag, constructed: bool)
    requires { at.old + 4 < 2 ^ 64 }
    ensures stored { (first w : List ℕ) → IsAtBack w first buffer.old at.old
        → IsAtBack (identifier tag constructed ++ w) first buffer.new at.new }
    ensures limit { at.new ≤ at.old + 4 }
{
    let number = tag.number();
    if number < 31 {
        return prepend(buffer, at, &[leading(tag, constructed, number as u8)]);
    }
    let first = leading(tag, constructed, 31);
    if number < 128 {
        prepend(buffer, at, &[first, number as u8])
    } else if number < 16384 {
        prepend(
            buffer,
            at,
            &[first, (128 + number / 128) as u8, (number % 128) as u8],
        )
    } else {
        prepend(
            buffer,
            at,
            &[
                first,
                (128 + number / 16384) as u8,
                (128 + number / 128 % 128) as u8,
                (number % 128) as u8,
            ],
        )
    }
}

/// Stores the fewest octets of a definite length (X.690, 8.1.3.4, 8.1.3.5, 10.1).
#[tactic(auto, unfolding(bcder::specs::x690::Octets::definite_length))]
fn put_length(buffer: &mut [u8], at: &mut usize, len: usize)
    requires room { at.old + 5 < 2 ^ 64 }
    requires fits { len < 2 ^ 32 }
    ensures stored { (first w : List ℕ) → IsAtBack w first buffer.old at.old
        → IsAtBack (definite_length len ++ w) first buffer.new at.new }
    ensures limit { at.new ≤ at.old + 5 }
{
    if len < 0x80 {
        prepend(buffer, at, &[len as u8])
    } else if len < 0x100 {
        prepend(buffer, at, &[0x81, len as u8])
    } else if len < 0x1_0000 {
        prepend(
            buffer,
            at,
            &[0x82, (len / 0x100) as u8, (len % 0x100) as u8],
        )
    } else if len < 0x100_0000 {
        prepend(
            buffer,
            at,
            &[
                0x83,
                (len / 0x1_0000) as u8,
                (len / 0x100 % 0x100) as u8,
                (len % 0x100) as u8,
            ],
        )
    } else {
        prepend(
            buffer,
            at,
            &[
                0x84,
                (len / 0x100_0000) as u8,
                (len / 0x1_0000 % 0x100) as u8,
                (len / 0x100 % 0x100) as u8,
                (len % 0x100) as u8,
            ],
        )
    }
}

/// Stores the header of a value of definite length.
fn put_header(buffer: &mut [u8], at: &mut usize, tag: Tag, constructed: bool, len: usize)
    requires room { at.old + 9 < 2 ^ 64 }
    requires fits { len < 2 ^ 32 }
    ensures stored { (first w : List ℕ) → IsAtBack w first buffer.old at.old
        → IsAtBack (header tag constructed (length_of (Some len)) ++ w) first
        buffer.new at.new }
    ensures limit { at.new ≤ at.old + 9 }
{
    put_length(buffer, at, len);
    put_identifier(buffer, at, tag, constructed);
}

/// Stores the header of a value whose length has the indefinite form (X.690, 8.1.3.6).
fn put_indefinite(buffer: &mut [u8], at: &mut usize, tag: Tag)
    requires { at.old + 9 < 2 ^ 64 }
    ensures stored { (first w : List ℕ) → IsAtBack w first buffer.old at.old
        → IsAtBack (header tag true (length_of None) ++ w) first buffer.new at.new }
{
    prepend(buffer, at, &[0x80]);
    put_identifier(buffer, at, tag, true);
}

/// Stores a primitive value.
fn put_value(buffer: &mut [u8], at: &mut usize, tag: Tag, contents: &[u8])
    requires room { at.old + length contents.now + 9 < 2 ^ 64 }
    requires fits { length contents.now < 2 ^ 32 }
    ensures stored { (first w : List ℕ) → IsAtBack w first buffer.old at.old
        → IsAtBack (definite tag false contents.now ++ w) first buffer.new at.new }
{
    prepend(buffer, at, contents);
    put_header(buffer, at, tag, false, contents.len());
}

/// Stores the header of a constructed value with so many contents octets.
fn put_beginning(mode: Mode, buffer: &mut [u8], at: &mut usize, tag: Tag, len: usize) -> Option<()>
    requires { at.old + 9 < 2 ^ 64 }
    ensures some { IsSome result → (first w : List ℕ) → IsAtBack w first buffer.old at.old
        → IsAtBack (header tag true (constructed_length mode len) ++ w) first buffer.new at.new }
    ensures fits { IsSome result → LengthFits mode len }
    ensures none { IsNone result → LengthFits mode len → ⊥ }
{
    if mode == Mode::Cer {
        put_indefinite(buffer, at, tag);
        return Some(());
    }
    if len > MOST {
        return None;
    }
    put_header(buffer, at, tag, true, len);
    Some(())
}

/// Stores what follows the contents octets of a constructed value (X.690, 8.1.5).
fn put_end(mode: Mode, buffer: &mut [u8], at: &mut usize)
    requires { at.old + 2 < 2 ^ 64 }
    ensures stored { (first w : List ℕ) → IsAtBack w first buffer.old at.old
        → IsAtBack (closing mode ++ w) first buffer.new at.new }
    ensures limit { at.new ≤ at.old + 2 }
{
    if mode == Mode::Cer {
        prepend(buffer, at, &[0x00, 0x00]);
    }
}

/// Stores what an item stands for. `marks` has, for each value that ends in what was stored, how
/// many octets are behind its contents octets.
fn put(
    mode: Mode,
    item: &Item<'_>,
    buffer: &mut [u8],
    at: &mut usize,
    marks: &mut Vec<usize>,
) -> Result<(), u8>
    requires { at.old ≤ 2 ^ 62 }
    ensures put { OnOk result ((f : Frames) (first : List ℕ)
        → HoldsFrames f first buffer.old at.old marks.old.items
        → HoldsFrames (with_made mode (made_of item.now) f) first
        buffer.new at.new marks.new.items) }
    ensures fits { OnOk result ((f : Frames) (first : List ℕ)
        → HoldsFrames f first buffer.old at.old marks.old.items
        → FitsBefore mode (made_of item.now) f) }
    ensures none { IfErr result (λ status. status ≢ no_memory → (f : Frames) (first : List ℕ)
        → HoldsFrames f first buffer.old at.old marks.old.items
        → FitsBefore mode (made_of item.now) f → ⊥) }
{
    match item.sort {
        Sort::Value => {
            if item.contents.len() > MOST {
                return Err(NOT_CONVERTED);
            }
            put_value(buffer, at, item.tag, item.contents);
            Ok(())
        }
        Sort::Begin => {
            let Some(mark) = marks.pop() else {
                return Err(NOT_CONVERTED);
            };
            let len = at.saturating_sub(mark);
            match put_beginning(mode, buffer, at, item.tag, len) {
                Some(()) => Ok(()),
                None => Err(NOT_CONVERTED),
            }
        }
        Sort::End => {
            put_end(mode, buffer, at);
            if marks.push(*at).is_err() {
                return Err(NO_MEMORY);
            }
            Ok(())
        }
        Sort::Whole => {
            let Some(mark) = marks.pop() else {
                return Err(NOT_CONVERTED);
            };
            let len = at.saturating_sub(mark);
            if len > MOST {
                return Err(NOT_CONVERTED);
            }
            put_header(buffer, at, item.tag, false, len);
            Ok(())
        }
        Sort::Part => {
            if item.contents.len() > TOO_MANY {
                return Err(NO_MEMORY);
            }
            prepend(buffer, at, item.contents);
            Ok(())
        }
        Sort::WholeEnd => {
            if marks.push(*at).is_err() {
                return Err(NO_MEMORY);
            }
            Ok(())
        }
    }
}

/// Stores all items at the back of a buffer that has room for them, and returns the number of their
/// octets.
pub(crate) fn write(
    alloc: Global,
    mode: Mode,
    items: &[Item<'_>],
    buffer: &mut [u8],
) -> Result<usize, u8>
    ensures fit { OnOk result (Fit mode (all_made items.now)) }
    ensures stored { IfOk result (λ n. IsAtBack (all_octets (written mode (all_made items.now)))
        buffer.old buffer.new n) }
    ensures none { IfErr result
        (λ status. status ≢ no_memory → Fit mode (all_made items.now) → ⊥) }
{
    let mut marks: Vec<usize> = Vec::new(alloc);
    let mut at = 0;
    let mut rest = items;
    while let [before @ .., item] = rest {
        if at > TOO_MANY {
            return Err(NO_MEMORY);
        }
        match put(mode, item, buffer, &mut at, &mut marks) {
            Ok(()) => rest = before,
            Err(status) => return Err(status),
        }
    }
    Ok(at)
}
