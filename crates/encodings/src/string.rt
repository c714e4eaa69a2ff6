//! Octet strings, in one piece or cut into segments.
ghost use Rattle.std.specs.Prelude.{◌≡◌, ◌≢◌, ◌↔◌, ℕ, true, false, IsTrue, List, length};
ghost use Rattle.std.specs.Prelude.{IfSome, IfNone, MatchOption, option_map};
ghost use Rattle.std.specs.List.{concat};
ghost use Rattle.bcder.specs.declared.mode.Mode.TheVariants.{Ber, Cer};
ghost use Rattle.bcder.specs.calls.Captured.{AreWhole};
ghost use Rattle.bcder.specs.steps.Segments.{is_octet_string as is_of_string};
ghost use Rattle.bcder.specs.x690.OctetString.{AreCut, AreSegmented, IsLast};
ghost use Rattle.encodings.specs.Buffers.{IsAtFront, Stores};
ghost use Rattle.encodings.specs.Contents.{HoldsString};
ghost use Rattle.encodings.specs.Status.{no_memory};
ghost use Rattle.encodings.specs.Strings.{HasNoPiece, PassesPiece};

use crate::buffer::append;
use crate::status::{ABSENT, DONE, NO_MEMORY, TOO_SMALL};
use crate::values::are_values;
use bcder::plain::{end_at, front_at};
use bcder::{Mode, Tag};
use std::alloc::Global;

/// A primitive segment, or the header or the end of a constructed one.
#[derive(Clone, Copy)]
struct Piece<'a> {
    /// The contents octets of a primitive segment.
    segment: Option<&'a [u8]>,

    /// The octets after it.
    rest: &'a [u8],
}

pub(crate) fn is_octet_string(tag: Tag) -> bool
    ensures { result ≡ is_of_string tag }
{
    tag.is_universal() && tag.number() == 4
}

/// Returns what is at the front of the octets, if it belongs to segments.
fn next_piece(mode: Mode, octets: &[u8]) -> Option<Piece<'_>>
    ensures passed { IfSome result (λ p.
        PassesPiece mode octets.now (option_map (λ s. s.now) p.segment) p.rest.now) }
    ensures none { IfNone result (HasNoPiece mode octets.now) }
{
    let Some(front) = front_at(mode, octets) else {
        let rest = end_at(mode, octets)?;
        return Some(Piece {
            segment: None,
            rest,
        });
    };
    if !is_octet_string(front.tag) {
        return None;
    }
    if front.constructed {
        return Some(Piece {
            segment: None,
            rest: front.rest,
        });
    }
    match front.len {
        Some(len) => {
            if front.rest.len() < len {
                return None;
            }
            let (segment, rest) = front.rest.split_at(len);
            Some(Piece {
                segment: Some(segment),
                rest,
            })
        }
        None => None,
    }
}

/// Appends the octets of segments, which may be nested (X.690, 8.7.3), and returns their number.
fn join_nested(octets: &[u8], buffer: &mut [u8]) -> Option<usize>
    requires { AreWhole Ber octets.now }
    ensures { MatchOption result
        (AreCut Ber octets.now → ⊥)
        (λ n. (parts : List (List ℕ)) × AreSegmented Ber octets.now parts
        × IsAtFront (concat parts) buffer.old buffer.new n) }
{
    let mut at = 0;
    let mut rest = octets;
    while !rest.is_empty() {
        match next_piece(Mode::Ber, rest) {
            Some(piece) => match piece.segment {
                Some(segment) => {
                    append(buffer, &mut at, segment);
                    rest = piece.rest;
                }
                None => rest = piece.rest,
            },
            None => return None,
        }
    }
    Some(at)
}

/// Returns whether a segment may follow others, which were full or not, in CER (X.690, 9.2).
fn may_follow(full: bool, segment: &[u8]) -> bool
    ensures { IsTrue result ↔ (full ≡ true) × IsLast (length segment.now) }
{
    full && !segment.is_empty() && segment.len() <= 1000
}

/// Appends the octets of segments of 1000 octets, the last of which may have fewer (X.690, 9.2),
/// and returns their number.
fn join_full(octets: &[u8], buffer: &mut [u8]) -> Option<usize>
    requires { AreWhole Cer octets.now }
    ensures { MatchOption result
        (AreCut Cer octets.now → ⊥)
        (λ n. (parts : List (List ℕ)) × AreSegmented Cer octets.now parts
        × IsAtFront (concat parts) buffer.old buffer.new n) }
{
    let mut at = 0;
    let mut count = 0usize;
    let mut full = true;
    let mut rest = octets;
    while !rest.is_empty() {
        match next_piece(Mode::Cer, rest) {
            Some(piece) => match piece.segment {
                Some(segment) => {
                    if !may_follow(full, segment) {
                        return None;
                    }
                    append(buffer, &mut at, segment);
                    full = segment.len() == 1000;
                    count += 1;
                    rest = piece.rest;
                }
                None => return None,
            },
            None => return None,
        }
    }
    if count < 2 {
        return None;
    }
    Some(at)
}

/// Appends the octets of the segments that octets are cut into, and returns their number.
fn join(mode: Mode, octets: &[u8], buffer: &mut [u8]) -> Option<usize>
    requires { AreWhole mode octets.now }
    ensures { MatchOption result
        ((s : List ℕ) → HoldsString mode true octets.now s → ⊥)
        (λ n. (s : List ℕ) × HoldsString mode true octets.now s
        × IsAtFront s buffer.old buffer.new n) }
{
    match mode {
        Mode::Ber => join_nested(octets, buffer),
        Mode::Cer => join_full(octets, buffer),
        Mode::Der => None,
    }
}

/// Stores the octets of a string that is cut into segments.
fn store_joined(mode: Mode, octets: &[u8], buffer: &mut [u8], size: &mut usize) -> u8
    requires { AreWhole mode octets.now }
    ensures { Stores (HoldsString mode true octets.now) result
        buffer.old buffer.new size.old size.new }
{
    let mut nowhere = [0u8; 0];
    match join(mode, octets, &mut nowhere) {
        Some(len) => {
            *size = len;
            if len > buffer.len() {
                return TOO_SMALL;
            }
            match join(mode, octets, buffer) {
                Some(_) => DONE,
                None => ABSENT,
            }
        }
        None => ABSENT,
    }
}

/// Stores the octets of a string in one piece (X.690, 8.7.2, 9.2).
pub(crate) fn store_whole(mode: Mode, octets: &[u8], buffer: &mut [u8], size: &mut usize) -> u8
    ensures { Stores (HoldsString mode false octets.now) result
        buffer.old buffer.new size.old size.new }
{
    if mode == Mode::Cer && octets.len() > 1000 {
        return ABSENT;
    }
    let len = octets.len();
    *size = len;
    if len > buffer.len() {
        return TOO_SMALL;
    }
    buffer[..len].copy_from_slice(octets);
    DONE
}

/// Stores the octets of an OCTET STRING, or of a type that is encoded as one (X.690, 8.7, 9.2,
/// 10.2), from the contents octets of its value: in one piece, or, if the value is constructed, cut
/// into segments. They are stored at the front of a buffer that has room for them. `size` is their
/// number, also if it has no room. The status is `DONE`, `TOO_SMALL`, `ABSENT` or `NO_MEMORY`.
///
/// ```text
/// let segments = [0x04, 0x01, 0x41, 0x04, 0x01, 0x42];
/// store_octet_string(alloc, Mode::Ber, true, &segments, &mut buffer, &mut size)   // 41 42
/// ```
pub fn store_octet_string(
    alloc: Global,
    mode: Mode,
    constructed: bool,
    octets: &[u8],
    buffer: &mut [u8],
    size: &mut usize,
) -> u8
    ensures stores { result ≢ no_memory
        → Stores (HoldsString mode constructed octets.now) result
        buffer.old buffer.new size.old size.new }
    ensures lacking { result ≡ no_memory
        → (buffer.new ≡ buffer.old) × (size.new ≡ size.old) }
{
    if !constructed {
        return store_whole(mode, octets, buffer, size);
    }
    match are_values(alloc, mode, octets) {
        DONE => store_joined(mode, octets, buffer, size),
        NO_MEMORY => NO_MEMORY,
        _ => ABSENT,
    }
}
