//! Which octets are segments of an octet string (X.690, 8.7.3, 9.2), and where the segments are.
//! The headers are read one after the other, however they are nested, without a stack.
ghost use Rattle.std.specs.Prelude.{◌≡◌, ◌+◌, ◌≤◌, ◌↔◌, length, true, IfOk, OnErr, IfSome};
ghost use Rattle.std.specs.Prelude.{IsTrue, MatchOption};
ghost use Rattle.bcder.specs.steps.Answers.{Answers};
ghost use Rattle.bcder.specs.calls.Captured.{AreWhole};
ghost use Rattle.bcder.specs.x690.OctetString.{AreCut};
ghost use Rattle.bcder.specs.steps.SegmentTable.{IsTable};
ghost use Rattle.bcder.specs.steps.Segments.{read_segment, BeginSegment};

use super::Segment;
use crate::decode::header::{Form, header_at};
use crate::length::after_end;
use crate::memory::NoMemory;
use crate::mode::Mode;
use crate::tag::Tag;
use std::alloc::Global;

/// The number of octets in each segment but the last in CER (9.2).
pub(super) const FULL: usize = 1000;

/// The identifier octet of a primitive OCTET STRING (8.1.2).
const OCTET_STRING: u8 = 0x04;

/// Returns the octets after the first primitive segment, and how many octets the segment holds. If
/// the octets begin with the header of a constructed segment or with end-of-contents octets, it
/// returns what follows these, and no number.
#[tactic(auto, unfolding(crate::specs::steps::Segments::read_segment))]
#[inline(never)]
fn any_segment_at(mode: Mode, octets: &[u8]) -> Option<(Option<usize>, &[u8])>
    ensures { Answers result (read_segment mode octets.now) }
{
    let Some((header, rest)) = header_at(mode, octets) else {
        return match after_end(mode, octets) {
            Some(rest) => Some((None, rest)),
            None => None,
        };
    };
    if header.tag != Tag::OCTET_STRING {
        return None;
    }
    match header.form {
        Form::Primitive(len) => {
            if rest.len() < len {
                None
            } else {
                Some((Some(len), rest.split_at(len).1))
            }
        }
        Form::Constructed(_) => Some((None, rest)),
    }
}

/// Returns the size of the first primitive segment and how many octets it holds, if its header has
/// two octets (8.1.3.4) and all of it is here.
#[inline(always)]
fn short_segment(octets: &[u8]) -> Option<(usize, usize)>
    ensures fits { IfSome result (λ r. r.0 ≤ length octets.now) }
    ensures begins { IfSome result (λ r. BeginSegment octets.now r.0 r.1) }
{
    match octets {
        [first, len, ..] => {
            let len = usize::from(*len);
            let size = 2 + len;
            if *first == OCTET_STRING && len < 0x80 && size <= octets.len() {
                Some((size, len))
            } else {
                None
            }
        }
        _ => None,
    }
}

/// Returns the size of the first primitive segment and how many octets it holds, if its header has
/// four octets and all of it is here. Segments of 256 to 65,535 octets have such a header in CER
/// and DER (8.1.3.5, 10.1).
#[inline(always)]
fn long_segment(octets: &[u8]) -> Option<(usize, usize)>
    ensures fits { IfSome result (λ r. r.0 ≤ length octets.now) }
    ensures begins { IfSome result (λ r. BeginSegment octets.now r.0 r.1) }
{
    match octets {
        [first, count, high, low, ..] => {
            let len = usize::from(*high) * 0x100 + usize::from(*low);
            let size = 4 + len;
            if *first == OCTET_STRING && *count == 0x82 && len >= 0x100 && size <= octets.len() {
                Some((size, len))
            } else {
                None
            }
        }
        _ => None,
    }
}

/// Calls [`any_segment_at`]. Space for its result is cleared here, and not before the faster checks
/// of `segment_at`.
#[inline(always)]
fn apart_at(mode: Mode, octets: &[u8]) -> Option<(Option<usize>, &[u8])>
    ensures { Answers result (read_segment mode octets.now) }
{
    let found = any_segment_at(mode, octets);
    found
}

/// Returns what [`any_segment_at`] does, but first checks for a primitive segment with a header of
/// two octets, or of four.
#[inline(always)]
fn segment_at(mode: Mode, octets: &[u8]) -> Option<(Option<usize>, &[u8])>
    ensures { Answers result (read_segment mode octets.now) }
{
    match short_segment(octets) {
        Some((size, len)) => Some((Some(len), octets.split_at(size).1)),
        None => match long_segment(octets) {
            Some((size, len)) => Some((Some(len), octets.split_at(size).1)),
            None => apart_at(mode, octets),
        },
    }
}

/// Returns whether a primitive segment of `len` octets may come here. In CER each segment has 1000
/// octets but the last, which has 1 to 1000 (9.2). `full` says whether the segment before has 1000
/// octets; it is true if none comes before.
#[inline(always)]
fn may_come(mode: Mode, full: bool, len: usize) -> bool
    ensures { IsTrue result ↔ (mode ≡ Mode.Cer → (full ≡ true) × (1 ≤ len) × (len ≤ 1000)) }
{
    match mode {
        Mode::Ber => true,
        Mode::Cer => full && len != 0 && len <= FULL,
        Mode::Der => true,
    }
}

/// Returns the table of the segments that these octets are, or `None` if they are no segments of a
/// constructed string in the mode.
///
/// In BER they may be nested (8.7.3.2). In CER there are two or more, each primitive (9.2). In DER
/// there are none (10.2). Memory that ran out is reported only if the octets are segments.
pub(super) fn table_of(
    alloc: Global,
    mode: Mode,
    octets: &[u8],
) -> Result<Option<Vec<Segment>>, NoMemory>
    requires { AreWhole mode octets.now }
    ensures found { IfOk result (λ o. MatchOption o
        (AreCut mode octets.now → ⊥)
        (λ table. IsTable mode octets.now table.items)) }
    ensures memory { OnErr result (AreCut mode octets.now) }
{
    if mode.is_der() {
        return Ok(None);
    }
    let mut table = Vec::new(alloc);
    let mut complete = true;
    let mut count = 0usize;
    let mut full = true;
    let mut rest = octets;
    while !rest.is_empty() {
        match segment_at(mode, rest) {
            Some((Some(len), after)) => {
                if !may_come(mode, full, len) {
                    return Ok(None);
                }
                let start = octets.len() - after.len() - len;
                if table.push(Segment { start, len }).is_err() {
                    complete = false;
                }
                full = len == FULL;
                count += 1;
                rest = after;
            }
            Some((None, after)) => {
                if mode.is_cer() {
                    return Ok(None);
                }
                rest = after;
            }
            None => return Ok(None),
        }
    }
    if mode.is_cer() && count < 2 {
        return Ok(None);
    }
    if complete {
        Ok(Some(table))
    } else {
        Err(NoMemory)
    }
}
