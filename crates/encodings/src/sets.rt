//! The values inside each SET in the order of CER and DER (X.690, 9.3, 10.3, 11.6).
//!
//! Octets are passed once, with a stack of the values that are open, and copied. When a SET ends,
//! the values inside it, which are in order themselves, are put in order where they were copied to.
ghost use Rattle.std.specs.Prelude.{◌≡◌, ◌≢◌, ◌≤◌, ℕ, List, length, take, drop, true};
ghost use Rattle.std.specs.Prelude.{IfOk, OnOk, IfSome, option_map, sum_by};
ghost use Rattle.bcder.specs.declared.mode.Mode.TheVariants.{Ber};
ghost use Rattle.encodings.specs.Sets.{IsSorting, SortsSets, is_set as is_set_meant, place};
ghost use Rattle.encodings.specs.Sorting.{AreKeyed, AreMarks, Arranged, EndsBy, Enters};
ghost use Rattle.encodings.specs.Sorting.{GoesOver, IsEnclosing, IsState, Leaves, Pair};
ghost use Rattle.encodings.specs.Sorting.{PutsInOrder, behind_of, octets_of};

use crate::convert::begin;
use crate::heading::class_of;
use crate::status::{ABSENT, DONE, NO_MEMORY, NO_ORDER};
use crate::values::are_values;
use bcder::plain::end_at;
use bcder::{Mode, NoMemory, Tag};
use std::alloc::Global;

/// A value that was copied.
#[derive(Clone, Copy)]
pub(crate) struct Copied {
    /// The place of its tag in the order of tags.
    pub(crate) place: u64,

    /// The number of its octets.
    pub(crate) size: usize,
}

/// A value that is open.
#[derive(Clone, Copy)]
pub(crate) struct Enclosing<'a> {
    /// The place of its tag in the order of tags.
    pub(crate) place: u64,

    /// Whether it is a SET.
    pub(crate) sorts: bool,

    /// The octets behind it, unless its length has the indefinite form.
    pub(crate) behind: Option<&'a [u8]>,

    /// The number of octets that were copied before it.
    pub(crate) start: usize,

    /// The number of octets that were copied before its contents octets.
    pub(crate) inner: usize,

    /// The number of values that were copied before it.
    pub(crate) first: usize,
}

/// What values are put in order by.
#[derive(Clone, Copy, PartialEq, Eq, PartialOrd, Ord)]
pub(crate) struct Element<'a> {
    pub(crate) place: u64,
    pub(crate) octets: &'a [u8],
}

/// Returns the place of a tag in the order of tags (X.680, 8.6).
fn place_of(tag: Tag) -> u64
    ensures { result ≡ place tag }
{
    class_of(tag) as u64 * 2097152 + tag.number() as u64
}

/// Returns whether a tag is that of SET and SET OF.
fn is_set(tag: Tag) -> bool
    ensures { result ≡ is_set_meant tag }
{
    tag.is_universal() && tag.number() == 17
}

/// Returns the number of octets behind an open value, or 0 if its length has the indefinite form.
fn behind_len(behind: Option<&[u8]>) -> usize
    ensures { result ≡ length (behind_of (option_map (λ s. s.now) behind.entry)) }
{
    match behind {
        Some(after) => after.len(),
        None => 0,
    }
}

/// Returns the octets that end the innermost open value, and the octets behind it, if it ends here.
fn end_of<'a>(mode: Mode, behind: Option<&'a [u8]>, rest: &'a [u8]) -> Option<(&'a [u8], &'a [u8])>
    ensures { IfSome result (λ r. EndsBy mode (option_map (λ s. s.now) behind.entry)
        rest.entry.now r.0.now r.1.now) }
{
    match behind {
        Some(after) => {
            if rest.is_empty() {
                Some((rest, after))
            } else {
                None
            }
        }
        None => match end_at(mode, rest) {
            Some(after) => {
                let end = rest.split_at(rest.len() - after.len()).0;
                Some((end, after))
            }
            None => None,
        },
    }
}

/// Returns what values are put in order by, whose octets stand one after the other.
fn elements_of<'a>(
    alloc: Global,
    copied: &[Copied],
    octets: &'a [u8],
) -> Result<Vec<Element<'a>>, NoMemory>
    requires { sum_by (λ c. c.size) copied.now ≡ length octets.now }
    ensures { IfOk result (λ v. (ps : List Pair) → AreMarks copied.now ps
        → octets.now ≡ octets_of ps → AreKeyed v.items ps) }
{
    let mut elements = Vec::new(alloc);
    let mut rest = octets;
    for first in copied {
        let (value, after) = rest.split_at(first.size);
        let element = Element {
            place: first.place,
            octets: value,
        };
        if elements.push(element).is_err() {
            return Err(NoMemory);
        }
        rest = after;
    }
    Ok(elements)
}

/// Returns the octets of elements, one after the other.
fn joined(alloc: Global, elements: &[Element<'_>]) -> Result<Vec<u8>, NoMemory>
    ensures { IfOk result (λ v. (ps : List Pair) → AreKeyed elements.now ps
        → v.items ≡ octets_of ps) }
{
    let mut octets = Vec::new(alloc);
    for element in elements {
        octets.extend_from_slice(element.octets)?;
    }
    Ok(octets)
}

/// Returns the octets of values in order (X.690, 10.3, 11.6).
fn in_order(alloc: Global, copied: &[Copied], octets: &[u8]) -> Result<Vec<u8>, NoMemory>
    requires { sum_by (λ c. c.size) copied.now ≡ length octets.now }
    ensures { IfOk result (λ v. (ps : List Pair) → AreMarks copied.now ps
        → octets.now ≡ octets_of ps → PutsInOrder ps v.items) }
{
    let mut elements = elements_of(alloc, copied, octets)?;
    elements.sort_unstable();
    let sorted = joined(alloc, &elements)?;
    Ok(sorted)
}

/// Puts the values inside a SET in order. Those inside another value stay.
fn arrange(
    alloc: Global,
    value: Enclosing<'_>,
    copied: &[Copied],
    out: &mut Vec<u8>,
) -> Result<(), NoMemory>
    requires { IsEnclosing value copied.now out.old.items }
    ensures { OnOk result ((ps : List Pair) → AreMarks (drop value.entry.first copied.now) ps
        → drop value.entry.inner out.old.items ≡ octets_of ps
        → Arranged value.entry.sorts ps (take value.entry.inner out.old.items) out.new.items) }
{
    if !value.sorts {
        return Ok(());
    }
    if copied.len() - value.first < 2 {
        return Ok(());
    }
    let sorted = in_order(alloc, &copied[value.first..], &out[value.inner..])?;
    out.truncate(value.inner);
    out.extend_from_slice(&sorted)?;
    Ok(())
}

/// Copies the end of a value, and puts the values inside it in order if it is a SET.
fn leave(
    alloc: Global,
    value: Enclosing<'_>,
    end: &[u8],
    copied: &mut Vec<Copied>,
    out: &mut Vec<u8>,
) -> Result<(), NoMemory>
    requires { IsEnclosing value copied.old.items out.old.items }
    ensures { OnOk result (Leaves value.entry end.now copied.old.items out.old.items
        copied.new.items out.new.items) }
{
    arrange(alloc, value, copied, out)?;
    out.extend_from_slice(end)?;
    copied.truncate(value.first);
    let left = Copied {
        place: value.place,
        size: out.len().saturating_sub(value.start),
    };
    if copied.push(left).is_err() {
        return Err(NoMemory);
    }
    Ok(())
}

/// Copies the header of the next value, and the contents octets if the value is primitive, and
/// returns the octets that are next to come. There is a value.
fn enter<'a>(
    mode: Mode,
    rest: &'a [u8],
    opened: &mut Vec<Enclosing<'a>>,
    copied: &mut Vec<Copied>,
    out: &mut Vec<u8>,
) -> Result<&'a [u8], NoMemory>
    ensures { IfOk result (λ inner. Enters mode rest.entry.now opened.old.items
        opened.new.items copied.old.items copied.new.items out.old.items out.new.items
        inner.now) }
{
    let Some(begun) = begin(mode, rest) else {
        return Err(NoMemory);
    };
    let start = out.len();
    if begun.constructed {
        let after = begun.contents.len() + behind_len(begun.behind);
        out.extend_from_slice(rest.split_at(rest.len() - after).0)?;
        let value = Enclosing {
            place: place_of(begun.tag),
            sorts: is_set(begun.tag),
            behind: begun.behind,
            start,
            inner: out.len(),
            first: copied.len(),
        };
        if opened.push(value).is_err() {
            return Err(NoMemory);
        }
        return Ok(begun.contents);
    }
    let Some(behind) = begun.behind else {
        return Err(NoMemory);
    };
    let value = rest.split_at(rest.len() - behind.len()).0;
    out.extend_from_slice(value)?;
    let value = Copied {
        place: place_of(begun.tag),
        size: value.len(),
    };
    if copied.push(value).is_err() {
        return Err(NoMemory);
    }
    Ok(behind)
}

/// Copies the next value or its header, or the end of the innermost open value, and returns the
/// octets that are next to come.
fn step<'a>(
    alloc: Global,
    mode: Mode,
    rest: &'a [u8],
    opened: &mut Vec<Enclosing<'a>>,
    copied: &mut Vec<Copied>,
    out: &mut Vec<u8>,
) -> Result<&'a [u8], NoMemory>
    requires canonical { mode ≢ Ber }
    requires stands { IsState mode opened.old.items copied.old.items out.old.items
        rest.now }
    ensures { IfOk result (λ inner. GoesOver mode rest.entry.now opened.old.items
        opened.new.items copied.old.items copied.new.items out.old.items out.new.items
        inner.now) }
{
    let Some(&value) = opened.last() else {
        return enter(mode, rest, opened, copied, out);
    };
    match end_of(mode, value.behind, rest) {
        Some((end, after)) => {
            leave(alloc, value, end, copied, out)?;
            let _ended = opened.pop();
            Ok(after)
        }
        None => enter(mode, rest, opened, copied, out),
    }
}

/// Returns the octets of values with the values inside each SET in order.
fn sorted(alloc: Global, mode: Mode, octets: &[u8]) -> Result<Vec<u8>, NoMemory>
    requires { mode ≢ Ber }
    ensures { IfOk result (λ v. IsSorting mode octets.now v.items
        × (length v.items ≡ length octets.now)) }
{
    let mut out = Vec::new(alloc);
    let mut copied: Vec<Copied> = Vec::new(alloc);
    let mut opened: Vec<Enclosing<'_>> = Vec::new(alloc);
    let mut rest = octets;
    while !opened.is_empty() || !rest.is_empty() {
        rest = step(alloc, mode, rest, &mut opened, &mut copied, &mut out)?;
    }
    Ok(out)
}

/// Puts the values inside each SET of encodings in CER or DER in order, those that are inside
/// others first: by their tags (X.690, 9.3, 10.3), and those with one tag by their octets (11.6).
///
/// The status is `DONE`, `NO_ORDER` in BER, `ABSENT` if the octets aren't values, or `NO_MEMORY`.
/// Nothing is written unless it is `DONE`.
///
/// Octets don't tell types apart: values with several tags in a SET OF are ordered as in a SET, and
/// in CER an untagged CHOICE in a SET has the place of its own tag.
///
/// The values of a SET are sorted, and copied if there are two or more, so that `n` octets of `d`
/// SETs inside one another take about `n * (d + log n)` steps.
///
/// ```text
/// sort_sets(alloc, Mode::Der, &mut octets)   // 31 06 020102 020101 becomes 31 06 020101 020102
/// ```
pub fn sort_sets(alloc: Global, mode: Mode, octets: &mut [u8]) -> u8
    ensures { SortsSets mode octets.old result octets.new }
{
    if mode == Mode::Ber {
        return NO_ORDER;
    }
    match are_values(alloc, mode, octets) {
        DONE => {}
        NO_MEMORY => return NO_MEMORY,
        _ => return ABSENT,
    }
    match sorted(alloc, mode, octets) {
        Ok(sorted) => {
            octets.copy_from_slice(&sorted);
            DONE
        }
        Err(NoMemory) => NO_MEMORY,
    }
}
