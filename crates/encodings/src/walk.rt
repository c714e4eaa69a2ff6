//! Passing over values with a stack of those that are open.
ghost use Rattle.std.specs.Prelude.{◌≡◌, ◌≢◌, ◌+◌, ◌-◌, ◌^◌, ◌<◌, ◌≤◌, max, None, length};
ghost use Rattle.std.specs.Prelude.{MatchOption, IfOk, IfErr, OnOk, OnErr, option_map};
ghost use Rattle.encodings.specs.Open.{Begins, Closes, GoesOn, HasHeader, NoneBegins};
ghost use Rattle.encodings.specs.Open.{open_values, value_and_rest};
ghost use Rattle.encodings.specs.Status.{no_memory, too_deep};
ghost use Rattle.encodings.specs.Values.{DeeperValue, PassedValue, RefusedValue};

use crate::checked::Checked;
use crate::status::{ABSENT, BEYOND, ENDED, NO_MEMORY, TOO_DEEP};
use bcder::Mode;
use bcder::plain::{end_at, front_at};
use std::alloc::Global;

/// Goes past the end of the innermost open value if that comes next, adds its octets to `at`, and
/// returns the octets after it.
#[inline(always)]
pub(crate) fn close<'a>(
    mode: Mode,
    innermost: Option<&'a [u8]>,
    rest: &'a [u8],
    at: &mut usize,
) -> Option<&'a [u8]>
    requires { at.old + length rest.now < 2 ^ 64 }
    ensures { MatchOption result
        (GoesOn mode (option_map (λ s. s.now) innermost.entry) rest.now × (at.new ≡ at.old))
        (λ after. (n : _)
        × Closes mode (option_map (λ s. s.now) innermost.entry) rest.now after.now n
        × (at.new ≡ at.old + n)) }
{
    match innermost {
        Some(behind) => { if rest.is_empty() { Some(behind) } else { None } }
        None => match end_at(mode, rest) {
            Some(after) => {
                *at += rest.len() - after.len();
                Some(after)
            }
            None => None,
        },
    }
}

/// Adds a value at a depth, of which so many octets were passed.
#[inline(always)]
fn tally(checked: &mut Checked, size: usize, depth: usize)
    requires at { checked.old.at + size < 2 ^ 64 }
    requires values { checked.old.values < 2 ^ 64 - 1 }
    ensures at { checked.new.at ≡ checked.old.at + size }
    ensures values { checked.new.values ≡ checked.old.values + 1 }
    ensures depth { checked.new.depth ≡ max checked.old.depth depth }
{
    checked.at += size;
    checked.values += 1;
    checked.depth = checked.depth.max(depth);
}

/// Passes the header of the next value, and the contents if the value is primitive, adds what was
/// met to `checked`, and returns the octets that are next to come.
#[inline(always)]
fn begin<'a>(
    mode: Mode,
    rest: &'a [u8],
    opened: &mut Vec<Option<&'a [u8]>>,
    levels: usize,
    checked: &mut Checked,
) -> Result<&'a [u8], u8>
    requires at { checked.old.at + length rest.now < 2 ^ 64 }
    requires values { checked.old.values ≤ checked.old.at }
    requires depth { opened.old.len ≤ checked.old.at }
    requires few { opened.old.len ≤ levels }
    ensures begins { IfOk result (λ inner.
        Begins mode (open_values opened.old.items) rest.now
        (open_values opened.new.items) inner.now checked.old checked.new) }
    ensures few { OnOk result (opened.new.len ≤ levels) }
    ensures shallow { OnOk result (checked.new.depth ≤ max checked.old.depth levels) }
    ensures why { IfErr result (λ status. status ≢ no_memory → status ≢ too_deep
        → NoneBegins mode rest.now status) }
    ensures none { IfErr result (λ status. status ≢ no_memory → status ≢ too_deep
        → (os : _) → value_and_rest mode os rest.now ≡ None) }
    ensures deep { IfErr result (λ status. status ≡ too_deep
        → HasHeader mode rest.now × (opened.old.len ≡ levels) × (levels + 2 < 2 ^ 64)) }
    ensures kept { OnErr result (checked.new ≡ checked.old) }
{
    if rest.is_empty() {
        return Err(ENDED);
    }
    let Some(front) = front_at(mode, rest) else {
        return Err(ABSENT);
    };
    if opened.len() == levels {
        return Err(TOO_DEEP);
    }
    match front.len {
        Some(len) => {
            if front.rest.len() < len {
                return Err(BEYOND);
            }
            let (contents, behind) = front.rest.split_at(len);
            if !front.constructed {
                tally(checked, rest.len() - behind.len(), opened.len() + 1);
                return Ok(behind);
            }
            if opened.push(Some(behind)).is_err() {
                return Err(NO_MEMORY);
            }
            tally(checked, rest.len() - front.rest.len(), opened.len());
            Ok(contents)
        }
        None => {
            if opened.push(None).is_err() {
                return Err(NO_MEMORY);
            }
            tally(checked, rest.len() - front.rest.len(), opened.len());
            Ok(front.rest)
        }
    }
}

/// Passes over the first value, adds what was met to `checked`, and returns the octets after it. A
/// value inside `levels` others or more is refused.
///
/// The open values are on the heap, so the depth of calls doesn't grow with the depth of values.
pub(crate) fn pass_value<'a>(
    alloc: Global,
    mode: Mode,
    octets: &'a [u8],
    levels: usize,
    checked: &mut Checked,
) -> Result<&'a [u8], u8>
    requires at { checked.old.at + length octets.now < 2 ^ 64 }
    requires values { checked.old.values ≤ checked.old.at }
    ensures passed { IfOk result (λ rest.
        PassedValue mode octets.now rest.now checked.old checked.new) }
    ensures values { checked.new.values ≤ checked.new.at }
    ensures shallow { checked.new.depth ≤ max checked.old.depth levels }
    ensures refused { IfErr result (λ status. status ≢ no_memory → status ≢ too_deep
        → RefusedValue mode octets.now checked.old checked.new status) }
    ensures deep { IfErr result (λ status. status ≡ too_deep
        → DeeperValue mode levels octets.now checked.old checked.new) }
{
    let mut opened: Vec<Option<&'a [u8]>> = Vec::new(alloc);
    let mut rest = match begin(mode, octets, &mut opened, levels, checked) {
        Ok(rest) => rest,
        Err(status) => return Err(status),
    };
    while let Some(&innermost) = opened.last() {
        match close(mode, innermost, rest, &mut checked.at) {
            Some(after) => {
                let _ended = opened.pop();
                rest = after;
            }
            None => match begin(mode, rest, &mut opened, levels, checked) {
                Ok(inner) => rest = inner,
                Err(status) => return Err(status),
            },
        }
    }
    Ok(rest)
}
