//! The end-of-contents octets behind values (X.690, 8.1.5).
ghost use Rattle.std.specs.Prelude.{◌≡◌, ◌≤◌, ◌↔◌, true, IsTrue, List, ℕ, length, take};
ghost use Rattle.bcder.specs.steps.CaptureSteps.{EndsBy, EndsIn};
ghost use Rattle.bcder.specs.x690.Encoding.{AreEncodings};
ghost use Rattle.bcder.specs.x690.Tree.{Trees};

use super::{Constructed, Kind, State};
use crate::decode::source::{LimitedSource, SliceSource};
use crate::mode::Mode;
use crate::plain::{end_at, is_list};
use bytes::Bytes;
use std::alloc::Global;

/// Returns whether the octets are the encodings of a list of values.
///
/// They are skipped with a stack, so the depth of calls doesn't grow with the depth of values. The
/// plain reader looks at them only if memory runs out for that stack.
fn are_values(mode: Mode, alloc: Global, octets: &[u8]) -> bool
    ensures { IsTrue result ↔ (ts : Trees) × AreEncodings mode ts octets.now }
{
    let mut source = LimitedSource::new(SliceSource::new(octets));
    let mut cons = Constructed::over(&mut source, Kind::Unbounded, State::Open, mode);
    match cons.skip_all(alloc) {
        Ok(()) => true,
        Err(error) => error.is_memory() && is_list(mode, octets),
    }
}

/// Returns whether the last `size` octets are end-of-contents octets behind whole values.
fn ends_by(mode: Mode, alloc: Global, octets: &[u8], size: usize) -> bool
    ensures { IsTrue result ↔ EndsBy mode octets.now size }
{
    if octets.len() < size {
        return false;
    }
    let (front, end) = octets.split_at(octets.len() - size);
    match end_at(mode, end) {
        Some(rest) => rest.is_empty() && are_values(mode, alloc, front),
        None => false,
    }
}

/// Returns how many octets come before the end-of-contents octets at the end.
///
/// The marker is two octets. Only in BER can it be longer. Only if the octets end like a longer one
/// are the values before it looked at again.
fn len_before_marker(mode: Mode, alloc: Global, octets: &[u8]) -> usize
    requires { (front : List ℕ) × EndsIn mode true octets.now front }
    ensures fits { result ≤ length octets.now }
    ensures ends { EndsIn mode true octets.now (take result octets.now) }
{
    for size in 3..7 {
        if ends_by(mode, alloc, octets, size) {
            return octets.len() - size;
        }
    }
    octets.len() - 2
}

/// Returns the octets without the marker behind them, if there is one. None are copied.
pub(super) fn strip_marker(mode: Mode, alloc: Global, mut octets: Bytes, marker: bool) -> Bytes
    requires { (front : List ℕ) × EndsIn mode marker octets front }
    ensures { EndsIn mode marker octets result }
{
    if marker {
        let front = len_before_marker(mode, alloc, octets.as_slice());
        octets.truncate(front);
    }
    octets
}
