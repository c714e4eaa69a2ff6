//! Values one after the other, with a state that the caller keeps. No memory is allocated.
ghost use Rattle.std.specs.Prelude.{◌≡◌, ◌≢◌, ◌↔◌, ◌+◌, ◌-◌, ◌^◌, ◌<◌, ◌≤◌, length, slice_set};
ghost use Rattle.std.specs.Prelude.{ℕ, List, [], IsTrue, IsFalse};
ghost use Rattle.bcder.specs.x690.Preorder.{Heading as HeadingMet};
ghost use Rattle.encodings.specs.Next.{Advanced, Advances, IsDue, MayStand, StandsFor};
ghost use Rattle.encodings.specs.Next.{Decides, StandsForNone, Walked};
ghost use Rattle.encodings.specs.Next.{an_end, end_told, kind_of as kind_number};
ghost use Rattle.encodings.specs.Status.{done, misused};

use crate::heading::{Heading, heading_of};
use crate::status::{ABSENT, BEYOND, DONE, ENDED, FINISHED, MISUSED, TOO_DEEP};
use bcder::Mode;
use bcder::plain::{end_at, front_at};

/// Where a walk over octets is. At the start `end` is their number, and the rest is 0.
///
/// The caller also keeps a number for each open value, the outermost first: the `end` that is to
/// hold again behind a value of definite length, or `NO_OFFSET` for one of indefinite length.
#[repr(C)]
#[derive(Clone, Copy)]
pub struct Walk {
    /// The number of octets that were passed.
    pub at: usize,

    /// Where the innermost open value of definite length ends, or the octets if there is none.
    pub end: usize,

    /// The number of open values.
    pub depth: usize,
}

/// A value, or the end of one.
#[repr(C)]
#[derive(Clone, Copy)]
pub struct Event {
    /// The header of the value. At an end, `size` is the number of end-of-contents octets, and the
    /// rest is 0.
    pub heading: Heading,

    /// Where the header or the end begins.
    pub at: usize,

    /// The number of values around the value.
    pub depth: usize,

    /// 0: a primitive value, 1: the beginning of a constructed one, 2: its end.
    pub kind: u8,
}

/// The kind of an event that is an end.
pub const END: u8 = 2;

/// What is kept for an open value of indefinite length.
pub const NO_OFFSET: usize = usize::MAX;

fn kind_of(constructed: bool) -> u8
    ensures { result ≡ kind_number constructed }
{
    if constructed { 1 } else { 0 }
}

/// Returns whether the numbers that a call reads can be those of a walk.
fn may_stand(octets: &[u8], stack: &[usize], walk: &Walk) -> bool
    ensures { IsTrue result ↔ MayStand octets.now stack.now walk.now }
{
    if walk.at > walk.end || walk.end > octets.len() || walk.depth > stack.len() {
        return false;
    }
    if walk.depth == 0 {
        return walk.end == octets.len();
    }
    let kept = stack[walk.depth - 1];
    let outer = if kept == NO_OFFSET { walk.end } else { kept };
    walk.end <= outer && outer <= octets.len() && (walk.depth > 1 || outer == octets.len())
}

/// Goes past an end of so many octets, and tells it.
fn close(walk: &mut Walk, event: &mut Event, size: usize, end: usize)
    requires at { walk.old.at + size < 2 ^ 64 }
    requires depth { 0 < walk.old.depth }
    ensures walk { walk.new ≡ record {
      at = walk.old.at + size;
      end = end;
      depth = walk.old.depth - 1;
    } }
    ensures event { event.new ≡ record {
      heading = end_told size;
      at = walk.old.at;
      depth = walk.old.depth - 1;
      kind = an_end;
    } }
{
    let depth = walk.depth - 1;
    let heading = Heading {
        size,
        len: 0,
        number: 0,
        class: 0,
        constructed: false,
        indefinite: false,
    };
    *event = Event {
        heading,
        at: walk.at,
        depth,
        kind: END,
    };
    *walk = Walk {
        at: walk.at + size,
        end,
        depth,
    };
}

/// Goes past the end of the innermost open value if that comes next, and returns whether it does.
#[inline(always)]
fn leave(mode: Mode, octets: &[u8], stack: &[usize], walk: &mut Walk, event: &mut Event) -> bool
    requires stands { MayStand octets.now stack.now walk.old }
    requires opened { 0 < walk.old.depth }
    ensures left { IsTrue result → (os : _) (x : _)
        → StandsFor octets.now stack.now walk.old os x
        → Advanced mode octets.now os x stack.now stack.now walk.old walk.new event.new }
    ensures due { IsFalse result → (os : _) (x : _)
        → StandsFor octets.now stack.now walk.old os x → IsDue mode os x }
    ensures kept { IsFalse result → (walk.new ≡ walk.old) × (event.new ≡ event.old) }
{
    let rest = &octets[walk.at..walk.end];
    let kept = stack[walk.depth - 1];
    if kept == NO_OFFSET {
        let Some(after) = end_at(mode, rest) else {
            return false;
        };
        let end = walk.end;
        close(walk, event, rest.len() - after.len(), end);
        return true;
    }
    if !rest.is_empty() {
        return false;
    }
    close(walk, event, 0, kept);
    true
}

/// Opens a value, for which a number is kept.
fn open(stack: &mut [usize], walk: &mut Walk, kept: usize, at: usize, end: usize)
    requires { walk.old.depth < length stack.old }
    ensures stack { stack.new ≡ slice_set stack.old walk.old.depth kept }
    ensures walk { walk.new ≡ record { at = at; end = end; depth = walk.old.depth + 1 } }
{
    stack[walk.depth] = kept;
    *walk = Walk {
        at,
        end,
        depth: walk.depth + 1,
    };
}

/// Goes past the header of the next value, and the contents if the value is primitive, and tells
/// it.
#[inline(always)]
fn enter(mode: Mode, octets: &[u8], stack: &mut [usize], walk: &mut Walk, event: &mut Event) -> u8
    requires { MayStand octets.now stack.old walk.old }
    ensures entered { (os : _) (x : _) → StandsFor octets.now stack.old walk.old os x
        → IsDue mode os x → Advances mode octets.now os x stack.old stack.new
        walk.old walk.new event.new result }
    ensures kept { result ≢ done
        → (stack.new ≡ stack.old) × (walk.new ≡ walk.old) × (event.new ≡ event.old) }
    ensures used { result ≢ misused }
{
    let rest = &octets[walk.at..walk.end];
    if rest.is_empty() {
        return ENDED;
    }
    let Some(front) = front_at(mode, rest) else {
        return ABSENT;
    };
    let size = rest.len() - front.rest.len();
    let begun = Event {
        heading: heading_of(front.tag, front.constructed, front.len, size),
        at: walk.at,
        depth: walk.depth,
        kind: kind_of(front.constructed),
    };
    let inner = walk.at + size;
    let end = walk.end;
    match front.len {
        Some(len) => {
            if front.rest.len() < len {
                return BEYOND;
            }
            if !front.constructed {
                walk.at = inner + len;
                *event = begun;
                return DONE;
            }
            if walk.depth == stack.len() {
                return TOO_DEEP;
            }
            open(stack, walk, end, inner, inner + len);
            *event = begun;
            DONE
        }
        None => {
            if walk.depth == stack.len() {
                return TOO_DEEP;
            }
            open(stack, walk, NO_OFFSET, inner, end);
            *event = begun;
            DONE
        }
    }
}

/// Goes to the next value or end, and stores it.
pub(crate) fn advance(
    mode: Mode,
    octets: &[u8],
    stack: &mut [usize],
    walk: &mut Walk,
    event: &mut Event,
) -> u8
    ensures misused { result ≡ misused ↔ (MayStand octets.now stack.old walk.old → ⊥) }
    ensures advances { (os : _) (x : _) → StandsFor octets.now stack.old walk.old os x
        → Advances mode octets.now os x stack.old stack.new walk.old walk.new event.new result }
    ensures kept { result ≢ done
        → (stack.new ≡ stack.old) × (walk.new ≡ walk.old) × (event.new ≡ event.old) }
{
    if !may_stand(octets, stack, walk) {
        return MISUSED;
    }
    if walk.depth == 0 {
        if walk.at == walk.end {
            return FINISHED;
        }
        return enter(mode, octets, stack, walk, event);
    }
    if leave(mode, octets, stack, walk, event) {
        return DONE;
    }
    enter(mode, octets, stack, walk, event)
}

/// Goes to the next value or end, and stores it (X.690, 8.1.1, 8.1.5).
///
/// A constructed value is an event where it begins, and one where it ends. What it contains comes
/// between them.
///
/// The status is `DONE`, or `FINISHED` behind the last value. Octets that aren't values are refused
/// with `ABSENT`, `BEYOND` or `ENDED`, a value that needs one number more than the stack has with
/// `TOO_DEEP`, and a state that no walk over the octets has with `MISUSED`.
pub fn next_event(
    mode: Mode,
    octets: &[u8],
    stack: &mut [usize],
    walk: &mut Walk,
    event: &mut Event,
) -> u8
    ensures misused { result ≡ misused ↔ StandsForNone octets.now stack.old walk.old }
    ensures advances { (os : _) (x : _) → StandsFor octets.now stack.old walk.old os x
        → Advances mode octets.now os x stack.old stack.new walk.old walk.new event.new result }
    ensures start { walk.old ≡ record { at = 0; end = length octets.now; depth = 0 }
        → Walked mode octets.now stack.old walk.old [] [] }
    ensures decides { (passed : List ℕ) (met : List HeadingMet)
        → Walked mode octets.now stack.old walk.old passed met
        → Decides mode octets.now passed met stack.new walk.new result }
    ensures kept { result ≢ done
        → (stack.new ≡ stack.old) × (walk.new ≡ walk.old) × (event.new ≡ event.old) }
{
    advance(mode, octets, stack, walk, event)
}
