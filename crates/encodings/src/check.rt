//! Checking values with a stack of the caller's. No memory is allocated.
ghost use Rattle.std.specs.Prelude.{◌≡◌, ◌≢◌, ◌+◌, ◌-◌, ◌^◌, ◌<◌, max, length};
ghost use Rattle.encodings.specs.Next.{an_end};
ghost use Rattle.encodings.specs.Values.{PassesAllOn};

use crate::checked::Checked;
use crate::heading::Heading;
use crate::next::{END, Event, Walk, advance};
use crate::status::{DONE, FINISHED};
use bcder::Mode;

/// What is told before the first step.
const NO_EVENT: Event = Event {
    heading: Heading {
        size: 0,
        len: 0,
        number: 0,
        class: 0,
        constructed: false,
        indefinite: false,
    },
    at: 0,
    depth: 0,
    kind: END,
};

/// Adds what a step passed, and the value if it told one.
#[inline(always)]
fn count(checked: &mut Checked, at: usize, event: &Event)
    requires values { checked.old.values < 2 ^ 64 - 1 }
    requires depth { event.now.depth < 2 ^ 64 - 1 }
    ensures end { event.now.kind ≡ an_end → checked.new ≡ record {
      at = at;
      values = checked.old.values;
      depth = checked.old.depth;
    } }
    ensures value { event.now.kind ≢ an_end → checked.new ≡ record {
      at = at;
      values = checked.old.values + 1;
      depth = max checked.old.depth (event.now.depth + 1);
    } }
{
    checked.at = at;
    if event.kind != END {
        checked.values += 1;
        checked.depth = checked.depth.max(event.depth + 1);
    }
}

/// Passes over all octets as values, with a number for each open value.
fn pass_on(mode: Mode, octets: &[u8], stack: &mut [usize], checked: &mut Checked) -> u8
    requires { checked.old ≡ record { at = 0; values = 0; depth = 0 } }
    ensures { PassesAllOn mode (length stack.old) octets.now result checked.new }
{
    let mut walk = Walk {
        at: 0,
        end: octets.len(),
        depth: 0,
    };
    let mut event = NO_EVENT;
    loop {
        match advance(mode, octets, stack, &mut walk, &mut event) {
            DONE => count(checked, walk.at, &event),
            FINISHED => return DONE,
            status => return status,
        }
    }
}

/// Passes over all octets as [`values::check`](crate::values::check) does, with a stack of the
/// caller's in place of memory: a number for each open value. A constructed value inside as many
/// others is refused. What the numbers are before and after doesn't matter.
///
/// ```text
/// check_on(Mode::Der, &[0x30, 0x02, 0x05, 0x00], &mut [0], &mut checked)   // DONE
/// ```
pub fn check_on(mode: Mode, octets: &[u8], stack: &mut [usize], checked: &mut Checked) -> u8
    ensures { PassesAllOn mode (length stack.old) octets.now result checked.new }
{
    *checked = Checked {
        at: 0,
        values: 0,
        depth: 0,
    };
    pass_on(mode, octets, stack, checked)
}
