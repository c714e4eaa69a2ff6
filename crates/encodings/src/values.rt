//! Whole values: the first of octets, or all that they are.
ghost use Rattle.std.specs.Prelude.{◌≡◌, ◌≢◌};
ghost use Rattle.bcder.specs.calls.Captured.{AreWhole};
ghost use Rattle.encodings.specs.Status.{done, no_memory};
ghost use Rattle.encodings.specs.Values.{AreNoValues};
ghost use Rattle.encodings.specs.Values.{PassesFirst, PassesAll, PassesAllWithin};

use crate::checked::Checked;
use crate::status::DONE;
use crate::walk::pass_value;
use bcder::Mode;
use std::alloc::Global;

const NOTHING: Checked = Checked {
    at: 0,
    values: 0,
    depth: 0,
};

/// Passes over all octets as values, one after the other.
fn pass_all(alloc: Global, mode: Mode, octets: &[u8], levels: usize, checked: &mut Checked) -> u8
    requires { checked.old ≡ record { at = 0; values = 0; depth = 0 } }
    ensures { PassesAllWithin mode levels octets.now result checked.new }
{
    let mut rest = octets;
    while !rest.is_empty() {
        match pass_value(alloc, mode, rest, levels, checked) {
            Ok(after) => rest = after,
            Err(status) => return status,
        }
    }
    DONE
}

/// Returns whether all octets are values, one after the other, as a status: `DONE` if they are, and
/// `NO_MEMORY` if memory ran out.
pub fn are_values(alloc: Global, mode: Mode, octets: &[u8]) -> u8
    ensures whole { result ≡ done → AreWhole mode octets.now }
    ensures none { result ≢ done → result ≢ no_memory → AreNoValues mode octets.now }
{
    let mut checked = NOTHING;
    pass_all(alloc, mode, octets, usize::MAX, &mut checked)
}

/// Passes over the first value (X.690, 8.1.1), and stores what it met.
///
/// The status is `DONE`, `ABSENT`, `BEYOND` or `ENDED` where no value is, or `NO_MEMORY`.
pub fn check_first(alloc: Global, mode: Mode, octets: &[u8], checked: &mut Checked) -> u8
    ensures { PassesFirst mode octets.now result checked.new }
{
    *checked = NOTHING;
    match pass_value(alloc, mode, octets, usize::MAX, checked) {
        Ok(_) => DONE,
        Err(status) => status,
    }
}

/// Passes over all octets as values, one after the other (X.690, 8.1.1), and stores what it met.
///
/// The status is `DONE`, `ABSENT`, `BEYOND` or `ENDED` where no value is, or `NO_MEMORY`.
///
/// ```text
/// check(alloc, Mode::Der, &[0x30, 0x02, 0x05, 0x00], &mut checked)   // at 4, values 2, depth 2
/// ```
pub fn check(alloc: Global, mode: Mode, octets: &[u8], checked: &mut Checked) -> u8
    ensures { PassesAll mode octets.now result checked.new }
{
    *checked = NOTHING;
    pass_all(alloc, mode, octets, usize::MAX, checked)
}

/// Passes over all octets as [`check`] does, but refuses a value inside `levels` others or more,
/// with `TOO_DEEP`.
pub fn check_within(
    alloc: Global,
    mode: Mode,
    octets: &[u8],
    levels: usize,
    checked: &mut Checked,
) -> u8
    ensures { PassesAllWithin mode levels octets.now result checked.new }
{
    *checked = NOTHING;
    pass_all(alloc, mode, octets, levels, checked)
}
