//! Compares expected answers from outside with those of the library, and two of its readers with
//! each other. The calls are those that take, skip, keep and cut values. What single values mean is
//! compared in `values`.
//!
//! The head of each file of `data/` says what its columns mean and where its answers come from.
//! `walk.tsv` and most of `octet_strings.tsv` have answers of the Rust crate bcder 0.7.7. The
//! others are written by the rules of X.690 and of the calls.
//!
//! Then `walk` and the plain reader are compared with each other on all short lists of some octets.
//!
//! The output counts the answers of each kind that were compared, so that a line that is left out
//! is noticed.
#![tactic(auto, using(bcder::specs::laws::Moved::untouched_is_moved))]

mod captures;
mod cut;
mod labels;
mod partial;
mod positions;
mod skips;
mod strings;
mod takes;
mod values;
mod walks;

use anyhow::Error;
use lines::calls::CALLS;
use lines::replay::{print, replay};
use lines::tally::Tally;

/// Prints what was compared of each reader.
fn print_readers(rt: &HostRuntime, what: &str, tallies: walks::Tallies) -> Result<(), Error> {
    for (reader, tally) in [
        ("plain reader", tallies.plain),
        ("walk", tallies.walk),
        ("skip_one", tallies.skip_one),
        ("capture_one", tallies.capture_one),
    ] {
        println!(rt;
            "{what}, {reader}: {} answers compared, {} differ",
            tally.compared, tally.differ
        )?;
    }
    Ok(())
}

/// Replays `skips.tsv`.
fn replay_skips(rt: &HostRuntime) -> Result<(), Error> {
    let mut tallies = skips::Tallies::default();
    replay(rt, "skips.tsv", &mut tallies, skips::compare_line)?;
    print(rt, "headings told", tallies.told)?;
    print_readers(rt, "values that are told", tallies.others)?;
    print(
        rt,
        "values that are told, skip_all",
        tallies.others.skip_all,
    )
}

/// Replays `labels.tsv`.
fn replay_labels(rt: &HostRuntime) -> Result<(), Error> {
    let mut tally = Tally::default();
    replay(rt, "labels.tsv", &mut tally, labels::compare_line)?;
    print(rt, "rules of captures", tally)
}

/// Replays `walk.tsv` and `fronts.tsv`, and compares the readers on short lists.
fn replay_walks(rt: &HostRuntime) -> Result<(), Error> {
    let mut tallies = walks::Tallies::default();
    replay(rt, "walk.tsv", &mut tallies, walks::compare_line)?;
    print_readers(rt, "values", tallies)?;
    let mut tallies = walks::Tallies::default();
    replay(rt, "fronts.tsv", &mut tallies, walks::compare_fronts)?;
    print_readers(rt, "values that are cut", tallies)?;
    print(rt, "values that are cut, skip_all", tallies.skip_all)?;
    let tallies = walks::compare_lists(rt.alloc());
    print(rt, "short lists, walk and plain reader", tallies.walk)?;
    print(
        rt,
        "short lists, skip_one and plain reader",
        tallies.skip_one,
    )
}

/// Replays `takes.tsv` and `typed.tsv`.
fn replay_takes(rt: &HostRuntime) -> Result<(), Error> {
    let mut counts = takes::Counts::new(rt.alloc())?;
    replay(rt, "takes.tsv", &mut counts, takes::compare_line)?;
    replay(rt, "typed.tsv", &mut counts, takes::compare_line)?;
    for (name, call) in CALLS {
        print(rt, name, counts.of(call))?;
    }
    print(rt, "modes", counts.modes)?;
    print(rt, "octets left", counts.left)
}

/// Replays `captures.tsv`.
fn replay_captures(rt: &HostRuntime) -> Result<(), Error> {
    let mut tallies = captures::Tallies::default();
    replay(rt, "captures.tsv", &mut tallies, captures::compare_line)?;
    print(rt, "captures", tallies.captures)?;
    print(rt, "steps beside captures", tallies.others)?;
    print(rt, "octets left of captures", tallies.left)
}

/// Replays `partial.tsv`.
fn replay_partial(rt: &HostRuntime) -> Result<(), Error> {
    let mut tally = Tally::default();
    replay(rt, "partial.tsv", &mut tally, partial::compare_line)?;
    print(rt, "captured values decoded in part", tally)
}

/// Replays `positions.tsv`.
fn replay_positions(rt: &HostRuntime) -> Result<(), Error> {
    let mut tally = Tally::default();
    replay(rt, "positions.tsv", &mut tally, positions::compare_line)?;
    print(rt, "positions of refusals", tally)
}

/// Replays `octet_strings.tsv`.
fn replay_strings(rt: &HostRuntime) -> Result<(), Error> {
    let mut tally = Tally::default();
    replay(rt, "octet_strings.tsv", &mut tally, strings::compare_line)?;
    print(rt, "octet strings taken", tally)
}

/// The files of data whose lines begin with octets, except those that have the octets of another
/// file.
const OCTETS_FIRST: [&str; 2] = ["walk.tsv", "octet_strings.tsv"];

/// The files of data whose lines begin with modes, followed by octets.
const MODES_FIRST: [&str; 6] = [
    "fronts.tsv",
    "skips.tsv",
    "takes.tsv",
    "typed.tsv",
    "captures.tsv",
    "labels.tsv",
];

/// Cuts each value of these files at each of its octets, for every reader.
fn cut_values(rt: &HostRuntime) -> Result<(), Error> {
    let mut tally = Tally::default();
    for file in OCTETS_FIRST {
        replay(rt, file, &mut tally, cut::compare_octets)?;
    }
    for file in MODES_FIRST {
        replay(rt, file, &mut tally, cut::compare_line)?;
    }
    print(rt, "values cut at each octet, every reader", tally)
}

fn main(rt: HostRuntime) -> Result<(), Error> {
    replay_walks(&rt)?;
    replay_skips(&rt)?;
    replay_takes(&rt)?;
    replay_captures(&rt)?;
    replay_labels(&rt)?;
    replay_partial(&rt)?;
    replay_positions(&rt)?;
    replay_strings(&rt)?;
    cut_values(&rt)?;
    values::replay_values(&rt)
}
