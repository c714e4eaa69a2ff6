//! Compares what single values mean: integers, object identifiers, bit strings and tags.
//!
//! The files that end in `_values.tsv` have answers of the Rust crate bcder 0.7.7. `integers.tsv`
//! and `components.tsv` have numbers that another language wrote. The others are written by the
//! rules of X.690.
//!
//! Then the readers of integers are compared with conversions of std on all contents of one and two
//! octets.

mod bits;
mod identifiers;
mod integers;
mod numbers;
mod tags;
mod written;

use anyhow::Error;
use lines::replay::{print, replay};
use lines::tally::Tally;

/// Replays `tags.tsv` and `headers.tsv`.
fn replay_tags(rt: &HostRuntime) -> Result<(), Error> {
    let mut tallies = tags::Tallies::default();
    replay(rt, "tags.tsv", &mut tallies, tags::compare_line)?;
    print(rt, "tags taken", tallies.taken)?;
    print(rt, "tags refused", tallies.refused)?;
    print(rt, "tags shown", tallies.shown)?;
    print(rt, "tags written", tallies.written)?;
    let mut tally = Tally::default();
    replay(rt, "headers.tsv", &mut tally, written::compare_header)?;
    print(rt, "headers written", tally)
}

/// Prints what was compared of each kind of reader of integers.
fn print_numbers(rt: &HostRuntime, what: &str, readers: numbers::Readers) -> Result<(), Error> {
    for (reader, tally) in [
        ("of octets", readers.octets),
        ("of octets, by the types of integers", readers.from_octets),
        ("of content", readers.content),
        ("taken", readers.taken),
        ("taken if there", readers.optional),
        ("skipped", readers.skipped),
        ("kept", readers.kept),
        ("unsigned, made of octets", readers.made),
        ("truth values", readers.truths),
    ] {
        if tally.compared > 0 {
            println!(rt;
                "{what}, {reader}: {} answers compared, {} differ",
                tally.compared, tally.differ
            )?;
        }
    }
    Ok(())
}

/// Replays the files of integers, and compares all contents of one and two octets with what std
/// makes of them.
fn replay_integers(rt: &HostRuntime) -> Result<(), Error> {
    let mut tallies = integers::Tallies::default();
    replay(rt, "integers.tsv", &mut tallies, integers::compare_line)?;
    replay(
        rt,
        "integer_values.tsv",
        &mut tallies,
        integers::compare_value,
    )?;
    replay(
        rt,
        "unsigned.tsv",
        &mut tallies,
        integers::compare_made_unsigned,
    )?;
    replay(rt, "orders.tsv", &mut tallies, integers::compare_order)?;
    print_numbers(rt, "numbers", tallies.readers)?;
    let short = numbers::compare_short(rt.alloc())?;
    print_numbers(rt, "all contents of one and two octets", short)?;
    for (what, tally) in [
        ("integers converted", tallies.converted),
        ("integers made", tallies.made),
        ("integers taken", tallies.values),
        ("integers written", tallies.written),
        ("unsigned integers made", tallies.unsigned),
        ("integers ordered", tallies.ordered),
    ] {
        print(rt, what, tally)?;
    }
    Ok(())
}

/// Replays the files of object identifiers.
fn replay_identifiers(rt: &HostRuntime) -> Result<(), Error> {
    let mut tallies = identifiers::Tallies::default();
    replay(
        rt,
        "identifiers.tsv",
        &mut tallies,
        identifiers::compare_line,
    )?;
    replay(rt, "texts.tsv", &mut tallies, identifiers::compare_text)?;
    replay(
        rt,
        "components.tsv",
        &mut tallies,
        identifiers::compare_components,
    )?;
    replay(
        rt,
        "identifier_values.tsv",
        &mut tallies,
        identifiers::compare_value,
    )?;
    for (what, tally) in [
        ("identifiers read", tallies.read),
        ("identifiers shown", tallies.shown),
        ("texts of identifiers", tallies.texts),
        ("components", tallies.components),
        ("identifiers taken", tallies.values),
    ] {
        print(rt, what, tally)?;
    }
    Ok(())
}

/// Replays `bit_values.tsv`.
fn replay_bits(rt: &HostRuntime) -> Result<(), Error> {
    let mut tally = Tally::default();
    replay(rt, "bit_values.tsv", &mut tally, bits::compare_value)?;
    print(rt, "bit strings taken", tally)
}

/// Replays the files on single values, and prints what was compared.
pub fn replay_values(rt: &HostRuntime) -> Result<(), Error> {
    replay_tags(rt)?;
    replay_integers(rt)?;
    replay_identifiers(rt)?;
    replay_bits(rt)
}
