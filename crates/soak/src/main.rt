//! Compares the readers with each other, and the encoders with the readers, on values made from a
//! fixed seed.
//!
//! First it makes values, spoils some of them, and reads them in every way over three sources. It
//! compares the answers, what is left and the headings with one another. Then it makes structures,
//! has the encoders write them, and reads them back. What differs is printed in hexadecimal, and
//! then the exit status is 1.
#![tactic(auto, using(bcder::specs::laws::Moved::untouched_is_moved))]

mod headings;
mod made;
mod random;
mod readers;
mod structures;
mod tally;
mod written;

use anyhow::Error;
use bcder::Mode;
use made::{spoiled, values};
use random::Random;
use readers::compare;
use std::alloc::Global;
use std::fmt;
use tally::Tally;

/// How many values, and how many structures, are made in each mode.
const COUNT: u64 = 100_000;

/// The error that answers differ.
#[derive(Clone, Copy, Debug)]
struct Differ;

impl fmt::Display for Differ {
    fn fmt<W: fmt::Write>(&self, f: &mut fmt::Formatter<W>) -> fmt::Result {
        write!(f, "answers differ")
    }
}

impl std::error::Error for Differ {}

/// Compares the readers on values that are made in a mode. They are read in that mode and, one in
/// eight, in each other one.
fn read_values(rt: &HostRuntime, mode: Mode, random: &mut Random) -> Result<(), Error> {
    let alloc = rt.alloc();
    let mut tally = Tally::default();
    for _ in 0..COUNT {
        let octets = values(alloc, random, mode)?;
        let octets = spoiled(alloc, random, octets)?;
        let in_each = random.one_of(8);
        for read in [Mode::Ber, Mode::Cer, Mode::Der] {
            if read == mode || in_each {
                let differ = tally.differ;
                compare(alloc, read, &octets, &mut tally)?;
                if tally.differ != differ {
                    println!(rt; "{read:?}: {}", hex::encode(alloc, &octets)?)?;
                }
            }
        }
    }
    println!(rt;
        "made in {mode:?}: {} values, {} others, {} answers compared, {} differ",
        tally.values, tally.refused, tally.compared, tally.differ
    )?;
    if tally.differ > 0 {
        return Err(Error::from(Differ));
    }
    Ok(())
}

/// Compares structures with what is written of them in a mode, and read back.
fn write_values(rt: &HostRuntime, mode: Mode, random: &mut Random) -> Result<(), Error> {
    let alloc = rt.alloc();
    let mut tally = Tally::default();
    for _ in 0..COUNT {
        if let Some(octets) = written::compare(alloc, mode, random, &mut tally)? {
            println!(rt; "{mode:?}: {}", hex::encode(alloc, &octets)?)?;
        }
    }
    println!(rt;
        "written in {mode:?}: {} structures, {} answers compared, {} differ",
        tally.values, tally.compared, tally.differ
    )?;
    if tally.differ > 0 {
        return Err(Error::from(Differ));
    }
    Ok(())
}

fn main(rt: HostRuntime) -> Result<(), Error> {
    let mut random = Random::new(20_261_124);
    for mode in [Mode::Ber, Mode::Cer, Mode::Der] {
        read_values(&rt, mode, &mut random)?;
    }
    let mut random = Random::new(20_261_125);
    for mode in [Mode::Ber, Mode::Cer, Mode::Der] {
        write_values(&rt, mode, &mut random)?;
    }
    Ok(())
}
