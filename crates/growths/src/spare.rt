//! Makes calls that don't allocate. They are made between two allocations of sizes that nothing
//! else asks for, by which `edits/growths` knows where to refuse each allocation. What they return
//! is printed afterwards.
//!
//! The last lines are a control: calls that allocate, made at the same place.
mod read;
mod values;
mod written;

use crate::end::{End, tell};
use crate::types;
use anyhow::Error;
use bcder::{Captured, OctetString};
use read::Tally;
use std::alloc::Global;
use values::Things;

/// The size of the allocation before these calls; `END` is the one after them.
const BEGIN: usize = 7654321;

const END: usize = 7654322;

/// Allocates a size. The text in it is printed, so that the allocation is made.
fn mark(rt: &HostRuntime, size: usize, text: &str) -> Result<(), Error> {
    let mut growth = String::with_capacity(rt.alloc(), size)?;
    growth.push_str(text)?;
    println!(rt; "{growth}")?;
    Ok(())
}

/// Prints how several calls ended.
fn tell_all(rt: &HostRuntime, ends: &[(&str, bool)]) -> Result<(), Error> {
    for (call, right) in ends {
        let end = if *right { End::Answered } else { End::Wrong };
        tell(rt, *call, end)?;
    }
    Ok(())
}

/// Returns room for what is written.
fn room(alloc: Global) -> Result<Vec<u8>, Error> {
    Ok(Vec::with_capacity(alloc, 2000)?)
}

/// How all these calls ended.
#[derive(Drop)]
struct Ends {
    tallies: [Tally; 7],
    written: [(&'static str, bool); 6],
    several: [(&'static str, bool); 4],
    values: [(&'static str, bool); 9],
    sources: [(&'static str, bool); 5],
    types: [(&'static str, bool); 1],
    control: Tally,
}

impl Ends {
    /// Makes the calls.
    fn new(
        alloc: Global,
        things: &Things,
        given_up: (OctetString, Captured),
        octets: &mut Vec<u8>,
        text: &mut String,
    ) -> Ends {
        Ends {
            tallies: read::tallies(alloc),
            written: written::ends(alloc, things, octets),
            several: written::several_ends(octets),
            values: values::ends(things, text),
            sources: values::source_ends(given_up),
            types: [(
                "types of numbers and of lent octets",
                types::is_plain_again(alloc, octets),
            )],
            control: read::control(alloc),
        }
    }

    fn tell(&self, rt: &HostRuntime) -> Result<(), Error> {
        for tally in self.tallies {
            tally.tell(rt)?;
        }
        tell_all(rt, &self.written)?;
        tell_all(rt, &self.several)?;
        tell_all(rt, &self.values)?;
        tell_all(rt, &self.sources)?;
        tell_all(rt, &self.types)?;
        self.control.tell(rt)
    }
}

/// Makes the calls between two marks.
fn make(rt: &HostRuntime, things: &Things) -> Result<Ends, Error> {
    let alloc = rt.alloc();
    let given_up = values::given_up(alloc)?;
    let mut octets = room(alloc)?;
    let mut text = String::with_capacity(alloc, 100)?;
    mark(rt, BEGIN, "Calls that take no memory:")?;
    let ends = Ends::new(alloc, things, given_up, &mut octets, &mut text);
    mark(rt, END, "Behind them:")?;
    Ok(ends)
}

/// Makes the calls with values that are dropped before anything else is printed.
fn make_with_things(rt: &HostRuntime) -> Result<Ends, Error> {
    let things = Things::new(rt.alloc())?;
    make(rt, &things)
}

pub fn run(rt: &HostRuntime) -> Result<(), Error> {
    make_with_things(rt)?.tell(rt)
}
