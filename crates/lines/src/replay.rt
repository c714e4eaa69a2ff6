//! Compares files of data line by line.
use crate::tally::{Differing, Tally};
use anyhow::Error;
use std::alloc::Global;
use std::fs::{self, Files};

/// Returns whether a line of data says nothing.
fn is_comment(line: &str) -> bool {
    line.is_empty() || line.starts_with('#')
}

/// Compares the lines of a file of data one by one, and prints those that differ.
pub fn replay<
    R: Print + Files + AllocGlobal,
    T: Differing,
    F: Fn(Global, &str, &mut T) -> Result<(), Error>,
>(rt: &R, file: &str, tallies: &mut T, compare_line: F) -> Result<(), Error>
    requires { F.IsAlwaysCallable compare_line }
{
    let text = fs::read_to_string(rt, file)?;
    for line in text.lines() {
        if !is_comment(line) {
            let before = tallies.differ();
            compare_line(rt.alloc(), line, tallies)?;
            if tallies.differ() != before {
                println!(rt; "differs: {line}")?;
            }
        }
    }
    Ok(())
}

/// Prints what was compared.
pub fn print(rt: &impl Print, what: &str, tally: Tally) -> Result<(), Error> {
    println!(rt;
        "{what}: {} answers compared, {} differ",
        tally.compared, tally.differ
    )?;
    Ok(())
}
