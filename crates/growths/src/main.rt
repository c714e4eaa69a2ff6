//! Makes calls that allocate. A line for each says how it ended: it returned what it should, or
//! memory ran out, and it left what it should. What is left is looked at, or used by a call that
//! follows.
//!
//! The last calls need more memory than any machine has. `edits/growths` runs this program with
//! each allocation refused in turn.
#![tactic(auto, using(bcder::specs::laws::Moved::steps))]

mod bits;
mod captured;
mod encoded;
mod end;
mod numbers;
mod read;
mod restricted;
mod sources;
mod spare;
mod strings;
mod taken;
mod types;
mod wrapped;

use anyhow::Error;

fn main(rt: HostRuntime) -> Result<(), Error> {
    numbers::run(&rt)?;
    sources::run(&rt)?;
    taken::run(&rt)?;
    bits::run(&rt)?;
    strings::run(&rt)?;
    restricted::run(&rt)?;
    captured::run(&rt)?;
    encoded::run(&rt)?;
    wrapped::run(&rt)?;
    types::run(&rt)?;
    spare::run(&rt)?;
    encoded::run_beyond_memory(&rt)
}
