//! A list of the calls on content that read, and of what they return for which octets. Tests of
//! failing sources and of refused allocations use it.
#![tactic(auto, using(bcder::specs::laws::Moved::steps))]

mod answer;
mod call;
mod kept;
mod lines;
mod octets;
mod passes;
mod takes;
mod typed;

pub use answer::Answer;
pub use call::{Call, ask};
pub use kept::{Kept, Text};
pub use lines::{CAPTURES, CONTENTS, KEPT, Line, OCTETS, PASSES, STRINGS, TAKES, TYPED};
pub use octets::{Either, Reader, Width};
pub use passes::{Capture, Pass};
pub use takes::{Inside, Number, Take, take_by};
pub use typed::{Typed, ask as ask_typed};
