//! UTCTime and GeneralizedTime (X.680, 46 and 47), as dates and times of day.
#![tactic(auto)]

mod calendar;
mod date_time;
mod day_number;
mod digits;
mod display;
mod generalized_time;
pub mod laws;
mod octets;
mod utc_time;

pub use date_time::DateTime;
pub use generalized_time::GeneralizedTime;
pub use octets::Octets;
pub use utc_time::UtcTime;
