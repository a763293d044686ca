// The time of day, the phases of a session, and what each of them allows.
#![tactic(auto)]

mod phase;
mod table;

pub use phase::{Phase, is_time};
pub use table::{Allowance, Event, allowed};
