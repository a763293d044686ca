// One security's session: its clock, its calls, the notices that it publishes, and its close.
#![tactic(auto)]

mod apply;
mod call;
mod fault;
mod notice;
mod orders;
mod publication;
mod session;
mod totals;

pub use call::{Call, Outcome, Print};
pub use fault::SessionFault;
pub use notice::Notice;
pub use session::Session;
