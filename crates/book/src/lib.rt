// What the rule says of a list of orders at a price.
#![tactic(auto)]

mod entry;
mod fills;
mod imbalance;
mod lookup;
mod sides;
mod totals;
mod volume;

pub use entry::Entry;
pub use fills::{FillFault, fill};
pub use imbalance::imbalance_at;
pub use lookup::find;
pub use sides::{Cut, Plan, Unfillable};
pub use volume::{plan, weights};
