// What the rule says of one order: its kind, how it stands to a price, and its class there.
#![tactic(auto)]

mod class;
mod kind;
mod limit;
mod record;
mod sale;
mod terms;
mod ticket;

pub use class::Class;
pub use kind::{Kind, MAX_PRICE, MAX_SIZE, Row, Side, is_number, is_price, is_size};
pub use limit::Standing;
pub use record::{Order, Unsound};
pub use sale::{Quote, Sale, Tick, next_sale, reference_price};
pub use terms::Terms;
pub use ticket::Ticket;
