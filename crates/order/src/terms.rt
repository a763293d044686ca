// What orders are judged by.
use crate::sale::Sale;

/// A price in cents, and the last sale before it.
// The list of orders is no part of it: `fill` changes the list, and never the terms.
#[derive(Clone, Copy, PartialEq, Eq, Debug)]
pub struct Terms {
    pub price: u32,
    pub sale: Sale,
}
