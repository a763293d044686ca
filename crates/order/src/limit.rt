// The effective limit of an order, and how it stands to a price.
ghost use Rattle.std.specs.Prelude.{◌≡◌};
ghost use Rattle.order.specs.Limits.{bound, stricter, effective, stands, standing_of, elected};

use crate::kind::{Kind, Row, Side};
use crate::sale::{Sale, Tick};
use crate::terms::Terms;
use std::cmp::Ordering;

/// How an order stands to a price.
#[derive(Clone, Copy, PartialEq, Eq, Debug)]
pub enum Standing {
    Better,
    At,
    Out,
}

/// The price that a marked order is held to.
fn tick_bound(side: Side, sale: Sale) -> u64
    ensures value { result ≡ bound side sale.tick sale.price }
{
    let last = u64::from(sale.price);
    match (side, sale.tick) {
        (Side::Sell, Tick::Plus) | (Side::Buy, Tick::Minus) => last,
        (Side::Sell, Tick::Minus) => last + 1,
        (Side::Buy, Tick::Plus) => last.saturating_sub(1),
    }
}

/// The stricter of two limits.
fn stricter_of(side: Side, a: u64, b: u64) -> u64
    ensures value { result ≡ stricter side a b }
{
    match side {
        Side::Buy => a.min(b),
        Side::Sell => a.max(b),
    }
}

/// The effective limit of the order in `row` after the last sale, or none where it has no limit.
fn effective_limit(row: Row, sale: Sale) -> Option<u64>
    ensures value { result ≡ effective row sale }
{
    let entered = u64::from(row.price);
    let bound = tick_bound(row.side, sale);
    match (row.kind, row.marked) {
        (Kind::MarketOnClose, true) => Some(bound),
        (Kind::MarketOnClose, false) | (Kind::Crowd, _) | (Kind::Stop, _) => None,
        (Kind::LimitOnClose, true) => Some(stricter_of(row.side, entered, bound)),
        (Kind::LimitOnClose, false)
        | (Kind::Book, _)
        | (Kind::MarketMaker, _)
        | (Kind::ClosingOffset, _) => Some(entered),
        (Kind::Yielding, _) => (row.price != 0).then_some(entered),
    }
}

/// How a limit stands to `price`.
fn stands_at(side: Side, limit: u64, price: u64) -> Standing
    ensures value { result ≡ stands side limit price }
{
    // One comparison, turned round for a sell: with one for each side, a list of mixed orders takes a third longer.
    let order = limit.cmp(&price);
    let order = match side {
        Side::Buy => order,
        Side::Sell => order.reverse(),
    };
    match order {
        Ordering::Greater => Standing::Better,
        Ordering::Equal => Standing::At,
        Ordering::Less => Standing::Out,
    }
}

/// How the order in `row` stands on these terms. Without a limit it is better.
pub(crate) fn standing_at(row: Row, terms: Terms) -> Standing
    ensures value { result ≡ standing_of row terms }
{
    effective_limit(row, terms.sale).map_or(Standing::Better, |limit| {
        stands_at(row.side, limit, u64::from(terms.price))
    })
}

/// Whether a stop is elected at `price`.
pub(crate) fn is_elected(side: Side, trigger: u32, price: u32) -> bool
    ensures value { result ≡ elected side trigger price }
{
    match side {
        Side::Buy => trigger <= price,
        Side::Sell => price <= trigger,
    }
}
