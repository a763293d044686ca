// The imbalance of a list of orders at the reference price.
ghost use Rattle.std.specs.Prelude.{◌≡◌, length, ◌^◌, ◌≤◌, ◌&&◌, if◌then◌else◌};
ghost use Rattle.list.specs.Held.{kept};
ghost use Rattle.order.specs.declared.kind.Side.TheVariants.{Buy, Sell};
ghost use Rattle.order.specs.Kinds.{is};
ghost use Rattle.book.specs.Imbalance.{in_hundreds, aggregates, in_aggregate, in_offset, aggregate_of, offset_of, amount_of};

use list::List;
use order::{Kind, Order, Row, Side, Standing, Terms};

/// Sizes are counted in hundreds.
const ROUND_LOT: u32 = 100;

/// The imbalance on terms whose price is the reference price, in shares: positive to buy, negative to sell. It is the aggregate to buy less that
/// to sell, of unmarked M and better unmarked L, brought towards 0, and never past it, by the other M and L of the smaller side that are
/// eligible. Each size is cut down to whole hundreds first. Rows that fail their check count for nothing.
pub fn imbalance_at(rows: &List<Row>, terms: Terms) -> i64
    ensures value { result ≡ amount_of (kept rows.now) terms }
{
    let rows = rows.elements();
    let (buys, sells) = aggregates_at(rows, terms);
    if sells < buys {
        let sells_offset = offset_of(rows, Side::Sell, terms);
        (buys - sells).saturating_sub(sells_offset) as i64
    } else {
        let buys_offset = offset_of(rows, Side::Buy, terms);
        -((sells - buys).saturating_sub(buys_offset) as i64)
    }
}

/// The aggregates to buy and to sell.
fn aggregates_at(rows: &[Row], terms: Terms) -> (u64, u64)
    requires { length rows.now ≤ 4096 }
    ensures value { result ≡ (aggregate_of rows.now terms Buy, aggregate_of rows.now terms Sell) }
    ensures few { (result.0 ≤ 2 ^ 44) × (result.1 ≤ 2 ^ 44) }
{
    let mut buy = 0;
    let mut sell = 0;
    for row in rows {
        if is_aggregated(*row, terms) {
            let shares = u64::from(in_hundreds(row.size));
            match row.side {
                Side::Buy => buy += shares,
                Side::Sell => sell += shares,
            }
        }
    }
    (buy, sell)
}

/// What a side has to offset the other's aggregate.
fn offset_of(rows: &[Row], side: Side, terms: Terms) -> u64
    requires { length rows.now ≤ 4096 }
    ensures value { result ≡ offset_of rows.now terms side }
{
    rows.iter()
        .map(|row| u64::from(offset_in(*row, side, terms)))
        .sum()
}

/// What an order has to offset the other side's aggregate: nothing if it is not of `side`.
fn offset_in(row: Row, side: Side, terms: Terms) -> u32
    ensures value { result ≡ (if is side row.side && in_offset terms row then in_hundreds row.size else 0) }
{
    if row.side == side && is_offsetting(row, terms) {
        in_hundreds(row.size)
    } else {
        0
    }
}

/// A size cut down to a multiple of 100.
fn in_hundreds(size: u32) -> u32
    ensures value { result ≡ in_hundreds size }
{
    size / ROUND_LOT * ROUND_LOT
}

fn is_aggregated(row: Row, terms: Terms) -> bool
    ensures value { result ≡ in_aggregate terms row }
{
    row.kind.is_on_close()
        && !row.marked
        && Order::try_from(row).is_ok_and(|order| aggregates_as(row.kind, order.standing(terms)))
}

fn aggregates_as(kind: Kind, standing: Standing) -> bool
    ensures value { result ≡ aggregates kind standing }
{
    matches!(
        (kind, standing),
        (Kind::MarketOnClose, _) | (Kind::LimitOnClose, Standing::Better)
    )
}

fn is_offsetting(row: Row, terms: Terms) -> bool
    ensures value { result ≡ in_offset terms row }
{
    row.kind.is_on_close()
        && Order::try_from(row).is_ok_and(|order| {
            order.class(terms).is_some() && !is_aggregated(row, terms)
        })
}
