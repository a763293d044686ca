// How much trades at a price.
ghost use Rattle.std.specs.Prelude.{◌≡◌, ◌||◌, MatchResult, IfOk, nat_lt};
ghost use Rattle.order.specs.declared.kind.Side.TheVariants.{Buy, Sell};
ghost use Rattle.book.specs.Entries.{orders_at};
ghost use Rattle.book.specs.Plans.{plan_at, OneLeft};
ghost use Rattle.book.specs.Theorem.{NoAssignment, Largest};
ghost use Rattle.book.specs.Totals.{TotalsOf, TradesBy, PlansBy};
ghost use Rattle.book.specs.Volume.{traded_by};
ghost use Rattle.book.specs.Weight.{weight};

use crate::entry::{OPEN_TO_BOTH, open_to};
use crate::sides::{Plan, Unfillable};
use crate::totals::{Totals, TotalsBySide};
use list::List;
use order::{Row, Terms};
use std::cmp::Ordering;

/// W to buy and W to sell on these terms: what each side has in the classes 0 to 5.
#[tactic(auto, unfolding(crate::specs::Weight::open_to_both))]
pub fn weights(rows: &List<Row>, terms: Terms) -> (u64, u64)
    ensures value { result ≡ (weight (orders_at rows.now terms) Buy, weight (orders_at rows.now terms) Sell) }
{
    let totals = TotalsBySide::of(rows, terms, OPEN_TO_BOTH, OPEN_TO_BOTH);
    let buy = totals.buy.sum_of_first(OPEN_TO_BOTH);
    let sell = totals.sell.sum_of_first(OPEN_TO_BOTH);
    (buy, sell)
}

/// The plan on these terms: how much trades there, and how far each side is filled. At most one side has something left for a class that is cut.
/// Refuses when no division of the shares fills every order
/// that must execute (21).
pub fn plan(rows: &List<Row>, terms: Terms) -> Result<Plan, Unfillable>
    ensures value { result ≡ plan_at (orders_at rows.now terms) }
    ensures largest { MatchResult result (λ found. Largest (orders_at rows.now terms) found.volume) (λ _. NoAssignment (orders_at rows.now terms)) }
    ensures one_left { IfOk result OneLeft }
{
    let totals = totals_at(rows, terms);
    plan_by(&totals.buy, &totals.sell)
}

/// The totals to buy and to sell, each of the classes that are open to its side.
fn totals_at(rows: &List<Row>, terms: Terms) -> TotalsBySide
    ensures buy { TotalsOf (orders_at rows.now terms) Buy result.buy }
    ensures sell { TotalsOf (orders_at rows.now terms) Sell result.sell }
{
    let (buy, sell) = weights(rows, terms);
    TotalsBySide::of(rows, terms, open_to(buy, sell), open_to(sell, buy))
}

/// V, of the W to buy and to sell and the closing offset orders to buy and to sell: the lesser of the heavier W and the lighter W plus the
/// lighter side's closing offset orders; with equal sides their W.
fn volume_of(buy: u64, sell: u64, buy_offsets: u64, sell_offsets: u64) -> u64
    ensures value { result ≡ traded_by buy sell buy_offsets sell_offsets }
{
    let (heavier, lighter, offsets) = match buy.cmp(&sell) {
        Ordering::Less => (sell, buy, buy_offsets),
        Ordering::Greater => (buy, sell, sell_offsets),
        Ordering::Equal => (buy, sell, 0),
    };
    heavier.min(lighter.saturating_add(offsets))
}

/// Whether what must execute on one of the sides exceeds V.
fn exceeds(volume: u64, must_buy: u64, must_sell: u64) -> bool
    ensures value { result ≡ (nat_lt volume must_buy || nat_lt volume must_sell) }
{
    volume < must_buy || volume < must_sell
}

/// V of the list of which these are the totals to buy and to sell.
fn volume_by(buys: &Totals, sells: &Totals) -> u64
    ensures value { TradesBy buys.now sells.now result }
{
    volume_of(
        buys.weight(),
        sells.weight(),
        buys.offsets(),
        sells.offsets(),
    )
}

/// The plan of the list of which these are the totals to buy and to sell.
fn plan_by(buys: &Totals, sells: &Totals) -> Result<Plan, Unfillable>
    ensures value { PlansBy buys.now sells.now result }
{
    let volume = volume_by(buys, sells);
    if exceeds(volume, buys.must_execute(), sells.must_execute()) {
        return Err(Unfillable);
    }
    Ok(Plan {
        volume,
        buy: buys.cut(volume),
        sell: sells.cut(volume),
    })
}
