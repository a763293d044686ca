// The last sale with its tick, the quote, and the reference price.
ghost use Rattle.std.specs.Prelude.{◌≡◌, Some};
ghost use Rattle.order.specs.Sales.{sale_after, tick_after, reference, is_quoted, sound_quote};
ghost use Rattle.order.specs.Texts.{tick_text};

use crate::kind::is_price;
use std::fmt;

/// Whether the last change of price was up or down. The first sale counts as up.
#[derive(Clone, Copy, PartialEq, Eq, Debug)]
pub enum Tick {
    Plus,
    Minus,
}

/// `plus` or `minus`.
// By hand: a derived text has no contract.
impl fmt::Display for Tick {
    ghost output = { λ tick. Some (tick_text tick) };

    ghost styled_output = { λ tick _. Some (tick_text tick) };

    fn fmt<W: fmt::Write>(&self, f: &mut fmt::Formatter<W>) -> fmt::Result {
        f.write_str(match self {
            Tick::Plus => "plus",
            Tick::Minus => "minus",
        })
    }
}

/// A sale, its price in cents.
#[derive(Clone, Copy, PartialEq, Eq, Debug)]
pub struct Sale {
    pub price: u32,
    pub tick: Tick,
}

/// The bid and the offer, in cents. One of 0 is absent.
// 0 and no `Option`: the rule itself says so of 0, and a quote holds what came in.
#[derive(Clone, Copy, PartialEq, Eq, Debug)]
pub struct Quote {
    pub bid: u32,
    pub offer: u32,
}

impl Quote {
    /// Whether bid and offer are within their limits, and the bid is below the offer when neither is 0.
    pub fn is_sound(self) -> bool
        ensures value { result ≡ sound_quote self }
    {
        is_quoted(self.bid)
            && is_quoted(self.offer)
            && (self.bid == 0 || self.offer == 0 || self.bid < self.offer)
    }
}

/// Whether `price` may be a bid or an offer: a price, or 0 for an absent one.
fn is_quoted(price: u32) -> bool
    ensures value { result ≡ is_quoted price }
{
    price == 0 || is_price(price)
}

/// The sale at `price`, after the one `before` or as the first, with its tick: plus for the first and for one above the sale before, minus for
/// one below it; an equal sale keeps the tick.
pub fn next_sale(before: Option<Sale>, price: u32) -> Sale
    ensures value { result ≡ sale_after before price }
{
    let tick = next_tick(before, price);
    Sale { price, tick }
}

/// The tick of a sale at `price`.
fn next_tick(before: Option<Sale>, price: u32) -> Tick
    ensures value { result ≡ tick_after before price }
{
    // By guards: prices that go up and down take three times as long by `cmp`.
    match before {
        Some(before) if price < before.price => Tick::Minus,
        Some(before) if price == before.price => before.tick,
        _ => Tick::Plus,
    }
}

/// The reference price: the last sale, but the bid if that is higher, and the offer if that is lower. A bid or an offer of 0 is absent. Where
/// the bid is higher and the offer lower, the bid counts.
pub fn reference_price(last: u32, quote: Quote) -> u32
    ensures value { result ≡ reference last quote }
{
    if last < quote.bid {
        quote.bid
    } else if quote.offer != 0 && quote.offer < last {
        quote.offer
    } else {
        last
    }
}
