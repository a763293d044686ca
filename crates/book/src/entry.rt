// A row as an order at a price.
ghost use Rattle.std.specs.Prelude.{◌≡◌, suc, ◌≤◌, if◌then◌else◌, nat_lt};
ghost use Rattle.book.specs.Entries.{entered};
ghost use Rattle.book.specs.Weight.{open_where, eligible_by, EligibleBy};

use order::{Class, Order, Row, Side, Terms};

/// How many classes are open to both sides: those before the last, which is open to the lighter side only.
pub(crate) const OPEN_TO_BOTH: usize = Class::OffsetIn as usize;

/// How many classes there are.
pub(crate) const CLASSES: usize = OPEN_TO_BOTH + 1;

/// An order at a price: its side, the rank of its class there, and its size. Without a rank it is eligible for nothing.
#[derive(Clone, Copy, PartialEq, Eq, Debug)]
pub struct Entry {
    pub side: Side,
    // A rank and no `Class`: the theorem about fills speaks of classes by their ranks alone.
    pub rank: Option<usize>,
    pub size: u32,
}

impl Entry {
    /// The order in `row` on these terms: its side, its size, and the rank of its class. A row that is in no class, or fails its check, has no rank.
    pub fn at(row: Row, terms: Terms) -> Entry
        ensures value { result ≡ entered terms row }
    {
        let rank = Order::try_from(row).map_or(None, |order| order.class(terms).map(Class::rank));
        Entry {
            side: row.side,
            rank,
            size: row.size,
        }
    }

    /// Whether the entry is eligible, where the W to buy and to sell of its list are these.
    pub fn is_eligible(self, weights: (u64, u64)) -> bool
        ensures value { result ≡ eligible_by weights self }
        ensures rule { EligibleBy weights self result }
    {
        let (buy, sell) = weights;
        let open = match self.side {
            Side::Buy => open_to(buy, sell),
            Side::Sell => open_to(sell, buy),
        };
        self.rank.is_some_and(|rank| rank < open)
    }
}

/// How many classes are open to a side whose W is `own`, where the other side's is `facing`.
// `within` is there since totals are asked for at most seven classes. A type for such numbers would be no plainer: two functions ask it.
#[tactic(auto, unfolding(crate::specs::Weight::open_to_both))]
pub(crate) fn open_to(own: u64, facing: u64) -> usize
    ensures value { result ≡ open_where own facing }
    ensures within { result ≤ 7 }
{
    if own < facing { CLASSES } else { OPEN_TO_BOTH }
}
