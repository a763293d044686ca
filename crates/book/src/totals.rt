// The totals of both sides: seven tallies each, one a class.
ghost use Rattle.std.specs.Prelude.{◌≡◌, ℕ, ◌+◌, ◌^◌, ◌<◌, ◌≤◌, length, take};
ghost use Rattle.book.specs.Entries.{orders_at};
ghost use Rattle.book.specs.Tally.{together};

use crate::entry::{CLASSES, Entry, OPEN_TO_BOTH};
use crate::sides::Cut;
use list::List;
use order::{Class, Row, Side, Terms};

/// How many classes come first and must execute whole: class 0.
const MUST_EXECUTE: usize = Class::BookAt as usize;

/// The shares of one class.
#[derive(Clone, Copy, PartialEq, Eq, Debug)]
pub(crate) struct Tally {
    shares: u64,
}

impl Tally {
    /// Raises the tally by the size of an order.
    fn raise(&mut self, size: u32)
        requires { self.old.shares + size < 2 ^ 64 }
        ensures after { self.new ≡ record { shares = self.old.shares + size } }
    {
        self.shares += u64::from(size);
    }
}

/// The totals of a side, of which the first `classes` classes are open to it.
#[derive(Clone, Copy, PartialEq, Eq, Debug)]
pub(crate) struct Totals {
    // An array of tallies, one a class (docs/DECISIONS.md, "Forms that are fixed"). `classes` is no length of it, but how many classes are open.
    tallies: [Tally; CLASSES],
    classes: usize,
    ghost seven: { length tallies ≡ 7 },
    ghost fits: { together tallies < 2 ^ 64 },
    ghost within: { classes ≤ 7 },
}

impl Totals {
    ghost use Rattle.book.specs.Totals.{tallied, counted, SumsFirst, Weighs, MustExecute, Offsets, FillsWhole, CutsAt};

    /// The totals of no order, with the first `classes` classes open.
    fn empty(classes: usize) -> Totals
        requires { classes ≤ 7 }
        ensures value { (k : ℕ) → tallied result k ≡ 0 }
        ensures none { together result.tallies ≡ 0 }
        ensures same { result.classes ≡ classes }
    {
        Totals {
            tallies: [Tally { shares: 0 }; CLASSES],
            classes,
        }
    }

    /// Counts an entry: one of `side`, in a class that is open, raises its class's tally by its size.
    fn count(&mut self, side: Side, entry: Entry)
        requires { together self.old.tallies + entry.size < 2 ^ 64 }
        ensures after { (k : ℕ) → tallied self.new k ≡ tallied self.old k + counted side self.old.classes k entry }
        ensures same { self.new.classes ≡ self.old.classes }
        ensures within { together self.new.tallies ≤ together self.old.tallies + entry.size }
    {
        if entry.side == side
            && let Some(rank) = entry.rank
            && rank < self.classes
        {
            self.tallies[rank].raise(entry.size);
        }
    }

    /// What the first `count` classes hold together.
    pub(crate) fn sum_of_first(&self, count: usize) -> u64
        requires { count ≤ 7 }
        ensures sum { result ≡ together (take count self.now.tallies) }
        ensures value { SumsFirst self.now count result }
    {
        self.tallies[..count].iter().map(|tally| tally.shares).sum()
    }

    /// W of the side.
    #[tactic(auto, unfolding(crate::specs::Weight::open_to_both))]
    pub(crate) fn weight(&self) -> u64
        ensures value { Weighs self.now result }
    {
        self.sum_of_first(OPEN_TO_BOTH)
    }

    /// What must execute on the side.
    #[tactic(auto, unfolding(crate::specs::Weight::must_execute, crate::specs::Weight::open_to_both))]
    pub(crate) fn must_execute(&self) -> u64
        ensures value { MustExecute self.now result }
    {
        self.sum_of_first(MUST_EXECUTE)
    }

    /// The closing offset orders of the side, if it is the lighter one.
    #[tactic(auto, unfolding(crate::specs::Weight::open_to_both))]
    pub(crate) fn offsets(&self) -> u64
        ensures value { Offsets self.now result }
    {
        self.tallies[OPEN_TO_BOTH].shares
    }

    /// How many of the open classes fit whole into `volume`.
    fn fitting_whole(&self, volume: u64) -> usize
        ensures value { FillsWhole self.now volume result }
        ensures within { result ≤ self.now.classes }
    {
        (1..=self.classes)
            .rev()
            .find(|count| self.sum_of_first(*count) <= volume)
            .unwrap_or(0)
    }

    /// How far `volume` fills the side.
    pub(crate) fn cut(&self, volume: u64) -> Cut
        ensures value { CutsAt self.now volume result }
    {
        let whole = self.fitting_whole(volume);
        let left = volume.saturating_sub(self.sum_of_first(whole));
        Cut { whole, left }
    }
}

/// The totals of both sides.
#[derive(Clone, Copy, PartialEq, Eq, Debug)]
pub(crate) struct TotalsBySide {
    pub buy: Totals,
    pub sell: Totals,
}

impl TotalsBySide {
    ghost use Rattle.order.specs.declared.kind.Side.TheVariants.{Buy, Sell};
    ghost use Rattle.book.specs.Totals.{Tallies};

    /// The totals on these terms, with the first `buy_classes` classes open to buys and the first `sell_classes` to sells.
    pub(crate) fn of(
        rows: &List<Row>,
        terms: Terms,
        buy_classes: usize,
        sell_classes: usize,
    ) -> TotalsBySide
        requires { (buy_classes ≤ 7) × (sell_classes ≤ 7) }
        ensures buy { Tallies (orders_at rows.now terms) Buy result.buy }
        ensures sell { Tallies (orders_at rows.now terms) Sell result.sell }
        ensures same { (result.buy.classes ≡ buy_classes) × (result.sell.classes ≡ sell_classes) }
    {
        let mut buy = Totals::empty(buy_classes);
        let mut sell = Totals::empty(sell_classes);
        for row in rows.elements() {
            let entry = Entry::at(*row, terms);
            buy.count(Side::Buy, entry);
            sell.count(Side::Sell, entry);
        }
        TotalsBySide { buy, sell }
    }
}
