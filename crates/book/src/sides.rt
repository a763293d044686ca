// How much trades at a price, and how far each side is filled.
ghost use Rattle.std.specs.Prelude.{◌≡◌};
ghost use Rattle.book.specs.Fill.{part, claim_in, share_in};
ghost use Rattle.book.specs.Plans.{unfillable_question, cut_for, part_in, asked_by, claim_by, share_by};

use crate::entry::Entry;
use order::Side;
use std::error::Error;
use std::fmt;

/// The price is unfillable: no division of the shares fills every order that must execute.
#[derive(Clone, Copy, PartialEq, Eq, Debug)]
pub struct Unfillable;

impl Unfillable {
    /// The number of the question that is answered no: does an assignment exist (21)?
    pub fn question(self) -> u8
        ensures value { result ≡ unfillable_question }
    {
        21
    }
}

/// The ground of the refusal, in words.
// By hand: a derived text has no contract.
impl fmt::Display for Unfillable {
    ghost use Rattle.std.specs.Prelude.{Some};
    ghost use Rattle.book.specs.Texts.{unfillable_text};

    ghost output = { λ _. Some unfillable_text };

    ghost styled_output = { λ _ _. Some unfillable_text };

    fn fmt<W: fmt::Write>(&self, f: &mut fmt::Formatter<W>) -> fmt::Result {
        f.write_str("unfillable: no division of the shares fills every order that must execute")
    }
}

impl Error for Unfillable {}

/// How far a side is filled: its first `whole` classes get all, and the class after them what is `left`.
#[derive(Clone, Copy, PartialEq, Eq, Debug)]
pub struct Cut {
    pub whole: usize,
    pub left: u64,
}

/// What trades at a price, and how far each side is filled.
#[derive(Clone, Copy, PartialEq, Eq, Debug)]
pub struct Plan {
    pub volume: u64,
    pub buy: Cut,
    pub sell: Cut,
}

/// What an order's class gets.
#[derive(Clone, Copy, PartialEq, Eq, Debug)]
pub(crate) enum Part {
    /// Its whole size.
    Whole,
    /// A share of what is left: the class is cut.
    Shared,
    Nothing,
}

impl Part {
    /// The claim of an order of `size`.
    fn claim(self, size: u32) -> u32
        ensures value { result ≡ claim_in self size }
    {
        match self {
            Part::Shared => size,
            Part::Whole | Part::Nothing => 0,
        }
    }

    /// What an order of `size` gets, with its gift.
    fn share(self, size: u32, gift: u32) -> u32
        ensures value { result ≡ share_in self size gift }
    {
        match self {
            Part::Whole => size,
            Part::Shared => gift,
            Part::Nothing => 0,
        }
    }
}

impl Cut {
    /// What the class of `rank` gets.
    fn part(self, rank: Option<usize>) -> Part
        ensures value { result ≡ part self.whole self.left rank }
    {
        match rank {
            Some(rank) if rank < self.whole => Part::Whole,
            Some(rank) if rank == self.whole && 0 < self.left => Part::Shared,
            _ => Part::Nothing,
        }
    }
}

impl Plan {
    /// How far a side is filled.
    fn cut_for(&self, side: Side) -> Cut
        ensures value { result ≡ cut_for self.now side }
    {
        match side {
            Side::Buy => self.buy,
            Side::Sell => self.sell,
        }
    }

    /// What an order's class gets.
    fn part_of(&self, entry: Entry) -> Part
        ensures value { result ≡ part_in self.now entry }
    {
        self.cut_for(entry.side).part(entry.rank)
    }

    /// What is left for the cut class.
    pub(crate) fn amount(&self) -> u64
        ensures value { result ≡ asked_by self.now }
    {
        self.buy.left.max(self.sell.left)
    }

    /// An order's claim.
    pub(crate) fn claim(&self, entry: Entry) -> u32
        ensures value { result ≡ claim_by self.now entry }
    {
        self.part_of(entry).claim(entry.size)
    }

    /// What an order gets, with its gift.
    pub(crate) fn share(&self, entry: Entry, gift: u32) -> u32
        ensures value { result ≡ share_by self.now entry gift }
    {
        self.part_of(entry).share(entry.size, gift)
    }
}
