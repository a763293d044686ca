// The texts of the sample day: a time of day, the word of a side, an order that comes in, an answer, and what there is or is not.
use order::{Sale, Side, Ticket};
use session::{Outcome, SessionFault};
use std::fmt;

/// A time of day, in seconds after midnight: printed as hours, minutes and seconds.
#[derive(Clone, Copy, PartialEq, Eq, Debug)]
pub(crate) struct Clock(pub(crate) u32);

impl fmt::Display for Clock {
    fn fmt<W: fmt::Write>(&self, f: &mut fmt::Formatter<W>) -> fmt::Result {
        let hours = self.0 / 3600;
        let minutes = self.0 / 60 % 60;
        let seconds = self.0 % 60;
        write!(f, "{hours:02}:{minutes:02}:{seconds:02}")
    }
}

/// The word that a side is printed as.
pub(crate) fn side_word(side: Side) -> &'static str {
    match side {
        Side::Buy => "buy",
        Side::Sell => "sell",
    }
}

/// An order that comes in: printed without its price where that is 0.
#[derive(Clone, Copy, PartialEq, Eq, Debug)]
pub(crate) struct Incoming(pub(crate) Ticket);

impl fmt::Display for Incoming {
    fn fmt<W: fmt::Write>(&self, f: &mut fmt::Formatter<W>) -> fmt::Result {
        let number = self.0.number;
        let kind = self.0.kind;
        let side = side_word(self.0.side);
        let size = self.0.size;
        write!(f, "order {number}, {kind} to {side} {size}")?;
        match self.0.price {
            0 => Ok(()),
            price => write!(f, " at {price}"),
        }
    }
}

/// What a call is answered.
#[derive(Clone, Copy, PartialEq, Eq, Debug)]
pub(crate) enum Answer {
    Accepted(Outcome),
    /// W to buy and W to sell.
    Totals(u64, u64),
    Refused(SessionFault),
}

impl fmt::Display for Answer {
    fn fmt<W: fmt::Write>(&self, f: &mut fmt::Formatter<W>) -> fmt::Result {
        match *self {
            Answer::Accepted(Outcome::Taken) => write!(f, "accepted"),
            Answer::Accepted(Outcome::Published(notice)) => {
                let amount = notice.amount;
                let reference = notice.reference;
                let not = if notice.mandatory { "" } else { "not " };
                write!(f, "notice {amount} at {reference}, {not}mandatory")
            }
            Answer::Accepted(Outcome::Printed(print)) => {
                let price = print.price;
                let volume = print.volume;
                write!(f, "print at {price}, volume {volume}")
            }
            Answer::Totals(buy, sell) => write!(f, "W to buy {buy}, W to sell {sell}"),
            Answer::Refused(fault) => {
                let question = fault.question();
                write!(f, "refused with question {question}: {fault}")
            }
        }
    }
}

/// A last sale, with its tick.
#[derive(Clone, Copy, PartialEq, Eq, Debug)]
pub(crate) struct LastSale(pub(crate) Sale);

impl fmt::Display for LastSale {
    fn fmt<W: fmt::Write>(&self, f: &mut fmt::Formatter<W>) -> fmt::Result {
        let price = self.0.price;
        let tick = self.0.tick;
        write!(f, "{price}, {tick} tick")
    }
}

/// What there is, or `none`.
#[derive(Clone, Copy, PartialEq, Eq, Debug)]
pub(crate) struct OrNone<T>(pub(crate) Option<T>);

impl<T: fmt::Display> fmt::Display for OrNone<T> {
    fn fmt<W: fmt::Write>(&self, f: &mut fmt::Formatter<W>) -> fmt::Result {
        match &self.0 {
            Some(it) => write!(f, "{it}"),
            None => write!(f, "none"),
        }
    }
}
