// A session with its lists, of which each call is printed as soon as it is answered.
use crate::texts::{Answer, Clock, Incoming, LastSale, OrNone, side_word};
use list::List;
use order::{Kind, Quote, Row, Side, Ticket};
use session::{Call, Notice, Session};
use sharing::ByArrival;
use std::fmt::Display;
use std::io;

/// A session of which each call is printed as one line: the time, what is called, and what it is answered. The calls are the session's own. Its
/// close is shared by arrival.
#[derive(Drop)]
pub(crate) struct PrintedSession<'a, R: Alloc + Print> {
    rt: &'a R,
    orders: List<'a, Row>,
    notices: List<'a, Notice>,
    claims: &'a mut [u32],
    gifts: &'a mut [u32],
    session: Session,
}

impl<'a, R: Alloc + Print> PrintedSession<'a, R> {
    /// Opens a session over two lists, with two work lists for its close.
    pub(crate) fn open(
        rt: &'a R,
        mut orders: List<'a, Row>,
        mut notices: List<'a, Notice>,
        claims: &'a mut [u32],
        gifts: &'a mut [u32],
    ) -> PrintedSession<'a, R> {
        let session = Session::open(&mut orders, &mut notices);
        PrintedSession {
            rt,
            orders,
            notices,
            claims,
            gifts,
            session,
        }
    }

    pub(crate) fn set_time(&mut self, time: u32) -> io::Result<()> {
        self.apply(Call::Time(time), format_args!("time {}", Clock(time)))
    }

    pub(crate) fn record_sale(&mut self, price: u32) -> io::Result<()> {
        self.apply(Call::Sale(price), format_args!("sale at {price}"))
    }

    pub(crate) fn record_quote(&mut self, bid: u32, offer: u32) -> io::Result<()> {
        let quote = Quote { bid, offer };
        self.apply(Call::Quote(quote), format_args!("quote {bid} to {offer}"))
    }

    /// Takes in an order without a mark.
    pub(crate) fn enter(
        &mut self,
        number: u32,
        kind: Kind,
        side: Side,
        price: u32,
        size: u32,
    ) -> io::Result<()> {
        let ticket = Ticket {
            number,
            kind,
            side,
            marked: false,
            price,
            size,
        };
        self.apply(Call::Entry(ticket), Incoming(ticket))
    }

    pub(crate) fn cancel(&mut self, number: u32, in_error: bool) -> io::Result<()> {
        let flag = if in_error { ", in error" } else { "" };
        self.apply(
            Call::Cancel { number, in_error },
            format_args!("cancel of order {number}{flag}"),
        )
    }

    /// Reduces an order, without the error flag.
    pub(crate) fn reduce(&mut self, number: u32, size: u32) -> io::Result<()> {
        let call = Call::Reduction {
            number,
            size,
            in_error: false,
        };
        self.apply(call, format_args!("reduction of order {number} to {size}"))
    }

    /// Publishes the imbalance, not flagged as significant.
    pub(crate) fn publish(&mut self) -> io::Result<()> {
        self.apply(Call::Publication { significant: false }, "publication")
    }

    pub(crate) fn close(&mut self, price: u32) -> io::Result<()> {
        self.apply(Call::Close(price), format_args!("close at {price}"))
    }

    pub(crate) fn totals(&self, price: u32) -> io::Result<()> {
        let answer = self.session.totals(&self.orders, price);
        self.print(
            format_args!("totals at {price}"),
            answer.map_or_else(Answer::Refused, |(buy, sell)| Answer::Totals(buy, sell)),
        )
    }

    /// Prints how many shares of each order are filled and how many are not, a line for each order. The time begins every line.
    pub(crate) fn print_fills(&self) -> io::Result<()> {
        for row in self.orders.elements() {
            let number = row.number;
            let side = side_word(row.side);
            let filled = row.filled;
            // Saturating: that no more is filled than the size would need an invariant of the list, in a program that proves nothing else.
            let unfilled = row.size.saturating_sub(filled);
            self.print(
                format_args!("order {number}, {side}"),
                format_args!("{filled} filled, {unfilled} unfilled"),
            )?;
        }
        Ok(())
    }

    /// Prints what the session's readers answer, a line for each. The time begins every line.
    pub(crate) fn print_readers(&self) -> io::Result<()> {
        let Quote { bid, offer } = self.session.quote();
        let done = if self.session.is_done() { "yes" } else { "no" };
        self.print("last sale", OrNone(self.session.last_sale().map(LastSale)))?;
        self.print("quote", format_args!("{bid} to {offer}"))?;
        self.print("reference price", OrNone(self.session.reference_price()))?;
        self.print("done", done)
    }

    /// Makes a call, and prints it with its answer.
    fn apply(&mut self, call: Call, called: impl Display + Drop) -> io::Result<()> {
        let answer = self.session.apply(
            &mut self.orders,
            &mut self.notices,
            &ByArrival,
            self.claims,
            self.gifts,
            call,
        );
        self.print(
            called,
            answer.map_or_else(Answer::Refused, Answer::Accepted),
        )
    }

    /// Prints a line.
    fn print(&self, called: impl Display + Drop, answered: impl Display + Drop) -> io::Result<()> {
        let time = Clock(self.session.time());
        let called = format!(in self.rt.alloc(); "{called}")?;
        println!(self.rt; "{time}  {called:<34}{answered}")
    }
}
