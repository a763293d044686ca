// The calls that take orders in and let them go off.
ghost use Rattle.std.specs.Prelude.{◌≡◌, is_ok, List as Elements};
ghost use Rattle.std.specs.Option.{ok_or};
ghost use Rattle.list.specs.Held.{kept, full};
ghost use Rattle.session.specs.declared.call.Call.{Call};
ghost use Rattle.session.specs.declared.notice.Notice.{Notice};
ghost use Rattle.session.specs.declared.fault.SessionFault.TheVariants.{Unlisted};
ghost use Rattle.session.specs.Answers.{listed_at, entry_answer, cancel_answer, reduction_answer};
ghost use Rattle.session.specs.Changes.{if_accepted, with_order, without_order, with_reduced};
ghost use Rattle.session.specs.Agreement.{KeepsLedger};
ghost use Rattle.session.specs.Laws.{KeepsLife};
ghost use Rattle.session.specs.Replies.{answer_of};

use crate::fault::{SessionFault, ask};
use crate::notice::{Notice, is_faced};
use crate::session::Session;
use book::find;
use clock::Event;
use list::List;
use order::{Row, Ticket, is_number, is_size};

/// An order that was looked up: its row, and the place at which that lies.
#[derive(Clone, Copy, PartialEq, Eq, Debug)]
struct Found {
    place: usize,
    row: Row,
}

/// The first order of this number. Refuses when none is listed (10).
fn listed(orders: &List<Row>, number: u32) -> Result<Found, SessionFault>
    ensures value { result ≡ ok_or (listed_at number (kept orders.now)) Unlisted }
{
    let place = find(orders, number).ok_or(SessionFault::Unlisted)?;
    Ok(Found {
        place,
        row: orders.elements()[place],
    })
}

impl Session {
    /// Takes an order in, with no share filled, at the end of the list, in its first free place; no other place changes. Refuses, and changes
    /// nothing, when the session is done (7), a number of the ticket is outside its limits or its price or mark is not in keeping with its kind
    /// (8), the clock does not allow it (11), it is an M or L, it is 15:45 or later, and there is no mandatory notice for the other side (12), an
    /// order of its number is listed (13), or the list has no place left (14).
    pub fn enter(
        &self,
        orders: &mut List<Row>,
        notices: &List<Notice>,
        ticket: Ticket,
    ) -> Result<(), SessionFault>
        ensures value { result ≡ entry_answer self.now (kept orders.old) (full orders.old) (kept notices.now) ticket }
        ensures after { orders.new ≡ if_accepted result (with_order orders.old ticket) orders.old }
        ensures ledger { KeepsLedger (Call.Entry ticket) (is_ok result) self.now (kept orders.old) self.now (kept orders.new) }
        ensures life { KeepsLife (Call.Entry ticket) (answer_of result)
            self.now (kept orders.old) (kept notices.now)
            self.now (kept orders.new) (kept notices.now) }
    {
        ask(!self.is_done(), SessionFault::Done)?;
        ask(ticket.is_sound(), SessionFault::OutOfLimits)?;
        let allowance = self.allowance(Event::In(ticket.kind));
        ask(allowance.lets(), SessionFault::NotNow)?;
        ask(
            !allowance.wants_notice() || is_faced(notices, ticket.side),
            SessionFault::NoNotice,
        )?;
        ask(
            find(orders, ticket.number).is_none(),
            SessionFault::AlreadyListed,
        )?;
        orders
            .push(Row::from(ticket))
            .map_err(|_| SessionFault::OrdersFull)?;
        Ok(())
    }

    /// Takes the first order of this number off the list; the later ones move down by one, and the freed place and all after it keep what they
    /// held. `in_error` says that the order was entered in error, which the clock asks. Refuses, and changes nothing, when the session is
    /// done (7), the number is outside its limits (8), no order of the number is listed (10), or the clock does not allow it (11).
    pub fn cancel(
        &self,
        orders: &mut List<Row>,
        number: u32,
        in_error: bool,
    ) -> Result<(), SessionFault>
        ensures value { result ≡ cancel_answer self.now (kept orders.old) number in_error }
        ensures after { orders.new ≡ if_accepted result (without_order orders.old number) orders.old }
        ensures ledger { KeepsLedger (Call.Cancel number in_error) (is_ok result) self.now (kept orders.old) self.now (kept orders.new) }
        ensures life { (notices : Elements Notice) →
            KeepsLife (Call.Cancel number in_error) (answer_of result)
            self.now (kept orders.old) notices
            self.now (kept orders.new) notices }
    {
        ask(!self.is_done(), SessionFault::Done)?;
        ask(is_number(number), SessionFault::OutOfLimits)?;
        let found = listed(orders, number)?;
        self.allow(Event::Off(found.row.kind, in_error))?;
        orders.remove(found.place).unwrap();
        Ok(())
    }

    /// Gives the first order of this number a smaller size where it stands, with no share filled; no other place changes. `in_error` says that
    /// the order was entered in error, which the clock asks. Refuses, and changes nothing, when the session
    /// is done (7), the number or the size is outside its limits (8), no order of the number is listed (10), the clock does not allow it (11),
    /// or the size is not smaller (15).
    pub fn reduce(
        &self,
        orders: &mut List<Row>,
        number: u32,
        size: u32,
        in_error: bool,
    ) -> Result<(), SessionFault>
        ensures value { result ≡ reduction_answer self.now (kept orders.old) number size in_error }
        ensures after { orders.new ≡ if_accepted result (with_reduced orders.old number size) orders.old }
        ensures ledger { KeepsLedger (Call.Reduction number size in_error) (is_ok result) self.now (kept orders.old) self.now (kept orders.new) }
        ensures life { (notices : Elements Notice) →
            KeepsLife (Call.Reduction number size in_error) (answer_of result)
            self.now (kept orders.old) notices
            self.now (kept orders.new) notices }
    {
        ask(!self.is_done(), SessionFault::Done)?;
        ask(
            is_number(number) && is_size(size),
            SessionFault::OutOfLimits,
        )?;
        let found = listed(orders, number)?;
        self.allow(Event::Off(found.row.kind, in_error))?;
        ask(size < found.row.size, SessionFault::NotSmaller)?;
        orders.put(found.place, found.row.resized(size)).unwrap();
        Ok(())
    }
}
