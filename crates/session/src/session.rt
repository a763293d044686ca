// What a session keeps, how it opens, and the calls that bring the time, a sale and a quote.
ghost use Rattle.std.specs.Prelude.{◌≡◌, is_ok, List as Elements};
ghost use Rattle.list.specs.Held.{kept, emptied};
ghost use Rattle.order.specs.declared.kind.Row.{Row};
ghost use Rattle.session.specs.declared.call.Call.{Call};
ghost use Rattle.session.specs.declared.fault.SessionFault.TheVariants.{NotNow};
ghost use Rattle.session.specs.declared.notice.Notice.{Notice};
ghost use Rattle.session.specs.Questions.{ask};
ghost use Rattle.session.specs.States.{State, opened, InLimits};
ghost use Rattle.session.specs.Answers.{time_answer, sale_answer, quote_answer, allowance_of, lets_now};
ghost use Rattle.session.specs.Changes.{if_accepted, at_time, after_sale, after_quote};
ghost use Rattle.session.specs.Agreement.{Agrees, KeepsLedger};
ghost use Rattle.session.specs.Ledgers.{empty};
ghost use Rattle.session.specs.Laws.{Lived, KeepsLife};
ghost use Rattle.session.specs.Lives.{begun};
ghost use Rattle.session.specs.Replies.{accepted, answer_of};
ghost use Rattle.session.specs.Runs.{AllLived};

mod close;
mod readers;

use crate::fault::{SessionFault, ask};
use crate::notice::Notice;
use clock::{Allowance, Event, Phase, allowed, is_time};
use list::List;
use order::{Quote, Row, Sale, is_price, next_sale};
use std::marker::Model;

/// One security's session. Its orders and its notices lie in two lists, which are lent to each call.
#[derive(Drop, Debug)]
pub struct Session {
    time: u32,
    sale: Option<Sale>,
    quote: Quote,
    done: bool,
}

impl Model for Session {
    ghost Value = { State };

    ghost view = { λ s. record { time = s.time; sale = s.sale; quote = s.quote; done = s.done } };

    ghost invariant = { λ s. InLimits s.time s.sale s.quote };
}

impl Session {
    /// Opens a session at time 0, without a sale or a quote, and not done. Both lists are then empty; their places keep what they hold.
    pub fn open(orders: &mut List<Row>, notices: &mut List<Notice>) -> Session
        ensures value { result ≡ opened }
        ensures orders { orders.new ≡ emptied orders.old }
        ensures notices { notices.new ≡ emptied notices.old }
        ensures ledger { Agrees empty result (kept orders.new) }
        ensures life { Lived begun result (kept orders.new) (kept notices.new) }
        ensures lives { AllLived }
    {
        orders.clear();
        notices.clear();
        Session {
            time: 0,
            sale: None,
            quote: Quote { bid: 0, offer: 0 },
            done: false,
        }
    }

    /// What the clock says to an event.
    pub(crate) fn allowance(&self, event: Event) -> Allowance
        ensures value { result ≡ allowance_of self.now event }
    {
        allowed(Phase::at(self.time), event)
    }

    /// Does the clock allow it? Refuses when it does not (11).
    pub(crate) fn allow(&self, event: Event) -> Result<(), SessionFault>
        ensures value { result ≡ ask (lets_now self.now event) NotNow accepted }
    {
        ask(self.allowance(event).lets(), SessionFault::NotNow)
    }

    /// Moves the clock to `time`, which may be what it shows; nothing else changes. Refuses, and changes nothing, when the session is done (7),
    /// the time is outside its limits (8), or it is earlier than the clock (9).
    pub fn set_time(&mut self, time: u32) -> Result<(), SessionFault>
        ensures value { result ≡ time_answer self.old time }
        ensures after { self.new ≡ if_accepted result (at_time self.old time) self.old }
        ensures ledger { (rows : Elements Row) → KeepsLedger (Call.Time time) (is_ok result) self.old rows self.new rows }
        ensures life { (rows : Elements Row) (notices : Elements Notice) →
            KeepsLife (Call.Time time) (answer_of result) self.old rows notices self.new rows notices }
    {
        ask(!self.is_done(), SessionFault::Done)?;
        ask(is_time(time), SessionFault::OutOfLimits)?;
        ask(self.time <= time, SessionFault::Earlier)?;
        self.time = time;
        Ok(())
    }

    /// Takes a sale. A first sale, or one above the last, is a plus tick, one below it a minus tick; an equal sale keeps the tick. Nothing else
    /// changes. Refuses, and changes nothing, when the session is done (7), the price is outside its limits (8), or the clock does not allow it (11).
    pub fn record_sale(&mut self, price: u32) -> Result<(), SessionFault>
        ensures value { result ≡ sale_answer self.old price }
        ensures after { self.new ≡ if_accepted result (after_sale self.old price) self.old }
        ensures ledger { (rows : Elements Row) → KeepsLedger (Call.Sale price) (is_ok result) self.old rows self.new rows }
        ensures life { (rows : Elements Row) (notices : Elements Notice) →
            KeepsLife (Call.Sale price) (answer_of result) self.old rows notices self.new rows notices }
    {
        ask(!self.is_done(), SessionFault::Done)?;
        ask(is_price(price), SessionFault::OutOfLimits)?;
        self.allow(Event::Sale)?;
        self.sale = Some(next_sale(self.sale, price));
        Ok(())
    }

    /// Takes a quote. A bid or an offer of 0 is absent. Nothing else changes. Refuses, and changes nothing, when the session is done (7), a price
    /// is outside its limits or the bid is not below the offer and neither is 0 (8), or the clock does not allow it (11).
    pub fn record_quote(&mut self, quote: Quote) -> Result<(), SessionFault>
        ensures value { result ≡ quote_answer self.old quote }
        ensures after { self.new ≡ if_accepted result (after_quote self.old quote) self.old }
        ensures ledger { (rows : Elements Row) → KeepsLedger (Call.Quote quote) (is_ok result) self.old rows self.new rows }
        ensures life { (rows : Elements Row) (notices : Elements Notice) →
            KeepsLife (Call.Quote quote) (answer_of result) self.old rows notices self.new rows notices }
    {
        ask(!self.is_done(), SessionFault::Done)?;
        ask(quote.is_sound(), SessionFault::OutOfLimits)?;
        self.allow(Event::Quote)?;
        self.quote = quote;
        Ok(())
    }
}
