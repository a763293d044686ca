// The call that publishes an imbalance.
ghost use Rattle.std.specs.Prelude.{◌≡◌, is_ok};
ghost use Rattle.list.specs.Held.{kept, full};
ghost use Rattle.session.specs.declared.call.Call.{Call};
ghost use Rattle.clock.specs.Phases.{is_late};
ghost use Rattle.session.specs.Answers.{publication_answer};
ghost use Rattle.session.specs.Changes.{with_answered};
ghost use Rattle.session.specs.Agreement.{KeepsLedger};
ghost use Rattle.session.specs.Laws.{KeepsLife};
ghost use Rattle.session.specs.Notices.{notice_of};
ghost use Rattle.session.specs.Replies.{notice_answer_of};

use crate::fault::{SessionFault, ask};
use crate::notice::{Notice, has_mandatory};
use crate::session::Session;
use book::imbalance_at;
use clock::{Event, Phase};
use list::List;
use order::{Row, Sale, Terms, reference_price};

impl Session {
    /// Whether it is 15:45 or later, when a notice is mandatory.
    fn is_late(&self) -> bool
        ensures value { result ≡ is_late self.now.time }
    {
        Phase::Imbalance.begin() <= self.time()
    }

    /// The notice of the imbalance of these orders, where `sale` is the last one.
    fn notice(&self, orders: &List<Row>, sale: Sale) -> Notice
        ensures value { result ≡ notice_of self.now (kept orders.now) sale }
    {
        let reference = reference_price(sale.price, self.quote());
        let terms = Terms {
            price: reference,
            sale,
        };
        Notice {
            amount: imbalance_at(orders, terms),
            reference,
            mandatory: self.is_late(),
        }
    }

    /// Publishes the imbalance: the notice joins the list, in its first free place, and is the answer; no other place changes. It holds the
    /// imbalance at the reference price, that price, and whether it is mandatory, which it is from 15:45 on. Refuses, and changes nothing, when
    /// the session is done (7), the clock does not allow it (11), there is no sale (16), it is 15:45 or later and there is a mandatory notice
    /// (17), the amount is 0 or, from 15:45, below 50,000 either way and not flagged as significant (18), or the list has no place left (19).
    pub fn publish(
        &self,
        orders: &List<Row>,
        notices: &mut List<Notice>,
        significant: bool,
    ) -> Result<Notice, SessionFault>
        ensures value { result ≡ publication_answer self.now (kept orders.now) (kept notices.old) (full notices.old) significant }
        ensures after { notices.new ≡ with_answered notices.old result }
        ensures ledger { KeepsLedger (Call.Publication significant) (is_ok result) self.now (kept orders.now) self.now (kept orders.now) }
        ensures life { KeepsLife (Call.Publication significant) (notice_answer_of result)
            self.now (kept orders.now) (kept notices.old)
            self.now (kept orders.now) (kept notices.new) }
    {
        ask(!self.is_done(), SessionFault::Done)?;
        self.allow(Event::Publication)?;
        let sale = self.last_sale().ok_or(SessionFault::NoSale)?;
        ask(
            !(self.is_late() && has_mandatory(notices)),
            SessionFault::AlreadyMandatory,
        )?;
        let notice = self.notice(orders, sale);
        ask(notice.is_notable(significant), SessionFault::Insignificant)?;
        notices.push(notice).map_err(|_| SessionFault::NoticesFull)?;
        Ok(notice)
    }
}
