// The method that carries out any call of a session's life.
ghost use Rattle.std.specs.Prelude.{◌≡◌, is_ok};
ghost use Rattle.list.specs.Held.{kept};
ghost use Rattle.session.specs.Agreement.{Agrees, KeepsLedger};
ghost use Rattle.session.specs.Laws.{KeepsLife};
ghost use Rattle.session.specs.Ledgers.{Ledger};
ghost use Rattle.session.specs.Moments.{moment, work_of, answer_at, moment_after, work_left};
ghost use Rattle.session.specs.Upheld.{UpheldBy, filled_shares};

use crate::call::{Call, Outcome};
use crate::fault::SessionFault;
use crate::notice::Notice;
use crate::session::Session;
use list::List;
use order::Row;
use sharing::Sharing;

impl Session {
    /// Carries out a call, on the two lists of its life, and leaves session and lists as the call does. The answer is the notice of a
    /// publication, the print of a close, and `Taken` for any other call. A close has `method` share out the cut class, and writes `claims` and
    /// `gifts`; every other call leaves both as they were. Refuses, and changes nothing, when the call itself does, with its question (7 to 22).
    pub fn apply<S: Sharing>(
        &mut self,
        orders: &mut List<Row>,
        notices: &mut List<Notice>,
        method: &S,
        claims: &mut [u32],
        gifts: &mut [u32],
        call: Call,
    ) -> Result<Outcome, SessionFault>
        ensures value { result ≡ answer_at (moment self.old orders.old notices.old) (work_of claims.old gifts.old) call }
        ensures after { moment self.new orders.new notices.new
            ≡ moment_after (moment self.old orders.old notices.old) (work_of claims.old gifts.old) (S.meaning method.now) call }
        ensures work { work_of claims.new gifts.new
            ≡ work_left (moment self.old orders.old notices.old) (work_of claims.old gifts.old) (S.meaning method.now) call }
        ensures ledger { KeepsLedger call (is_ok result) self.old (kept orders.old) self.new (kept orders.new) }
        ensures upheld { (L : Ledger) → Agrees L self.old (kept orders.old) → UpheldBy L call result (filled_shares (kept orders.new)) }
        ensures life { KeepsLife call result self.old (kept orders.old) (kept notices.old) self.new (kept orders.new) (kept notices.new) }
    {
        match call {
            Call::Time(time) => self.set_time(time).map(|()| Outcome::Taken),
            Call::Sale(price) => self.record_sale(price).map(|()| Outcome::Taken),
            Call::Quote(quote) => self.record_quote(quote).map(|()| Outcome::Taken),
            Call::Entry(ticket) => self.enter(orders, notices, ticket).map(|()| Outcome::Taken),
            Call::Cancel { number, in_error } => {
                self.cancel(orders, number, in_error)
                    .map(|()| Outcome::Taken)
            }
            Call::Reduction {
                number,
                size,
                in_error,
            } => self
                .reduce(orders, number, size, in_error)
                .map(|()| Outcome::Taken),
            Call::Publication { significant } => {
                self.publish(orders, notices, significant)
                    .map(Outcome::Published)
            }
            Call::Close(price) => {
                self.close(orders, method, claims, gifts, price)
                    .map(Outcome::Printed)
            }
        }
    }
}
