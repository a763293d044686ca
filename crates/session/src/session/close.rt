// The close.
ghost use Rattle.std.specs.Prelude.{◌≡◌, is_ok, List as Elements};
ghost use Rattle.list.specs.Held.{kept};
ghost use Rattle.session.specs.declared.call.Call.{Call};
ghost use Rattle.session.specs.Answers.{close_answer};
ghost use Rattle.session.specs.Changes.{if_accepted, as_done, with_fills, with_claims, with_gifts};
ghost use Rattle.session.specs.declared.notice.Notice.{Notice};
ghost use Rattle.session.specs.Agreement.{Agrees, KeepsLedger};
ghost use Rattle.session.specs.Laws.{KeepsLife};
ghost use Rattle.session.specs.Ledgers.{Ledger};
ghost use Rattle.session.specs.Replies.{print_answer_of};
ghost use Rattle.session.specs.Upheld.{UpheldBy, filled_shares};

use crate::call::Print;
use crate::fault::{SessionFault, ask};
use crate::session::Session;
use book::fill;
use clock::Event;
use list::List;
use order::{Row, Terms, is_price};
use sharing::Sharing;

impl Session {
    /// Closes at `price`: each order has its filled shares, the print of that price with the volume is the answer, and the session is done. The
    /// method is asked once, for the class that gets some but not all. `claims` then hold the sizes of the orders in that class and 0 for every
    /// other row, `gifts` what the method gives them of what is left, and later places of both what they held. Rows that fail their check have
    /// claim 0 and stay as they are.
    ///
    /// Refuses, and changes nothing, when the session is done (7), the price is outside its limits (8), the clock does not allow it (11), there
    /// is no sale (16), a work list has fewer places than the list has rows (20), or no assignment exists (21): no division of the shares fills
    /// every order that must execute, within all sizes, with as much bought as sold. The method never refuses (22).
    pub fn close<S: Sharing>(
        &mut self,
        orders: &mut List<Row>,
        method: &S,
        claims: &mut [u32],
        gifts: &mut [u32],
        price: u32,
    ) -> Result<Print, SessionFault>
        ensures value { result ≡ close_answer self.old orders.old claims.old gifts.old price }
        ensures after { self.new ≡ if_accepted result (as_done self.old) self.old }
        ensures orders { orders.new ≡ if_accepted result (with_fills (S.meaning method.now) self.old price orders.old) orders.old }
        ensures claims { claims.new ≡ if_accepted result (with_claims self.old price orders.old claims.old) claims.old }
        ensures gifts { gifts.new ≡ if_accepted result (with_gifts (S.meaning method.now) self.old price orders.old gifts.old) gifts.old }
        ensures ledger { KeepsLedger (Call.Close price) (is_ok result) self.old (kept orders.old) self.new (kept orders.new) }
        ensures upheld { (L : Ledger) → Agrees L self.old (kept orders.old) → UpheldBy L (Call.Close price) (print_answer_of result) (filled_shares (kept orders.new)) }
        ensures life { (notices : Elements Notice) →
            KeepsLife (Call.Close price) (print_answer_of result) self.old (kept orders.old) notices self.new (kept orders.new) notices }
    {
        ask(!self.is_done(), SessionFault::Done)?;
        ask(is_price(price), SessionFault::OutOfLimits)?;
        self.allow(Event::Close)?;
        let sale = self.last_sale().ok_or(SessionFault::NoSale)?;
        let volume = fill(orders, Terms { price, sale }, method, claims, gifts)?;
        self.done = true;
        Ok(Print { price, volume })
    }
}
