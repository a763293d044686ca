// The call that totals the orders.
ghost use Rattle.std.specs.Prelude.{◌≡◌};
ghost use Rattle.list.specs.Held.{kept};
ghost use Rattle.session.specs.Answers.{totals_answer};

use crate::fault::{SessionFault, ask};
use crate::session::Session;
use book::weights;
use list::List;
use order::{Row, Terms, is_price};

impl Session {
    /// W to buy and W to sell at `price`. Refuses when the price is outside its limits (8), or there is no sale (16). Changes nothing.
    pub fn totals(&self, orders: &List<Row>, price: u32) -> Result<(u64, u64), SessionFault>
        ensures value { result ≡ totals_answer self.now (kept orders.now) price }
    {
        ask(is_price(price), SessionFault::OutOfLimits)?;
        let sale = self.last_sale().ok_or(SessionFault::NoSale)?;
        Ok(weights(orders, Terms { price, sale }))
    }
}
