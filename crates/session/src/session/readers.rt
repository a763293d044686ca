// What a session shows.
ghost use Rattle.std.specs.Prelude.{◌≡◌, true, IfSome};
ghost use Rattle.std.specs.Option.{option_map};
ghost use Rattle.order.specs.Kinds.{is_price};
ghost use Rattle.order.specs.Sales.{sound_quote};
ghost use Rattle.clock.specs.Phases.{is_time};
ghost use Rattle.session.specs.States.{sound_sale};
ghost use Rattle.session.specs.Notices.{reference_of};

use crate::session::Session;
use order::{Quote, Sale, reference_price};

impl Session {
    /// The time, in seconds after midnight.
    pub fn time(&self) -> u32
        ensures value { result ≡ self.now.time }
        ensures in_limits { is_time result ≡ true }
    {
        self.time
    }

    /// The last sale with its tick, or none.
    pub fn last_sale(&self) -> Option<Sale>
        ensures value { result ≡ self.now.sale }
        ensures in_limits { sound_sale result ≡ true }
    {
        self.sale
    }

    /// The quote. A bid or an offer of 0 is absent.
    pub fn quote(&self) -> Quote
        ensures value { result ≡ self.now.quote }
        ensures in_limits { sound_quote result ≡ true }
    {
        self.quote
    }

    /// The reference price, or none before the first sale.
    pub fn reference_price(&self) -> Option<u32>
        ensures value { result ≡ option_map (reference_of self.now) self.now.sale }
        ensures in_limits { IfSome result (λ price. is_price price ≡ true) }
    {
        let Session { sale, quote, .. } = self;
        sale.map(|last| reference_price(last.price, *quote))
    }

    /// Whether the session is done.
    pub fn is_done(&self) -> bool
        ensures value { result ≡ self.now.done }
    {
        self.done
    }
}
