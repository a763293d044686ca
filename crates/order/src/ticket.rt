// An order as it is entered.
ghost use Rattle.std.specs.Prelude.{◌≡◌};
ghost use Rattle.order.specs.Entered.{sound_ticket, entered_row};

use crate::kind::{Kind, Row, Side, is_number};
use crate::record::Order;

/// What an order says when it is entered. It has no filled shares.
#[derive(Clone, Copy, PartialEq, Eq, Debug)]
pub struct Ticket {
    pub number: u32,
    pub kind: Kind,
    pub side: Side,
    /// Sell Plus or Buy Minus.
    pub marked: bool,
    /// A limit or a trigger in cents, or 0.
    pub price: u32,
    pub size: u32,
}

impl Ticket {
    /// Whether its number is within its limits, and its row passes the check of an order.
    pub fn is_sound(self) -> bool
        ensures value { result ≡ sound_ticket self }
    {
        is_number(self.number) && Order::try_from(Row::from(self)).is_ok()
    }
}

/// The row of an order as it is entered, with no share filled.
impl From<Ticket> for Row {
    ghost from_gives = { λ ticket row. row ≡ entered_row ticket };

    fn from(ticket: Ticket) -> Row {
        Row::unfilled(
            ticket.number,
            ticket.kind,
            ticket.side,
            ticket.marked,
            ticket.price,
            ticket.size,
        )
    }
}
