// An order: a row that keeps the rules of its kind.
ghost use Rattle.std.specs.Prelude.{◌≡◌, ◌≤◌, true};
ghost use Rattle.order.specs.Kinds.{priced, marks};

use crate::class::{Class, class_by};
use crate::kind::{Row, is_size};
use crate::limit::{Standing, is_elected, standing_at};
use crate::terms::Terms;
use std::error::Error;
use std::fmt;

/// An order. There is none whose size is outside its limits, whose filled shares exceed its size, or whose price or mark breaks the
/// rule of its kind.
#[derive(Clone, Copy, PartialEq, Eq, Debug)]
pub struct Order {
    row: Row,
    ghost some: { 1 ≤ row.size },
    ghost few: { row.size ≤ 10000000 },
    ghost within: { row.filled ≤ row.size },
    ghost price_in_keeping: { priced row.kind row.price ≡ true },
    ghost mark_in_keeping: { marks row.kind row.marked ≡ true },
}

/// The row is no order.
#[derive(Clone, Copy, PartialEq, Eq, Debug)]
pub struct Unsound;

/// The ground of the refusal, in words.
// By hand: a derived text has no contract.
impl fmt::Display for Unsound {
    ghost use Rattle.std.specs.Prelude.{Some};
    ghost use Rattle.order.specs.Texts.{unsound_text};

    ghost output = { λ _. Some unsound_text };

    ghost styled_output = { λ _ _. Some unsound_text };

    fn fmt<W: fmt::Write>(&self, f: &mut fmt::Formatter<W>) -> fmt::Result {
        f.write_str("size, filled shares, price or mark are not those of an order")
    }
}

impl Error for Unsound {}

/// The order that lies in a row. Refuses a row that fails the check: whose size is outside its limits, whose filled shares exceed its size,
/// or whose price or mark is not in keeping with its kind.
impl TryFrom<Row> for Order {
    type Error = Unsound;

    ghost use Rattle.order.specs.Rows.{row_made, checked, MadeFrom};

    ghost try_from_gives = { λ row r. (row_made r ≡ checked row) × MadeFrom row r };

    fn try_from(row: Row) -> Result<Order, Unsound> {
        if is_size(row.size)
            && row.filled <= row.size
            && row.kind.takes_price(row.price)
            && row.kind.takes_mark(row.marked)
        {
            Ok(Order { row })
        } else {
            Err(Unsound)
        }
    }
}

/// The row of an order.
impl From<Order> for Row {
    ghost use Rattle.order.specs.Rows.{row_of};

    ghost from_gives = { λ order row. row ≡ row_of order };

    fn from(order: Order) -> Row {
        order.row
    }
}

impl Order {
    ghost use Rattle.std.specs.Option.{option_map};
    ghost use Rattle.order.specs.Classes.{class_of};
    ghost use Rattle.order.specs.Limits.{standing_of};
    ghost use Rattle.order.specs.Rows.{row_of, refilled_within};

    /// The same order with `filled` of its shares filled, or none where it has fewer.
    pub fn with_filled(self, filled: u32) -> Option<Order>
        ensures value { option_map row_of result ≡ refilled_within (row_of self) filled }
    {
        // An `if`: the closure of `then` would have to state the order's invariant once more, and `try_from` would check the whole row again.
        if filled <= self.row.size {
            Some(Order {
                row: Row { filled, ..self.row },
            })
        } else {
            None
        }
    }

    /// How the order stands on these terms. Without a limit it is better.
    pub fn standing(&self, terms: Terms) -> Standing
        ensures value { result ≡ standing_of (row_of self.now) terms }
    {
        standing_at(self.row, terms)
    }

    /// The order's class on these terms, or none where it is in no class. An O that is better or at has its class on either side; whether that
    /// class is open to its side is asked of the list.
    pub fn class(&self, terms: Terms) -> Option<Class>
        ensures value { result ≡ class_of (row_of self.now) terms }
    {
        let row = self.row;
        class_by(
            row.kind,
            row.marked,
            self.standing(terms),
            is_elected(row.side, row.price, terms.price),
        )
    }
}
