// The orders of the sample book, and the last sale before its close.
use list::List;
use order::{Kind, Row, Sale, Side, next_sale};

/// How many orders the book has.
pub(crate) const COUNT: usize = 10;

/// The orders of the book, in order of arrival: number, kind, side, mark, price in cents, and size.
const ORDERS: [(u32, Kind, Side, bool, u32, u32); COUNT] = [
    (1, Kind::MarketOnClose, Side::Buy, false, 0, 1_000),
    (2, Kind::MarketOnClose, Side::Sell, true, 0, 300),
    (3, Kind::LimitOnClose, Side::Sell, false, 2002, 500),
    (4, Kind::ClosingOffset, Side::Sell, false, 2002, 400),
    (5, Kind::Book, Side::Buy, false, 2001, 200),
    (6, Kind::Yielding, Side::Sell, false, 0, 250),
    (7, Kind::Book, Side::Sell, false, 2001, 500),
    (8, Kind::MarketMaker, Side::Buy, false, 2003, 750),
    (9, Kind::ClosingOffset, Side::Sell, false, 2001, 200),
    (10, Kind::Stop, Side::Buy, false, 2004, 400),
];

/// The last sale, at 2000 after one at 1999, and so on a plus tick.
pub(crate) fn last_sale() -> Sale {
    next_sale(Some(next_sale(None, 1999)), 2000)
}

/// Places for the book's orders. What they hold has no meaning.
pub(crate) fn new_places() -> [Row; COUNT] {
    [Row::unfilled(0, Kind::Crowd, Side::Buy, false, 0, 0); COUNT]
}

/// The book over `places`, with no share filled. There is a place for each order, so none is refused.
// No `unwrap`: that a place is left would need an invariant of the loop, in a program that proves nothing else.
pub(crate) fn book_over(places: &mut [Row; COUNT]) -> List<Row> {
    let mut rows = List::new(places);
    for (number, kind, side, marked, price, size) in ORDERS {
        let _ = rows.push(Row::unfilled(number, kind, side, marked, price, size));
    }
    rows
}
