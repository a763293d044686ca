// The six closes that the filing SR-NYSE-2009-111 works out, each filled by turns and by arrival on both ticks.
use book::{fill, imbalance_at};
use list::List;
use order::Kind::*;
use order::Side::*;
use order::{Kind, Quote, Row, Sale, Side, Terms, Tick, reference_price};
use sharing::{ByArrival, ByTurns, Sharing};
use std::process::Abort;
use std::test::Fail;

/// An order: its number, kind, side, mark, price in cents and size, and the shares that the filing fills.
type Line = (u32, Kind, Side, bool, u32, u32, u32);

/// A close: the last sale, the quote, the closing price, the volume, and the orders after the first four.
#[derive(Clone, Copy, PartialEq, Eq, Debug)]
struct Close {
    last: u32,
    quote: Quote,
    price: u32,
    /// What the filing's fills add up to on each side: the filing names no volume.
    volume: u64,
    orders: &'static [Line],
}

/// The most orders of a close.
const MOST: usize = 12;

/// The quote of closes 1 and 4. Closes 2 and 5, after a sale at the same price, are taken to have it too.
const QUOTE: Quote = Quote {
    bid: 1985,
    offer: 2000,
};

/// Closes 3 and 6 name no quote.
const NO_QUOTE: Quote = Quote { bid: 0, offer: 0 };

/// Each tick, and the imbalance before every close on it: on a plus tick the marked market-on-close order may execute at the last sale, and
/// offsets 5,000 (docs/DECISIONS.md, "The worked closes of the filing").
const TICKS: [(Tick, i64); 2] = [(Tick::Minus, 100_000), (Tick::Plus, 95_000)];

/// The orders with which each close begins.
const FIRST: [Line; 4] = [
    (1, MarketOnClose, Buy, false, 0, 150_000, 150_000),
    (2, MarketOnClose, Sell, false, 0, 50_000, 50_000),
    (3, MarketOnClose, Sell, true, 0, 5_000, 5_000),
    (4, Crowd, Sell, false, 0, 5_000, 5_000),
];

/// The closes. Orders are numbered in order of arrival: as the filing lists them, and last the market maker's order, which is entered while
/// the close is arranged. Order 7 of closes 1, 3, 4 and 6 and order 6 of closes 2 and 5 are d-Quotes, order 7 of closes 2 and 5 is a
/// Floor broker's e-Quote; the other orders on the book are public limits.
const CLOSES: [Close; 6] = [
    // Close 1. The market maker and the yielding order make up what the sellers lack, and all are filled.
    Close {
        last: 1985,
        quote: QUOTE,
        price: 2025,
        volume: 150_000,
        orders: &[
            (5, Book, Sell, false, 2024, 10_000, 10_000),
            (6, LimitOnClose, Sell, true, 2024, 10_000, 10_000),
            (7, Book, Sell, false, 2024, 10_000, 10_000),
            (8, LimitOnClose, Sell, false, 2025, 40_000, 40_000),
            (9, Yielding, Sell, false, 0, 10_000, 10_000),
            (10, MarketMaker, Sell, false, 2025, 10_000, 10_000),
        ],
    },
    // Close 2. The orders on the book at the price and the market maker share 70,000, and the later classes get nothing.
    Close {
        last: 1985,
        quote: QUOTE,
        price: 2025,
        volume: 150_000,
        orders: &[
            (5, LimitOnClose, Sell, true, 2024, 10_000, 10_000),
            (6, Book, Sell, false, 2024, 10_000, 10_000),
            (7, Book, Sell, false, 2025, 20_000, 20_000),
            (8, Book, Sell, false, 2025, 50_000, 25_000),
            (9, LimitOnClose, Sell, false, 2025, 40_000, 0),
            (10, Yielding, Sell, false, 0, 10_000, 0),
            (11, MarketMaker, Sell, false, 2025, 50_000, 25_000),
        ],
    },
    // Close 3. The market maker adds 20,000 to the buy side, and public limits at 2026 and 2027 sell to it. All are filled.
    Close {
        last: 2023,
        quote: NO_QUOTE,
        price: 2027,
        volume: 170_000,
        orders: &[
            (5, LimitOnClose, Sell, true, 2024, 10_000, 10_000),
            (6, Book, Sell, false, 2025, 50_000, 50_000),
            (7, Book, Sell, false, 2024, 10_000, 10_000),
            (8, LimitOnClose, Sell, false, 2025, 20_000, 20_000),
            (9, Book, Sell, false, 2026, 10_000, 10_000),
            (10, Book, Sell, false, 2027, 10_000, 10_000),
            (11, MarketMaker, Buy, false, 2027, 20_000, 20_000),
        ],
    },
    // Close 4. As close 1, with a closing offset order in place of half of the yielding order.
    Close {
        last: 1985,
        quote: QUOTE,
        price: 2025,
        volume: 150_000,
        orders: &[
            (5, Book, Sell, false, 2024, 10_000, 10_000),
            (6, LimitOnClose, Sell, true, 2024, 10_000, 10_000),
            (7, Book, Sell, false, 2024, 10_000, 10_000),
            (8, LimitOnClose, Sell, false, 2025, 40_000, 40_000),
            (9, Yielding, Sell, false, 0, 5_000, 5_000),
            (10, ClosingOffset, Sell, false, 2025, 5_000, 5_000),
            (11, MarketMaker, Sell, false, 2025, 10_000, 10_000),
        ],
    },
    // Close 5. As close 2, with a closing offset order, which gets nothing.
    Close {
        last: 1985,
        quote: QUOTE,
        price: 2025,
        volume: 150_000,
        orders: &[
            (5, LimitOnClose, Sell, true, 2024, 10_000, 10_000),
            (6, Book, Sell, false, 2024, 10_000, 10_000),
            (7, Book, Sell, false, 2025, 20_000, 20_000),
            (8, Book, Sell, false, 2025, 50_000, 25_000),
            (9, LimitOnClose, Sell, false, 2025, 40_000, 0),
            (10, Yielding, Sell, false, 0, 10_000, 0),
            (11, ClosingOffset, Sell, false, 2025, 10_000, 0),
            (12, MarketMaker, Sell, false, 2025, 50_000, 25_000),
        ],
    },
    // Close 6. As close 3, but half of order 8 is a closing offset order, which fills the last 10,000 of the buy side. All are filled.
    Close {
        last: 2023,
        quote: NO_QUOTE,
        price: 2027,
        volume: 170_000,
        orders: &[
            (5, LimitOnClose, Sell, true, 2024, 10_000, 10_000),
            (6, Book, Sell, false, 2025, 50_000, 50_000),
            (7, Book, Sell, false, 2024, 10_000, 10_000),
            (8, LimitOnClose, Sell, false, 2025, 10_000, 10_000),
            (9, ClosingOffset, Sell, false, 2027, 10_000, 10_000),
            (10, Book, Sell, false, 2026, 10_000, 10_000),
            (11, Book, Sell, false, 2027, 10_000, 10_000),
            (12, MarketMaker, Buy, false, 2027, 20_000, 20_000),
        ],
    },
];

/// Where an order is filled otherwise by arrival: the close, the order's number, and its filled shares.
const BY_ARRIVAL: [(usize, u32, u32); 4] = [(2, 8, 50_000), (2, 11, 0), (5, 8, 50_000), (5, 12, 0)];

/// The order of a line, of which no share is filled.
fn unfilled(line: Line) -> Row {
    let (number, kind, side, marked, price, size, _) = line;
    Row::unfilled(number, kind, side, marked, price, size)
}

/// The filled shares that are wanted of a line of a close: those of the filing, or the other ones.
fn wanted(close: usize, line: Line, others: &[(usize, u32, u32)]) -> u32 {
    let (order, .., filled) = line;
    others
        .iter()
        .find(|(other, number, _)| *other == close && *number == order)
        .map_or(filled, |(_, _, filled)| *filled)
}

/// The imbalance before a close, at its reference price.
fn imbalance_before(rows: &List<Row>, close: Close, sale: Sale) -> i64 {
    let price = reference_price(close.last, close.quote);
    imbalance_at(rows, Terms { price, sale })
}

/// Fills a close on a tick by a method. Compares the imbalance before it, the volume, and each order's filled shares.
fn check_close<S: Sharing>(
    rt: &impl Abort,
    number: usize,
    close: Close,
    (tick, imbalance): (Tick, i64),
    method: &S,
    others: &[(usize, u32, u32)],
) -> Result<(), Fail> {
    let mut places = [unfilled(FIRST[0]); MOST];
    let mut rows = List::new(&mut places);
    for line in FIRST.iter().chain(close.orders.iter()) {
        rows.push(unfilled(*line))?;
    }
    let sale = Sale {
        price: close.last,
        tick,
    };
    let before = imbalance_before(&rows, close, sale);
    assert_eq!(rt; before, imbalance, "close {number}, {tick} tick");
    let terms = Terms {
        price: close.price,
        sale,
    };
    let volume = fill(&mut rows, terms, method, &mut [0; MOST], &mut [0; MOST]);
    assert_eq!(rt; volume, Ok(close.volume), "close {number}, {tick} tick");
    for (row, line) in rows
        .elements()
        .iter()
        .zip(FIRST.iter().chain(close.orders.iter()))
    {
        assert_eq!(rt;
            row.filled,
            wanted(number, *line, others),
            "close {number}, {tick} tick, order {}",
            line.0
        );
    }
    Ok(())
}

/// Checks each close by a method on both ticks. Closes are counted from 1.
fn check_closes<S: Sharing>(
    rt: &impl Abort,
    method: &S,
    others: &[(usize, u32, u32)],
) -> Result<(), Fail> {
    for (place, close) in CLOSES.iter().enumerate() {
        for tick in TICKS {
            check_close(rt, place + 1, *close, tick, method, others)?;
        }
    }
    Ok(())
}

#[test]
fn by_turns(rt: HostRuntime) -> Result<(), Fail> {
    check_closes(&rt, &ByTurns, &[])
}

#[test]
fn by_arrival(rt: HostRuntime) -> Result<(), Fail> {
    check_closes(&rt, &ByArrival, &BY_ARRIVAL)
}
