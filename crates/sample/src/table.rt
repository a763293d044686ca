// The table of the sample book at a price.
use crate::orders::{COUNT, book_over, last_sale, new_places};
use book::{Entry, fill, plan, weights};
use list::List;
use order::{Row, Terms};
use sharing::{ByArrival, ByTurns, Sharing};
use std::{fmt, io};

/// A number in a column of eight places, or a dash where there is none.
#[derive(Clone, Copy, PartialEq, Eq, Debug)]
struct Cell(Option<u64>);

impl fmt::Display for Cell {
    fn fmt<W: fmt::Write>(&self, f: &mut fmt::Formatter<W>) -> fmt::Result {
        match self.0 {
            Some(number) => write!(f, "{number:>8}"),
            None => write!(f, "{:>8}", "-"),
        }
    }
}

/// Prints the table of the sample book at `price`.
pub(crate) fn print_table(rt: &impl Print, price: u32) -> io::Result<()> {
    let terms = Terms {
        price,
        sale: last_sale(),
    };
    print_heading(rt, terms)?;
    let mut places = new_places();
    let rows = book_over(&mut places);
    print_orders(rt, &rows, terms)?;
    print_totals(rt, &rows, terms)
}

/// Prints the price, the last sale and the names of the columns.
fn print_heading(rt: &impl Print, terms: Terms) -> io::Result<()> {
    let Terms { price, sale } = terms;
    let last = sale.price;
    let tick = sale.tick;
    println!(rt; "price {price}, last sale {last}, {tick} tick")?;
    println!(rt;
        "{:>8}{:>8}{:>8}{:>8}{:>8}{:>8}{:>8}{:>8}{:>8}",
        "number", "kind", "side", "mark", "price", "size", "class", "arrival", "turns"
    )
}

/// Prints a line for each order.
fn print_orders(rt: &impl Print, rows: &List<Row>, terms: Terms) -> io::Result<()> {
    let weights = weights(rows, terms);
    let arrival = fills_by(terms, &ByArrival);
    let turns = fills_by(terms, &ByTurns);
    for ((row, arrival), turns) in rows.elements().iter().zip(arrival).zip(turns) {
        let class = class_at(*row, terms, weights);
        print_order(rt, row, class, arrival, turns)?;
    }
    Ok(())
}

/// Prints the line of an order, with its class and its shares by arrival and by turns. An order without a price has a dash there.
fn print_order(
    rt: &impl Print,
    row: &Row,
    class: Cell,
    arrival: Cell,
    turns: Cell,
) -> io::Result<()> {
    let number = row.number;
    let kind = row.kind;
    let side = row.side;
    let mark = if row.marked { "yes" } else { "-" };
    let price = Cell((row.price != 0).then_some(u64::from(row.price)));
    let size = row.size;
    println!(rt; "{number:>8}{kind:>8}{side:>8}{mark:>8}{price}{size:>8}{class}{arrival}{turns}")
}

/// Prints what each side has, and the volume or that the price is unfillable.
fn print_totals(rt: &impl Print, rows: &List<Row>, terms: Terms) -> io::Result<()> {
    let (buy, sell) = weights(rows, terms);
    println!(rt; "W to buy {buy}, W to sell {sell}")?;
    match plan(rows, terms) {
        Ok(plan) => {
            let volume = plan.volume;
            println!(rt; "volume {volume}")
        }
        Err(unfillable) => println!(rt; "{unfillable}"),
    }
}

/// The rank of the class in which an order is eligible, where the W to buy and to sell are these.
fn class_at(row: Row, terms: Terms, weights: (u64, u64)) -> Cell {
    let entry = Entry::at(row, terms);
    let rank = entry.rank.filter(|_| entry.is_eligible(weights));
    Cell(rank.map(|rank| rank as u64))
}

/// The filled shares of each order by a method, or none where the price is unfillable.
fn fills_by<S: Sharing>(terms: Terms, method: &S) -> [Cell; COUNT] {
    let mut cells = [Cell(None); COUNT];
    let mut places = new_places();
    let mut rows = book_over(&mut places);
    if fill(&mut rows, terms, method, &mut [0; COUNT], &mut [0; COUNT]).is_ok() {
        for (cell, row) in cells.iter_mut().zip(rows.elements()) {
            *cell = Cell(Some(u64::from(row.filled)));
        }
    }
    cells
}
