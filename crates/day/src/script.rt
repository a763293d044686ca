// The calls of the sample day, from the morning to the close.
use crate::calls::PrintedSession;
use list::List;
use order::{Kind, Row, Side};
use session::Notice;
use std::io;

/// How many orders the list of the day has places for.
const ORDERS: usize = 8;

/// Shows the sample day.
pub(crate) fn show_day(rt: &(impl Alloc + Print)) -> io::Result<()> {
    let mut order_places = [Row::unfilled(0, Kind::Crowd, Side::Buy, false, 0, 0); ORDERS];
    let mut notice_places = [Notice {
        amount: 0,
        reference: 0,
        mandatory: false,
    }; 2];
    let mut claims = [0; ORDERS];
    let mut gifts = [0; ORDERS];
    let mut session = PrintedSession::open(
        rt,
        List::new(&mut order_places),
        List::new(&mut notice_places),
        &mut claims,
        &mut gifts,
    );
    call_at_opening(&mut session)?;
    call_in_morning(&mut session)?;
    call_in_afternoon(&mut session)?;
    call_from_15_45(&mut session)?;
    call_from_15_58(&mut session)?;
    call_from_16_00(&mut session)?;
    call_at_close(&mut session)?;
    session.print_fills()?;
    session.print_readers()
}

/// The seconds after midnight at a time of day.
fn at(hour: u8, minute: u8, second: u8) -> u32 {
    u32::from(hour) * 3600 + u32::from(minute) * 60 + u32::from(second)
}

/// Sales, of which one is at the price before it and one is lower, and quotes, of which the last has its bid at its offer.
fn call_at_opening(session: &mut PrintedSession<'_, impl Alloc + Print>) -> io::Result<()> {
    session.set_time(at(9, 30, 0))?;
    session.record_sale(2000)?;
    session.record_sale(2000)?;
    session.record_sale(1998)?;
    session.record_quote(1999, 2001)?;
    session.record_quote(2001, 2001)
}

/// Orders of several kinds. The last but one has a price where none belongs, and the last has a number that is listed already.
fn call_in_morning(session: &mut PrintedSession<'_, impl Alloc + Print>) -> io::Result<()> {
    session.set_time(at(11, 0, 0))?;
    session.enter(1, Kind::MarketOnClose, Side::Buy, 0, 40_000)?;
    session.enter(2, Kind::MarketOnClose, Side::Buy, 0, 15_050)?;
    session.enter(3, Kind::LimitOnClose, Side::Sell, 1998, 6_000)?;
    session.enter(4, Kind::Book, Side::Buy, 1999, 2_000)?;
    session.enter(5, Kind::MarketMaker, Side::Sell, 2000, 3_000)?;
    session.enter(6, Kind::ClosingOffset, Side::Sell, 2000, 5_000)?;
    session.enter(7, Kind::Stop, Side::Buy, 2002, 1_000)?;
    session.enter(8, Kind::MarketOnClose, Side::Buy, 2000, 500)?;
    session.enter(1, Kind::LimitOnClose, Side::Sell, 2000, 500)
}

/// A notice that is not mandatory, a cancel, a reduction, and another to a size that is not smaller.
fn call_in_afternoon(session: &mut PrintedSession<'_, impl Alloc + Print>) -> io::Result<()> {
    session.set_time(at(14, 0, 0))?;
    session.publish()?;
    session.cancel(4, false)?;
    session.reduce(3, 4_500)?;
    session.reduce(3, 4_500)
}

/// An M before the mandatory notice, a second notice, an L on either side, and a cancel without the error flag and with it.
fn call_from_15_45(session: &mut PrintedSession<'_, impl Alloc + Print>) -> io::Result<()> {
    session.set_time(at(15, 45, 0))?;
    session.enter(8, Kind::MarketOnClose, Side::Sell, 0, 1_000)?;
    session.publish()?;
    session.publish()?;
    session.enter(8, Kind::LimitOnClose, Side::Sell, 2000, 10_000)?;
    session.enter(9, Kind::LimitOnClose, Side::Buy, 2000, 10_000)?;
    session.cancel(2, false)?;
    session.cancel(2, true)
}

/// A cancel that the error flag no longer allows, an earlier time, totals, and a close that comes too early.
fn call_from_15_58(session: &mut PrintedSession<'_, impl Alloc + Print>) -> io::Result<()> {
    session.set_time(at(15, 58, 0))?;
    session.cancel(1, true)?;
    session.set_time(at(15, 50, 0))?;
    session.totals(2000)?;
    session.close(2000)
}

/// A sale that comes too late, crowd interest, the market maker's interest at one cent more than before, and the time five seconds later.
fn call_from_16_00(session: &mut PrintedSession<'_, impl Alloc + Print>) -> io::Result<()> {
    session.set_time(at(16, 0, 0))?;
    session.record_sale(2001)?;
    session.enter(10, Kind::Crowd, Side::Sell, 0, 5_000)?;
    session.enter(11, Kind::MarketMaker, Side::Sell, 2001, 20_000)?;
    session.set_time(at(16, 0, 5))
}

/// A close at a price at which too few shares are to sell for order 1, which must execute whole, a close at the price of order 11, of which a part
/// is filled, and a cancel after the close.
fn call_at_close(session: &mut PrintedSession<'_, impl Alloc + Print>) -> io::Result<()> {
    session.close(2000)?;
    session.close(2001)?;
    session.cancel(11, false)
}
