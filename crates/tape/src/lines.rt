// The lines of a message.
ghost use Rattle.std.specs.Prelude.{◌≡◌, IfSome};
ghost use Rattle.line.specs.Reading.{OfTypes};
ghost use Rattle.tape.specs.Messages.{fill_line};
ghost use Rattle.tape.specs.Standing.{first_line, fills_after};

use line::Line;
use message::FileFault;
use order::Row;
use session::Outcome;

/// The line of an order.
pub(crate) fn fill_line(row: Row) -> Line
    ensures value { result ≡ fill_line row }
    ensures types { OfTypes result }
{
    Line::Fill {
        number: row.number,
        side: row.side,
        filled: row.filled,
        unfilled: row.size.saturating_sub(row.filled),
    }
}

/// The first line of message `number` that is answered so, or none.
pub(crate) fn first_line(number: u32, reply: Result<Outcome, FileFault>) -> Option<Line>
    ensures value { result ≡ first_line number reply }
    ensures types { IfSome result OfTypes }
{
    match reply {
        Ok(Outcome::Taken) => None,
        Ok(Outcome::Published(notice)) => Some(Line::Notice {
            message: number,
            amount: notice.amount,
            reference: notice.reference,
        }),
        Ok(Outcome::Printed(print)) => Some(Line::Print {
            price: print.price,
            volume: print.volume,
        }),
        Err(fault) => Some(Line::Refusal {
            message: number,
            fault,
        }),
    }
}

/// The place of the order whose F line follows such an answer, where one may.
pub(crate) fn fills_after(reply: Result<Outcome, FileFault>) -> Option<usize>
    ensures value { result ≡ fills_after reply }
{
    match reply {
        Ok(Outcome::Printed(_)) => Some(0),
        Ok(Outcome::Taken | Outcome::Published(_)) | Err(_) => None,
    }
}
