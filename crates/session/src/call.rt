// The calls of a session's life, and what an accepted one answers.
use crate::notice::Notice;
use order::{Quote, Ticket};

/// A call of a session's life, with its arguments. The lists that it is lent, and the method of a close, are not part of it.
#[derive(Clone, Copy, PartialEq, Eq, Debug)]
pub enum Call {
    /// In seconds after midnight.
    Time(u32),
    /// At a price in cents.
    Sale(u32),
    Quote(Quote),
    Entry(Ticket),
    Cancel {
        number: u32,
        in_error: bool,
    },
    Reduction {
        number: u32,
        size: u32,
        in_error: bool,
    },
    Publication {
        significant: bool,
    },
    /// At a price in cents.
    Close(u32),
}

/// What an accepted call answers.
#[derive(Clone, Copy, PartialEq, Eq, Debug)]
pub enum Outcome {
    /// It was accepted, and has no more to say.
    Taken,
    /// The notice that was published.
    Published(Notice),
    /// The print of the close.
    Printed(Print),
}

/// The print of a close: the price in cents, and how many shares were bought and sold at it.
// A program that is bounded by the runtime's trait `Print` does not import this name, and has it by `Outcome::Printed`.
#[derive(Clone, Copy, PartialEq, Eq, Debug)]
pub struct Print {
    pub price: u32,
    pub volume: u64,
}
