// The clock table: what a session may do in each phase.
ghost use Rattle.std.specs.Prelude.{◌≡◌};
ghost use Rattle.clock.specs.Table.{allowed_in, lets, wants_notice};

use crate::phase::Phase;
use crate::phase::Phase::{Closing, Final, Imbalance, Regular};
use Event::{Close, In, Off, Publication, Quote, Sale};
use order::Kind;
use order::Kind::{
    Book, ClosingOffset, Crowd, LimitOnClose, MarketMaker, MarketOnClose, Stop, Yielding,
};

/// What a call would do, as far as the clock is concerned.
#[derive(Clone, Copy, PartialEq, Eq, Debug)]
pub enum Event {
    /// An order of the kind comes in.
    In(Kind),
    /// An order of the kind goes off, by a cancel or a reduction, with or without the error flag.
    Off(Kind, bool),
    Sale,
    Quote,
    Publication,
    Close,
}

/// What the clock says to an event.
#[derive(Clone, Copy, PartialEq, Eq, Debug)]
pub enum Allowance {
    Yes,
    /// Only against a mandatory notice for the other side.
    AgainstNotice,
    No,
}

impl Allowance {
    /// Whether the clock lets it happen, be it against a notice.
    pub fn lets(self) -> bool
        ensures value { result ≡ lets self }
    {
        self != Allowance::No
    }

    /// Whether it takes a notice.
    pub fn wants_notice(self) -> bool
        ensures value { result ≡ wants_notice self }
    {
        self == Allowance::AgainstNotice
    }
}

/// What the clock says to an event in a phase.
#[tactic(auto, unfolding(crate::specs::Table::line_of))]
pub fn allowed(phase: Phase, event: Event) -> Allowance
    ensures value { result ≡ allowed_in phase event }
{
    match (phase, event) {
        // M and L come in.
        (Regular, In(MarketOnClose | LimitOnClose)) => Allowance::Yes,
        (Imbalance | Final, In(MarketOnClose | LimitOnClose)) => Allowance::AgainstNotice,
        (Closing, In(MarketOnClose | LimitOnClose)) => Allowance::No,
        // M, L and O go off.
        (Regular, Off(MarketOnClose | LimitOnClose | ClosingOffset, _))
        | (Imbalance, Off(MarketOnClose | LimitOnClose | ClosingOffset, true)) => Allowance::Yes,
        (Imbalance | Final | Closing, Off(MarketOnClose | LimitOnClose | ClosingOffset, _)) => {
            Allowance::No
        }
        // O comes in; B, G and S come in and go off; a sale, a quote and a publication.
        (
            Regular | Imbalance | Final,
            In(ClosingOffset | Book | Yielding | Stop)
            | Off(Book | Yielding | Stop, _)
            | Sale
            | Quote
            | Publication,
        ) => Allowance::Yes,
        (
            Closing,
            In(ClosingOffset | Book | Yielding | Stop)
            | Off(Book | Yielding | Stop, _)
            | Sale
            | Quote
            | Publication,
        ) => Allowance::No,
        // C and D come in and go off.
        (_, In(Crowd | MarketMaker) | Off(Crowd | MarketMaker, _)) => Allowance::Yes,
        // The close.
        (Regular | Imbalance | Final, Close) => Allowance::No,
        (Closing, Close) => Allowance::Yes,
    }
}
