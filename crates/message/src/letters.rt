// The letters of verbs, kinds and sides, and the numbers of flags.
ghost use Rattle.std.specs.Prelude.{◌≡◌};
ghost use Rattle.message.specs.Letters.{verb_of, kind_of, side_of, flag_of};

use order::{Kind, Side};

/// What a message asks.
#[derive(Clone, Copy, PartialEq, Eq, Debug)]
pub(crate) enum Verb {
    Time,
    Sale,
    Quote,
    Entry,
    Cancel,
    Reduction,
    Publication,
    Close,
}

impl Verb {
    /// The verb of this letter, or none.
    pub(crate) fn of(letter: u8) -> Option<Verb>
        ensures value { result ≡ verb_of letter }
    {
        match letter {
            b'T' => Some(Verb::Time),
            b'S' => Some(Verb::Sale),
            b'Q' => Some(Verb::Quote),
            b'E' => Some(Verb::Entry),
            b'X' => Some(Verb::Cancel),
            b'R' => Some(Verb::Reduction),
            b'P' => Some(Verb::Publication),
            b'C' => Some(Verb::Close),
            _ => None,
        }
    }
}

/// The kind of this letter, or none.
pub(crate) fn kind_of(letter: u8) -> Option<Kind>
    ensures value { result ≡ kind_of letter }
{
    match letter {
        b'M' => Some(Kind::MarketOnClose),
        b'C' => Some(Kind::Crowd),
        b'L' => Some(Kind::LimitOnClose),
        b'B' => Some(Kind::Book),
        b'D' => Some(Kind::MarketMaker),
        b'O' => Some(Kind::ClosingOffset),
        b'G' => Some(Kind::Yielding),
        b'S' => Some(Kind::Stop),
        _ => None,
    }
}

/// The side of this letter, or none.
pub(crate) fn side_of(letter: u8) -> Option<Side>
    ensures value { result ≡ side_of letter }
{
    match letter {
        b'B' => Some(Side::Buy),
        b'S' => Some(Side::Sell),
        _ => None,
    }
}

/// What a flag of this number says, or none.
pub(crate) fn flag_of(number: u8) -> Option<bool>
    ensures value { result ≡ flag_of number }
{
    match number {
        0 => Some(false),
        1 => Some(true),
        _ => None,
    }
}
