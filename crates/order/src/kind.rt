// The kinds and sides of orders, the limits of prices, sizes and order numbers, and a plain row.
ghost use Rattle.std.specs.Prelude.{◌≡◌, [], ◌∷◌, Some};
ghost use Rattle.std.specs.Fmt.{styled_text};
ghost use Rattle.order.specs.Kinds.{kind_letter, side_letter, is_price, is_size, is_number, priced, on_close, marks};
ghost use Rattle.order.specs.Entered.{unfilled_row};
ghost use Rattle.order.specs.Rows.{resized};

use std::fmt;

/// The highest price, in cents. The lowest is 1.
pub const MAX_PRICE: u32 = 9_999_999;

/// The largest size, in shares. The smallest is 1.
pub const MAX_SIZE: u32 = 10_000_000;

/// Whether `price` is within its limits.
pub fn is_price(price: u32) -> bool
    ensures value { result ≡ is_price price }
{
    (1..=MAX_PRICE).contains(&price)
}

/// Whether `size` is within its limits.
pub fn is_size(size: u32) -> bool
    ensures value { result ≡ is_size size }
{
    (1..=MAX_SIZE).contains(&size)
}

/// Whether `number` may be the number of an order. The highest is the highest that the type holds.
pub fn is_number(number: u32) -> bool
    ensures value { result ≡ is_number number }
{
    number != 0
}

/// What an order is.
#[derive(Clone, Copy, PartialEq, Eq, Debug)]
pub enum Kind {
    /// M, market on close.
    MarketOnClose,
    /// C, crowd interest at the market.
    Crowd,
    /// L, limit on close.
    LimitOnClose,
    /// B, a limit order on the book.
    Book,
    /// D, the designated market maker's interest.
    MarketMaker,
    /// O, a closing offset order.
    ClosingOffset,
    /// G, a yielding order.
    Yielding,
    /// S, a stop order.
    Stop,
}

/// To buy or to sell.
#[derive(Clone, Copy, PartialEq, Eq, Debug)]
pub enum Side {
    Buy,
    Sell,
}

/// An order as it lies in a list. A row may hold anything that its types allow.
#[derive(Clone, Copy, PartialEq, Eq, Debug)]
pub struct Row {
    pub number: u32,
    pub kind: Kind,
    pub side: Side,
    /// Sell Plus or Buy Minus.
    pub marked: bool,
    /// A limit or a trigger in cents, or 0.
    // 0 and no `Option`: the rule's own price field holds 0 at the market, and a row holds what came in.
    pub price: u32,
    pub size: u32,
    pub filled: u32,
}

impl Row {
    /// The row of an order of which no share is filled.
    pub fn unfilled(number: u32, kind: Kind, side: Side, marked: bool, price: u32, size: u32) -> Row
        ensures value { result ≡ unfilled_row number kind side marked price size }
    {
        Row {
            number,
            kind,
            side,
            marked,
            price,
            size,
            filled: 0,
        }
    }

    /// The same row with another size, and no share filled.
    pub fn resized(self, size: u32) -> Row
        ensures value { result ≡ resized self size }
    {
        Row::unfilled(
            self.number,
            self.kind,
            self.side,
            self.marked,
            self.price,
            size,
        )
    }
}

impl Kind {
    /// The kind's letter, in ASCII.
    pub fn letter(self) -> u8
        ensures value { result ≡ kind_letter self }
    {
        // A match and no cast: as the variant's own number a letter would be written `b'M' as isize`.
        match self {
            Kind::MarketOnClose => b'M',
            Kind::Crowd => b'C',
            Kind::LimitOnClose => b'L',
            Kind::Book => b'B',
            Kind::MarketMaker => b'D',
            Kind::ClosingOffset => b'O',
            Kind::Yielding => b'G',
            Kind::Stop => b'S',
        }
    }

    /// Whether the price field of an order of this kind may hold `price`: 0 for M and C, a price for L, B, D, O and S, either for G.
    pub fn takes_price(self, price: u32) -> bool
        ensures value { result ≡ priced self price }
    {
        match self {
            Kind::MarketOnClose | Kind::Crowd => price == 0,
            Kind::LimitOnClose
            | Kind::Book
            | Kind::MarketMaker
            | Kind::ClosingOffset
            | Kind::Stop => is_price(price),
            Kind::Yielding => price == 0 || is_price(price),
        }
    }

    /// Whether an order of this kind may be marked so: any may be unmarked, and M and L marked.
    pub fn takes_mark(self, marked: bool) -> bool
        ensures value { result ≡ marks self marked }
    {
        !marked || self.is_on_close()
    }

    /// Whether the kind is market on close or limit on close.
    pub fn is_on_close(self) -> bool
        ensures value { result ≡ on_close self }
    {
        matches!(self, Kind::MarketOnClose | Kind::LimitOnClose)
    }
}

/// Its letter.
// By hand: a derived text has no contract.
impl fmt::Display for Kind {
    ghost output = { λ kind. Some (kind_letter kind ∷ []) };

    ghost styled_output = { λ kind spec. Some (styled_text spec (kind_letter kind ∷ [])) };

    fn fmt<W: fmt::Write>(&self, f: &mut fmt::Formatter<W>) -> fmt::Result {
        let kind = char::from(self.letter());
        fmt::Display::fmt(&kind, f)
    }
}

impl Side {
    /// The side's letter, in ASCII.
    pub fn letter(self) -> u8
        ensures value { result ≡ side_letter self }
    {
        // A match and no cast, as for a kind.
        match self {
            Side::Buy => b'B',
            Side::Sell => b'S',
        }
    }
}

/// Its letter.
impl fmt::Display for Side {
    ghost output = { λ side. Some (side_letter side ∷ []) };

    ghost styled_output = { λ side spec. Some (styled_text spec (side_letter side ∷ [])) };

    fn fmt<W: fmt::Write>(&self, f: &mut fmt::Formatter<W>) -> fmt::Result {
        let side = char::from(self.letter());
        fmt::Display::fmt(&side, f)
    }
}
