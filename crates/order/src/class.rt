// The seven classes, and which of them an order is in.
ghost use Rattle.std.specs.Prelude.{◌≡◌};
ghost use Rattle.order.specs.Classes.{rank_of, placed, class_by};

use crate::kind::Kind;
use crate::limit::Standing;

/// A class of orders at a price, in the order in which classes are filled.
#[derive(Clone, Copy, PartialEq, Eq, Debug)]
pub enum Class {
    /// 0, must execute: unmarked M, elected S, C; when better, marked M, L (marked or not) and B.
    MustExecute = 0,
    /// 1: B at; D better or at.
    BookAt = 1,
    /// 2: unmarked L at.
    LimitAt = 2,
    /// 3: marked M at.
    MarkedMarketAt = 3,
    /// 4: marked L at.
    MarkedLimitAt = 4,
    /// 5: G at the market, better or at.
    YieldingIn = 5,
    /// 6: O better or at, on the lighter side only.
    OffsetIn = 6,
}

impl Class {
    /// The class's number, which is its rank.
    pub fn rank(self) -> usize
        ensures value { result ≡ rank_of self }
    {
        self as usize
    }
}

/// One class when better, another when at, and none when out.
fn place(standing: Standing, better: Class, at: Class) -> Option<Class>
    ensures value { result ≡ placed standing better at }
{
    match standing {
        Standing::Better => Some(better),
        Standing::At => Some(at),
        Standing::Out => None,
    }
}

/// The class of an order by its kind and mark, how it stands to the price and, for a stop, whether it is elected.
// Standing and election are two parameters: one type for both would have to be made by kind, which the table below does already.
pub(crate) fn class_by(
    kind: Kind,
    marked: bool,
    standing: Standing,
    is_elected: bool,
) -> Option<Class>
    ensures value { result ≡ class_by kind marked standing is_elected }
{
    match (kind, marked) {
        (Kind::MarketOnClose, false) | (Kind::Crowd, _) => Some(Class::MustExecute),
        (Kind::MarketOnClose, true) => place(standing, Class::MustExecute, Class::MarkedMarketAt),
        (Kind::LimitOnClose, false) => place(standing, Class::MustExecute, Class::LimitAt),
        (Kind::LimitOnClose, true) => place(standing, Class::MustExecute, Class::MarkedLimitAt),
        (Kind::Book, _) => place(standing, Class::MustExecute, Class::BookAt),
        (Kind::MarketMaker, _) => place(standing, Class::BookAt, Class::BookAt),
        (Kind::ClosingOffset, _) => place(standing, Class::OffsetIn, Class::OffsetIn),
        (Kind::Yielding, _) => place(standing, Class::YieldingIn, Class::YieldingIn),
        (Kind::Stop, _) => is_elected.then_some(Class::MustExecute),
    }
}
