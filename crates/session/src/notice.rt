// Notices of an imbalance.
ghost use Rattle.std.specs.Prelude.{◌≡◌};
ghost use Rattle.list.specs.Held.{kept};
ghost use Rattle.session.specs.Notices.{faces, is_faced, has_mandatory, is_notable};

use list::List;
use order::Side;

/// The least amount of a mandatory notice that is not flagged as significant, in shares.
const NOTABLE: u64 = 50_000;

/// A notice of an imbalance.
#[derive(Clone, Copy, PartialEq, Eq, Debug)]
pub struct Notice {
    /// In shares: positive to buy, negative to sell.
    pub amount: i64,
    /// The reference price, in cents.
    pub reference: u32,
    pub mandatory: bool,
}

impl Notice {
    /// Whether it is mandatory and for the side that faces `side`.
    fn faces(self, side: Side) -> bool
        ensures value { result ≡ faces side self }
    {
        self.mandatory
            && match side {
                Side::Buy => self.amount < 0,
                Side::Sell => 0 < self.amount,
            }
    }

    /// Whether its amount is not 0 and, where it is mandatory, large enough or flagged as significant.
    pub(crate) fn is_notable(self, significant: bool) -> bool
        ensures value { result ≡ is_notable self significant }
    {
        self.amount != 0
            && (!self.mandatory || NOTABLE <= self.amount.unsigned_abs() || significant)
    }
}

/// Whether one of the notices is mandatory and for the side that faces `side`.
pub(crate) fn is_faced(notices: &List<Notice>, side: Side) -> bool
    ensures value { result ≡ is_faced side (kept notices.now) }
{
    notices.elements().iter().any(|notice| notice.faces(side))
}

/// Whether one of the notices is mandatory.
pub(crate) fn has_mandatory(notices: &List<Notice>) -> bool
    ensures value { result ≡ has_mandatory (kept notices.now) }
{
    notices.elements().iter().any(|notice| notice.mandatory)
}
