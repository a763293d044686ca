// The shares of each order at a price.
ghost use Rattle.std.specs.Prelude.{◌≡◌, ◌≤◌, false, map, length, Ok};
ghost use Rattle.list.specs.Held.{held, kept};
ghost use Rattle.std.specs.List.{AllZip};
ghost use Rattle.book.specs.declared.fills.FillFault.TheVariants.{Unfillable as ForUnfillable, Unequal as ForUnequal};
ghost use Rattle.book.specs.Answers.{question_of, gifts_of, rewritten, list_after, fill_answer, claims_after, gifts_after, rows_after, given_in, Upheld};
ghost use Rattle.book.specs.Entries.{orders_at};
ghost use Rattle.book.specs.Fill.{claims_of, beside, fills_of};
ghost use Rattle.book.specs.Plans.{planned, row_claim, row_filled};
ghost use Rattle.book.specs.Theorem.{Filled};
ghost use Rattle.book.specs.Volume.{traded, unfillable};

use crate::entry::Entry;
use crate::sides::{Plan, Unfillable};
use crate::volume::plan;
use list::List;
use order::{Order, Row, Terms};
use sharing::{Sharing, Unequal};
use std::error::Error;
use std::fmt;

/// Why a list is not filled, in the order of the questions.
#[derive(Clone, Copy, PartialEq, Eq, Debug)]
pub enum FillFault {
    /// A work list has fewer places than the list has rows.
    NoPlace = 20,
    /// No division of the shares fills every order that must execute.
    Unfillable = 21,
    /// The method's claims and gifts are not equally long.
    Unequal = 22,
}

impl FillFault {
    /// The number of the question that is answered no.
    pub fn question(self) -> u8
        ensures value { result ≡ question_of self }
    {
        self as u8
    }
}

/// The ground of the refusal, in words.
// By hand: a derived text has no contract.
impl fmt::Display for FillFault {
    ghost use Rattle.std.specs.Prelude.{Some};
    ghost use Rattle.book.specs.Texts.{fault_text};

    ghost output = { λ fault. Some (fault_text fault) };

    ghost styled_output = { λ fault _. Some (fault_text fault) };

    fn fmt<W: fmt::Write>(&self, f: &mut fmt::Formatter<W>) -> fmt::Result {
        match self {
            FillFault::NoPlace => f.write_str("a work list has no place for each order"),
            FillFault::Unfillable => fmt::Display::fmt(&Unfillable, f),
            FillFault::Unequal => fmt::Display::fmt(&Unequal, f),
        }
    }
}

impl Error for FillFault {}

/// The refusal of the same name, with the same number.
// Both conversions are by hand: a clause names the fault, and a derived one has no contract.
impl From<Unfillable> for FillFault {
    ghost use Rattle.book.specs.Plans.{unfillable_question};

    ghost from_gives = { λ _ r. (r ≡ ForUnfillable) × (question_of r ≡ unfillable_question) };

    fn from(_refusal: Unfillable) -> FillFault {
        Self::Unfillable
    }
}

/// The refusal of the same name, with the same number.
impl From<Unequal> for FillFault {
    ghost use Rattle.sharing.specs.Shares.{unequal_question};

    ghost from_gives = { λ _ r. (r ≡ ForUnequal) × (question_of r ≡ unequal_question) };

    fn from(_refusal: Unequal) -> FillFault {
        Self::Unequal
    }
}

/// Fills the orders on these terms, each side class by class, and answers the volume. The method is asked once, for the class that gets some
/// but not all. Each order then has its filled shares. `claims` hold the sizes of the orders in that class and 0 for every other row, `gifts`
/// what the method gives them of what is left, and later places of both what they held. Rows that fail their check have claim 0 and stay as
/// they are.
///
/// Refuses, and changes nothing, when a work list has fewer places than the list has rows (20), or when no division of the shares fills
/// every order that must execute (21). The method never refuses (22).
// Claims and gifts are two slices of the caller's, since no call allocates (docs/DECISIONS.md, "Forms that are fixed").
pub fn fill<S: Sharing>(
    rows: &mut List<Row>,
    terms: Terms,
    method: &S,
    claims: &mut [u32],
    gifts: &mut [u32],
) -> Result<u64, FillFault>
    ensures value { result ≡ fill_answer rows.old terms claims.old gifts.old }
    ensures claims { claims.new ≡ claims_after rows.old terms claims.old gifts.old }
    ensures gifts { gifts.new ≡ gifts_after rows.old terms claims.old gifts.old (S.meaning method.now) }
    ensures after { rows.new ≡ rows_after rows.old terms claims.old gifts.old (S.meaning method.now) }
    ensures upheld { Upheld rows.old terms claims.old gifts.old (given_in rows.new) result }
{
    let count = rows.len();
    if claims.len() < count || gifts.len() < count {
        return Err(FillFault::NoPlace);
    }
    let plan = plan(rows, terms)?;
    let filling = Filling { plan, terms };
    filling.share_out(rows, method, &mut claims[..count], &mut gifts[..count])?;
    Ok(plan.volume)
}

/// A plan, with the terms that it was made for.
#[derive(Clone, Copy, PartialEq, Eq, Debug)]
struct Filling {
    plan: Plan,
    terms: Terms,
}

impl Filling {
    /// What a row claims. A row that fails its check claims nothing.
    fn claim(&self, row: Row) -> u32
        ensures value { result ≡ row_claim self.now row }
    {
        self.plan.claim(Entry::at(row, self.terms))
    }

    /// The row with what it gets, where its gift is `gift`. A row that fails its check stays as it is.
    fn filled(&self, row: Row, gift: u32) -> Row
        requires { gift ≤ row_claim self.now row }
        ensures value { result ≡ row_filled self.now row gift }
    {
        let share = self.plan.share(Entry::at(row, self.terms), gift);
        Order::try_from(row)
            .ok()
            .and_then(|order| order.with_filled(share))
            .map_or(row, Row::from)
    }

    /// Writes each row's claim at its place.
    fn write_claims(&self, rows: &List<Row>, claims: &mut [u32])
        requires { length claims.old ≡ held rows.now }
        ensures after { claims.new ≡ map (row_claim self.now) (kept rows.now) }
    {
        // A loop with index that writes each claim at the place of its row (docs/DECISIONS.md, "Forms that are fixed").
        for (place, row) in rows.elements().iter().enumerate() {
            claims[place] = self.claim(*row);
        }
    }

    /// Writes each row back whole, with the gift at its place.
    fn write_fills(&self, rows: &mut List<Row>, gifts: &[u32])
        requires { AllZip (λ row gift. gift ≤ row_claim self.now row) (kept rows.old) gifts.now }
        ensures after { rows.new ≡ rewritten rows.old (beside (row_filled self.now) (kept rows.old) gifts.now) }
    {
        // By place: `put` writes the row back whole, and so borrows the list that an iterator over its elements would hold.
        for (place, gift) in gifts.iter().enumerate() {
            let row = rows.elements()[place];
            rows.put(place, self.filled(row, *gift)).unwrap();
        }
    }

    /// Asks the method once for the cut class, and writes what each row gets by the plan.
    fn share_out<S: Sharing>(
        &self,
        rows: &mut List<Row>,
        method: &S,
        claims: &mut [u32],
        gifts: &mut [u32],
    ) -> Result<(), Unequal>
        requires room { (length claims.old ≡ held rows.old) × (length gifts.old ≡ held rows.old) }
        requires planned { self.now.plan ≡ planned (orders_at rows.old self.now.terms) }
        requires fillable { unfillable (orders_at rows.old self.now.terms) ≡ false }
        ensures value { result ≡ Ok tt }
        ensures claims { claims.new ≡ claims_of (orders_at rows.old self.now.terms) }
        ensures gifts { gifts.new ≡ gifts_of (S.meaning method.now) (orders_at rows.old self.now.terms) }
        ensures after { let orders = orders_at rows.old self.now.terms in rows.new ≡ list_after rows.old (fills_of orders (gifts_of (S.meaning method.now) orders)) }
        ensures filled { Filled (orders_at rows.old self.now.terms) (given_in rows.new) (traded (orders_at rows.old self.now.terms)) }
    {
        self.write_claims(rows, claims);
        method.share(self.plan.amount(), claims, gifts)?;
        self.write_fills(rows, gifts);
        Ok(())
    }
}
