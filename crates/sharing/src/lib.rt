// Methods of sharing an amount among claims, and what each of them owes.
#![tactic(auto)]

ghost use Rattle.std.specs.Prelude.{◌≡◌, ℕ, ◌≤◌, min, List, length, Some};
ghost use Rattle.sharing.specs.Shares.{total, Within, Lotted, unequal_question, unequal_text, answer, given};

use std::error::Error;
use std::fmt;

mod arrival;
mod turns;

pub use arrival::ByArrival;
pub use turns::ByTurns;

/// Claims and gifts are not equally long.
#[derive(Clone, Copy, PartialEq, Eq, Debug)]
pub struct Unequal;

impl Unequal {
    /// The number of the question that is answered no: are claims and gifts equally long (22)?
    pub fn question(self) -> u8
        ensures value { result ≡ unequal_question }
    {
        22
    }
}

/// The ground of the refusal, in words.
// By hand: a derived text has no contract.
impl fmt::Display for Unequal {
    ghost output = { λ _. Some unequal_text };

    ghost styled_output = { λ _ _. Some unequal_text };

    fn fmt<W: fmt::Write>(&self, f: &mut fmt::Formatter<W>) -> fmt::Result {
        f.write_str("claims and gifts are not equally long")
    }
}

impl Error for Unequal {}

/// A method of sharing an amount among claims.
pub trait Sharing {
    /// The lot: each gift is its claim or a multiple of the lot, save for at most one claimant.
    const LOT: u32;

    // The same number, for the laws below to cite. The check proves the two equal.
    ghost LOT: { ℕ };

    // What the method means: one fixed list of gifts for each amount and claims.
    ghost meaning: { Self → ℕ → List ℕ → List ℕ };

    /// The lot, for a program to read.
    final fn lot_size() -> u32
        ensures value { result ≡ LOT }
    {
        Self::LOT
    }

    /// Shares `amount` among `claims`: writes the gifts of its meaning, one for each claim. Refuses, and writes no gift, when claims and gifts are
    /// not equally long (22). Claims and method are not changed.
    // Two slices of the caller's, since no call allocates (docs/DECISIONS.md, "Forms that are fixed").
    fn share(&self, amount: u64, claims: &[u32], gifts: &mut [u32]) -> Result<(), Unequal>
        ensures value { result ≡ answer claims.now gifts.old }
        ensures after { gifts.new ≡ given claims.now gifts.old (meaning self.now amount claims.now) };

    // The lot is 1 share or more.
    ghost positive: { 1 ≤ LOT };

    // There are as many gifts as claims.
    ghost paired: { (s : Self) (amount : ℕ) (claims : List ℕ) → length (meaning s amount claims) ≡ length claims };

    // No gift exceeds its claim.
    ghost within: { (s : Self) (amount : ℕ) (claims : List ℕ) → Within claims (meaning s amount claims) };

    // Together the gifts are the lesser of the amount and all claims.
    ghost spends: { (s : Self) (amount : ℕ) (claims : List ℕ) → total (meaning s amount claims) ≡ min amount (total claims) };

    // Each gift is its claim or a multiple of the lot, save for at most one claimant.
    ghost lots: { (s : Self) (amount : ℕ) (claims : List ℕ) → Lotted LOT claims (meaning s amount claims) };
}

/// Refuses where claims and gifts are not equally long.
fn check_lengths(claims: &[u32], gifts: &[u32]) -> Result<(), Unequal>
    ensures value { result ≡ answer claims.now gifts.now }
{
    if claims.len() == gifts.len() {
        Ok(())
    } else {
        Err(Unequal)
    }
}

#[cfg(test)]
mod tests;
