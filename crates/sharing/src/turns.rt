// Sharing by turns.
ghost use Rattle.std.specs.Prelude.{◌≡◌, length, OnOk};
ghost use Rattle.sharing.specs.Shares.{answer, given};
ghost use Rattle.sharing.specs.Turns.{turns, Level};
ghost use Rattle.sharing.specs.TurnsLaws.{turns_paired, turns_within, turns_spends, turns_lots};
ghost use Rattle.std.proofs.Common.{rules};

use crate::{Sharing, Unequal, check_lengths};

/// By turns, in lots of 100: in rounds, each claimant still short takes the least of 100, what it lacks and what is left, until
/// the amount is spent or nobody is short.
#[derive(Clone, Copy, PartialEq, Eq, Debug)]
pub struct ByTurns;

impl Sharing for ByTurns {
    const LOT: u32 = 100;

    ghost LOT = { 100 };

    ghost meaning = { λ _ amount claims. turns amount claims };

    ghost positive = { Prim.search rules };

    ghost paired = { λ s. turns_paired };

    ghost within = { λ s. turns_within };

    ghost spends = { λ s. turns_spends };

    ghost lots = { λ s. turns_lots };

    /// Writes the gifts by turns. Of any two claimants, if the first is left short, the second's gift is at most 100 above the first's. Refuses,
    /// and writes no gift, when claims and gifts are not equally long (22).
    fn share(&self, amount: u64, claims: &[u32], gifts: &mut [u32]) -> Result<(), Unequal>
        ensures value { result ≡ answer claims.now gifts.old }
        ensures after { gifts.new ≡ given claims.now gifts.old (turns amount claims.now) }
        ensures level { OnOk result (Level claims.now gifts.new) }
    {
        check_lengths(claims, gifts)?;
        deal(amount, claims, gifts);
        Ok(())
    }
}

/// Deals `amount` in rounds, until it is spent or nobody is short.
fn deal(amount: u64, claims: &[u32], gifts: &mut [u32])
    requires paired { length gifts.old ≡ length claims.now }
    ensures after { gifts.new ≡ turns amount claims.now }
{
    gifts.fill(0);
    let mut left = amount;
    // Rounds outside, claimants inside, left by a label (docs/DECISIONS.md, "Forms that are fixed").
    'rounds: loop {
        let before = left;
        // By an index: of what a `zip` with `gifts.iter_mut()` writes, nothing is known after the loop, and the proof does not close.
        for (i, gift) in gifts.iter_mut().enumerate() {
            if claims[i] <= *gift {
                continue;
            }
            let turn = ByTurns::LOT.min(claims[i] - *gift);
            if left <= u64::from(turn) {
                *gift += left as u32;
                break 'rounds;
            }
            *gift += turn;
            left -= u64::from(turn);
        }
        if left == before {
            break;
        }
    }
}
