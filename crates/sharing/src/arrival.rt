// Sharing by arrival.
ghost use Rattle.std.specs.Prelude.{◌≡◌, OnOk};
ghost use Rattle.sharing.specs.Shares.{answer, given};
ghost use Rattle.sharing.specs.Arrival.{arrival, FirstCome};
ghost use Rattle.sharing.specs.ArrivalLaws.{arrival_paired, arrival_within, arrival_spends, arrival_lots};
ghost use Rattle.std.proofs.Common.{rules};

use crate::{Sharing, Unequal, check_lengths};

/// By arrival, in lots of 1: claims are served whole, first to last, until the amount is spent.
#[derive(Clone, Copy, PartialEq, Eq, Debug)]
pub struct ByArrival;

impl Sharing for ByArrival {
    const LOT: u32 = 1;

    ghost LOT = { 1 };

    ghost meaning = { λ _ amount claims. arrival amount claims };

    ghost positive = { Prim.search rules };

    ghost paired = { λ s. arrival_paired };

    ghost within = { λ s. arrival_within };

    ghost spends = { λ s. arrival_spends };

    ghost lots = { λ s. arrival_lots };

    /// Writes the gifts by arrival. If a claimant is left short, every later claimant gets nothing. Refuses, and writes no gift, when claims and
    /// gifts are not equally long (22).
    fn share(&self, amount: u64, claims: &[u32], gifts: &mut [u32]) -> Result<(), Unequal>
        ensures value { result ≡ answer claims.now gifts.old }
        ensures after { gifts.new ≡ given claims.now gifts.old (arrival amount claims.now) }
        ensures first_come { OnOk result (FirstCome claims.now gifts.new) }
    {
        check_lengths(claims, gifts)?;
        let mut left = amount;
        // By an index: of what a `zip` with `gifts.iter_mut()` writes, nothing is known after the loop, and the proof does not close.
        for (i, gift) in gifts.iter_mut().enumerate() {
            let share = left.min(u64::from(claims[i]));
            *gift = share as u32;
            left -= share;
        }
        Ok(())
    }
}
