// The gifts of a method, and sums.
ghost use Rattle.std.specs.Prelude.{◌≡◌, IfOk};
ghost use Rattle.sharing.specs.Shares.{total};

use sharing::Sharing;
use std::alloc::{AllocError, Global};

/// What the method gives each claimant of the amount.
pub(crate) fn gifts_by<S: Sharing>(
    heap: Global,
    method: &S,
    amount: u64,
    claims: &[u32],
) -> Result<Vec<u32>, AllocError>
    ensures { IfOk result (λ v. v.items ≡ S.meaning method.now amount claims.now) }
{
    let mut gifts = vec![in heap; 0; claims.len()]?;
    method.share(amount, claims, &mut gifts).unwrap();
    Ok(gifts)
}

/// The sum of the numbers, of which there are too few to overflow it.
pub(crate) fn sum_of(numbers: &[u32]) -> u128
    ensures { result ≡ total numbers.now }
{
    numbers.iter().map(|n| u128::from(*n)).sum()
}
