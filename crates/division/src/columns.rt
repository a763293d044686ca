// The table, line by line.
ghost use Rattle.std.specs.Prelude.{◌≡◌, IfOk, string_bytes};
ghost use Rattle.division.specs.Table.{table_by};

use super::gifts::sum_of;
use std::alloc::{AllocError, Global};

/// The table of claims and of gifts by arrival and by turns.
pub(crate) fn table_by(
    heap: Global,
    claims: &[u32],
    arrival: &[u32],
    turns: &[u32],
) -> Result<String, AllocError>
    ensures { IfOk result (λ s. string_bytes s ≡ table_by claims.now arrival.now turns.now) }
{
    let mut out = format!(in heap;
        " {:>11} {:>11} {:>11} {:>11}\n",
        "", "claim", "arrival", "turns"
    )?;
    for (i, ((claim, arrival), turns)) in claims.iter().zip(arrival).zip(turns).enumerate() {
        let place = i + 1;
        writeln!(out, " {place:>11} {claim:>11} {arrival:>11} {turns:>11}")?;
    }
    writeln!(
        out,
        " {:>11} {:>11} {:>11} {:>11}",
        "sum",
        sum_of(claims),
        sum_of(arrival),
        sum_of(turns)
    )?;
    Ok(out)
}
