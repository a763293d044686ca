// The worked examples of the rule: one table, and one proof that each of them holds.
#![tactic(auto)]

ghost use Rattle.std.specs.Prelude.{◌≡◌, length};
ghost use Rattle.examples.specs.Examples.{AllHold};
ghost use Rattle.examples.specs.Table.{table};

/// How many examples the table has. Each of them holds.
pub fn worked() -> usize
    ensures value { result ≡ length table }
    ensures hold { AllHold table }
{
    192
}

#[cfg(test)]
mod tests;
