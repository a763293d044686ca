// Prints a sample book at a price: each order's class there, and its shares by arrival and by turns.
#![tactic(auto)]

mod orders;
mod table;

use order::MAX_PRICE;
use std::process::ExitCode;
use std::rt::Env;
use std::{env, io};
use table::print_table;
use thiserror::Error;

/// The price where no argument is given, in cents.
const USUAL_PRICE: u32 = 2002;

/// Why there is no table.
#[derive(Debug, Drop, Error)]
enum Trouble {
    #[error("the price is one number of cents, from 1 to {MAX_PRICE}\nusage: sample [PRICE]  (the price is {USUAL_PRICE} without one)")]
    Argument,
    #[error("no input: {0}")]
    Input(io::Error),
    #[error("no output: {0}")]
    Output(io::Error),
}

/// The price that a word says, or none. A sign has no meaning in a price.
fn price_in(word: &str) -> Option<u32> {
    let price = word.parse::<u32>().ok()?;
    (!word.starts_with('+') && (1..=MAX_PRICE).contains(&price)).then_some(price)
}

/// The price that the arguments ask, or the usual one where there is none.
fn asked_price(rt: &(impl Env + Alloc)) -> Result<u32, Trouble> {
    let mut words = env::args(rt).map_err(Trouble::Input)?.skip(1);
    match (words.next(), words.next()) {
        (None, _) => Ok(USUAL_PRICE),
        (Some(word), None) => price_in(word.as_str()).ok_or(Trouble::Argument),
        _ => Err(Trouble::Argument),
    }
}

fn run(rt: &(impl Env + Alloc + Print)) -> Result<(), Trouble> {
    let price = asked_price(rt)?;
    print_table(rt, price).map_err(Trouble::Output)
}

// An `Err` that `main` returns would be printed by `Debug` after `Error: `. The programs `cases`, `day`, `divide` and
// `sample` have these lines each: a crate for them would be longer.
fn main(rt: HostRuntime) -> ExitCode {
    match run(&rt) {
        Ok(()) => ExitCode::SUCCESS,
        Err(trouble) => {
            let _ = eprintln!(rt; "sample: {trouble}");
            ExitCode::FAILURE
        }
    }
}
