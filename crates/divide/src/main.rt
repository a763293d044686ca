// Divides an amount over claims, given as arguments or else on standard input, and prints the table.
#![tactic(auto)]

use division::{Fault, divided};
use std::io::{Read, Write};
use std::process::ExitCode;
use std::{env, io};
use thiserror::Error;

/// Why there is no table.
#[derive(Debug, Drop, Error)]
enum Trouble {
    #[error("{0}\nusage: divide AMOUNT CLAIM ..  (or the same words on standard input)")]
    Fault(Fault),
    #[error("no input: {0}")]
    Input(io::Error),
    #[error("no output: {0}")]
    Output(io::Error),
}

/// The arguments, each with a blank after it, or standard input where there are none.
fn input(rt: &HostRuntime) -> io::Result<Vec<u8>> {
    let mut text = Vec::new(rt.alloc());
    for word in env::args(rt)?.skip(1) {
        text.extend_from_slice(word.as_bytes())?;
        text.push(b' ')?;
    }
    if text.is_empty() {
        rt.stdin().read_to_end(&mut text)?;
    }
    Ok(text)
}

fn run(rt: &HostRuntime) -> Result<(), Trouble> {
    let text = input(rt).map_err(Trouble::Input)?;
    let table = divided(rt.alloc(), &text).map_err(Trouble::Fault)?;
    rt.stdout()
        .write_all(table.as_bytes())
        .map_err(Trouble::Output)
}

// An `Err` that `main` returns would be printed by `Debug` after `Error: `. The programs `cases`, `day`, `divide` and
// `sample` have these lines each: a crate for them would be longer.
fn main(rt: HostRuntime) -> ExitCode {
    match run(&rt) {
        Ok(()) => ExitCode::SUCCESS,
        Err(trouble) => {
            let _ = eprintln!(rt; "divide: {trouble}");
            ExitCode::FAILURE
        }
    }
}

#[cfg(test)]
mod tests;
