// Shows a session through a sample day and its close: each call, and what it is answered.
#![tactic(auto)]

mod calls;
mod script;
mod texts;

use script::show_day;
use std::process::ExitCode;
use std::rt::Env;
use std::{env, io};
use thiserror::Error;

/// Why the day is not shown.
#[derive(Debug, Drop, Error)]
enum Trouble {
    #[error("the sample day takes no argument\nusage: day")]
    Argument,
    #[error("no input: {0}")]
    Input(io::Error),
    #[error("no output: {0}")]
    Output(io::Error),
}

/// Refuses any argument.
fn refuse_argument(rt: &(impl Env + Alloc)) -> Result<(), Trouble> {
    let mut words = env::args(rt).map_err(Trouble::Input)?.skip(1);
    match words.next() {
        None => Ok(()),
        Some(_) => Err(Trouble::Argument),
    }
}

fn run(rt: &(impl Env + Alloc + Print)) -> Result<(), Trouble> {
    refuse_argument(rt)?;
    show_day(rt).map_err(Trouble::Output)
}

// An `Err` that `main` returns would be printed by `Debug` after `Error: `. The programs `cases`, `day`, `divide` and
// `sample` have these lines each: a crate for them would be longer.
fn main(rt: HostRuntime) -> ExitCode {
    match run(&rt) {
        Ok(()) => ExitCode::SUCCESS,
        Err(trouble) => {
            let _ = eprintln!(rt; "day: {trouble}");
            ExitCode::FAILURE
        }
    }
}
