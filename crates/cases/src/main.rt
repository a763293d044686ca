// Plays stored files, each by arrival and by turns, and prints their tapes. A tape must not depend on how the file comes in pieces.
#![tactic(auto)]

mod files;
mod tapes;

use files::FILES;
use sharing::{ByArrival, ByTurns};
use std::process::ExitCode;
use std::rt::Files;
use std::{fs, io};
use tapes::print_tape;
use thiserror::Error;

/// Why not every tape is printed.
#[derive(Debug, Drop, Error)]
pub(crate) enum Trouble {
    /// With the name of the file.
    #[error("no file {0}.clo: {1}")]
    File(&'static str, io::Error),
    #[error("{0}")]
    Play(#[from] tape::Trouble),
    #[error("no output: {0}")]
    Output(io::Error),
    #[error("out of memory")]
    Memory,
}

/// Plays a stored file by each method.
fn play_file<R: Files + AllocGlobal + Print>(rt: &R, name: &'static str) -> Result<(), Trouble> {
    let path = format!(in rt.alloc(); "{name}.clo").map_err(|_| Trouble::Memory)?;
    let file = fs::read(rt, path).map_err(|error| Trouble::File(name, error))?;
    print_tape(rt, name, "arrival", &ByArrival, &file)?;
    print_tape(rt, name, "turns", &ByTurns, &file)
}

fn run<R: Files + AllocGlobal + Print>(rt: &R) -> Result<(), Trouble> {
    for name in FILES {
        play_file(rt, name)?;
    }
    Ok(())
}

// An `Err` that `main` returns would be printed by `Debug` after `Error: `. The programs `cases`, `day`, `divide` and
// `sample` have these lines each: a crate for them would be longer.
fn main(rt: HostRuntime) -> ExitCode {
    match run(&rt) {
        Ok(()) => ExitCode::SUCCESS,
        Err(trouble) => {
            let _ = eprintln!(rt; "cases: {trouble}");
            ExitCode::FAILURE
        }
    }
}
