// Plays a file of calls, and shares its close by arrival.
#![tactic(auto)]

use player::play;
use sharing::ByArrival;
use std::io;
use std::process::ExitCode;
use tape::{Reader, Writer};

fn main(rt: HostRuntime) -> ExitCode {
    let mut input = Reader(rt.reader());
    let mut output = Writer(io::writer(&rt));
    play(&rt, "arrival", &mut input, &mut output, &ByArrival)
}
