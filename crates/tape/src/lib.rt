// The tape of a file: a run that takes the file piece by piece, as it comes, and answers the lines that are due, one at a call.
#![tactic(auto)]

mod begun;
mod ends;
mod header;
mod lines;
mod memory;
mod play;
mod run;
mod sending;
mod trouble;

pub use ends::{Reader, Sink, Source, Writer};
pub use memory::{Memory, play_in_memory};
pub use play::play_file;
pub use run::{Advance, Run};
pub use trouble::Trouble;
