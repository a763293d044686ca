// Why a program does not play a file to its end.
use std::io;
use thiserror::Error;

/// Why a program does not play a file to its end.
#[derive(Debug, Drop, Error)]
pub(crate) enum Trouble {
    /// With the name of the program.
    #[error("a file comes on standard input, and no argument is taken\nusage: {0}")]
    Argument(&'static str),
    /// The arguments cannot be read.
    #[error("no arguments: {0}")]
    Arguments(io::Error),
    #[error("{0}")]
    Play(#[from] tape::Trouble),
}
