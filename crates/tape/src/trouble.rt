// Why a file is not played to its end.
ghost use Rattle.std.specs.Prelude.{◌≡◌};
ghost use Rattle.tape.specs.declared.trouble.Trouble.TheVariants.{Output};
ghost use Rattle.tape.specs.Played.{as_trouble};

use std::io;
use thiserror::Error;

/// Why a file is not played to its end.
#[derive(Debug, Drop, Error)]
pub enum Trouble {
    /// A read failed.
    #[error("no input: {0}")]
    Input(io::Error),
    /// A write or a flush failed.
    #[error("no output: {0}")]
    Output(io::Error),
}

/// The trouble of an output that failed.
pub(crate) fn of_output(written: io::Result<()>) -> Result<(), Trouble>
    ensures value { result ≡ as_trouble Output written }
{
    match written {
        Ok(()) => Ok(()),
        Err(error) => Err(Trouble::Output(error)),
    }
}
