//! How a run of a session ends.
ghost use Rattle.std.specs.Prelude.{◌≡◌};
ghost use Rattle.jc_input.specs.declared.run_error.RunError.TheVariants as errors;
ghost use Rattle.jc_input.specs.RunErrors.{run_code};

use jc_base::NoMemory;
use thiserror::Error;

/// How a run ends without an error.
#[derive(Clone, Copy, Debug, PartialEq, Eq)]
pub enum Ended {
    /// With the line `end`. Later lines are not answered.
    End,
    /// With the end of the input. All lines were answered.
    Eof,
}

/// Why a run stops early.
#[derive(Clone, Copy, Debug, PartialEq, Eq, Error)]
pub enum RunError {
    /// The input failed.
    #[error("the input failed")]
    Read,
    /// The output failed.
    #[error("the output failed")]
    Write,
    /// An allocation failed in the run or in its source.
    #[error("memory was refused")]
    NoMemory,
}

impl RunError {
    /// Returns the number of the error, from 1, in the order of the variants.
    pub fn code(&self) -> u8
        ensures { result ≡ run_code self.now }
    {
        match self {
            RunError::Read => 1,
            RunError::Write => 2,
            RunError::NoMemory => 3,
        }
    }
}

impl From<NoMemory> for RunError {
    ghost from_gives = { λ _ e. e ≡ errors.NoMemory };

    fn from(_: NoMemory) -> RunError {
        RunError::NoMemory
    }
}
