//! The error of functions that fail only when an allocation fails.
ghost use Rattle.std.specs.Prelude.{◌≡◌};
ghost use Rattle.jc_base.specs.declared.no_memory.NoMemory.{NoMemory};

use std::alloc::{AllocError, AllocFailed};

/// The error of a failed allocation. A function with this error type fails for no other reason.
#[derive(Clone, Copy, Debug, PartialEq, Eq)]
pub struct NoMemory;

impl From<AllocError> for NoMemory {
    ghost from_gives = { λ _ e. e ≡ record {} };

    fn from(_: AllocError) -> NoMemory {
        NoMemory
    }
}

impl<T: Drop> From<AllocFailed<T>> for NoMemory {
    ghost from_gives = { λ _ e. e ≡ record {} };

    fn from(_: AllocFailed<T>) -> NoMemory {
        NoMemory
    }
}
