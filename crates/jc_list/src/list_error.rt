//! The errors of a listing.

ghost use Rattle.std.specs.Prelude.{◌≡◌};
ghost use Rattle.jc_list.specs.declared.list_error.ListError.TheVariants.{NoMemory as NoMemoryLeft};
ghost use Rattle.jc_list.specs.ListErrors.{list_code};

use jc_base::NoMemory;

/// The reason why a listing is incomplete. A prefix of it was written.
#[derive(Clone, Copy, Debug, PartialEq, Eq)]
pub enum ListError {
    /// The output failed.
    Write,
    /// An allocation failed.
    NoMemory,
}

impl ListError {
    /// Returns the number of the error: 1 or 2.
    pub fn code(self) -> u8
        ensures { result ≡ list_code self }
    {
        match self {
            ListError::Write => 1,
            ListError::NoMemory => 2,
        }
    }
}

impl From<NoMemory> for ListError {
    ghost from_gives = { λ _ e. e ≡ NoMemoryLeft };

    fn from(_: NoMemory) -> ListError {
        ListError::NoMemory
    }
}
