//! Why bytes are not a readable class file.

ghost use Rattle.std.specs.Prelude.{◌≡◌};
ghost use Rattle.jc_view.specs.declared.parse_error.ParseError.TheVariants.{NoMemory};

use std::alloc::{AllocError, AllocFailed};

/// The reason why [`parse`](crate::parse) refuses bytes: the first that applies, in the order of the variants. A place
/// is a byte offset in the file.
#[derive(Clone, Copy, Debug, PartialEq, Eq)]
pub enum ParseError {
    /// The first four bytes are present and are not `cafebabe`.
    Magic,
    /// The version is present and is neither 51 with any minor version nor 52.0.
    Version,
    /// `constant_pool_count` is present and is 0.
    Count,
    /// The constants before this place are whole and another must follow, but the byte at this place is not a tag.
    Tag(usize),
    /// The constants before this place are whole and leave only one index. The byte at this place is the tag of a
    /// `Long` or a `Double`, which needs two. The body of that constant may be missing.
    Wide(usize),
    /// The bytes before this place are a class file, and more bytes follow.
    Trailing(usize),
    /// The bytes do not begin with a class file.
    Short,
    /// The bytes are a class file whose `this_class` does not name a class.
    NoName,
    /// An allocation failed.
    NoMemory,
}

impl ParseError {
    ghost use Rattle.jc_view.specs.Refusal.{refusal_number};

    /// Returns the number of the refusal: 1 for the first variant, and so on in their order.
    pub fn code(&self) -> u8
        ensures { result ≡ refusal_number self.now }
    {
        match self {
            ParseError::Magic => 1,
            ParseError::Version => 2,
            ParseError::Count => 3,
            ParseError::Tag(_) => 4,
            ParseError::Wide(_) => 5,
            ParseError::Trailing(_) => 6,
            ParseError::Short => 7,
            ParseError::NoName => 8,
            ParseError::NoMemory => 9,
        }
    }
}

impl From<AllocError> for ParseError {
    ghost from_gives = { λ _ e. e ≡ NoMemory };

    fn from(_: AllocError) -> ParseError {
        ParseError::NoMemory
    }
}

impl<T: Drop> From<AllocFailed<T>> for ParseError {
    ghost from_gives = { λ _ e. e ≡ NoMemory };

    fn from(_: AllocFailed<T>) -> ParseError {
        ParseError::NoMemory
    }
}
