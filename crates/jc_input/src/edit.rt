//! Edits of files and of outside prefixes, and their refusals.

ghost use Rattle.std.specs.Prelude.{◌≡◌};
ghost use Rattle.jc_input.specs.declared.edit.EditError.TheVariants.{NoMemory};
ghost use Rattle.jc_input.specs.Changes.{path_of, change_lent};

use jc_base::NoMemory;
use std::alloc::{AllocError, AllocFailed};
use thiserror::Error;

/// An edit of the files or of the outside prefixes. It owns its paths, bytes and prefixes; a refusal drops them.
#[derive(Drop)]
pub enum Edit {
    /// Adds a file: its path and its bytes.
    Add(Vec<u8>, Vec<u8>),
    /// Replaces the bytes of a file: its path and the new bytes.
    Replace(Vec<u8>, Vec<u8>),
    /// Removes a file: its path.
    Remove(Vec<u8>),
    /// Adds an outside prefix.
    AddPrefix(Vec<u8>),
    /// Drops an outside prefix.
    DropPrefix(Vec<u8>),
}

/// An edit of the outside prefixes, with a borrowed prefix.
#[derive(Clone, Copy)]
pub enum PrefixEdit<'a> {
    /// Adds a prefix.
    Add(&'a [u8]),
    /// Drops a prefix.
    Drop(&'a [u8]),
}

/// An edit of the files, with a borrowed path.
#[derive(Drop)]
pub enum LentEdit<'a> {
    /// Adds a file: its path and its bytes.
    Add(&'a [u8], Vec<u8>),
    /// Replaces the bytes of a file: its path and the new bytes.
    Replace(&'a [u8], Vec<u8>),
    /// Removes a file: its path.
    Remove(&'a [u8]),
}

impl LentEdit<'_> {
    /// Returns the path of the edited file.
    pub fn path(&self) -> &[u8]
        ensures { result.now ≡ path_of (change_lent self.now) }
    {
        match self {
            LentEdit::Add(path, _) | LentEdit::Replace(path, _) | LentEdit::Remove(path) => path,
        }
    }
}

/// The cost of an accepted edit: `made` parts were computed, and names were looked up `asks` times.
#[derive(Clone, Copy)]
pub struct Done {
    pub made: u64,
    pub asks: u64,
}

/// Why an edit is refused.
///
/// It is the first refusal that applies. The order for files is `BadPath`, `AlreadyThere` or `NoSuchFile`, `TooLarge`,
/// `TooMany`. The order for prefixes is `BadPrefix`, `PrefixThere` or `NoSuchPrefix`, `TooManyPrefixes`. `NoMemory` is
/// returned only if none of the others applies and an allocation fails.
#[derive(Clone, Copy, Debug, PartialEq, Eq, Error)]
pub enum EditError {
    /// `Add`: there is a file at the path.
    #[error("a file stands at the path")]
    AlreadyThere,
    /// `Replace` and `Remove`: there is no file at the path.
    #[error("no file stands at the path")]
    NoSuchFile,
    /// `Add` and `Replace`: there are more than 16,777,216 bytes.
    #[error("the file is larger than 16,777,216 bytes")]
    TooLarge,
    /// `Add`: there are 65,535 files already.
    #[error("there are 65,535 files")]
    TooMany,
    /// The path is empty or longer than 4,096 bytes.
    #[error("the path is empty or longer than 4,096 bytes")]
    BadPath,
    /// An allocation failed.
    #[error("memory was refused")]
    NoMemory,
    /// The prefix is empty or longer than 256 bytes.
    #[error("the prefix is empty or longer than 256 bytes")]
    BadPrefix,
    /// `AddPrefix`: the prefix is one of the outside prefixes.
    #[error("the prefix is held")]
    PrefixThere,
    /// `DropPrefix`: the prefix is none of the outside prefixes.
    #[error("the prefix is not held")]
    NoSuchPrefix,
    /// `AddPrefix`: there are 64 outside prefixes already.
    #[error("64 prefixes are held")]
    TooManyPrefixes,
}

impl EditError {
    ghost use Rattle.jc_input.specs.EditErrors.{edit_code, edit_error_name};

    /// Returns the number of the refusal, from 1, in the order of the variants.
    pub fn code(&self) -> u8
        ensures { result ≡ edit_code self.now }
    {
        match self {
            EditError::AlreadyThere => 1,
            EditError::NoSuchFile => 2,
            EditError::TooLarge => 3,
            EditError::TooMany => 4,
            EditError::BadPath => 5,
            EditError::NoMemory => 6,
            EditError::BadPrefix => 7,
            EditError::PrefixThere => 8,
            EditError::NoSuchPrefix => 9,
            EditError::TooManyPrefixes => 10,
        }
    }

    /// Returns the name of the variant.
    pub fn name(&self) -> &'static [u8]
        ensures { result.now ≡ edit_error_name self.now }
    {
        match self {
            EditError::AlreadyThere => b"AlreadyThere",
            EditError::NoSuchFile => b"NoSuchFile",
            EditError::TooLarge => b"TooLarge",
            EditError::TooMany => b"TooMany",
            EditError::BadPath => b"BadPath",
            EditError::NoMemory => b"NoMemory",
            EditError::BadPrefix => b"BadPrefix",
            EditError::PrefixThere => b"PrefixThere",
            EditError::NoSuchPrefix => b"NoSuchPrefix",
            EditError::TooManyPrefixes => b"TooManyPrefixes",
        }
    }
}

impl From<AllocError> for EditError {
    ghost from_gives = { λ _ e. e ≡ NoMemory };

    fn from(_: AllocError) -> EditError {
        EditError::NoMemory
    }
}

impl<T: Drop> From<AllocFailed<T>> for EditError {
    ghost from_gives = { λ _ e. e ≡ NoMemory };

    fn from(_: AllocFailed<T>) -> EditError {
        EditError::NoMemory
    }
}

impl From<NoMemory> for EditError {
    ghost from_gives = { λ _ e. e ≡ NoMemory };

    fn from(_: NoMemory) -> EditError {
        EditError::NoMemory
    }
}
