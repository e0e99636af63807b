//! The limits of paths, of files, and of the number of files.

ghost use Rattle.std.specs.Prelude.{◌≡◌};
ghost use Rattle.jc_input.specs.FileEdits as files_of;

use crate::edit::EditError;

const LONGEST_PATH: usize = 4_096;

/// The greatest size of a file, in bytes.
pub const LARGEST_FILE: usize = 16_777_216;

const MOST_FILES: usize = 65_535;

/// Returns `BadPath` if a path is empty or longer than 4,096 bytes.
pub fn path_refusal(path: &[u8]) -> Option<EditError>
    ensures { result ≡ files_of.path_refusal path.now }
{
    if path.is_empty() || path.len() > LONGEST_PATH {
        Some(EditError::BadPath)
    } else {
        None
    }
}

/// Returns `TooLarge` if a file has more than 16,777,216 bytes.
pub fn size_refusal(bytes: &[u8]) -> Option<EditError>
    ensures { result ≡ files_of.size_refusal bytes.now }
{
    if bytes.len() > LARGEST_FILE {
        Some(EditError::TooLarge)
    } else {
        None
    }
}

/// Returns `TooMany` if there are `count` files, and one more would exceed 65,535.
pub fn room_refusal(count: usize) -> Option<EditError>
    ensures { result ≡ files_of.room_beside count }
{
    if count < MOST_FILES {
        None
    } else {
        Some(EditError::TooMany)
    }
}
