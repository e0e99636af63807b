//! The input of a session.
//!
//! [`Edit`] is an edit of the files or of the outside prefixes, and [`EditError`] its refusal. `read_line` reads a line of an
//! input, and `parse_line` finds its [`Command`]. A [`Source`] returns the bytes of files. A [`FileSource`] reads them, and a
//! [`MemSource`] has them in memory.
//!
//! The contracts define each refusal and the order of the refusals. They say how an input is cut into lines, and how many
//! bytes are kept of a line that is too long.
#![tactic(auto)]

mod command;
mod edit;
mod limits;
mod lines;
mod run_error;
mod source;

pub use command::{Command, parse_line};
pub use edit::{Done, Edit, EditError, LentEdit, PrefixEdit};
pub use limits::{LARGEST_FILE, path_refusal, room_refusal, size_refusal};
pub use lines::{Ahead, Line, read_line};
pub use run_error::{Ended, RunError};
pub use source::{FileSource, MemSource, Source, SourceError};
