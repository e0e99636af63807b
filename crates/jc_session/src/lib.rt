//! The program `jclink`, except its standard streams.
//!
//! `program` parses the arguments with `clap`, performs the command `session`, `list` or `check`, and returns the exit
//! status. `check` reads the files of a tree from a `Source`. It writes their report or their errors, by a `CheckForm`.
//! For each line of an input, `run` writes an answer. Files and their report are kept in a `Session`.
//!
//! The contracts say which text is written, also at an error. For a session they do so if the bytes of its input are
//! known. They say which status is returned, and when a failure of a device is counted. They do not say that the walk
//! of a folder finds its class files, or that a source returns what a file contains.
#![tactic(auto)]

mod answer;
mod answer_text;
mod command_line;
mod file_listing;
mod folder;
mod laws;
mod line_session;
mod program_error;
mod tree_check;
mod walk;
mod words;

pub use command_line::program;
pub use jc_edits::{
    Done, Edit, EditError, FileRow, FileState, Report, Rows, Session, WriteError,
    winners_are_least, write_report,
};
pub use jc_input::{Ended, FileSource, MemSource, RunError, Source, SourceError};
pub use laws::one_run;
pub use line_session::run;
pub use tree_check::{CheckError, CheckForm, check};
