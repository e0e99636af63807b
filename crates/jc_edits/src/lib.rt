//! Sessions: class files under edits.
//!
//! A [`Session`] has files and outside prefixes, and keeps their [`Report`] up to date while files are added, replaced and
//! removed, and prefixes added and dropped. It recomputes only the classes whose reach has a name that the edit touches.
//!
//! By the contracts, the report of a session is the one that `specs/` defines for the files and prefixes after any list of
//! edits. A refused edit changes nothing. The numbers of parts and look-ups of an accepted edit are exact.
#![tactic(auto)]

mod changes;
mod claimed_files;
mod claims;
mod file;
mod judge;
mod laws;
mod report;
mod report_text;
mod rows;
mod session;

pub use jc_input::{Done, Edit, EditError, LentEdit, PrefixEdit};
pub use jc_report::{FileRow, FileState, LentClass, references_are_by_index, winners_are_least};
pub use laws::{affected_either_way, edits_differ, reach_stays, touched_are_taken};
pub use report::Report;
pub use report_text::{WriteError, write_part_of, write_report};
pub use rows::Rows;
pub use session::Session;
