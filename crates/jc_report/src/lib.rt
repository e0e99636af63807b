//! The report over a tree of class files.
//!
//! A [`Tree`] keeps the facts of the files that are added to it, but not their bytes. [`TreeReport`] has the state of each
//! file and the part of each class: how it loads, its faults, and what its references resolve to. It also has the circular
//! classes, and the rows that the tree provides and requires. [`TreeErrors`] adds what a report does not have: the errors of
//! inheritance, and the ABSTRACT methods for which classes have no body. `write_report` and `write_errors` print them.
//!
//! `Circular` and `Provided` are the iterators over the names of the circular classes and over the provided rows, of a tree
//! or of a session. A [`ClassIterator`] gives them the classes.
//!
//! By the contracts, the report is the one that `specs/` defines for the files and the outside prefixes, and what is
//! written is its text.
#![tactic(auto)]

mod asked;
mod circular;
mod class_iterator;
mod class_rows;
mod errors_text;
mod file_row;
mod inheritance_errors;
mod laws;
mod lent_class;
mod member_rows;
mod method_errors;
mod outcome;
mod part_text;
mod provided;
mod provided_rows;
mod reference_errors;
mod reference_place;
mod report;
mod report_text;
mod required_references;
mod required_row;
mod required_rows;
mod row;
mod row_set;
mod tree;
mod tree_errors;
mod use_place;
mod winner;

pub use asked::Asked;
pub use circular::Circular;
pub use class_iterator::{ClassIterator, ClassesLeft};
pub use errors_text::write_errors;
pub use file_row::{FileRow, FileState, write_refusal};
pub use laws::{
    errors_are_told, keys_keep_order, references_are_by_index, report_is_one, winners_are_least,
};
pub use lent_class::{LentClass, LentClasses};
pub use part_text::write_part;
pub use provided::Provided;
pub use provided_rows::{ProvidedRows, provided_in_order};
pub use report::{TreeReport, is_any_wrong};
pub use report_text::{ReportLists, write_lists, write_name, write_report};
pub use required_references::{required_numbers, rows_of};
pub use required_row::RequiredRow;
pub use required_rows::RequiredRows;
pub use row::Row;
pub use tree::{AddError, Tree};
pub use tree_errors::TreeErrors;
pub use winner::wins;
