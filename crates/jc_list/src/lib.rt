//! The listing of a class file: its constants, members, attributes, instructions and faults as lines
//! of text, in the manner of `javap -c -p -v`.
#![tactic(auto)]

mod attributes;
mod class_lines;
mod code;
mod constants;
mod faults;
mod insns;
mod list_error;
mod listing;
mod members;
mod switches;
mod texts;

pub use faults::{write_code_fault_line, write_format_line};
pub use list_error::ListError;
pub use listing::{list_class, write_listing};
