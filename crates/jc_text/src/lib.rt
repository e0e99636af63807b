//! A buffered writer of text.
//!
//! [`TextWriter`] has a buffer of fixed size before an output. It writes numbers, names and paths as printable ASCII.
//! The contract of each function that writes says which text is sent. After a failed write, all later text is dropped.
#![tactic(auto)]

mod escapes;
mod numbers;
mod pending;
mod text_writer;

pub use text_writer::TextWriter;
