//! Graphs of numbered nodes. A graph has, for each node, the list of the nodes that one step leads to.
//!
//! A node is circular if it can be reached from itself. [`sort_nodes`] finds the circular nodes, and an order in which
//! every other node comes after the nodes that its steps lead to. [`mark_above`] marks the nodes that can be reached
//! from some nodes, in a [`Seen`].
//!
//! The contracts say that these results are exact.
#![tactic(auto)]

mod above;
mod marks;
mod seen;
mod sorting;
mod successors;
mod walk;

pub use above::mark_above;
pub use seen::Seen;
pub use sorting::{Sorted, sort_nodes};
