//! Sorted lists of names, and an index from names to such lists.
//!
//! [`NameList`] is a list that can change. [`PackedNames`] is a list in one buffer that does not change. [`Index`] has
//! the users of each name, and can add or remove a user at many names.
//!
//! The contracts describe these lists by the names that they have. A list is sorted by bytes and has no duplicates.
#![tactic(auto)]

mod index;
mod name_list;
mod packed_names;

pub use index::{Index, Keys};
pub use name_list::NameList;
pub use packed_names::PackedNames;
