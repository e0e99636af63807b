//! The classes of a session with their parts, and their update by edits.
//!
//! `Linkage` has the classes that files give, each with its part, its reach and its required rows. `Step` is an edit of
//! one class. `HeldClasses` and `Required` are iterators over a linkage, as `Circular` and `Provided` of `jc_report` are.
//!
//! The contracts say that after each edit each part is that of its class in the world of all classes and the outside
//! prefixes. An edit recomputes only the parts of affected classes, and looks up each name that they reach once. If an
//! allocation fails, the classes stay as they were.
#![tactic(auto)]

mod affected;
mod class_entry;
mod classes;
mod dependants;
mod edit;
mod laws;
mod linkage;
mod new_parts;
mod prefixes;
mod replacement;
mod row_index;
mod row_list;
mod row_map;
mod step;

pub use classes::HeldClasses;
pub use laws::counts_are_bounded;
pub use linkage::Linkage;
pub use row_index::Required;
pub use step::Step;
