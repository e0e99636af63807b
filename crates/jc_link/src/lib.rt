//! Linking of classes: their table, their graph and their parts.
//!
//! `Table` has the classes that files give, and `Outside` the outside prefixes. `ClassGraph` has some classes with all
//! that they reach. A `PartMaker` computes the `Part` and the reach of each class of a graph. A `Part` has the faults
//! of a class, how it loads, its answers, and its instructions that do not link (JVMS 5.3.5, 5.4.3, 6.5). `gather` and
//! `make_part` make the part of one class.
//!
//! The contracts say that a part is that of its class in the world of the table and the prefixes. A `Meter` counts the
//! look-ups in a table and the parts that are computed.
#![tactic(auto)]

mod closure;
mod graph;
mod laws;
mod meter;
mod numbering;
mod outside;
mod part;
mod part_maker;
mod reached;
mod table;

pub use closure::{Closure, gather};
pub use graph::ClassGraph;
pub use jc_classes::{
    Facts, Key, LinkageError, Member, Reference, ReferenceKind, affected_by_either,
    links_are_exact, locality, part_is_one,
};
pub use jc_resolve::{Answer, AnswerKind, Answers, LinkError, LinkErrors, Loading};
pub use laws::{places_change, prefixes_differ, reach_stays, worlds_differ};
pub use meter::Meter;
pub use outside::{MOST_PREFIXES, Outside, OutsideError, is_bad_prefix};
pub use part::{Part, make_part};
pub use part_maker::PartMaker;
pub use table::{Table, TableClasses};
