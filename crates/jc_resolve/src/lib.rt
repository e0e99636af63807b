//! Loading, look-up and resolution over the numbered classes of a class graph.
//!
//! `Hierarchy` has the classes of a graph, with how each loads (JVMS 5.3.5). It finds the answers to the references of
//! a class and its instructions that do not link, which are a `Linked` (JVMS 5.4.3, 6.5). It also finds the
//! `InheritanceErrors` of classes (JVMS 4.10), and the ABSTRACT methods for which they have no body, which are an
//! `Unimplemented` (JVMS 6.5).
//!
//! The contracts say that these results are right in every world that has the classes of the graph.
#![tactic(auto)]

mod abstract_methods;
mod all_answers;
mod all_inheritance;
mod all_loads;
mod answer_list;
mod answers;
mod entry;
mod fields;
mod hierarchy;
mod inheritance;
mod linked;
mod loaded;
mod look;
mod methods;
mod numbers_by_index;
mod references;
mod resolve;
mod selection;
mod site;
mod superinterfaces;
mod unimplemented;
mod workspace;

pub use abstract_methods::AbstractMethod;
pub use answer_list::Answers;
pub use answers::{Answer, AnswerKind};
pub use hierarchy::{Hierarchy, Loading};
pub use inheritance::{InheritanceErrors, Inherited};
pub use linked::{LinkError, LinkErrors, Linked};
pub use unimplemented::Unimplemented;
