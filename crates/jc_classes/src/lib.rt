//! The facts of class files, and the definitions of linking.
//!
//! `Facts` has the data of a class file that linking uses: its names, flags, members, references and faults.
//! `References` are shared parts of it. `Numbers` numbers distinct names. `TextList` keeps many texts in one buffer.
//!
//! The contracts say that `Facts` are those of the class file, and that look-up in one class finds the right members.
//! `specs/` defines loading, access, resolution, errors of instructions and errors of inheritance (JVMS 4.10, 5.3.5,
//! 5.4.3, 5.4.4, 6.5). The functions of `laws` state what follows from these definitions.
#![tactic(auto)]

mod alike;
mod built_in;
mod class_texts;
mod descriptor_classes;
mod facts;
mod first_users;
mod laws;
mod linkage_error;
mod member;
mod member_lookup;
mod member_order;
mod named_before;
mod names;
mod numbers;
mod once;
mod read_facts;
mod reference;
mod references;
mod resolved_descriptors;
mod same_facts;
mod standing;
mod text_list;
mod used;
mod users;

pub use facts::{Facts, Faults};
pub use laws::{affected_by_either, links_are_exact, locality, part_is_one, users_are_used};
pub use linkage_error::LinkageError;
pub use member::{Key, Member};
pub use names::{less, same};
pub use numbers::Numbers;
pub use reference::{Reference, ReferenceKind};
pub use references::References;
pub use standing::Standing;
pub use text_list::TextList;
pub use used::User;
