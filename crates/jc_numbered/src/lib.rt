//! The steps of look-up among the numbered classes of a class graph.
//!
//! `Classes` has the names, classes and supertypes by number. `Above` has the transitive supertypes of a class. The
//! functions find how a class loads by its supertypes (JVMS 5.3.5), access (JVMS 5.4.4), and where look-up continues. They
//! choose among superinterfaces (JVMS 5.4.3.2 to 5.4.3.4). `FinalSearch` finds overridden FINAL methods (JVMS 4.10, 5.4.5).
//!
//! The contracts hold in every world that has these classes. Only `jc_resolve` uses this crate.
#![tactic(auto)]

mod above;
mod access;
mod chain;
mod classes;
mod loads;
mod overriding;
mod packages;
mod picks;
mod polymorphic;
mod subclasses;

pub use above::Above;
pub use access::{AccessTarget, can_use};
pub use classes::{Classes, FoundMember};
pub use loads::{Load, can_see, judge_each};
pub use overriding::{FinalSearch, key_of, overridable};
pub use packages::package_ends;
pub use picks::{candidates, is_pick, lowest};
pub use subclasses::depth_first;
