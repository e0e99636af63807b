//! The format faults of a readable class file (JVMS 4.1 to 4.8).
//!
//! [`format_faults`] returns a [`Fault`] for each place where a class file breaks a [`FormatRule`]. Its contract refers
//! to a definition of each rule in the terms of the standard: the list has all faults, once each, in order.
//! [`AccessFlag`] names the access flags of classes, fields and methods.
//!
//! The crate re-exports `parse` and the views of `jc_view`, for programs that use no other crate.
#![tactic(auto)]

mod access_flag;
mod attributes;
mod bootstraps;
mod broken;
mod classes;
mod constants;
mod fault;
mod fault_laws;
mod faults;
mod fields;
mod flags;
mod method_attributes;
mod methods;
mod names;
mod recognised;
mod repeated;
mod repeats;
mod rule_set;
mod tables;
mod text_numbers;
mod texts;

pub use access_flag::{AccessFlag, access_flags_are_tabled};
pub use fault::{Fault, FormatRule};
pub use fault_laws::{
    attributes_are_recognised, fault_examples, faults_are_exact, faults_are_violations,
};
pub use faults::format_faults;
pub use jc_view::{
    Attribute, AttributeKind, Attributes, ClassView, Code, Constant, ConstantIndex, ConstantKind,
    ExceptionHandler, Handlers, Holder, Interfaces, Member, Members, ParseError, Version, parse,
};
