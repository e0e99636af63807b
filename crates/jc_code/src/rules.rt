//! The static constraints, each as a test.

pub(crate) mod constants;
pub(crate) mod handlers;
pub(crate) mod locals;
pub(crate) mod lookups;
pub(crate) mod targets;
