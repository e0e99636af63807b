//! Tests of the devices over readers and writers of std.
//!
//! The contracts of these devices cannot say what a stream contains, so tests check it. This crate has no code of the
//! product, and the crates below it need no tests of their own.
#![tactic(auto)]

#[cfg(test)]
mod std_devices;
