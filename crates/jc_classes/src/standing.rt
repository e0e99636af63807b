//! What a name is in a world.

use crate::facts::Facts;

/// What a name is in a world.
#[derive(Clone, Copy)]
pub enum Standing<'a> {
    /// A class, by its facts.
    Class(&'a Facts),
    /// An outside name, of which nothing else is known.
    Outside,
    /// Neither a class nor outside.
    Absent,
}
